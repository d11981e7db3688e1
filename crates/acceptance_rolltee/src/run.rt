// Runs of the program.
use crate::expect::expect_eq;
use crate::logs::{OneLog, TestLog};
use program_io::options::{Options, Request, read};
use rolltee_core::tee::{Logs, tee_with};
use std::alloc::{AllocError, Global};
use std::io;
use std::io::{Read, Write};
use std::process::Abort;
use tracing_appender::non_blocking::Host;

/// Returns the words of a command line that one space separates.
pub(crate) fn words_of(alloc: Global, line: &str) -> Result<Vec<String>, AllocError> {
    let mut words = Vec::new(alloc);
    for word in line.split(' ') {
        words.push(word.to_string(alloc)?)?;
    }
    Ok(words)
}

/// Returns what a command line asks for.
pub(crate) fn request_of<R: AllocGlobal + Abort>(rt: &R, line: &str) -> (Options, Vec<String>) {
    let words = words_of(rt.alloc(), line).expect(rt, "memory");
    match read(rt.alloc(), words.as_slice()) {
        Ok(Request::Run(options, arguments)) => (options, arguments),
        _ => panic!(rt; "{line}"),
    }
}

/// Runs the program with this command line, and returns its status and what it reports.
pub(crate) fn run<R: Host + Abort, L: Logs, I: Read, O: Write + Drop>(
    rt: R,
    logs: L,
    line: &str,
    input: &mut I,
    output: O,
) -> (u8, Vec<u8>) {
    let (options, arguments) = request_of(&rt, line);
    let mut errors = Vec::new(rt.alloc());
    let arguments = arguments.as_slice();
    let status = match tee_with(rt, logs, &options, arguments, input, output, &mut errors) {
        Ok(_) => 0,
        Err(status) => status,
    };
    (status, errors)
}

/// The same, and compares its status and what it reports, in which `@` is the title of the log.
pub(crate) fn check<R: Host + Abort, L: Logs, I: Read, O: Write + Drop>(
    rt: R,
    logs: L,
    line: &str,
    input: &mut I,
    output: O,
    told: (u8, &str),
) {
    let (status, errors) = run(rt, logs, line, input, output);
    let wanted = titled(&rt, line, told.1).expect(&rt, "memory");
    expect_eq(&rt, errors.as_slice(), wanted.as_bytes());
    expect_eq(&rt, status, told.0);
}

// Returns a text with the title of the log of this command line in place of each `@`.
fn titled<R: AllocGlobal + Abort>(rt: &R, line: &str, text: &str) -> Result<String, AllocError> {
    let (_, arguments) = request_of(rt, line);
    let title = match arguments.as_slice() {
        [_, directory, prefix] => format!(in rt.alloc(); "rolltee: {directory}/{prefix}: ")?,
        _ => String::new(rt.alloc()),
    };
    let mut whole = String::new(rt.alloc());
    for (place, part) in text.split('@').enumerate() {
        if place > 0 {
            whole.push_str(title.as_str())?;
        }
        whole.push_str(part)?;
    }
    Ok(whole)
}

/// The same over this log.
pub(crate) fn check_log<R: Host + Abort, L: TestLog + Send + Drop + 'static, I: Read>(
    rt: R,
    log: L,
    line: &str,
    input: &mut I,
    told: (u8, &str),
) {
    check(rt, OneLog::new(log), line, input, io::sink(), told);
}
