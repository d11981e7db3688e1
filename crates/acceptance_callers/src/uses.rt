// Each caller over a log in a folder of the disk, and over one that takes no line of two or more bytes.
use appender_log::start;
use bytes::{BufMut, Bytes};
use callers::access_log::AccessLog;
use callers::audit_sink::{Source, audit};
use callers::handlers::{handle, log_request};
use callers::logger::{log_reads, open_log};
use callers::one_line::{greet, log_all, log_line};
use callers::supervisor::{Captured, Copied, capture, copy};
use http::Request;
use http_server::{Config, Connection, Response, Service, serve};
use std::alloc::{AllocError, Global};
use std::fs::Files;
use std::hash::RandomState;
use std::io::Write;
use std::process::Abort;
use std::test::Fail;
use std::{fs, io};
use tracing_appender::non_blocking::{Closing, Host, Losses, NonBlockingBuilder};
use tracing_appender::rolling::{Builder, FileAppender, ManualClock, never};
use tracing_appender::store::MemoryFolder;

const DONE: Closing = Closing::Done { left: 0 };

// Takes one byte, and fails at the next write.
#[derive(Drop)]
struct Full {
    is_next: bool,
}

impl Full {
    fn new() -> Full {
        Full { is_next: false }
    }
}

impl Write for Full {
    fn write(&mut self, buf: &[u8]) -> io::Result<usize> {
        let fails = self.is_next;
        self.is_next = !fails && buf.len() > 1;
        if fails {
            return Err(io::Error::other("full"));
        }
        Ok(buf.len().min(1))
    }

    fn flush(&mut self) -> io::Result<()> {
        Ok(())
    }
}

// Opens a log in the folder `logs`, without what an earlier run left.
fn open(rt: HostRuntime, name: &str) -> io::Result<FileAppender> {
    let path = format!(in rt.alloc(); "logs/{name}")?;
    let _ = fs::remove_file(&rt, path);
    Ok(never(rt, "logs", name)?)
}

// Fails the test unless the log of that name has this text.
fn expect_log<R: Files + AllocGlobal + Abort>(rt: &R, name: &str, wanted: &str) {
    let path = format!(in rt.alloc(); "logs/{name}").expect(rt, "memory");
    let text = fs::read_to_string(rt, path.as_str()).expect(rt, "a file");
    assert!(rt; text.as_str() == wanted, "{text} instead of {wanted}");
}

// Returns the text of all files of a folder, in the order of their names.
fn text_in(rt: &HostRuntime, directory: &str) -> io::Result<String> {
    let mut paths = Vec::new(rt.alloc());
    for entry in fs::read_dir(rt, directory)? {
        let entry = entry?;
        let name = entry.file_name();
        paths.push(format!(in rt.alloc(); "{directory}/{name}")?)?;
    }
    paths.sort_unstable();
    let mut text = String::new(rt.alloc());
    for path in &paths {
        let part = fs::read_to_string(rt, path.as_str())?;
        text.push_str(part.as_str())?;
    }
    Ok(text)
}

#[test]
fn the_logger_writes_each_record(rt: HostRuntime) -> Result<(), Fail> {
    let _ = fs::remove_dir_all(&rt, "service");
    log_reads(rt, open_log(rt, "service")?, &[3, 512])?;
    let text = text_in(&rt, "service")?;
    assert_eq!(rt;
        text.as_str(),
        "[INFO  db] read rows=3\n[INFO  db] read rows=512\n"
    );
    let Err(error) = log_reads(rt, Full::new(), &[3, 512]) else {
        return Err(Fail::from(io::Error::other("no record was lost")));
    };
    let text = format!(in rt.alloc(); "{error}")?;
    assert_eq!(rt; text.as_str(), "lines not written whole: 2");
    Ok(())
}

#[test]
fn handlers_share_a_log(rt: HostRuntime) -> Result<(), Fail> {
    let log = open(rt, "handlers")?;
    handle(rt, &log, 1)?;
    handle(rt, &log, 2)?;
    expect_log(&rt, "handlers", "GET /item/1 200\nGET /item/2 200\n");
    let log = start(rt, Full::new())?;
    log_request(&log, 7);
    assert_eq!(rt; log.close(), Losses::NONE.and_unwritten(1));
    Ok(())
}

// A service whose response is a letter.
#[derive(Drop)]
struct Letter;

impl Service for Letter {
    ghost answers = { λ _ _ _ _. Unit {0} };

    fn call(
        &mut self,
        _request: &Request<Bytes>,
        response: &mut Response,
    ) -> Result<(), AllocError> {
        response.body.put_u8(b'h')?;
        Ok(())
    }
}

static REQUESTS: &[u8] =
    b"GET /a?b HTTP/1.1\r\nhost: x\r\n\r\nPUT / HTTP/1.1\r\nhost: x\r\nconnection: close\r\n\r\n";

// Serves two requests, and returns the number of bytes in the responses.
fn serve_two<S: Service>(rt: HostRuntime, service: &mut S) -> io::Result<usize> {
    let mut connection = Connection::new(rt.alloc(), RandomState::new(&rt)?, Config::default());
    let mut input = REQUESTS;
    let mut output = Vec::new(rt.alloc());
    serve(&mut connection, service, &mut input, &mut output)?;
    Ok(output.len())
}

#[test]
fn the_access_log_has_a_line_for_each_request(rt: HostRuntime) -> Result<(), Fail> {
    let plain = serve_two(rt, &mut Letter)?;
    let (lines, guard) = NonBlockingBuilder::default().finish(rt, rt.alloc(), open(rt, "access")?)?;
    let mut logged = AccessLog::new(rt.alloc(), Letter, lines);
    assert_eq!(rt; serve_two(rt, &mut logged)?, plain);
    assert_eq!(rt; logged.lost(), 0);
    assert_eq!(rt; guard.close(), DONE);
    expect_log(&rt, "access", "GET /a?b 200\nPUT / 200\n");
    let mut unlogged = AccessLog::new(rt.alloc(), Letter, Full::new());
    assert_eq!(rt; serve_two(rt, &mut unlogged)?, plain);
    assert_eq!(rt; unlogged.lost(), 2);
    Ok(())
}

// Captures three lines. A function without a contract, so that the tests have none of the facts of `capture`.
fn capture_three<R: Host, W: Write + Send + Drop + 'static>(rt: R, log: W) -> io::Result<Captured> {
    let mut output = b"a\n\nbc".as_slice();
    capture(rt, &mut output, log)
}

// Copies the same lines to a log that takes no line of two bytes.
fn copy_three(alloc: Global) -> io::Result<Copied> {
    let mut output = b"a\n\nbc".as_slice();
    copy(alloc, &mut output, &mut Full::new())
}

#[test]
fn the_supervisor_reports_what_was_lost(rt: HostRuntime) -> Result<(), Fail> {
    let whole = capture_three(rt, open(rt, "child")?)?;
    assert!(rt; whole.is_whole());
    assert_eq!(rt; whole.copied, Copied { lines: 3, cut: 0 });
    expect_log(&rt, "child", "a\n\nbc");
    let cut = capture_three(rt, Full::new())?;
    assert!(rt; !cut.is_whole());
    let copied = Copied { lines: 3, cut: 0 };
    let wanted = Captured {
        copied,
        dropped: 0,
        taken: 1,
        lost: 2,
        closing: DONE,
    };
    assert_eq!(rt; cut, wanted);
    assert_eq!(rt; copy_three(rt.alloc())?, Copied { lines: 3, cut: 2 });
    Ok(())
}

fn source(alloc: Global, line: &[u8]) -> Result<Source, AllocError> {
    let mut lines = Vec::new(alloc);
    lines.push(line.to_vec(alloc)?)?;
    Ok(Source {
        lines,
        is_queued: false,
    })
}

// Two sources: one with two lines, and one with none.
fn sources(alloc: Global) -> Result<Vec<Source>, AllocError> {
    let mut first = source(alloc, b"a\n")?;
    first.lines.push(b"bc\n".to_vec(alloc)?)?;
    let mut second = source(alloc, b"")?;
    second.lines.clear();
    let mut all = Vec::new(alloc);
    all.push(first)?;
    all.push(second)?;
    Ok(all)
}

// A source with a line of one byte.
fn short_source(alloc: Global) -> Result<Vec<Source>, AllocError> {
    let mut one = Vec::new(alloc);
    one.push(source(alloc, b"a")?)?;
    Ok(one)
}

// Audits sources, and drops the log. Returns whether it has all lines.
fn is_audited<R: Host, W: Write + Send + Drop + 'static>(
    rt: R,
    log: W,
    sources: Vec<Source>,
) -> bool {
    audit(rt, log, sources).is_ok()
}

#[test]
fn the_audit_has_each_line_once(rt: HostRuntime) -> Result<(), Fail> {
    assert!(rt; is_audited(rt, open(rt, "audit")?, sources(rt.alloc())?));
    expect_log(&rt, "audit", "a\nbc\n");
    assert!(rt; !is_audited(rt, Full::new(), sources(rt.alloc())?));
    assert!(rt; is_audited(rt, Full::new(), short_source(rt.alloc())?));
    Ok(())
}

fn is_greeted<R: Host, W: Write + Send + Drop + 'static>(rt: R, log: W) -> io::Result<bool> {
    Ok(greet(rt, log)?.is_some())
}

#[test]
fn a_greeting_is_known_to_be_there(rt: HostRuntime) -> Result<(), Fail> {
    assert!(rt; is_greeted(rt, open(rt, "greeting")?)?);
    expect_log(&rt, "greeting", "hello");
    assert!(rt; !is_greeted(rt, Full::new())?);
    Ok(())
}

#[test]
fn a_line_that_the_log_has(rt: HostRuntime) -> Result<(), Fail> {
    // Call 1 opens the file. Calls 2 and 4 take one byte, and call 5 takes the rest.
    let mut folder = MemoryFolder::new(rt.alloc());
    folder.short_append(2, 1)?;
    folder.short_append(4, 1)?;
    let mut log = Builder::new()
        .open_in(rt.alloc(), folder, ManualClock::new(0))
        .map_err(|(error, _, _)| io::Error::from(error))?;
    assert!(rt; log_line(&mut log, b"a\n").is_err());
    log_line(&mut log, b"b\n")?;
    log_all(&mut log, b"c\n")?;
    let (folder, _) = log.into_parts();
    assert_eq!(rt;
        folder.bytes("1970-01-01").expect(&rt, "a file"),
        b"ab\nc\n".as_slice()
    );
    Ok(())
}
