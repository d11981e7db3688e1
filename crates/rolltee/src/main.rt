//! Writes each line of standard input to a log: `rolltee ROTATION DIR PREFIX [OPTION]...`. The log begins a new file each
//! minute, hour, day or week of UTC. One thread reads the lines, and another writes them, but with `--direct`.
#![tactic(auto)]

use program_io::options::{Request, read};
use program_io::report::print;
use program_io::streams::fill_streams;
use program_io::{arguments, version};
use rolltee_core::tee;
use rolltee_core::tee::{Fault, PROGRAM};
use std::process::ExitCode;
use tracing_appender::non_blocking::Host;

static HELP: &str = concat!(
    "Writes each line of standard input to a log whose files begin at times of UTC.\n",
    "\n",
    "usage: rolltee ROTATION DIR PREFIX [OPTION]...\n",
    "       rolltee --help | -h | --version\n",
    "\n",
    "  ROTATION       minutely, hourly, daily, weekly or never\n",
    "  DIR            the folder of the log, which is made if it is not there\n",
    "  PREFIX         the beginning of the files' names\n",
    "  --keep N       keeps the N newest files of this log, the open one counted\n",
    "  --max-bytes N  begins the next file before one has over N bytes; N may end in\n",
    "                 K, M or G. A number follows the time in each name\n",
    "  --suffix S     ends the files' names with a dot and S\n",
    "  --link NAME    keeps a symbolic link in DIR to the newest file\n",
    "  --sync         syncs the file to the disk whenever no line waits\n",
    "  --no-wait      loses lines that the disk refuses, in place of waiting\n",
    "  --queue N      lets up to N lines wait to be written, in place of 1,024\n",
    "  --lossy        drops a line if the queue is full or has 16 MiB; else it waits\n",
    "  --echo         writes each line to standard output too\n",
    "  --timestamps   begins each line with the time, as 2026-11-28T10:00:00.000000Z\n",
    "  --whole-lines  ends a part of a line that an earlier run left by a newline\n",
    "  --direct       writes each block of up to 1 KiB that it read before it reads\n",
    "                 on, without a queue, so that a kill loses one block\n",
    "  --             ends the options: the words after it are arguments\n",
    "\n",
    "Behind a pipe; in a log/run script of runit, on lines of its own; in a container\n",
    "whose standard output goes on:\n",
    "\n",
    "  program | (trap '' INT TERM HUP QUIT; exec rolltee --keep 7 daily DIR app)\n",
    "\n",
    "  trap '' INT TERM HUP QUIT\n",
    "  exec rolltee --keep 7 --max-bytes 10M daily ./main app\n",
    "\n",
    "  server 2>&1 | rolltee --echo --timestamps --keep 48 hourly /logs app\n",
    "\n",
    "Status: 0 if every line was written; 1 if no log was opened, the input not read,\n",
    "a line lost, a sync failed, or a log file removed or truncated (the next line\n",
    "begins another); 2 if the words are wrong; 3 if memory was refused. It says what\n",
    "was lost. While the disk refuses lines, as when it is full, it waits. It catches\n",
    "no signal: INT or TERM ends it at once, and up to 2,064 lines that wait are\n",
    "lost. See rolltee(1).\n",
);

static VERSION: &str = version!("rolltee");

fn main(rt: HostRuntime) -> ExitCode {
    if fill_streams(&rt).is_err() {
        return ExitCode::FAILURE;
    }
    let status = match arguments(&rt) {
        Ok(words) => run(rt, &rt, words.as_slice()),
        Err(fault) => tee::report_fault(&Fault::from(fault), PROGRAM, &mut rt.stderr()),
    };
    ExitCode::from(status)
}

fn run<R: Host>(rt: R, host: &HostRuntime, words: &[String]) -> u8 {
    let (mut output, mut errors) = (host.stdout(), host.stderr());
    match read(rt.alloc(), words) {
        Ok(Request::Help) => print(&mut output, HELP, 1),
        Ok(Request::Version) => print(&mut output, VERSION, 1),
        Ok(Request::Run(options, arguments)) => {
            let arguments = arguments.as_slice();
            let ended = tee::tee_with(
                rt,
                *host,
                &options,
                arguments,
                &mut host.stdin(),
                output,
                &mut errors,
            );
            match ended {
                Ok(_) => 0,
                Err(status) => status,
            }
        }
        Err(fault) => tee::report_fault(&Fault::from(fault), PROGRAM, &mut errors),
    }
}
