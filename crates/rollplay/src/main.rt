//! Plays a script from standard input: runs a rolling log writer over a folder in memory, with or without a queue.
//! Prints the reply to each step, and the contents of the folder at the end.
#![tactic(auto)]

use program_io::options::{OptionFault, Request, read};
use program_io::report::{print, report};
use program_io::streams::fill_streams;
use program_io::{ArgumentFault, arguments, version};
use rollplay_core::play;
use std::process::ExitCode;

static HELP: &str = concat!(
    "Plays a script from standard input: runs a rolling log writer over a folder in\n",
    "memory, by itself or through a queue. Prints the reply to each step, and the\n",
    "contents of the folder at the end.\n",
    "\n",
    "usage: rollplay < SCRIPT\n",
    "       rollplay --help | -h | --version\n",
    "\n",
    "  SCRIPT  a setting or a step a line; any other argument is ignored\n",
    "  --      ends the options: the words after it are arguments\n",
    "\n",
    "Status: 0 if the script was played; 1 if its log was not opened; 2 if the script\n",
    "or an option is wrong, the script not read or the output not written; 3 if\n",
    "memory was refused.\n",
    "\n",
    "It ends when the whole script was read and played. It catches no signal:\n",
    "INT or TERM ends it at once, and nothing is printed.\n",
);

static VERSION: &str = version!("rollplay");

fn main(rt: HostRuntime) -> ExitCode {
    if fill_streams(&rt).is_err() {
        return ExitCode::FAILURE;
    }
    let request = match arguments(&rt) {
        Ok(arguments) => read(rt.alloc(), arguments.as_slice()),
        Err(ArgumentFault::Memory) => Err(OptionFault::Memory),
        // It is ignored, as is any argument that is no option.
        Err(ArgumentFault::NotText(_word)) => read(rt.alloc(), &[]),
    };
    ExitCode::from(run(rt, request))
}

static USAGE: &[u8] = b"usage: rollplay < SCRIPT\n";

fn run(rt: HostRuntime, request: Result<Request, OptionFault>) -> u8 {
    let mut output = rt.stdout();
    match request {
        Ok(Request::Help) => print(&mut output, HELP, 2),
        Ok(Request::Version) => print(&mut output, VERSION, 2),
        Ok(Request::Run(options, _arguments)) => {
            if !options.is_plain() {
                return report_words(rt, USAGE, 2);
            }
            play::play(rt.alloc(), &mut rt.stdin(), &mut output, &mut rt.stderr())
        }
        Err(OptionFault::Memory) => report_words(rt, b"no memory\n", 3),
        Err(OptionFault::Unknown(_word)) => report_words(rt, USAGE, 2),
        Err(OptionFault::Wrong(_option, _error)) => report_words(rt, USAGE, 2),
    }
}

// Reports why nothing was played, and returns the status.
fn report_words(rt: HostRuntime, words: &[u8], status: u8) -> u8 {
    let _ = report(&mut rt.stderr(), words);
    status
}
