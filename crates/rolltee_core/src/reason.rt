//! What is said of a fault beyond its own line.
use crate::losses::TeeLosses;
use crate::tee::Fault;
use crate::title::title;
use appender_names::error::NameFault;
use program_io::options::{OptionName, Options};
use std::alloc::{AllocError, Global};
use std::io;
use tracing_appender::rolling::InitError;

/// Returns a line that says what is meant by the line of a fault, or an empty text if that says it.
pub fn reason(
    alloc: Global,
    fault: &Fault,
    arguments: &[String],
    options: &Options,
) -> Result<String, AllocError> {
    let [rotation, directory, prefix] = arguments else {
        let given = arguments.len();
        return format!(in alloc;
            "rolltee: three words are wanted, ROTATION DIR PREFIX, and not {given}\n"
        );
    };
    if directory.is_empty() {
        return String::from_str(alloc, "rolltee: DIR is empty\n");
    }
    match fault {
        Fault::Usage => format!(in alloc;
            "rolltee: '{rotation}' is no rotation: take minutely, hourly, daily, weekly or never\n"
        ),
        Fault::Open(InitError::Name(fault)) => name_reason(alloc, fault, prefix.as_str(), options),
        _ => {
            let about = title(alloc, directory.as_str(), prefix.as_str())?;
            log_reason(alloc, fault, about.as_str())
        }
    }
}

// Returns the line for a name that is not allowed.
fn name_reason(
    alloc: Global,
    fault: &NameFault,
    prefix: &str,
    options: &Options,
) -> Result<String, AllocError> {
    match fault {
        NameFault::Prefix => refused(alloc, "PREFIX", prefix),
        NameFault::Suffix => refused(alloc, "--suffix", options.text(OptionName::Suffix)),
        NameFault::Link => refused(alloc, "--link", options.text(OptionName::Link)),
        NameFault::Clash => format!(in alloc;
            "rolltee: --link '{}' has the name of a log file\n",
            options.text(OptionName::Link)
        ),
    }
}

// Returns the line for a fault of the log with this title.
fn log_reason(alloc: Global, fault: &Fault, about: &str) -> Result<String, AllocError> {
    match fault {
        Fault::Open(_) | Fault::Thread | Fault::Pending => {
            let words = words_of(alloc, fault)?;
            format!(in alloc; "{about}{words}\n")
        }
        Fault::Read(error) => format!(in alloc; "{about}{error}\n"),
        Fault::Write(losses) if *losses != TeeLosses::NONE => format!(in alloc;
            "{about}{losses}\n"
        ),
        _ => Ok(String::new(alloc)),
    }
}

// Returns what is said of a log that was not opened, or not flushed in time.
fn words_of(alloc: Global, fault: &Fault) -> Result<&'static str, AllocError> {
    match fault {
        Fault::Pending => Ok("the last flush takes more than a second"),
        Fault::Open(InitError::File(fault)) if is_linked_twice(alloc, fault)? => {
            Ok("a second hard link, as of a snapshot: remove or copy it")
        }
        _ => Ok("no log was opened"),
    }
}

// Returns the line for a word that makes no file name.
fn refused(alloc: Global, option: &str, word: &str) -> Result<String, AllocError> {
    let why = if word.contains('/') {
        "has a '/'"
    } else {
        "makes no file name"
    };
    format!(in alloc; "rolltee: {option} '{word}' {why}\n")
}

// Returns whether a file was refused since it has a second hard link.
fn is_linked_twice(alloc: Global, fault: &io::Error) -> Result<bool, AllocError> {
    let words = format!(in alloc; "{fault}")?;
    Ok(words.ends_with("second hard link"))
}
