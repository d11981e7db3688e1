//! Why an appender cannot be opened.
ghost use Rattle.std.specs.Prelude.{◌≡◌};
ghost use Rattle.appender_names.specs.InitError.{code_of, error_kind_of, cause_of};

use std::alloc::AllocError;
use std::fmt::InlineText;
use std::io;
use std::io::ErrorKind;
use thiserror::Error;

/// Why an appender cannot be opened.
#[derive(Debug, Drop, Error)]
pub enum InitError {
    /// There is no folder at the path, and none could be made.
    #[error("failed to create log directory: {0}")]
    Directory(io::Error),
    /// The log file could not be opened.
    #[error("failed to create log file: {0}")]
    File(io::Error),
    /// The link to the newest log file could not be made. The log file was made.
    #[error("failed to create symlink to latest log file: {0}")]
    Symlink(io::Error),
    /// The moment is outside the years 1 to 9998 of UTC.
    #[error("moment out of range")]
    Moment,
    /// The prefix, the suffix or the link cannot be a name, or part of one. The fault says which of them.
    #[error("name not allowed")]
    Name(NameFault),
    /// Memory was refused.
    #[error("out of memory")]
    Memory,
    /// A limit of bytes is set under `NEVER`, whose names may have no date for the number to follow.
    #[error("byte limit without a rotation: take WEEKLY")]
    Limit,
}

/// Which name is not allowed, and why.
#[derive(Clone, Copy, Debug, PartialEq, Eq, Error)]
pub enum NameFault {
    /// The prefix has a `/` or a zero byte. Or, under `NEVER` and without a suffix, it is `.` or `..`.
    #[error("the prefix cannot be part of a file name")]
    Prefix,
    /// The suffix has a `/` or a zero byte. Or, under `NEVER` and without a prefix, it is `.` or `..`.
    #[error("the suffix cannot be part of a file name")]
    Suffix,
    /// The name of the link has a `/` or a zero byte, or is `.` or `..`.
    #[error("the link cannot be a file name")]
    Link,
    /// The link has the name of a log file.
    #[error("the link has the name of a log file")]
    Clash,
}

impl InitError {
    /// Returns the cause as a number: 1 to 7, in the order of the cases above.
    pub fn code(&self) -> u8
        ensures { result ≡ code_of self.now }
    {
        match self {
            InitError::Directory(_) => 1,
            InitError::File(_) => 2,
            InitError::Symlink(_) => 3,
            InitError::Moment => 4,
            InitError::Name(_) => 5,
            InitError::Memory => 6,
            InitError::Limit => 7,
        }
    }

    /// Returns the error of the file system, if that is the cause.
    pub fn source(&self) -> Option<io::Error>
        ensures { result ≡ cause_of self.now }
    {
        match self {
            InitError::Directory(error) | InitError::File(error) | InitError::Symlink(error) => {
                Some(*error)
            }
            _ => None,
        }
    }

    // The kind of the error of input and output that this one is.
    fn kind(&self) -> ErrorKind
        ensures { result ≡ error_kind_of self.now }
    {
        match self {
            InitError::Directory(error) | InitError::File(error) | InitError::Symlink(error) => {
                error.kind()
            }
            InitError::Memory => ErrorKind::OutOfMemory,
            InitError::Moment | InitError::Name(_) | InitError::Limit => ErrorKind::InvalidInput,
        }
    }
}

impl From<AllocError> for InitError {
    ghost use Rattle.appender_names.specs.declared.error.InitError.TheVariants.{Memory};

    ghost from_gives = { λ _ e. e ≡ Memory };

    fn from(_error: AllocError) -> InitError {
        InitError::Memory
    }
}

// The most bytes of the words of an `io::Error`.
const WORDS: usize = 80;

/// Keeps the kind of the cause, and the words, up to 80 bytes. Those of `Name` are followed by the fault's. The kind is
/// `InvalidInput` for a name, a moment or a limit that is not allowed, and `OutOfMemory` for `Memory`.
impl From<InitError> for io::Error {
    ghost use Rattle.std.specs.IoError.{error_kind};

    ghost from_gives = { λ cause e. error_kind e ≡ error_kind_of cause };

    fn from(error: InitError) -> io::Error {
        let kind = error.kind();
        let words = match error {
            InitError::Name(fault) => {
                InlineText::<{ WORDS }>::of(error)
                    .and_str(": ", 2)
                    .and(fault, WORDS)
            }
            _ => InlineText::<{ WORDS }>::of(error),
        };
        io::Error::new(kind, words.as_str())
    }
}
