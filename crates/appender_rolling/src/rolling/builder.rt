//! The settings of an appender.
ghost use Rattle.std.specs.Prelude.{◌≡◌, ◌≢◌, ◌↔◌, ◌⊎◌, true, IfOk, IfErr, Err, IsTrue};
ghost use Rattle.appender_names.specs.Rotation.{IsNever};
ghost use Rattle.appender_names.specs.Name.{IsNotNamed};
ghost use Rattle.appender_rolling.specs.Config.{defaults, text_or_empty, naming_of, is_limited, MayLimit};
ghost use Rattle.appender_rolling.specs.Opening.{LinksEntry};

use appender_names::error::InitError;
use appender_names::names::{Names, is_entry_name};
use appender_names::rotation::Rotation;
use std::alloc::{AllocError, Global};
use std::marker::Model;

/// The settings of an appender: its rotation, the names of its files, how many files are kept, how many bytes
/// each takes, and the link to the newest.
///
/// ```
/// use std::io;
/// use tracing_appender::rolling::{Builder, FileAppender, Rotation};
///
/// // The log of a command-line tool: files of at most 64 KiB, as `logs/tool.2026-11-22.000000.log`, of which the newest three are
/// // kept. A start goes on in the last one.
/// pub fn open_log(rt: HostRuntime) -> io::Result<FileAppender> {
///     let settings = Builder::new()
///         .rotation(Rotation::WEEKLY)
///         .filename_prefix(rt.alloc(), "tool")?
///         .filename_suffix(rt.alloc(), "log")?
///         .max_file_bytes(65_536)
///         .continue_last_file(true)
///         .max_log_files(3)
///         .log_files_by_name(true);
///     Ok(settings.build(rt, "logs")?)
/// }
/// ```
#[derive(Debug, Drop)]
pub struct Builder {
    rotation: Rotation,
    prefix: Option<String>,
    suffix: Option<String>,
    link: Option<String>,
    link_optional: bool,
    max_files: usize,
    by_name: bool,
    max_bytes: u64,
    continues: bool,
}

impl Model for Builder {
    ghost use Rattle.appender_rolling.specs.Config.{Config, text_or_empty};

    ghost Value = { Config };

    ghost view = { λ b. record {
      rotation = b.rotation;
      prefix = text_or_empty b.prefix;
      suffix = text_or_empty b.suffix;
      link = text_or_empty b.link;
      link_optional = b.link_optional;
      max_files = b.max_files;
      by_name = b.by_name;
      max_bytes = b.max_bytes;
      continues = b.continues;
    } };
}

impl Builder {
    /// Returns the settings of one file for all time, with no prefix, suffix or link, and no maximum of files or
    /// bytes.
    #[must_use]
    pub fn new() -> Builder
        ensures { result ≡ defaults }
    {
        Builder {
            rotation: Rotation::NEVER,
            prefix: None,
            suffix: None,
            link: None,
            link_optional: false,
            max_files: 0,
            by_name: false,
            max_bytes: 0,
            continues: false,
        }
    }

    /// Sets how often a new file is opened.
    #[must_use]
    pub fn rotation(mut self, rotation: Rotation) -> Builder
        ensures { result ≡ record self { rotation = rotation } }
    {
        self.rotation = rotation;
        self
    }

    /// Sets the text before the date in each name; an empty one is none. If memory is refused, the builder is
    /// dropped.
    #[must_use]
    pub fn filename_prefix(mut self, alloc: Global, prefix: &str) -> Result<Builder, AllocError>
        ensures { IfOk result (λ builder. builder ≡ record self { prefix = prefix.now }) }
    {
        self.prefix = Some(String::from_str(alloc, prefix)?);
        Ok(self)
    }

    /// Sets the text after the date in each name; an empty one is none. If memory is refused, the builder is
    /// dropped.
    #[must_use]
    pub fn filename_suffix(mut self, alloc: Global, suffix: &str) -> Result<Builder, AllocError>
        ensures { IfOk result (λ builder. builder ≡ record self { suffix = suffix.now }) }
    {
        self.suffix = Some(String::from_str(alloc, suffix)?);
        Ok(self)
    }

    /// Sets the name of a symbolic link to the newest log file; an empty one is none. It must not be a name that
    /// a log file can have. If memory is refused, the builder is dropped.
    #[must_use]
    pub fn latest_symlink(mut self, alloc: Global, name: &str) -> Result<Builder, AllocError>
        ensures { IfOk result (λ builder. builder ≡ record self { link = name.now }) }
    {
        self.link = Some(String::from_str(alloc, name)?);
        Ok(self)
    }

    /// Sets whether an opening succeeds without the link of `latest_symlink` if that can't be made. The file is then open,
    /// and old log files are removed as after any success. A folder with the link's name is kept, and so is a file, unless
    /// `max_log_files` counts it. An old link may be removed. Each opening tries again. That the link could not be made is
    /// not reported; `DirFolder::link_fault` has the fault.
    ///
    /// By default, as in the crate tracing-appender, the opening fails with `InitError::Symlink`.
    #[must_use]
    pub fn optional_symlink(mut self, optional: bool) -> Builder
        ensures { result ≡ record self { link_optional = optional } }
    {
        self.link_optional = optional;
        self
    }

    /// Sets how many log files are kept; 0 is no maximum. Before a file is opened, the oldest are removed.
    ///
    /// By default, as in the crate tracing-appender, this counts each plain file whose name begins with the prefix and
    /// ends with the suffix. The oldest is that of the earliest creation time. So it may remove a file of another
    /// program, and after files were copied or restored it may remove the file of today. `log_files_by_name` avoids both.
    #[must_use]
    pub fn max_log_files(mut self, max: usize) -> Builder
        ensures { result ≡ record self { max_files = max } }
    {
        self.max_files = max;
        self
    }

    /// Sets whether `max_log_files` goes only by names. Then it counts the file that is opened, and the plain files whose
    /// names read as the start of a period of this log and with their numbers are before it. The oldest is that of the
    /// earliest period and lowest number. Neither the file that is opened nor a later one, as a clock that was ahead
    /// leaves, is ever removed, and no file with another name is. With a limit of bytes the number of an archive stays
    /// taken: of an entry that has such a name with a dot and 1 to 8 ASCII letters or digits after it, as `NAME.gz`.
    /// Old files are removed last: if the next file can't be opened, or the link can't be made, none is. Under `NEVER`,
    /// which has no periods, none is removed.
    #[must_use]
    pub fn log_files_by_name(mut self, by_name: bool) -> Builder
        ensures { result ≡ record self { by_name = by_name } }
    {
        self.by_name = by_name;
        self
    }

    /// Sets how many bytes are written to a log file before the next one of its period is opened; 0 is no
    /// limit. Bytes that the file held when it was opened don't count (but see `continue_last_file`), and a longer piece has a
    /// file of its own. With a limit a dot and a number of six digits follow the date in each name, and the
    /// rotation must not be `NEVER`.
    #[must_use]
    pub fn max_file_bytes(mut self, max: u64) -> Builder
        ensures { result ≡ record self { max_bytes = max } }
    {
        self.max_bytes = max;
        self
    }

    /// Sets whether the opening of a log with a limit of bytes continues the last file of its period, as it does without a
    /// limit: it opens the plain file of the greatest number, and the bytes that the file holds then count. If that is
    /// full, the first write opens the next one. So a service that is started often does not begin a file each time.
    ///
    /// By default each opening begins the next number.
    #[must_use]
    pub fn continue_last_file(mut self, continues: bool) -> Builder
        ensures { result ≡ record self { continues = continues } }
    {
        self.continues = continues;
        self
    }

    /// Returns the naming of the log files. `Name` if prefix and suffix make no names of entries of a
    /// folder. Else `Limit` if a limit of bytes is set under `NEVER`. Else `Memory` if there is no room for a copy of both.
    pub fn names(&self, alloc: Global) -> Result<Names, InitError>
        ensures ok { IfOk result (λ names. names ≡ naming_of self.now) }
        ensures err { IfErr result (IsNotNamed (is_limited self.now) self.now.rotation self.now.prefix self.now.suffix) }
    {
        if self.max_bytes == 0 {
            Names::new(alloc, self.rotation, text(&self.prefix), text(&self.suffix))
        } else {
            Names::numbered(alloc, self.rotation, text(&self.prefix), text(&self.suffix))
        }
    }

    // Whether the link that is set, if one is, has the name of an entry of a folder.
    pub(crate) fn may_link(&self) -> bool
        ensures { IsTrue result ↔ LinksEntry self.now }
    {
        self.link().is_empty() || is_entry_name(self.link())
    }

    pub(crate) fn link(&self) -> &str
        ensures { result.now ≡ self.now.link }
    {
        text(&self.link)
    }

    pub(crate) fn link_optional(&self) -> bool
        ensures { result ≡ self.now.link_optional }
    {
        self.link_optional
    }

    pub(crate) fn max_files(&self) -> usize
        ensures { result ≡ self.now.max_files }
    {
        self.max_files
    }

    pub(crate) fn by_name(&self) -> bool
        ensures { result ≡ self.now.by_name }
    {
        self.by_name
    }

    pub(crate) fn max_bytes(&self) -> u64
        ensures { result ≡ self.now.max_bytes }
    {
        self.max_bytes
    }

    pub(crate) fn continues(&self) -> bool
        ensures { result ≡ self.now.continues }
    {
        self.continues
    }
}

// A text that may be set.
fn text(set: &Option<String>) -> &str
    ensures { result.now ≡ text_or_empty set.now }
{
    match set {
        Some(text) => text.as_str(),
        None => "",
    }
}

impl Clone for Builder {
    ghost is_clone = { λ x y. y ≡ x };

    fn clone(&self) -> Result<Builder, AllocError> {
        Ok(Builder {
            rotation: self.rotation,
            prefix: self.prefix.clone()?,
            suffix: self.suffix.clone()?,
            link: self.link.clone()?,
            link_optional: self.link_optional,
            max_files: self.max_files,
            by_name: self.by_name,
            max_bytes: self.max_bytes,
            continues: self.continues,
        })
    }
}

impl Default for Builder {
    ghost is_default = { λ builder. builder ≡ defaults };

    fn default() -> Builder {
        Builder::new()
    }
}
