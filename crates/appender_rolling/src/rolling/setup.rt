// The opening of a log file: old ones are removed, the file is opened, and a link is made to it.
ghost use Rattle.std.specs.Prelude.{◌≡◌, ◌↔◌, ◌<◌, ◌≤◌, true, length, ℤ, Some, IsOk, IfOk, IfErr, OnOk, IsTrue, Err, map, option_and_then};
ghost use Rattle.appender_names.specs.Rotation.{IsMoment, period_of, is_same_start};
ghost use Rattle.appender_names.specs.Archive.{archive_at};
ghost use Rattle.appender_names.specs.Name.{reading_at};
ghost use Rattle.appender_store.specs.Folder.{listed_row};
ghost use Rattle.appender_rolling.specs.Inside.Numbers.{number_after as after_of, number_after_archive, number_after_listed, number_after_row, continues_at, first_number as first_of};
ghost use Rattle.appender_rolling.specs.Opening.{OpensNamedFile, FailsToOpen, ReplacesLink, FailsToReplaceLink, RemovesEmpty};

use super::{Builder, InitError, NameFault};
use appender_names::names::Names;
use appender_names::rotation::{Rotation, in_range};
use appender_retain::laws::{links_add_none, names_are_spared, openings_add_one, survivors_stay};
use appender_retain::retain::{LogFiles, prune_log_files};
use appender_store::laws::names_change_one_at_a_time;
use appender_store::store::{Folder, Kind, Listed, Notice};
use std::alloc::{AllocError, Global};
use std::io;
use std::marker::Model;

/// What every opening of a file needs.
#[derive(Drop)]
pub(super) struct Setup {
    alloc: Global,
    names: Names,
    link: String,
    link_optional: bool,
    max_files: usize,
    by_name: bool,
    max_bytes: u64,
    continues: bool,
}

impl Model for Setup {
    ghost use Rattle.std.specs.Prelude.{◌≡◌, ◌==◌, not, string_bytes};
    ghost use Rattle.appender_rolling.specs.Config.{Config};

    ghost Value = { Config };

    ghost view = { λ s. record {
      rotation = s.names.rotation;
      prefix = s.names.prefix;
      suffix = s.names.suffix;
      link = string_bytes s.link;
      link_optional = s.link_optional;
      max_files = s.max_files;
      by_name = s.by_name;
      max_bytes = s.max_bytes;
      continues = s.continues;
    } };

    ghost invariant = { λ s. s.names.numbered ≡ not (s.max_bytes == 0) };
}

/// What a file is named for: a moment of its period, and its number there.
#[derive(Clone, Copy, Debug, PartialEq, Eq)]
pub struct Stamp {
    pub(super) moment: i64,
    pub(super) number: u32,
}

// The greatest number that a name can have.
pub(super) const LAST_NUMBER: u32 = 999_999;

/// A file that was opened, and its name.
#[derive(Drop)]
pub(super) struct Opened<F: Drop> {
    pub(super) file: F,
    pub(super) name: String,
}

impl Setup {
    ghost use Rattle.std.specs.Prelude.{◌≢◌, ◌⊎◌, ◌<◌, false, length, string_bytes, string_len, string_capacity};
    ghost use Rattle.appender_names.specs.declared.error.InitError.TheVariants.{Memory};
    ghost use Rattle.appender_names.specs.Rotation.{IsNever};
    ghost use Rattle.appender_rolling.specs.Config.{naming_of, log_files_of, is_limited, max_before, max_after, MayLimit, IsStamp, stamp, last_of};
    ghost use Rattle.appender_rolling.specs.Opening.{NamesEntries, ReadsAsDate, LinkClashes, IsReady, IsNotReady, FindsNumber};
    ghost use Rattle.appender_rolling.specs.Opening.{IsFirstRoom, TriesLink, FailsToLink, RemovesNewFile, OpensFile, RefusesFile, file_name_of};

    // Copies what a builder has set. `Name` if prefix, suffix or link make no names of entries of a folder; else `Limit`
    // if a limit of bytes is set under `NEVER`. The inner error: there is no room for the copies.
    fn new(alloc: Global, builder: &Builder) -> Result<Result<Setup, AllocError>, InitError>
        ensures copy { IfOk result (λ copied. IfOk copied (λ setup. setup ≡ builder.now)) }
        ensures allowed { IsOk result → NamesEntries builder.now }
        ensures may_limit { IsOk result → MayLimit builder.now }
        ensures err { (m : ℤ) → IfErr result (λ error. IsNotReady builder.now m error) }
    {
        if !builder.may_link() {
            return Err(InitError::Name(NameFault::Link));
        }
        match builder.names(alloc) {
            Ok(names) => Ok(Setup::of(alloc, names, builder)),
            Err(InitError::Memory) => Ok(Err(AllocError)),
            Err(error) => Err(error),
        }
    }

    // Adds copies of the other settings to the names.
    fn of(alloc: Global, names: Names, builder: &Builder) -> Result<Setup, AllocError>
        requires { names ≡ naming_of builder.now }
        ensures { IfOk result (λ setup. setup ≡ builder.now) }
    {
        Ok(Setup {
            alloc,
            names,
            link: String::from_str(alloc, builder.link())?,
            link_optional: builder.link_optional(),
            max_files: builder.max_files(),
            by_name: builder.by_name(),
            max_bytes: builder.max_bytes(),
            continues: builder.continues(),
        })
    }

    /// Returns what an opening at this moment needs before any call of a folder, and the name of file
    /// number 0.
    pub(super) fn ready(
        alloc: Global,
        builder: &Builder,
        moment: i64,
    ) -> Result<(Setup, String), InitError>
        ensures ok { IfOk result (λ ready. IsReady builder.now moment ready.0 (string_bytes ready.1)) }
        ensures room { IfOk result (λ ready. string_len ready.1 ≤ string_capacity ready.1) }
        ensures err { IfErr result (λ error. IsNotReady builder.now moment error) }
    {
        // The names are checked while they are copied. A clash needs the first file's name. That is made with number 0
        // here, and gets its number without memory, so a refusal of memory is known before the folder is listed.
        let copied = Setup::new(alloc, builder)?;
        if !in_range(moment) {
            return Err(InitError::Moment);
        }
        let setup = copied?;
        let mut name = setup.file_name(Stamp { moment, number: 0 })?;
        name.reserve(0)?;
        if setup.link_clashes(name.as_str(), moment) {
            return Err(InitError::Name(NameFault::Clash));
        }
        Ok((setup, name))
    }

    pub(super) fn names(&self) -> &Names
        ensures { result.now ≡ naming_of self.now }
    {
        &self.names
    }

    pub(super) fn rotation(&self) -> Rotation
        ensures { result ≡ self.now.rotation }
    {
        self.names.rotation()
    }

    pub(super) fn max_bytes(&self) -> u64
        ensures { result ≡ self.now.max_bytes }
    {
        self.max_bytes
    }

    /// Returns the name of the file with this stamp. The error is a refusal of memory.
    fn file_name(&self, stamp: Stamp) -> Result<String, InitError>
        requires { IsStamp self.now stamp }
        ensures ok { IfOk result (λ name. string_bytes name ≡ file_name_of self.now stamp) }
        ensures err { IfErr result (λ error. error ≡ Memory) }
    {
        Ok(self.names.file_name_at(stamp.moment, stamp.number)?)
    }

    /// Returns the number of the first file: the one after the greatest that is listed for the moment's
    /// period, up to 999,999, or 0 if none is listed. By name those of archives count too. If the log continues its last file, that of a plain file with the
    /// greatest number is that number itself. A listing that fails is noted, and gives 0. Without
    /// a limit of bytes the number is 0, and no call is made.
    pub(super) fn first_number<S: Folder>(&self, folder: &mut S, moment: i64) -> u32
        requires { IsMoment moment }
        ensures { FindsNumber S.Folder self.now moment folder.old result folder.new }
    {
        if !self.names.is_numbered() {
            return 0;
        }
        match folder.list() {
            Ok(listed) => first_number(&self.names, self.by_name, self.continues, moment, &listed),
            Err(fault) => {
                folder.note(Notice::List(&fault));
                0
            }
        }
    }

    /// Returns how many bytes of the limit are left of the first file when it is opened. What it holds counts if the log
    /// continues its last file. If its length can't be told, it is full.
    pub(super) fn first_room<S: Folder>(&self, folder: &S, file: &S::File) -> u64
        requires { IsTrue S.is_known → S.body file.now < length (S.content folder.now).bodies }
        ensures { IsFirstRoom S.Folder self.now folder.now file.now result }
    {
        if !self.continues {
            return self.max_bytes;
        }
        match folder.length(file) {
            Some(length) => self.max_bytes.saturating_sub(length),
            None => 0,
        }
    }

    /// Puts the number into the name of the first file. It takes no memory.
    pub(super) fn renumber(&self, name: &mut String, moment: i64, number: u32)
        requires number { number ≤ last_of self.now }
        requires name { string_bytes name.old ≡ file_name_of self.now (stamp moment 0) }
        requires room { string_len name.old ≤ string_capacity name.old }
        ensures { string_bytes name.new ≡ file_name_of self.now (stamp moment number) }
    {
        self.names.renumber(moment, name, number);
    }

    /// Whether the link has the name of the first file, or one that other files can have.
    fn link_clashes(&self, first: &str, moment: i64) -> bool
        requires { first.now ≡ file_name_of self.now (stamp moment 0) }
        ensures { IsTrue result ↔ LinkClashes self.now moment }
    {
        let link = self.link.as_str();
        !link.is_empty()
            && (link == first || (!self.names.rotation().is_never() && self.reads_as_date(link)))
    }

    fn reads_as_date(&self, name: &str) -> bool
        ensures { IsTrue result ↔ ReadsAsDate self.now name.now }
    {
        self.names.read(name).is_some()
    }

    /// Removes old log files, opens the file of this name, and makes the link to it. By name they are removed
    /// last, so that an opening that fails removes none. If a link that isn't optional is refused, by name a new file is
    /// removed.
    pub(super) fn open_file<S: Folder>(
        &self,
        folder: &mut S,
        name: &str,
    ) -> Result<S::File, InitError>
        ensures ok { IfOk result (λ file. OpensFile S.Folder self.now name.now
            folder.old file folder.new) }
        ensures err { IfErr result (λ error. RefusesFile S.Folder self.now name.now
            folder.old error folder.new) }
        ensures memory { result ≢ Err Memory }
    {
        names_change_one_at_a_time();
        openings_add_one();
        links_add_none();
        names_are_spared();
        survivors_stay();
        let log = self.log_files(name);
        prune_log_files(self.alloc, folder, &log, self.max_before());
        let file = open_or_make(folder, name)?;
        let made = folder.made_file();
        match self.link_to(folder, name) {
            Ok(()) => {
                prune_log_files(self.alloc, folder, &log, self.max_after());
                Ok(file)
            }
            Err(fault) => {
                self.remove_new(folder, &file, name, made);
                Err(InitError::Symlink(fault))
            }
        }
    }

    // Returns the log files that are there beside the file of this name, or before it is opened.
    fn log_files<'a>(&'a self, name: &'a str) -> LogFiles<'a>
        ensures { result ≡ log_files_of self.now (Some name.now) }
    {
        LogFiles::new(self.names(), self.by_name, name)
    }

    // Returns how many log files are kept when old ones are removed before an opening; 0 is all of them.
    fn max_before(&self) -> usize
        ensures { result ≡ max_before self.now }
    {
        if self.by_name { 0 } else { self.max_files }
    }

    // The same after an opening.
    fn max_after(&self) -> usize
        ensures { result ≡ max_after self.now }
    {
        if self.by_name { self.max_files } else { 0 }
    }

    // Makes the link to the file of this name, if a link is set. The error: it could not be made, and isn't optional.
    fn link_to<S: Folder>(&self, folder: &mut S, name: &str) -> io::Result<()>
        requires { IsTrue S.is_known → (S.content folder.old).there ≡ true }
        ensures ok { OnOk result (TriesLink S.Folder self.now name.now folder.old folder.new) }
        ensures required { IfErr result (λ fault. self.now.link_optional ≡ false) }
        ensures err { IfErr result (λ fault. FailsToLink S.Folder self.now.link name.now
            folder.old fault folder.new) }
    {
        let link = self.link.as_str();
        if link.is_empty() {
            return Ok(());
        }
        match relink(folder, link, name) {
            Err(_) if self.link_optional => Ok(()),
            made => made,
        }
    }

    // By name, removes the open file of this name if its opening made it and it has no bytes.
    fn remove_new<S: Folder>(&self, folder: &mut S, file: &S::File, name: &str, made: bool)
        requires { IsTrue S.is_known → S.body file.now < length (S.content folder.old).bodies }
        ensures { RemovesNewFile S.Folder self.now name.now made file.now folder.old folder.new }
    {
        if self.by_name && made {
            remove_empty(folder, file, name);
        }
    }

    /// Opens the file with this stamp.
    pub(super) fn open_next<S: Folder>(
        &self,
        folder: &mut S,
        stamp: Stamp,
    ) -> Result<Opened<S::File>, InitError>
        requires { IsStamp self.now stamp }
        ensures name { IfOk result (λ opened.
            string_bytes opened.name ≡ file_name_of self.now stamp) }
        ensures ok { IfOk result (λ opened. OpensFile S.Folder self.now
            (file_name_of self.now stamp) folder.old opened.file folder.new) }
        ensures err { IfErr result (λ error. RefusesFile S.Folder self.now
            (file_name_of self.now stamp) folder.old error folder.new) }
    {
        let name = self.file_name(stamp)?;
        let file = self.open_file(folder, name.as_str())?;
        Ok(Opened { file, name })
    }
}

// The number after the greatest of those listed for the moment's period. Those of folders and links count too, since no
// file can be opened under their names.
fn first_number(
    names: &Names,
    by_name: bool,
    continues: bool,
    moment: i64,
    listed: &[Listed],
) -> u32
    requires moment { IsMoment moment }
    requires numbered { names.now.numbered ≡ true }
    ensures value { result ≡ first_of names.now by_name continues moment (map listed_row listed.now) }
    ensures bound { result ≤ 999_999 }
{
    let mut first = 0;
    for entry in listed {
        first = first.max(number_after_listed(names, by_name, continues, moment, entry));
    }
    first
}

// The number after that of a listed name, or by name after that of an archive.
fn number_after_listed(
    names: &Names,
    by_name: bool,
    continues: bool,
    moment: i64,
    entry: &Listed,
) -> u32
    requires moment { IsMoment moment }
    requires numbered { names.now.numbered ≡ true }
    ensures value { result ≡ number_after_listed names.now by_name continues moment (listed_row entry.now) }
    ensures bound { result ≤ 999_999 }
{
    let own = number_after_entry(names, continues, moment, entry);
    if by_name {
        own.max(number_after_archive(names, moment, entry))
    } else {
        own
    }
}

// The number after that of the log's name that a listed name is an archive of, if it is one of the moment's period; else 0.
fn number_after_archive(names: &Names, moment: i64, entry: &Listed) -> u32
    requires { IsMoment moment }
    ensures value { result ≡ number_after_archive names.now moment (listed_row entry.now) }
    ensures bound { result ≤ 999_999 }
{
    match read_archive(names, entry) {
        Some((second, number)) => number_after(names.rotation(), moment, second, number),
        None => 0,
    }
}

fn read_archive(names: &Names, entry: &Listed) -> Option<(i64, u32)>
    ensures { result ≡ option_and_then (archive_at names.now) (listed_row entry.now).0 }
{
    names.read_archive(entry.name.as_ref()?.as_str())
}

// The number after that of a listed name, if it is one of the moment's period; else 0. The number itself, if the file of
// this name is continued.
fn number_after_entry(names: &Names, continues: bool, moment: i64, entry: &Listed) -> u32
    requires moment { IsMoment moment }
    requires numbered { names.now.numbered ≡ true }
    ensures value { result ≡ number_after_row names.now continues moment (listed_row entry.now) }
    ensures bound { result ≤ 999_999 }
{
    match read_entry(names, entry) {
        Some((second, number)) => {
            if continues && is_continued(names.rotation(), moment, second, entry.kind) {
                number.min(LAST_NUMBER)
            } else {
                number_after(names.rotation(), moment, second, number)
            }
        }
        None => 0,
    }
}

// Whether a plain file whose name reads as this second has the name that the log itself gives in the moment's period. A
// weekly name may read as another day of the week.
fn is_continued(rotation: Rotation, moment: i64, second: i64, kind: Kind) -> bool
    requires { IsMoment moment }
    ensures { result ≡ continues_at rotation moment second kind }
{
    match kind {
        Kind::File => is_start(rotation, moment, second),
        Kind::Folder | Kind::Link | Kind::Other => false,
    }
}

// Whether the moment's period begins at this second.
fn is_start(rotation: Rotation, moment: i64, second: i64) -> bool
    requires { IsMoment moment }
    ensures { result ≡ is_same_start (period_of rotation moment) (Some second) }
{
    !rotation.is_never() && second == rotation.round_date(moment)
}

// The number after this one, if its second is in the moment's period; else 0.
fn number_after(rotation: Rotation, moment: i64, second: i64, number: u32) -> u32
    requires { IsMoment moment }
    ensures value { result ≡ after_of rotation moment (second, number) }
    ensures bound { result ≤ 999_999 }
{
    if !rotation.is_in_period(moment, second) {
        return 0;
    }
    if number < LAST_NUMBER {
        number + 1
    } else {
        LAST_NUMBER
    }
}

// The second and the number that the name of a listed entry reads as.
fn read_entry(names: &Names, entry: &Listed) -> Option<(i64, u32)>
    ensures { names.now.numbered ≡ true →
        result ≡ option_and_then (reading_at names.now) (listed_row entry.now).0 }
{
    names.read_numbered(entry.name.as_ref()?.as_str())
}

// Opens the file of this name. If that is refused, makes the folder and opens it again.
fn open_or_make<S: Folder>(folder: &mut S, name: &str) -> Result<S::File, InitError>
    ensures ok { IfOk result (λ file. OpensNamedFile S.Folder name.now folder.old file folder.new) }
    ensures err { IfErr result (λ error. FailsToOpen S.Folder name.now folder.old error folder.new) }
{
    match folder.open(name) {
        Ok(file) => Ok(file),
        Err(_) => {
            if let Err(fault) = folder.make_folder() {
                return Err(InitError::Directory(fault));
            }
            match folder.open(name) {
                Ok(file) => Ok(file),
                Err(fault) => Err(InitError::File(fault)),
            }
        }
    }
}

// Removes the open file of this name if it has no bytes. If that fails, the file stays.
fn remove_empty<S: Folder>(folder: &mut S, file: &S::File, name: &str)
    requires { IsTrue S.is_known → S.body file.now < length (S.content folder.old).bodies }
    ensures { RemovesEmpty S.Folder name.now file.now folder.old folder.new }
{
    if folder.length(file) == Some(0) {
        let _ = folder.remove(name);
    }
}

// Makes a link to a name, in place of an older link.
fn relink<S: Folder>(folder: &mut S, link: &str, name: &str) -> io::Result<()>
    requires { IsTrue S.is_known → (S.content folder.old).there ≡ true }
    ensures ok { OnOk result (ReplacesLink S.Folder link.now name.now folder.old folder.new) }
    ensures err { IfErr result (λ fault. FailsToReplaceLink S.Folder link.now name.now
        folder.old fault folder.new) }
{
    names_change_one_at_a_time();
    let _ = folder.remove_link(link);
    folder.make_link(link, name)
}
