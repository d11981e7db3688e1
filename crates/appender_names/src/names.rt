//! The names of log files, as the documentation of the crate tracing-appender has them: prefix, date and
//! suffix, with dots between. Dates are those of UTC in the proleptic Gregorian calendar of ISO 8601.
ghost use Rattle.std.specs.Prelude.{◌≡◌, ◌≢◌, ◌↔◌, ◌≤◌, true, false, ℕ, ℤ, pos, negsuc, List, [], ◌∷◌, IsTrue, IsOk, IfOk, IfErr, MatchOption, None, Some, Err, string_bytes, string_len, string_capacity, ◌⊎◌, ◌+◌, ◌++◌, ◌<◌, length, if◌then◌else◌};
ghost use Rattle.appender_names.specs.declared.rotation.RotationKind.TheVariants.{Never};
ghost use Rattle.appender_names.specs.Rotation.{IsMoment, IsDatable, IsNever};
ghost use Rattle.appender_names.specs.DateText.{date_text, two_digits};
ghost use Rattle.std.specs.List.{list_all};
ghost use Rattle.appender_names.specs.Name as spec;
ghost use Rattle.appender_names.specs.Name.{IsPart, IsNoPart, IsPartFault, IsNotNamed, IsDots, IsEntry, IsAllowed, IsMark, numbered_date, greatest_number, number_text, dotted_suffix};

use crate::archive::before_ending;
use crate::civil;
use crate::error::{InitError, NameFault};
use crate::rotation::{Rotation, RotationKind};
use std::alloc::{AllocError, Global};
use std::marker::Model;

/// The naming of the log files of one appender.
#[derive(Drop)]
pub struct Names {
    alloc: Global,
    rotation: Rotation,
    prefix: String,
    suffix: String,
    numbered: bool,
}

impl Model for Names {
    ghost use Rattle.std.specs.Prelude.{string_bytes};
    ghost use Rattle.appender_names.specs.Name.{Naming, IsAllowed, IsNumbering};

    ghost Value = { Naming };

    ghost view = { λ n. record {
      rotation = n.rotation;
      prefix = string_bytes n.prefix;
      suffix = string_bytes n.suffix;
      numbered = n.numbered;
    } };

    ghost invariant = { λ n. IsNumbering n.rotation (string_bytes n.prefix) (string_bytes n.suffix) n.numbered };
}

impl Names {
    ghost use Rattle.appender_names.specs.Name.{Naming, name_of, name_at, last_number, mark_of, naming, numbered_naming, named_moment, Reads, ReadsAt, reading, reading_at};
    ghost use Rattle.appender_names.specs.Archive.{archive_at};

    /// Returns whether names may have this prefix and this suffix. An empty one is none. Neither may have a `/` or a zero
    /// byte, and under `NEVER` both together may not make `.` or `..`.
    pub fn is_allowed(rotation: Rotation, prefix: &str, suffix: &str) -> bool
        ensures { IsTrue result ↔ IsAllowed rotation prefix.now suffix.now }
    {
        Names::check(rotation, prefix, suffix).is_ok()
    }

    // Refuses a prefix and a suffix that are not allowed.
    #[tactic(auto, using(crate::proofs::Joins::no_prefix_is_allowed, crate::proofs::Joins::no_suffix_is_allowed))]
    fn check(rotation: Rotation, prefix: &str, suffix: &str) -> Result<(), NameFault>
        ensures allowed { IsOk result ↔ IsAllowed rotation prefix.now suffix.now }
        ensures fault { IfErr result (IsPartFault rotation prefix.now suffix.now) }
    {
        if is_no_part(rotation, prefix, suffix) {
            Err(NameFault::Prefix)
        } else if is_no_part(rotation, suffix, prefix) {
            Err(NameFault::Suffix)
        } else {
            Ok(())
        }
    }

    /// Returns names with this prefix and this suffix. An empty one is none. `Name` if `is_allowed` refuses them. Else
    /// `Memory` if there is no room for a copy of both.
    pub fn new(
        alloc: Global,
        rotation: Rotation,
        prefix: &str,
        suffix: &str,
    ) -> Result<Names, InitError>
        ensures ok { IfOk result (λ names. names ≡ naming rotation prefix.now suffix.now) }
        ensures allowed { IsOk result → IsAllowed rotation prefix.now suffix.now }
        ensures err { IfErr result (IsNotNamed false rotation prefix.now suffix.now) }
    {
        Names::check(rotation, prefix, suffix).map_err(InitError::Name)?;
        Ok(Names {
            alloc,
            rotation,
            prefix: String::from_str(alloc, prefix)?,
            suffix: String::from_str(alloc, suffix)?,
            numbered: false,
        })
    }

    /// Returns names like those of `new`, with a dot and a number of six digits after the date. `Name` if
    /// `is_allowed` refuses prefix and suffix. Else `Limit` if the rotation is `NEVER`, whose names need have no date. Else
    /// `Memory` if there is no room for a copy of both.
    pub fn numbered(
        alloc: Global,
        rotation: Rotation,
        prefix: &str,
        suffix: &str,
    ) -> Result<Names, InitError>
        ensures ok { IfOk result (λ names. names ≡ numbered_naming rotation prefix.now suffix.now) }
        ensures allowed { IsOk result → IsAllowed rotation prefix.now suffix.now }
        ensures rotates { IsOk result → ¬ (IsNever rotation) }
        ensures err { IfErr result (IsNotNamed true rotation prefix.now suffix.now) }
    {
        Names::check(rotation, prefix, suffix).map_err(InitError::Name)?;
        if rotation.is_never() {
            return Err(InitError::Limit);
        }
        Ok(Names {
            alloc,
            rotation,
            prefix: String::from_str(alloc, prefix)?,
            suffix: String::from_str(alloc, suffix)?,
            numbered: true,
        })
    }

    /// Returns whether a number follows the date in each name.
    pub fn is_numbered(&self) -> bool
        ensures { result ≡ self.now.numbered }
    {
        self.numbered
    }

    /// Returns the rotation.
    pub fn rotation(&self) -> Rotation
        ensures { result ≡ self.now.rotation }
    {
        self.rotation
    }

    /// Returns the prefix; empty if none is set.
    pub fn prefix(&self) -> &str
        ensures { result.now ≡ self.now.prefix }
    {
        self.prefix.as_str()
    }

    /// Returns the suffix; empty if none is set.
    pub fn suffix(&self) -> &str
        ensures { result.now ≡ self.now.suffix }
    {
        self.suffix.as_str()
    }

    /// Returns the name of the file that a moment belongs to: its number, if names are numbered, is 0. The
    /// date is that of the start of the moment's period, and under `NEVER` of the moment itself.
    /// `AllocError` if memory is refused.
    pub fn file_name(&self, moment: i64) -> Result<String, AllocError>
        requires { IsMoment moment }
        ensures { IfOk result (λ name. string_bytes name ≡ name_of self.now moment) }
    {
        self.file_name_at(moment, 0)
    }

    /// Puts another number into the name of a moment's file number 0. It takes no memory, since all
    /// numbers have six digits.
    pub fn renumber(&self, moment: i64, name: &mut String, number: u32)
        requires number { number ≤ last_number self.now }
        requires name { string_bytes name.old ≡ name_at self.now moment 0 }
        requires room { string_len name.old ≤ string_capacity name.old }
        ensures { string_bytes name.new ≡ name_at self.now moment number }
    {
        if !self.numbered {
            return;
        }
        let suffix = self.suffix.as_str();
        let len = name.as_bytes().len();
        name.truncate(len - tail_len(suffix));
        push_number(name, number);
        push_suffix(name, suffix);
    }

    /// Returns the name of the file with this number in the period of a moment. The number is at most
    /// 999,999, and 0 if names aren't numbered. `AllocError` if memory is refused.
    pub fn file_name_at(&self, moment: i64, number: u32) -> Result<String, AllocError>
        requires moment { IsMoment moment }
        requires number { number ≤ last_number self.now }
        ensures { IfOk result (λ name. string_bytes name ≡ name_at self.now moment number) }
    {
        let prefix = self.prefix.as_str();
        let suffix = self.suffix.as_str();
        if self.rotation.is_never() {
            return undated_name(self.alloc, prefix, suffix, moment);
        }
        dated_name(self.alloc, prefix, suffix, self.mark(moment, number)?)
    }

    // Adds what is between prefix and suffix, if there is a date.
    fn mark(&self, moment: i64, number: u32) -> Result<String, AllocError>
        requires rotates { ¬ (IsNever self.now.rotation) }
        requires moment { IsMoment moment }
        requires number { number ≤ last_number self.now }
        ensures { IfOk result (λ mark.
            string_bytes mark ≡ mark_of self.now (named_moment self.now.rotation moment) number) }
    {
        let start = self.named_start(moment);
        let date = civil::date_text(self.alloc, self.rotation.kind(), start)?;
        if !self.numbered {
            return Ok(date);
        }
        numbered_date(date, number)
    }

    // Returns the second whose date is in the name: the start of the period, if it has one.
    fn named_start(&self, moment: i64) -> i64
        requires rotates { ¬ (IsNever self.now.rotation) }
        requires moment { IsMoment moment }
        ensures start { result ≡ named_moment self.now.rotation moment }
        ensures within { IsDatable result }
    {
        self.rotation.round_date(moment)
    }

    /// Returns the first second of the minute, hour or day whose date is in a name. `None` if the text is not the
    /// name of a date of the years 0000 to 9999.
    pub fn read(&self, name: &str) -> Option<i64>
        ensures exact { (s : ℤ) → (result ≡ Some s) ↔ Reads self.now name.now s }
        ensures value { result ≡ reading self.now name.now }
    {
        let (second, _) = self.read_both(name)?;
        Some(second)
    }

    /// Returns that moment and the number in the name, from 0 to 999,999; `None` also if names aren't
    /// numbered. It takes no memory.
    pub fn read_numbered(&self, name: &str) -> Option<(i64, u32)>
        ensures exact { (s : ℤ) (k : ℕ) → (result ≡ Some (s, k)) ↔
            ((self.now.numbered ≡ true) × ReadsAt self.now name.now s k) }
        ensures value { result ≡ (if self.now.numbered then reading_at self.now name.now else None) }
    {
        if !self.numbered {
            return None;
        }
        self.read_both(name)
    }

    /// Returns the moment and the number of the log's name that a name is an archive of: it is that name, with a dot and 1
    /// to 8 ASCII letters or digits after it, as `NAME.gz`. If names aren't numbered the number is 0. It takes no memory.
    pub fn read_archive(&self, name: &str) -> Option<(i64, u32)>
        ensures { result ≡ archive_at self.now name.now }
    {
        let base = before_ending(name.as_bytes())?;
        self.read_bytes(base)
    }

    // Returns the second and the number of a name; without numbers the number is 0.
    fn read_both(&self, name: &str) -> Option<(i64, u32)>
        ensures exact { (s : ℤ) (k : ℕ) → (result ≡ Some (s, k)) ↔ ReadsAt self.now name.now s k }
        ensures value { result ≡ reading_at self.now name.now }
    {
        self.read_bytes(name.as_bytes())
    }

    // The same of the bytes of a name.
    fn read_bytes(&self, name: &[u8]) -> Option<(i64, u32)>
        ensures exact { (s : ℤ) (k : ℕ) → (result ≡ Some (s, k)) ↔ ReadsAt self.now name.now s k }
        ensures value { result ≡ reading_at self.now name.now }
    {
        let rest = behind(name, self.prefix.as_bytes())?;
        let mark = before(rest, self.suffix.as_bytes())?;
        read_mark(self.rotation.kind(), self.numbered, mark)
    }
}

// Returns the second and the number that are between prefix and suffix.
fn read_mark(kind: RotationKind, numbered: bool, mark: &[u8]) -> Option<(i64, u32)>
    ensures { MatchOption result ((s : ℤ) (k : ℕ) → ¬ (IsMark kind numbered mark.now s k))
        (λ key. IsMark kind numbered mark.now key.0 key.1) }
{
    let (date, number) = split_number(numbered, mark)?;
    Some((civil::read_date(kind, date)?, number))
}

// Returns the date, and the number after it and a dot, if names are numbered; else the number is 0.
fn split_number(numbered: bool, mark: &[u8]) -> Option<(&[u8], u32)>
    ensures { MatchOption result
        ((date : List ℕ) (k : ℕ) → k ≤ greatest_number numbered → mark.now ≢ numbered_date numbered date k)
        (λ parts. (parts.1 ≤ greatest_number numbered) × (mark.now ≡ numbered_date numbered parts.0.now parts.1)) }
{
    if !numbered {
        return Some((mark, 0));
    }
    let [date @ .., b'.', a1, a0, b1, b0, c1, c0] = mark else {
        return None;
    };
    let high = u32::from(civil::number(*a1, *a0)?);
    let middle = u32::from(civil::number(*b1, *b0)?);
    let low = u32::from(civil::number(*c1, *c0)?);
    Some((date, high * 10_000 + middle * 100 + low))
}

// Returns how many bytes a number and the suffix after it have.
fn tail_len(suffix: &str) -> usize
    ensures { result ≡ 6 + length (dotted_suffix suffix.now) }
{
    if suffix.is_empty() {
        6
    } else {
        suffix.len() + 7
    }
}

// Adds a dot and the suffix, if one is set, for which there is room.
fn push_suffix(text: &mut String, suffix: &str)
    requires { string_len text.old + length (dotted_suffix suffix.now) ≤ string_capacity text.old }
    ensures { string_bytes text.new ≡ string_bytes text.old ++ dotted_suffix suffix.now }
{
    if suffix.is_empty() {
        return;
    }
    let _ = text.push('.');
    let _ = text.push_str(suffix);
}

// Adds a number in six digits, for which there is room.
fn push_number(text: &mut String, number: u32)
    requires number { number ≤ 999_999 }
    requires room { string_len text.old + 6 ≤ string_capacity text.old }
    ensures bytes { string_bytes text.new ≡ string_bytes text.old ++ number_text number }
    ensures len { string_len text.new ≡ string_len text.old + 6 }
    ensures capacity { string_capacity text.old ≤ string_capacity text.new }
{
    push_two(text, number / 10_000);
    push_two(text, number / 100 % 100);
    push_two(text, number % 100);
}

// Adds a number in two digits, for which there is room.
fn push_two(text: &mut String, number: u32)
    requires number { number < 100 }
    requires room { string_len text.old + 2 ≤ string_capacity text.old }
    ensures bytes { string_bytes text.new ≡ string_bytes text.old ++ two_digits number }
    ensures len { string_len text.new ≡ string_len text.old + 2 }
    ensures capacity { string_capacity text.old ≤ string_capacity text.new }
{
    push_digit(text, number / 10);
    push_digit(text, number % 10);
}

// Adds a digit, for which there is room.
fn push_digit(text: &mut String, digit: u32)
    requires digit { digit < 10 }
    requires room { string_len text.old + 1 ≤ string_capacity text.old }
    ensures bytes { string_bytes text.new ≡ string_bytes text.old ++ (48 + digit) ∷ [] }
    ensures len { string_len text.new ≡ string_len text.old + 1 }
    ensures capacity { string_capacity text.old ≤ string_capacity text.new }
{
    let _ = text.push(char::from(b'0' + digit as u8));
}

// A date, and after it a dot and a number.
fn numbered_date(date: String, number: u32) -> Result<String, AllocError>
    requires { number ≤ 999_999 }
    ensures { IfOk result (λ mark. string_bytes mark ≡ numbered_date true (string_bytes date) number) }
{
    let mut mark = date;
    mark.reserve(7)?;
    let _ = mark.push('.');
    push_number(&mut mark, number);
    Ok(mark)
}

/// Returns whether a text is a single path component: it is not empty, `.` or `..`, and it has no `/` and no zero
/// byte.
pub fn is_entry_name(name: &str) -> bool
    ensures entry { IsTrue result ↔ IsEntry name.now }
    ensures test { result ≡ spec.is_entry name.now }
{
    !name.is_empty() && !is_dots(name) && is_part(name)
}

fn is_part(text: &str) -> bool
    ensures part { IsTrue result ↔ IsPart text.now }
    ensures test { result ≡ list_all spec.is_name_byte text.now }
{
    text.as_bytes().iter().all(|b| *b != b'/' && *b != 0)
}

// Returns whether names can't have this text beside the other one.
fn is_no_part(rotation: Rotation, text: &str, other: &str) -> bool
    ensures fault { result ≡ true → IsNoPart rotation text.now other.now }
    ensures part { result ≡ false → IsPart text.now × (¬ IsNoPart rotation text.now other.now) }
{
    !is_part(text) || (rotation.is_never() && other.is_empty() && is_dots(text))
}

fn is_dots(name: &str) -> bool
    ensures { IsTrue result ↔ IsDots name.now }
{
    name == "." || name == ".."
}

// Returns the name for a date.
fn dated_name(alloc: Global, prefix: &str, suffix: &str, date: String) -> Result<String, AllocError>
    ensures { IfOk result (λ name.
        string_bytes name ≡ spec.dated_name prefix.now suffix.now (string_bytes date)) }
{
    match (prefix.is_empty(), suffix.is_empty()) {
        (true, true) => Ok(date),
        (true, false) => format!(in alloc; "{date}.{suffix}"),
        (false, true) => format!(in alloc; "{prefix}.{date}"),
        (false, false) => format!(in alloc; "{prefix}.{date}.{suffix}"),
    }
}

// Returns the name under `NEVER`, which has a date only if it would be empty without one.
fn undated_name(
    alloc: Global,
    prefix: &str,
    suffix: &str,
    moment: i64,
) -> Result<String, AllocError>
    requires { IsMoment moment }
    ensures { IfOk result (λ name.
        string_bytes name ≡ spec.undated_name prefix.now suffix.now (date_text Never moment)) }
{
    match (prefix.is_empty(), suffix.is_empty()) {
        (true, true) => civil::date_text(alloc, RotationKind::Never, moment),
        (true, false) => String::from_str(alloc, suffix),
        (false, true) => String::from_str(alloc, prefix),
        (false, false) => format!(in alloc; "{prefix}.{suffix}"),
    }
}

// Returns what is after the prefix, if one is set, and a dot.
fn behind<'a>(text: &'a [u8], prefix: &[u8]) -> Option<&'a [u8]>
    ensures { MatchOption result ((rest : List ℕ) → text.now ≢ spec.after_prefix prefix.now rest)
        (λ rest. text.now ≡ spec.after_prefix prefix.now rest.now) }
{
    if prefix.is_empty() {
        return Some(text);
    }
    text.strip_prefix(prefix)?.strip_prefix(b".")
}

// Returns what is before a dot and the suffix, if one is set.
fn before<'a>(text: &'a [u8], suffix: &[u8]) -> Option<&'a [u8]>
    ensures { MatchOption result ((rest : List ℕ) → text.now ≢ spec.before_suffix rest suffix.now)
        (λ rest. text.now ≡ spec.before_suffix rest.now suffix.now) }
{
    if suffix.is_empty() {
        return Some(text);
    }
    text.strip_suffix(suffix)?.strip_suffix(b".")
}
