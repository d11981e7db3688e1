//! Command-line options of programs that write logs.
ghost use Rattle.std.specs.Prelude.{◌≡◌, ◌≢◌, ◌≤◌, ℕ, List, ◌∷◌, ◌++◌, IfErr, IfNone, IfOk, IfSome, MatchOption};
ghost use Rattle.program_io.specs.declared.options.Next.{Next};
ghost use Rattle.program_io.specs.declared.options.OptionName.{OptionName};
ghost use Rattle.program_io.specs.declared.options.Kind.{Kind};
ghost use Rattle.program_io.specs.Options.{begins_negative, begins_with_dash, kind_error, option_kind, option_word, split_unit, unit_bytes, AreUndashed, IsByteCount, IsPositiveNumber, IsFaultOf, IsNextAfter, IsNoValue, IsPlain, IsRead, IsValue, NamesSomeWord};

use std::alloc::{AllocError, Global};
use thiserror::Error;

/// An option of a command line.
#[derive(Clone, Copy, Debug, PartialEq, Eq)]
pub enum OptionName {
    /// `--keep`: the number of log files that are kept. Without it all are.
    Keep,
    /// `--max-bytes`: the number of bytes after which the next file of a period begins. Without it there is no limit.
    MaxBytes,
    /// `--suffix`: the suffix of the log files' names.
    Suffix,
    /// `--link`: the name of a symbolic link to the newest log file.
    Link,
    /// `--queue`: the greatest number of queued lines, in place of the program's default.
    Queue,
    /// `--lossy`: whether a line is dropped if the queue is full. Otherwise the input waits.
    Lossy,
    /// `--no-wait`: whether lines are lost that the disk refuses, as when it is full. Otherwise they wait.
    NoWait,
    /// `--sync`: whether each flush of the log also syncs it.
    Sync,
    /// `--echo`: whether each line is also written to standard output.
    Echo,
    /// `--timestamps`: whether each line begins with the time at which it was read.
    Timestamps,
    /// `--whole-lines`: whether a part of a line is ended by a newline before the next line.
    WholeLines,
    /// `--direct`: whether each block of lines is written before the next one is read, without a queue.
    Direct,
}

impl OptionName {
    // Returns the word of the option.
    fn word(self) -> &'static str
        ensures { result.now ≡ option_word self }
    {
        match self {
            OptionName::Keep => "--keep",
            OptionName::MaxBytes => "--max-bytes",
            OptionName::Suffix => "--suffix",
            OptionName::Link => "--link",
            OptionName::Queue => "--queue",
            OptionName::Lossy => "--lossy",
            OptionName::NoWait => "--no-wait",
            OptionName::Sync => "--sync",
            OptionName::Echo => "--echo",
            OptionName::Timestamps => "--timestamps",
            OptionName::WholeLines => "--whole-lines",
            OptionName::Direct => "--direct",
        }
    }

    // Returns what the value of the option is.
    fn kind(self) -> Kind
        ensures { result ≡ option_kind self }
    {
        match self {
            OptionName::Keep | OptionName::Queue => Kind::Count,
            OptionName::MaxBytes => Kind::Bytes,
            OptionName::Suffix | OptionName::Link => Kind::Text,
            _ => Kind::Flag,
        }
    }
}

// What the value of an option is.
#[derive(Clone, Copy)]
enum Kind {
    // There is none.
    Flag,
    // A number from 1. 0 is rejected: without the option there is no limit.
    Count,
    // A number of bytes from 1.
    Bytes,
    // A text that is not empty.
    Text,
}

impl Kind {
    // Returns the reason why a number is no value of this kind. A text has none.
    fn error(self) -> OptionError
        ensures { result ≡ kind_error self }
    {
        match self {
            Kind::Count => OptionError::Count,
            Kind::Bytes => OptionError::ByteCount,
            Kind::Flag | Kind::Text => OptionError::Missing,
        }
    }

    // Reads a value of this kind.
    fn value(self, alloc: Global, text: &str) -> Result<Option<Given>, AllocError>
        ensures { IfOk result (λ value. MatchOption value (IsNoValue self text.now) (IsValue self text.now)) }
    {
        Ok(match self {
            Kind::Flag => Some(Given::Flag),
            Kind::Count => count(text).map(|n| Given::Number(n as u64)),
            Kind::Bytes => bytes(text).map(Given::Number),
            Kind::Text if text.is_empty() => None,
            Kind::Text => Some(Given::Text(String::from_str(alloc, text)?)),
        })
    }
}

/// What was given for an option.
#[derive(Debug, Drop)]
pub enum Given {
    /// It has no value.
    Flag,
    /// This number.
    Number(u64),
    /// This text.
    Text(String),
}

/// What a command line asks for beside its arguments.
#[derive(Debug, Drop)]
pub struct Options {
    /// Each option that is set, in their order.
    pub given: Vec<(OptionName, Given)>,
}

impl Options {
    ghost use Rattle.std.specs.Prelude.{◌≡◌, ◌↔◌, true, option_map, IfErr, OnOk};
    ghost use Rattle.program_io.specs.Options.{given_of, has_option, number_of, text_of, AreDefaults, IsWrong, IsReason, SetsOption};

    /// Returns the options of a command line that sets none.
    pub fn new(alloc: Global) -> Options
        ensures { AreDefaults result }
    {
        Options {
            given: Vec::new(alloc),
        }
    }

    /// Returns whether no option is set.
    pub fn is_plain(&self) -> bool
        ensures { (result ≡ true) ↔ AreDefaults self.now }
    {
        self.given.is_empty()
    }

    /// Returns whether an option is set.
    pub fn has(&self, name: OptionName) -> bool
        ensures { result ≡ has_option name self.now }
    {
        self.given(name).is_some()
    }

    /// Returns the number that an option is set to, or 0.
    pub fn number(&self, name: OptionName) -> u64
        ensures { result ≡ number_of name self.now }
    {
        match self.given(name) {
            Some(Given::Number(number)) => *number,
            _ => 0,
        }
    }

    /// Returns the text that an option is set to, or an empty one.
    pub fn text(&self, name: OptionName) -> &str
        ensures { result.now ≡ text_of name self.now }
    {
        match self.given(name) {
            Some(Given::Text(text)) => text.as_str(),
            _ => "",
        }
    }

    // Returns what was given for an option.
    fn given(&self, name: OptionName) -> Option<&Given>
        ensures { option_map (λ given. given.now) result ≡ given_of name self.now }
    {
        let found = self.given.iter().find(|given| given.0 == name)?;
        Some(&found.1)
    }

    // Sets an option that was not set before. The value of a flag is not read.
    fn set(&mut self, alloc: Global, name: OptionName, value: &str) -> Result<(), OptionFault>
        ensures set { OnOk result (SetsOption name value.now self.old self.new) }
        ensures fault { IfErr result (IsWrong name (IsReason name value.now self.old)) }
    {
        if self.has(name) {
            return Err(OptionFault::Wrong(name.word(), OptionError::Twice));
        }
        let Some(given) = name.kind().value(alloc, value)? else {
            return Err(OptionFault::Wrong(name.word(), name.kind().error()));
        };
        self.given.push((name, given)).map_err(AllocError::from)?;
        Ok(())
    }
}

/// The reason why an option is rejected.
#[derive(Clone, Copy, Debug, PartialEq, Eq, Error)]
pub enum OptionError {
    /// There is no value: the words end, the text is empty, or the next word begins with a dash and is no negative number.
    #[error("a value is missing")]
    Missing,
    /// The option was set before.
    #[error("given twice")]
    Twice,
    /// The program has no use for the option without a rotation. `read` never returns it.
    #[error("not with never, a log of one file; take weekly, whose files are the longest")]
    Never,
    /// The option is one of a queue. `read` never returns it.
    #[error("not with --direct")]
    Direct,
    /// The value is not a decimal number from 1 that a `usize` can represent.
    #[error("not a number from 1")]
    Count,
    /// The value is not a decimal number from 1, with `K`, `M`, `G`, a small one of them or no letter after it, that a `u64` can represent.
    #[error("not a number of bytes from 1, as 500, 64K, 10M or 2G")]
    ByteCount,
}

/// The reason why a command line is rejected.
#[derive(Debug, Drop)]
pub enum OptionFault {
    /// This word begins with a dash and is no option.
    Unknown(String),
    /// The option of this word is rejected.
    Wrong(&'static str, OptionError),
    /// Out of memory.
    Memory,
}

impl From<AllocError> for OptionFault {
    ghost use Rattle.std.specs.Prelude.{◌≡◌};
    ghost use Rattle.program_io.specs.declared.options.OptionFault.TheVariants.{Memory};

    ghost from_gives = { λ _ e. e ≡ Memory };

    fn from(_error: AllocError) -> OptionFault {
        OptionFault::Memory
    }
}

/// What a command line asks for.
#[derive(Debug, Drop)]
pub enum Request {
    /// To print the usage.
    Help,
    /// To print the version.
    Version,
    /// The program's work, with these options and arguments.
    Run(Options, Vec<String>),
}

/// Returns what the words after the program's name ask for. They are read from the left, up to `-h`, `--help` or
/// `--version`.
///
/// Each option is set at most once, anywhere before `--`. The words after that are arguments. A value follows a `=`
/// or is the next word, as in `--keep=7` and `--keep 7`. In a word of its own it may not begin with a dash, since a value
/// may have been forgotten. A negative number is reported as what it is.
/// `--max-bytes` takes `N[K|M|G]`, with 1,024 bytes for `K` or `k`.
///
/// `OptionFault::Unknown` and `OptionFault::Wrong` report the first wrong word.
pub fn read(alloc: Global, words: &[String]) -> Result<Request, OptionFault>
    ensures read { IfOk result (IsRead words.now) }
    ensures plain { AreUndashed words.now → IfOk result (IsPlain words.now) }
    ensures fault { IfErr result (IsFaultOf words.now) }
    ensures named { IfErr result (NamesSomeWord words.now) }
{
    let mut reading = Reading {
        options: Options::new(alloc),
        arguments: Vec::new(alloc),
        next: Next::Any,
    };
    let mut rest = words;
    while let Some((word, behind)) = rest.split_first() {
        reading.take(alloc, word.as_str())?;
        match reading.next {
            Next::Help => return Ok(Request::Help),
            Next::Version => return Ok(Request::Version),
            _ => rest = behind,
        }
    }
    match reading.next {
        Next::Value(name) => Err(OptionFault::Wrong(name.word(), OptionError::Missing)),
        _ => Ok(Request::Run(reading.options, reading.arguments)),
    }
}

// The meaning of the next word.
#[derive(Clone, Copy)]
enum Next {
    // An option or an argument.
    Any,
    // The value of an option.
    Value(OptionName),
    // An argument, after `--`.
    Argument,
    // It is not read, since the last one asks for the usage.
    Help,
    // It is not read, since the last one asks for the version.
    Version,
}

// What was read so far.
#[derive(Drop)]
struct Reading {
    options: Options,
    arguments: Vec<String>,
    next: Next,
}

impl Reading {
    ghost use Rattle.std.specs.Prelude.{◌≡◌, true, IfErr, OnOk};
    ghost use Rattle.program_io.specs.Options.{AddsArgument, IsWrongOption, Rejects, ReadsOption, ReadsWord};

    // Reads the next word.
    fn take(&mut self, alloc: Global, word: &str) -> Result<(), OptionFault>
        ensures taken { OnOk result (ReadsWord self.old.next word.now self.old self.new) }
        ensures fault { IfErr result (Rejects self.old.next word.now self.old.options) }
    {
        match self.next {
            Next::Value(name) if begins(word) => {
                let reason = if is_negative(word) {
                    name.kind().error()
                } else {
                    OptionError::Missing
                };
                Err(OptionFault::Wrong(name.word(), reason))
            }
            Next::Value(name) => {
                self.next = Next::Any;
                self.options.set(alloc, name, word)
            }
            Next::Any if begins(word) => self.take_option(alloc, word),
            _ => self.add(alloc, word),
        }
    }

    // Reads a word that begins with a dash.
    fn take_option(&mut self, alloc: Global, word: &str) -> Result<(), OptionFault>
        requires { begins_with_dash word.now ≡ true }
        ensures taken { OnOk result (ReadsOption word.now self.old self.new) }
        ensures fault { IfErr result (IsWrongOption word.now self.old.options) }
    {
        if let Some(next) = next_after(word) {
            self.next = next;
            return Ok(());
        }
        if let Some(flag) = flag_of(word) {
            return self.options.set(alloc, flag, "");
        }
        match with_value(word) {
            Some((name, value)) => self.options.set(alloc, name, value),
            None => Err(OptionFault::Unknown(String::from_str(alloc, word)?)),
        }
    }

    // Adds an argument.
    fn add(&mut self, alloc: Global, word: &str) -> Result<(), OptionFault>
        ensures added { OnOk result (AddsArgument word.now self.old self.new) }
        ensures fault { IfErr result (λ fault. fault ≡ OptionFault.Memory) }
    {
        let argument = String::from_str(alloc, word)?;
        self.arguments.push(argument).map_err(AllocError::from)?;
        Ok(())
    }
}

// Returns whether a word begins with a dash.
fn begins(word: &str) -> bool
    ensures { result ≡ begins_with_dash word.now }
{
    match word.as_bytes() {
        [first, ..] => *first == b'-',
        [] => false,
    }
}

// Returns whether a word begins with a dash and a digit, as a negative number does.
fn is_negative(word: &str) -> bool
    ensures { result ≡ begins_negative word.now }
{
    match word.as_bytes() {
        [first, second, ..] => *first == b'-' && second.is_ascii_digit(),
        _ => false,
    }
}

// Returns the meaning of the next word after one that sets nothing by itself.
fn next_after(word: &str) -> Option<Next>
    ensures some { IfSome result (IsNextAfter word.now) }
    ensures none { IfNone result ((next : Next) → ¬ IsNextAfter word.now next) }
{
    match word {
        "--" => Some(Next::Argument),
        "-h" | "--help" => Some(Next::Help),
        "--version" => Some(Next::Version),
        _ => Some(Next::Value(valued_of(word)?)),
    }
}

// Returns the option before the first `=` of a word, and the value after it.
fn with_value(word: &str) -> Option<(OptionName, &str)>
    ensures some { IfSome result (λ given. (word.now ≡ option_word given.0 ++ (61 ∷ given.1.now)) × (option_kind given.0 ≢ Kind.Flag)) }
    ensures none { IfNone result ((name : OptionName) (value : List ℕ) → option_kind name ≢ Kind.Flag
        → word.now ≢ option_word name ++ (61 ∷ value)) }
{
    let (name, value) = word.split_once('=')?;
    Some((valued_of(name)?, value))
}

// Returns the option with a value that has this word.
fn valued_of(word: &str) -> Option<OptionName>
    ensures some { IfSome result (λ name. (word.now ≡ option_word name) × (option_kind name ≢ Kind.Flag)) }
    ensures none { IfNone result ((name : OptionName) → option_kind name ≢ Kind.Flag → word.now ≢ option_word name) }
{
    match word {
        "--keep" => Some(OptionName::Keep),
        "--max-bytes" => Some(OptionName::MaxBytes),
        "--suffix" => Some(OptionName::Suffix),
        "--link" => Some(OptionName::Link),
        "--queue" => Some(OptionName::Queue),
        _ => None,
    }
}

// Returns the flag that has this word.
fn flag_of(word: &str) -> Option<OptionName>
    ensures some { IfSome result (λ name. (word.now ≡ option_word name) × (option_kind name ≡ Kind.Flag)) }
    ensures none { IfNone result ((name : OptionName) → option_kind name ≡ Kind.Flag → word.now ≢ option_word name) }
{
    match word {
        "--lossy" => Some(OptionName::Lossy),
        "--no-wait" => Some(OptionName::NoWait),
        "--sync" => Some(OptionName::Sync),
        "--echo" => Some(OptionName::Echo),
        "--timestamps" => Some(OptionName::Timestamps),
        "--whole-lines" => Some(OptionName::WholeLines),
        "--direct" => Some(OptionName::Direct),
        _ => None,
    }
}

// Reads a number of bytes from 1.
fn bytes(text: &str) -> Option<u64>
    ensures { MatchOption result (IsNoValue Kind.Bytes text.now) (IsByteCount text.now) }
{
    let (digits, unit) = split_unit(text);
    (count(digits)? as u64).checked_mul(unit)
}

// Reads a decimal number from 1, without a sign.
fn count(text: &str) -> Option<usize>
    ensures { MatchOption result (IsNoValue Kind.Count text.now) (IsPositiveNumber text.now) }
{
    if !text.as_bytes().first()?.is_ascii_digit() {
        return None;
    }
    match text.parse::<usize>() {
        Ok(count) if count > 0 => Some(count),
        _ => None,
    }
}

// Returns the text before the letter of a unit, which may be small, and the number of bytes of the unit.
fn split_unit(text: &str) -> (&str, u64)
    ensures unit { (result.0.now, result.1) ≡ split_unit text.now }
    ensures from_one { 1 ≤ result.1 }
{
    let Some(letter) = text.as_bytes().last() else {
        return (text, 1);
    };
    match bytes_of(*letter) {
        Some(unit) => (&text[..text.len() - 1], unit),
        None => (text, 1),
    }
}

// Returns the number of bytes of a unit.
fn bytes_of(letter: u8) -> Option<u64>
    ensures bytes { result ≡ unit_bytes letter }
    ensures from_one { IfSome result (λ bytes. 1 ≤ bytes) }
{
    match letter {
        b'K' | b'k' => Some(1 << 10),
        b'M' | b'm' => Some(1 << 20),
        b'G' | b'g' => Some(1 << 30),
        _ => None,
    }
}
