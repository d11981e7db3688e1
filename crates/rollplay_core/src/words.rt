//! A line of a script, word by word.
ghost use Rattle.std.specs.Prelude.{◌≡◌, ◌≢◌, ◌↔◌, ◌<◌, ◌^◌, ℤ, Option, FitsSigned, ◌∷◌, ◌++◌, ◌==◌, ℕ, List};
ghost use Rattle.std.specs.Prelude.{[], None, Some, Err, IfOk, IfErr, IfSome, IfNone, IsOk, MatchOption};
ghost use Rattle.std.specs.Prelude.{string_bytes, unwrap_or};
ghost use Rattle.std.specs.Int.{w128};
ghost use Rattle.std.specs.Option.{option_map};
ghost use Rattle.std.specs.List.{before_first};
ghost use Rattle.rollplay_core.specs.Words.{tail_of, TakesWord, HasNoWord, TakesWordOf, TakesNoWordOf};
ghost use Rattle.rollplay_core.specs.Text.{script_escape, IsEscaped, IsNoEscapedText, IsSigned, IsUnsigned, IsSeconds};
ghost use Rattle.rollplay_core.specs.Text.{IsCreationMoment, IsCount, IsCallNumber};

use std::alloc::{AllocError, Global};
use std::marker::Model;

/// Why a line of a script was not taken.
#[derive(Clone, Copy, Debug, PartialEq, Eq)]
pub enum LineError {
    /// It is no line of the language, or it is not allowed in its place.
    Fault,
    /// Memory was refused.
    Memory,
}

impl From<AllocError> for LineError {
    ghost use Rattle.rollplay_core.specs.declared.words.LineError.TheVariants.{Memory};

    ghost from_gives = { λ _ e. e ≡ Memory };

    fn from(_error: AllocError) -> LineError {
        LineError::Memory
    }
}

/// The rest of a line: the text after one space, or `None` if there was no space.
#[derive(Drop)]
pub struct Words<'a> {
    rest: Option<&'a str>,
}

impl<'a> Model for Words<'a> {
    ghost use Rattle.std.specs.Prelude.{Option, List, ℕ};
    ghost use Rattle.std.specs.Option.{option_map};

    ghost Value = { Option (List ℕ) };

    ghost view = { λ w. option_map (λ rest. rest.now) w.rest };
}

impl<'a> Words<'a> {
    /// Returns the words of a whole line, without its newline.
    pub fn new(line: &'a str) -> Words<'a>
        ensures { result ≡ Some line.now }
    {
        Words { rest: Some(line) }
    }

    /// Takes the next word, which is not empty. One space separates two words.
    pub fn word(&mut self) -> Result<&'a str, LineError>
        ensures ok { IfOk result (λ word. TakesWord self.old word.now self.new) }
        ensures err { IfErr result (λ e. (e ≡ LineError.Fault) × HasNoWord self.old) }
    {
        let line = self.rest.ok_or(LineError::Fault)?;
        let (word, rest) = split_word(line);
        if word.is_empty() {
            return Err(LineError::Fault);
        }
        self.rest = rest;
        Ok(word)
    }

    /// Takes the next word as a moment, in seconds of UTC since the epoch.
    pub fn seconds(&mut self) -> Result<i64, LineError>
        ensures ok { IfOk result (λ seconds. TakesWordOf (λ word. IsSeconds word seconds) self.old self.new) }
        ensures err { IfErr result (λ e. (e ≡ LineError.Fault)
            × TakesNoWordOf (λ word. (m : ℤ) × IsSeconds word m) self.old self.new) }
    {
        let number = read_signed(self.word()?).ok_or(LineError::Fault)?;
        i64::try_from(number).map_err(|_| LineError::Fault)
    }

    /// Takes the next word as a creation moment, in nanoseconds since the epoch, or `none`.
    pub fn creation(&mut self) -> Result<Option<i128>, LineError>
        ensures ok { IfOk result (λ created. TakesWordOf (λ word. IsCreationMoment word created) self.old self.new) }
        ensures err { IfErr result (λ e. (e ≡ LineError.Fault)
            × TakesNoWordOf (λ word. (created : Option ℤ) × IsCreationMoment word created) self.old self.new) }
    {
        match self.word()? {
            "none" => Ok(None),
            word => Ok(Some(read_signed(word).ok_or(LineError::Fault)?)),
        }
    }

    /// Takes the next word as a count: decimal digits without a sign.
    pub fn count(&mut self) -> Result<usize, LineError>
        ensures ok { IfOk result (λ count. TakesWordOf (λ word. IsCount word count) self.old self.new) }
        ensures err { IfErr result (λ e. (e ≡ LineError.Fault)
            × TakesNoWordOf (λ word. (n : ℕ) × IsCount word n) self.old self.new) }
    {
        let number = read_unsigned(self.word()?).ok_or(LineError::Fault)?;
        usize::try_from(number).map_err(|_| LineError::Fault)
    }

    /// Takes the next word as the label of a sender: decimal digits without a sign.
    pub fn unsigned(&mut self) -> Result<u64, LineError>
        ensures ok { IfOk result (λ label. TakesWordOf (λ word. IsCount word label) self.old self.new) }
        ensures err { IfErr result (λ e. (e ≡ LineError.Fault)
            × TakesNoWordOf (λ word. (n : ℕ) × IsCount word n) self.old self.new) }
    {
        read_unsigned(self.word()?).ok_or(LineError::Fault)
    }

    /// Takes the next word as the number of a call, from 1 on.
    pub fn call(&mut self) -> Result<u64, LineError>
        ensures ok { IfOk result (λ number. TakesWordOf (λ word. IsCallNumber word number) self.old self.new) }
        ensures err { IfErr result (λ e. (e ≡ LineError.Fault)
            × TakesNoWordOf (λ word. (n : ℕ) × IsCallNumber word n) self.old self.new) }
    {
        let number = read_unsigned(self.word()?).ok_or(LineError::Fault)?;
        if number == 0 {
            return Err(LineError::Fault);
        }
        Ok(number)
    }

    /// Takes the whole rest, spaces too, with its escapes resolved. It is empty if nothing is left.
    pub fn text(&mut self, alloc: Global) -> Result<String, LineError>
        ensures all { self.new ≡ None }
        ensures ok { IfOk result (λ plain. IsEscaped (string_bytes plain) (unwrap_or self.old [])) }
        ensures fault { result ≡ Err LineError.Fault → IsNoEscapedText (unwrap_or self.old []) }
    {
        let text = self.rest.take().unwrap_or("");
        unescape(alloc, text)
    }

    /// Checks that the line ends here, without a space.
    pub fn end(&self) -> Result<(), LineError>
        ensures end { IsOk result ↔ (self.now ≡ None) }
        ensures err { IfErr result (λ e. e ≡ LineError.Fault) }
    {
        match self.rest {
            None => Ok(()),
            Some(_) => Err(LineError::Fault),
        }
    }
}

// Returns the text before the first space, and the text after it.
fn split_word(line: &str) -> (&str, Option<&str>)
    ensures word { result.0.now ≡ before_first (λ b. b == 32) line.now }
    ensures join { line.now ≡ result.0.now ++ tail_of (option_map (λ rest. rest.now) result.1) }
{
    match line.split_once(' ') {
        Some((word, rest)) => (word, Some(rest)),
        None => (line, None),
    }
}

// Reads a decimal number. Only negative numbers have a sign.
fn read_signed(word: &str) -> Option<i128>
    ensures { MatchOption result ((n : ℤ) → FitsSigned w128 n → ¬ (IsSigned word.now n))
        (IsSigned word.now) }
{
    if word.starts_with('+') {
        return None;
    }
    let number = word.parse::<i128>().ok()?;
    if word.starts_with('-') != (number < 0) {
        return None;
    }
    Some(number)
}

// Reads a decimal number without a sign.
fn read_unsigned(word: &str) -> Option<u64>
    ensures { MatchOption result ((n : ℕ) → n < 2 ^ 64 → ¬ (IsUnsigned word.now n))
        (IsUnsigned word.now) }
{
    if !word.as_bytes().first()?.is_ascii_digit() {
        return None;
    }
    word.parse::<u64>().ok()
}

// Returns the text with a newline for each `\n` and a backslash for each `\\`. Any other backslash is a fault.
fn unescape(alloc: Global, text: &str) -> Result<String, LineError>
    ensures ok { IfOk result (λ plain. IsEscaped (string_bytes plain) text.now) }
    ensures fault { result ≡ Err LineError.Fault → IsNoEscapedText text.now }
{
    let mut plain = String::with_capacity(alloc, text.len())?;
    let mut rest = text;
    while let Some((before, after)) = rest.split_once('\\') {
        plain.push_str(before)?;
        let (character, behind) = split_escape(after).ok_or(LineError::Fault)?;
        plain.push(character)?;
        rest = behind;
    }
    plain.push_str(rest)?;
    Ok(plain)
}

// Returns the character that is escaped at the start of a text, and the text after it.
fn split_escape(text: &str) -> Option<(char, &str)>
    ensures byte { IfSome result (λ r. r.0 < 128) }
    ensures split { IfSome result (λ r. 92 ∷ text.now ≡ script_escape r.0 ++ r.1.now) }
    ensures none { IfNone result
        ((b : ℕ) → (rest : List ℕ) → 92 ∷ text.now ≢ script_escape b ++ rest) }
{
    if let Some(behind) = text.strip_prefix('n') {
        return Some(('\n', behind));
    }
    let behind = text.strip_prefix('\\')?;
    Some(('\\', behind))
}
