//! Retention: the oldest log files are removed, so that at most a maximum remains. By default log files are known and
//! ranked as the documentation of tracing-appender has it; by name, only those that the log itself can have made count.
ghost use Rattle.std.specs.Prelude.{◌≡◌, IfOk, map};
ghost use Rattle.std.specs.Prelude.{◌&&◌, Some};
ghost use Rattle.std.specs.Prelude.{count_by, false, int_lt};
ghost use Rattle.std.specs.Option.{option_map, option_map_or};
ghost use Rattle.appender_names.specs.Name.{reading_at};
ghost use Rattle.appender_names.specs.Rotation.{is_moment, is_same_start, period_of};
ghost use Rattle.appender_store.specs.Folder.{listed_row};
ghost use Rattle.appender_retain.specs.Inside.Candidate.{rank_in, removal_count};
ghost use Rattle.appender_retain.specs.Rank as rank;
ghost use Rattle.appender_retain.specs.Rank.{IsPlan, log_files_by_parts, candidate_key, rank_of, ranks};

mod prune;

use appender_names::names::Names;
use appender_names::rotation::{Rotation, in_range};
use appender_store::store::{Kind, Listed};
pub use prune::{prune_log_files, prune_old_logs};
use std::alloc::{AllocError, Global};
use std::marker::Model;

const NANOS_PER_SECOND: i128 = 1_000_000_000;

// The greatest count of numbered files in one period.
const NUMBERS: i128 = 1_000_000;

/// The log files that retention counts, and how they rank.
#[derive(Drop)]
pub struct LogFiles<'a> {
    names: &'a Names,
    by_name: bool,
    opened: Option<&'a str>,
}

impl<'a> Model for LogFiles<'a> {
    ghost use Rattle.std.specs.Option.{option_map};
    ghost use Rattle.appender_retain.specs.Rank.{LogFiles};

    ghost Value = { LogFiles };

    ghost view = { λ log. record {
      naming = log.names.now;
      by_name = log.by_name;
      opened = option_map (λ name. name.now) log.opened;
    } };
}

impl<'a> LogFiles<'a> {
    /// Returns the log files that are there before the file of the name `opened` is opened.
    ///
    /// If `by_name` is set, they are the plain files whose names read as the start of a period, and with their numbers
    /// are before that file. They rank by period, and then by number. Under `NEVER` there are none. If it is not set, they are those of
    /// `matching`.
    pub fn new(names: &'a Names, by_name: bool, opened: &'a str) -> LogFiles<'a>
        ensures { result ≡ record { naming = names.now; by_name = by_name; opened = Some opened.now } }
    {
        LogFiles {
            names,
            by_name,
            opened: Some(opened),
        }
    }

    /// Returns the plain files whose names begin with the prefix and end with the suffix. If neither is set, a name
    /// must read as a date. The files rank by creation time. If that is unknown, the second of the name is used. Files
    /// of the same time rank by name.
    pub fn matching(names: &'a Names) -> LogFiles<'a>
        ensures { result ≡ log_files_by_parts names.now }
    {
        LogFiles {
            names,
            by_name: false,
            opened: None,
        }
    }
}

// A candidate, with what decides its rank, in this order.
#[derive(Clone, Copy, Debug, PartialEq, Eq, PartialOrd, Ord)]
struct Candidate<'a> {
    key: i128,
    name: &'a str,
    place: usize,
}

/// Returns the places in a listing of the log files to remove, lowest rank first. Once they are removed and one file is
/// made, there are at most `max` log files. No file is removed if `max` is 0.
///
/// Log files and their ranks are those of `LogFiles::matching`. `AllocError` if there is no memory for the places.
pub fn plan(
    alloc: Global,
    names: &Names,
    max: usize,
    listed: &[Listed],
) -> Result<Vec<usize>, AllocError>
    ensures { IfOk result (λ gone. IsPlan (log_files_by_parts names.now) max (map listed_row listed.now) gone.items) }
{
    plan_log_files(alloc, &LogFiles::matching(names), max, listed)
}

/// Returns the places in a listing of the log files of `log` to remove, lowest rank first. `max` and the error are as for
/// `plan`.
pub fn plan_log_files(
    alloc: Global,
    log: &LogFiles<'_>,
    max: usize,
    listed: &[Listed],
) -> Result<Vec<usize>, AllocError>
    ensures { IfOk result (λ gone. IsPlan log.now max (map listed_row listed.now) gone.items) }
{
    let mut all = candidates(alloc, log, listed)?;
    all.sort_unstable();
    let count = how_many(max, all.len());
    places(alloc, &all[..count])
}

/// Returns how many files of a listing are later than the file that is opened. By name they neither count nor go.
pub fn count_later(log: &LogFiles<'_>, listed: &[Listed]) -> usize
    ensures { result ≡ count_by (rank.is_later log.now) (map listed_row listed.now) }
{
    let mut count = 0;
    for entry in listed {
        if is_later(log, entry) {
            count += 1;
        }
    }
    count
}

fn is_later(log: &LogFiles<'_>, entry: &Listed) -> bool
    ensures { result ≡ rank.is_later log.now (listed_row entry.now) }
{
    match &entry.name {
        Some(name) => entry.kind == Kind::File && is_later_name(log, name.as_str()),
        None => false,
    }
}

fn is_later_name(log: &LogFiles<'_>, name: &str) -> bool
    ensures { result ≡ rank.is_later_name log.now name.now }
{
    match opened_key(log) {
        Some(opened) => is_above(opened, key_by_name(log.names, name)),
        None => false,
    }
}

fn is_above(low: i128, key: Option<i128>) -> bool
    ensures { result ≡ option_map_or (int_lt low) key false }
{
    match key {
        Some(key) => low < key,
        None => false,
    }
}

// Returns the candidates of a listing, in its order.
fn candidates<'a>(
    alloc: Global,
    log: &LogFiles<'_>,
    listed: &'a [Listed],
) -> Result<Vec<Candidate<'a>>, AllocError>
    ensures { IfOk result (λ all.
        map rank_in all.items ≡ ranks log.now (map listed_row listed.now)) }
{
    let mut all = Vec::new(alloc);
    for (place, entry) in listed.iter().enumerate() {
        if let Some(candidate) = as_candidate(log, place, entry) {
            all.push(candidate)?;
        }
    }
    Ok(all)
}

// Returns the entry as a candidate, if it is one.
fn as_candidate<'a>(log: &LogFiles<'_>, place: usize, entry: &'a Listed) -> Option<Candidate<'a>>
    ensures { option_map rank_in result ≡ rank_of log.now (place, listed_row entry.now) }
{
    let name = entry.name.as_ref()?.as_str();
    if entry.kind != Kind::File {
        return None;
    }
    let key = key(log, name, entry.created)?;
    Some(Candidate { key, name, place })
}

// Returns the key of a file, if it is a log file.
fn key(log: &LogFiles<'_>, name: &str, created: Option<i128>) -> Option<i128>
    ensures { result ≡ candidate_key log.now name.now created }
{
    if !log.by_name {
        return key_by_creation(log.names, name, created);
    }
    let key = key_by_name(log.names, name)?;
    is_before_opened(log, key).then_some(key)
}

// Returns whether a key is below that of the file that is opened next. By name neither that file nor a later one is a
// candidate: the opened one would be removed with a maximum of 1, and later ones, which a clock that was ahead left, would
// take the places of all others.
fn is_before_opened(log: &LogFiles<'_>, key: i128) -> bool
    ensures { result ≡ rank.is_before_opened log.now key }
{
    match opened_key(log) {
        Some(opened) => key < opened,
        // The name of the week in which the year 1 begins has none: nothing is before it.
        None => log.opened.is_none(),
    }
}

// Returns the key of the file that is opened next, if its name has one.
fn opened_key(log: &LogFiles<'_>) -> Option<i128>
    ensures { result ≡ rank.opened_key log.now }
{
    key_by_name(log.names, log.opened?)
}

// Returns the period and the number that a name reads as, as one number.
fn key_by_name(names: &Names, name: &str) -> Option<i128>
    ensures { result ≡ rank.key_by_name names.now name.now }
{
    let (period, number) = read(names, name)?;
    if !begins_period(names.rotation(), period) {
        return None;
    }
    Some(i128::from(period) * NUMBERS + i128::from(number))
}

// Returns the second and the number that a name reads as. Without numbers the number is 0.
fn read(names: &Names, name: &str) -> Option<(i64, u32)>
    ensures { result ≡ reading_at names.now name.now }
{
    if names.is_numbered() {
        names.read_numbered(name)
    } else {
        Some((names.read(name)?, 0))
    }
}

fn begins_period(rotation: Rotation, second: i64) -> bool
    ensures { result ≡ (is_moment second && is_same_start (period_of rotation second) (Some second)) }
{
    in_range(second) && !rotation.is_never() && rotation.round_date(second) == second
}

// Returns the nanosecond that ranks a file: that of its creation, else that of its name.
fn key_by_creation(names: &Names, name: &str, created: Option<i128>) -> Option<i128>
    ensures { result ≡ candidate_key (log_files_by_parts names.now) name.now created }
{
    if !has_parts(names, name) {
        return None;
    }
    match created {
        Some(moment) => Some(moment),
        None => Some(i128::from(names.read(name)?) * NANOS_PER_SECOND),
    }
}

// Returns whether a name has prefix and suffix, and reads as a date if neither is set.
fn has_parts(names: &Names, name: &str) -> bool
    ensures { result ≡ rank.has_parts names.now name.now }
{
    let (prefix, suffix) = (names.prefix(), names.suffix());
    name.as_bytes().starts_with(prefix.as_bytes())
        && name.as_bytes().ends_with(suffix.as_bytes())
        && (!(prefix.is_empty() && suffix.is_empty()) || names.read(name).is_some())
}

// Returns how many of `count` candidates are removed.
fn how_many(max: usize, count: usize) -> usize
    ensures { result ≡ removal_count max count }
{
    if max == 0 {
        0
    } else {
        count.saturating_sub(max - 1)
    }
}

// Returns the places of some candidates.
fn places(alloc: Global, some: &[Candidate<'_>]) -> Result<Vec<usize>, AllocError>
    ensures { IfOk result (λ all. all.items ≡ map (λ c. c.place) some.now) }
{
    some.iter().map(|candidate| candidate.place).collect(alloc)
}
