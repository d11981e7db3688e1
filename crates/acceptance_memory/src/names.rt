// Periods, names and readings, with the cases of the Rust crate's own tests, and the texts of errors.
use crate::expect::{AllocAndAbort, expect_eq, expect_eq_of};
use appender_core::error::{InitError, NameFault};
use appender_core::names::Names;
use appender_core::rotation::{ParseRotationError, Rotation, in_range};
use std::io;
use std::io::ErrorKind;
use std::process::Abort;
use tracing_appender::rolling::Builder;

const FIRST: i64 = -62_135_596_800;

const LAST: i64 = 253_370_764_799;

// 2025-02-17 10:01:00, a Monday.
const MONDAY: i64 = 1_739_786_460;

// 2025-01-01 10:01:00.
const NEW_YEAR: i64 = 1_735_725_660;

// 2020-02-01 10:01:00.
const START: i64 = 1_580_551_260;

// A rotation, a moment, the start of its period and the next boundary.
#[rattlefmt::skip]
static PERIODS: [(Rotation, i64, i64, i64); 12] = [
    (Rotation::MINUTELY, MONDAY, 1_739_786_460, 1_739_786_520),
    (Rotation::HOURLY, MONDAY, 1_739_786_400, 1_739_790_000),
    (Rotation::DAILY, MONDAY, 1_739_750_400, 1_739_836_800),
    (Rotation::WEEKLY, MONDAY, 1_739_664_000, 1_740_268_800),
    (Rotation::WEEKLY, NEW_YEAR, 1_735_430_400, 1_736_035_200),
    (Rotation::WEEKLY, 1_739_664_000, 1_739_664_000, 1_740_268_800),
    (Rotation::DAILY, -1, -86_400, 0),
    (Rotation::DAILY, 0, 0, 86_400),
    (Rotation::MINUTELY, -1, -60, 0),
    (Rotation::DAILY, LAST, 253_370_678_400, 253_370_764_800),
    (Rotation::DAILY, FIRST, FIRST, -62_135_510_400),
    (Rotation::WEEKLY, FIRST, -62_135_683_200, -62_135_078_400),
];

#[test]
fn starts_of_periods(rt: HostRuntime) {
    for (rotation, moment, start, next) in &PERIODS {
        expect_eq_of(&rt, moment, in_range(*moment), true);
        expect_eq_of(&rt, moment, rotation.round_date(*moment), *start);
        expect_eq_of(&rt, moment, rotation.next_date(*moment), Some(*next));
        expect_eq_of(&rt, moment, rotation.is_never(), false);
    }
    for moment in [FIRST - 1, LAST + 1, i64::MIN, i64::MAX] {
        expect_eq_of(&rt, moment, in_range(moment), false);
    }
    expect_eq(&rt, Rotation::NEVER.next_date(MONDAY), None);
    expect_eq(&rt, Rotation::NEVER.is_never(), true);
}

/// A rotation, a prefix, a suffix, and whether names have numbers.
pub(crate) type Naming<'a> = (Rotation, &'a str, &'a str, bool);

// A rotation, a prefix, a suffix, a moment, its number if names have one, and the name of both. Scripts of `rollplay`
// open further names.
#[rattlefmt::skip]
type Name = (Rotation, &'static str, &'static str, i64, Option<u32>, &'static str);

#[rattlefmt::skip]
static NAMES: [Name; 26] = [
    (Rotation::WEEKLY, "my_prefix", "log", NEW_YEAR, None, "my_prefix.2024-12-29.log"),
    (Rotation::MINUTELY, "app.log", "", START, None, "app.log.2020-02-01-10-01"),
    (Rotation::HOURLY, "app.log", "", START, None, "app.log.2020-02-01-10"),
    (Rotation::DAILY, "app.log", "", START, None, "app.log.2020-02-01"),
    (Rotation::NEVER, "app.log", "", START, None, "app.log"),
    (Rotation::MINUTELY, "app", "log", START, None, "app.2020-02-01-10-01.log"),
    (Rotation::HOURLY, "app", "log", START, None, "app.2020-02-01-10.log"),
    (Rotation::DAILY, "app", "log", START, None, "app.2020-02-01.log"),
    (Rotation::NEVER, "app", "log", START, None, "app.log"),
    (Rotation::MINUTELY, "", "log", START, None, "2020-02-01-10-01.log"),
    (Rotation::HOURLY, "", "log", START, None, "2020-02-01-10.log"),
    (Rotation::DAILY, "", "log", START, None, "2020-02-01.log"),
    (Rotation::NEVER, "", "log", START, None, "log"),
    (Rotation::MINUTELY, "", "", -1, None, "1969-12-31-23-59"),
    (Rotation::DAILY, "", "", -2_203_891_201, None, "1900-02-28"),
    (Rotation::DAILY, "", "", -2_203_891_200, None, "1900-03-01"),
    (Rotation::DAILY, "", "", 951_782_400, None, "2000-02-29"),
    (Rotation::DAILY, "", "", 1_709_164_800, None, "2024-02-29"),
    (Rotation::DAILY, "", "", 4_107_542_400, None, "2100-03-01"),
    (Rotation::MINUTELY, "", "", FIRST, None, "0001-01-01-00-00"),
    (Rotation::HOURLY, "app", "log", START, Some(0), "app.2020-02-01-10.000000.log"),
    (Rotation::HOURLY, "app", "log", START, Some(7), "app.2020-02-01-10.000007.log"),
    (Rotation::HOURLY, "app", "log", START, Some(999_999), "app.2020-02-01-10.999999.log"),
    (Rotation::MINUTELY, "app.log", "", START, Some(123_456), "app.log.2020-02-01-10-01.123456"),
    (Rotation::DAILY, "", "", START, Some(40_100), "2020-02-01.040100"),
    (Rotation::WEEKLY, "", "log", MONDAY, Some(7), "2025-02-16.000007.log"),
];

// The names of a builder's log. They have numbers if it has a limit of bytes.
fn built_names(rt: &impl AllocAndAbort, naming: Naming<'_>) -> Result<Names, InitError> {
    let (rotation, prefix, suffix, numbered) = naming;
    let builder = Builder::new().rotation(rotation);
    let builder = builder.max_file_bytes(u64::from(numbered));
    let builder = builder.filename_prefix(rt.alloc(), prefix);
    let builder = builder.expect(rt, "memory");
    let builder = builder.filename_suffix(rt.alloc(), suffix);
    builder.expect(rt, "memory").names(rt.alloc())
}

/// Names that were made.
pub(crate) fn names_in(rt: &impl Abort, made: Result<Names, InitError>) -> Names {
    match made {
        Ok(names) => names,
        Err(_) => rt.panic("no names"),
    }
}

/// What a log's files are called.
pub(crate) fn names_of(rt: &impl AllocAndAbort, naming: Naming<'_>) -> Result<Names, InitError> {
    match naming {
        (rotation, prefix, suffix, true) => Names::numbered(rt.alloc(), rotation, prefix, suffix),
        (rotation, prefix, suffix, false) => Names::new(rt.alloc(), rotation, prefix, suffix),
    }
}

fn expect_name(rt: &impl AllocAndAbort, names: &Names, moment: i64, wanted: &str) {
    assert!(rt; in_range(moment));
    let name = names.file_name(moment).expect(rt, "memory");
    expect_eq(rt, name.as_str(), wanted);
}

// The same with a number. `renumber` writes it in place of 0 into a name with spare room.
fn expect_numbered(rt: &impl AllocAndAbort, names: &Names, moment: i64, number: u32, wanted: &str) {
    assert!(rt; in_range(moment));
    assert!(rt; names.is_numbered());
    assert!(rt; number <= 999_999);
    let named = names.file_name_at(moment, number).expect(rt, "memory");
    expect_eq(rt, named.as_str(), wanted);
    let mut name = names.file_name(moment).expect(rt, "memory");
    name.reserve(16).expect(rt, "memory");
    names.renumber(moment, &mut name, number);
    expect_eq(rt, name.as_str(), wanted);
}

#[test]
fn names_of_moments(rt: HostRuntime) {
    for (rotation, prefix, suffix, moment, number, name) in &NAMES {
        let made = built_names(&rt, (*rotation, prefix, suffix, number.is_some()));
        let names = names_in(&rt, made);
        match number {
            Some(number) => expect_numbered(&rt, &names, *moment, *number, name),
            None => expect_name(&rt, &names, *moment, name),
        }
    }
}

// Texts, and the second and the number that each reads as, if it is a name. The number is 0 if names have none.
type Readings = &'static [(&'static str, Option<(i64, u32)>)];

#[rattlefmt::skip]
static READINGS: [(Naming<'static>, Readings); 13] = [
    ((Rotation::DAILY, "app", "log", false), &[("app.2020-02-01.log", Some((1_580_515_200, 0))), ("", None)]),
    ((Rotation::HOURLY, "app", "log", false), &[
        ("app.2020-02-01-10.log", Some((1_580_551_200, 0))), ("app.2020-02-01-10.000007.log", None),
    ]),
    ((Rotation::MINUTELY, "app", "log", false), &[
        ("app.2020-02-01-10-01.log", Some((START, 0))), ("app.2020-02-30-10-01.log", None),
        ("app.+020-02-01-10-01.log", None), ("app.2020-02-01-10-1.log", None), ("app.2020-02-01-24-00.log", None),
        ("app.2020-02-01-10-60.log", None), ("app.2020-02-01-10.log", None), ("app2020-02-01-10-01.log", None),
        ("app.2020-02-01-10-01log", None), ("app.2020-02-01-10-01", None), ("2020-02-01-10-01.log", None),
    ]),
    ((Rotation::WEEKLY, "", "", false), &[("2020-02-01", Some((1_580_515_200, 0)))]),
    ((Rotation::NEVER, "", "", false), &[("2020-02-01", Some((1_580_515_200, 0)))]),
    ((Rotation::NEVER, "app", "", false), &[("app.2020-02-01", Some((1_580_515_200, 0)))]),
    ((Rotation::NEVER, "app", "log", false), &[("app.log", None)]),
    ((Rotation::DAILY, "", "", false), &[
        ("1970-01-01", Some((0, 0))), ("1969-12-31", Some((-86_400, 0))), ("0000-01-01", Some((-62_167_219_200, 0))),
        ("0000-02-29", Some((-62_162_121_600, 0))), ("1900-03-01", Some((-2_203_891_200, 0))),
        ("2000-02-29", Some((951_782_400, 0))), ("2024-02-29", Some((1_709_164_800, 0))),
        ("2100-03-01", Some((4_107_542_400, 0))), ("1900-02-29", None), ("2023-02-29", None), ("2100-02-29", None),
        ("2020-02-30", None), ("2020-04-31", None), ("2020-00-01", None), ("2020-13-01", None), ("2020-01-00", None),
        ("-001-01-01", None), ("10000-01-01", None), ("2020/02/01", None), ("2020-02-01-00", None),
    ]),
    ((Rotation::MINUTELY, "", "", false), &[("9999-12-31-23-59", Some((253_402_300_740, 0)))]),
    ((Rotation::HOURLY, "app", "log", true), &[
        ("app.2020-02-01-10.000000.log", Some((1_580_551_200, 0))),
        ("app.2020-02-01-10.000007.log", Some((1_580_551_200, 7))),
        ("app.2020-02-01-10.999999.log", Some((1_580_551_200, 999_999))),
        ("app.2020-02-01-10.00007.log", None), ("app.2020-02-01-10.0000007.log", None),
        ("app.2020-02-01-10000007.log", None), ("app.2020-02-01-10-000007.log", None),
        ("app.2020-02-01-10.+00007.log", None), ("app.2020-02-01-10.-00007.log", None),
        ("app.2020-02-01-10.00000a.log", None), ("app.2020-02-01-10.abcdef.log", None),
        ("app.2020-02-01-10.000007", None), ("app.2020-02-01-10.000007log", None),
        ("app.2020-02-30-10.000007.log", None), ("app.2020-02-01.000007.log", None),
        ("app.2020-02-01-10.log", None), ("", None),
    ]),
    ((Rotation::MINUTELY, "app.log", "", true), &[("app.log.2020-02-01-10-01.123456", Some((START, 123_456)))]),
    ((Rotation::DAILY, "", "", true), &[("2020-02-01.040100", Some((1_580_515_200, 40_100)))]),
    ((Rotation::WEEKLY, "", "log", true), &[("2025-02-16.000007.log", Some((1_739_664_000, 7)))]),
];

// Checks what texts read as.
fn expect_readings(rt: &impl Abort, names: &Names, readings: Readings) {
    for (text, wanted) in readings {
        let second = wanted.map(|(second, _)| second);
        let number = if names.is_numbered() { *wanted } else { None };
        expect_eq_of(rt, *text, names.read(text), second);
        expect_eq_of(rt, *text, names.read_numbered(text), number);
    }
}

#[test]
fn readings_of_names(rt: HostRuntime) {
    for (naming, readings) in &READINGS {
        let names = names_in(&rt, names_of(&rt, *naming));
        expect_eq(&rt, names.is_numbered(), naming.3);
        expect_readings(&rt, &names, readings);
    }
}

// A rotation, a prefix and a suffix. Which of them names cannot have, and the code of the error that names with numbers
// give: 0 is none.
#[rattlefmt::skip]
static PARTS: [(Rotation, &'static str, &'static str, Option<NameFault>, u8); 15] = [
    (Rotation::DAILY, "app", "", None, 0),
    (Rotation::DAILY, "a/b", "", Some(NameFault::Prefix), 5),
    (Rotation::DAILY, "", "a/", Some(NameFault::Suffix), 5),
    (Rotation::NEVER, "a/", "\0", Some(NameFault::Prefix), 5),
    (Rotation::DAILY, "a\0", "", Some(NameFault::Prefix), 5),
    (Rotation::NEVER, "a", "\0", Some(NameFault::Suffix), 5),
    (Rotation::DAILY, "..", "", None, 0),
    (Rotation::DAILY, "", ".", None, 0),
    (Rotation::NEVER, ".", "", Some(NameFault::Prefix), 5),
    (Rotation::NEVER, "..", "", Some(NameFault::Prefix), 5),
    (Rotation::NEVER, "", ".", Some(NameFault::Suffix), 5),
    (Rotation::NEVER, "", "..", Some(NameFault::Suffix), 5),
    (Rotation::NEVER, "..", ".", None, 7),
    (Rotation::NEVER, "...", "", None, 7),
    (Rotation::NEVER, "", "", None, 7),
];

// The code of the error, if there is one, else 0, and which name is not allowed.
fn fault_of(made: &Result<Names, InitError>) -> (u8, Option<NameFault>) {
    match made {
        Ok(_) => (0, None),
        Err(InitError::Name(fault)) => (5, Some(*fault)),
        Err(error) => (error.code(), None),
    }
}

#[test]
fn parts_of_names(rt: HostRuntime) {
    for (rotation, prefix, suffix, fault, code) in &PARTS {
        let is_allowed = Names::is_allowed(*rotation, prefix, suffix);
        expect_eq_of(&rt, *prefix, is_allowed, fault.is_none());
        let plain = if fault.is_some() { 5 } else { 0 };
        for (numbered, code) in [(false, plain), (true, *code)] {
            let naming = (*rotation, *prefix, *suffix, numbered);
            let (made, built) = (names_of(&rt, naming), built_names(&rt, naming));
            expect_eq_of(&rt, *prefix, fault_of(&made), (code, *fault));
            expect_eq_of(&rt, *prefix, fault_of(&built), (code, *fault));
        }
    }
}

// An error's code, its source, and the kind of the error of input and output that it becomes.
type Sorts = (u8, Option<ErrorKind>, ErrorKind);

// Checks the text of an error too, and the words of the other.
fn expect_error(rt: &impl AllocAndAbort, error: InitError, sorts: Sorts, text: &str, words: &str) {
    let printed = error.to_string(rt.alloc()).expect(rt, "memory");
    expect_eq(rt, printed.as_str(), text);
    let (code, source) = (error.code(), error.source().map(|e| e.kind()));
    let error = io::Error::from(error);
    expect_eq_of(rt, words, (code, source, error.kind()), sorts);
    let printed = error.to_string(rt.alloc()).expect(rt, "memory");
    expect_eq(rt, printed.as_str(), words);
}

// Names that are not allowed, and the words of each error.
#[rattlefmt::skip]
static NAME_FAULTS: [(NameFault, &str); 4] = [
    (NameFault::Prefix, "name not allowed: the prefix cannot be part of a file name"),
    (NameFault::Suffix, "name not allowed: the suffix cannot be part of a file name"),
    (NameFault::Link, "name not allowed: the link cannot be a file name"),
    (NameFault::Clash, "name not allowed: the link has the name of a log file"),
];

#[test]
fn errors_without_a_fault(rt: HostRuntime) {
    let text = ParseRotationError.to_string(rt.alloc());
    expect_eq(&rt, text.expect(&rt, "memory").as_str(), "unknown rotation");
    expect_eq(&rt, "".parse::<Rotation>().is_err(), true);
    let text = "moment out of range";
    let sorts = (4, None, ErrorKind::InvalidInput);
    expect_error(&rt, InitError::Moment, sorts, text, text);
    for (fault, words) in &NAME_FAULTS {
        let sorts = (5, None, ErrorKind::InvalidInput);
        let (error, text) = (InitError::Name(*fault), "name not allowed");
        expect_error(&rt, error, sorts, text, words);
    }
    let text = "out of memory";
    let sorts = (6, None, ErrorKind::OutOfMemory);
    expect_error(&rt, InitError::Memory, sorts, text, text);
    let text = "byte limit without a rotation: take WEEKLY";
    let sorts = (7, None, ErrorKind::InvalidInput);
    expect_error(&rt, InitError::Limit, sorts, text, text);
}

// The words of an error that the file system gave are cut after 80 bytes.
#[test]
fn errors_of_the_file_system(rt: HostRuntime) {
    let (denied, full) = (
        io::Error::from_raw_os_error(13),
        io::Error::from_raw_os_error(28),
    );
    let kind = ErrorKind::PermissionDenied;
    let text = "failed to create log directory: Permission denied (os error 13)";
    let sorts = (1, Some(kind), kind);
    expect_error(&rt, InitError::Directory(denied), sorts, text, text);
    let text = "failed to create log file: Permission denied (os error 13)";
    let sorts = (2, Some(kind), kind);
    expect_error(&rt, InitError::File(denied), sorts, text, text);
    let sorts = (3, Some(ErrorKind::StorageFull), ErrorKind::StorageFull);
    let text = "failed to create symlink to latest log file: No space left on device (os error 28)";
    let words = "failed to create symlink to latest log file: No space left on device (os erro...";
    expect_error(&rt, InitError::Symlink(full), sorts, text, words);
}
