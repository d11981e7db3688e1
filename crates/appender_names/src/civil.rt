//! Dates and times of day, by jiff, and their texts in names.
ghost use Rattle.std.specs.Prelude.{◌≡◌, ◌≢◌, ℕ, ℤ, pos, negsuc, ◌*ℤ◌, ◌<◌, [], ◌∷◌, IfOk, MatchOption, string_bytes};
ghost use Rattle.jiff.specs.Words.{civil_nanos};
ghost use Rattle.appender_names.specs.Rotation.{IsDatable};
ghost use Rattle.appender_names.specs.DateText.{date_text as text_of, two_digits, BeginsMinute, IsReadAt, IsDateText};

use crate::rotation::RotationKind;
use jiff::Timestamp;
use jiff::civil::DateTime;
use jiff::tz::Offset;
use std::alloc::{AllocError, Global};

// Returns the date and the time of day of a moment.
fn civil(moment: i64) -> DateTime
    requires { IsDatable moment }
    ensures { civil_nanos result ≡ moment *ℤ pos 1_000_000_000 }
{
    Offset::UTC.to_datetime(Timestamp::from_second(moment).unwrap())
}

/// Returns the date text of a moment, to the minute, the hour or the day.
pub(crate) fn date_text(
    alloc: Global,
    kind: RotationKind,
    moment: i64,
) -> Result<String, AllocError>
    requires { IsDatable moment }
    ensures { IfOk result (λ text. string_bytes text ≡ text_of kind moment) }
{
    let civil = civil(moment);
    let date = civil.date();
    let hour = civil.hour();
    let minute = civil.minute();
    match kind {
        RotationKind::Minutely => format!(in alloc; "{date}-{hour:02}-{minute:02}"),
        RotationKind::Hourly => format!(in alloc; "{date}-{hour:02}"),
        RotationKind::Daily | RotationKind::Weekly | RotationKind::Never => {
            format!(in alloc; "{date}")
        }
    }
}

/// Returns the second of a date text. The date must exist in the years 0000 to 9999 of the proleptic Gregorian
/// calendar.
pub(crate) fn read_date(kind: RotationKind, text: &[u8]) -> Option<i64>
    ensures { MatchOption result ((s : ℤ) → ¬ (IsDateText kind text.now s))
        (IsDateText kind text.now) }
{
    match kind {
        RotationKind::Minutely => match text {
            [date @ .., b'-', h1, h0, b'-', m1, m0] => {
                read_second(date, number(*h1, *h0)?, number(*m1, *m0)?)
            }
            _ => None,
        },
        RotationKind::Hourly => match text {
            [date @ .., b'-', h1, h0] => read_second(date, number(*h1, *h0)?, 0),
            _ => None,
        },
        RotationKind::Daily | RotationKind::Weekly | RotationKind::Never => read_second(text, 0, 0),
    }
}

// Returns the first second of the minute, hour or day of a text.
fn read_second(date: &[u8], hour: u8, minute: u8) -> Option<i64>
    requires hour { hour < 100 }
    requires minute { minute < 100 }
    ensures { MatchOption result ((s : ℤ) → ¬ (IsReadAt date.now hour minute s))
        (IsReadAt date.now hour minute) }
{
    let [c1, c0, y1, y0, b'-', m1, m0, b'-', d1, d0] = date else {
        return None;
    };
    let century = number(*c1, *c0)?;
    let year = number(*y1, *y0)?;
    let month = number(*m1, *m0)?;
    let day = number(*d1, *d0)?;
    second_at(century as u16 * 100 + year as u16, month, day, hour, minute)
}

// Returns the first second of a minute, if the calendar has the day and the day has the minute.
fn second_at(year: u16, month: u8, day: u8, hour: u8, minute: u8) -> Option<i64>
    requires year { year < 10_000 }
    requires month { month < 100 }
    requires day { day < 100 }
    requires hour { hour < 100 }
    requires minute { minute < 100 }
    ensures { MatchOption result ((s : ℤ) → ¬ (BeginsMinute year month day hour minute s))
        (BeginsMinute year month day hour minute) }
{
    let begin = DateTime::new(
        year as i16,
        month as i8,
        day as i8,
        hour as i8,
        minute as i8,
        0,
        0,
    );
    Some(begin.ok()?.duration_since(civil(0)).as_secs())
}

// Returns the number of two digits.
pub(crate) fn number(tens: u8, ones: u8) -> Option<u8>
    ensures { MatchOption result ((n : ℕ) → n < 100 → two_digits n ≢ tens ∷ ones ∷ [])
        (λ n. (n < 100) × (two_digits n ≡ tens ∷ ones ∷ [])) }
{
    if !tens.is_ascii_digit() || !ones.is_ascii_digit() {
        return None;
    }
    Some((tens - b'0') * 10 + (ones - b'0'))
}
