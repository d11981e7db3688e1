// The times of records.
ghost use Rattle.std.specs.Prelude.{◌≡◌, ◌<◌, ◌≤◌, drop, length, IfOk};
ghost use Rattle.appender_log.specs.Time.{second, time_text};
ghost use Rattle.appender_names.specs.Rotation.{is_moment};
ghost use Rattle.appender_log.specs.Written.{line_at, room};

use arrayvec::ArrayString;
use jiff_core::Timestamp;
use jiff_fmt::temporal::DateTimePrinter;
use std::alloc::{AllocError, Global};

// The bytes of the longest time and of the space after it.
const ROOM: usize = 28;

/// Returns a line after room for a time, so that the two are one write.
pub(super) fn after_room(alloc: Global, line: &[u8]) -> Result<Vec<u8>, AllocError>
    ensures room { IfOk result (λ all. room ≤ length all.items) }
    ensures line { IfOk result (λ all. drop room all.items ≡ line.now) }
{
    let mut all = Vec::with_capacity(alloc, line.len().saturating_add(ROOM))?;
    all.extend_from_slice(&[b' '; ROOM])?;
    all.extend_from_slice(line)?;
    Ok(all)
}

/// Writes a time and a space into the room before a line. Returns where the time begins.
pub(super) fn put_time(line: &mut [u8], nanos: i128) -> usize
    requires { room ≤ length line.old }
    ensures start { result ≤ length line.new }
    ensures line { drop result line.new ≡ line_at nanos (drop room line.old) }
{
    let mut text = time_text(nanos);
    text.push_str(" ");
    let start = ROOM - text.len();
    line[start..ROOM].copy_from_slice(text.as_str().as_bytes());
    start
}

/// Returns the text of a time in nanoseconds since the epoch, or `-` if it is outside the years 1 to 9998.
pub(super) fn time_text(nanos: i128) -> ArrayString<33>
    ensures text { result.bytes ≡ time_text nanos }
    ensures fits { length result.bytes < room }
{
    if !is_in_range(nanos) {
        let mut unknown = ArrayString::new();
        unknown.push_str("-");
        return unknown;
    }
    let time = Timestamp::from_nanosecond(nanos).unwrap();
    DateTimePrinter::new()
        .precision(Some(6))
        .timestamp_text(time)
}

// Whether a time is of the years 1 to 9998.
fn is_in_range(nanos: i128) -> bool
    ensures { result ≡ is_moment (second nanos) }
{
    -62_135_596_800_000_000_000 <= nanos && nanos < 253_370_764_800_000_000_000
}
