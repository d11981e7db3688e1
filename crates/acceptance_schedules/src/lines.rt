// The lines of two threads, and which of them a text has.
use crate::expect::expect_eq;
use std::process::Abort;

/// The lines of a thread. All lines of a test are as long, and end with the same byte.
pub(crate) type Lines = [&'static [u8]; 2];

/// Those of two threads.
pub(crate) static LINES: [Lines; 2] = [[b"a1|", b"a2|"], [b"b1|", b"b2|"]];

/// Returns how many lines of each thread a text has. They are in their order and once, and there is nothing else, or the test
/// ends. Only if the text may have gaps, a later line may be there without an earlier one.
pub(crate) fn count_lines(
    rt: &impl Abort,
    text: &[u8],
    lines: &[Lines; 2],
    has_gaps: bool,
) -> (usize, usize) {
    let [of_a, of_b] = lines;
    let (a, b) = (
        count_of(rt, text, of_a, has_gaps),
        count_of(rt, text, of_b, has_gaps),
    );
    let length = a.saturating_add(b).saturating_mul(of_a[0].len());
    expect_eq(rt, text.len(), length);
    (a, b)
}

fn count_of(rt: &impl Abort, text: &[u8], lines: &Lines, has_gaps: bool) -> usize {
    let (mut count, mut next) = (0usize, 0usize);
    for row in text.chunks(lines[0].len().max(1)) {
        if let Some(place) = lines.iter().position(|line| *line == row) {
            assert!(rt; next <= place, "another order");
            assert!(rt; has_gaps || next == place, "a line is missing");
            next = place.saturating_add(1);
            count = count.saturating_add(1);
        }
    }
    count
}
