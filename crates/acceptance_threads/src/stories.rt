// Stories of the senders of one worker. Each is played by plain senders, by clones of them, and by counted senders.
use crate::stage::Came::{Count, Lines};
use crate::stage::GuardEnd::{Closes, Drops, Stays};
use crate::stage::Queue::{Default, Lossy, Named, Waiting};
use crate::stage::Step::{
    Come, DropsSender, Fills, FlushesCome, HasEnded, IsDropped, IsHeld, IsQueued, IsRefused, Opens,
    Overfills, WriteInThreads, WritesLong,
};
use crate::stage::Story;
use crate::{counted, plain};
use appender_non_blocking::non_blocking::Closing::{Done, Full, Pending};
use appender_non_blocking::non_blocking::Host;
use std::process::Abort;

// Who plays.
#[derive(Clone, Copy)]
enum Senders {
    Plain,
    Clones,
    Counted,
}

fn play<R: Host + Abort>(rt: R, files: HostRuntime, senders: Senders, stories: &[Story]) {
    for story in stories {
        match senders {
            Senders::Plain => plain::play(rt, files, story, false),
            Senders::Clones => plain::play(rt, files, story, true),
            Senders::Counted => counted::play(rt, files, story),
        }
    }
}

fn play_by_all<R: Host + Abort>(rt: R, files: HostRuntime, stories: &[Story]) {
    play(rt, files, Senders::Plain, stories);
    play(rt, files, Senders::Clones, stories);
    play(rt, files, Senders::Counted, stories);
}

// Lines of open queues.
#[rattlefmt::skip]
static LINES: [Story; 12] = [
    Story { title: "dropped lines are those of all senders", queue: Lossy(1), senders: 2,
        steps: &[IsQueued(b"held"), IsHeld, IsQueued(b"a"), IsDropped(b"b"), IsDropped(b"c"), IsDropped(b"d")],
        guard: Stays, later: &[Opens], came: Lines(b"held|a|") },
    Story { title: "all dropped lines are counted", queue: Lossy(1), senders: 1,
        steps: &[IsQueued(b"held"), IsHeld, IsQueued(b"a"), Overfills(1001)],
        guard: Stays, later: &[Opens], came: Lines(b"held|a|") },
    Story { title: "an empty line takes a place and is not written", queue: Lossy(1), senders: 1,
        steps: &[IsQueued(b"held"), IsHeld, IsQueued(b""), IsDropped(b""), IsDropped(b"c")],
        guard: Stays, later: &[Opens], came: Lines(b"held|") },
    Story { title: "a queue of 3 lines", queue: Lossy(3), senders: 3,
        steps: &[IsQueued(b"held"), IsHeld, Fills(3), IsDropped(b"c"), IsDropped(b"d")],
        guard: Stays, later: &[Opens], came: Count(4) },
    Story { title: "a queue of 4 lines", queue: Lossy(4), senders: 1,
        steps: &[IsQueued(b"held"), IsHeld, Fills(4), IsDropped(b"c"), IsDropped(b"d")],
        guard: Stays, later: &[Opens], came: Count(5) },
    Story { title: "a queue of 64 lines", queue: Lossy(64), senders: 1,
        steps: &[IsQueued(b"held"), IsHeld, Fills(64), IsDropped(b"c"), IsDropped(b"d")],
        guard: Stays, later: &[Opens], came: Count(65) },
    Story { title: "a held writer holds no sender", queue: Waiting(4), senders: 1,
        steps: &[IsQueued(b"held"), IsHeld, IsQueued(b"c"), Opens],
        guard: Drops(Done { left: 0 }), later: &[], came: Lines(b"held|c|") },
    Story { title: "a queue of no line keeps the order", queue: Waiting(0), senders: 1,
        steps: &[IsQueued(b"a"), IsQueued(b"b"), IsQueued(b"c")], guard: Stays, later: &[], came: Lines(b"a|b|c|") },
    Story { title: "no sender", queue: Lossy(4), senders: 0,
        steps: &[], guard: Stays, later: &[], came: Lines(b"") },
    // The system keeps the first fifteen bytes of a name.
    Story { title: "the default name", queue: Default, senders: 1,
        steps: &[IsQueued(b"name")], guard: Stays, later: &[], came: Lines(b"tracing-appende|") },
    Story { title: "a given name", queue: Named("auditor"), senders: 1,
        steps: &[IsQueued(b"name")], guard: Stays, later: &[], came: Lines(b"auditor|") },
    Story { title: "a line is whole or given up, at the 101st interruption", queue: Waiting(9), senders: 1,
        steps: &[IsQueued(b"o1"), IsQueued(b""), IsQueued(b"i2"), IsQueued(b"ppa"), IsQueued(b"r"), IsQueued(b"z"),
            IsQueued(b"f"), IsQueued(b"r"), IsQueued(b"c")],
        guard: Stays, later: &[], came: Lines(b"o1|p|p|a|f|c|") },
];

#[test]
fn lines_of_plain_senders(rt: HostRuntime) {
    play(rt, rt, Senders::Plain, &LINES);
}

#[test]
fn lines_of_clones(rt: HostRuntime) {
    play(rt, rt, Senders::Clones, &LINES);
}

#[test]
fn lines_of_counted_senders(rt: HostRuntime) {
    play(rt, rt, Senders::Counted, &LINES);
}

// Guards that end first.
#[rattlefmt::skip]
static ENDS: [Story; 7] = [
    Story { title: "a closed lossy queue drops lines", queue: Lossy(4), senders: 1,
        steps: &[IsQueued(b"a"), IsQueued(b"b")],
        guard: Closes(Done { left: 0 }), later: &[HasEnded, IsDropped(b"late"), IsDropped(b"")], came: Lines(b"a|b|") },
    Story { title: "a closed queue refuses lines", queue: Waiting(4), senders: 1,
        steps: &[IsQueued(b"a"), IsQueued(b"b")],
        guard: Closes(Done { left: 0 }), later: &[HasEnded, IsRefused(b"late"), IsRefused(b"")], came: Lines(b"a|b|") },
    Story { title: "lines of a lossy queue after the shutdown are left", queue: Lossy(4), senders: 1,
        steps: &[IsQueued(b"held"), IsHeld, IsQueued(b"a")], guard: Closes(Pending),
        later: &[IsQueued(b"b"), IsQueued(b"c"), Opens, HasEnded, IsDropped(b"late")], came: Lines(b"held|a|") },
    Story { title: "lines after the shutdown are left", queue: Waiting(4), senders: 1,
        steps: &[IsQueued(b"held"), IsHeld, IsQueued(b"a")], guard: Closes(Pending),
        later: &[IsQueued(b"b"), Opens, HasEnded, IsRefused(b"late")], came: Lines(b"held|a|") },
    Story { title: "a full lossy queue takes no shutdown", queue: Lossy(1), senders: 2,
        steps: &[IsQueued(b"held"), IsHeld, IsQueued(b"a")],
        guard: Closes(Full), later: &[Opens, FlushesCome(1)], came: Lines(b"held|a|") },
    Story { title: "a full queue takes no shutdown", queue: Waiting(1), senders: 2,
        steps: &[IsQueued(b"held"), IsHeld, IsQueued(b"a")],
        guard: Closes(Full), later: &[Opens, FlushesCome(1)], came: Lines(b"held|a|") },
    Story { title: "a dropped sender leaves the others", queue: Waiting(3), senders: 3,
        steps: &[IsQueued(b"held"), IsHeld, Fills(3)], guard: Drops(Full),
        later: &[DropsSender, DropsSender, Opens, FlushesCome(1), Fills(100)], came: Count(104) },
];

#[test]
fn guards_of_plain_senders_end_first(rt: HostRuntime) {
    play(rt, rt, Senders::Plain, &ENDS);
}

#[test]
fn guards_of_clones_end_first(rt: HostRuntime) {
    play(rt, rt, Senders::Clones, &ENDS);
}

#[test]
fn guards_of_counted_senders_end_first(rt: HostRuntime) {
    play(rt, rt, Senders::Counted, &ENDS);
}

// A worker takes up to 16 lines in one hold of the lock, one for each 32 places of the queue. So while its writer stands still at
// the first of them there is room for as many lines more.
#[rattlefmt::skip]
static HOLDS: [Story; 7] = [
    Story { title: "63 places, one line in a hold", queue: Lossy(63), senders: 1,
        steps: &[IsQueued(b"held"), IsHeld, IsQueued(b"h2"), Fills(62), IsDropped(b"c"), Opens, IsHeld, Fills(1), IsDropped(b"d")],
        guard: Stays, later: &[Opens], came: Count(65) },
    Story { title: "64 places, two lines in a hold", queue: Lossy(64), senders: 1,
        steps: &[IsQueued(b"held"), IsHeld, IsQueued(b"h2"), Fills(63), IsDropped(b"c"), Opens, IsHeld, Fills(2), IsDropped(b"d")],
        guard: Stays, later: &[Opens], came: Count(67) },
    Story { title: "96 places, three lines in a hold", queue: Lossy(96), senders: 2,
        steps: &[IsQueued(b"held"), IsHeld, IsQueued(b"h2"), Fills(95), IsDropped(b"c"), Opens, IsHeld, Fills(3), IsDropped(b"d")],
        guard: Stays, later: &[Opens], came: Count(100) },
    Story { title: "1024 places, 16 lines in a hold", queue: Lossy(1024), senders: 1,
        steps: &[IsQueued(b"held"), IsHeld, IsQueued(b"h2"), Fills(1023), IsDropped(b"c"), Opens, IsHeld, Fills(16), IsDropped(b"d")],
        guard: Stays, later: &[Opens], came: Count(1041) },
    Story { title: "a hold keeps the order", queue: Waiting(512), senders: 1,
        steps: &[IsQueued(b"held"), IsHeld, IsQueued(b"h2"), IsQueued(b"a"), IsQueued(b""), IsQueued(b"b"), IsQueued(b"r"), IsQueued(b"c")],
        guard: Stays, later: &[Opens, IsHeld, IsQueued(b"d"), Opens], came: Lines(b"held|h2|a|b|c|d|") },
    Story { title: "a shutdown amid a hold", queue: Lossy(512), senders: 1,
        steps: &[IsQueued(b"held"), IsHeld, IsQueued(b"h2"), IsQueued(b"a")], guard: Closes(Pending),
        later: &[IsQueued(b"left"), Opens, IsHeld, IsDropped(b"late"), Opens, HasEnded], came: Lines(b"held|h2|a|") },
    Story { title: "the end of the last sender amid a hold", queue: Waiting(95), senders: 1,
        steps: &[IsQueued(b"held"), IsHeld, IsQueued(b"h2"), Fills(94)], guard: Drops(Full),
        later: &[DropsSender, Opens, IsHeld, Opens, HasEnded], came: Count(96) },
];

#[test]
fn holds_of_several_lines(rt: HostRuntime) {
    play_by_all(rt, rt, &HOLDS);
}

// Buffers of up to 512 bytes are used again: the one before has room, or is too short.
#[rattlefmt::skip]
static LONG: [Story; 1] = [
    Story { title: "long lines are whole", queue: Waiting(4), senders: 1,
        steps: &[WritesLong(513), WritesLong(511), WritesLong(1_048_576), WritesLong(512), WritesLong(5000), WritesLong(1),
            WritesLong(64), WritesLong(64), WritesLong(1), WritesLong(200), WritesLong(513), WritesLong(512), WritesLong(3)],
        guard: Stays, later: &[], came: Count(13) },
];

#[test]
fn long_lines_are_whole(rt: HostRuntime) {
    play_by_all(rt, rt, &LONG);
}

#[rattlefmt::skip]
static PLACES: [Story; 1] = [
    Story { title: "a queue of 128000 lines", queue: Default, senders: 1,
        steps: &[IsQueued(b"held"), IsHeld, Fills(128_000), IsDropped(b"c"), IsDropped(b"d")],
        guard: Stays, later: &[Opens, Come(128_001)], came: Count(128_001) },
];

#[test]
fn a_queue_has_128000_places_by_default(rt: HostRuntime) {
    play(rt, rt, Senders::Plain, &PLACES);
}

// Many senders: none is left asleep while there is room.
#[rattlefmt::skip]
static CROWDS: [Story; 7] = [
    Story { title: "4 senders, no place", queue: Waiting(0), senders: 4,
        steps: &[WriteInThreads(1_600)], guard: Stays, later: &[], came: Count(6_400) },
    Story { title: "16 senders, no place", queue: Waiting(0), senders: 16,
        steps: &[WriteInThreads(400)], guard: Stays, later: &[], came: Count(6_400) },
    Story { title: "4 senders, one place", queue: Waiting(1), senders: 4,
        steps: &[WriteInThreads(1_600)], guard: Stays, later: &[], came: Count(6_400) },
    Story { title: "16 senders, one place", queue: Waiting(1), senders: 16,
        steps: &[WriteInThreads(400)], guard: Stays, later: &[], came: Count(6_400) },
    Story { title: "8 senders, four places", queue: Waiting(4), senders: 8,
        steps: &[WriteInThreads(800)], guard: Stays, later: &[], came: Count(6_400) },
    Story { title: "8 senders, 64 places", queue: Waiting(64), senders: 8,
        steps: &[WriteInThreads(800)], guard: Stays, later: &[], came: Count(6_400) },
    // Clones that threads make and drop at the same time count as one sender, until the last of them is dropped.
    Story { title: "8 senders, no shutdown", queue: Waiting(1), senders: 8,
        steps: &[IsQueued(b"held"), IsHeld, IsQueued(b"a")],
        guard: Closes(Full), later: &[Opens, WriteInThreads(100)], came: Count(802) },
];

#[test]
fn crowds_of_plain_senders_get_through(rt: HostRuntime) {
    play(rt, rt, Senders::Plain, &CROWDS);
}

#[test]
fn crowds_of_clones_get_through(rt: HostRuntime) {
    play(rt, rt, Senders::Clones, &CROWDS);
}

#[test]
fn crowds_of_counted_senders_get_through(rt: HostRuntime) {
    play(rt, rt, Senders::Counted, &CROWDS);
}
