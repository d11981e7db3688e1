// Runs with options.
use crate::expect::expect_eq;
use crate::inputs::add_lines;
use crate::logs::{OneLog, Text};
use crate::run::{check, request_of};
use program_io::options::Options;
use rolltee_core::check::{DirCheck, FileCheck};
use rolltee_core::feed::{Asked, Feed, FeedSink};
use std::io::Write;
use std::test::Fail;
use std::time::Clock;
use std::{env, fs, io, process};
use tracing_appender::folder::DirFolder;
use tracing_appender::rolling::{Builder, Rotation};
use tracing_appender::store::{Folder, Notice};

// Returns what follows the time before a line, if that is a time in UTC with microseconds.
fn after_time(line: &[u8]) -> Option<&[u8]> {
    let pattern = b"dddd-dd-ddTdd:dd:dd.ddddddZ ".as_slice();
    let time = line.get(..pattern.len())?;
    for (byte, wanted) in time.iter().zip(pattern) {
        let fits = if *wanted == b'd' {
            byte.is_ascii_digit()
        } else {
            byte == wanted
        };
        if !fits {
            return None;
        }
    }
    line.get(pattern.len()..)
}

// Each line gets a time, also an empty one, and one in pieces gets it once. What the output gets is what the log gets.
#[test]
fn lines_get_times(rt: HostRuntime) -> Result<(), Fail> {
    let mut text = Vec::new(rt.alloc());
    text.extend_from_slice(b"one\n\n")?;
    add_lines(&mut text, 1, 1_500_001)?;
    text.extend_from_slice(b"two")?;
    for line in [
        "never dir app --echo --timestamps",
        "never dir app --echo --timestamps --direct",
    ] {
        let (log, output) = (Text::new(rt)?, Text::new(rt)?);
        let logs = OneLog::new(log.share()?);
        let mut input = text.as_slice();
        check(rt, logs, line, &mut input, output.share()?, (0, ""));
        let echoed = output.copy()?;
        log.expect(echoed.as_slice());
        let mut without = Vec::new(rt.alloc());
        let mut has_fraction = false;
        for line in echoed.as_slice().split(|byte| *byte == b'\n') {
            without.extend_from_slice(after_time(line).expect(&rt, "a time"))?;
            has_fraction = has_fraction || line.get(19..26) != Some(b".000000".as_slice());
            without.push(b'\n')?;
        }
        without.pop();
        assert!(rt; without == text, "each line is after its time");
        assert!(rt; has_fraction, "a time within a second");
    }
    Ok(())
}

// An output that takes this number of writes.
#[derive(Drop)]
struct Closing {
    writes: u32,
}

impl Write for Closing {
    fn write(&mut self, buf: &[u8]) -> io::Result<usize> {
        if self.writes == 0 {
            return Err(io::Error::from(io::ErrorKind::BrokenPipe));
        }
        self.writes -= 1;
        Ok(buf.len())
    }

    fn flush(&mut self) -> io::Result<()> {
        Ok(())
    }
}

// A queue that takes nothing.
#[derive(Drop)]
struct Full;

impl FeedSink for Full {
    ghost use Rattle.std.specs.Prelude.{[]};

    ghost sent = { λ _. [] };

    fn send(&mut self, _text: &[u8]) -> io::Result<()> {
        Err(io::Error::from(io::ErrorKind::OutOfMemory))
    }
}

// Whatever was asked for, of an output whose bytes are not known.
#[derive(Drop)]
struct Anything;

impl Asked for Anything {
    ghost use Rattle.std.specs.Prelude.{[], None};

    ghost asked = { λ _ _ _ _. Unit {0} };

    ghost printed = { None };

    ghost first = { [] };
}

// The log gets all lines, though the output does not. The lines that it doesn't get are counted.
#[test]
fn the_log_continues_without_an_output(rt: HostRuntime) -> Result<(), Fail> {
    for (line, writes, told) in [
        ("never dir app --echo", 1, "@lines not echoed: 2\n"),
        ("never dir app --echo --direct", 0, "@lines not echoed: 3\n"),
    ] {
        let log = Text::new(rt)?;
        let logs = OneLog::new(log.share()?);
        let mut input = b"a\nb\nc".as_slice();
        check(rt, logs, line, &mut input, Closing { writes }, (1, told));
        log.expect(b"a\nb\nc");
    }
    Ok(())
}

// A feed to a full queue. Something was asked for with its options: here this rotation.
fn feed_of<R: Clock + AllocGlobal + Eprint>(
    rt: R,
    rotation: Rotation,
    options: &Options,
    output: Closing,
) -> Feed<R, Full, Closing, Anything> {
    let _ = rotation;
    let feed = Feed::<R, Full, Closing, Anything>::new(rt, Full, options, output);
    feed
}

// A line that is not queued is not echoed.
#[test]
fn a_line_is_queued_before_it_is_echoed(rt: HostRuntime) {
    let (options, _) = request_of(&rt, "--echo");
    let output = Closing { writes: 0 };
    let mut feed = feed_of(rt, Rotation::NEVER, &options, output);
    expect_eq(&rt, feed.write(b"a\n").is_err(), true);
    let (_, _, unechoed) = feed.into_parts();
    expect_eq(&rt, unechoed, 0);
}

// Returns the path of a folder of this test's own, which doesn't exist.
fn fresh(rt: &HostRuntime, name: &str) -> io::Result<String> {
    let parent = env::temp_dir(rt)?;
    let parent = parent.as_str();
    let id = process::id(rt.process());
    let path = format!(in rt.alloc(); "{parent}/rolltee_{id}_{name}")?;
    let _ = fs::remove_dir_all(rt, path.as_str());
    Ok(path)
}

// A file that ends with a newline; the folder where the check reads it, its name, whether another such file gets that, and what is
// seen. What has no name can't be compared, and what isn't in that folder can't be read. One more flush fails each time, which the
// folder notes.
#[test]
fn what_a_check_cannot_see_is_no_whole_file(rt: HostRuntime) -> Result<(), Fail> {
    let directory = fresh(&rt, "seen")?;
    let directory = directory.as_str();
    let mut folder = DirFolder::new(rt, directory)?;
    folder.make_folder()?;
    env::set_current_dir(&rt, directory)?;
    let mut file = folder.open("app")?;
    folder.append(&mut file, b"a\n")?;
    for (path, name, is_replaced, ends_line, is_found, unsynced) in [
        (directory, "app", false, true, true, 1),
        ("", "app", false, true, true, 2),
        ("/nowhere", "app", false, false, true, 3),
        (directory, "a/b", false, false, false, 4),
        (directory, "app", true, false, false, 5),
    ] {
        if is_replaced {
            fs::write(&rt, "other", "b\n")?;
            fs::rename(&rt, "other", "app")?;
        }
        let check = DirCheck::new(rt, &Builder::new(), path, "", &Options::new(rt.alloc()))?;
        expect_eq(&rt, check.ends_line(&folder, &file, name), ends_line);
        expect_eq(&rt, check.finds(&folder, &file, name, 2), is_found);
        folder.note(Notice::Flush(&io::Error::other("refused")));
        expect_eq(&rt, check.unsynced(&folder), unsynced);
    }
    fs::remove_dir_all(&rt, directory)?;
    Ok(())
}
