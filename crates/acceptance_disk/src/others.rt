// What other processes do to the folder of a log, and what a log file's owner may do with it.

use crate::disk::{Call, Event, Kind};
use crate::runs::DiskStep::{Dir, Fail, File, HideBytes, Link, Put};
use crate::runs::{
    DiskStep, ELEVEN, LINKED, LOG, NOTHING, PLAIN, Row, START, Settings, check_runs,
};

const BY_NAME: Settings = Settings {
    by_name: true,
    ..LINKED
};

const LATEST: &str = "latest.log";

// The name under which a link is made before it replaces the old one.
const SPARE: &str = ".latest.log.new";

const NEXT: &str = "app.2020-02-01-11";

const OTHER: &[DiskStep] = &[File("other.txt", "kept")];

const TWO_LINES: &[DiskStep] = &[Put(START, "one"), Put(ELEVEN, "two")];

const OPENED: &str = "open\nnone ok 3\nopened ok 3\n";

const FAILED: &str = "open\nnone ok 3\nfailed ok 3\n";

const TWO_FILES: &str = "app.2020-02-01-10 one\napp.2020-02-01-11 two\n";

const LINK_REFUSED: &str = "failed to create symlink to latest log file: entity already exists\n";

const IN_USE: &str =
    "Couldn't create writer for logs: failed to create symlink to latest log file: \
    the name for the new link is in use\nfailures 2\n";

const NOT_PLAIN: &str = "failed to create log file: not a plain file\n";

// There is no link to remove at first, which is a failure by itself.
#[rattlefmt::skip]
const REPLACED: (&str, &str, &str) =
    (OPENED, "app.2020-02-01-10 one\napp.2020-02-01-11 two\nlatest.log -> app.2020-02-01-11\n", "failures 1\n");

// The calls of an opening with a link are 1 to 4, and the first line's is 5. At the boundary two calls open the file
// (6, 7), and one looks for a link (8). Then that is made by one call if nothing has the name (9), else by a look (10), a
// link under the spare name (11), and the renaming (12).
#[rattlefmt::skip]
static LINKS: [Row<'static>; 14] = [
    (LINKED, &[], NOTHING, TWO_LINES, REPLACED),
    // Another process made the link, to the same file or to another one.
    (LINKED, &[], (Event::Comes(LATEST, Kind::Link, NEXT), &[10]), TWO_LINES, REPLACED),
    (LINKED, &[], (Event::Comes(LATEST, Kind::Link, "other"), &[10]), TWO_LINES, REPLACED),
    // It removes it.
    (LINKED, &[], (Event::Goes(LATEST), &[9, 10, 11, 12]), TWO_LINES, REPLACED),
    // It makes the link under the spare name, or removes that one, or was killed before it renamed it.
    (LINKED, &[], (Event::Comes(SPARE, Kind::Link, NEXT), &[8, 9, 10, 11, 12]), TWO_LINES, REPLACED),
    (LINKED, &[], (Event::Goes(SPARE), &[12]), TWO_LINES, REPLACED),
    (LINKED, &[Link(SPARE, "app.2020-02-01-05")], NOTHING, TWO_LINES, REPLACED),
    (LINKED, &[Link(SPARE, "app.2020-02-01-05")], (Event::Goes(SPARE), &[11, 12, 13]), TWO_LINES, REPLACED),
    // A file or a folder has the spare name.
    (LINKED, &[File(SPARE, "kept")], NOTHING, TWO_LINES, (FAILED,
        ".latest.log.new kept\napp.2020-02-01-10 onetwo\napp.2020-02-01-11 \nlatest.log -> app.2020-02-01-10\n", IN_USE)),
    (LINKED, &[Dir(SPARE)], NOTHING, TWO_LINES, (FAILED,
        ".latest.log.new/\napp.2020-02-01-10 onetwo\napp.2020-02-01-11 \nlatest.log -> app.2020-02-01-10\n", IN_USE)),
    // A log by name whose link is refused removes the file that it made, and none that was there or came just before.
    (BY_NAME, &[File(LATEST, "q")], NOTHING, &[], (LINK_REFUSED, "latest.log q\n", "failures 2\n")),
    (BY_NAME, &[File(LATEST, "q"), File(LOG, "")], NOTHING, &[],
        (LINK_REFUSED, "app.2020-02-01-10 \nlatest.log q\n", "failures 2\n")),
    (BY_NAME, &[File(LATEST, "q")], (Event::Comes(LOG, Kind::File, ""), &[2]), &[],
        (LINK_REFUSED, "app.2020-02-01-10 \nlatest.log q\n", "failures 2\n")),
    (BY_NAME, &[File(NEXT, "")], NOTHING, &[Put(START, "one"), Fail(Some(Call::Symlink)), Put(ELEVEN, "two")], (FAILED,
        "app.2020-02-01-10 onetwo\napp.2020-02-01-11 \nlatest.log -> app.2020-02-01-10\n",
        "Couldn't create writer for logs: failed to create symlink to latest log file: permission denied\nfailures 2\n")),
];

// The opening of a free name looks (1) and makes the file (2). That of a file looks (1), opens it (2), and looks at
// both (3, 4).
#[rattlefmt::skip]
static FILES: [Row<'static>; 9] = [
    // A link that is made meanwhile is not followed: before the look, and before the opening.
    (PLAIN, OTHER, (Event::Comes(LOG, Kind::Link, "other.txt"), &[1, 2]), TWO_LINES,
        (NOT_PLAIN, "app.2020-02-01-10 -> other.txt\nother.txt kept\n", "failures 2\n")),
    (PLAIN, &[File("other.txt", "kept"), File(LOG, "x")], (Event::Comes(LOG, Kind::Link, "other.txt"), &[2, 4]),
        TWO_LINES, (NOT_PLAIN, "app.2020-02-01-10 -> other.txt\nother.txt kept\n", "failures 2\n")),
    // At a boundary the line is then written to the last file.
    (PLAIN, OTHER, (Event::Comes(NEXT, Kind::Link, "other.txt"), &[5]), TWO_LINES,
        (FAILED, "app.2020-02-01-10 onetwo\napp.2020-02-01-11 -> other.txt\nother.txt kept\n",
        "Couldn't create writer for logs: failed to create log file: not a plain file\nfailures 2\n")),
    // Once the file is open its name means nothing.
    (PLAIN, OTHER, (Event::Comes(LOG, Kind::Link, "other.txt"), &[3]), TWO_LINES,
        (OPENED, "app.2020-02-01-10 -> other.txt\napp.2020-02-01-11 two\nother.txt kept\n", "failures 0\n")),
    // A pipe is refused, and not waited for.
    (PLAIN, &[File(LOG, "x")], (Event::Comes(LOG, Kind::Pipe, ""), &[2]), TWO_LINES,
        (NOT_PLAIN, "app.2020-02-01-10|\n", "failures 2\n")),
    (PLAIN, &[], (Event::Comes(LOG, Kind::Pipe, ""), &[2]), TWO_LINES,
        (NOT_PLAIN, "app.2020-02-01-10|\n", "failures 2\n")),
    // A file that another process makes first is appended to.
    (PLAIN, &[], (Event::Comes(LOG, Kind::File, "x"), &[2]), TWO_LINES,
        (OPENED, "app.2020-02-01-10 xone\napp.2020-02-01-11 two\n", "failures 0\n")),
    // A file that is removed meanwhile is made anew.
    (PLAIN, &[File(LOG, "x")], (Event::Goes(LOG), &[2, 3, 4]), TWO_LINES, (OPENED, TWO_FILES, "failures 1\n")),
    // A log that may not be read is written.
    (PLAIN, &[File(LOG, "x"), HideBytes], NOTHING, TWO_LINES,
        (OPENED, "app.2020-02-01-10 xone\napp.2020-02-01-11 two\n", "failures 0\n")),
];

#[test]
fn other_processes_may_use_the_folder(rt: HostRuntime) {
    check_runs(&rt, &LINKS);
    check_runs(&rt, &FILES);
}
