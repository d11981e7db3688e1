// Which log files go, over listings and over a folder in memory.
use crate::expect::{AllocAndAbort, copy_of, expect_eq, expect_eq_of};
use crate::names::{Naming, names_in, names_of};
use appender_core::names::Names;
use appender_core::retain::{LogFiles, plan, plan_log_files, prune_old_logs};
use appender_core::rotation::Rotation;
use appender_core::store::{Kind, Listed, MemoryFolder, NoticeKind};

// What is listed: the name if it is readable, the kind, and the creation moment if it is known.
type Entry = (Option<&'static str>, Kind, Option<i128>);

// A log, and what is listed.
type Listing = (Naming<'static>, &'static [Entry]);

// Hours of one log, the newest first, among what is no log file of it. `app.b` ranks as the second of 09:00:00.
#[rattlefmt::skip]
const MIXED: Listing = ((Rotation::HOURLY, "app", "", false), &[
    (Some("app.2020-02-01-10"), Kind::File, None),
    (Some("app.2020-02-01-09"), Kind::File, None),
    (Some("app.2020-02-01-08"), Kind::Folder, None),
    (Some("app.2020-02-01-07"), Kind::Link, None),
    (Some("app.2020-02-01-06"), Kind::Other, None),
    (Some("other.2020-02-01-05"), Kind::File, Some(0)),
    (Some("app.notes"), Kind::File, None),
    (Some("app.b"), Kind::File, Some(1_580_547_600_000_000_000)),
    (Some("app.2020-02-01-08-x"), Kind::File, Some(1_580_547_600_000_000_000)),
    (None, Kind::File, Some(0)),
]);

// Hours of one log among names that it doesn't give. By creation the oldest is the newest.
#[rattlefmt::skip]
const NAMED: Listing = ((Rotation::HOURLY, "app", "log", false), &[
    (Some("app.2020-02-01-10.log"), Kind::File, Some(1)),
    (Some("app.2020-02-01-08.log"), Kind::File, Some(3)),
    (Some("app.2020-02-01-09.log"), Kind::File, None),
    (Some("app.2020-02-01-24.log"), Kind::File, Some(0)),
    (Some("app.log"), Kind::File, Some(0)),
    (Some("apple.2020-02-01-08.log"), Kind::File, Some(0)),
    (Some("app.2020-02-01-07.log"), Kind::Folder, Some(0)),
]);

// Prefix and suffix may overlap.
#[rattlefmt::skip]
const OVERLAP: Listing = ((Rotation::DAILY, "ab", "bc", false), &[
    (Some("abc"), Kind::File, None), (Some("abc"), Kind::File, Some(7)),
]);

// Without prefix and suffix only dates go.
#[rattlefmt::skip]
const DATED: Listing = ((Rotation::NEVER, "", "", false), &[
    (Some("2020-02-30"), Kind::File, Some(1)), (Some("2020-02-29"), Kind::File, Some(2)),
    (Some("notes"), Kind::File, Some(0)),
]);

// A listing, how many files are kept, by name the file that is opened next (else nothing), and which entries go, in this
// order. Of `MIXED` four are candidates: those of one key go by their names.
#[rattlefmt::skip]
static PLANS: [(Listing, usize, &str, &[usize]); 17] = [
    (MIXED, 0, "", &[]),
    (MIXED, 5, "", &[]),
    (MIXED, 4, "", &[8]),
    (MIXED, 3, "", &[8, 1]),
    (MIXED, 2, "", &[8, 1, 7]),
    (MIXED, 1, "", &[8, 1, 7, 0]),
    (MIXED, usize::MAX, "", &[]),
    (OVERLAP, 1, "", &[1]),
    (DATED, 1, "", &[1]),
    // By name neither the file that is opened nor a later one goes.
    (NAMED, 0, "app.2020-02-01-11.log", &[]),
    (NAMED, 4, "app.2020-02-01-11.log", &[]),
    (NAMED, 3, "app.2020-02-01-11.log", &[1]),
    (NAMED, 1, "app.2020-02-01-11.log", &[1, 2, 0]),
    (NAMED, 3, "app.2020-02-01-10.log", &[]),
    (NAMED, 1, "app.2020-02-01-10.log", &[1, 2]),
    (NAMED, 1, "app.2020-02-01-09.log", &[1]),
    (NAMED, 1, "app.2020-02-01-08.log", &[]),
];

fn listed(rt: &impl AllocAndAbort, entries: &[Entry]) -> Vec<Listed> {
    let mut listed = Vec::new(rt.alloc());
    for (name, kind, created) in entries {
        let entry = Listed {
            name: name.map(|name| copy_of(rt, name)),
            kind: *kind,
            created: *created,
        };
        listed.push(entry).expect(rt, "memory");
    }
    listed
}

// Which entries go; by name if the file that is opened next is given.
fn gone(
    rt: &impl AllocAndAbort,
    names: &Names,
    max: usize,
    opened: &str,
    listed: &[Listed],
) -> Vec<usize> {
    let gone = if opened.is_empty() {
        plan(rt.alloc(), names, max, listed)
    } else {
        let log = LogFiles::new(names, true, opened);
        plan_log_files(rt.alloc(), &log, max, listed)
    };
    gone.expect(rt, "memory")
}

#[test]
fn the_lowest_candidates_go_in_rank_order(rt: HostRuntime) {
    for ((naming, entries), max, opened, wanted) in &PLANS {
        let names = names_in(&rt, names_of(&rt, *naming));
        let gone = gone(&rt, &names, *max, opened, &listed(&rt, entries));
        expect_eq_of(&rt, (*max, *opened), gone.as_slice(), *wanted);
    }
}

// Two files of a log, and one with a name of none: their texts, and what is held after two log files are kept.
#[rattlefmt::skip]
static PRUNED: [(&str, &str, Option<&[u8]>); 3] = [
    ("app.2020-01-30.log", "x", None), ("app.2020-01-31.log", "y", Some(b"y")), ("app.log", "z", Some(b"z")),
];

#[test]
fn old_logs_are_pruned_by_a_call_of_its_own(rt: HostRuntime) {
    let made = names_of(&rt, (Rotation::DAILY, "app", "log", false));
    let names = names_in(&rt, made);
    let mut folder = MemoryFolder::new(rt.alloc());
    for (name, text, _) in &PRUNED {
        let put = folder.put_file(name, text.as_bytes());
        expect_eq_of(&rt, *name, put, Ok(()));
    }
    prune_old_logs(rt.alloc(), &mut folder, &names, 0);
    let oldest = folder.bytes("app.2020-01-30.log");
    expect_eq(&rt, oldest, Some(b"x".as_slice()));
    prune_old_logs(rt.alloc(), &mut folder, &names, 2);
    for (name, _, held) in &PRUNED {
        expect_eq_of(&rt, *name, folder.bytes(name), *held);
    }
    expect_eq(&rt, folder.notices(NoticeKind::Remove), 0);
}
