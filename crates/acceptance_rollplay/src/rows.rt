//! Scripts with their expected pages, worked out by hand, for the tests of more than one crate.
/// Scripts, each with its expected page, in one text. A bar ends each script and each page.
#[derive(Clone, Copy)]
pub struct Table {
    /// The number of scripts, by which a test finds that one was not read.
    pub rows: usize,
    /// The scripts and the pages.
    pub text: &'static str,
}

/// Returns the first script of a table's text, its expected page, and the text after both.
pub fn first_row(text: &str) -> Option<(&str, &str, &str)> {
    let (script, behind) = text.split_once('|')?;
    let (told, behind) = behind.split_once('|')?;
    Some((script, told, behind))
}

/// Scripts without a queue whose log is opened, and their pages.
pub static PLAYED: Table = Table {
    rows: 120,
    text: concat!(
        // Arrivals an hour apart; a clock that is set back keeps the file.
        "rotation hourly\nprefix app\nstart 1580551260\nput 1580554800 a\nput 1580554799 b\n|",
        "open app.2020-02-01-10\nopened ok 1\nnone ok 1\nfile app.2020-02-01-10 0\nfile app.2020-02-01-11 2 ab\n|",
        // A file that exists is appended to.
        "rotation hourly\nprefix app\nfile app.2020-02-01-10 x\nstart 1580551260\nput 1580551261 y\n|",
        "open app.2020-02-01-10\nnone ok 1\nfile app.2020-02-01-10 2 xy\n|",
        // Without a rotation it is `never`: the file's name keeps the day of the opening.
        "start 1580551260\nput 1580724060 x|",
        "open 2020-02-01\nnone ok 1\nfile 2020-02-01 1 x\n|",
        // The names of all rotations.
        "rotation weekly\nprefix my_prefix\nsuffix log\nstart 1739786460\n|",
        "open my_prefix.2025-02-16.log\nfile my_prefix.2025-02-16.log 0\n|",
        "rotation daily\nprefix my_prefix\nsuffix log\nstart 1739786460\n|",
        "open my_prefix.2025-02-17.log\nfile my_prefix.2025-02-17.log 0\n|",
        "rotation hourly\nprefix my_prefix\nsuffix log\nstart 1739786460\n|",
        "open my_prefix.2025-02-17-10.log\nfile my_prefix.2025-02-17-10.log 0\n|",
        "rotation minutely\nprefix my_prefix\nsuffix log\nstart 1739786460\n|",
        "open my_prefix.2025-02-17-10-01.log\nfile my_prefix.2025-02-17-10-01.log 0\n|",
        "rotation never\nprefix my_prefix\nsuffix log\nstart 1739786460\n|",
        "open my_prefix.log\nfile my_prefix.log 0\n|",
        // The reply to each step.
        "rotation hourly\nprefix app\nstart 1580551260\nsee 1580551261\nwrite ab\nwrite\nput 1580551262\nflush\nsee 1580554800\n|",
        "open app.2020-02-01-10\nnone\nok 2\nok 0\nnone ok 0\nok\nopened\nfile app.2020-02-01-10 2 ab\nfile app.2020-02-01-11 0\n|",
        // A switch that fails keeps the file, and isn't tried again in the same hour.
        "rotation hourly\nprefix app\nfolder app.2020-02-01-11\nstart 1580551260\nput 1580554800 a\nsee 1580554801\nsee 1580558400\n|",
        "open app.2020-02-01-10\nfailed ok 1\nnone\nopened\nfile app.2020-02-01-10 1 a\nfolder app.2020-02-01-11\nfile app.2020-02-01-12 0\n|",
        // Escapes for a newline and a backslash are printed again.
        "prefix app\nfile notes a\\nb\\\\c\nstart 0\nwrite \\\\n\\n\nput 0 \\n\n|",
        "open app\nok 3\nnone ok 1\nfile app 4 \\\\n\\n\\n\nfile notes 5 a\\nb\\\\c\n|",
        "prefix a\\\\b\nstart 0\n|",
        "open a\\b\nfile a\\b 0\n|",
        // A backslash in a file's name is no escape.
        "prefix app\nfile a\\n x\nfolder b\\\nstart 0\n|",
        "open app\nfile a\\n 1 x\nfile app 0\nfolder b\\\n|",
        // Names in byte order, empty files without a space after the length.
        "prefix app\nfile b\nfile B \nfolder \u{e4}\nfile a 1\nstart 0\n|",
        "open app\nfile B 0\nfile a 1 1\nfile app 0\nfile b 0\nfolder \u{e4}\n|",
        // The last of several lines applies, and an empty text is none.
        "rotation daily\nrotation never\nprefix a\nprefix\nsuffix b\nsuffix log\nstart 0\n|",
        "open log\nfile log 0\n|",
        "prefix \nsuffix log\nstart 0\n|",
        "open log\nfile log 0\n|",
        // Further spaces, tabs, carriage returns and zero bytes belong to the text.
        "prefix app\nstart 0\nput 5  a\nwrite b \nwrite \t\u{e4}\u{20ac}\r\nwrite \0\n|",
        "open app\nnone ok 2\nok 2\nok 7\nok 1\nfile app 12  ab \t\u{e4}\u{20ac}\r\0\n|",
        // The oldest log files are removed: by name, or by creation moment if it is known.
        "rotation hourly\nprefix app\nmax 2\nfile app.2020-02-01-08 x\nfile app.2020-02-01-09 y\nfile app.notes z\nstart 1580551260\n|",
        "open app.2020-02-01-10\nfile app.2020-02-01-09 1 y\nfile app.2020-02-01-10 0\nfile app.notes 1 z\n|",
        "rotation hourly\nprefix app\nmax 2\ncreated 2\nfile app.2020-02-01-08 x\ncreated 3\nfile app.2020-02-01-09 y\ncreated 1\nfile app.notes z\nstart 1580551260\n|",
        "open app.2020-02-01-10\nfile app.2020-02-01-09 1 y\nfile app.2020-02-01-10 0\n|",
        // Creation moments may be unknown again, or before 1970. The files of the run have the last one.
        "rotation hourly\nprefix app\nmax 0002\ncreated 5\nfile app.a x\ncreated none\nfile app.b y\ncreated -170141183460469231731687303715884105728\nfile app.c z\nstart 1580551260\nsee 1580554800\n|",
        "open app.2020-02-01-10\nopened\nfile app.2020-02-01-11 0\nfile app.a 1 x\nfile app.b 1 y\n|",
        // The last maximum applies, and 0 is none.
        "rotation hourly\nprefix app\nmax 1\nmax 0\nfile app.2020-02-01-09 y\nstart 1580551260\n|",
        "open app.2020-02-01-10\nfile app.2020-02-01-09 1 y\nfile app.2020-02-01-10 0\n|",
        // If one file is kept, the open file is removed too.
        "rotation hourly\nprefix app\nmax 1\nfile other x\nfolder app.d\nstart 1580551260\nput 1580551261 a\nput 1580554800 b\n|",
        "open app.2020-02-01-10\nnone ok 1\nopened ok 1\nfile app.2020-02-01-11 1 b\nfolder app.d\nfile other 1 x\n|",
        // With neither prefix nor suffix only dates are log files.
        "rotation daily\nmax 1\nfile 2020-01-31 x\nfile 2020-01-32 y\nfile notes z\nstart 1580551260\n|",
        "open 2020-02-01\nfile 2020-01-32 1 y\nfile 2020-02-01 0\nfile notes 1 z\n|",
        // The link to the newest file replaces a link that was there. Its text may be empty.
        "rotation hourly\nprefix app\nlink latest.log\nlink-at latest.log old\\\nlink-at other x\nstart 1580551260\nput 1580554860 test\\n\n|",
        "open app.2020-02-01-10\nopened ok 5\nfile app.2020-02-01-10 0\nfile app.2020-02-01-11 5 test\\n\nlink latest.log app.2020-02-01-11\nlink other x\n|",
        "prefix app\nlink a\nlink\nlink-at a /b/../c\nstart 0\n|",
        "open app\nlink a /b/../c\nfile app 0\n|",
        // A folder that is absent is made.
        "absent\nrotation hourly\nprefix app\nlink latest\nstart 1580551260\n|",
        "open app.2020-02-01-10\nfile app.2020-02-01-10 0\nlink latest app.2020-02-01-10\n|",
        // Calls that fail: after a restart that keeps one file its name is lost, and its body is still written.
        "rotation hourly\nprefix app\nmax 1\nfile app.2020-02-01-10 x\nfail 6\nfail 8\nstart 1580551260\nput 1580554800 y\n|",
        "open app.2020-02-01-10\nfailed ok 1\n|",
        // A switch whose opening fails twice, and the one after it.
        "rotation hourly\nprefix app\nfail 2\nfail 4\nfail 11\nstart 1580551260\nput 1580554800 a\nput 1580556600 b\nput 1580558399 c\nput 1580558400 d\nflush\n|",
        "open app.2020-02-01-10\nfailed ok 1\nnone ok 1\nnone ok 1\nopened ok 1\nerr\nfile app.2020-02-01-10 3 abc\nfile app.2020-02-01-12 1 d\n|",
        // If the folder can't be made, the opening is not tried a second time.
        "rotation hourly\nprefix app\nfail 2\nfail 3\nfail 6\nstart 1580551260\nput 1580554800 a\nput 1580554801 b\nflush\n|",
        "open app.2020-02-01-10\nfailed ok 1\nnone ok 1\nerr\nfile app.2020-02-01-10 2 ab\n|",
        // The first write to the next file fails: the calls before are its opening and a flush of the last file.
        "rotation hourly\nprefix app\nfail 4\nfail 6\nstart 1580551260\nput 1580554800 a\nput 1580554801 b\nflush\n|",
        "open app.2020-02-01-10\nopened err\nnone ok 1\nerr\nfile app.2020-02-01-10 0\nfile app.2020-02-01-11 1 b\n|",
        // Each write is one call, and each flush is one. What fails is not tried again.
        "rotation hourly\nprefix app\nfail 2\nfail 5\nfail 8\nstart 1580551260\nput 1580551260 a\nput 1580551260 b\nput 1580551260 c\nflush\nput 1580551260 d\nflush\nflush\n|",
        "open app.2020-02-01-10\nnone err\nnone ok 1\nnone ok 1\nerr\nnone ok 1\nok\nerr\nfile app.2020-02-01-10 3 bcd\n|",
        // An append that fails, a flush that fails, and an append that is cut short. The lesser of two counts applies.
        "prefix app\nfail 0002\nfail 3\nshort 4 3\nshort 4 2\nshort 5 0\nfail 6\nshort 6 1\nstart 0\nwrite a\nflush\nwrite hello\nwrite b\nwrite c\n|",
        "open app\nerr\nerr\nok 2\nok 0\nerr\nfile app 2 he\n|",
        // Numbers may begin with zeros, and moments may be before 1970.
        "start -0001\n|",
        "open 1969-12-31\nfile 1969-12-31 0\n|",
        "prefix app\nstart 0000001580551260\nsee 9223372036854775807\nsee -9223372036854775808\n|",
        "open app\nnone\nnone\nfile app 0\n|",
        // A boundary before the epoch, the Sunday that ends a week, and the end of a minute.
        "rotation daily\nstart -1\nput -1 v\nput 0 w\n|",
        "open 1969-12-31\nnone ok 1\nopened ok 1\nfile 1969-12-31 1 v\nfile 1970-01-01 1 w\n|",
        "rotation weekly\nprefix my_prefix\nsuffix log\nstart 1739786460\nput 1740268799 x\nput 1740268800 y\n|",
        "open my_prefix.2025-02-16.log\nnone ok 1\nopened ok 1\nfile my_prefix.2025-02-16.log 1 x\nfile my_prefix.2025-02-23.log 1 y\n|",
        // A week that begins before the first year.
        "rotation weekly\nstart -62135596800\nput -62135078401 x\nput -62135078400 y\n|",
        "open 0000-12-31\nnone ok 1\nopened ok 1\nfile 0000-12-31 1 x\nfile 0001-01-07 1 y\n|",
        "rotation minutely\nsuffix log\nstart 1580551260\nput 1580551319 x\nput 1580551320 y\n|",
        "open 2020-02-01-10-01.log\nnone ok 1\nopened ok 1\nfile 2020-02-01-10-01.log 1 x\nfile 2020-02-01-10-02.log 1 y\n|",
        // Moments outside the years 1 to 9998 are ignored.
        "rotation daily\nstart 253370764799\nput 253370764800 x\n|",
        "open 9998-12-31\nnone ok 1\nfile 9998-12-31 1 x\n|",
        "rotation hourly\nprefix app\nstart 1580551260\nput 253370764800 x\nput -62135596801 y\nput 1580554800 z\nput 9223372036854775807 w\n|",
        "open app.2020-02-01-10\nnone ok 1\nnone ok 1\nopened ok 1\nnone ok 1\nfile app.2020-02-01-10 2 xy\nfile app.2020-02-01-11 2 zw\n|",
        // A write and a flush do not read the clock.
        "rotation hourly\nprefix app\nfile app.2020-02-01-10 held\nstart 1580551260\nsee 1580554799\nwrite one\nflush\nsee 1580554800\n|",
        "open app.2020-02-01-10\nnone\nok 3\nok\nopened\nfile app.2020-02-01-10 7 heldone\nfile app.2020-02-01-11 0\n|",
        // A date is no name of a log under never with a prefix, nor is one without an hour under hourly.
        "prefix app\nlink app.2020-02-01\nstart 1580551260\n|",
        "open app\nfile app 0\nlink app.2020-02-01 app\n|",
        "rotation hourly\nprefix app\nlink app.2020-02-01\nstart 1580551260\n|",
        "open app.2020-02-01-10\nlink app.2020-02-01 app.2020-02-01-10\nfile app.2020-02-01-10 0\n|",
        // A run keeps the newest files.
        "rotation hourly\nprefix test\nmax 2\nstart 1580551260\nput 1580551260 1\\n\nput 1580551261 1\\n\nput 1580554861 2\\n\nput 1580554862 2\\n\nput 1580558462 3\\n\nput 1580558463 3\\n\n|",
        "open test.2020-02-01-10\nnone ok 2\nnone ok 2\nopened ok 2\nnone ok 2\nopened ok 2\nnone ok 2\nfile test.2020-02-01-11 4 2\\n2\\n\nfile test.2020-02-01-12 4 3\\n3\\n\n|",
        // The period's own file is a candidate: it stays as the newest, and one file less is left.
        "rotation hourly\nprefix app\nmax 2\nfile app.2020-02-01-09 p\nfile app.2020-02-01-10 q\nstart 1580551260\n|",
        "open app.2020-02-01-10\nfile app.2020-02-01-10 1 q\n|",
        "rotation hourly\nprefix app\nmax 1\nfile app.2020-02-01-10 x\nstart 1580551260\n|",
        "open app.2020-02-01-10\nfile app.2020-02-01-10 0\n|",
        // By name, a restart keeps its own file, though files that were copied there have later creation moments.
        "rotation daily\nprefix app\nmax 2\nby-name\ncreated 1\nfile app.2020-02-01 kept\ncreated 9\nfile app.2020-01-30 x\nfile app.2020-01-31 y\nstart 1580551260\n|",
        "open app.2020-02-01\nfile app.2020-01-31 1 y\nfile app.2020-02-01 4 kept\n|",
        "rotation hourly\nprefix app\nmax 1\nby-name\nfile app.2020-02-01-10 x\nstart 1580551260\n|",
        "open app.2020-02-01-10\nfile app.2020-02-01-10 1 x\n|",
        // By name, only names that the log itself gives are removed.
        "rotation daily\nprefix app\nsuffix log\nmax 1\nby-name\nfile app-export.log a\nfile app.2020-01-31.log b\nfile app.2020-01-32.log c\nfile app.log d\nfile apple.log e\nstart 1580551260\n|",
        "open app.2020-02-01.log\nfile app-export.log 1 a\nfile app.2020-01-32.log 1 c\nfile app.2020-02-01.log 0\nfile app.log 1 d\nfile apple.log 1 e\n|",
        "rotation weekly\nprefix app\nmax 1\nby-name\nfile app.2020-01-25 x\nfile app.2020-01-19 y\nstart 1580551260\n|",
        "open app.2020-01-26\nfile app.2020-01-25 1 x\nfile app.2020-01-26 0\n|",
        "prefix app\nmax 1\nby-name\nfile app.2020-01-31 x\nfile app.old y\nstart 1580551260\n|",
        "open app\nfile app 0\nfile app.2020-01-31 1 x\nfile app.old 1 y\n|",
        // By name, the oldest is that of the earliest period and the lowest number.
        "rotation daily\nprefix app\nmax 2\nby-name\nbytes 1\nfile app.2020-02-01.000000 x\nfile app.2020-02-01.000009 y\nfile app.2020-01-31.000010 z\nstart 1580551260\nput 1580551260 a\nput 1580551261 b\n|",
        "open app.2020-02-01.000010\nnone ok 1\nopened ok 1\nfile app.2020-02-01.000010 1 a\nfile app.2020-02-01.000011 1 b\n|",
        // By name, files that are later than the open one neither count nor go. Once one of them is opened, the others before it count.
        "rotation hourly\nprefix app\nmax 2\nby-name\nfile app.2020-02-01-09 p\nfile app.2020-02-01-12 q\nstart 1580551260\n|",
        "open app.2020-02-01-10\nfile app.2020-02-01-09 1 p\nfile app.2020-02-01-10 0\nfile app.2020-02-01-12 1 q\n|",
        "rotation daily\nprefix app\nmax 2\nby-name\nfile app.2020-01-30 a\nfile app.2020-01-31 b\nfile app.2030-01-01 x\nfile app.2030-01-02 y\nfile app.2030-01-03 z\nstart 1580551260\n|",
        "open app.2020-02-01\nfile app.2020-01-31 1 b\nfile app.2020-02-01 0\nfile app.2030-01-01 1 x\nfile app.2030-01-02 1 y\nfile app.2030-01-03 1 z\n|",
        "rotation hourly\nprefix app\nmax 2\nby-name\nfile app.2020-02-01-11 p\nfile app.2020-02-01-12 q\nstart 1580551260\nsee 1580558400\n|",
        "open app.2020-02-01-10\nopened\nfile app.2020-02-01-11 1 p\nfile app.2020-02-01-12 1 q\n|",
        // The week in which the year 1 begins has no key, and nothing is before it.
        "rotation weekly\nprefix app\nmax 2\nby-name\nfile app.2020-01-05 a\nfile app.2020-01-12 b\nfile app.2020-01-19 c\nstart -62135424000\n|",
        "open app.0000-12-31\nfile app.0000-12-31 0\nfile app.2020-01-05 1 a\nfile app.2020-01-12 1 b\nfile app.2020-01-19 1 c\n|",
        // An archive of a log file neither counts nor goes. By name its number stays taken, and it is not continued.
        "rotation daily\nprefix app\nmax 1\nby-name\nfile app.2020-01-30 a\nfile app.2020-01-31.gz b\nstart 1580551260\n|",
        "open app.2020-02-01\nfile app.2020-01-31.gz 1 b\nfile app.2020-02-01 0\n|",
        "rotation daily\nprefix app\nby-name\nbytes 4\nfile app.2020-02-01.000004.1 a\nstart 1580551260\n|",
        "open app.2020-02-01.000005\nfile app.2020-02-01.000004.1 1 a\nfile app.2020-02-01.000005 0\n|",
        "rotation daily\nprefix app\nby-name\nbytes 4\ncontinue\nfile app.2020-02-01.000000.gz a\nstart 1580551260\n|",
        "open app.2020-02-01.000001\nfile app.2020-02-01.000000.gz 1 a\nfile app.2020-02-01.000001 0\n|",
        "rotation daily\nprefix app\nby-name\nbytes 4\ncontinue\nfile app.2020-02-01.000003 b\nfile app.2020-02-01.000003.gz a\nstart 1580551260\n|",
        "open app.2020-02-01.000004\nfile app.2020-02-01.000003 1 b\nfile app.2020-02-01.000003.gz 1 a\nfile app.2020-02-01.000004 0\n|",
        "rotation daily\nprefix app\nbytes 4\nfile app.2020-02-01.000003.gz a\nstart 1580551260\n|",
        "open app.2020-02-01.000000\nfile app.2020-02-01.000000 0\nfile app.2020-02-01.000003.gz 1 a\n|",
        // An archive's name is a log's, and then a dot and 1 to 8 letters or digits. That of another log is none.
        "rotation daily\nprefix app\nsuffix log\nby-name\nbytes 4\nfile app.2020-02-01.000001. a\nfile app.2020-02-01.000002.log.gz.tmp b\nfile app.2020-02-01.000003.log.ninebytes c\nfile app.2020-02-01.000004.log.g-z d\nfile app.2020-02-01.000005.gz e\nfile app.2020-02-01.000006.loggz f\nfile app.2020-02-02.000007.log.gz g\nstart 1580551260\n|",
        "open app.2020-02-01.000000.log\nfile app.2020-02-01.000000.log 0\nfile app.2020-02-01.000001. 1 a\nfile app.2020-02-01.000002.log.gz.tmp 1 b\nfile app.2020-02-01.000003.log.ninebytes 1 c\nfile app.2020-02-01.000004.log.g-z 1 d\nfile app.2020-02-01.000005.gz 1 e\nfile app.2020-02-01.000006.loggz 1 f\nfile app.2020-02-02.000007.log.gz 1 g\n|",
        // By name old files are removed last: an opening that fails removes none, and the next one removes them.
        "rotation hourly\nprefix app\nmax 1\nby-name\nfile app.2020-02-01-08 o\nfail 4\nfail 6\nstart 1580551260\nput 1580554800 a\n|",
        "open app.2020-02-01-10\nfailed ok 1\nfile app.2020-02-01-10 1 a\n|",
        "rotation hourly\nprefix app\nmax 1\nby-name\nfile app.2020-02-01-08 o\nfail 4\nfail 6\nstart 1580551260\nput 1580554800 a\nput 1580558400 b\n|",
        "open app.2020-02-01-10\nfailed ok 1\nopened ok 1\nfile app.2020-02-01-12 1 b\n|",
        // An opening goes on in the last file: what that holds counts. A full one is opened, and the first write begins the next.
        "rotation daily\nprefix app\nbytes 4\ncontinue\nfile app.2020-02-01.000000 ab\nstart 1580551260\nput 1580551260 cd\nput 1580551261 e\n|",
        "open app.2020-02-01.000000\nnone ok 2\nopened ok 1\nfile app.2020-02-01.000000 4 abcd\nfile app.2020-02-01.000001 1 e\n|",
        "rotation daily\nprefix app\nbytes 4\ncontinue\nfile app.2020-02-01.000001 full\nstart 1580551260\nput 1580551260 x\n|",
        "open app.2020-02-01.000001\nopened ok 1\nfile app.2020-02-01.000001 4 full\nfile app.2020-02-01.000002 1 x\n|",
        // A link with the greatest number is passed over. Without a limit nothing changes.
        "rotation daily\nprefix app\nbytes 4\ncontinue\nfile app.2020-02-01.000000 ab\nlink-at app.2020-02-01.000003 t\nstart 1580551260\n|",
        "open app.2020-02-01.000004\nfile app.2020-02-01.000000 2 ab\nlink app.2020-02-01.000003 t\nfile app.2020-02-01.000004 0\n|",
        "rotation daily\nprefix app\ncontinue\nfile app.2020-02-01 ab\nstart 1580551260\nput 1580551260 cd\n|",
        "open app.2020-02-01\nnone ok 2\nfile app.2020-02-01 4 abcd\n|",
        // A listing that fails, and one of three removals.
        "rotation hourly\nprefix app\nmax 1\nfile app.2020-02-01-07\nfile app.2020-02-01-08\nfail 1\nfail 4\nstart 1580551260\nsee 1580554800\n|",
        "open app.2020-02-01-10\nopened\nfile app.2020-02-01-07 0\nfile app.2020-02-01-11 0\n|",
        // Between boundaries nothing is listed: calls 3 to 5 are the appends.
        "rotation hourly\nprefix app\nmax 2\nfail 3\nfail 5\nstart 1580551260\nput 1580551260 a\nput 1580551261 b\nput 1580551262 c\n|",
        "open app.2020-02-01-10\nnone err\nnone ok 1\nnone err\nfile app.2020-02-01-10 1 b\n|",
        // A fault of the replaced file is no fault of the switch.
        "rotation hourly\nprefix app\nfail 3\nfail 5\nstart 1580551260\nput 1580554800 a\nflush\n|",
        "open app.2020-02-01-10\nopened ok 1\nerr\nfile app.2020-02-01-10 0\nfile app.2020-02-01-11 1 a\n|",
        // With a limit of bytes a full file is followed by the next number, and a later period begins at 0 again.
        "rotation hourly\nprefix app\nbytes 4\nstart 1580551260\nput 1580551260 abc\nput 1580551260 d\nput 1580551260 e\nput 1580551260 longer\nput 1580551260 x\nput 1580554800 y\n|",
        "open app.2020-02-01-10.000000\nnone ok 3\nnone ok 1\nopened ok 1\nopened ok 6\nopened ok 1\nopened ok 1\nfile app.2020-02-01-10.000000 4 abcd\nfile app.2020-02-01-10.000001 1 e\nfile app.2020-02-01-10.000002 6 longer\nfile app.2020-02-01-10.000003 1 x\nfile app.2020-02-01-11.000000 1 y\n|",
        // A limit of 2^32 + 1 bytes.
        "rotation hourly\nprefix app\nbytes 4294967297\nstart 1580551260\nput 1580551260 ab\nput 1580551260 c\n|",
        "open app.2020-02-01-10.000000\nnone ok 2\nnone ok 1\nfile app.2020-02-01-10.000000 3 abc\n|",
        // A full file whose next one can't be opened takes the limit once more.
        "rotation hourly\nprefix app\nbytes 4\nfail 4\nfail 6\nstart 1580551260\nput 1580551260 abcd\nput 1580551260 e\nput 1580551260 fgh\nput 1580551260 i\n|",
        "open app.2020-02-01-10.000000\nnone ok 4\nfailed ok 1\nnone ok 3\nopened ok 1\nfile app.2020-02-01-10.000000 8 abcdefgh\nfile app.2020-02-01-10.000002 1 i\n|",
        // The same, with a call after it to fail: the number that failed is left out, and a new hour begins at 0.
        "rotation hourly\nprefix app\nbytes 2\nfail 5\nfail 7\nfail 16\nstart 1580551260\nput 1580551260 a\nput 1580551260 b\nput 1580551260 c\nput 1580551260 d\nput 1580551260 e\nput 1580554800 f\nflush\n|",
        "open app.2020-02-01-10.000000\nnone ok 1\nnone ok 1\nfailed ok 1\nnone ok 1\nopened ok 1\nopened ok 1\nerr\nfile app.2020-02-01-10.000000 4 abcd\nfile app.2020-02-01-10.000002 1 e\nfile app.2020-02-01-11.000000 1 f\n|",
        // A write that fails counts no bytes, and one that is short counts what it took.
        "rotation hourly\nprefix app\nbytes 2\nfail 3\nfail 9\nstart 1580551260\nput 1580551260 a\nput 1580551260 b\nput 1580551260 c\nput 1580551260 d\nflush\n|",
        "open app.2020-02-01-10.000000\nnone err\nnone ok 1\nnone ok 1\nopened ok 1\nerr\nfile app.2020-02-01-10.000000 2 bc\nfile app.2020-02-01-10.000001 1 d\n|",
        "rotation hourly\nprefix app\nbytes 4\nshort 3 1\nfail 8\nstart 1580551260\nput 1580551260 abcd\nput 1580551260 xyz\nput 1580551260 q\nflush\n|",
        "open app.2020-02-01-10.000000\nnone ok 1\nnone ok 3\nopened ok 1\nerr\nfile app.2020-02-01-10.000000 4 axyz\nfile app.2020-02-01-10.000001 1 q\n|",
        // A piece that is longer than the limit is in the file that was opened for it. The limit moves no boundary.
        "rotation hourly\nprefix app\nbytes 2\nfail 7\nstart 1580551260\nput 1580551260 abc\nput 1580551260 d\nflush\n|",
        "open app.2020-02-01-10.000000\nnone ok 3\nopened ok 1\nerr\nfile app.2020-02-01-10.000000 3 abc\nfile app.2020-02-01-10.000001 1 d\n|",
        "rotation hourly\nprefix app\nbytes 2\nfail 11\nstart 1580551260\nput 1580551260 ab\nput 0 c\nput 1580554799 d\nput 1580554800 e\nflush\n|",
        "open app.2020-02-01-10.000000\nnone ok 2\nopened ok 1\nnone ok 1\nopened ok 1\nerr\nfile app.2020-02-01-10.000000 2 ab\nfile app.2020-02-01-10.000001 2 cd\nfile app.2020-02-01-11.000000 1 e\n|",
        // A full file is left at moments out of range too, and once.
        "rotation hourly\nprefix app\nbytes 3\nstart 1580551260\nwrite ab\nsee 0\nwrite c\nsee 9223372036854775807\nput 0 def\nsee -9223372036854775808\nsee 1580551260\nput 0 ghi\nsee 1580554800\n|",
        "open app.2020-02-01-10.000000\nok 2\nnone\nok 1\nopened\nnone ok 3\nopened\nnone\nnone ok 3\nopened\nfile app.2020-02-01-10.000000 3 abc\nfile app.2020-02-01-10.000001 3 def\nfile app.2020-02-01-10.000002 3 ghi\nfile app.2020-02-01-11.000000 0\n|",
        // A start continues after the greatest number of its period, up to the last number, whose file takes all.
        "rotation hourly\nprefix app\nbytes 4\nfile app.2020-02-01-10.000007 q\nstart 1580551260\n|",
        "open app.2020-02-01-10.000008\nfile app.2020-02-01-10.000007 1 q\nfile app.2020-02-01-10.000008 0\n|",
        "rotation hourly\nprefix app\nbytes 4\nfile app.2020-02-01-10.999999 k\nstart 1580551260\nput 1580551260 aaaa\nput 1580551260 b\n|",
        "open app.2020-02-01-10.999999\nnone ok 4\nnone ok 1\nfile app.2020-02-01-10.999999 6 kaaaab\n|",
        // Entries of every kind count for the number. Names of other periods, or without a number, don't.
        "rotation hourly\nprefix app\nbytes 4\nfile app.2020-02-01-09.000009 x\nfile app.2020-02-01-10 y\nfolder app.2020-02-01-10.000004\nlink-at app.2020-02-01-10.000005 t\nfile app.2020-02-01-10.00006 z\nstart 1580551260\n|",
        "open app.2020-02-01-10.000006\nfile app.2020-02-01-09.000009 1 x\nfile app.2020-02-01-10 1 y\nfolder app.2020-02-01-10.000004\nlink app.2020-02-01-10.000005 t\nfile app.2020-02-01-10.000006 0\nfile app.2020-02-01-10.00006 1 z\n|",
        // A week's number counts for each of its days, also if the week begins before the first moment.
        "rotation weekly\nsuffix log\nbytes 2\nlink latest\nfile 0000-12-31.000003.log x\nfile 0001-01-03.000006.log w\nstart -62135596800\nput -62135596800 ab\nput -62135596800 cd\n|",
        "open 0000-12-31.000007.log\nnone ok 2\nopened ok 2\nfile 0000-12-31.000003.log 1 x\nfile 0000-12-31.000007.log 2 ab\nfile 0000-12-31.000008.log 2 cd\nfile 0001-01-03.000006.log 1 w\nlink latest 0000-12-31.000008.log\n|",
        // A folder that can't be listed begins at 0.
        "rotation hourly\nprefix app\nbytes 4\nfile app.2020-02-01-10.000003 x\nfail 1\nstart 1580551260\n|",
        "open app.2020-02-01-10.000000\nfile app.2020-02-01-10.000000 0\nfile app.2020-02-01-10.000003 1 x\n|",
        // An arrival appends to a number 0 that exists, and its earlier bytes don't count.
        // A full file is left at any moment. A write counts, and does not switch.
        "rotation hourly\nprefix app\nbytes 4\nfile app.2020-02-01-11.000000 zzzz\nstart 1580551260\nput 1580554800 abcd\nsee 1580554800\nput 1580551260 e\nput 9223372036854775807 fghi\nwrite klmn\nwrite o\nsee 1580554801\n|",
        "open app.2020-02-01-10.000000\nopened ok 4\nopened\nnone ok 1\nopened ok 4\nok 4\nok 1\nopened\nfile app.2020-02-01-10.000000 0\nfile app.2020-02-01-11.000000 8 zzzzabcd\nfile app.2020-02-01-11.000001 1 e\nfile app.2020-02-01-11.000002 9 fghiklmno\nfile app.2020-02-01-11.000003 0\n|",
        // Of one period the lowest numbers are removed first.
        "rotation hourly\nprefix app\nbytes 1\nmax 2\nstart 1580551260\nput 1580551260 a\nput 1580551260 b\nput 1580551260 c\n|",
        "open app.2020-02-01-10.000000\nnone ok 1\nopened ok 1\nopened ok 1\nfile app.2020-02-01-10.000001 1 b\nfile app.2020-02-01-10.000002 1 c\n|",
        // A limit of 0 is none, also under never. The greatest limit is never reached, and an empty put adds nothing.
        "prefix app\nbytes 0\nstart 0\nput 0 a\n|",
        "open app\nnone ok 1\nfile app 1 a\n|",
        "rotation daily\nbytes 18446744073709551615\nstart 0\nput 0\nput 0 ab\n|",
        "open 1970-01-01.000000\nnone ok 0\nnone ok 2\nfile 1970-01-01.000000 2 ab\n|",
        // Moments out of range belong to the file that is open, also when the last one of an i64 is read.
        "rotation hourly\nprefix app\nstart 1580551260\nput 253370764800 x\nput -62135596801 y\nput 1580554800 z\nput 9223372036854775807 w\n|",
        "open app.2020-02-01-10\nnone ok 1\nnone ok 1\nopened ok 1\nnone ok 1\nfile app.2020-02-01-10 2 xy\nfile app.2020-02-01-11 2 zw\n|",
        // An opening goes on in the last file. Nothing to go on in; one byte that fits, and one that doesn't; two that
        // don't; a full file, and one that is too long.
        "rotation hourly\nprefix app\nby-name\nbytes 4\ncontinue\nstart 1580551260\nput 1580551260 abc\nput 1580551260 de\n|",
        "open app.2020-02-01-10.000000\nnone ok 3\nopened ok 2\nfile app.2020-02-01-10.000000 3 abc\nfile app.2020-02-01-10.000001 2 de\n|",
        "rotation hourly\nprefix app\nby-name\nbytes 4\ncontinue\nfile app.2020-02-01-10.000002 x\nfile app.2020-02-01-10.000003 abc\nstart 1580551260\nput 1580551260 d\nput 1580551260 e\n|",
        "open app.2020-02-01-10.000003\nnone ok 1\nopened ok 1\nfile app.2020-02-01-10.000002 1 x\nfile app.2020-02-01-10.000003 4 abcd\nfile app.2020-02-01-10.000004 1 e\n|",
        "rotation hourly\nprefix app\nby-name\nbytes 4\ncontinue\nfile app.2020-02-01-10.000003 abc\nstart 1580551260\nput 1580551260 de\n|",
        "open app.2020-02-01-10.000003\nopened ok 2\nfile app.2020-02-01-10.000003 3 abc\nfile app.2020-02-01-10.000004 2 de\n|",
        "rotation hourly\nprefix app\nby-name\nbytes 4\ncontinue\nfile app.2020-02-01-10.000003 abcd\nstart 1580551260\nput 1580551260 e\n|",
        "open app.2020-02-01-10.000003\nopened ok 1\nfile app.2020-02-01-10.000003 4 abcd\nfile app.2020-02-01-10.000004 1 e\n|",
        "rotation hourly\nprefix app\nby-name\nbytes 4\ncontinue\nfile app.2020-02-01-10.000003 abcdefgh\nstart 1580551260\nput 1580551260 i\n|",
        "open app.2020-02-01-10.000003\nopened ok 1\nfile app.2020-02-01-10.000003 8 abcdefgh\nfile app.2020-02-01-10.000004 1 i\n|",
        // An empty file takes a piece that is longer than the limit.
        "rotation hourly\nprefix app\nby-name\nbytes 4\ncontinue\nfile app.2020-02-01-10.000003\nstart 1580551260\nput 1580551260 longer\nput 1580551260 x\n|",
        "open app.2020-02-01-10.000003\nnone ok 6\nopened ok 1\nfile app.2020-02-01-10.000003 6 longer\nfile app.2020-02-01-10.000004 1 x\n|",
        // A link or a folder is not gone on in, nor a file of a later period, as after a clock that was set back.
        "rotation hourly\nprefix app\nby-name\nbytes 4\ncontinue\nfile app.2020-02-01-10.000003 a\nlink-at app.2020-02-01-10.000004 elsewhere\nstart 1580551260\nput 1580551260 b\n|",
        "open app.2020-02-01-10.000005\nnone ok 1\nfile app.2020-02-01-10.000003 1 a\nlink app.2020-02-01-10.000004 elsewhere\nfile app.2020-02-01-10.000005 1 b\n|",
        "rotation hourly\nprefix app\nby-name\nbytes 4\ncontinue\nfolder app.2020-02-01-10.000000\nstart 1580551260\nput 1580551260 b\n|",
        "open app.2020-02-01-10.000001\nnone ok 1\nfolder app.2020-02-01-10.000000\nfile app.2020-02-01-10.000001 1 b\n|",
        "rotation hourly\nprefix app\nby-name\nbytes 4\ncontinue\nfile app.2020-02-01-10.000001 a\nfile app.2020-02-01-11.000005 b\nstart 1580551260\nput 1580551260 c\n|",
        "open app.2020-02-01-10.000001\nnone ok 1\nfile app.2020-02-01-10.000001 2 ac\nfile app.2020-02-01-11.000005 1 b\n|",
        // The last number takes all.
        "rotation hourly\nprefix app\nby-name\nbytes 4\ncontinue\nfile app.2020-02-01-10.999998 a\nfile app.2020-02-01-10.999999 bbbbbb\nstart 1580551260\nput 1580551260 c\nput 1580551260 dddddd\n|",
        "open app.2020-02-01-10.999999\nnone ok 1\nnone ok 6\nfile app.2020-02-01-10.999998 1 a\nfile app.2020-02-01-10.999999 13 bbbbbbcdddddd\n|",
        // A weekly name of another day than Sunday is not the log's own. By default a start begins the next number, and
        // what a file held does not count.
        "rotation weekly\nprefix app\nby-name\nbytes 4\ncontinue\nfile app.2020-01-26.000000 a\nfile app.2020-01-28.000002 b\nstart 1580551260\n|",
        "open app.2020-01-26.000003\nfile app.2020-01-26.000000 1 a\nfile app.2020-01-26.000003 0\nfile app.2020-01-28.000002 1 b\n|",
        "rotation hourly\nprefix app\nby-name\nbytes 4\nfile app.2020-02-01-10.000003 a\nstart 1580551260\n|",
        "open app.2020-02-01-10.000004\nfile app.2020-02-01-10.000003 1 a\nfile app.2020-02-01-10.000004 0\n|",
        // By name, openings that fail remove nothing: once, three times, and then one that succeeds. Calls 1 to 3 open,
        // list and remove.
        "rotation hourly\nprefix app\nmax 2\nby-name\nfile app.2020-02-01-08 o\nfile app.2020-02-01-09 p\nfail 4\nfail 5\nfail 6\nfail 7\nfail 8\nfail 9\nstart 1580551260\nsee 1580554800\n|",
        "open app.2020-02-01-10\nfailed\nfile app.2020-02-01-09 1 p\nfile app.2020-02-01-10 0\n|",
        "rotation hourly\nprefix app\nmax 2\nby-name\nfile app.2020-02-01-08 o\nfile app.2020-02-01-09 p\nfail 4\nfail 5\nfail 6\nfail 7\nfail 8\nfail 9\nstart 1580551260\nsee 1580554800\nsee 1580558400\nsee 1580562000\n|",
        "open app.2020-02-01-10\nfailed\nfailed\nfailed\nfile app.2020-02-01-09 1 p\nfile app.2020-02-01-10 0\n|",
        "rotation hourly\nprefix app\nmax 2\nby-name\nfile app.2020-02-01-08 o\nfile app.2020-02-01-09 p\nfail 4\nfail 5\nfail 6\nfail 7\nfail 8\nfail 9\nstart 1580551260\nsee 1580554800\nsee 1580558400\nsee 1580562000\nsee 1580565600\n|",
        "open app.2020-02-01-10\nfailed\nfailed\nfailed\nopened\nfile app.2020-02-01-10 0\nfile app.2020-02-01-14 0\n|",
        // A boundary whose link is not made leaves no new file. Each opening opens the file, removes the link, and
        // makes it.
        "rotation hourly\nprefix app\nby-name\nlink latest.log\nfail 6\nstart 1580551260\nput 1580554800 a\n|",
        "open app.2020-02-01-10\nfailed ok 1\nfile app.2020-02-01-10 1 a\n|",
        "rotation hourly\nprefix app\nby-name\nlink latest.log\nfail 6\nstart 1580551260\nput 1580554800 a\nsee 1580558400\n|",
        "open app.2020-02-01-10\nfailed ok 1\nopened\nfile app.2020-02-01-10 1 a\nfile app.2020-02-01-12 0\nlink latest.log app.2020-02-01-12\n|",
        // The new file stays if it can't be removed, or if log files are not known by their names: the call after the
        // link is then the write.
        "rotation hourly\nprefix app\nby-name\nlink latest.log\nfail 6\nfail 7\nstart 1580551260\nput 1580554800 a\n|",
        "open app.2020-02-01-10\nfailed ok 1\nfile app.2020-02-01-10 1 a\nfile app.2020-02-01-11 0\n|",
        "rotation hourly\nprefix app\nlink latest.log\nfail 6\nstart 1580551260\nput 1580554800 a\n|",
        "open app.2020-02-01-10\nfailed ok 1\nfile app.2020-02-01-10 1 a\nfile app.2020-02-01-11 0\n|",
        "rotation hourly\nprefix app\nlink latest.log\nfail 6\nfail 7\nstart 1580551260\nput 1580554800 a\n|",
        "open app.2020-02-01-10\nfailed err\nfile app.2020-02-01-10 0\nfile app.2020-02-01-11 0\n|",
        // With a maximum of one the open file is removed only once the next one is open.
        "rotation hourly\nprefix app\nmax 1\nby-name\nfile app.2020-02-01-08 o\nfile app.2020-02-01-09 p\nfail 5\nfail 6\nfail 8\nfail 9\nstart 1580551260\nput 1580554800 a\nput 1580558400 a\n|",
        "open app.2020-02-01-10\nfailed ok 1\nfailed ok 1\nfile app.2020-02-01-10 2 aa\n|",
        "rotation hourly\nprefix app\nmax 1\nby-name\nfile app.2020-02-01-08 o\nfile app.2020-02-01-09 p\nfail 5\nfail 6\nfail 8\nfail 9\nstart 1580551260\nput 1580554800 a\nput 1580558400 a\nsee 1580562000\n|",
        "open app.2020-02-01-10\nfailed ok 1\nfailed ok 1\nopened\nfile app.2020-02-01-13 0\n|",
        // A start begins above the greatest number of its period, whatever has it. Other periods and names of other
        // logs don't count.
        "rotation hourly\nprefix app\nbytes 3\nfile app.2020-02-01-10.000000 old\nstart 1580551260\nput 1580551260 abc\nput 1580551260 d\n|",
        "open app.2020-02-01-10.000001\nnone ok 3\nopened ok 1\nfile app.2020-02-01-10.000000 3 old\nfile app.2020-02-01-10.000001 3 abc\nfile app.2020-02-01-10.000002 1 d\n|",
        "rotation hourly\nprefix app\nbytes 3\nfile app.2020-02-01-10.000003 old\nfile app.2020-02-01-10.000007 old\nfile app.2020-02-01-10.000005 old\nstart 1580551260\nput 1580551260 abc\nput 1580551260 d\n|",
        "open app.2020-02-01-10.000008\nnone ok 3\nopened ok 1\nfile app.2020-02-01-10.000003 3 old\nfile app.2020-02-01-10.000005 3 old\nfile app.2020-02-01-10.000007 3 old\nfile app.2020-02-01-10.000008 3 abc\nfile app.2020-02-01-10.000009 1 d\n|",
        "rotation hourly\nprefix app\nbytes 3\nfile app.2020-02-01-10.000003 old\nfolder app.2020-02-01-10.000004\nstart 1580551260\nput 1580551260 abc\nput 1580551260 d\n|",
        "open app.2020-02-01-10.000005\nnone ok 3\nopened ok 1\nfile app.2020-02-01-10.000003 3 old\nfolder app.2020-02-01-10.000004\nfile app.2020-02-01-10.000005 3 abc\nfile app.2020-02-01-10.000006 1 d\n|",
        "rotation hourly\nprefix app\nbytes 3\nlink-at app.2020-02-01-10.000009 elsewhere\nfile app.2020-02-01-10.000003 old\nstart 1580551260\nput 1580551260 abc\nput 1580551260 d\n|",
        "open app.2020-02-01-10.000010\nnone ok 3\nopened ok 1\nfile app.2020-02-01-10.000003 3 old\nlink app.2020-02-01-10.000009 elsewhere\nfile app.2020-02-01-10.000010 3 abc\nfile app.2020-02-01-10.000011 1 d\n|",
        "rotation hourly\nprefix app\nbytes 3\nfile app.2020-02-01-09.000007 old\nfile app.2020-02-01-11.000007 old\nstart 1580551260\nput 1580551260 abc\nput 1580551260 d\n|",
        "open app.2020-02-01-10.000000\nnone ok 3\nopened ok 1\nfile app.2020-02-01-09.000007 3 old\nfile app.2020-02-01-10.000000 3 abc\nfile app.2020-02-01-10.000001 1 d\nfile app.2020-02-01-11.000007 3 old\n|",
        "rotation hourly\nprefix app\nbytes 3\nfile app.2020-02-01-10 old\nfile app.2020-02-01-10.00007 old\nfile other.2020-02-01-10.000007 old\nstart 1580551260\nput 1580551260 abc\nput 1580551260 d\n|",
        "open app.2020-02-01-10.000000\nnone ok 3\nopened ok 1\nfile app.2020-02-01-10 3 old\nfile app.2020-02-01-10.000000 3 abc\nfile app.2020-02-01-10.000001 1 d\nfile app.2020-02-01-10.00007 3 old\nfile other.2020-02-01-10.000007 3 old\n|",
        // The last file is never full.
        "rotation hourly\nprefix app\nbytes 3\nfile app.2020-02-01-10.999998 old\nstart 1580551260\nput 1580551260 abc\nput 1580551260 d\n|",
        "open app.2020-02-01-10.999999\nnone ok 3\nnone ok 1\nfile app.2020-02-01-10.999998 3 old\nfile app.2020-02-01-10.999999 4 abcd\n|",
        "rotation hourly\nprefix app\nbytes 3\nfile app.2020-02-01-10.999999 old\nstart 1580551260\nput 1580551260 abc\nput 1580551260 d\n|",
        "open app.2020-02-01-10.999999\nnone ok 3\nnone ok 1\nfile app.2020-02-01-10.999999 7 oldabcd\n|",
    ),
};

/// Scripts with a queue whose log is opened, and their pages.
pub static QUEUED: Table = Table {
    rows: 27,
    text: concat!(
        // A full queue in lossy mode drops the line and counts it.
        "rotation hourly\nprefix app\nqueue 1 lossy\nstart 1580551260\noffer 1 a\noffer 1 b\nwork 1580551260\nwork 1580551260\nwork 1580551260\nwork 1580551260\n|",
        "open app.2020-02-01-10\naccepted 1\nfull\ntook 1\nwrote none ok 1\nempty\nflushed\nfile app.2020-02-01-10 1 a\ncounts 1 1 0 0 1\n|",
        // Lines after the shutdown are left, and two flushes are made before the end.
        "rotation hourly\nprefix app\nqueue 3 lossy\nstart 1580551260\noffer 1 a\nshut\noffer 2 b\nwork 1580551260\nwork 1580551260\nwork 1580551260\nwork 1580551260\nwork 1580551260\nwork 1580551260\noffer 2 c\n|",
        "open app.2020-02-01-10\naccepted 1\nsent\naccepted 2\ntook 1\nwrote none ok 1\nshutdown\nflushed\nflushed\nended\nclosed\nfile app.2020-02-01-10 1 a\ncounts 2 1 0 1 1\n|",
        // If a boundary is between the writes of a line, its rest is in a file of its own.
        // A take does not read the clock.
        "rotation hourly\nprefix app\nshort 2 1\nqueue 1 waiting\nstart 1580551260\noffer 1 ab\nwork 1580558400\nwork 1580551260\nwork 1580554800\n|",
        "open app.2020-02-01-10\naccepted 1\ntook 1\nwrote none ok 1\nwrote opened ok 1\nfile app.2020-02-01-10 1 a\nfile app.2020-02-01-11 1 b\ncounts 1 1 0 0 0\n|",
        // A queue of no line has room while the worker waits, for one.
        "prefix app\nqueue 0 lossy\nstart 0\noffer 1 a\nwork 0\noffer 2 b\noffer 3 c\nwork 0\noffer 4 d\nwork 0\n|",
        "open app\nfull\nempty\naccepted 1\nfull\ntook 1\nfull\nwrote none ok 1\nfile app 1 b\ncounts 1 1 0 0 3\n|",
        // It has room for a shutdown in the same way.
        "prefix app\nqueue 0 waiting\nstart 0\nshut\nwork 0\nshut\nshut\nwork 0\nshut\n|",
        "open app\nfull\nempty\nsent\nalready\nshutdown\nclosed\nfile app 0\ncounts 0 0 0 0 0\n|",
        // Senders are added and dropped. Lines in the queue are taken after the last sender is dropped.
        "prefix app\nqueue 2 lossy\nstart 0\nadd\ndrop\ndrop\noffer 1 a\nwork 0\nwork 0\nwork 0\nwork 0\nwork 0\nwork 0\nwork 0\noffer 1 b\nshut\n|",
        "open app\nsenders 2\nsenders 1\nsenders 0\naccepted 1\ntook 1\nwrote none ok 1\ngone\nflushed\nflushed\nended\nended\nclosed\nclosed\nfile app 1 a\ncounts 1 1 0 0 1\n|",
        // If senders have to wait, a line that finds the queue closed is not counted as dropped.
        "prefix app\nqueue 4 waiting\nstart 0\noffer 1 a\ndrop\nwork 0\nwork 0\nwork 0\noffer 1 b\n|",
        "open app\naccepted 1\nsenders 0\ntook 1\nwrote none ok 1\ngone\nclosed\nfile app 1 a\ncounts 1 1 0 0 0\n|",
        // The queue is open as long as there is a sender.
        "prefix app\nqueue 4 waiting\nstart 0\nadd\ndrop\nwork 0\ndrop\ndrop\nwork 0\noffer 1 a\n|",
        "open app\nsenders 2\nsenders 1\nempty\nsenders 0\nsenders 0\ngone\nclosed\nfile app 0\ncounts 0 0 0 0 0\n|",
        // Lines are taken in the order of their tickets, and each take leaves its place to a line.
        "prefix app\nqueue 3 waiting\nstart 0\noffer 1 a\noffer 1\noffer 2 c\noffer 1 d\nwork 0\noffer 1 d\nwork 0\nwork 0\nwork 0\nwork 0\nwork 0\nwork 0\nwork 0\nwork 0\n|",
        "open app\naccepted 1\naccepted 2\naccepted 3\nfull\ntook 1\naccepted 4\nwrote none ok 1\ntook 2\ntook 3\nwrote none ok 1\ntook 4\nwrote none ok 1\nempty\nflushed\nfile app 3 acd\ncounts 4 4 0 0 0\n|",
        // Nothing is flushed between the last line and the shutdown.
        "prefix app\nqueue 8 waiting\nstart 0\noffer 1 a\noffer 2 b\nshut\nwork 0\nwork 0\nwork 0\nwork 0\nwork 0\nwork 0\nwork 0\nwork 0\n|",
        "open app\naccepted 1\naccepted 2\nsent\ntook 1\nwrote none ok 1\ntook 2\nwrote none ok 1\nshutdown\nflushed\nflushed\nended\nfile app 2 ab\ncounts 2 2 0 0 0\n|",
        // The number of senders is never below zero.
        "prefix app\nqueue 2 lossy\nstart 0\ndrop\ndrop\nadd\n|",
        "open app\nsenders 0\nsenders 0\nsenders 1\nfile app 0\ncounts 0 0 0 0 0\n|",
        // A shutdown takes a place, which may be missing.
        "prefix app\nqueue 1 lossy\nstart 0\noffer 7 a\nshut\nwork 0\nshut\noffer 7 b\nshut\nwork 0\nwork 0\nshut\n|",
        "open app\naccepted 1\nfull\ntook 1\nsent\nfull\nalready\nwrote none ok 1\nshutdown\nclosed\nfile app 1 a\ncounts 1 1 0 0 1\n|",
        // If senders have to wait, nothing is counted as dropped.
        "prefix app\nqueue 1 waiting\nstart 0\noffer 1 a\noffer 1 b\noffer 1 c\n|",
        "open app\naccepted 1\nfull\nfull\nfile app 0\ncounts 1 0 1 0 0\n|",
        // The last `queue` applies, in whatever place among the settings.
        "queue 5 lossy\nprefix app\nqueue 1 waiting\nstart 0\noffer 1 a\noffer 1 b\n|",
        "open app\naccepted 1\nfull\nfile app 0\ncounts 1 0 1 0 0\n|",
        "queue 0 waiting\nprefix app\nqueue 002 lossy\nstart 0\noffer 1 a\noffer 1 b\noffer 1 c\n|",
        "open app\naccepted 1\naccepted 2\nfull\nfile app 0\ncounts 2 0 2 0 1\n|",
        // No step at all.
        "prefix app\nqueue 1 lossy\nstart 0\n|",
        "open app\nfile app 0\ncounts 0 0 0 0 0\n|",
        // The folder is absent at first, and `queue` is after that line.
        "absent\nqueue 1 lossy\nprefix app\nstart 0\n|",
        "open app\nfile app 0\ncounts 0 0 0 0 0\n|",
        // The greatest label, and an empty line: nothing is written of it.
        "prefix app\nqueue 2 lossy\nstart 0\noffer 18446744073709551615 \noffer 0\nwork 0\nwork 0\nwork 0\nwork 0\nwork 0\n|",
        "open app\naccepted 1\naccepted 2\ntook 1\ntook 2\nempty\nflushed\nempty\nfile app 0\ncounts 2 2 0 0 0\n|",
        // Spaces and escapes of a line.
        "prefix app\nqueue 2 lossy\nstart 0\noffer 007  a\\n\\\\ \nwork 0\nwork 0\n|",
        "open app\naccepted 1\ntook 1\nwrote none ok 5\nfile app 5  a\\n\\\\ \ncounts 1 1 0 0 0\n|",
        // A worker that finds nothing at first waits, and flushes nothing then.
        "prefix app\nqueue 1 lossy\nstart 0\nwork 0\nwork 0\n|",
        "open app\nempty\nempty\nfile app 0\ncounts 0 0 0 0 0\n|",
        // After a write that fails its line is dropped, and the next one is taken.
        "prefix app\nfail 2\nqueue 2 lossy\nstart 0\noffer 1 a\noffer 1 b\nwork 0\nwork 0\nwork 0\nwork 0\n|",
        "open app\naccepted 1\naccepted 2\ntook 1\nwrote none err\ntook 2\nwrote none ok 1\nfile app 1 b\ncounts 2 2 0 0 0\n|",
        // The same after a write that takes no byte. A flush that fails is not tried again.
        "prefix app\nshort 2 0\nfail 4\nqueue 2 lossy\nstart 0\noffer 1 a\noffer 1 b\nwork 0\nwork 0\nwork 0\nwork 0\nwork 0\nwork 0\nwork 0\n|",
        "open app\naccepted 1\naccepted 2\ntook 1\nwrote none ok 0\ntook 2\nwrote none ok 1\nempty\nflush err\nempty\nfile app 1 b\ncounts 2 2 0 0 0\n|",
        // The rest of a line fails: its beginning stays, and the next line is written after it.
        "prefix app\nshort 2 2\nfail 3\nqueue 8 waiting\nstart 0\noffer 1 hello\noffer 1 x\nwork 0\nwork 0\nwork 0\nwork 0\nwork 0\nwork 0\nwork 0\nwork 0\n|",
        "open app\naccepted 1\naccepted 2\ntook 1\nwrote none ok 2\nwrote none err\ntook 2\nwrote none ok 1\nempty\nflushed\nempty\nfile app 3 hex\ncounts 2 2 0 0 0\n|",
        // Nothing is flushed after a line that was dropped.
        "prefix app\nfail 2\nqueue 2 waiting\nstart 0\noffer 1 a\nwork 0\nwork 0\nwork 0\nwork 0\n|",
        "open app\naccepted 1\ntook 1\nwrote none err\nempty\nempty\nfile app 0\ncounts 1 1 0 0 0\n|",
        // The two flushes before the end fail, and the run ends all the same.
        "prefix app\nfail 2\nfail 3\nqueue 1 lossy\nstart 0\nshut\nwork 0\nwork 0\nwork 0\nwork 0\n|",
        "open app\nsent\nshutdown\nflush err\nflush err\nended\nfile app 0\ncounts 0 0 0 0 0\n|",
        // A switch that fails at a write.
        "rotation hourly\nprefix app\nfolder app.2020-02-01-11\nqueue 1 lossy\nstart 1580551260\noffer 1 a\nwork 0\nwork 1580554800\n|",
        "open app.2020-02-01-10\naccepted 1\ntook 1\nwrote failed ok 1\nfile app.2020-02-01-10 1 a\nfolder app.2020-02-01-11\ncounts 1 1 0 0 0\n|",
        // The worker's writes fill a file up to its limit.
        "rotation hourly\nprefix app\nbytes 2\nqueue 2 waiting\nstart 1580551260\noffer 1 ab\noffer 2 c\nwork 0\nwork 1580551261\nwork 0\nwork 1580551260\n|",
        "open app.2020-02-01-10.000000\naccepted 1\naccepted 2\ntook 1\nwrote none ok 2\ntook 2\nwrote opened ok 1\nfile app.2020-02-01-10.000000 2 ab\nfile app.2020-02-01-10.000001 1 c\ncounts 2 2 0 0 0\n|",
    ),
};

/// The text before and after the line of `FAULTS` in a script whose run makes fifteen calls of its folder.
///
/// The opening lists, removes, opens and renews the link. Then there are a write, a switch that does the same and
/// flushes the last file, two writes and a flush.
pub static AROUND_FAULTS: (&str, &str) = (
    "rotation hourly\nprefix app\nmax 2\nlink latest.log\nfile app.2020-02-01-08 o\nfile app.2020-02-01-09 p\n",
    "start 1580551260\nput 1580551260 a\nput 1580554800 b\nput 1580554799 c\nflush\n",
);

/// A call that fails or is cut short, and the page. Call 5 is that of the opening's link. If it fails, nothing is
/// opened.
pub static FAULTS: Table = Table {
    rows: 16,
    text: concat!(
        "fail 1\n|",
        "open app.2020-02-01-10\nnone ok 1\nopened ok 1\nnone ok 1\nok\nfile app.2020-02-01-10 1 a\nfile app.2020-02-01-11 2 bc\nlink latest.log app.2020-02-01-11\n|",
        "fail 2\n|",
        "open app.2020-02-01-10\nnone ok 1\nopened ok 1\nnone ok 1\nok\nfile app.2020-02-01-10 1 a\nfile app.2020-02-01-11 2 bc\nlink latest.log app.2020-02-01-11\n|",
        "fail 3\n|",
        "open app.2020-02-01-10\nnone ok 1\nopened ok 1\nnone ok 1\nok\nfile app.2020-02-01-10 1 a\nfile app.2020-02-01-11 2 bc\nlink latest.log app.2020-02-01-11\n|",
        "fail 4\n|",
        "open app.2020-02-01-10\nnone ok 1\nopened ok 1\nnone ok 1\nok\nfile app.2020-02-01-10 1 a\nfile app.2020-02-01-11 2 bc\nlink latest.log app.2020-02-01-11\n|",
        "fail 6\n|",
        "open app.2020-02-01-10\nnone err\nopened ok 1\nnone ok 1\nok\nfile app.2020-02-01-10 0\nfile app.2020-02-01-11 2 bc\nlink latest.log app.2020-02-01-11\n|",
        "fail 7\n|",
        "open app.2020-02-01-10\nnone ok 1\nopened ok 1\nnone ok 1\nok\nfile app.2020-02-01-09 1 p\nfile app.2020-02-01-10 1 a\nfile app.2020-02-01-11 2 bc\nlink latest.log app.2020-02-01-11\n|",
        "fail 8\n|",
        "open app.2020-02-01-10\nnone ok 1\nopened ok 1\nnone ok 1\nok\nfile app.2020-02-01-09 1 p\nfile app.2020-02-01-10 1 a\nfile app.2020-02-01-11 2 bc\nlink latest.log app.2020-02-01-11\n|",
        "fail 9\n|",
        "open app.2020-02-01-10\nnone ok 1\nopened ok 1\nnone ok 1\nok\nfile app.2020-02-01-10 1 a\nfile app.2020-02-01-11 2 bc\nlink latest.log app.2020-02-01-11\n|",
        "fail 10\n|",
        "open app.2020-02-01-10\nnone ok 1\nfailed ok 1\nnone ok 1\nok\nfile app.2020-02-01-10 3 abc\nfile app.2020-02-01-11 0\nlink latest.log app.2020-02-01-10\n|",
        "fail 11\n|",
        "open app.2020-02-01-10\nnone ok 1\nfailed ok 1\nnone ok 1\nok\nfile app.2020-02-01-10 3 abc\nfile app.2020-02-01-11 0\n|",
        "fail 12\n|",
        "open app.2020-02-01-10\nnone ok 1\nopened ok 1\nnone ok 1\nok\nfile app.2020-02-01-10 1 a\nfile app.2020-02-01-11 2 bc\nlink latest.log app.2020-02-01-11\n|",
        "fail 13\n|",
        "open app.2020-02-01-10\nnone ok 1\nopened err\nnone ok 1\nok\nfile app.2020-02-01-10 1 a\nfile app.2020-02-01-11 1 c\nlink latest.log app.2020-02-01-11\n|",
        "fail 14\n|",
        "open app.2020-02-01-10\nnone ok 1\nopened ok 1\nnone err\nok\nfile app.2020-02-01-10 1 a\nfile app.2020-02-01-11 1 b\nlink latest.log app.2020-02-01-11\n|",
        "fail 15\n|",
        "open app.2020-02-01-10\nnone ok 1\nopened ok 1\nnone ok 1\nerr\nfile app.2020-02-01-10 1 a\nfile app.2020-02-01-11 2 bc\nlink latest.log app.2020-02-01-11\n|",
        "fail 16\n|",
        "open app.2020-02-01-10\nnone ok 1\nopened ok 1\nnone ok 1\nok\nfile app.2020-02-01-10 1 a\nfile app.2020-02-01-11 2 bc\nlink latest.log app.2020-02-01-11\n|",
        "short 13 0\n|",
        "open app.2020-02-01-10\nnone ok 1\nopened ok 0\nnone ok 1\nok\nfile app.2020-02-01-10 1 a\nfile app.2020-02-01-11 1 c\nlink latest.log app.2020-02-01-11\n|",
    ),
};
