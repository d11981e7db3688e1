// Each example, and what comes of it: the files in `logs`, or what its log was given.
use callers::examples::{
    builder, daily, line_queue, make_writer, memory_folder, non_blocking, non_blocking_builder,
    queued_log, rolling_file, rolling_file_appender, run_counted, run_lines, start, worker_guard,
};
use std::alloc::Global;
use std::io::Write;
use std::process::Abort;
use std::sync::{Arc, Mutex, Wait};
use std::test::Fail;
use std::{fs, io};
use tracing_appender::non_blocking::Closing;
use tracing_appender::queue::Counts;
use tracing_appender::rolling::{RollingFileAppender, Rotation, Switch};

const DONE: Closing = Closing::Done { left: 0 };

// The names of the files of a prefix in `logs`, in their order.
fn names_of(rt: &HostRuntime, prefix: &str) -> io::Result<Vec<String>> {
    let mut names = Vec::new(rt.alloc());
    for entry in fs::read_dir(rt, "logs")? {
        let name = String::from_str(rt.alloc(), entry?.file_name())?;
        if name.as_bytes().starts_with(prefix.as_bytes()) {
            names.push(name)?;
        }
    }
    names.sort_unstable();
    Ok(names)
}

fn path_of(rt: &HostRuntime, name: &str) -> io::Result<String> {
    Ok(format!(in rt.alloc(); "logs/{name}")?)
}

// Makes the folder, and removes the files of a prefix that an earlier run left.
fn clear(rt: &HostRuntime, prefix: &str) -> io::Result<()> {
    fs::create_dir_all(rt, "logs")?;
    for name in &names_of(rt, prefix)? {
        fs::remove_file(rt, path_of(rt, name.as_str())?)?;
    }
    Ok(())
}

// The text of all files of a prefix, in the order of their names. There are two if a period began meanwhile.
fn text_of(rt: &HostRuntime, prefix: &str) -> io::Result<String> {
    let mut text = String::new(rt.alloc());
    for name in &names_of(rt, prefix)? {
        let part = fs::read_to_string(rt, path_of(rt, name.as_str())?)?;
        text.push_str(part.as_str())?;
    }
    Ok(text)
}

fn expect_text(rt: &impl Abort, text: io::Result<String>, wanted: &str) {
    let text = text.expect(rt, "a text");
    assert_eq!(rt; text.as_str(), wanted);
}

// What a log of an example was given. The log and the test each have it.
#[derive(Drop)]
struct Page<R: Wait> {
    rt: R,
    text: Arc<Mutex<Vec<u8>>, Global>,
}

impl<R: Wait + AllocGlobal + Abort + Copy> Page<R> {
    fn new(rt: R) -> Page<R> {
        let text = Mutex::new(Vec::new(rt.alloc()));
        let text = Arc::new(rt.alloc(), text).ok().expect(&rt, "memory");
        Page { rt, text }
    }

    // Returns the same page as a log.
    fn log(&self) -> Page<R> {
        let text = Arc::try_clone(&self.text).expect(&self.rt, "memory");
        Page { rt: self.rt, text }
    }

    fn expect(&self, wanted: &str) {
        let text = self.text.lock(&self.rt);
        assert_eq!(self.rt; text.as_slice(), wanted.as_bytes());
    }
}

impl<R: Wait> Write for Page<R> {
    fn write(&mut self, buf: &[u8]) -> io::Result<usize> {
        self.text.lock(&self.rt).extend_from_slice(buf)?;
        Ok(buf.len())
    }

    fn flush(&mut self) -> io::Result<()> {
        Ok(())
    }
}

#[test]
fn a_log_of_the_day(rt: HostRuntime) -> Result<(), Fail> {
    clear(&rt, "app.")?;
    daily::log_start(rt)?;
    daily::log_start(rt)?;
    expect_text(&rt, text_of(&rt, "app."), "started\nstarted\n");
    Ok(())
}

#[test]
fn an_appender(rt: HostRuntime) -> Result<(), Fail> {
    clear(&rt, "web.")?;
    rolling_file_appender::log_request(rt)?;
    expect_text(&rt, text_of(&rt, "web."), "GET / 200\n");
    Ok(())
}

#[test]
fn a_builder(rt: HostRuntime) -> Result<(), Fail> {
    clear(&rt, "tool.")?;
    for number in 0..5 {
        let path = format!(in rt.alloc(); "logs/tool.2020-02-09.00000{number}.log")?;
        fs::write(&rt, path, b"old\n")?;
    }
    let mut log = builder::open_log(rt)?;
    log.write_all(b"new\n")?;
    assert_eq!(rt; names_of(&rt, "tool.")?.len(), 3);
    Ok(())
}

#[test]
fn a_file_for_one_thread(rt: HostRuntime) -> Result<(), Fail> {
    clear(&rt, "20")?;
    assert_eq!(rt; rolling_file::log_two(rt)?, Switch::Opened);
    expect_text(&rt, text_of(&rt, "20"), "first\nsecond\n");
    Ok(())
}

#[test]
fn a_queue(rt: HostRuntime) -> Result<(), Fail> {
    let page = Page::new(rt);
    assert_eq!(rt; non_blocking::log_start(rt, page.log())?, DONE);
    page.expect("started\n");
    Ok(())
}

#[test]
fn a_queue_with_settings(rt: HostRuntime) -> Result<(), Fail> {
    let page = Page::new(rt);
    let (mut lines, guard) = non_blocking_builder::start(rt, page.log())?;
    lines.write_all(b"waited\n")?;
    assert_eq!(rt; guard.close(), DONE);
    page.expect("waited\n");
    Ok(())
}

// Takes no byte.
#[derive(Drop)]
struct Full;

impl Write for Full {
    fn write(&mut self, _buf: &[u8]) -> io::Result<usize> {
        Err(io::Error::other("full"))
    }

    fn flush(&mut self) -> io::Result<()> {
        Ok(())
    }
}

#[test]
fn a_guard(rt: HostRuntime) -> Result<(), Fail> {
    let page = Page::new(rt);
    worker_guard::log_stop(rt, page.log())?;
    page.expect("stopped\n");
    assert!(rt; worker_guard::log_stop(rt, Full).is_err());
    Ok(())
}

#[test]
fn an_account(rt: HostRuntime) -> Result<(), Fail> {
    let page = Page::new(rt);
    let account = run_counted::greet(rt, page.log())?;
    assert_eq!(rt; (account.accepted(), account.handed()), (2, 2));
    page.expect("hello\nhello\n");
    Ok(())
}

#[test]
fn a_log_that_took_a_line(rt: HostRuntime) -> Result<(), Fail> {
    let page = Page::new(rt);
    assert!(rt; run_lines::greet(rt, page.log())?);
    page.expect("hello\n");
    Ok(())
}

#[test]
fn a_maker_of_writers(rt: HostRuntime) -> Result<(), Fail> {
    clear(&rt, "maker")?;
    let log = RollingFileAppender::new(rt, Rotation::NEVER, "logs", "maker")?;
    make_writer::log_line(&log, b"a line\n")?;
    make_writer::log_line(&log, b"another\n")?;
    expect_text(&rt, text_of(&rt, "maker"), "a line\nanother\n");
    Ok(())
}

#[test]
fn a_folder_in_memory(rt: HostRuntime) -> Result<(), Fail> {
    let Some(folder) = memory_folder::log_two_days(rt.alloc()) else {
        return Err(Fail::from(io::Error::other("no log")));
    };
    assert_eq!(rt;
        folder.bytes("1970-01-01").expect(&rt, "a file"),
        b"first\n".as_slice()
    );
    assert_eq!(rt;
        folder.bytes("1970-01-02").expect(&rt, "a file"),
        b"second\n".as_slice()
    );
    Ok(())
}

#[test]
fn a_queue_of_two(rt: HostRuntime) -> Result<(), Fail> {
    let counts = line_queue::offer_three(rt.alloc())?;
    let wanted = Counts {
        accepted: 2,
        handed: 1,
        queued: 1,
        left: 0,
        dropped: 1,
    };
    assert_eq!(rt; counts, wanted);
    Ok(())
}

#[test]
fn a_queued_log(rt: HostRuntime) -> Result<(), Fail> {
    let page = Page::new(rt);
    start::log_read(rt, page.log())?;
    page.expect("[INFO  db] read rows=3\n");
    assert!(rt; start::log_read(rt, Full).is_err());
    Ok(())
}

#[test]
fn a_log_of_json(rt: HostRuntime) -> Result<(), Fail> {
    let page = Page::new(rt);
    queued_log::log_order(rt, page.log())?;
    page.expect(
        "{\"level\":\"INFO\",\"target\":\"shop\",\"message\":\"paid\",\"fields\":{\"order\":7}}\n",
    );
    Ok(())
}
