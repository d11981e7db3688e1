// Records as lines of JSON.
use super::times::At;
use super::{Next, Page, PageWriter, TEN, expect_lost, expect_page};
use appender_log::{LogSink, write_json};
use log::kv::display;
use log::{Level, Log, Logged, Metadata, Record, error, info, info_span};
use std::fmt;
use std::fmt::{Display, Formatter};
use std::test::Fail;

fn log_three(logger: &impl Log) {
    info!(logger; target: "db", "read");
    info!(logger; target: "db", rows = 3; "read {} bytes", 512);
    error!(logger; target: "", rows = 3, rows = "four"; "");
}

#[test]
fn a_record_is_an_object_on_a_line(rt: HostRuntime) {
    let page = Page::new(rt.alloc());
    let sink = LogSink::new(rt, &page).json();
    log_three(&Logged::new(rt, Level::Info, &sink));
    let wanted = r#"{"level":"INFO","target":"db","message":"read"}
|{"level":"INFO","target":"db","message":"read 512 bytes","fields":{"rows":3}}
|{"level":"ERROR","target":"","message":"","fields":{"rows":3,"rows":"four"}}
|"#;
    expect_page(&rt, &page, wanted);
}

fn log_late(logger: &impl Log) {
    info!(logger; target: "db", rows = 3; "late");
}

#[test]
fn a_time_comes_first(rt: HostRuntime) {
    let page = Page::new(rt.alloc());
    for sink in [
        LogSink::new(rt, &page).json().timestamps(At(TEN)),
        LogSink::new(rt, &page).timestamps(At(i128::MIN)).json(),
    ] {
        log_late(&Logged::new(rt, Level::Info, &sink));
    }
    let wanted =
        r#"{"timestamp":"2026-11-27T10:00:00.000000Z","level":"INFO","target":"db","message":"late","fields":{"rows":3}}
|{"timestamp":"-","level":"INFO","target":"db","message":"late","fields":{"rows":3}}
|"#;
    expect_page(&rt, &page, wanted);
}

fn log_in_spans(logger: &impl Log) {
    let request = logger.span("request").with("id", 7).with("peer", "a");
    info!(request; target: "http", "started");
    let query = info_span!(request; "query");
    info!(query; target: "db", rows = 3; "read");
}

#[test]
fn spans_begin_with_the_outermost(rt: HostRuntime) {
    let page = Page::new(rt.alloc());
    let sink = LogSink::new(rt, &page).json();
    log_in_spans(&Logged::new(rt, Level::Info, &sink));
    let wanted =
        r#"{"level":"INFO","target":"http","message":"started","spans":[{"name":"request","fields":{"id":7,"peer":"a"}}]}
|{"level":"INFO","target":"db","message":"read","spans":[{"name":"request","fields":{"id":7,"peer":"a"}},{"name":"query"}],"fields":{"rows":3}}
|"#;
    expect_page(&rt, &page, wanted);
}

fn log_values(logger: &impl Log) {
    info!(logger; target: "t", yes = true, no = false, low = -7i8, high = u128::MAX, lowest = i128::MIN; "");
    info!(logger; target: "t", half = 0.5, whole = 1.0, small = -1e-7, large = 1e300; "");
    info!(logger; target: "t", nan = f64::NAN, up = f64::INFINITY, down = f64::NEG_INFINITY; "");
    info!(logger; target: "t", letter = 'x', text = "12", shown:% = 12, none = None::<u8>; "");
}

#[test]
fn a_value_has_the_type_of_its_own(rt: HostRuntime) {
    let page = Page::new(rt.alloc());
    let sink = LogSink::new(rt, &page).json();
    log_values(&Logged::new(rt, Level::Info, &sink));
    let wanted =
        r#"{"level":"INFO","target":"t","message":"","fields":{"yes":true,"no":false,"low":-7,"high":340282366920938463463374607431768211455,"lowest":-170141183460469231731687303715884105728}}
|{"level":"INFO","target":"t","message":"","fields":{"half":0.5,"whole":1.0,"small":-1e-7,"large":1e300}}
|{"level":"INFO","target":"t","message":"","fields":{"nan":"NaN","up":"inf","down":"-inf"}}
|{"level":"INFO","target":"t","message":"","fields":{"letter":"x","text":"12","shown":"12","none":null}}
|"#;
    expect_page(&rt, &page, wanted);
}

fn log_escaped(logger: &impl Log) {
    let text = "a \"b\" \\ \n\r\t\u{0}\u{1b}\u{7f}é𝄞/";
    let span = logger.span("\"\n").with("\\\n", '"');
    info!(span; target: "\n", "k\"\n" = text; "{text}");
}

#[test]
fn a_text_is_escaped_wherever_it_is(rt: HostRuntime) {
    let page = Page::new(rt.alloc());
    let sink = LogSink::new(rt, &page).json();
    log_escaped(&Logged::new(rt, Level::Info, &sink));
    let wanted = "{\"level\":\"INFO\",\"target\":\"\\n\",\
        \"message\":\"a \\\"b\\\" \\\\ \\n\\r\\t\\u0000\\u001b\u{7f}é𝄞/\",\
        \"spans\":[{\"name\":\"\\\"\\n\",\"fields\":{\"\\\\\\n\":\"\\\"\"}}],\
        \"fields\":{\"k\\\"\\n\":\"a \\\"b\\\" \\\\ \\n\\r\\t\\u0000\\u001b\u{7f}é𝄞/\"}}\n|";
    expect_page(&rt, &page, wanted);
}

// Cannot be formatted.
#[derive(Clone, Copy)]
struct Unformatted;

impl Display for Unformatted {
    fn fmt<W: fmt::Write>(&self, _f: &mut Formatter<W>) -> fmt::Result {
        Err(fmt::Error)
    }
}

fn log_unformatted(logger: &impl Log) {
    info!(logger; target: "t", "{}", Unformatted);
    info!(logger; target: "t", rows = display(Unformatted); "read");
    let span = logger.span("request").with("id", display(Unformatted));
    info!(span; target: "t", "read");
}

#[test]
fn a_record_that_cannot_be_formatted_is_lost(rt: HostRuntime) {
    let page = Page::new(rt.alloc());
    let sink = LogSink::new(rt, &page).json();
    log_unformatted(&Logged::new(rt, Level::Info, &sink));
    expect_page(&rt, &page, "");
    assert_eq!(rt; sink.lost(), 3);
}

#[test]
fn a_line_that_was_cut_short_is_ended(rt: HostRuntime) {
    let page = Page::new(rt.alloc());
    let sink = LogSink::new(rt, &page).json();
    expect_lost(rt, &page, &sink, Next::HasRoom(5), 1);
    expect_lost(rt, &page, &sink, Next::Takes, 1);
    let wanted =
        "{\"lev|\n|{\"level\":\"INFO\",\"target\":\"db\",\"message\":\"read\",\"fields\":{\"rows\":3}}\n|";
    expect_page(&rt, &page, wanted);
}

#[test]
fn a_record_by_itself_has_the_line_of_a_sink(rt: HostRuntime) -> Result<(), Fail> {
    let page = Page::new(rt.alloc());
    let record = Record::new(Metadata::new(Level::Warn, "db"), "late", ("rows", 3), ());
    write_json(rt.alloc(), &mut PageWriter(&page), None, &record)?;
    write_json(rt.alloc(), &mut PageWriter(&page), Some(TEN), &record)?;
    let wanted = r#"{"level":"WARN","target":"db","message":"late","fields":{"rows":3}}
|{"timestamp":"2026-11-27T10:00:00.000000Z","level":"WARN","target":"db","message":"late","fields":{"rows":3}}
|"#;
    expect_page(&rt, &page, wanted);
    Ok(())
}
