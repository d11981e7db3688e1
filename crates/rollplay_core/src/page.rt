//! The page that is printed for a run. Each line ends with a newline. The only error is that memory was refused.
ghost use Rattle.std.specs.Prelude.{◌≡◌, ◌≤◌, ◌++◌, OnOk, None, Some};
ghost use Rattle.appender_names.specs.Rotation.{IsMoment};
ghost use Rattle.appender_store.specs.MemoryView.{state_of};
ghost use Rattle.appender_rolling.specs.Config.{stamp, last_of};
ghost use Rattle.appender_rolling.specs.Opening.{file_name_of};
ghost use Rattle.rollplay_core.specs.Page.{reply_words, with_newline, entry_words, entry_line, folder_lines, run_page};
ghost use Rattle.rollplay_core.specs.Page.{refusal_page, open_line, reply_lines, queue_reply_words, queue_reply_lines};
ghost use Rattle.rollplay_core.specs.Page.{counts_words, queued_page};
ghost use Rattle.appender_queue.specs.QueueReplies.{queue_counts};
ghost use Rattle.rollplay_core.specs.Text.{script_escape, script_escapes};

use std::alloc::AllocError;
use std::io::Write;
use std::{fmt, io};
use tracing_appender::queue::{Counts, Shut};
use tracing_appender::replay::{Reply, RollReply, RollRun, Run};
use tracing_appender::rolling::{InitError, Roller, Switch};
use tracing_appender::store::MemoryFolder;

// The word for a switch.
#[derive(Clone, Copy)]
struct SwitchWord(Switch);

impl fmt::Display for SwitchWord {
    ghost use Rattle.std.specs.Prelude.{Some};
    ghost use Rattle.rollplay_core.specs.Page.{switch_word};

    ghost output = { λ word. Some (switch_word word.0) };

    fn fmt<W: fmt::Write>(&self, f: &mut fmt::Formatter<W>) -> fmt::Result {
        f.write_str(match self.0 {
            Switch::None => "none",
            Switch::Opened => "opened",
            Switch::Failed => "failed",
        })
    }
}

// The number of bytes that were taken, or the failure.
#[derive(Clone, Copy)]
struct Count<'a>(&'a Result<usize, io::ErrorKind>);

impl fmt::Display for Count<'_> {
    ghost use Rattle.std.specs.Prelude.{Some};
    ghost use Rattle.rollplay_core.specs.Page.{count_words};

    ghost output = { λ taken. Some (count_words taken.0.now) };

    fn fmt<W: fmt::Write>(&self, f: &mut fmt::Formatter<W>) -> fmt::Result {
        match self.0 {
            Ok(count) => write!(f, "ok {count}"),
            Err(_) => f.write_str("err"),
        }
    }
}

/// Prints a run that was opened at `start`, in seconds of UTC since the epoch. The page has the name of the first
/// file, the reply to each step, and the folder at the end.
pub fn print_run(page: &mut Vec<u8>, start: i64, run: &RollRun<MemoryFolder>) -> io::Result<()>
    requires start { IsMoment start }
    requires number { run.now.number ≤ last_of run.now.roller.config }
    ensures { OnOk result (page.new.items ≡ page.old.items ++ run_page
        (file_name_of run.now.roller.config (stamp start run.now.number)) run.now.replies.items
        (state_of run.now.roller.folder).content) }
{
    print_opening(page, start, run.number, &run.roller)?;
    print_replies(page, &run.replies)?;
    print_folder(page, run.roller.folder())
}

/// Prints a run with a queue that was opened at `start`, in seconds of UTC since the epoch. The page has the name of
/// the first file, the reply to each step, the folder at the end, and the counts of the queue.
pub fn print_queued_run(page: &mut Vec<u8>, start: i64, run: &Run<MemoryFolder>) -> io::Result<()>
    requires start { IsMoment start }
    requires number { run.now.number ≤ last_of run.now.roller.config }
    ensures { OnOk result (page.new.items ≡ page.old.items ++ queued_page
        (file_name_of run.now.roller.config (stamp start run.now.number)) run.now.replies.items
        (state_of run.now.roller.folder).content (queue_counts run.now.queue)) }
{
    print_opening(page, start, run.number, &run.roller)?;
    print_queue_replies(page, &run.replies)?;
    print_folder(page, run.roller.folder())?;
    print_counts(page, run.queue.counts())
}

/// Prints why the log was not opened, and the folder that was returned.
pub fn print_refusal(page: &mut Vec<u8>, error: &InitError, folder: &MemoryFolder) -> io::Result<()>
    ensures { OnOk result (page.new.items ≡
        page.old.items ++ refusal_page error.now (state_of folder.now).content) }
{
    let code = error.code();
    writeln!(page, "init error {code}")?;
    print_folder(page, folder)
}

// Prints the name of the first file.
fn print_opening(
    page: &mut Vec<u8>,
    start: i64,
    number: u32,
    roller: &Roller<MemoryFolder>,
) -> io::Result<()>
    requires start { IsMoment start }
    requires number { number ≤ last_of roller.now.config }
    ensures { OnOk result (page.new.items ≡
        page.old.items ++ open_line (file_name_of roller.now.config (stamp start number))) }
{
    let name = roller.names().file_name_at(start, number)?;
    writeln!(page, "open {name}")
}

// Prints a line for each reply.
fn print_replies(page: &mut Vec<u8>, replies: &[RollReply]) -> io::Result<()>
    ensures { OnOk result (page.new.items ≡ page.old.items ++ reply_lines replies.now) }
{
    for reply in replies {
        print_reply(page, reply)?;
    }
    Ok(())
}

// Prints the reply to a step.
fn print_reply(page: &mut Vec<u8>, reply: &RollReply) -> io::Result<()>
    ensures { OnOk result
        (page.new.items ≡ page.old.items ++ with_newline (reply_words reply.now)) }
{
    match reply {
        RollReply::Saw(switch) => writeln!(page, "{}", SwitchWord(*switch)),
        RollReply::Put(switch, taken) => writeln!(page, "{} {}", SwitchWord(*switch), Count(taken)),
        RollReply::Wrote(taken) => writeln!(page, "{}", Count(taken)),
        RollReply::Flushed(Ok(())) => writeln!(page, "ok"),
        RollReply::Flushed(Err(_)) => writeln!(page, "err"),
    }
}

// Prints a line for each reply of a run with a queue.
fn print_queue_replies(page: &mut Vec<u8>, replies: &[Reply]) -> io::Result<()>
    ensures { OnOk result (page.new.items ≡ page.old.items ++ queue_reply_lines replies.now) }
{
    for reply in replies {
        print_queue_reply(page, reply)?;
    }
    Ok(())
}

// Prints the reply to a step of a run with a queue.
fn print_queue_reply(page: &mut Vec<u8>, reply: &Reply) -> io::Result<()>
    ensures { OnOk result
        (page.new.items ≡ page.old.items ++ with_newline (queue_reply_words reply.now)) }
{
    let word = match reply {
        Reply::Accepted(ticket) => return writeln!(page, "accepted {ticket}"),
        Reply::Senders(count) => return writeln!(page, "senders {count}"),
        Reply::Took(ticket) => return writeln!(page, "took {ticket}"),
        Reply::Wrote(switch, taken) => {
            return writeln!(page, "wrote {} {}", SwitchWord(*switch), Count(taken));
        }
        Reply::Full | Reply::Shut(Shut::Full) => "full",
        Reply::Closed | Reply::Shut(Shut::Closed) => "closed",
        Reply::NoMemory => "no memory",
        Reply::Shut(Shut::Sent) => "sent",
        Reply::Shut(Shut::Already) => "already",
        Reply::TookShutdown => "shutdown",
        Reply::TookGone => "gone",
        Reply::TookEmpty => "empty",
        Reply::Flushed(Ok(())) => "flushed",
        Reply::Flushed(Err(_)) => "flush err",
        Reply::Ended => "ended",
    };
    writeln!(page, "{word}")
}

// Prints the counts of a queue.
fn print_counts(page: &mut Vec<u8>, counts: Counts) -> io::Result<()>
    ensures { OnOk result
        (page.new.items ≡ page.old.items ++ with_newline (counts_words counts)) }
{
    let Counts {
        accepted,
        handed,
        queued,
        left,
        dropped,
    } = counts;
    writeln!(page, "counts {accepted} {handed} {queued} {left} {dropped}")
}

// Prints a line for each name of a folder, in byte order.
fn print_folder(page: &mut Vec<u8>, folder: &MemoryFolder) -> io::Result<()>
    ensures { OnOk result
        (page.new.items ≡ page.old.items ++ folder_lines (state_of folder.now).content) }
{
    let names = folder.names()?;
    for name in &names {
        print_entry(page, folder, name.as_str())?;
    }
    Ok(())
}

fn print_entry(page: &mut Vec<u8>, folder: &MemoryFolder, name: &str) -> io::Result<()>
    ensures { OnOk result
        (page.new.items ≡ page.old.items ++ entry_line (state_of folder.now).content name.now) }
{
    if let Some(bytes) = folder.bytes(name) {
        return print_file(page, name, bytes);
    }
    match folder.target(name) {
        Some(target) => writeln!(page, "link {name} {target}"),
        None => writeln!(page, "folder {name}"),
    }
}

fn print_file(page: &mut Vec<u8>, name: &str, bytes: &[u8]) -> io::Result<()>
    ensures { OnOk result (page.new.items ≡
        page.old.items ++ with_newline (entry_words name.now (Some bytes.now) None)) }
{
    let length = bytes.len();
    write!(page, "file {name} {length}")?;
    if length != 0 {
        page.write_all(b" ")?;
        push_escapes(page, bytes)?;
    }
    page.write_all(b"\n")
}

// Adds bytes in one line: a newline as `\n`, a backslash as `\\`, and others as they are.
fn push_escapes(page: &mut Vec<u8>, bytes: &[u8]) -> Result<(), AllocError>
    ensures { OnOk result (page.new.items ≡ page.old.items ++ script_escapes bytes.now) }
{
    page.reserve(bytes.len())?;
    for byte in bytes {
        push_byte(page, *byte)?;
    }
    Ok(())
}

fn push_byte(page: &mut Vec<u8>, byte: u8) -> Result<(), AllocError>
    ensures { OnOk result (page.new.items ≡ page.old.items ++ script_escape byte) }
{
    match byte {
        b'\n' => page.extend_from_slice(b"\\n"),
        b'\\' => page.extend_from_slice(b"\\\\"),
        _ => Ok(page.push(byte)?),
    }
}
