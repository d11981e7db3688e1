//! A log that waits while the system refuses its writes, unless that is not wanted.
ghost use Rattle.std.specs.Prelude.{◌≡◌, [], Some, IfOk};
ghost use Rattle.std.specs.Io.{WritesAtMost};
ghost use Rattle.std.specs.Io.KnownBytes.{Keeps, WriteAppends};
ghost use Rattle.rolltee_core.specs.Losses.{HasLostNothing};
ghost use Rattle.rolltee_core.specs.Taken.{WasOpened, TookText};

use crate::logs::TeeLog;
use crate::losses::TeeLosses;
use line_history::Tape;
use std::alloc::{AllocError, Global};
use std::io;
use std::io::{ErrorKind, Write};
use std::marker::{Brand, Model, PhantomData};
use std::sync::{Arc, Mutex, Wait};
use std::time::Clock;
use tracing_appender::waiting::{Faults, write_waiting};

/// Says by what the log of a run is opened: its rotation, its folder, the beginning of its names, and the options. A function is
/// generic in it, and a call passes `Brand` and picks what is said.
pub trait Asked {
    ghost use Rattle.std.specs.Prelude.{ℕ, List, Option};
    ghost use Rattle.appender_names.specs.declared.rotation.Rotation.{Rotation};
    ghost use Rattle.program_io.specs.declared.options.Options.{Options};

    ghost asked: { Rotation → List ℕ → List ℕ → Options → Type 0 };

    /// What the output of the run held before, if that is known.
    ghost printed: { Option (List ℕ) };

    /// What the sink of its lines was sent before.
    ghost first: { List ℕ };
}

impl Asked for Brand {
    ghost use Rattle.std.specs.Prelude.{[], None};

    ghost asked = { λ _ _ _ _. ⊥ };

    ghost printed = { None };

    ghost first = { [] };
}

/// A log that was opened as it is said.
#[derive(Drop)]
pub struct OpenedLog<W: TeeLog + Drop, N: Asked> {
    log: W,
    opening: PhantomData<N>,
}

impl<W: TeeLog + Drop, N: Asked> Model for OpenedLog<W, N> {
    ghost use Rattle.rolltee_core.specs.Taken.{WasOpened};

    ghost Value = { W };

    ghost view = { λ o. o.log };

    ghost invariant = { λ o. WasOpened W.opens N.asked o.log };
}

impl<W: TeeLog + Drop, N: Asked> OpenedLog<W, N> {
    /// Returns this log, which was opened so.
    pub fn new(log: W) -> OpenedLog<W, N>
        requires { WasOpened W.opens N.asked log }
        ensures { result ≡ log }
    {
        OpenedLog {
            log,
            opening: PhantomData,
        }
    }
}

// A log and what it took.
#[derive(Drop)]
struct NotedLog<W: TeeLog + Drop, N: Asked> {
    log: W,
    taken: Tape,
    opening: PhantomData<N>,
}

impl<W: TeeLog + Drop, N: Asked> Model for NotedLog<W, N> {
    ghost use Rattle.std.specs.Prelude.{List, ℕ};
    ghost use Rattle.std.specs.List.{concat};
    ghost use Rattle.rolltee_core.specs.Taken.{WasOpened, TakesPieces};

    ghost Value = { List ℕ };

    ghost view = { λ l. concat l.taken.lines };

    ghost invariant = { λ l. TakesPieces (WasOpened W.opens N.asked) W.takes l.taken.lines l.log };
}

impl<W: TeeLog + Drop, N: Asked> NotedLog<W, N> {
    // Returns a log that took nothing yet.
    fn new(opened: OpenedLog<W, N>) -> NotedLog<W, N>
        ensures { result ≡ [] }
    {
        let OpenedLog { log, opening } = opened;
        NotedLog {
            log,
            taken: Tape::of(&()),
            opening,
        }
    }

    // Abandons the line whose write failed.
    fn give_up(&mut self)
        ensures { self.new ≡ self.old }
    {
        self.log.give_up();
        self.taken.note(b"");
    }

    // Closes the log, and returns what it lost.
    fn close(self) -> TeeLosses
        ensures { HasLostNothing result → TookText (WasOpened W.opens N.asked) W.takes W.is_kept self }
    {
        let NotedLog {
            log,
            taken: _taken,
            opening: _,
        } = self;
        log.close()
    }
}

impl<W: TeeLog + Drop, N: Asked> Write for NotedLog<W, N> {
    ghost contents = { λ taken. Some taken };

    fn write(&mut self, bytes: &[u8]) -> io::Result<usize>
        ensures bound { WritesAtMost result bytes.now }
        ensures bytes { WriteAppends (Some self.old) (Some self.new) result bytes.now }
    {
        let answer = self.log.put(bytes);
        match &answer {
            Ok(taken) => self.taken.note(&bytes[..*taken]),
            Err(_) => self.taken.note(b""),
        }
        answer
    }

    fn flush(&mut self) -> io::Result<()>
        ensures bytes { Keeps (Some self.old) (Some self.new) }
    {
        let flushed = self.log.flush_all();
        self.taken.note(b"");
        flushed
    }
}

/// A log whose writes may wait after each fault of the system. A process that is supervised must not lose lines to a disk that
/// is taken away or a folder that can't be entered. Each write returns how much the log took at once, and its error means
/// that none of the bytes was written. So it is known which of the lines that are written together are in the log. An error
/// of a `WaitingWriter` does not say how much was taken before it.
#[derive(Drop)]
pub struct WaitingLog<R, W: TeeLog + Drop, N: Asked> {
    rt: R,
    waits: bool,
    // The log that was put into the place, after it was first looked for.
    log: Option<NotedLog<W, N>>,
    place: Arc<Mutex<Option<OpenedLog<W, N>>>, Global>,
    // Whether it was reported that lines are lost.
    reported: bool,
}

impl<R, W: TeeLog + Drop, N: Asked> Model for WaitingLog<R, W, N> {
    ghost use Rattle.std.specs.Prelude.{List, ℕ};
    ghost use Rattle.rolltee_core.specs.Taken.{taken_in};

    ghost Value = { List ℕ };

    ghost view = { λ w. taken_in w.log };
}

/// The place where a `WaitingLog` finds its log. So a worker is started before its log is opened, and a start that fails
/// for want of memory or of a thread opens none.
#[derive(Drop)]
pub struct LogPlace<W: TeeLog + Drop, N: Asked> {
    place: Arc<Mutex<Option<OpenedLog<W, N>>>, Global>,
}

impl<W: TeeLog + Drop, N: Asked> LogPlace<W, N> {
    /// Puts the log, before the first line is queued.
    pub fn put<R: Wait>(&self, rt: &R, log: OpenedLog<W, N>) {
        *self.place.lock(rt) = Some(log);
    }
}

impl<R: AllocGlobal + Drop, W: TeeLog + Drop, N: Asked> WaitingLog<R, W, N> {
    /// Returns a log that waits by the clock of `rt`, and prints on its standard error; without `waits` it returns each
    /// fault, and prints the first. What it prints is no part of the errors of a run, since another thread prints it, and at
    /// once. The place is empty. `AllocError` if memory is refused.
    pub fn new(rt: R, waits: bool) -> Result<(WaitingLog<R, W, N>, LogPlace<W, N>), AllocError>
        ensures { IfOk result (λ made. made.0 ≡ []) }
    {
        let place = Arc::new(rt.alloc(), Mutex::new(None)).map_err(AllocError::from)?;
        let shared = place.clone()?;
        let log = WaitingLog {
            rt,
            waits,
            log: None,
            place,
            reported: false,
        };
        Ok((log, LogPlace { place: shared }))
    }

    /// Closes the log, and returns what it lost. One that was never looked for was never flushed.
    pub fn close(self) -> TeeLosses
        ensures { HasLostNothing result → TookText (WasOpened W.opens N.asked) W.takes W.is_kept self }
    {
        let WaitingLog {
            rt: _rt,
            waits: _,
            log,
            place: _place,
            reported: _,
        } = self;
        match log {
            Some(log) => log.close(),
            None => TeeLosses {
                unsynced: 1,
                ..TeeLosses::NONE
            },
        }
    }
}

impl<R: Wait, W: TeeLog + Drop, N: Asked> WaitingLog<R, W, N> {
    // Takes the log from its place, if it is there.
    fn find(&mut self)
        ensures { self.new ≡ self.old }
    {
        if self.log.is_none() {
            let opened = self.place.lock(&self.rt).take();
            if let Some(opened) = opened {
                self.log = Some(NotedLog::new(opened));
            }
        }
    }
}

impl<R: Wait + Clock + Eprint, W: TeeLog + Drop, N: Asked> Write for WaitingLog<R, W, N> {
    ghost contents = { λ taken. Some taken };

    /// Writes the first of the bytes. After an error that isn't `Interrupted` the line in which they are is not written on.
    /// `NotFound` if the log was not put.
    fn write(&mut self, bytes: &[u8]) -> io::Result<usize>
        ensures bound { WritesAtMost result bytes.now }
        ensures bytes { WriteAppends (Some self.old) (Some self.new) result bytes.now }
    {
        self.find();
        let WaitingLog {
            rt,
            waits,
            log,
            place: _,
            reported,
        } = self;
        let Some(log) = log else {
            return Err(io::Error::from(ErrorKind::NotFound));
        };
        // Each try looks for the log file, so one that is removed to make room is closed.
        let taken = if *waits {
            write_waiting(&*rt, Faults::Any, log, bytes)
        } else {
            log.write(bytes)
        };
        match taken {
            Err(fault) if fault.kind() != ErrorKind::Interrupted => {
                if !*reported {
                    *reported = true;
                    let _ = eprintln!(&*rt; "lines are lost: {fault}");
                }
                log.give_up();
                Err(fault)
            }
            taken => taken,
        }
    }

    /// Flushes the log, and does not wait after a fault of that.
    fn flush(&mut self) -> io::Result<()>
        ensures bytes { Keeps (Some self.old) (Some self.new) }
    {
        self.find();
        match &mut self.log {
            Some(log) => log.flush(),
            None => Ok(()),
        }
    }
}
