// What writes records, by writers that something makes.

use crate::json_line::KeptRecord;
use crate::times::after_room;
use crate::{NoClock, line_of, write_line, write_line_at};
use appender_runtime::backoff::{Backoff, lock};
use appender_runtime::clock::Clock;
use appender_runtime::make_writer::MakeWriter;
use log::Record;
use log::kv::Source;
use log::span::Spans;
use std::fmt::Display;
use std::io;
use std::io::Write;
use std::sync::atomic::AtomicU64;
use std::sync::atomic::Ordering::SeqCst;
use std::sync::{Mutex, Wait};

#[derive(Drop)]
pub(super) struct RecordWriter<R: Drop, C: Clock> {
    rt: R,
    // What the times of records are read from, if they have any.
    clock: Option<C>,
    is_json: bool,
    // Whether the last record was cut short. A thread that writes a record holds it, since a writer of an
    // appender lets other writers write between two writes of its own.
    cut: Mutex<bool>,
    lost: AtomicU64,
}

impl<R: Drop> RecordWriter<R, NoClock> {
    pub(super) fn new(rt: R) -> RecordWriter<R, NoClock> {
        RecordWriter {
            rt,
            clock: None,
            is_json: false,
            cut: Mutex::new(false),
            lost: AtomicU64::new(0),
        }
    }
}

impl<R: Drop, C: Clock> RecordWriter<R, C> {
    /// Returns this with the clock of the records' times.
    pub(super) fn with_clock<D: Clock>(self, clock: D) -> RecordWriter<R, D> {
        RecordWriter {
            rt: self.rt,
            clock: Some(clock),
            is_json: self.is_json,
            cut: self.cut,
            lost: self.lost,
        }
    }

    /// From now on lines of JSON are written.
    pub(super) fn set_json(&mut self) {
        self.is_json = true;
    }

    /// The number of records that were not written whole.
    pub(super) fn lost(&self) -> u64 {
        self.lost.load(SeqCst)
    }
}

impl<R: AllocGlobal + Wait + Drop, C: Clock> RecordWriter<R, C> {
    /// Writes a record by a writer of its own, or counts it as lost.
    pub(super) fn log<'a, M: MakeWriter<'a>, D: Display, K: Source, S: Spans>(
        &self,
        writers: &'a M,
        record: &Record<'_, D, K, S>,
    ) {
        if self.write(writers, record).is_err() {
            self.lost.fetch_add(1, SeqCst);
        }
    }

    fn write<'a, M: MakeWriter<'a>, D: Display, K: Source, S: Spans>(
        &self,
        writers: &'a M,
        record: &Record<'_, D, K, S>,
    ) -> io::Result<()> {
        if self.is_json {
            return self.write_json(writers, record);
        }
        let line = line_of(self.rt.alloc(), record)?;
        match &self.clock {
            None => self.write_now(writers, line.as_slice()),
            Some(clock) => self.write_at(writers, clock, line.as_slice()),
        }
    }

    fn write_now<'a, M: MakeWriter<'a>>(&self, writers: &'a M, line: &[u8]) -> io::Result<()> {
        let mut writer = writers.make_writer()?;
        let mut cut = lock(&self.rt, &self.cut, &mut Backoff::NEW);
        write_line(&mut writer, &mut cut, line)
    }

    // Reads the clock under the lock, so that times rise in the log as they do on the clock.
    fn write_at<'a, M: MakeWriter<'a>>(
        &self,
        writers: &'a M,
        clock: &C,
        line: &[u8],
    ) -> io::Result<()> {
        let mut line = after_room(self.rt.alloc(), line)?;
        let mut writer = writers.make_writer()?;
        let mut cut = lock(&self.rt, &self.cut, &mut Backoff::NEW);
        write_line_at(
            &mut writer,
            &mut cut,
            clock.now_nanos(),
            line.as_mut_slice(),
        )
    }

    // The record is formatted before the lock is taken. Its line begins with the time.
    fn write_json<'a, M: MakeWriter<'a>, D: Display, K: Source, S: Spans>(
        &self,
        writers: &'a M,
        record: &Record<'_, D, K, S>,
    ) -> io::Result<()> {
        let kept = KeptRecord::new(self.rt.alloc(), record)?;
        let mut writer = writers.make_writer()?;
        let mut cut = lock(&self.rt, &self.cut, &mut Backoff::NEW);
        let nanos = match &self.clock {
            None => None,
            Some(clock) => Some(clock.now_nanos()),
        };
        let line = kept.line(self.rt.alloc(), nanos, record.metadata())?;
        write_line(&mut writer, &mut cut, line.as_slice())
    }
}

/// Flushes a writer of its own. An error is not reported.
pub(super) fn flush<'a, M: MakeWriter<'a>>(writers: &'a M) {
    if let Ok(mut writer) = writers.make_writer() {
        let _ = writer.flush();
    }
}
