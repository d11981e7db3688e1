// The calls of a folder in memory, as they are counted.
ghost use Rattle.std.specs.Prelude.{◌≡◌, true, false, OnOk, OnErr, IfErr, if◌then◌else◌};
ghost use Rattle.std.specs.IoError.{error_kind};
ghost use Rattle.std.specs.declared.io.ErrorKind.TheVariants.{Other};
ghost use Rattle.appender_store.specs.Folder.{next_count};
ghost use Rattle.std.specs.FinSet as set;
ghost use Rattle.std.specs.FinMap as fin;

use std::alloc::{AllocError, Global};
use std::collections::{BTreeMap, BTreeSet};
use std::io;

// How many calls were made, which are to fail, which appends are to be short, and how many were
// made to fail.
#[derive(Drop)]
pub(crate) struct Calls {
    made: u64,
    failing: BTreeSet<u64>,
    shortened: BTreeMap<u64, usize>,
    failed: u64,
}

impl Calls {
    ghost use Rattle.appender_store.specs.Inside.Calls.{failing_calls_of, append_limits_of, failures_of, is_next_named};
    ghost use Rattle.appender_store.specs.MemoryState.{lesser_limit};

    pub(crate) fn new(alloc: Global) -> Calls
        ensures made { result.made ≡ 0 }
        ensures failing { failing_calls_of result.failing ≡ set.empty }
        ensures shortened { append_limits_of result.shortened ≡ fin.empty }
        ensures failures { failures_of result ≡ 0 }
    {
        Calls {
            made: 0,
            failing: BTreeSet::new(alloc),
            shortened: BTreeMap::new(alloc),
            failed: 0,
        }
    }

    // Counts a call, and a failure if it was named to fail.
    pub(crate) fn count(&mut self) -> io::Result<()>
        ensures made { self.new.made ≡ next_count self.old.made }
        ensures failing { self.new.failing ≡ self.old.failing }
        ensures shortened { self.new.shortened ≡ self.old.shortened }
        ensures failures { failures_of self.new ≡
            (if is_next_named self.old then next_count (failures_of self.old) else failures_of self.old) }
        ensures ok { OnOk result (is_next_named self.old ≡ false) }
        ensures err { IfErr result (λ e. (is_next_named self.old ≡ true) × (error_kind e ≡ Other)) }
    {
        self.made = self.made.saturating_add(1);
        if self.is_failing() {
            self.failed = self.failed.saturating_add(1);
            return Err(io::Error::from(io::ErrorKind::Other));
        }
        Ok(())
    }

    // Whether the call that was counted last is named to fail.
    fn is_failing(&self) -> bool
        ensures { result ≡ set.contains (failing_calls_of self.now.failing) self.now.made }
    {
        self.failing.contains(&self.made)
    }

    // How many bytes the call that was counted last takes at most.
    pub(crate) fn limit(&self) -> Option<usize>
        ensures { result ≡ fin.get (append_limits_of self.now.shortened) self.now.made }
    {
        self.limit_at(self.made)
    }

    fn limit_at(&self, call: u64) -> Option<usize>
        ensures { result ≡ fin.get (append_limits_of self.now.shortened) call }
    {
        self.shortened.get(&call).copied()
    }

    // How often a call was made to fail: at most `u64::MAX`, where the count stays.
    pub(crate) fn failures(&self) -> u64
        ensures { result ≡ failures_of self.now }
    {
        self.failed
    }

    // Names a call that is to fail.
    pub(crate) fn fail(&mut self, call: u64) -> Result<(), AllocError>
        ensures made { self.new.made ≡ self.old.made }
        ensures shortened { self.new.shortened ≡ self.old.shortened }
        ensures failures { failures_of self.new ≡ failures_of self.old }
        ensures ok { OnOk result
            (failing_calls_of self.new.failing ≡ set.insert (failing_calls_of self.old.failing) call) }
        ensures err { OnErr result (failing_calls_of self.new.failing ≡ failing_calls_of self.old.failing) }
    {
        self.failing.insert(call)?;
        Ok(())
    }

    // Lets a call take at most `limit` bytes.
    pub(crate) fn shorten(&mut self, call: u64, limit: usize) -> Result<(), AllocError>
        ensures made { self.new.made ≡ self.old.made }
        ensures failing { self.new.failing ≡ self.old.failing }
        ensures failures { failures_of self.new ≡ failures_of self.old }
        ensures ok { OnOk result (append_limits_of self.new.shortened ≡
            fin.insert (append_limits_of self.old.shortened) call
            (lesser_limit (fin.get (append_limits_of self.old.shortened) call) limit)) }
        ensures err { OnErr result (append_limits_of self.new.shortened ≡ append_limits_of self.old.shortened) }
    {
        let least = match self.limit_at(call) {
            Some(before) => before.min(limit),
            None => limit,
        };
        self.shortened.insert(call, least)?;
        Ok(())
    }
}
