// A case that is measured, and its rows in the table.
use std::io;

/// The names of the columns.
pub(crate) const HEADER: &str =
    "variant,mode,limit,bytes,senders,round,lines,nanos_per_line_tenths,dropped";

/// The numbers of sending threads, of lines per thread, and of bytes per line.
#[derive(Clone, Copy)]
pub(crate) struct Case<'a> {
    /// The word for it in a row.
    pub(crate) mode: &'a str,
    /// Of the queue in lines, or of a file in bytes.
    pub(crate) limit: u32,
    pub(crate) bytes: u32,
    pub(crate) senders: u32,
    pub(crate) each: u32,
}

impl Case<'_> {
    /// Returns the number of lines of all threads. Without a sender, the lines of a log are those of one thread.
    pub(crate) fn lines(&self) -> u64 {
        let alone = self.mode == "direct" && self.senders == 0;
        u64::from(self.senders)
            .saturating_add(u64::from(alone))
            .saturating_mul(u64::from(self.each))
    }

    /// Prints a row: the time of all lines together, and how many were dropped.
    pub(crate) fn print<R: Print>(
        &self,
        rt: &R,
        mode: &str,
        round: u32,
        nanos: u128,
        dropped: u64,
    ) -> io::Result<()> {
        let Case {
            limit,
            bytes,
            senders,
            ..
        } = *self;
        let lines = self.lines();
        let tenths = nanos
            .saturating_mul(10)
            .checked_div(u128::from(lines))
            .unwrap_or(0);
        println!(rt; "ours,{mode},{limit},{bytes},{senders},{round},{lines},{tenths},{dropped}")
    }
}
