//! A writer that never waits for a file: it copies each line into a bounded queue, which a thread of
//! its own empties into any writer.
#![tactic(auto)]

pub mod non_blocking;
