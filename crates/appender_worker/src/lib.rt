//! The worker between a queue and its writer as a state machine, the writing of one line, and writers that
//! count lines, of which one gathers them. No call here blocks or starts a thread.
#![tactic(auto)]

mod batching;
mod counts;
pub mod laws;
mod sink;
pub mod worker;
