//! The bounded queue of lines between senders and a worker. No call here blocks or starts a thread.
#![tactic(auto)]

pub mod laws;
pub mod queue;
