//! Retention: which log files are removed so that only the newest remain, and their removal.
#![tactic(auto)]

pub mod laws;
pub mod retain;
