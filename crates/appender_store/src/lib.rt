//! Folders as an appender sees them, and one in memory.
#![tactic(auto)]

pub mod laws;
pub mod store;
