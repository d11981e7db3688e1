//! Whole runs of a rolling log, and what its files hold after them.
#![tactic(auto)]

pub mod replay;
