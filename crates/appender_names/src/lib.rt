//! When a new log file begins, and what the files are called.
#![tactic(auto)]

mod archive;
mod civil;
pub mod error;
pub mod laws;
pub mod names;
pub mod rotation;
