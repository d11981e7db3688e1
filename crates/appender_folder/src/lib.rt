//! A folder of the file system that log files are written to.
#![tactic(auto)]

pub mod folder;
