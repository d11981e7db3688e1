//! The work of `rolltee`: each line of an input goes to a rolling log, through a queue or directly.
#![tactic(auto)]

pub mod check;
pub mod feed;
pub mod file_log;
mod lock;
pub mod logs;
pub mod losses;
mod opening;
mod reason;
pub mod tee;
mod title;
mod waiting;
mod writers;
