//! The library of `rollplay`. It runs a script of a rolling log writer over a folder in memory.
//! It prints each reply, and the contents of the folder at the end.
#![tactic(auto)]

pub mod line;
mod page;
pub mod play;
pub mod script;
pub mod words;
