//! Tests of `rollplay` by the call that its `main` makes: whole scripts, inputs that can't be read and writers that
//! fail.
#![tactic(auto)]

#[cfg(test)]
mod expect;
#[cfg(test)]
mod program;
#[cfg(test)]
mod queued;
pub mod rows;
