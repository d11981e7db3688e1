//! Tests of `rolltee` by the calls that its `main` makes: over real folders, inputs that can't be read, writers that fail,
//! and those that take their time.
#![tactic(auto)]

#[cfg(test)]
mod batches;
#[cfg(test)]
mod direct;
#[cfg(test)]
mod expect;
#[cfg(test)]
mod inputs;
#[cfg(test)]
mod logs;
#[cfg(test)]
mod pieces;
#[cfg(test)]
mod program;
#[cfg(test)]
mod rests;
#[cfg(test)]
mod run;
#[cfg(test)]
mod settings;
#[cfg(test)]
mod waits;
