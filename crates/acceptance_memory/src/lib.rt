//! Tests over folders in memory: each part of a log by itself, by public calls (names, retention, the queue,
//! waits, the writing of a line), and what scripts of `rollplay` do not print of a rolling log.
#![tactic(auto)]

#[cfg(test)]
mod expect;
#[cfg(test)]
mod folders;
#[cfg(test)]
mod lines;
#[cfg(test)]
mod names;
#[cfg(test)]
mod queues;
#[cfg(test)]
mod retention;
#[cfg(test)]
mod scripts;
#[cfg(test)]
mod states;
#[cfg(test)]
mod waiting;
#[cfg(test)]
mod ways;
#[cfg(test)]
mod writer;
