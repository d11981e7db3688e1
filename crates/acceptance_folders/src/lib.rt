//! Tests of logs over directories of the file system, which other processes may change, and of appenders that threads
//! share. They end by themselves, and pass however the threads are scheduled.
#![tactic(auto)]

#[cfg(test)]
mod appenders;
#[cfg(test)]
mod calls;
#[cfg(test)]
mod crowds;
#[cfg(test)]
mod expect;
#[cfg(test)]
mod links;
#[cfg(test)]
mod open_files;
#[cfg(test)]
mod rows;
#[cfg(test)]
mod scene;
#[cfg(test)]
mod swapping;
#[cfg(test)]
mod threads;
