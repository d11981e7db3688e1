//! Tests of logs over a disk in memory whose calls fail as a test chooses, and that a disk in the end holds what a
//! folder in memory does.
#![tactic(auto)]

#[cfg(test)]
mod disk;
#[cfg(test)]
mod expect;
#[cfg(test)]
mod fake;
#[cfg(test)]
mod faults;
#[cfg(test)]
mod listings;
#[cfg(test)]
mod openings;
#[cfg(test)]
mod others;
#[cfg(test)]
mod runs;
#[cfg(test)]
mod scripts;
