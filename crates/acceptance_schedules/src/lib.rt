//! Small tests of threads, of which `tests/schedules` tries thousands of schedules each. They pass in every schedule, also
//! if threads are slow.
#![tactic(auto)]

#[cfg(test)]
mod counted;
#[cfg(test)]
mod expect;
#[cfg(test)]
mod files;
#[cfg(test)]
mod lines;
#[cfg(test)]
mod queues;
#[cfg(test)]
mod recorder;
