//! Tests of the non-blocking writer with its worker's thread, and of what counts lines: counted senders with their account, and
//! a counting writer. They end by themselves, and pass however the threads are scheduled. `acceptance_schedules` has small ones.
#![tactic(auto)]

#[cfg(test)]
mod closing;
#[cfg(test)]
mod counted;
#[cfg(test)]
mod counting;
#[cfg(test)]
mod expect;
#[cfg(test)]
mod gate;
#[cfg(test)]
mod losses;
#[cfg(test)]
mod plain;
#[cfg(test)]
mod recorded;
#[cfg(test)]
mod stage;
#[cfg(test)]
mod stories;
#[cfg(test)]
mod threads;
#[cfg(test)]
mod work;
