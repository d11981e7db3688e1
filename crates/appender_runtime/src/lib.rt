//! What logs of files and queues of lines ask of the runtime of their program, and what they have in common: clocks, locks,
//! writes that wait.
#![tactic(auto)]

pub mod backoff;
pub mod clock;
pub mod host;
pub mod make_writer;
pub mod waiting;
