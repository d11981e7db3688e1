//! Tests of logs of the crate `log`: their lines, the times of these, what they count as lost, with and without a queue, and records in a
//! log that threads share.
#![tactic(auto)]

#[cfg(test)]
mod files;
#[cfg(test)]
mod queued;
#[cfg(test)]
mod records;
