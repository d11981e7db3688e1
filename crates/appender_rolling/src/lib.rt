//! Rotating log files: a new one at each boundary of a rotation.
#![tactic(auto)]

// One crate: `Builder` has the calls that open each kind of log, and the calls of a type are in its crate.
pub mod laws;
pub mod rolling;
