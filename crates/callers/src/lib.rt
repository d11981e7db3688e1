//! Callers of the log writers: a structured logger, handlers that share a log, an access log, a supervisor of a child's output,
//! an audit sink, and callers that write one line. `examples` has the examples of the library's doc comments.
#![tactic(auto)]

pub mod access_log;
pub mod audit_sink;
pub mod examples;
pub mod handlers;
pub mod logger;
pub mod one_line;
pub mod supervisor;
