//! Rotating and non-blocking log writers: a port of the Rust crate `tracing-appender`, with proved contracts.
#![tactic(auto)]

pub use appender_core::{
    error, name_laws, names, queue, queue_laws, retain, retain_laws, rotation, store, store_laws,
    worker, worker_laws,
};
pub use appender_folder::folder;
pub use appender_non_blocking::non_blocking;
pub use appender_replay::replay;
pub use appender_rolling::{laws as rolling_laws, rolling};
pub use appender_runtime::waiting;
