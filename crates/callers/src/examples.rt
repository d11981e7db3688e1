//! The examples of the library's doc comments. Each module is one of them, and has the text of the comment.
pub mod builder;
pub mod daily;
pub mod line_queue;
pub mod log_sink;
pub mod make_writer;
pub mod memory_folder;
pub mod non_blocking;
pub mod non_blocking_builder;
pub mod queued_log;
pub mod rolling_file;
pub mod rolling_file_appender;
pub mod run_counted;
pub mod run_lines;
pub mod start;
pub mod worker_guard;
