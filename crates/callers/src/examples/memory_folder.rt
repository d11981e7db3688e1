//! The example of `MemoryFolder`.

use std::alloc::Global;
use tracing_appender::rolling::{Builder, Roller, Rotation};
use tracing_appender::store::MemoryFolder;

// The folder then has the files `1970-01-01` with `first` and `1970-01-02` with `second`.
pub fn log_two_days(alloc: Global) -> Option<MemoryFolder> {
    let settings = Builder::new().rotation(Rotation::DAILY);
    let mut log = Roller::open(alloc, &settings, MemoryFolder::new(alloc), 0).ok()?;
    let _ = log.put(0, b"first\n");
    let _ = log.put(86_400, b"second\n");
    Some(log.into_folder())
}
