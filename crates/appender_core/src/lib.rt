//! The crates below the roller: boundaries and names, folders, retention, the queue, and the worker without a
//! thread. No call blocks.
#![tactic(auto)]

pub use appender_names::{error, laws as name_laws, names, rotation};
pub use appender_queue::{laws as queue_laws, queue};
pub use appender_retain::{laws as retain_laws, retain};
pub use appender_store::{laws as store_laws, store};
pub use appender_worker::{laws as worker_laws, worker};
