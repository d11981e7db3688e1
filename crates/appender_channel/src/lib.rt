//! The channel between senders and the worker: the queue, who waits for it, and the books of its lines. Each call
//! of `State` is one step under the channel's lock, and doesn't block.
#![tactic(auto)]

pub mod books;
pub mod pace;
pub mod state;
