//! What a queue and its guard ask of the runtime of their program.

use std::sync::Wait;
use std::thread::Threads;
use std::time::Clock;

/// The runtime of a program that has a queue: memory, threads and waits for them, the clock, and the standard streams, which
/// are copied to the worker's thread. `HostRuntime` is one.
pub trait Host: AllocGlobal
    + Threads
    + Wait
    + Clock
    + Print
    + Eprint
    + Copy
    + Send
    + Sync
    + 'static {}

impl<R: AllocGlobal + Threads + Wait + Clock + Print + Eprint + Copy + Send + Sync + 'static> Host
    for R {}

/// The runtime that a guard keeps: waits, the clock, and standard output, to which a drop may print. Each `Host` is one.
/// Methods of a guard ask no more, so that an `impl` of another trait may call them.
pub trait GuardHost: Wait + Clock + Print + Drop {}

impl<R: Wait + Clock + Print + Drop> GuardHost for R {}
