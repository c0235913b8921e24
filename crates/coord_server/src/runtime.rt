//! What a server takes of the system.

use std::alloc::AllocGlobal;
use std::net::Net;
use std::random::RandomSource;
use std::sync::Wait;
use std::thread::Threads;
use std::time::Clock;

/// What an event loop takes of the system: it waits, reads the clock, draws random numbers and has memory.
pub trait LoopRuntime: Wait + Clock + RandomSource + AllocGlobal {}

impl<R: Wait + Clock + RandomSource + AllocGlobal> LoopRuntime for R {}

/// What a server takes of the system: what its event loops take, threads and sockets.
pub trait Runtime: LoopRuntime + Threads + Net {}

impl<R: LoopRuntime + Threads + Net> Runtime for R {}
