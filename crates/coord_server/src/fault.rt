//! Why a server didn't run to its end.

use coord_shards::ShardFault;
use std::alloc::{AllocError, AllocFailed};
use std::io;
use thiserror::Error;
use tokio::time::error::Error as TimerError;

/// Why a server didn't run to its end.
#[derive(Debug, Drop, Error)]
pub enum ServerFault {
    /// The shards gave out no seat to a worker.
    #[error(transparent)]
    Shards(ShardFault),
    /// The system refused something, before the first connection.
    #[error(transparent)]
    System(io::Error),
    /// The system made no thread.
    #[error("no thread can be made")]
    NoThread,
    /// It couldn't be announced that the threads are there.
    #[error("announcing that it listens: {0}")]
    Announce(io::Error),
    /// The event loop of the acceptor or of a worker failed.
    #[error("waiting in an event loop: {0}")]
    Loop(io::Error),
    /// The expiry worker's timer failed.
    #[error("the timer of the expiry worker: {0}")]
    Timer(TimerError),
    /// A worker has ended before its connections have.
    #[error("a worker has ended before its connections")]
    Stopped,
    /// No memory was left.
    #[error("out of memory")]
    NoMemory,
}

impl From<ShardFault> for ServerFault {
    fn from(fault: ShardFault) -> ServerFault {
        ServerFault::Shards(fault)
    }
}

impl From<io::Error> for ServerFault {
    fn from(error: io::Error) -> ServerFault {
        ServerFault::System(error)
    }
}

impl From<AllocError> for ServerFault {
    fn from(_error: AllocError) -> ServerFault {
        ServerFault::NoMemory
    }
}

impl<T: Drop> From<AllocFailed<T>> for ServerFault {
    fn from(_error: AllocFailed<T>) -> ServerFault {
        ServerFault::NoMemory
    }
}
