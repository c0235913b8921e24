//! Why the broker doesn't start, or ends.
ghost use Rattle.std.specs.Prelude.{◌≡◌, ◌≤◌};

use broker_topics::TopicsFault;
use coord_server::ServerFault;
use std::alloc::{AllocError, AllocFailed};
use std::io;
use std::net::Ipv4Addr;
use thiserror::Error;

/// Why a command line asks for no broker. The text is one line.
#[derive(Debug, Drop, Error)]
pub enum WordsFault {
    /// The words are wrong, and the text says what of them.
    #[error("{0}")]
    Refused(String),
    /// The words could not be read.
    #[error("reading the command line: {0}")]
    Unread(io::Error),
    /// The word of this name isn't a number from the least to the greatest.
    #[error("error: '--{0}' wants a number from {1} to {2}")]
    OutOfRange(&'static str, u64, u64),
    /// The word is no address to listen on.
    #[error("error: '{0}' is no IPv4 address that clients can be told")]
    NoAddress(String),
    /// The word is no topic.
    #[error("error: '{0}' is no topic NAME:COUNT or NAME:UUID:COUNT")]
    NoTopic(String),
    /// The topics make no image, and the text says why.
    #[error("error: {0}")]
    NoImage(String),
    #[error("error: out of memory")]
    NoMemory,
}

impl WordsFault {
    /// The status with which the program ends: 1 if memory ran out, 2 if the command line is wrong.
    pub fn status(&self) -> u8
        ensures { result ≤ 2 }
    {
        match self {
            WordsFault::NoMemory => 1,
            WordsFault::Refused(_)
            | WordsFault::Unread(_)
            | WordsFault::OutOfRange(..)
            | WordsFault::NoAddress(_)
            | WordsFault::NoTopic(_)
            | WordsFault::NoImage(_) => 2,
        }
    }
}

impl From<AllocError> for WordsFault {
    fn from(_error: AllocError) -> WordsFault {
        WordsFault::NoMemory
    }
}

impl<T: Drop> From<AllocFailed<T>> for WordsFault {
    fn from(_error: AllocFailed<T>) -> WordsFault {
        WordsFault::NoMemory
    }
}

/// Why the broker ends.
#[derive(Debug, Drop, Error)]
pub enum BrokerFault {
    #[error("drawing random keys: {0}")]
    Keys(io::Error),
    #[error("listening on {0}:{1}: {2}")]
    Port(Ipv4Addr, u16, io::Error),
    #[error("reading the clock: {0}")]
    Clock(io::Error),
    #[error("making the topics: {0}")]
    Topics(TopicsFault),
    #[error("writing the output: {0}")]
    Write(io::Error),
    #[error("serving: {0}")]
    Server(ServerFault),
}

impl From<io::Error> for BrokerFault {
    fn from(error: io::Error) -> BrokerFault {
        BrokerFault::Write(error)
    }
}

impl From<TopicsFault> for BrokerFault {
    fn from(fault: TopicsFault) -> BrokerFault {
        BrokerFault::Topics(fault)
    }
}

impl From<AllocError> for BrokerFault {
    fn from(error: AllocError) -> BrokerFault {
        BrokerFault::from(ServerFault::from(error))
    }
}

impl From<ServerFault> for BrokerFault {
    fn from(fault: ServerFault) -> BrokerFault {
        match fault {
            ServerFault::Announce(error) => BrokerFault::Write(error),
            other => BrokerFault::Server(other),
        }
    }
}
