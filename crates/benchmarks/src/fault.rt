//! Why a run ends before its end.
ghost use Rattle.std.specs.Prelude.{◌≡◌};
ghost use Rattle.benchmarks.specs.declared.fault.Fault.TheVariants.{NoMemory, Unread, NoImage, Io};

use kip_msgs::MsgFault;
use std::alloc::{AllocError, AllocFailed};
use std::io;
use thiserror::Error;
use topic_meta::ImageFault;

/// Why a run ends before its end. The text is one line.
#[derive(Debug, Drop, Error)]
pub enum Fault {
    /// The command line is none that the program knows.
    #[error("usage: benchmarks [times [messages | assignors | heartbeats]]")]
    CommandLine,
    #[error("out of memory")]
    NoMemory,
    /// A message that was written could not be read.
    #[error("reading a message: {0}")]
    Unread(MsgFault),
    /// The measured topics make no image.
    #[error("making an image: {0}")]
    NoImage(ImageFault),
    #[error("two measured members have one id")]
    OneId,
    /// A work that was done again gave something else.
    #[error("a measured work is not the same each time")]
    Unsteady,
    #[error("{0}")]
    Io(io::Error),
}

impl Fault {
    ghost use Rattle.benchmarks.specs.Statuses.{status_of};

    /// The status with which the program ends: 2 after a wrong command line, 1 after the other faults.
    pub fn status(&self) -> u8
        ensures { result ≡ status_of self.now }
    {
        match self {
            Fault::CommandLine => 2,
            Fault::NoMemory
            | Fault::Unread(_)
            | Fault::NoImage(_)
            | Fault::OneId
            | Fault::Unsteady
            | Fault::Io(_) => 1,
        }
    }
}

impl From<AllocError> for Fault {
    ghost from_gives = { λ _ fault. fault ≡ NoMemory };

    fn from(_error: AllocError) -> Fault {
        Fault::NoMemory
    }
}

impl<T: Drop> From<AllocFailed<T>> for Fault {
    ghost from_gives = { λ _ fault. fault ≡ NoMemory };

    fn from(_error: AllocFailed<T>) -> Fault {
        Fault::NoMemory
    }
}

impl From<MsgFault> for Fault {
    ghost from_gives = { λ unread fault. fault ≡ Unread unread };

    fn from(fault: MsgFault) -> Fault {
        Fault::Unread(fault)
    }
}

impl From<ImageFault> for Fault {
    ghost from_gives = { λ refused fault. fault ≡ NoImage refused };

    fn from(fault: ImageFault) -> Fault {
        Fault::NoImage(fault)
    }
}

impl From<io::Error> for Fault {
    ghost from_gives = { λ error fault. fault ≡ Io error };

    fn from(error: io::Error) -> Fault {
        Fault::Io(error)
    }
}
