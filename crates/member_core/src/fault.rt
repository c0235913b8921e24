//! Why a request isn't made.
ghost use Rattle.std.specs.Prelude.{◌≡◌};
ghost use Rattle.member_core.specs.Refusing.{beat_fault_number};

use std::alloc::AllocError;
use thiserror::Error;

/// Why a member doesn't make a request. The member is then as it was.
#[derive(Clone, Copy, Debug, PartialEq, Eq, Error)]
pub enum BeatFault {
    /// A member without an instance id can't go away for a while.
    #[error("no instance id")]
    NoInstance,
    /// The body would have more bytes than a frame may have.
    #[error("request too large")]
    TooLarge,
    /// Every number of a request is used.
    #[error("no request number left")]
    Spent,
    /// A growth was refused.
    #[error("out of memory")]
    NoMemory,
}

impl BeatFault {
    /// The number of the fault: 1 for no instance, 2 for the size, 3 for the numbers, 4 for memory.
    pub fn number(self) -> u8
        ensures { result ≡ beat_fault_number self }
    {
        match self {
            BeatFault::NoInstance => 1,
            BeatFault::TooLarge => 2,
            BeatFault::Spent => 3,
            BeatFault::NoMemory => 4,
        }
    }
}

impl From<AllocError> for BeatFault {
    ghost use Rattle.member_core.specs.declared.fault.BeatFault.TheVariants.{NoMemory};

    ghost from_gives = { λ _ fault. fault ≡ NoMemory };

    fn from(_: AllocError) -> BeatFault {
        BeatFault::NoMemory
    }
}
