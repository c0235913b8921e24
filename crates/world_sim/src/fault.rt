//! Why an act is refused.
ghost use Rattle.std.specs.Prelude.{◌≡◌};
ghost use Rattle.world_sim.specs.Faults.{world_fault_number};

use member_core::BeatFault;
use std::alloc::AllocError;
use thiserror::Error;

/// Why a world refuses an act. The world is then as it was.
#[derive(Clone, Copy, Debug, PartialEq, Eq, Error)]
pub enum WorldFault {
    /// No client has the number.
    #[error("no such client")]
    NoSuchClient,
    /// No message of the kind has the number.
    #[error("no such message")]
    NoSuchMessage,
    /// The client is in a state in which it can't do that.
    #[error("not in this state")]
    WrongState,
    /// A growth was refused.
    #[error("out of memory")]
    NoMemory,
    /// The request's body would have more bytes than a frame may have.
    #[error("request too large")]
    TooLarge,
    /// The request is a join under an id that its group doesn't remember.
    #[error("member id forgotten")]
    Forgotten,
}

impl WorldFault {
    /// The number of the fault: 1 for the client, 2 for the message, 3 for the state, 4 for memory, 5 for the size, 6 for
    /// the id.
    pub fn number(self) -> u8
        ensures { result ≡ world_fault_number self }
    {
        match self {
            WorldFault::NoSuchClient => 1,
            WorldFault::NoSuchMessage => 2,
            WorldFault::WrongState => 3,
            WorldFault::NoMemory => 4,
            WorldFault::TooLarge => 5,
            WorldFault::Forgotten => 6,
        }
    }
}

impl From<AllocError> for WorldFault {
    ghost use Rattle.world_sim.specs.declared.fault.WorldFault.TheVariants.{NoMemory};

    ghost from_gives = { λ _ fault. fault ≡ NoMemory };

    fn from(_: AllocError) -> WorldFault {
        WorldFault::NoMemory
    }
}

impl From<BeatFault> for WorldFault {
    ghost use Rattle.world_sim.specs.Faults.{fault_of_beat};

    ghost from_gives = { λ beat fault. fault ≡ fault_of_beat beat };

    fn from(fault: BeatFault) -> WorldFault {
        match fault {
            BeatFault::NoInstance | BeatFault::Spent => WorldFault::WrongState,
            BeatFault::TooLarge => WorldFault::TooLarge,
            BeatFault::NoMemory => WorldFault::NoMemory,
        }
    }
}
