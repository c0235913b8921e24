//! What is wrong with shards or seats that are asked for, and why a call is refused.
ghost use Rattle.std.specs.Prelude.{◌≡◌};

use std::alloc::{AllocError, AllocFailed};
use thiserror::Error;

/// What is wrong with shards or seats that are asked for.
#[derive(Clone, Copy, Debug, PartialEq, Eq, Error)]
pub enum ShardFault {
    /// Fewer than 1 shard, more than 64, or a cap above 65,536.
    #[error("1 to 64 shards, and a journal of at most 65536 entries")]
    BadNumber,
    /// All seats are given out, or one that was is missing.
    #[error("no seat is left, or a seat is missing")]
    NoSeat,
    /// No memory was left.
    #[error("out of memory")]
    NoMemory,
    /// A seat's calls are not its entries.
    #[error("a seat's calls are not its entries")]
    Unequal,
}

impl ShardFault {
    ghost use Rattle.coord_shards.specs.Faults.{fault_number};

    /// The fault as a number: 1 to 4, in the order of the variants.
    pub fn number(self) -> u8
        ensures { result ≡ fault_number self }
    {
        match self {
            Self::BadNumber => 1,
            Self::NoSeat => 2,
            Self::NoMemory => 3,
            Self::Unequal => 4,
        }
    }
}

/// Why a shard refuses a call. Nothing has changed then.
#[derive(Clone, Copy, Debug, PartialEq, Eq, Error)]
pub enum CallFault {
    /// An allocation was refused.
    #[error("out of memory")]
    NoMemory,
    /// The shard's journal has as many entries as it may keep.
    #[error("the journal is full")]
    JournalFull,
    /// The seat has made as many calls as it can.
    #[error("the seat has no call left")]
    CallsSpent,
    /// The shard has another number, is one of another number of shards, or has another salt than the one that was looked for.
    #[error("another shard was found")]
    OtherShard,
}

impl From<AllocError> for CallFault {
    ghost use Rattle.coord_shards.specs.declared.fault.CallFault.TheVariants.{NoMemory};

    ghost from_gives = { λ _ e. e ≡ NoMemory };

    fn from(_error: AllocError) -> CallFault {
        CallFault::NoMemory
    }
}

impl<T: Drop> From<AllocFailed<T>> for CallFault {
    ghost use Rattle.coord_shards.specs.declared.fault.CallFault.TheVariants.{NoMemory};

    ghost from_gives = { λ _ e. e ≡ NoMemory };

    fn from(_error: AllocFailed<T>) -> CallFault {
        CallFault::NoMemory
    }
}
