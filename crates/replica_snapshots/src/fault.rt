//! Why bytes are no snapshot, or a state has no bytes.

ghost use Rattle.std.specs.Prelude.{◌≡◌};
ghost use Rattle.replica_snapshots.specs.declared.fault.SnapshotFault.TheVariants.{NoMemory};
ghost use Rattle.replica_snapshots.specs.Faults.{fault_number, fault_place};

use flex_wire::WireFault;
use std::alloc::{AllocError, AllocFailed};
use thiserror::Error;

/// Why bytes are no snapshot, or a state has no bytes. A place is the number of a byte, from 0.
#[derive(Clone, Copy, Debug, PartialEq, Eq, Error)]
pub enum SnapshotFault {
    /// The field at this place is cut, or no value of its type. Never the want of memory.
    #[error("byte {1}: {0}")]
    Wire(WireFault, usize),
    /// The field in front of this place has a value that nothing has there.
    #[error("byte {0}: a value that can't stand there")]
    BadValue(usize),
    /// What is read up to this place isn't part of any state that events lead to.
    #[error("byte {0}: not the state of a group")]
    Unsound(usize),
    /// The state is spelled otherwise from this place on, or before it.
    #[error("byte {0}: spelled otherwise")]
    Respelled(usize),
    /// A text has over 32,767 bytes, there is more of something than a count can say, a partition's index is outside 0 to 99,999,
    /// or metadata has over 4,096 bytes.
    #[error("too long for its field")]
    TooLong,
    /// A growth was refused.
    #[error("out of memory")]
    NoMemory,
}

impl SnapshotFault {
    /// The fault as a number: 1 to 6, in the order of the variants.
    pub fn number(self) -> u8
        ensures { result ≡ fault_number self }
    {
        match self {
            SnapshotFault::Wire(_, _) => 1,
            SnapshotFault::BadValue(_) => 2,
            SnapshotFault::Unsound(_) => 3,
            SnapshotFault::Respelled(_) => 4,
            SnapshotFault::TooLong => 5,
            SnapshotFault::NoMemory => 6,
        }
    }

    /// The place, where the fault is one of bytes.
    pub fn place(self) -> Option<usize>
        ensures { result ≡ fault_place self }
    {
        match self {
            SnapshotFault::Wire(_, place)
            | SnapshotFault::BadValue(place)
            | SnapshotFault::Unsound(place)
            | SnapshotFault::Respelled(place) => Some(place),
            SnapshotFault::TooLong | SnapshotFault::NoMemory => None,
        }
    }

    /// The same fault, where the bytes stand behind so many others.
    pub fn behind(self, bytes: usize) -> SnapshotFault
        ensures { fault_number result ≡ fault_number self }
    {
        match self {
            SnapshotFault::Wire(fault, place) => {
                SnapshotFault::Wire(fault, place.saturating_add(bytes))
            }
            SnapshotFault::BadValue(place) => SnapshotFault::BadValue(place.saturating_add(bytes)),
            SnapshotFault::Unsound(place) => SnapshotFault::Unsound(place.saturating_add(bytes)),
            SnapshotFault::Respelled(place) => {
                SnapshotFault::Respelled(place.saturating_add(bytes))
            }
            other => other,
        }
    }
}

impl From<AllocError> for SnapshotFault {
    ghost from_gives = { λ f e. e ≡ NoMemory };

    fn from(_: AllocError) -> SnapshotFault {
        SnapshotFault::NoMemory
    }
}

impl<T: Drop> From<AllocFailed<T>> for SnapshotFault {
    ghost from_gives = { λ f e. e ≡ NoMemory };

    fn from(_refused: AllocFailed<T>) -> SnapshotFault {
        SnapshotFault::NoMemory
    }
}
