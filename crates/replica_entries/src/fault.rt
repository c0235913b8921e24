//! Why bytes are no entry, or an entry has no bytes.

ghost use Rattle.std.specs.Prelude.{◌≡◌};
ghost use Rattle.replica_entries.specs.Faults.{fault_number, entry_fault};

use flex_wire::WireFault;
use thiserror::Error;

/// Why bytes are no entry, or an entry has no bytes.
#[derive(Clone, Copy, Debug, PartialEq, Eq, Error)]
pub enum EntryFault {
    /// A field is no value of its type. Never the want of memory.
    #[error("{0}")]
    Wire(WireFault),
    /// The version is none that is read.
    #[error("unknown version of an entry")]
    UnknownVersion,
    /// The version is known, and there is no such kind in it.
    #[error("unknown kind of an entry")]
    UnknownKind,
    /// A number is negative, or too great for its field.
    #[error("a number of an entry is negative or too great")]
    BadNumber,
    /// A body has fewer bytes than that of a frame, or more.
    #[error("the body of an entry has a length that no frame has")]
    BadBody,
    /// Bytes stand after the last field.
    #[error("bytes left after the entry")]
    LeftOver,
    /// A growth was refused.
    #[error("out of memory")]
    NoMemory,
}

impl EntryFault {
    /// The fault as a number: 1 to 7, in the order of the variants.
    pub fn number(self) -> u8
        ensures { result ≡ fault_number self }
    {
        match self {
            EntryFault::Wire(_) => 1,
            EntryFault::UnknownVersion => 2,
            EntryFault::UnknownKind => 3,
            EntryFault::BadNumber => 4,
            EntryFault::BadBody => 5,
            EntryFault::LeftOver => 6,
            EntryFault::NoMemory => 7,
        }
    }
}

impl From<WireFault> for EntryFault {
    ghost from_gives = { λ f e. e ≡ entry_fault f };

    fn from(fault: WireFault) -> EntryFault {
        match fault {
            WireFault::NoMemory => EntryFault::NoMemory,
            other => EntryFault::Wire(other),
        }
    }
}
