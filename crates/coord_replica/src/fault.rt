//! Why an entry is passed over, not applied or not proposed.

ghost use Rattle.std.specs.Prelude.{◌≡◌};
ghost use Rattle.coord_replica.specs.Applying.{is_passed_over};
ghost use Rattle.coord_replica.specs.Faults.{replica_fault_number};

use replica_entries::EntryFault;
use std::alloc::AllocError;
use thiserror::Error;
use topic_meta::ImageFault;

/// Why a replica passes an entry over, or applies or proposes none and is as it was.
#[derive(Clone, Copy, Debug, PartialEq, Eq, Error)]
pub enum ReplicaFault {
    /// A growth was refused; the call may be made again.
    #[error("out of memory")]
    NoMemory,
    /// The place is not the next one of the log.
    #[error("not the next place of the log")]
    OutOfPlace,
    /// The entry is of another leadership than the present one, or begins another than the next.
    #[error("an entry of another leadership")]
    OtherLeadership,
    /// The entry's moment is before the greatest of the log.
    #[error("the moment of the entry is before the log's")]
    EarlierMoment,
    /// The replica does not lead.
    #[error("this replica does not lead")]
    NotLeading,
    /// The bytes are no entry, or there are no bytes for it. Never the want of memory.
    #[error("{0}")]
    BadEntry(EntryFault),
    /// The topics make no image. Never the want of memory.
    #[error("{0}")]
    BadTopics(ImageFault),
}

impl ReplicaFault {
    /// The fault as a number: 1 to 5 in the order of the variants, 10 and the number of an entry's fault, or 20 and that of the topics'.
    pub fn number(self) -> u8
        ensures { result ≡ replica_fault_number self }
    {
        match self {
            ReplicaFault::NoMemory => 1,
            ReplicaFault::OutOfPlace => 2,
            ReplicaFault::OtherLeadership => 3,
            ReplicaFault::EarlierMoment => 4,
            ReplicaFault::NotLeading => 5,
            ReplicaFault::BadEntry(fault) => 10 + fault.number(),
            ReplicaFault::BadTopics(fault) => 20 + fault.number(),
        }
    }

    /// Whether an entry that is refused by it is passed over. One of an unknown version isn't: a later library takes it, and a replica that
    /// passed it over would have another state than those that take it.
    pub fn is_passed_over(self) -> bool
        ensures { result ≡ is_passed_over self }
    {
        match self {
            ReplicaFault::OtherLeadership
            | ReplicaFault::EarlierMoment
            | ReplicaFault::BadTopics(_) => true,
            ReplicaFault::BadEntry(EntryFault::UnknownVersion) => false,
            ReplicaFault::BadEntry(_) => true,
            ReplicaFault::NoMemory | ReplicaFault::OutOfPlace | ReplicaFault::NotLeading => false,
        }
    }
}

impl From<AllocError> for ReplicaFault {
    ghost use Rattle.coord_replica.specs.declared.fault.ReplicaFault.TheVariants.{NoMemory};

    ghost from_gives = { λ _ fault. fault ≡ NoMemory };

    fn from(_: AllocError) -> ReplicaFault {
        ReplicaFault::NoMemory
    }
}

impl From<EntryFault> for ReplicaFault {
    ghost use Rattle.coord_replica.specs.Faults.{fault_of_entry};

    ghost from_gives = { λ entry fault. fault ≡ fault_of_entry entry };

    fn from(fault: EntryFault) -> ReplicaFault {
        match fault {
            EntryFault::NoMemory => ReplicaFault::NoMemory,
            other => ReplicaFault::BadEntry(other),
        }
    }
}

impl From<ImageFault> for ReplicaFault {
    ghost use Rattle.coord_replica.specs.Faults.{fault_of_topics};

    ghost from_gives = { λ image fault. fault ≡ fault_of_topics image };

    fn from(fault: ImageFault) -> ReplicaFault {
        match fault {
            ImageFault::NoMemory => ReplicaFault::NoMemory,
            other => ReplicaFault::BadTopics(other),
        }
    }
}
