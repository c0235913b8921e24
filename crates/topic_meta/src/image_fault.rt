//! Why a list of topics makes no image.

ghost use Rattle.std.specs.Prelude.{◌≡◌};
ghost use Rattle.topic_meta.specs.declared.image_fault.ImageFault.TheVariants.{NoMemory};

use std::alloc::AllocFailed;
use thiserror::Error;

/// Why a list of topics makes no image.
#[derive(Clone, Copy, Debug, PartialEq, Eq, Error)]
pub enum ImageFault {
    /// A topic has the name of an earlier one.
    #[error("two topics have one name")]
    DuplicateName,
    /// A topic has the id of an earlier one.
    #[error("two topics have one id")]
    DuplicateId,
    /// More than 10,000 topics, or more than 1,000,000 partitions.
    #[error("the image has more topics or partitions than it may")]
    TooMany,
    /// A topic has fewer than 1 partition, or more than 100,000.
    #[error("a topic has fewer than 1 partition or more than 100000")]
    BadCount,
    /// No memory was left.
    #[error("out of memory")]
    NoMemory,
}

impl ImageFault {
    ghost use Rattle.topic_meta.specs.Faults.{fault_number};

    /// The fault as a number: 1 to 5, in the order of the variants.
    pub fn number(self) -> u8
        ensures { result ≡ fault_number self }
    {
        match self {
            Self::DuplicateName => 1,
            Self::DuplicateId => 2,
            Self::TooMany => 3,
            Self::BadCount => 4,
            Self::NoMemory => 5,
        }
    }
}

impl<T: Drop> From<AllocFailed<T>> for ImageFault {
    ghost from_gives = { λ _ e. e ≡ NoMemory };

    fn from(_e: AllocFailed<T>) -> ImageFault {
        ImageFault::NoMemory
    }
}
