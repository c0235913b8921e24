//! Why a field could not be taken.

ghost use Rattle.std.specs.Prelude.{◌≡◌};
ghost use Rattle.flex_wire.specs.declared.fault.WireFault.TheVariants.{NoMemory};

use std::alloc::AllocFailed;
use thiserror::Error;

/// What is wrong with a field's bytes (protocol guide; KIP-482): the first fault from left to right.
///
/// - `Short`: the bytes end inside the field.
/// - `NotShortest`: a varint of several bytes ends in 00.
/// - `TooLong`: a varint is 2^32 or more, or a text has over `LONGEST_STRING` bytes.
/// - `NotUtf8`: a text isn't UTF-8.
/// - `TagOrder`: a tag isn't above the one before it.
/// - `BadCount`: a length or a count is null where null isn't allowed, or negative and not null.
/// - `BadMark`: a nullable struct's first byte is neither ff nor 01.
/// - `NoMemory`: memory ran out.
#[derive(Clone, Copy, Debug, PartialEq, Eq, Error)]
pub enum WireFault {
    #[error("the bytes end inside a field")]
    Short,
    #[error("a varint is longer than its number needs")]
    NotShortest,
    #[error("a varint or a text is too long")]
    TooLong,
    #[error("a text is not UTF-8")]
    NotUtf8,
    #[error("the tags do not rise")]
    TagOrder,
    #[error("a length or a count is one that its field can't have")]
    BadCount,
    #[error("a nullable struct begins with neither ff nor 01")]
    BadMark,
    #[error("out of memory")]
    NoMemory,
}

impl WireFault {
    ghost use Rattle.flex_wire.specs.Faults.{number_of};

    /// The fault's number, 1 to 8 in the order of the variants.
    pub fn number(self) -> u8
        ensures { result ≡ number_of self }
    {
        match self {
            WireFault::Short => 1,
            WireFault::NotShortest => 2,
            WireFault::TooLong => 3,
            WireFault::NotUtf8 => 4,
            WireFault::TagOrder => 5,
            WireFault::BadCount => 6,
            WireFault::BadMark => 7,
            WireFault::NoMemory => 8,
        }
    }
}

impl<T: Drop> From<AllocFailed<T>> for WireFault {
    ghost from_gives = { λ _ e. e ≡ NoMemory };

    fn from(_refused: AllocFailed<T>) -> WireFault {
        WireFault::NoMemory
    }
}
