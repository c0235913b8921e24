//! Why records are not appended, or not read.

ghost use Rattle.std.specs.Prelude.{◌≡◌};
ghost use Rattle.topic_logs.specs.declared.fault.AppendFault.TheVariants.{NoMemory};

use std::alloc::AllocError;
use thiserror::Error;

/// Why bytes are not one record batch that a producer may send.
#[derive(Clone, Copy, Debug, PartialEq, Eq, Error)]
pub enum BatchFault {
    /// The bytes end before the batch does.
    #[error("the record batch is cut")]
    Cut,
    /// The format is an older or a newer one than version 2.
    #[error("the record batch is not of version 2")]
    WrongVersion,
    /// The length is less than that of a batch's header.
    #[error("the record batch has a wrong length")]
    WrongLength,
    /// The checksum is not that of the bytes.
    #[error("the record batch has a wrong checksum")]
    WrongChecksum,
    /// There is no record, or a number of them that the offsets contradict.
    #[error("the record batch has a wrong number of records")]
    WrongCount,
    /// Bytes follow the batch.
    #[error("there is more than one record batch")]
    LeftOver,
    /// The batch is a control batch, which a producer may not send.
    #[error("the record batch is a control batch")]
    Control,
    /// The producer has an id, and its epoch or its sequence number is negative.
    #[error("the producer's epoch or sequence number is negative")]
    NoSequence,
}

impl BatchFault {
    ghost use Rattle.topic_logs.specs.Codes.{code_of_batch};

    /// Kafka's error code: CORRUPT_MESSAGE (2), or INVALID_RECORD (87).
    pub fn code(self) -> i16
        ensures { result ≡ code_of_batch self }
    {
        match self {
            BatchFault::Cut | BatchFault::WrongLength | BatchFault::WrongChecksum => 2,
            BatchFault::WrongVersion
            | BatchFault::WrongCount
            | BatchFault::LeftOver
            | BatchFault::Control
            | BatchFault::NoSequence => 87,
        }
    }
}

/// Why records are not appended.
#[derive(Clone, Copy, Debug, PartialEq, Eq, Error)]
pub enum AppendFault {
    /// The records are not one batch that a producer may send.
    #[error("{0}")]
    Batch(BatchFault),
    /// The sequence number does not follow that of the producer's last batch.
    #[error("the sequence number does not follow the last one")]
    OutOfOrder,
    /// The producer has sent under a later epoch.
    #[error("the producer's epoch is an old one")]
    OldEpoch,
    /// The log's offsets would pass the greatest INT64.
    #[error("the log's offsets are used up")]
    NoOffsets,
    /// Memory ran out.
    #[error("out of memory")]
    NoMemory,
}

impl AppendFault {
    ghost use Rattle.topic_logs.specs.Codes.{code_of};

    /// Kafka's error code: that of the batch's fault, OUT_OF_ORDER_SEQUENCE_NUMBER (45), INVALID_PRODUCER_EPOCH (47), or
    /// KAFKA_STORAGE_ERROR (56) if the log has no room.
    pub fn code(self) -> i16
        ensures { result ≡ code_of self }
    {
        match self {
            AppendFault::Batch(fault) => fault.code(),
            AppendFault::OutOfOrder => 45,
            AppendFault::OldEpoch => 47,
            AppendFault::NoOffsets | AppendFault::NoMemory => 56,
        }
    }
}

impl From<AllocError> for AppendFault {
    ghost from_gives = { λ _ e. e ≡ NoMemory };

    fn from(_error: AllocError) -> AppendFault {
        AppendFault::NoMemory
    }
}

/// Why no records are read.
#[derive(Clone, Copy, Debug, PartialEq, Eq, Error)]
pub enum ReadFault {
    /// The offset is before the log's start or after its end: OFFSET_OUT_OF_RANGE (1).
    #[error("the offset is out of the log's range")]
    OutOfRange,
    /// Memory ran out.
    #[error("out of memory")]
    NoMemory,
}
