//! What a Fetch gives of one partition.

ghost use Rattle.std.specs.Prelude.{◌≡◌, ◌⊎◌, [], IfOk};
ghost use Rattle.broker_topics.specs.Fetches.{HasRecords, IsOutOfRange};

use broker_messages::{FetchReplyPartition, FetchRequestPartition};
use std::alloc::{AllocError, Global};
use topic_logs::{PartitionLog, ReadFault};

/// The error code of a partition that isn't there (Kafka protocol guide, "Error Codes").
pub(crate) const UNKNOWN_TOPIC_OR_PARTITION: i16 = 3;

/// That of an offset that isn't in the log.
pub(crate) const OFFSET_OUT_OF_RANGE: i16 = 1;

/// That of a client that knows a later leader epoch than there was.
pub(crate) const UNKNOWN_LEADER_EPOCH: i16 = 75;

/// How many bytes of records a reply has room for.
#[derive(Clone, Copy)]
pub(crate) struct Room {
    pub(crate) left: usize,
    /// No records stand in the reply yet, so that the first batch comes even if it is larger.
    pub(crate) is_first: bool,
}

impl Room {
    /// The room that is left after this number of bytes.
    pub(crate) fn after(self, bytes: usize) -> Room {
        Room {
            left: self.left.saturating_sub(bytes),
            is_first: self.is_first && bytes == 0,
        }
    }

    /// The room, and at most so much of it.
    pub(crate) fn at_most(self, bytes: i32) -> Room {
        let most = if bytes < 0 { 0 } else { bytes as usize };
        Room {
            left: self.left.min(most),
            is_first: self.is_first,
        }
    }
}

/// The answer for a partition without records, for this reason.
pub(crate) fn no_records(alloc: Global, partition: i32, error_code: i16) -> FetchReplyPartition
    ensures error { result.error_code ≡ error_code }
    ensures records { result.records.items ≡ [] }
{
    FetchReplyPartition {
        partition_index: partition,
        error_code,
        high_watermark: -1,
        last_stable_offset: -1,
        log_start_offset: -1,
        preferred_read_replica: -1,
        records: Vec::new(alloc),
    }
}

/// The answer for a partition: the batches of its log from the one that holds the offset on, as they were appended, as many as there is room
/// for. The error OFFSET_OUT_OF_RANGE (1) if the log has no such offset and doesn't end there.
pub(crate) fn fetched(
    alloc: Global,
    log: &PartitionLog,
    asked: &FetchRequestPartition,
    room: Room,
) -> Result<FetchReplyPartition, AllocError>
    ensures { IfOk result (λ reply. HasRecords log.now asked.now.fetch_offset room.is_first room.left reply
        ⊎ IsOutOfRange log.now asked.now.fetch_offset reply) }
{
    let partition = asked.partition;
    if asked.fetch_offset < 0 {
        return Ok(no_records(alloc, partition, OFFSET_OUT_OF_RANGE));
    }
    let mut records = Vec::new(alloc);
    let offset = asked.fetch_offset as u64;
    match log.read_from(offset, room.left, room.is_first, &mut records) {
        Ok(()) => {}
        Err(ReadFault::OutOfRange) => {
            return Ok(no_records(alloc, partition, OFFSET_OUT_OF_RANGE));
        }
        Err(ReadFault::NoMemory) => return Err(AllocError),
    }
    let end = log.end_offset() as i64;
    Ok(FetchReplyPartition {
        partition_index: partition,
        error_code: 0,
        high_watermark: end,
        last_stable_offset: end,
        log_start_offset: log.start_offset() as i64,
        preferred_read_replica: -1,
        records,
    })
}
