//! What lies under the lock of a partition.

ghost use Rattle.std.specs.Prelude.{◌≡◌};
ghost use Rattle.topic_logs.specs.Append.{IsProducible};
ghost use Rattle.broker_topics.specs.Produces.{Produces};

use crate::produce::refused;
use broker_messages::ProduceReplyPartition;
use std::alloc::Global;
use topic_logs::{AppendFault, PartitionLog, RecordBatch};

/// The epoch of the one leader that there ever is.
pub(crate) const LEADER_EPOCH: i32 = 0;

/// The greatest offset that an INT64 can say.
const GREATEST_OFFSET: u64 = 0x7fff_ffff_ffff_ffff;

/// A partition: its log, and who waits for it.
#[derive(Drop)]
pub(crate) struct Partition {
    pub(crate) log: PartitionLog,
    /// The workers that hold fetches of it, a bit for each.
    pub(crate) waiting: u64,
    /// How many bytes have been appended to it.
    pub(crate) appended: u64,
}

impl Partition {
    /// Appends a batch to the log, and gives the answer for the partition.
    pub(crate) fn produce(
        &mut self,
        alloc: Global,
        index: i32,
        batch: &RecordBatch<'_>,
        retain: usize,
    ) -> ProduceReplyPartition<'static>
        requires { IsProducible batch.now.bytes.now }
        ensures { Produces self.old.log self.new.log batch.now.bytes.now retain result }
    {
        let end = self.log.end_offset();
        let appended = match self.log.append_batch(batch, LEADER_EPOCH, retain) {
            Ok(appended) => appended,
            Err(fault) => return refused(alloc, index, fault.code()),
        };
        if appended.base_offset > GREATEST_OFFSET {
            return refused(alloc, index, AppendFault::NoMemory.code());
        }
        let (start, new_end) = (self.log.start_offset(), self.log.end_offset());
        let bytes = bytes_if(end < new_end, batch.bytes());
        self.appended = self.appended.saturating_add(bytes);
        ProduceReplyPartition {
            index,
            error_code: 0,
            base_offset: appended.base_offset as i64,
            log_append_time_ms: -1,
            log_start_offset: start as i64,
            record_errors: Vec::new(alloc),
            error_message: None,
        }
    }

    /// The workers that hold fetches of the partition, which wait for it no longer.
    pub(crate) fn take_waiting(&mut self) -> u64
        ensures { self.new.log ≡ self.old.log }
    {
        let waiting = self.waiting;
        self.waiting = 0;
        waiting
    }
}

/// How many bytes of a batch were stored.
fn bytes_if(is_stored: bool, batch: &[u8]) -> u64 {
    if is_stored { batch.len() as u64 } else { 0 }
}
