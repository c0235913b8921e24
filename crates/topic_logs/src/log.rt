//! The log of a partition.

ghost use Rattle.std.specs.Prelude.{◌≡◌, ◌≢◌, ◌⊎◌, ◌↔◌, ℕ, ℤ, pos, ◌+◌, ◌^◌, ◌≤◌, ◌<◌, List, [], ◌∷◌, ◌++◌, length, Option, Some, None, IfOk, IfErr, OnOk, OnErr, IsErrOf};
ghost use Rattle.topic_logs.specs.Log as specified;
ghost use Rattle.topic_logs.specs.Log.{Log, from_offset, served, joined, size_of, at_moment};
ghost use Rattle.topic_logs.specs.Format.{natural, record_count};
ghost use Rattle.topic_logs.specs.Append.{Accepts, Refuses, Appends, IsProducible, IsShortage};

use crate::batch::RecordBatch;
use crate::fault::{AppendFault, ReadFault};
use crate::kept::{
    KeptBatch, append_run, first_after, first_at, first_offset, kept_batch, push_retaining,
};
use crate::produce::{producible, remember_if, sequence_of, standing_with};
use crate::sequence::{Sent, Sequence, Standing};
use std::alloc::Global;
use std::collections::VecDeque;
use std::marker::Model;

/// The greatest offset that an INT64 can say.
const GREATEST_OFFSET: u64 = 0x7fff_ffff_ffff_ffff;

/// The record batches of a partition that are kept, in the order of their offsets.
///
/// An empty log takes no memory besides the struct. A partition with no log is as one whose log is new.
#[derive(Drop)]
pub struct PartitionLog {
    batches: VecDeque<KeptBatch>,
    end: u64,
    size: usize,
    sent: Vec<Sent>,
}

/// What appending gives.
#[derive(Clone, Copy, Debug, PartialEq, Eq)]
pub struct Appended {
    /// The offset that the batch's first record got, now or when the batch came the first time.
    pub base_offset: u64,
    /// The first offset of the log from now on.
    pub log_start_offset: u64,
}

impl Model for PartitionLog {
    ghost use Rattle.std.specs.Prelude.{◌≡◌, ◌<◌, ◌^◌, ◌≤◌, length};
    ghost use Rattle.topic_logs.specs.Log.{Log, batches_of, IsKept};

    ghost Value = { Log };

    ghost view = { λ l. record { batches = batches_of l.batches.items; end = l.end; sent = l.sent.items } };

    ghost invariant = { λ l. IsKept (batches_of l.batches.items) l.end l.size × (length l.sent.items ≤ 5000) };
}

impl PartitionLog {
    /// An empty log. Takes no memory.
    pub fn new(alloc: Global) -> PartitionLog
        ensures batches { result.batches ≡ [] }
        ensures end { result.end ≡ 0 }
        ensures sent { result.sent ≡ [] }
    {
        PartitionLog {
            batches: VecDeque::new(alloc),
            end: 0,
            size: 0,
            sent: Vec::new(alloc),
        }
    }

    /// The offset of the first record that is kept, or the end if there is none.
    pub fn start_offset(&self) -> u64
        ensures value { result ≡ specified.start_offset self.now }
        ensures before_end { result ≤ self.now.end }
    {
        let start = first_offset(&self.batches, self.end);
        start
    }

    /// The offset that the next record gets. It is an INT64 too.
    pub fn end_offset(&self) -> u64
        ensures value { result ≡ self.now.end }
        ensures int64 { result < 2 ^ 63 }
    {
        self.end
    }

    /// How many batches are kept.
    pub fn batch_count(&self) -> usize
        ensures { result ≡ length self.now.batches }
    {
        self.batches.len()
    }

    /// How many bytes the kept batches have.
    pub fn bytes(&self) -> usize
        ensures { result ≡ size_of self.now.batches }
    {
        self.size
    }

    /// Appends the batch of a producer, as [`PartitionLog::append_batch`] does, if the records are one that it may send
    /// ([`producible`]). On a fault nothing changes.
    pub fn append(
        &mut self,
        records: &[u8],
        leader_epoch: i32,
        retain: usize,
    ) -> Result<Appended, AppendFault>
        ensures ok { IfOk result (λ a. Accepts self.old self.new records.now leader_epoch retain a) }
        ensures refused { IfErr result (λ fault. Refuses fault self.old records.now) }
        ensures err { OnErr result (self.new ≡ self.old) }
    {
        match producible(records) {
            Ok(batch) => self.append_batch(&batch, leader_epoch, retain),
            Err(fault) => Err(AppendFault::Batch(fault)),
        }
    }

    /// Appends a batch that a producer may send, which takes the next offsets, as a leader of this epoch. The oldest batches go
    /// if there are more than `retain` bytes; the new one stays.
    ///
    /// The checksum isn't computed again. A batch of an idempotent producer that it repeats (KIP-98) gets its offset again and
    /// is not stored. On a fault nothing changes.
    pub fn append_batch(
        &mut self,
        batch: &RecordBatch<'_>,
        leader_epoch: i32,
        retain: usize,
    ) -> Result<Appended, AppendFault>
        requires { IsProducible batch.now.bytes.now }
        ensures ok { IfOk result (λ a. Accepts self.old self.new batch.now.bytes.now leader_epoch retain a) }
        ensures refused { IfErr result (λ fault. Refuses fault self.old batch.now.bytes.now) }
        ensures err { OnErr result (self.new ≡ self.old) }
    {
        let sequence = sequence_of(batch);
        match standing_with(&self.sent, &sequence) {
            Standing::New => self.append_new(batch, &sequence, leader_epoch, retain),
            Standing::Repeated(base_offset) => Ok(Appended {
                base_offset,
                log_start_offset: self.start_offset(),
            }),
            Standing::OutOfOrder => Err(AppendFault::OutOfOrder),
            Standing::OldEpoch => Err(AppendFault::OldEpoch),
        }
    }

    fn append_new(
        &mut self,
        batch: &RecordBatch<'_>,
        sequence: &Option<Sequence>,
        leader_epoch: i32,
        retain: usize,
    ) -> Result<Appended, AppendFault>
        ensures ok { IfOk result (λ a. Appends self.old self.new batch.now.bytes.now sequence.now leader_epoch retain a) }
        ensures full { result ≡ Err AppendFault.NoOffsets → 2 ^ 63 ≤ self.old.end + natural (record_count batch.now.bytes.now) }
        ensures fault { IfErr result IsShortage }
        ensures err { OnErr result (self.new ≡ self.old) }
    {
        let base_offset = self.end;
        if u64::from(batch.record_count()) > GREATEST_OFFSET - base_offset {
            return Err(AppendFault::NoOffsets);
        }
        let kept = kept_batch(*self.batches.allocator(), batch, base_offset, leader_epoch)?;
        let end = kept.next;
        let Some(size) = self.size.checked_add(kept.bytes.len()) else {
            return Err(AppendFault::NoMemory);
        };
        self.batches.reserve(1)?;
        remember_if(&mut self.sent, sequence, base_offset)?;
        self.size = push_retaining(&mut self.batches, kept, size, retain);
        self.end = end;
        Ok(Appended {
            base_offset,
            log_start_offset: first_offset(&self.batches, end),
        })
    }

    /// Appends to `out` whole batches in their order, from the one that holds the offset on: as many as have at most
    /// `max_bytes` together, and the first one in any case if `at_least_one`. At the log's end there are none.
    ///
    /// On a fault `out` is as before. Takes time in proportion to the logarithm of the number of batches, and to what is read.
    pub fn read_from(
        &self,
        offset: u64,
        max_bytes: usize,
        at_least_one: bool,
        out: &mut Vec<u8>,
    ) -> Result<(), ReadFault>
        ensures ok { OnOk result (out.new.items ≡ out.old.items ++ joined (served at_least_one max_bytes (from_offset offset self.now.batches))) }
        ensures range { IsErrOf result ReadFault.OutOfRange ↔ ((offset < specified.start_offset self.now) ⊎ (self.now.end < offset)) }
        ensures err { OnErr result (out.new.items ≡ out.old.items) }
    {
        if offset < self.start_offset() || self.end < offset {
            return Err(ReadFault::OutOfRange);
        }
        let from = first_after(&self.batches, offset);
        let before = out.len();
        match append_run(out, &self.batches, from, at_least_one, max_bytes) {
            Ok(()) => Ok(()),
            Err(_) => {
                out.truncate(before);
                Err(ReadFault::NoMemory)
            }
        }
    }

    /// The first batch with a record at this moment or later, in milliseconds since 1970: its latest timestamp, and the offset
    /// of its first record. Takes time in proportion to the number of batches.
    pub fn offset_of_timestamp(&self, timestamp: i64) -> Option<(i64, u64)>
        ensures { result ≡ at_moment timestamp self.now.batches }
    {
        first_at(&self.batches, timestamp)
    }
}
