//! Batches as a log keeps them.

ghost use Rattle.std.specs.Prelude.{◌≡◌, ℕ, ◌+◌, ◌*◌, ◌^◌, ◌≤◌, ◌<◌, ◌++◌, ◌∷◌, [], length, take, drop, pos, IfOk, OnOk, OnErr};
ghost use Rattle.std.specs.VecDeque.{deque_len, deque_capacity};
ghost use Rattle.topic_logs.specs.Format.{IsBatch, natural, record_count};
ghost use Rattle.topic_logs.specs.Log.{batch_of, batches_of, batch_at, stored, size_of, retained, served, joined, from_offset, at_moment, start_of, AreConsecutive};

use crate::batch::RecordBatch;
use std::alloc::{AllocError, Global};
use std::collections::VecDeque;

/// A batch that a log keeps.
#[derive(Drop)]
pub(crate) struct KeptBatch {
    /// The offset of the first record.
    pub(crate) first: u64,
    /// The offset after that of the last record.
    pub(crate) next: u64,
    /// The latest timestamp of a record.
    pub(crate) max_timestamp: i64,
    pub(crate) bytes: Vec<u8>,
}

/// The batch as a log keeps it, if its first record gets this offset.
pub(crate) fn kept_batch(
    alloc: Global,
    batch: &RecordBatch<'_>,
    first: u64,
    leader_epoch: i32,
) -> Result<KeptBatch, AllocError>
    requires { first + natural (record_count batch.now.bytes.now) < 2 ^ 63 }
    ensures batch { IfOk result (λ kept. batch_of kept ≡ batch_at first leader_epoch batch.now.bytes.now) }
    ensures first { IfOk result (λ kept. kept.first ≡ first) }
    ensures next { IfOk result (λ kept. kept.next ≡ first + natural (record_count batch.now.bytes.now)) }
    ensures some { IfOk result (λ kept. kept.first < kept.next) }
    ensures int64 { IfOk result (λ kept. kept.next < 2 ^ 63) }
{
    let bytes = stored_bytes(alloc, batch.bytes(), first, leader_epoch)?;
    Ok(KeptBatch {
        first,
        next: first + u64::from(batch.record_count()),
        max_timestamp: batch.max_timestamp(),
        bytes,
    })
}

/// The bytes with their offset, and the epoch of the leader that appends them.
#[tactic(auto, unfolding(crate::specs::Log::stored))]
fn stored_bytes(
    alloc: Global,
    bytes: &[u8],
    first: u64,
    leader_epoch: i32,
) -> Result<Vec<u8>, AllocError>
    requires { 61 ≤ length bytes.now }
    ensures { IfOk result (λ copy. copy.items ≡ stored first leader_epoch bytes.now) }
{
    let mut copy = Vec::with_capacity(alloc, bytes.len())?;
    let offset: [u8; 8] = first.to_be_bytes();
    copy.extend_from_slice(&offset)?;
    copy.extend_from_slice(&bytes[8..12])?;
    let epoch: [u8; 4] = leader_epoch.to_be_bytes();
    copy.extend_from_slice(&epoch)?;
    copy.extend_from_slice(&bytes[16..])?;
    Ok(copy)
}

/// Drops the oldest batches, as long as they have more bytes together than `retain` and there is another; gives the bytes
/// that stay.
pub(crate) fn drop_oldest(
    batches: &mut VecDeque<KeptBatch>,
    mut size: usize,
    retain: usize,
) -> usize
    requires { size ≡ size_of (batches_of batches.old.items) }
    ensures batches { batches_of batches.new.items ≡ retained retain (batches_of batches.old.items) }
    ensures size { result ≡ size_of (batches_of batches.new.items) }
{
    while size > retain && batches.len() > 1 {
        if let Some(oldest) = batches.pop_front() {
            size -= oldest.bytes.len();
        }
    }
    size
}

/// Puts a batch at the end, for which there is room, and drops the oldest ones; gives the bytes that stay.
pub(crate) fn push_retaining(
    batches: &mut VecDeque<KeptBatch>,
    kept: KeptBatch,
    size: usize,
    retain: usize,
) -> usize
    requires room { deque_len batches.old < deque_capacity batches.old }
    requires follows { AreConsecutive (batches_of batches.old.items) kept.first }
    requires some { kept.first < kept.next }
    requires size { size ≡ size_of (batches_of batches.old.items) + length kept.bytes.items }
    ensures batches { batches_of batches.new.items ≡ retained retain (batches_of batches.old.items ++ batch_of kept ∷ []) }
    ensures consecutive { AreConsecutive (batches_of batches.new.items) kept.next }
    ensures size { result ≡ size_of (batches_of batches.new.items) }
{
    batches.push_back_reserved(kept);
    drop_oldest(batches, size, retain)
}

/// The offset of the first record, or the end if there is none.
pub(crate) fn first_offset(batches: &VecDeque<KeptBatch>, end: u64) -> u64
    ensures { result ≡ start_of (batches_of batches.now.items) end }
{
    match batches.front() {
        Some(first) => first.first,
        None => end,
    }
}

/// Appends the bytes of the longest run of batches from the one at `from` on that has at most `room` bytes; of the first one
/// in any case if `whole`. If memory runs out, some of the bytes may be there.
pub(crate) fn append_run(
    out: &mut Vec<u8>,
    batches: &VecDeque<KeptBatch>,
    from: usize,
    mut whole: bool,
    mut room: usize,
) -> Result<(), AllocError>
    ensures ok { OnOk result (out.new.items ≡ out.old.items ++ joined (served whole room (batches_of (drop from batches.now.items)))) }
    ensures err { OnErr result (take (length out.old.items) out.new.items ≡ out.old.items) }
{
    for at in from..batches.len() {
        let bytes = &batches[at].bytes;
        if !whole && room < bytes.len() {
            return Ok(());
        }
        out.extend_from_slice(bytes.as_slice())?;
        room = room.saturating_sub(bytes.len());
        whole = false;
    }
    Ok(())
}

/// The place of the first batch that ends after the offset; their number if there is none.
pub(crate) fn first_after(batches: &VecDeque<KeptBatch>, offset: u64) -> usize
    requires { (end : ℕ) × AreConsecutive (batches_of batches.now.items) end }
    ensures { batches_of (drop result batches.now.items) ≡ from_offset offset (batches_of batches.now.items) }
{
    batches.partition_point(|batch| batch.next <= offset)
}

/// The first batch with a record at this moment or later.
pub(crate) fn first_at(batches: &VecDeque<KeptBatch>, moment: i64) -> Option<(i64, u64)>
    ensures { result ≡ at_moment moment (batches_of batches.now.items) }
{
    for at in 0..batches.len() {
        let batch = &batches[at];
        if moment <= batch.max_timestamp {
            return Some((batch.max_timestamp, batch.first));
        }
    }
    None
}
