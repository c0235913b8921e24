//! A record batch as a producer sends it.

ghost use Rattle.std.specs.Prelude.{◌≡◌, ◌+◌, ◌*◌, ◌/◌, ◌%◌, ◌^◌, ◌<◌, ◌≤◌, ◌↔◌, ℕ, List, ◌++◌, length, IfOk, IsOkAnd, IsTrue, pos};
ghost use Rattle.topic_logs.specs.Format as format;
ghost use Rattle.topic_logs.specs.Format.{IsBatch, HasSize, HasCounts, natural};

use crate::checksum::crc32c;
use crate::fault::BatchFault;
use crate::field::{i16_at, i32_at, i64_at, u32_at};

/// The bytes of a batch that its length does not count.
const LENGTH_END: usize = 12;

/// The length of a batch whose records take no byte.
const SMALLEST_LENGTH: i32 = 49;

/// Where a batch says its version.
const MAGIC_AT: usize = 16;

/// Where the low byte of a batch's attributes stands.
const ATTRIBUTES_AT: usize = 22;

/// One whole record batch of version 2 (Kafka, "Message Format"), its checksum and its counts verified. What the records
/// hold is not looked at, and they may be compressed.
#[derive(Clone, Copy)]
pub struct RecordBatch<'a> {
    bytes: &'a [u8],
    ghost valid: { IsBatch bytes.now },
}

impl<'a> RecordBatch<'a> {
    /// Reads the batch that the bytes begin with, and gives what follows it.
    ///
    /// The version is looked at first, then the lengths, the checksum and the counts.
    pub fn read(bytes: &'a [u8]) -> Result<(RecordBatch<'a>, &'a [u8]), BatchFault>
        ensures found { IfOk result (λ x. bytes.now ≡ x.0.bytes.now ++ x.1.now) }
        ensures only { (batch rest : List ℕ) → IsBatch batch → bytes.now ≡ batch ++ rest → IsOkAnd result (λ x. x.0.bytes.now ≡ batch) }
    {
        if bytes.len() <= MAGIC_AT {
            return Err(BatchFault::Cut);
        }
        if bytes[MAGIC_AT] != 2 {
            return Err(BatchFault::WrongVersion);
        }
        let (batch, rest) = split_at_end(bytes)?;
        if u32_at(batch, 17) != crc32c(&batch[21..]) {
            return Err(BatchFault::WrongChecksum);
        }
        if !has_counts(batch) {
            return Err(BatchFault::WrongCount);
        }
        Ok((RecordBatch { bytes: batch }, rest))
    }

    /// The whole batch.
    pub fn bytes(&self) -> &'a [u8]
        ensures value { result.now ≡ self.now.bytes.now }
        ensures valid { IsBatch result.now }
    {
        self.bytes
    }

    pub fn base_offset(&self) -> i64
        ensures { result ≡ format.base_offset self.now.bytes.now }
    {
        i64_at(self.bytes, 0)
    }

    pub fn last_offset_delta(&self) -> i32
        ensures { result ≡ format.last_offset_delta self.now.bytes.now }
    {
        i32_at(self.bytes, 23)
    }

    /// The timestamp from which the records' differences count, in milliseconds since 1970.
    pub fn base_timestamp(&self) -> i64
        ensures { result ≡ format.base_timestamp self.now.bytes.now }
    {
        i64_at(self.bytes, 27)
    }

    /// The latest timestamp of a record, in milliseconds since 1970; -1 if the records have none.
    pub fn max_timestamp(&self) -> i64
        ensures { result ≡ format.max_timestamp self.now.bytes.now }
    {
        i64_at(self.bytes, 35)
    }

    /// The producer's id; negative if it is not idempotent.
    pub fn producer_id(&self) -> i64
        ensures { result ≡ format.producer_id self.now.bytes.now }
    {
        i64_at(self.bytes, 43)
    }

    pub fn producer_epoch(&self) -> i16
        ensures { result ≡ format.producer_epoch self.now.bytes.now }
    {
        i16_at(self.bytes, 51)
    }

    /// The sequence number of the first record.
    pub fn base_sequence(&self) -> i32
        ensures { result ≡ format.base_sequence self.now.bytes.now }
    {
        i32_at(self.bytes, 53)
    }

    /// How many records there are: one at least.
    pub fn record_count(&self) -> u32
        ensures value { pos result ≡ format.record_count self.now.bytes.now }
        ensures some { 1 ≤ result }
        ensures most { result < 2 ^ 31 }
    {
        i32_at(self.bytes, 57) as u32
    }

    /// The compression of the records: 0 none, 1 gzip, 2 snappy, 3 lz4, 4 zstd; 5 to 7 are unknown.
    pub fn compression(&self) -> u8
        ensures { result ≡ format.attributes self.now.bytes.now % 8 }
    {
        self.bytes[ATTRIBUTES_AT] % 8
    }

    pub fn is_transactional(&self) -> bool
        ensures { IsTrue result ↔ format.IsTransactional self.now.bytes.now }
    {
        self.bytes[ATTRIBUTES_AT] / 16 % 2 == 1
    }

    pub fn is_control(&self) -> bool
        ensures { IsTrue result ↔ format.IsControl self.now.bytes.now }
    {
        self.bytes[ATTRIBUTES_AT] / 32 % 2 == 1
    }
}

/// The first batch, by the length that it gives, and the bytes after it.
fn split_at_end(bytes: &[u8]) -> Result<(&[u8], &[u8]), BatchFault>
    ensures parts { IfOk result (λ x. bytes.now ≡ x.0.now ++ x.1.now) }
    ensures size { IfOk result (λ x. HasSize x.0.now) }
    ensures only { (batch rest : List ℕ) → HasSize batch → bytes.now ≡ batch ++ rest → IsOkAnd result (λ x. x.0.now ≡ batch) }
    ensures version { IfOk result (λ x. format.magic x.0.now ≡ format.magic bytes.now) }
{
    if bytes.len() < LENGTH_END {
        return Err(BatchFault::Cut);
    }
    let length = i32_at(bytes, 8);
    if length < SMALLEST_LENGTH {
        return Err(BatchFault::WrongLength);
    }
    let size = LENGTH_END + length as usize;
    if bytes.len() < size {
        return Err(BatchFault::Cut);
    }
    Ok(bytes.split_at(size))
}

/// Whether the batch has a record, and as many as its offsets say.
fn has_counts(bytes: &[u8]) -> bool
    requires { 61 ≤ length bytes.now }
    ensures { IsTrue result ↔ HasCounts bytes.now }
{
    let count = i32_at(bytes, 57);
    count >= 1 && i32_at(bytes, 23) == count - 1
}
