//! Batches of records that no producer sent: the value of each is `topic/partition/offset`.

ghost use Rattle.std.specs.Prelude.{◌≤◌, ◌<◌, length};

use crate::checksum::crc32c;
use std::alloc::{AllocError, Global};

/// An uncompressed batch of records without keys at successive offsets, of no producer, one for each timestamp in
/// milliseconds since 1970. The value of a record is `topic/partition/offset`.
///
/// Tested against batches of an independent program.
pub fn generated_batch(
    alloc: Global,
    topic: &str,
    partition: i32,
    first_offset: u64,
    timestamps: &[i64],
) -> Result<Vec<u8>, AllocError>
    requires some { 1 ≤ length timestamps.now }
    requires most { length timestamps.now ≤ 200 }
{
    let records = records_of(alloc, topic, partition, first_offset, timestamps)?;
    let covered = covered_of(alloc, timestamps, records.as_slice())?;
    let Ok(length) = u32::try_from(covered.len().saturating_add(9)) else {
        return Err(AllocError);
    };
    let mut batch = Vec::with_capacity(alloc, covered.len().saturating_add(21))?;
    batch.extend_from_slice(&first_offset.to_be_bytes())?;
    batch.extend_from_slice(&length.to_be_bytes())?;
    // the leader's epoch and the version
    batch.extend_from_slice(&[0, 0, 0, 0, 2])?;
    batch.extend_from_slice(&crc32c(covered.as_slice()).to_be_bytes())?;
    batch.extend_from_slice(covered.as_slice())?;
    Ok(batch)
}

/// What the checksum covers: the rest of the header, and the records.
fn covered_of(alloc: Global, timestamps: &[i64], records: &[u8]) -> Result<Vec<u8>, AllocError>
    requires some { 1 ≤ length timestamps.now }
    requires most { length timestamps.now ≤ 200 }
{
    let count = timestamps.len() as u32;
    let first = timestamps[0];
    let mut latest = first;
    for timestamp in timestamps {
        latest = latest.max(*timestamp);
    }
    let mut covered = Vec::with_capacity(alloc, records.len().saturating_add(40))?;
    // the attributes
    covered.extend_from_slice(&[0, 0])?;
    covered.extend_from_slice(&(count - 1).to_be_bytes())?;
    covered.extend_from_slice(&first.to_be_bytes())?;
    covered.extend_from_slice(&latest.to_be_bytes())?;
    // no producer's id, epoch and sequence number
    covered.extend_from_slice(&[0xff; 14])?;
    covered.extend_from_slice(&count.to_be_bytes())?;
    covered.extend_from_slice(records)?;
    Ok(covered)
}

fn records_of(
    alloc: Global,
    topic: &str,
    partition: i32,
    first_offset: u64,
    timestamps: &[i64],
) -> Result<Vec<u8>, AllocError>
    requires some { 1 ≤ length timestamps.now }
    requires most { length timestamps.now ≤ 200 }
{
    let first = timestamps[0];
    let mut records = Vec::new(alloc);
    for (i, timestamp) in timestamps.iter().enumerate() {
        let offset = first_offset.wrapping_add(i as u64);
        let value = format!(in alloc; "{topic}/{partition}/{offset}")?;
        let fields = fields_of(
            alloc,
            timestamp.wrapping_sub(first),
            i as u32,
            value.as_bytes(),
        )?;
        put_varint(&mut records, fields.len() as i64)?;
        records.extend_from_slice(fields.as_slice())?;
    }
    Ok(records)
}

/// A record without its length.
fn fields_of(
    alloc: Global,
    timestamp_delta: i64,
    offset_delta: u32,
    value: &[u8],
) -> Result<Vec<u8>, AllocError> {
    let mut fields = Vec::with_capacity(alloc, value.len().saturating_add(20))?;
    // the attributes
    fields.push(0)?;
    put_varint(&mut fields, timestamp_delta)?;
    put_varint(&mut fields, i64::from(offset_delta))?;
    // no key
    put_varint(&mut fields, -1)?;
    put_varint(&mut fields, value.len() as i64)?;
    fields.extend_from_slice(value)?;
    // no headers
    put_varint(&mut fields, 0)?;
    Ok(fields)
}

/// Appends a number as protocol buffers do: in zigzag, seven bits a byte, the lowest first.
fn put_varint(out: &mut Vec<u8>, number: i64) -> Result<(), AllocError> {
    let mut left = zigzag(number);
    while left >= 128 {
        out.push((left % 128) as u8 + 128)?;
        left /= 128;
    }
    out.push(left as u8)?;
    Ok(())
}

/// Twice the number, or one less than twice the number's opposite if it is negative.
fn zigzag(number: i64) -> u64 {
    if number < 0 {
        (-1 - number) as u64 * 2 + 1
    } else {
        number as u64 * 2
    }
}
