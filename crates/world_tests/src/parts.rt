//! Partitions as words: `U/INDEX` is of the topic whose id is sixteen bytes 0x11, and `V/INDEX` of the one of sixteen bytes 0x22.

use member_core::{PartSet, Partition};
use std::alloc::AllocError;
use uuid::Uuid;

/// More partitions than this aren't told one by one.
const MOST: usize = 10;

/// The id of the topic `U`.
pub fn first_topic() -> Uuid {
    Uuid::from_bytes([0x11; 16])
}

/// The id of the topic `V`.
pub fn second_topic() -> Uuid {
    Uuid::from_bytes([0x22; 16])
}

/// Appends a set: its entries, rising and parted by commas, or `-` where there are none. Of a large set the first is told, and how
/// many there are.
pub fn tell_parts(set: &PartSet, out: &mut String) -> Result<(), AllocError> {
    if set.is_empty() {
        return out.push('-');
    }
    for (place, part) in set.iter().enumerate() {
        if place >= 1 && set.len() > MOST {
            return write!(out, ".. {}", set.len());
        }
        if place >= 1 {
            out.push(',')?;
        }
        tell_part(part, out)?;
    }
    Ok(())
}

/// Appends one partition.
fn tell_part(part: &Partition, out: &mut String) -> Result<(), AllocError> {
    let topic = if part.topic == first_topic() {
        'U'
    } else {
        'V'
    };
    write!(out, "{topic}/{}", part.index)
}
