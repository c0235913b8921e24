//! The fields of a snapshot, written at the end of a `Vec`. What is too long for its field is refused.

ghost use Rattle.std.specs.Prelude.{◌≡◌, [], ◌∷◌, true, false, All, FitsSigned, IfSome};
ghost use Rattle.std.specs.Int.{w32, w64};
ghost use Rattle.std.specs.List.{flat_map};
ghost use Rattle.std.specs.Option.{option_copied};
ghost use Rattle.flex_wire.specs.Spelling.{array_count, compact_string, int32, int64, mark, uuid, FitsCount, FitsText, FitsUuid};
ghost use Rattle.kip_msgs.specs.Spelling.{fields};
ghost use Rattle.group_types.specs.Limits.{MOST_TOPIC_PARTITIONS as MOST};
ghost use Rattle.group_types.specs.Owners.{is_index};
ghost use Rattle.group_types.specs.Sets.{in_order};
ghost use Rattle.replica_snapshots.specs.Spelling.{number64, FitsNumber, FitsMillis, FitsIndex, epoch_field, FitsEpoch, optional, stamp_fields, FitsStamp, partition_fields, FitsPartition, partitions_field, FitsPartitions, names_field, FitsNames};
ghost use Rattle.replica_snapshots.specs.Writing.{PutsUpTo};

use crate::fault::SnapshotFault;
use flex_wire::{LONGEST_STRING, put_count, put_i32, put_i64};
use group_types::limits::MOST_TOPIC_PARTITIONS;
use group_types::{EpochNumber, Moment, NameSet, PartSet, Partition, Stamp};
use uuid::Uuid;

/// An unsigned number of 64 bits.
#[tactic(auto, unfolding(crate::specs::Spelling::number64))]
#[inline(always)]
pub fn put_number(out: &mut Vec<u8>, number: u64) -> Result<(), SnapshotFault>
    ensures { PutsUpTo result out.old.items out.new.items (FitsNumber number) (number64 number) }
{
    let bytes: [u8; 8] = number.to_be_bytes();
    out.extend_from_slice(&bytes)?;
    Ok(())
}

/// The number of an epoch.
#[inline(always)]
pub fn put_epoch(out: &mut Vec<u8>, epoch: EpochNumber) -> Result<(), SnapshotFault>
    ensures { PutsUpTo result out.old.items out.new.items (FitsEpoch epoch) (epoch_field epoch) }
{
    let _ = epoch.as_u32();
    put_i32(out, epoch.as_i32())?;
    Ok(())
}

/// An INT32.
#[inline(always)]
pub fn put_int32(out: &mut Vec<u8>, number: i32) -> Result<(), SnapshotFault>
    ensures { PutsUpTo result out.old.items out.new.items (FitsSigned w32 number) (int32 number) }
{
    put_i32(out, number)?;
    Ok(())
}

/// Whether a partition of a topic can have the index.
#[inline(always)]
pub fn is_index(index: i32) -> bool
    ensures { result ≡ is_index index MOST }
{
    0 <= index && index < MOST_TOPIC_PARTITIONS as i32
}

/// An index that a partition of a topic can have.
#[inline(always)]
pub fn put_index(out: &mut Vec<u8>, index: i32) -> Result<(), SnapshotFault>
    ensures { PutsUpTo result out.old.items out.new.items (FitsIndex index) (int32 index) }
{
    if !is_index(index) {
        return Err(SnapshotFault::TooLong);
    }
    put_int32(out, index)
}

/// An INT64.
#[inline(always)]
pub fn put_int64(out: &mut Vec<u8>, number: i64) -> Result<(), SnapshotFault>
    ensures { PutsUpTo result out.old.items out.new.items (FitsSigned w64 number) (int64 number) }
{
    put_i64(out, number)?;
    Ok(())
}

/// A number of milliseconds.
#[inline(always)]
pub fn put_millis(out: &mut Vec<u8>, millis: u32) -> Result<(), SnapshotFault>
    ensures { PutsUpTo result out.old.items out.new.items (FitsMillis millis) (number64 millis) }
{
    put_number(out, u64::from(millis))
}

/// A UUID.
#[inline(always)]
pub fn put_id(out: &mut Vec<u8>, id: &Uuid) -> Result<(), SnapshotFault>
    ensures { PutsUpTo result out.old.items out.new.items (FitsUuid id.now) (uuid id.now) }
{
    out.extend_from_slice(id.as_bytes())?;
    Ok(())
}

/// A text.
#[inline(always)]
pub fn put_text(out: &mut Vec<u8>, text: &str) -> Result<(), SnapshotFault>
    ensures { PutsUpTo result out.old.items out.new.items (FitsText text.now) (compact_string text.now) }
{
    if LONGEST_STRING < text.len() {
        return Err(SnapshotFault::TooLong);
    }
    put_size(out, text.len())?;
    out.extend_from_slice(text.as_bytes())?;
    Ok(())
}

/// The number of elements that an array begins with.
#[inline(always)]
pub fn put_size(out: &mut Vec<u8>, size: usize) -> Result<(), SnapshotFault>
    ensures { PutsUpTo result out.old.items out.new.items (FitsCount size) (array_count size) }
{
    if size < 0x7f {
        out.push(size as u8 + 1)?;
        return Ok(());
    }
    put_long_size(out, size)
}

fn put_long_size(out: &mut Vec<u8>, size: usize) -> Result<(), SnapshotFault>
    ensures { PutsUpTo result out.old.items out.new.items (FitsCount size) (array_count size) }
{
    if 0xffff_ffff <= size {
        return Err(SnapshotFault::TooLong);
    }
    put_count(out, size as u32)?;
    Ok(())
}

#[tactic(auto, unfolding(crate::specs::Spelling::stamp_fields))]
#[inline(always)]
pub fn put_stamp(out: &mut Vec<u8>, stamp: Stamp) -> Result<(), SnapshotFault>
    ensures { PutsUpTo result out.old.items out.new.items (FitsStamp stamp) (stamp_fields stamp) }
{
    put_number(out, stamp.connection)?;
    put_number(out, stamp.frame)
}

/// The fields of a partition.
#[inline(always)]
pub fn partition_bytes(topic: &Uuid, index: i32) -> [u8; 20]
    ensures bytes { result ≡ fields (uuid topic.now ∷ int32 index ∷ []) }
    ensures fits { FitsUuid topic.now }
{
    let mut bytes = [0; 20];
    bytes[..16].copy_from_slice(topic.as_bytes());
    bytes[16..].copy_from_slice(&index.to_be_bytes());
    bytes
}

#[tactic(auto, unfolding(crate::specs::Spelling::partition_fields))]
#[inline(always)]
pub fn put_partition(out: &mut Vec<u8>, p: &Partition) -> Result<(), SnapshotFault>
    ensures { PutsUpTo result out.old.items out.new.items (FitsPartition p.now) (partition_fields p.now) }
{
    if !is_index(p.index) {
        return Err(SnapshotFault::TooLong);
    }
    out.extend_from_slice(&partition_bytes(&p.topic, p.index))?;
    Ok(())
}

/// A set of partitions, rising.
#[inline(always)]
pub fn put_partitions(out: &mut Vec<u8>, set: &PartSet) -> Result<(), SnapshotFault>
    ensures { PutsUpTo result out.old.items out.new.items (FitsPartitions set.now) (partitions_field set.now) }
{
    put_size(out, set.len())?;
    put_each_partition(out, set)
}

#[inline(always)]
fn put_each_partition(out: &mut Vec<u8>, set: &PartSet) -> Result<(), SnapshotFault>
    ensures { PutsUpTo result out.old.items out.new.items (All FitsPartition (in_order set.now)) (flat_map partition_fields (in_order set.now)) }
{
    for p in set.iter() {
        put_partition(out, p)?;
    }
    Ok(())
}

/// A set of names, rising.
pub fn put_names(out: &mut Vec<u8>, names: &NameSet) -> Result<(), SnapshotFault>
    ensures { PutsUpTo result out.old.items out.new.items (FitsNames names.now) (names_field names.now) }
{
    put_size(out, names.len())?;
    put_each_name(out, names)
}

fn put_each_name(out: &mut Vec<u8>, names: &NameSet) -> Result<(), SnapshotFault>
    ensures { PutsUpTo result out.old.items out.new.items (All FitsText (in_order names.now)) (flat_map compact_string (in_order names.now)) }
{
    for name in names.iter() {
        put_text(out, name.as_str())?;
    }
    Ok(())
}

// ---- what may be missing

#[inline(always)]
pub fn put_optional_text(out: &mut Vec<u8>, text: Option<&str>) -> Result<(), SnapshotFault>
    ensures { PutsUpTo result out.old.items out.new.items (IfSome (option_copied text.entry) FitsText) (optional compact_string (option_copied text.entry)) }
{
    match text {
        None => put_absent(out),
        Some(text) => {
            put_present(out)?;
            put_text(out, text)
        }
    }
}

#[inline(always)]
pub fn put_optional_partitions(
    out: &mut Vec<u8>,
    set: Option<&PartSet>,
) -> Result<(), SnapshotFault>
    ensures { PutsUpTo result out.old.items out.new.items (IfSome (option_copied set.entry) FitsPartitions) (optional partitions_field (option_copied set.entry)) }
{
    match set {
        None => put_absent(out),
        Some(set) => {
            put_present(out)?;
            put_partitions(out, set)
        }
    }
}

#[inline(always)]
pub fn put_optional_moment(out: &mut Vec<u8>, moment: Option<Moment>) -> Result<(), SnapshotFault>
    ensures { PutsUpTo result out.old.items out.new.items (IfSome moment FitsNumber) (optional number64 moment) }
{
    match moment {
        None => put_absent(out),
        Some(moment) => {
            put_present(out)?;
            put_number(out, moment.millis())
        }
    }
}

/// That a value is missing.
#[inline(always)]
pub fn put_absent(out: &mut Vec<u8>) -> Result<(), SnapshotFault>
    ensures { PutsUpTo result out.old.items out.new.items (Unit {0}) (mark false) }
{
    out.push(0xff)?;
    Ok(())
}

/// That a value follows.
#[inline(always)]
pub fn put_present(out: &mut Vec<u8>) -> Result<(), SnapshotFault>
    ensures { PutsUpTo result out.old.items out.new.items (Unit {0}) (mark true) }
{
    out.push(0x01)?;
    Ok(())
}
