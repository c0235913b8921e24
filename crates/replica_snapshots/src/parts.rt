//! The lists of a group, written at the end of a `Vec`: the topics of its view, its former members, its members and the
//! offsets.

ghost use Rattle.std.specs.Prelude.{map, pos, All, FitsSigned, IfSome};
ghost use Rattle.std.specs.Int.{w32};
ghost use Rattle.std.specs.List.{flat_map};
ghost use Rattle.std.specs.Option.{option_copied};
ghost use Rattle.std.specs.FinMap as finite;
ghost use Rattle.flex_wire.specs.Spelling.{compact_string, int32};
ghost use Rattle.flex_wire.specs.Composed.{array, FitsArray};
ghost use Rattle.topic_meta.specs.Views.{all_named, named};
ghost use Rattle.offset_guard.specs.Listing.{entry_of};
ghost use Rattle.replica_snapshots.specs.Parts.{member_part};
ghost use Rattle.replica_snapshots.specs.Spelling.{topic_fields, FitsTopic, former_fields, FitsFormer, member_fields, FitsMember, committed_fields, FitsCommitted, FitsMetadata, optional, offset_fields, FitsOffset, lists_fields, FitsLists};
ghost use Rattle.replica_snapshots.specs.Puttable.{CanPutLists, CanPutMember};
ghost use Rattle.replica_snapshots.specs.Writing.{PutsUpTo, PutsUpToWhere};

use crate::fault::SnapshotFault;
use crate::fields::{
    put_absent, put_id, put_index, put_int32, put_int64, put_present, put_size, put_stamp, put_text,
};
use crate::member::{Near, put_member};
use group_epochs::Records;
use group_reconcile::Grants;
use group_target::Target;
use group_types::limits::LONGEST_METADATA;
use group_types::{MemberId, Stamp};
use offset_guard::{Committed, CommittedAt, Offsets};
use topic_meta::{View, ViewTopic};

/// The lists of a group: the topics of its view, its former members, its members and the offsets.
#[tactic(auto, unfolding(crate::specs::Spelling::lists_fields))]
pub fn put_lists(
    out: &mut Vec<u8>,
    view: &View,
    records: &Records,
    grants: &Grants,
    target: &Target,
    offsets: &Offsets,
) -> Result<(), SnapshotFault>
    ensures { let topics = finite.entries view.now in
        let past = records.now.past in
        let members = map (member_part grants.now target.now.owners) (finite.entries records.now.records) in
        let committed = finite.entries offsets.now in
        PutsUpToWhere result out.old.items out.new.items (CanPutLists topics past members committed) (FitsLists topics past members committed)
        (lists_fields topics past members committed) }
{
    put_view(out, view)?;
    put_past(out, records)?;
    put_members(out, records, grants, target)?;
    put_offsets(out, offsets)
}

/// The topics of a view.
pub fn put_view(out: &mut Vec<u8>, view: &View) -> Result<(), SnapshotFault>
    ensures { PutsUpTo result out.old.items out.new.items (FitsArray FitsTopic (finite.entries view.now)) (array topic_fields (finite.entries view.now)) }
{
    let topics = view.topics();
    put_size(out, topics.len())?;
    put_each_topic(out, topics)
}

fn put_each_topic(out: &mut Vec<u8>, topics: &[ViewTopic]) -> Result<(), SnapshotFault>
    ensures { PutsUpTo result out.old.items out.new.items (All FitsTopic (all_named topics.now)) (flat_map topic_fields (all_named topics.now)) }
{
    for topic in topics {
        put_topic(out, topic)?;
    }
    Ok(())
}

#[tactic(auto, unfolding(crate::specs::Spelling::topic_fields))]
fn put_topic(out: &mut Vec<u8>, topic: &ViewTopic) -> Result<(), SnapshotFault>
    ensures { PutsUpTo result out.old.items out.new.items (FitsTopic (named topic.now)) (topic_fields (named topic.now)) }
{
    put_text(out, topic.name.as_str())?;
    put_id(out, &topic.id)?;
    put_partition_count(out, topic.count)
}

fn put_partition_count(out: &mut Vec<u8>, count: u32) -> Result<(), SnapshotFault>
    ensures { PutsUpTo result out.old.items out.new.items (FitsSigned w32 (pos count)) (int32 (pos count)) }
{
    if 0x7fff_ffff < count {
        return Err(SnapshotFault::TooLong);
    }
    put_int32(out, count as i32)
}

/// The former members that are remembered, from the oldest on.
pub fn put_past(out: &mut Vec<u8>, records: &Records) -> Result<(), SnapshotFault>
    ensures { PutsUpTo result out.old.items out.new.items (FitsArray FitsFormer records.now.past) (array former_fields records.now.past) }
{
    put_size(out, records.past_len())?;
    put_each_former(out, records)
}

fn put_each_former(out: &mut Vec<u8>, records: &Records) -> Result<(), SnapshotFault>
    ensures { PutsUpTo result out.old.items out.new.items (All FitsFormer records.now.past) (flat_map former_fields records.now.past) }
{
    for place in 0..records.past_len() {
        match records.past_at(place) {
            Some((id, stamp)) => put_former(out, id, stamp)?,
            None => return Ok(()),
        }
    }
    Ok(())
}

#[tactic(auto, unfolding(crate::specs::Spelling::former_fields))]
fn put_former(out: &mut Vec<u8>, id: &MemberId, stamp: Stamp) -> Result<(), SnapshotFault>
    ensures { PutsUpTo result out.old.items out.new.items (FitsFormer (id.now, stamp)) (former_fields (id.now, stamp)) }
{
    put_text(out, id.as_str())?;
    put_stamp(out, stamp)
}

/// The members, in the order of their ids.
pub fn put_members(
    out: &mut Vec<u8>,
    records: &Records,
    grants: &Grants,
    target: &Target,
) -> Result<(), SnapshotFault>
    ensures { let members = map (member_part grants.now target.now.owners) (finite.entries records.now.records) in
        PutsUpToWhere result out.old.items out.new.items (FitsArray CanPutMember members) (FitsArray FitsMember members) (array member_fields members) }
{
    put_size(out, records.len())?;
    put_each_member(out, records, grants, target)
}

fn put_each_member(
    out: &mut Vec<u8>,
    records: &Records,
    grants: &Grants,
    target: &Target,
) -> Result<(), SnapshotFault>
    ensures { let members = map (member_part grants.now target.now.owners) (finite.entries records.now.records) in
        PutsUpToWhere result out.old.items out.new.items (All CanPutMember members) (All FitsMember members) (flat_map member_fields members) }
{
    let mut near = Near {
        grants: 0,
        share: 0,
    };
    for rank in 0..records.len() {
        match records.member_at(rank) {
            Some((id, kept)) => put_member(out, id, kept, grants, target, &mut near)?,
            None => return Ok(()),
        }
    }
    Ok(())
}

/// The offsets, in the order of the topics' names and of the indexes.
pub fn put_offsets(out: &mut Vec<u8>, offsets: &Offsets) -> Result<(), SnapshotFault>
    ensures { PutsUpTo result out.old.items out.new.items (FitsArray FitsOffset (finite.entries offsets.now)) (array offset_fields (finite.entries offsets.now)) }
{
    let list = offsets.in_order()?;
    put_listed(out, &list)
}

fn put_listed(out: &mut Vec<u8>, list: &[CommittedAt<'_>]) -> Result<(), SnapshotFault>
    ensures { PutsUpTo result out.old.items out.new.items (FitsArray FitsOffset (map entry_of list.now)) (array offset_fields (map entry_of list.now)) }
{
    put_size(out, list.len())?;
    put_each_offset(out, list)
}

fn put_each_offset(out: &mut Vec<u8>, list: &[CommittedAt<'_>]) -> Result<(), SnapshotFault>
    ensures { PutsUpTo result out.old.items out.new.items (All FitsOffset (map entry_of list.now)) (flat_map offset_fields (map entry_of list.now)) }
{
    for at in list {
        put_offset(out, at)?;
    }
    Ok(())
}

#[tactic(auto, unfolding(crate::specs::Spelling::offset_fields))]
fn put_offset(out: &mut Vec<u8>, at: &CommittedAt<'_>) -> Result<(), SnapshotFault>
    ensures { PutsUpTo result out.old.items out.new.items (FitsOffset (entry_of at.now)) (offset_fields (entry_of at.now)) }
{
    put_text(out, at.name)?;
    put_index(out, at.index)?;
    put_committed(out, at.committed)
}

#[tactic(auto, unfolding(crate::specs::Spelling::committed_fields))]
fn put_committed(out: &mut Vec<u8>, committed: &Committed) -> Result<(), SnapshotFault>
    ensures { PutsUpTo result out.old.items out.new.items (FitsCommitted committed.now) (committed_fields committed.now) }
{
    put_int64(out, committed.offset())?;
    put_int32(out, committed.leader_epoch())?;
    put_metadata(out, committed.metadata())
}

/// The metadata of a commit, if there are any.
fn put_metadata(out: &mut Vec<u8>, metadata: Option<&str>) -> Result<(), SnapshotFault>
    ensures { let text = option_copied metadata.entry in
        PutsUpTo result out.old.items out.new.items (IfSome text FitsMetadata) (optional compact_string text) }
{
    match metadata {
        None => put_absent(out),
        Some(text) => {
            put_present(out)?;
            put_metadata_text(out, text)
        }
    }
}

fn put_metadata_text(out: &mut Vec<u8>, text: &str) -> Result<(), SnapshotFault>
    ensures { PutsUpTo result out.old.items out.new.items (FitsMetadata text.now) (compact_string text.now) }
{
    if LONGEST_METADATA < text.len() {
        return Err(SnapshotFault::TooLong);
    }
    put_text(out, text)
}
