//! A group, built of fields that are read one after the other. A group that is spelled so is built again; whatever else the
//! fields are, what is built is sound.

ghost use Rattle.std.specs.Prelude.{◌≡◌, ◌++◌, ℕ, List, IfOk, MatchResult};
ghost use Rattle.range_assign.specs.Shares.{shares_in};
ghost use Rattle.coord_node.specs.Nodes.{HeldGroup, held_of};
ghost use Rattle.replica_snapshots.specs.Building.{Adds, AddsArray, AddsEach, CanAddFormer, with_former, CanAddGrant, with_grant, CanAddOffset, with_committed, CanAddMember, with_part, with_share, last_fields, FitLast, CanAddLast, with_last, Finishes};
ghost use Rattle.replica_snapshots.specs.Groups.{group_fields, FitsGroup};
ghost use Rattle.replica_snapshots.specs.Reading.{Gives, numbers_at, former_at, record_at, grant_at, metadata_at, committed_at, image_at};
ghost use Rattle.replica_snapshots.specs.Spelling.{former_fields, FitsFormer, grant_fields, FitsGrant, member_fields, FitsMember, offset_fields, FitsOffset};
ghost use Rattle.replica_snapshots.specs.Views.{unread};
ghost use Rattle.replica_snapshots.specs.declared.fault.SnapshotFault.TheVariants.{NoMemory};
ghost use Rattle.std.specs.Option.{option_map};
ghost use Rattle.std.specs.String.{string_bytes};

use crate::cursor::Cursor;
use crate::fault::SnapshotFault;
use crate::numbers::Numbers;
use group_core::{Committed, Group, GroupNumbers, Restoring};
use group_epochs::{Record, RecordFields};
use group_types::limits::LONGEST_METADATA;
use group_types::{EpochNumber, MemberId, PartSet, Partition, Stamp};
use range_assign::Share;
use std::alloc::{AllocError, Global};
use std::collections::hash_map::RandomState;
use topic_meta::View;

/// A group.
pub fn group_of(
    alloc: Global,
    hasher: RandomState,
    cursor: &mut Cursor<'_>,
) -> Result<Group, SnapshotFault>
    ensures { (g : HeldGroup) (rest : List ℕ) → FitsGroup g → unread cursor.old ≡ group_fields g ++ rest
        → MatchResult result (λ b. (held_of b ≡ g) × (unread cursor.new ≡ rest)) (λ fault. fault ≡ NoMemory) }
{
    let numbers = numbers_of(cursor)?;
    let view = view_of(alloc, cursor)?;
    let mut group = Restoring::new(alloc, numbers.salt, hasher);
    let mut shares = Vec::new(alloc);
    match fill(&mut group, &mut shares, cursor) {
        Ok(()) => finished(group, numbers, shares, view, cursor),
        Err(fault) => Err(fault),
    }
}

#[tactic(auto, unfolding(crate::specs::Reading::numbers_at))]
fn numbers_of(cursor: &mut Cursor<'_>) -> Result<Numbers, SnapshotFault>
    ensures { Gives (λ numbers. numbers) result (unread cursor.new) (numbers_at (unread cursor.old)) }
{
    let salt = cursor.number()?;
    let epoch = cursor.epoch()?;
    let target_epoch = cursor.epoch()?;
    let clock = cursor.moment()?;
    let ids_made = cursor.number()?;
    Ok(Numbers {
        salt,
        epoch,
        target_epoch,
        clock,
        ids_made,
    })
}

fn view_of(alloc: Global, cursor: &mut Cursor<'_>) -> Result<View, SnapshotFault>
    ensures { Gives (λ view. view) result (unread cursor.new) (image_at (unread cursor.old)) }
{
    let image = cursor.image()?;
    Ok(image.whole_view(alloc)?)
}

/// Adds former members, members and offsets, and what the members are to own to the shares.
fn fill(
    group: &mut Restoring,
    shares: &mut Vec<Share>,
    cursor: &mut Cursor<'_>,
) -> Result<(), SnapshotFault>
    ensures { Adds FitLast last_fields CanAddLast with_last result (group.old, shares_in shares.old.items)
        (group.new, shares_in shares.new.items) (unread cursor.old) (unread cursor.new) }
{
    add_past(group, cursor)?;
    add_members(group, shares, cursor)?;
    add_offsets(group, cursor)
}

/// The group, if what was read is sound.
fn finished(
    group: Restoring,
    numbers: Numbers,
    shares: Vec<Share>,
    view: View,
    cursor: &Cursor<'_>,
) -> Result<Group, SnapshotFault>
    ensures { Finishes result group numbers (shares_in shares.items) view }
{
    let numbers = GroupNumbers {
        epoch: numbers.epoch,
        target_epoch: numbers.target_epoch,
        clock: numbers.clock,
        ids_made: numbers.ids_made,
    };
    match group.finish(numbers, shares, view)? {
        Some(group) => Ok(group),
        None => Err(cursor.unsound()),
    }
}

// ---- former members

fn add_past(group: &mut Restoring, cursor: &mut Cursor<'_>) -> Result<(), SnapshotFault>
    ensures { AddsArray FitsFormer former_fields CanAddFormer with_former result group.old group.new (unread cursor.old) (unread cursor.new) }
{
    let count = cursor.count()?;
    add_each_former(group, count, cursor)
}

fn add_each_former(
    group: &mut Restoring,
    count: u32,
    cursor: &mut Cursor<'_>,
) -> Result<(), SnapshotFault>
    ensures { AddsEach count FitsFormer former_fields CanAddFormer with_former result group.old group.new (unread cursor.old) (unread cursor.new) }
{
    for _ in 0..count {
        add_former(group, cursor)?;
    }
    Ok(())
}

fn add_former(group: &mut Restoring, cursor: &mut Cursor<'_>) -> Result<(), SnapshotFault>
    ensures { Adds FitsFormer former_fields CanAddFormer with_former result group.old group.new (unread cursor.old) (unread cursor.new) }
{
    let (id, stamp) = former_of(cursor)?;
    let is_taken = group.restore_past(id, stamp)?;
    cursor.sound(is_taken)
}

#[tactic(auto, unfolding(crate::specs::Reading::former_at))]
fn former_of(cursor: &mut Cursor<'_>) -> Result<(MemberId, Stamp), SnapshotFault>
    ensures { Gives (λ former. former) result (unread cursor.new) (former_at (unread cursor.old)) }
{
    let id = cursor.member_id()?;
    let stamp = cursor.stamp()?;
    Ok((id, stamp))
}

// ---- members

/// Adds the members with what they may read, and what they are to own to the shares.
fn add_members(
    group: &mut Restoring,
    shares: &mut Vec<Share>,
    cursor: &mut Cursor<'_>,
) -> Result<(), SnapshotFault>
    ensures { AddsArray FitsMember member_fields CanAddMember with_part result (group.old, shares_in shares.old.items)
        (group.new, shares_in shares.new.items) (unread cursor.old) (unread cursor.new) }
{
    let count = cursor.count()?;
    add_each_member(group, shares, count, cursor)
}

fn add_each_member(
    group: &mut Restoring,
    shares: &mut Vec<Share>,
    count: u32,
    cursor: &mut Cursor<'_>,
) -> Result<(), SnapshotFault>
    ensures { AddsEach count FitsMember member_fields CanAddMember with_part result (group.old, shares_in shares.old.items)
        (group.new, shares_in shares.new.items) (unread cursor.old) (unread cursor.new) }
{
    for _ in 0..count {
        add_member(group, shares, cursor)?;
    }
    Ok(())
}

fn add_member(
    group: &mut Restoring,
    shares: &mut Vec<Share>,
    cursor: &mut Cursor<'_>,
) -> Result<(), SnapshotFault>
    ensures { Adds FitsMember member_fields CanAddMember with_part result (group.old, shares_in shares.old.items)
        (group.new, shares_in shares.new.items) (unread cursor.old) (unread cursor.new) }
{
    let id = cursor.member_id()?;
    let kept = record_of(cursor)?;
    let is_taken = group.restore_member(&id, kept)?;
    cursor.sound(is_taken)?;
    add_grants(group, &id, cursor)?;
    let set = cursor.partitions()?;
    add_share(shares, id, set)?;
    Ok(())
}

/// What a member is to own, where that is something.
fn add_share(shares: &mut Vec<Share>, id: MemberId, set: PartSet) -> Result<(), AllocError>
    ensures { IfOk result (λ _. shares_in shares.new.items ≡ with_share (shares_in shares.old.items) (id, set)) }
{
    if !set.is_empty() {
        shares.push(Share { id, set })?;
    }
    Ok(())
}

#[tactic(auto, unfolding(crate::specs::Reading::record_at))]
fn record_of(cursor: &mut Cursor<'_>) -> Result<Record, SnapshotFault>
    ensures { Gives (λ kept. kept) result (unread cursor.new) (record_at (unread cursor.old)) }
{
    let instance = cursor.optional_text()?;
    let rack = cursor.optional_text()?;
    let names = cursor.names()?;
    let assignor = cursor.optional_assignor()?;
    let rebalance_timeout = cursor.timeout()?;
    let epoch = cursor.member_epoch()?;
    let previous_epoch = cursor.epoch()?;
    let stamp = cursor.stamp()?;
    let sent = cursor.optional_partitions()?;
    let session_deadline = cursor.moment()?;
    let release_deadline = cursor.optional_moment()?;
    Ok(Record::of(RecordFields {
        instance,
        rack,
        names,
        assignor,
        rebalance_timeout,
        epoch,
        previous_epoch,
        stamp,
        sent,
        session_deadline,
        release_deadline,
    }))
}

// ---- what a member may read

fn add_grants(
    group: &mut Restoring,
    id: &MemberId,
    cursor: &mut Cursor<'_>,
) -> Result<(), SnapshotFault>
    ensures { AddsArray FitsGrant grant_fields (CanAddGrant id.now) (with_grant id.now) result group.old group.new (unread cursor.old) (unread cursor.new) }
{
    let count = cursor.count()?;
    add_each_grant(group, id, count, cursor)
}

fn add_each_grant(
    group: &mut Restoring,
    id: &MemberId,
    count: u32,
    cursor: &mut Cursor<'_>,
) -> Result<(), SnapshotFault>
    ensures { AddsEach count FitsGrant grant_fields (CanAddGrant id.now) (with_grant id.now) result group.old group.new (unread cursor.old) (unread cursor.new) }
{
    for _ in 0..count {
        add_grant(group, id, cursor)?;
    }
    Ok(())
}

fn add_grant(
    group: &mut Restoring,
    id: &MemberId,
    cursor: &mut Cursor<'_>,
) -> Result<(), SnapshotFault>
    ensures { Adds FitsGrant grant_fields (CanAddGrant id.now) (with_grant id.now) result group.old group.new (unread cursor.old) (unread cursor.new) }
{
    let (p, since) = grant_of(cursor)?;
    let is_taken = group.restore_grant(id, &p, since)?;
    cursor.sound(is_taken)
}

#[tactic(auto, unfolding(crate::specs::Reading::grant_at))]
fn grant_of(cursor: &mut Cursor<'_>) -> Result<(Partition, EpochNumber), SnapshotFault>
    ensures { Gives (λ grant. grant) result (unread cursor.new) (grant_at (unread cursor.old)) }
{
    let p = cursor.partition()?;
    let since = cursor.epoch()?;
    Ok((p, since))
}

// ---- offsets

fn add_offsets(group: &mut Restoring, cursor: &mut Cursor<'_>) -> Result<(), SnapshotFault>
    ensures { AddsArray FitsOffset offset_fields CanAddOffset with_committed result group.old group.new (unread cursor.old) (unread cursor.new) }
{
    let count = cursor.count()?;
    add_each_offset(group, count, cursor)
}

fn add_each_offset(
    group: &mut Restoring,
    count: u32,
    cursor: &mut Cursor<'_>,
) -> Result<(), SnapshotFault>
    ensures { AddsEach count FitsOffset offset_fields CanAddOffset with_committed result group.old group.new (unread cursor.old) (unread cursor.new) }
{
    for _ in 0..count {
        add_offset(group, cursor)?;
    }
    Ok(())
}

fn add_offset(group: &mut Restoring, cursor: &mut Cursor<'_>) -> Result<(), SnapshotFault>
    ensures { Adds FitsOffset offset_fields CanAddOffset with_committed result group.old group.new (unread cursor.old) (unread cursor.new) }
{
    let name = cursor.text()?;
    let index = cursor.index()?;
    let committed = committed_of(cursor)?;
    let is_taken = group.restore_offset(name, index, committed)?;
    cursor.sound(is_taken)
}

#[tactic(auto, unfolding(crate::specs::Reading::committed_at))]
fn committed_of(cursor: &mut Cursor<'_>) -> Result<Committed, SnapshotFault>
    ensures { Gives (λ committed. committed) result (unread cursor.new) (committed_at (unread cursor.old)) }
{
    let offset = cursor.int64()?;
    let leader_epoch = cursor.int32()?;
    let metadata = metadata_of(cursor)?;
    Ok(Committed::new(offset, leader_epoch, metadata))
}

/// The metadata of a commit, which are no longer than a commit may have.
#[tactic(auto, unfolding(crate::specs::Reading::metadata_at))]
fn metadata_of(cursor: &mut Cursor<'_>) -> Result<Option<String>, SnapshotFault>
    ensures { Gives (option_map string_bytes) result (unread cursor.new) (metadata_at (unread cursor.old)) }
{
    let metadata = cursor.optional_text()?;
    if let Some(text) = &metadata {
        if LONGEST_METADATA < text.len() {
            return Err(cursor.bad_value());
        }
    }
    Ok(metadata)
}
