//! A member of a group, written at the end of a `Vec`: its id, its record, what it may read, and what it is to own.

ghost use Rattle.std.specs.Prelude.{◌≡◌, [], ◌∷◌, map, All, IfSome, Some, unwrap_or};
ghost use Rattle.std.specs.List.{flat_map};
ghost use Rattle.flex_wire.specs.Composed.{array, FitsArray};
ghost use Rattle.kip_msgs.specs.Spelling.{fields};
ghost use Rattle.group_types.specs.Owners.{share_of};
ghost use Rattle.group_types.specs.Sets.{in_order};
ghost use Rattle.group_reconcile.specs.Holders.{granted_at};
ghost use Rattle.replica_snapshots.specs.Parts.{grant_of, grants_of, member_part};
ghost use Rattle.replica_snapshots.specs.Spelling.{epoch_field, FitsEpoch, optional, stamp_fields, assignor_field, FitsAssignor, identity_fields, FitsIdentity, wishes_fields, FitsWishes, progress_fields, FitsProgress, deadlines_fields, FitsDeadlines, record_fields, FitsRecord, grant_fields, FitsGrant, partitions_field, FitsPartitions, member_fields, FitsMember};
ghost use Rattle.replica_snapshots.specs.Puttable.{CanPutGrant, CanPutMember};
ghost use Rattle.replica_snapshots.specs.Writing.{PutsUpTo, PutsUpToWhere};

use crate::fault::SnapshotFault;
use crate::fields::{
    is_index, partition_bytes, put_absent, put_epoch, put_millis, put_names, put_number,
    put_optional_moment, put_optional_partitions, put_optional_text, put_partitions, put_present,
    put_size, put_stamp, put_text,
};
use group_epochs::Record;
use group_reconcile::Grants;
use group_target::Target;
use group_types::{AssignorName, EpochNumber, MemberId, PartSet, Partition, Stamp};

/// The places where a member's grants and its share are looked for first: members that come in the order of their ids are found
/// there.
#[derive(Clone, Copy)]
pub struct Near {
    pub grants: usize,
    pub share: usize,
}

/// A member.
#[tactic(auto, unfolding(crate::specs::Spelling::member_fields))]
pub fn put_member(
    out: &mut Vec<u8>,
    id: &MemberId,
    kept: &Record,
    grants: &Grants,
    target: &Target,
    near: &mut Near,
) -> Result<(), SnapshotFault>
    ensures { let m = member_part grants.now target.now.owners (id.now, kept.now) in
        PutsUpToWhere result out.old.items out.new.items (CanPutMember m) (FitsMember m) (member_fields m) }
{
    put_text(out, id.as_str())?;
    put_record(out, kept)?;
    put_grants(out, grants, id.as_str(), &mut near.grants)?;
    put_share(out, target, id.as_str(), &mut near.share)
}

/// A member's record.
#[tactic(auto, unfolding(crate::specs::Spelling::record_fields))]
fn put_record(out: &mut Vec<u8>, kept: &Record) -> Result<(), SnapshotFault>
    ensures { PutsUpTo result out.old.items out.new.items (FitsRecord kept.now) (record_fields kept.now) }
{
    put_identity(out, kept)?;
    put_wishes(out, kept)?;
    put_progress(out, kept)?;
    put_deadlines(out, kept)
}

/// Which instance a member is, and where.
#[tactic(auto, unfolding(crate::specs::Spelling::identity_fields))]
fn put_identity(out: &mut Vec<u8>, kept: &Record) -> Result<(), SnapshotFault>
    ensures { PutsUpTo result out.old.items out.new.items (FitsIdentity kept.now) (identity_fields kept.now) }
{
    put_optional_text(out, kept.instance())?;
    put_optional_text(out, kept.rack())
}

/// What a member subscribes and asks for.
#[tactic(auto, unfolding(crate::specs::Spelling::wishes_fields))]
fn put_wishes(out: &mut Vec<u8>, kept: &Record) -> Result<(), SnapshotFault>
    ensures { PutsUpTo result out.old.items out.new.items (FitsWishes kept.now) (wishes_fields kept.now) }
{
    put_names(out, kept.names())?;
    put_optional_assignor(out, kept.assignor())?;
    put_millis(out, kept.rebalance_timeout())
}

/// How far a member has come.
#[tactic(auto, unfolding(crate::specs::Spelling::progress_fields))]
fn put_progress(out: &mut Vec<u8>, kept: &Record) -> Result<(), SnapshotFault>
    ensures { PutsUpTo result out.old.items out.new.items (FitsProgress kept.now) (progress_fields kept.now) }
{
    let (previous, stamp) = (kept.previous_epoch(), kept.stamp());
    match kept.epoch().number() {
        None => {
            put_absent(out)?;
            put_epoch(out, previous)?;
            put_stamp(out, stamp)
        }
        Some(epoch) => {
            out.extend_from_slice(&progress_bytes(epoch, previous, stamp))?;
            Ok(())
        }
    }
}

/// The fields of how far a member has come, where it isn't away: the first byte is the mark that its epoch is there.
#[inline(always)]
fn progress_bytes(epoch: EpochNumber, previous: EpochNumber, stamp: Stamp) -> [u8; 25]
    ensures { result ≡ fields (optional epoch_field (Some epoch) ∷ epoch_field previous ∷ stamp_fields stamp ∷ []) }
{
    let epochs = [
        epoch.as_u32().to_be_bytes(),
        previous.as_u32().to_be_bytes(),
    ];
    let numbers = [stamp.connection.to_be_bytes(), stamp.frame.to_be_bytes()];
    let mut bytes = [1; 25];
    bytes[1..9].copy_from_slice(epochs.as_flattened());
    bytes[9..].copy_from_slice(numbers.as_flattened());
    bytes
}

/// What a member was last sent, and its deadlines.
#[tactic(auto, unfolding(crate::specs::Spelling::deadlines_fields))]
fn put_deadlines(out: &mut Vec<u8>, kept: &Record) -> Result<(), SnapshotFault>
    ensures { PutsUpTo result out.old.items out.new.items (FitsDeadlines kept.now) (deadlines_fields kept.now) }
{
    put_optional_partitions(out, kept.sent())?;
    put_number(out, kept.session_deadline().millis())?;
    put_optional_moment(out, kept.release_deadline())
}

#[inline(always)]
fn put_optional_assignor(
    out: &mut Vec<u8>,
    assignor: Option<AssignorName>,
) -> Result<(), SnapshotFault>
    ensures { PutsUpTo result out.old.items out.new.items (IfSome assignor FitsAssignor) (optional assignor_field assignor) }
{
    match assignor {
        None => put_absent(out),
        Some(assignor) => {
            put_present(out)?;
            put_text(out, assignor.as_str())
        }
    }
}

/// What a member may read, and since when.
fn put_grants(
    out: &mut Vec<u8>,
    grants: &Grants,
    id: &str,
    near: &mut usize,
) -> Result<(), SnapshotFault>
    ensures { let list = grants_of grants.now id.now in
        PutsUpToWhere result out.old.items out.new.items (FitsArray CanPutGrant list) (FitsArray FitsGrant list) (array grant_fields list) }
{
    let (held, next) = grants.held_near(id, *near);
    *near = next;
    match held {
        None => put_size(out, 0),
        Some(set) => {
            put_size(out, set.len())?;
            put_each_grant(out, grants, set)
        }
    }
}

fn put_each_grant(out: &mut Vec<u8>, grants: &Grants, set: &PartSet) -> Result<(), SnapshotFault>
    ensures { let list = map (grant_of grants.now) (in_order set.now) in
        PutsUpToWhere result out.old.items out.new.items (All CanPutGrant list) (All FitsGrant list) (flat_map grant_fields list) }
{
    for p in set.iter() {
        put_grant(out, grants, p)?;
    }
    Ok(())
}

#[tactic(auto, unfolding(crate::specs::Spelling::grant_fields, crate::specs::Spelling::partition_fields))]
#[inline(always)]
fn put_grant(out: &mut Vec<u8>, grants: &Grants, p: &Partition) -> Result<(), SnapshotFault>
    ensures { let g = grant_of grants.now p.now in
        PutsUpToWhere result out.old.items out.new.items (CanPutGrant g) (FitsGrant g) (grant_fields g) }
{
    if !is_index(p.index) {
        return Err(SnapshotFault::TooLong);
    }
    let partition = partition_bytes(&p.topic, p.index);
    out.extend_from_slice(&grant_bytes(&partition, since(grants, p)))?;
    Ok(())
}

/// The fields of a grant.
#[inline(always)]
fn grant_bytes(partition: &[u8; 20], since: EpochNumber) -> [u8; 24]
    ensures bytes { result ≡ fields (partition.now ∷ epoch_field since ∷ []) }
    ensures fits { FitsEpoch since }
{
    let mut bytes = [0; 24];
    bytes[..20].copy_from_slice(partition);
    bytes[20..].copy_from_slice(&since.as_u32().to_be_bytes());
    bytes
}

/// The epoch of the target since which the partition may be read.
#[inline(always)]
fn since(grants: &Grants, p: &Partition) -> EpochNumber
    ensures { result ≡ unwrap_or (granted_at grants.now p.now) 0 }
{
    match grants.granted_at(p) {
        Some(epoch) => epoch,
        None => EpochNumber::zero(),
    }
}

/// What a member is to own.
fn put_share(
    out: &mut Vec<u8>,
    target: &Target,
    id: &str,
    near: &mut usize,
) -> Result<(), SnapshotFault>
    ensures { let share = share_of target.now.owners id.now in
        PutsUpTo result out.old.items out.new.items (FitsPartitions share) (partitions_field share) }
{
    let (wanted, next) = target.of_near(id, *near);
    *near = next;
    match wanted.set() {
        None => put_size(out, 0),
        Some(set) => put_partitions(out, set),
    }
}
