//! A group under its name, written and read.

ghost use Rattle.std.specs.Prelude.{◌≡◌, ◌++◌, ℕ, List, IfErr, IfOk};
ghost use Rattle.coord_node.specs.Nodes.{Named, held_of};
ghost use Rattle.replica_snapshots.specs.Spelling.{parts_fields, FitsParts};
ghost use Rattle.replica_snapshots.specs.Groups.{numbers_of, parts_of, group_fields, FitsGroup, named_fields, FitsNamed};
ghost use Rattle.replica_snapshots.specs.Views.{named_of};
ghost use Rattle.group_reconcile.specs.Holders.{pairs};
ghost use Rattle.replica_snapshots.specs.Puttable.{CanPutNamed, CanPutParts};
ghost use Rattle.replica_snapshots.specs.Writing.{PutsUpToWhere, PutsWhere};
ghost use Rattle.replica_snapshots.specs.declared.fault.SnapshotFault.TheVariants.{NoMemory};

use crate::cursor::Cursor;
use crate::fault::SnapshotFault;
use crate::fields::put_text;
use crate::numbers::{Numbers, put_numbers};
use crate::parts::put_lists;
use crate::reading::group_of;
use crate::rewriting::behind;
use group_core::Group;
use std::alloc::Global;
use std::collections::hash_map::RandomState;

/// A group that was read, and its name.
#[derive(Drop)]
pub struct ReadGroup<'a> {
    pub name: &'a str,
    pub group: Group,
}

/// Appends the one spelling of a group under its name.
///
/// Refused, with no byte changed: `TooLong` only where a text has over 32,767 bytes, where there is more of something than a count
/// can say, or where a partition's index is outside 0 to 99,999, or metadata has over 4,096 bytes, as in no group that requests lead
/// to, but for one of 2^32 - 1 offsets or more (`runs_with_few_offsets_are_put`); `NoMemory`.
pub fn put_group(out: &mut Vec<u8>, name: &str, group: &Group) -> Result<(), SnapshotFault>
    ensures { let g : Named = (name.now, held_of group.now) in
        PutsWhere result out.old.items out.new.items (CanPutNamed g) (FitsNamed g) (named_fields g) }
{
    let before = out.len();
    let done = named_up_to(out, name, group);
    if done.is_err() {
        out.truncate(before);
    }
    done
}

fn named_up_to(out: &mut Vec<u8>, name: &str, group: &Group) -> Result<(), SnapshotFault>
    ensures { let g : Named = (name.now, held_of group.now) in
        PutsUpToWhere result out.old.items out.new.items (CanPutNamed g) (FitsNamed g) (named_fields g) }
{
    put_text(out, name)?;
    group_up_to(out, group)
}

fn group_up_to(out: &mut Vec<u8>, group: &Group) -> Result<(), SnapshotFault>
    ensures { let g = held_of group.now in
        PutsUpToWhere result out.old.items out.new.items (g.0.grants ≡ pairs g.1 → CanPutParts (parts_of g)) (FitsGroup g) (group_fields g) }
{
    // so that the group is known to be sound, its grants to be those of its holders, and its serial to be above 0
    let (_, _, _) = (group.epoch(), group.grants(), group.ids_made());
    parts_up_to(out, group)
}

#[tactic(auto, unfolding(crate::specs::Spelling::parts_fields))]
fn parts_up_to(out: &mut Vec<u8>, group: &Group) -> Result<(), SnapshotFault>
    ensures { let g = parts_of (held_of group.now) in
        PutsUpToWhere result out.old.items out.new.items (CanPutParts g) (FitsParts g) (parts_fields g) }
{
    put_numbers(out, &numbers_of(group))?;
    put_lists(
        out,
        group.view(),
        group.records(),
        group.grants(),
        group.target(),
        group.offsets(),
    )
}

/// The numbers of a group.
fn numbers_of(group: &Group) -> Numbers
    ensures { result ≡ numbers_of group.now.state }
{
    Numbers {
        salt: group.salt(),
        epoch: group.epoch(),
        target_epoch: group.target().epoch(),
        clock: group.clock(),
        ids_made: group.ids_made(),
    }
}

/// Reads a group under its name from the front of bytes, and gives the bytes behind it: the one group that they begin with, or
/// a fault. Whatever the bytes are, the group is sound. A group that was written is never refused but for want of memory.
pub fn read_group<'a>(
    alloc: Global,
    hasher: RandomState,
    bytes: &'a [u8],
) -> Result<(ReadGroup<'a>, &'a [u8]), SnapshotFault>
    ensures found { IfOk result (λ x. FitsNamed (named_of x.0) × (bytes.now ≡ named_fields (named_of x.0) ++ x.1.now)) }
    ensures only { (g : Named) (rest : List ℕ) → FitsNamed g → bytes.now ≡ named_fields g ++ rest
        → IfOk result (λ x. (named_of x.0 ≡ g) × (x.1.now ≡ rest)) }
    ensures whole { (g : Named) (rest : List ℕ) → FitsNamed g → bytes.now ≡ named_fields g ++ rest
        → IfErr result (λ fault. fault ≡ NoMemory) }
{
    read_again(alloc, hasher, bytes)
}

/// The fields are read, a group is built of them, and it is taken only where it is spelled just as the bytes are.
fn read_again<'a>(
    alloc: Global,
    hasher: RandomState,
    bytes: &'a [u8],
) -> Result<(ReadGroup<'a>, &'a [u8]), SnapshotFault>
    ensures found { IfOk result (λ x. FitsNamed (named_of x.0) × (bytes.now ≡ named_fields (named_of x.0) ++ x.1.now)) }
    ensures whole { (g : Named) (rest : List ℕ) → FitsNamed g → bytes.now ≡ named_fields g ++ rest
        → IfErr result (λ fault. fault ≡ NoMemory) }
{
    let mut cursor = Cursor::new(alloc, bytes);
    let name = cursor.text()?;
    let group = group_of(alloc, hasher, &mut cursor)?;
    let again = spelled(alloc, cursor.place(), name, &group)?;
    match behind(bytes, &again) {
        Ok(rest) => Ok((ReadGroup { name, group }, rest)),
        Err(fault) => Err(fault),
    }
}

/// The spelling of a group under its name, whose size is known.
fn spelled(alloc: Global, size: usize, name: &str, group: &Group) -> Result<Vec<u8>, SnapshotFault>
    ensures ok { let g : Named = (name.now, held_of group.now) in
        IfOk result (λ bytes. FitsNamed g × (bytes.items ≡ named_fields g)) }
    ensures fitting { let g : Named = (name.now, held_of group.now) in
        FitsNamed g → IfErr result (λ fault. fault ≡ NoMemory) }
{
    let mut bytes = Vec::with_capacity(alloc, size)?;
    put_group(&mut bytes, name, group)?;
    Ok(bytes)
}
