//! New groups among those that a node keeps.
ghost use Rattle.std.specs.Prelude.{◌≡◌, ◌↔◌, ◌<◌, ◌≤◌, ◌++◌, ◌∷◌, [], false, true, IfOk, IsTrue, None, OnErr, OnOk, length};
ghost use Rattle.std.specs.FinMap as finite;
ghost use Rattle.std.specs.String.{string_bytes};
ghost use Rattle.indexmap.specs.IndexMap.{spare};
ghost use Rattle.group_types.specs.Limits.{MOST_GROUPS as MOST};
ghost use Rattle.group_core.specs.Outcome.{answer_of};
ghost use Rattle.coord_node.specs.Answers.{succeeds as success};
ghost use Rattle.coord_node.specs.NodeView.{groups_of, IsAdmitted, IsOneMore};
ghost use Rattle.coord_node.specs.Restored.{CanBeKept, IsGroupId};

use crate::kept::Kept;
use crate::success::succeeds;
use group_core::{Outcome, Reply};
use group_types::Code;
use group_types::limits::{LONGEST_STRING, MOST_GROUPS};
use indexmap::IndexMap;
use std::alloc::{AllocError, Global};
use std::collections::hash_map::RandomState;

/// Why a new group isn't kept.
#[derive(Clone, Copy)]
enum NotKept {
    /// The node has as many groups as it may.
    Full,
    /// Memory is short.
    NoMemory,
}

/// What is answered for a new group that gave the outcome: it is kept where that is a success. Where memory is short the groups are
/// the same.
pub(crate) fn admit(
    alloc: Global,
    groups: &mut IndexMap<String, Kept, RandomState>,
    name: &str,
    kept: Kept,
    outcome: Outcome,
) -> Result<Outcome, AllocError>
    requires { finite.get (groups_of groups.old.entries) name.now ≡ None }
    ensures admitted { IfOk result
        (λ o. IsAdmitted groups.old.entries name.now kept (answer_of outcome) (answer_of o) groups.new.entries) }
    ensures few { length groups.old.entries ≤ MOST → length groups.new.entries ≤ MOST }
    ensures err { OnErr result (groups.new.entries ≡ groups.old.entries) }
{
    if succeeds(&outcome) {
        admit_success(alloc, groups, name, kept, outcome)
    } else {
        drop(kept);
        Ok(outcome)
    }
}

/// The same where the outcome is a success: COORDINATOR_NOT_AVAILABLE stands in its place where the node is full.
fn admit_success(
    alloc: Global,
    groups: &mut IndexMap<String, Kept, RandomState>,
    name: &str,
    kept: Kept,
    outcome: Outcome,
) -> Result<Outcome, AllocError>
    requires absent { finite.get (groups_of groups.old.entries) name.now ≡ None }
    requires success { success (answer_of outcome) ≡ true }
    ensures admitted { IfOk result
        (λ o. IsAdmitted groups.old.entries name.now kept (answer_of outcome) (answer_of o) groups.new.entries) }
    ensures few { length groups.old.entries ≤ MOST → length groups.new.entries ≤ MOST }
    ensures err { OnErr result (groups.new.entries ≡ groups.old.entries) }
{
    match keep(alloc, groups, name, kept) {
        Ok(()) => Ok(outcome),
        Err(NotKept::Full) => Ok(Outcome::Reply(Reply::refusal(Code::CoordinatorNotAvailable))),
        Err(NotKept::NoMemory) => Err(AllocError),
    }
}

/// Keeps a group that was restored under its name, and says whether it did: the name is a group id's and no group's, and the node has
/// room for one more. Where it isn't kept the groups are the same. Fails where memory is short.
pub(crate) fn restore(
    alloc: Global,
    groups: &mut IndexMap<String, Kept, RandomState>,
    name: &str,
    kept: Kept,
) -> Result<bool, AllocError>
    ensures can { IfOk result (λ yes. IsTrue yes ↔ CanBeKept (groups_of groups.old.entries) name.now) }
    ensures kept { IfOk result (λ yes. IsTrue yes → IsOneMore groups.old.entries name.now kept groups.new.entries) }
    ensures refused { IfOk result (λ yes. yes ≡ false → groups.new.entries ≡ groups.old.entries) }
    ensures few { length groups.old.entries ≤ MOST → length groups.new.entries ≤ MOST }
    ensures err { OnErr result (groups.new.entries ≡ groups.old.entries) }
{
    if !is_free(groups, name) {
        drop(kept);
        return Ok(false);
    }
    match keep(alloc, groups, name, kept) {
        Ok(()) => Ok(true),
        Err(NotKept::Full) => Ok(false),
        Err(NotKept::NoMemory) => Err(AllocError),
    }
}

/// Whether the name is a group id's and no group's.
fn is_free(groups: &IndexMap<String, Kept, RandomState>, name: &str) -> bool
    ensures { IsTrue result ↔ (IsGroupId name.now × (finite.get (groups_of groups.now.entries) name.now ≡ None)) }
{
    is_group_id(name) && !groups.contains_key(name)
}

/// Whether a join may name the group so.
fn is_group_id(name: &str) -> bool
    ensures { IsTrue result ↔ IsGroupId name.now }
{
    !name.is_empty() && name.len() <= LONGEST_STRING
}

/// Keeps a new group under its name. Where it isn't kept the groups are the same.
fn keep(
    alloc: Global,
    groups: &mut IndexMap<String, Kept, RandomState>,
    name: &str,
    kept: Kept,
) -> Result<(), NotKept>
    requires { finite.get (groups_of groups.old.entries) name.now ≡ None }
    ensures kept { OnOk result (IsOneMore groups.old.entries name.now kept groups.new.entries) }
    ensures room { OnOk result ((finite.len (groups_of groups.old.entries) < MOST) × (length groups.new.entries ≤ MOST)) }
    ensures full { result ≡ Err NotKept.Full → MOST ≤ finite.len (groups_of groups.old.entries) }
    ensures err { OnErr result (groups.new.entries ≡ groups.old.entries) }
{
    match key_for(alloc, groups, name) {
        Ok(key) => {
            insert(groups, key, kept);
            Ok(())
        }
        Err(why) => {
            drop(kept);
            Err(why)
        }
    }
}

/// The name as a key, and room for it in the table, where one more group may be kept. The groups are the same.
fn key_for(
    alloc: Global,
    groups: &mut IndexMap<String, Kept, RandomState>,
    name: &str,
) -> Result<String, NotKept>
    ensures entries { groups.new.entries ≡ groups.old.entries }
    ensures key { IfOk result (λ key. (string_bytes key ≡ name.now) × (0 < spare groups.new)) }
    ensures room { OnOk result ((finite.len (groups_of groups.old.entries) < MOST) × (length groups.old.entries < MOST)) }
    ensures full { result ≡ Err NotKept.Full → MOST ≤ finite.len (groups_of groups.old.entries) }
{
    if MOST_GROUPS <= groups.len() {
        return Err(NotKept::Full);
    }
    match room_for(alloc, groups, name) {
        Ok(key) => Ok(key),
        Err(_) => Err(NotKept::NoMemory),
    }
}

/// The name as a key, and room for it in the table. The groups are the same. Fails where memory is short.
fn room_for(
    alloc: Global,
    groups: &mut IndexMap<String, Kept, RandomState>,
    name: &str,
) -> Result<String, AllocError>
    ensures entries { groups.new.entries ≡ groups.old.entries }
    ensures key { IfOk result (λ key. (string_bytes key ≡ name.now) × (0 < spare groups.new)) }
{
    groups.reserve(1)?;
    String::from_str(alloc, name)
}

/// Puts a new group behind the others, where there is room. Takes no memory.
fn insert(groups: &mut IndexMap<String, Kept, RandomState>, key: String, kept: Kept)
    requires absent { finite.get (groups_of groups.old.entries) (string_bytes key) ≡ None }
    requires room { 0 < spare groups.old }
    ensures { groups.new.entries ≡ groups.old.entries ++ (key, kept) ∷ [] }
{
    match groups.insert(key, kept) {
        Ok(old) => drop(old),
        Err(_) => unreachable!(),
    }
}
