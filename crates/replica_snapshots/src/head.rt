//! The head of a node: what stands in front of its groups.

ghost use Rattle.std.specs.Prelude.{◌≡◌, ◌++◌, ℕ, List, IfOk, IfErr};
ghost use Rattle.flex_wire.specs.Spelling.{int16};
ghost use Rattle.group_types.specs.Images.{AreImageTopics};
ghost use Rattle.replica_snapshots.specs.Nodes.{VERSION as THE_VERSION, HeadValue, head_with, head_fields, FitsHead};
ghost use Rattle.replica_snapshots.specs.Reading.{Gives, head_at};
ghost use Rattle.replica_snapshots.specs.Views.{head_value, unread};
ghost use Rattle.replica_snapshots.specs.Writing.{Puts, PutsUpTo};
ghost use Rattle.replica_snapshots.specs.declared.fault.SnapshotFault.TheVariants.{NoMemory};

use crate::cursor::Cursor;
use crate::fault::SnapshotFault;
use crate::fields::{put_number, put_size};
use crate::parts::put_view;
use crate::rewriting::behind;
use flex_wire::put_i16;
use std::alloc::Global;
use topic_meta::{Image, View};

/// The version in which nodes are spelled.
pub const VERSION: i16 = 0;

/// What stands in front of a node's groups.
#[derive(Drop)]
pub struct Head {
    /// The salt of the node.
    pub salt: u64,
    /// The image of the topics.
    pub image: Image,
    /// How many groups follow.
    pub groups: u32,
}

/// Appends the one spelling of a node's head.
///
/// Refused, with no byte changed: `TooLong` only where a name has over 32,767 bytes; `NoMemory`.
pub fn put_head(
    alloc: Global,
    out: &mut Vec<u8>,
    salt: u64,
    image: &Image,
    groups: usize,
) -> Result<(), SnapshotFault>
    ensures { let h = head_with salt image.now groups in
        Puts result out.old.items out.new.items (FitsHead h) (head_fields h) }
{
    let topics = image.whole_view(alloc)?;
    let before = out.len();
    let done = head_up_to(out, salt, &topics, groups);
    if done.is_err() {
        out.truncate(before);
    }
    done
}

#[tactic(auto, unfolding(crate::specs::Nodes::head_fields))]
fn head_up_to(
    out: &mut Vec<u8>,
    salt: u64,
    topics: &View,
    groups: usize,
) -> Result<(), SnapshotFault>
    ensures { let h = head_with salt topics.now groups in
        PutsUpTo result out.old.items out.new.items (FitsHead h) (head_fields h) }
{
    put_version(out)?;
    put_number(out, salt)?;
    put_view(out, topics)?;
    put_size(out, groups)
}

/// The version.
fn put_version(out: &mut Vec<u8>) -> Result<(), SnapshotFault>
    ensures { PutsUpTo result out.old.items out.new.items (Unit {0}) (int16 THE_VERSION) }
{
    put_i16(out, VERSION)?;
    Ok(())
}

/// Reads a node's head from the front of bytes, and gives the bytes behind it: the one head that they begin with, or a fault.
/// A sound head that was written is never refused but for want of memory.
pub fn read_head(alloc: Global, bytes: &[u8]) -> Result<(Head, &[u8]), SnapshotFault>
    ensures found { IfOk result (λ x. FitsHead (head_value x.0) × (bytes.now ≡ head_fields (head_value x.0) ++ x.1.now)) }
    ensures only { (h : HeadValue) (rest : List ℕ) → FitsHead h → bytes.now ≡ head_fields h ++ rest
        → IfOk result (λ x. (head_value x.0 ≡ h) × (x.1.now ≡ rest)) }
    ensures whole { (h : HeadValue) (rest : List ℕ) → FitsHead h → AreImageTopics h.image → bytes.now ≡ head_fields h ++ rest
        → IfErr result (λ fault. fault ≡ NoMemory) }
{
    read_again(alloc, bytes)
}

/// The fields are read, and taken only where they are spelled just as the bytes are.
fn read_again(alloc: Global, bytes: &[u8]) -> Result<(Head, &[u8]), SnapshotFault>
    ensures found { IfOk result (λ x. FitsHead (head_value x.0) × (bytes.now ≡ head_fields (head_value x.0) ++ x.1.now)) }
    ensures whole { (h : HeadValue) (rest : List ℕ) → FitsHead h → AreImageTopics h.image → bytes.now ≡ head_fields h ++ rest
        → IfErr result (λ fault. fault ≡ NoMemory) }
{
    let mut cursor = Cursor::new(alloc, bytes);
    let head = head_of(&mut cursor)?;
    let again = spelled(alloc, cursor.place(), &head)?;
    match behind(bytes, &again) {
        Ok(rest) => Ok((head, rest)),
        Err(fault) => Err(fault),
    }
}

/// The spelling of a head, whose size is known.
fn spelled(alloc: Global, size: usize, head: &Head) -> Result<Vec<u8>, SnapshotFault>
    ensures ok { IfOk result (λ bytes. FitsHead (head_value head.now) × (bytes.items ≡ head_fields (head_value head.now))) }
    ensures fitting { FitsHead (head_value head.now) → IfErr result (λ fault. fault ≡ NoMemory) }
{
    let mut bytes = Vec::with_capacity(alloc, size)?;
    let groups = head.groups as usize;
    put_head(alloc, &mut bytes, head.salt, &head.image, groups)?;
    Ok(bytes)
}

#[tactic(auto, unfolding(crate::specs::Reading::head_at))]
fn head_of(cursor: &mut Cursor<'_>) -> Result<Head, SnapshotFault>
    ensures { Gives head_value result (unread cursor.new) (head_at (unread cursor.old)) }
{
    if cursor.int16()? != VERSION {
        return Err(cursor.bad_value());
    }
    let salt = cursor.number()?;
    let image = cursor.image()?;
    let groups = cursor.count()?;
    Ok(Head {
        salt,
        image,
        groups,
    })
}
