//! A node, written section by section, and read.

ghost use Rattle.std.specs.Prelude.{◌≡◌, ◌++◌, ℕ, List, IfErr, IfOk, IfSome, MatchResult, length, slice_get};
ghost use Rattle.std.specs.List.{AllByRecursion, flat_map};
ghost use Rattle.coord_node.specs.Nodes.{HasEachOnce, Named, NodeValue, with_named};
ghost use Rattle.replica_snapshots.specs.Building.{CanEach, with_each};
ghost use Rattle.replica_snapshots.specs.Groups.{FitsNamed, named_fields};
ghost use Rattle.replica_snapshots.specs.Nodes.{FitsNode, FitsSection, node_fields, section_fields, sections_of};
ghost use Rattle.replica_snapshots.specs.Restoring.{CanBeRestored, CanKeep, ReadsGroup, ReadsGroups};
ghost use Rattle.replica_snapshots.specs.Views.{listed_node};
ghost use Rattle.replica_snapshots.specs.Puttable.{CanPutSection};
ghost use Rattle.replica_snapshots.specs.Writing.{PutsSections, PutsUpToWhere};
ghost use Rattle.replica_snapshots.specs.declared.fault.SnapshotFault.TheVariants.{NoMemory};

use crate::fault::SnapshotFault;
use crate::group::{put_group, read_group};
use crate::head::{put_head, read_head};
use coord_node::{NamedGroup, Node};
use std::alloc::{AllocError, Global};
use std::collections::hash_map::RandomState;
use topic_meta::Image;

/// The sections of a node, which doesn't change while they are written: number 0 is its head, and each further one a group, in the
/// order of their making.
#[derive(Drop)]
pub struct Sections<'a> {
    pub(crate) alloc: Global,
    pub(crate) salt: u64,
    pub(crate) image: &'a Image,
    pub(crate) groups: Vec<NamedGroup<'a>>,
}

impl<'a> Sections<'a> {
    /// The sections of a node. Fails where memory is short.
    pub fn of(alloc: Global, node: &'a Node) -> Result<Sections<'a>, AllocError>
        ensures node { IfOk result (λ sections. listed_node sections ≡ node.now) }
        ensures once { HasEachOnce node.now }
    {
        let groups = node.groups()?;
        Ok(Sections {
            alloc,
            salt: node.salt(),
            image: node.image(),
            groups,
        })
    }

    /// How many there are.
    pub fn count(&self) -> usize
        ensures { result ≡ length (sections_of (listed_node self.now)) }
    {
        self.groups.len() + 1
    }

    /// Appends sections from one number on, until there are `size` bytes of them or none is left: at least one, where one is left. Gives
    /// the number of the next one. All sections, one behind the other, are the one spelling of the node.
    ///
    /// Refused, with no byte changed: `TooLong` only where a text has over 32,767 bytes, where there is more of something than a
    /// count can say, or where a partition's index is outside 0 to 99,999, or metadata has over 4,096 bytes, as in no group that
    /// requests lead to, but for one of 2^32 - 1 offsets or more (`runs_with_few_offsets_are_put`); `NoMemory`.
    pub fn put(&self, from: usize, size: usize, out: &mut Vec<u8>) -> Result<usize, SnapshotFault>
        ensures { PutsSections result out.old.items out.new.items (sections_of (listed_node self.now)) from size }
    {
        let before = out.len();
        let count = self.count();
        for next in from..count {
            if from < next && size <= out.len() - before {
                return Ok(next);
            }
            if let Err(fault) = self.put_section(next, out) {
                out.truncate(before);
                return Err(fault);
            }
        }
        Ok(from.max(count))
    }

    /// Appends one section.
    fn put_section(&self, number: usize, out: &mut Vec<u8>) -> Result<(), SnapshotFault>
        ensures { IfSome (slice_get (sections_of (listed_node self.now)) number) (λ section.
            PutsUpToWhere result out.old.items out.new.items (CanPutSection section) (FitsSection section) (section_fields section)) }
    {
        match number.checked_sub(1) {
            None => put_head(self.alloc, out, self.salt, self.image, self.groups.len()),
            Some(place) => match self.groups.get(place) {
                Some(it) => put_group(out, it.name, it.group),
                None => Ok(()),
            },
        }
    }
}

/// Reads a node from the front of bytes, and gives the bytes behind it: the one node that they begin with, or a fault. Whatever the bytes
/// are, the node is sound, and is written as it was read. A node that was written is never refused but for want of memory.
pub fn read_node(
    alloc: Global,
    hasher: RandomState,
    bytes: &[u8],
) -> Result<(Node, &[u8]), SnapshotFault>
    ensures found { IfOk result (λ x. FitsNode x.0 × HasEachOnce x.0 × (bytes.now ≡ node_fields x.0 ++ x.1.now)) }
    ensures only { (n : NodeValue) (rest : List ℕ) → FitsNode n → bytes.now ≡ node_fields n ++ rest
        → IfOk result (λ x. (x.0 ≡ n) × (x.1.now ≡ rest)) }
    ensures whole { (n : NodeValue) (rest : List ℕ) → CanBeRestored n → bytes.now ≡ node_fields n ++ rest
        → IfErr result (λ fault. fault ≡ NoMemory) }
{
    let (head, rest) = read_head(alloc, bytes)?;
    let mut node = Node::new(alloc, head.salt, hasher);
    node.set_image(head.image);
    let rest = read_groups(alloc, hasher, &mut node, head.groups, rest, bytes.len())?;
    // so that its groups are known to have each name once
    let _ = node.group_count();
    Ok((node, rest))
}

/// Reads so many groups into a node from the front of bytes, which are the last of `size`, and gives the bytes behind them.
fn read_groups<'a>(
    alloc: Global,
    hasher: RandomState,
    node: &mut Node,
    count: u32,
    bytes: &'a [u8],
    size: usize,
) -> Result<&'a [u8], SnapshotFault>
    ensures found { IfOk result (λ rest. ReadsGroups count bytes.now rest.now node.old node.new) }
    ensures whole { (groups : List Named) (rest : List ℕ) → (length groups ≡ count) × AllByRecursion FitsNamed groups → CanEach CanKeep with_named node.old groups
        → bytes.now ≡ flat_map named_fields groups ++ rest
        → MatchResult result (λ left. (node.new ≡ with_each with_named node.old groups) × (left.now ≡ rest)) (λ fault. fault ≡ NoMemory) }
{
    let mut rest = bytes;
    for _ in 0..count {
        rest = match add_group(alloc, hasher, node, rest) {
            Ok(behind) => behind,
            Err(fault) => return Err(fault.behind(size.saturating_sub(rest.len()))),
        };
    }
    Ok(rest)
}

/// Reads one group into a node.
fn add_group<'a>(
    alloc: Global,
    hasher: RandomState,
    node: &mut Node,
    bytes: &'a [u8],
) -> Result<&'a [u8], SnapshotFault>
    ensures found { IfOk result (λ rest. ReadsGroup bytes.now rest.now node.old node.new) }
    ensures whole { (g : Named) (rest : List ℕ) → FitsNamed g → CanKeep node.old g → bytes.now ≡ named_fields g ++ rest
        → MatchResult result (λ left. (node.new ≡ with_named node.old g) × (left.now ≡ rest)) (λ fault. fault ≡ NoMemory) }
{
    let (read, rest) = read_group(alloc, hasher, bytes)?;
    if !node.restore_group(read.name, read.group)? {
        return Err(SnapshotFault::Unsound(bytes.len().saturating_sub(rest.len())));
    }
    Ok(rest)
}
