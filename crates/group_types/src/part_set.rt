//! A set of partitions.
ghost use Rattle.std.specs.Prelude.{◌≡◌, ◌≤◌, ◌<◌, ℕ, not, length, IsTrue, ◌↔◌, IfOk, IfErr, OnOk, OnErr, Some, is_ok, slice_get};
ghost use Rattle.std.specs.Bool.{OnTrue};
ghost use Rattle.std.specs.Iterator.Adapters.{IterYieldsInOrder};
ghost use Rattle.std.specs.List.{list_any};
ghost use Rattle.std.specs.List.Sorted.{IsStrictlySortedBy};
ghost use Rattle.std.specs.Ordering.{eq_by_cmp, is_lt};
ghost use Rattle.std.specs.Slice.Iter.{iter_rest};
ghost use Rattle.group_types.specs.declared.partition.Partition.{Partition as Key};
ghost use Rattle.group_types.specs.Sets.{nothing, has, with_one, without, common, in_order, of_list, size, is_nothing, are_disjoint, are_same};
ghost use Rattle.group_types.specs.Partition.{partition_cmp, IsGap};

use crate::partition::Partition;
use std::alloc::{AllocError, Global};
use std::marker::Model;
use std::slice::Iter;

/// A set of partitions: a list that rises in the order of [`Partition`].
#[derive(Drop)]
pub struct PartSet {
    parts: Vec<Partition>,
}

impl Model for PartSet {
    ghost use Rattle.std.specs.FinSet as set;
    ghost use Rattle.std.specs.List.Sorted.{IsStrictlySortedBy};
    ghost use Rattle.group_types.specs.Sets.{of_list};
    ghost use Rattle.group_types.specs.Partition.{Partitions, partition_cmp, partition_code};

    ghost Value = { Partitions };

    ghost coded = { set.code partition_code };

    ghost view = { λ s. of_list s.parts.items };

    ghost invariant = { λ s. IsStrictlySortedBy partition_cmp s.parts.items };
}

impl PartSet {
    /// The set with no partition. Takes no memory.
    pub fn new(alloc: Global) -> PartSet
        ensures { result ≡ nothing }
    {
        PartSet {
            parts: Vec::new(alloc),
        }
    }

    /// The partitions of a list, repeated ones once. Fails where memory is short.
    pub fn of_list(alloc: Global, list: &[Partition]) -> Result<PartSet, AllocError>
        ensures { IfOk result (λ s. s ≡ of_list list.now) }
    {
        let parts = Vec::from_slice(alloc, list)?;
        Ok(PartSet::of_vec(parts))
    }

    /// The partitions of a list in any order, repeated ones once. Takes no memory. A list that rises is only looked at.
    pub fn of_vec(mut parts: Vec<Partition>) -> PartSet
        ensures { result ≡ of_list parts.items }
    {
        if rises(&parts) {
            return PartSet { parts };
        }
        parts.sort_unstable();
        parts.dedup();
        PartSet { parts }
    }

    /// Whether the partition is in the set.
    pub fn contains(&self, p: &Partition) -> bool
        ensures { result ≡ has self.now p.now }
    {
        place_of(&self.parts, p).is_ok()
    }

    /// Adds the partition, and says whether it is new. Where memory is short, the set stays as it was.
    pub fn insert(&mut self, p: Partition) -> Result<bool, AllocError>
        ensures added { OnOk result (self.new ≡ with_one self.old p) }
        ensures is_new { IfOk result (λ new. new ≡ not (has self.old p)) }
        ensures err { OnErr result (self.new ≡ self.old) }
    {
        match place_of(&self.parts, &p) {
            Ok(_) => Ok(false),
            Err(at) => {
                self.parts.insert(at, p)?;
                Ok(true)
            }
        }
    }

    /// Takes the partition out, and says whether it was there.
    pub fn remove(&mut self, p: &Partition) -> bool
        ensures removed { self.new ≡ without self.old p.now }
        ensures was_there { result ≡ has self.old p.now }
    {
        match place_of(&self.parts, p) {
            Ok(at) => {
                self.parts.remove(at);
                true
            }
            Err(_) => false,
        }
    }

    /// How many partitions the set has.
    pub fn len(&self) -> usize
        ensures { result ≡ size self.now }
    {
        self.parts.len()
    }

    /// Whether the set has no partition.
    pub fn is_empty(&self) -> bool
        ensures value { result ≡ is_nothing self.now }
        ensures empty { IsTrue result ↔ (self.now ≡ nothing) }
    {
        self.parts.is_empty()
    }

    /// Takes every partition out.
    pub fn clear(&mut self)
        ensures { self.new ≡ nothing }
    {
        self.parts.clear();
    }

    /// The partitions, rising.
    pub fn iter(&self) -> Iter<'_, Partition>
        ensures rest { iter_rest result ≡ in_order self.now }
        ensures runs { IterYieldsInOrder Key }
    {
        self.parts.iter()
    }

    /// A copy of the set. Fails where memory is short.
    pub fn copy(&self, alloc: Global) -> Result<PartSet, AllocError>
        ensures { IfOk result (λ copy. copy ≡ self.now) }
    {
        let parts = Vec::from_slice(alloc, &self.parts)?;
        Ok(PartSet { parts })
    }

    /// Keeps the partitions that the other set has too. Takes no memory.
    pub fn retain_common(&mut self, other: &PartSet)
        ensures { self.new ≡ common self.old other.now }
    {
        self.parts.retain(|p| other.contains(p));
    }

    /// Whether no partition is in both sets.
    pub fn is_disjoint(&self, other: &PartSet) -> bool
        ensures value { result ≡ are_disjoint self.now other.now }
        ensures disjoint { IsTrue result ↔ (common self.now other.now ≡ nothing) }
    {
        !has_any(other, &self.parts)
    }

    /// Whether the two sets have the same partitions.
    pub fn equals(&self, other: &PartSet) -> bool
        ensures value { result ≡ are_same self.now other.now }
        ensures same { IsTrue result ↔ (self.now ≡ other.now) }
    {
        self.parts == other.parts
    }
}

/// Whether each partition of the list comes before the next.
fn rises(parts: &[Partition]) -> bool
    ensures { OnTrue result (IsStrictlySortedBy partition_cmp parts.now) }
{
    for at in 1..parts.len() {
        if !comes_before(&parts[at - 1], &parts[at]) {
            return false;
        }
    }
    true
}

/// Whether a partition comes before another. Most often both are of one topic, and then two numbers tell it.
fn comes_before(one: &Partition, other: &Partition) -> bool
    ensures { result ≡ is_lt (partition_cmp one.now other.now) }
{
    if one.topic == other.topic {
        return one.index.cmp(&other.index).is_lt();
    }
    one.cmp(other).is_lt()
}

/// Whether a partition of the list is in the set.
fn has_any(set: &PartSet, list: &[Partition]) -> bool
    ensures { result ≡ list_any (has set.now) list.now }
{
    list.iter().any(|p| set.contains(p))
}

/// Where the partition is in a list that rises, or where it would go. What comes behind the last is not searched for, so
/// a list is filled fastest when the partitions come rising.
fn place_of(parts: &[Partition], p: &Partition) -> Result<usize, usize>
    requires { IsStrictlySortedBy partition_cmp parts.now }
    ensures there { is_ok result ≡ list_any (eq_by_cmp partition_cmp p.now) parts.now }
    ensures found { IfOk result (λ at. slice_get parts.now at ≡ Some p.now) }
    ensures bound { IfErr result (λ at. at ≤ length parts.now) }
    ensures gap { IfErr result (IsGap p.now parts.now) }
{
    match parts.last() {
        Some(last) if last.cmp(p).is_lt() => Err(parts.len()),
        _ => parts.binary_search(p),
    }
}
