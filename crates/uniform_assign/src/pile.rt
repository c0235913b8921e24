//! The partitions of a class of topics that a member owns, so that the first of them is at hand.

ghost use Rattle.std.specs.Prelude.{◌≡◌, ◌⊎◌, ◌↔◌, ◌<◌, ℕ, OnOk, Some, length, slice_get};
ghost use Rattle.std.specs.BinaryHeap.{IsHeap, heap_items};
ghost use Rattle.std.specs.Ordering.{nat_cmp};
ghost use Rattle.std.proofs.Props.{props};

use std::alloc::{AllocError, Global};
use std::cmp::Reverse;
use std::collections::BinaryHeap;

/// Those of a class's partitions that a member owns, by their places in partition order. It may also have some that the
/// member has given away.
#[derive(Drop)]
pub(crate) struct Pile {
    pub class: usize,
    /// One of the places. Most piles have no other, and so take no memory.
    pub one: Option<usize>,
    /// The others.
    pub places: BinaryHeap<Reverse<usize>>,
    ghost ordered: { IsHeap (λ x y. nat_cmp y.0 x.0) (heap_items places) } by { Prim.hlevel props },
}

impl Pile {
    ghost use Rattle.uniform_assign.specs.Piles.{IsFirstIn, IsFirstOwned, IsIn, how_many};

    /// The pile that has this place alone. Takes no memory.
    pub fn of(alloc: Global, class: usize, place: usize) -> Pile
        ensures class { result.class ≡ class }
        ensures alone { (k : ℕ) → IsIn k result ↔ (k ≡ place) }
    {
        Pile {
            class,
            one: Some(place),
            places: BinaryHeap::new(alloc),
        }
    }

    /// Adds a place.
    pub fn push(&mut self, place: usize) -> Result<(), AllocError>
        ensures class { self.new.class ≡ self.old.class }
        ensures added { OnOk result ((k : ℕ) → IsIn k self.new ↔ (IsIn k self.old ⊎ (k ≡ place))) }
    {
        if self.one.is_none() {
            self.one = Some(place);
            return Ok(());
        }
        self.places.push(Reverse(place))?;
        Ok(())
    }

    /// The first place that the member owns. Takes those out that come before it.
    pub fn first_owned(&mut self, owners: &[Option<usize>], member: usize) -> Option<usize>
        requires { (k : ℕ) → IsIn k self.old → k < length owners.now }
        ensures class { self.new.class ≡ self.old.class }
        ensures fewer { (k : ℕ) → IsIn k self.new → IsIn k self.old }
        ensures kept { (k : ℕ) → IsIn k self.old → slice_get owners.now k ≡ Some (Some member) → IsIn k self.new }
        ensures first { IsFirstOwned owners.now member self.new result }
    {
        while let Some(place) = self.first() {
            if owners[place] == Some(member) {
                return Some(place);
            }
            self.drop_first(place);
        }
        None
    }

    /// The first place, if there is any.
    fn first(&self) -> Option<usize>
        ensures { IsFirstIn self.now result }
    {
        match (self.one, self.places.peek()) {
            (Some(one), Some(least)) => Some(one.min(least.0)),
            (Some(one), None) => Some(one),
            (None, Some(least)) => Some(least.0),
            (None, None) => None,
        }
    }

    /// Takes the first place out.
    fn drop_first(&mut self, first: usize)
        requires { IsFirstIn self.old (Some first) }
        ensures class { self.new.class ≡ self.old.class }
        ensures fewer { (k : ℕ) → IsIn k self.new → IsIn k self.old }
        ensures kept { (k : ℕ) → IsIn k self.old → (k ≡ first) ⊎ IsIn k self.new }
        ensures shorter { how_many self.new < how_many self.old }
    {
        if self.one == Some(first) {
            self.one = None;
        } else {
            self.places.pop();
        }
    }
}
