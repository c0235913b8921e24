//! Counts in order, so that the least is at hand.

ghost use Rattle.std.specs.Prelude.{◌≡◌, ◌+◌, ◌/◌, ◌<◌, ℕ, List, All, IfOk, Some, length, slice_get, slice_set};
ghost use Rattle.uniform_assign.specs.CountSets.{AreRanks, IsFirstOfTwo, IsFirstRankOf, IsPlayed, IsTree, counts_of};

use std::alloc::{AllocError, Global};
use std::marker::Model;

/// A count, and the place that has it.
#[derive(Clone, Copy, PartialEq, Eq)]
pub(crate) struct Rank {
    pub count: usize,
    pub place: usize,
}

/// An ordered set of (count, place), in which each place has one count: by the count, and equal ones by their places.
/// Contracts see it as the counts of the places.
///
/// It is a tree. The second half of the nodes has the pairs by their places. Before them each node has the first of the two
/// nodes at twice its index, so that the first of all is at index 1. A change is carried up until it changes nothing, in as
/// many steps at most as the number of places has bits.
#[derive(Drop)]
pub(crate) struct CountSet {
    nodes: Vec<Rank>,
}

impl Model for CountSet {
    ghost use Rattle.std.specs.Prelude.{List, ℕ};
    ghost use Rattle.std.specs.Coded.{coded_list, coded_ℕ};
    ghost use Rattle.uniform_assign.specs.CountSets.{IsTree, counts_in};

    ghost Value = { List ℕ };

    ghost coded = { coded_list coded_ℕ };

    ghost view = { λ s. counts_in s.nodes.items };

    ghost invariant = { λ s. IsTree (counts_in s.nodes.items) s.nodes.items };
}

impl CountSet {
    /// The counts of the takers, by their places among them.
    pub fn of(alloc: Global, counts: &[usize], takers: &[usize]) -> Result<CountSet, AllocError>
        requires { All (λ t. t < length counts.now) takers.now }
        ensures { IfOk result (λ set. set ≡ counts_of counts.now takers.now) }
    {
        let nodes = tree_of(alloc, counts, takers)?;
        Ok(CountSet { nodes })
    }

    /// The least pair, if there is any.
    pub fn first(&self) -> Option<Rank>
        ensures { IsFirstRankOf self.now result }
    {
        first_of_all(&self.nodes)
    }

    /// Moves the pair of a place to a new count.
    pub fn set(&mut self, place: usize, count: usize)
        requires { place < length self.old }
        ensures { self.new ≡ slice_set self.old place count }
    {
        write(&mut self.nodes, place, count);
    }
}

/// The tree of the takers' counts.
fn tree_of(alloc: Global, counts: &[usize], takers: &[usize]) -> Result<Vec<Rank>, AllocError>
    requires { All (λ t. t < length counts.now) takers.now }
    ensures { IfOk result (λ nodes. IsTree (counts_of counts.now takers.now) nodes.items) }
{
    let mut nodes = ranks_of(alloc, counts, takers)?;
    let mut node = takers.len();
    while node > 1 {
        node -= 1;
        play(&mut nodes, node);
    }
    Ok(nodes)
}

/// The first rank of a tree, if there is any.
fn first_of_all(nodes: &Vec<Rank>) -> Option<Rank>
    ensures { (counts : List ℕ) → IsTree counts nodes.now.items → IsFirstRankOf counts result }
{
    if nodes.len() < 2 {
        return None;
    }
    Some(nodes[1])
}

/// Writes the count at a place.
fn write(nodes: &mut Vec<Rank>, place: usize, count: usize)
    requires { place + place + 1 < length nodes.old.items }
    ensures { (counts : List ℕ) → IsTree counts nodes.old.items
        → IsTree (slice_set counts place count) nodes.new.items }
{
    let mut rank = Rank { count, place };
    let mut node = nodes.len() / 2 + place;
    nodes[node] = rank;
    while node > 1 {
        let above = nodes[node / 2];
        rank = carry(nodes, node, rank);
        if rank == above {
            return;
        }
        node /= 2;
    }
}

/// Writes the node above this one anew, at which the rank is, and gives what is there now. So a rank on its way up isn't
/// read again.
fn carry(nodes: &mut Vec<Rank>, node: usize, rank: Rank) -> Rank
    requires above { 1 < node }
    requires below { node < length nodes.old.items / 2 + length nodes.old.items / 2 }
    requires rank { slice_get nodes.old.items node ≡ Some rank }
    ensures played { IsPlayed nodes.old.items (node / 2) nodes.new.items }
    ensures first { slice_get nodes.new.items (node / 2) ≡ Some result }
{
    let first = if node % 2 == 0 {
        first_of(rank, nodes[node + 1])
    } else {
        first_of(nodes[node - 1], rank)
    };
    nodes[node / 2] = first;
    first
}

/// Writes the rank at a node anew.
fn play(nodes: &mut Vec<Rank>, node: usize)
    requires { node + node + 1 < length nodes.old.items }
    ensures { IsPlayed nodes.old.items node nodes.new.items }
{
    let first = first_of(nodes[2 * node], nodes[2 * node + 1]);
    nodes[node] = first;
}

/// A rank for each taker, behind as many that are written later.
fn ranks_of(alloc: Global, counts: &[usize], takers: &[usize]) -> Result<Vec<Rank>, AllocError>
    requires { All (λ t. t < length counts.now) takers.now }
    ensures { IfOk result (λ nodes. AreRanks (counts_of counts.now takers.now) nodes.items) }
{
    let blank = Rank { count: 0, place: 0 };
    let mut nodes = vec![in alloc; blank; takers.len()]?;
    for (place, taker) in takers.iter().enumerate() {
        nodes.push(Rank {
            count: counts[*taker],
            place,
        })?;
    }
    Ok(nodes)
}

/// Of two ranks the one that comes first.
fn first_of(one: Rank, other: Rank) -> Rank
    ensures { IsFirstOfTwo one other result }
{
    if other.count < one.count || (other.count == one.count && other.place < one.place) {
        other
    } else {
        one
    }
}
