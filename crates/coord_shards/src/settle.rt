//! What the ledgers say at the end.
ghost use Rattle.std.specs.Prelude.{◌≡◌, ◌+◌, ◌*◌, ◌≤◌, All, sum_by, map, reverse, vec_len, vec_capacity};
ghost use Rattle.coord_shards.specs.declared.limits.TheConstants.{MOST_SEATS};
ghost use Rattle.coord_shards.specs.Seat.{calls_of, most_calls, most_entries};
ghost use Rattle.coord_shards.specs.Close.{entries_of};

use crate::locked_shard::LockedShard;
use crate::registry::Registry;
use crate::seat::Seat;
use crate::shard::Shard;
use std::sync::ledger::{Ledger, Share, Total};

/// Puts the parts of both ledgers together, and gives the shards, last ones first, in a list that has room for them.
///
/// For each call that was handed over to a shard, the shard has one unit less left of the entries' ledger. It entered just these
/// units, one for each of its entries. So there are as many entries as calls.
pub(crate) fn settle<A: Ledger, C: Ledger>(
    registry: Registry<A, C>,
    entries: &Total<A>,
    calls: &Total<C>,
    held: Vec<LockedShard<A, C>>,
    seats: Vec<Seat<C>>,
    mut closed: Vec<Shard>,
) -> Vec<Shard>
    requires entries { (entries.now.parts ≡ 2 * vec_len held) × (entries.now.amount ≡ vec_len held * most_entries) }
    requires calls { (calls.now.parts ≡ MOST_SEATS + vec_len held) × (calls.now.amount ≡ most_entries) }
    requires seats { registry.given ≡ vec_len seats }
    requires empty { vec_len closed ≡ 0 }
    requires room { vec_len held ≤ vec_capacity closed }
    ensures shards { result.items ≡ reverse (map (λ h. h.shard) held.items) }
    ensures total { sum_by entries_of result.items ≡ sum_by calls_of seats.items }
{
    let (mut all_entries, mut all_calls) = (registry.entries, registry.seats);
    take_shards(held, &mut closed, &mut all_entries, &mut all_calls);
    take_seats(seats, &mut all_calls);
    entries.audit(&mut all_entries);
    calls.audit(&mut all_calls);
    closed
}

/// Moves the shards, last ones first, to a list that has room for them, and their shares to one share of each ledger.
fn take_shards<A: Ledger, C: Ledger>(
    mut held: Vec<LockedShard<A, C>>,
    closed: &mut Vec<Shard>,
    entries: &mut Share<A>,
    calls: &mut Share<C>,
)
    requires empty { vec_len closed.old ≡ 0 }
    requires room { vec_len held ≤ vec_capacity closed.old }
    ensures shards { closed.new.items ≡ reverse (map (λ h. h.shard) held.items) }
    ensures entries { entries.new.parts ≡ entries.old.parts + 2 * vec_len held }
    ensures calls { calls.new.parts ≡ calls.old.parts + vec_len held }
    ensures amounts { entries.new.amount + calls.new.amount
        ≡ entries.old.amount + calls.old.amount + vec_len held * most_entries + sum_by entries_of closed.new.items }
{
    while let Some(it) = held.pop() {
        entries.merge(it.left);
        entries.merge(it.entered);
        calls.merge(it.calls);
        let Ok(()) = closed.push(it.shard) else {
            unreachable!();
        };
    }
}

/// Moves the shares of seats to one share.
fn take_seats<C: Ledger>(mut seats: Vec<Seat<C>>, calls: &mut Share<C>)
    ensures parts { calls.new.parts ≡ calls.old.parts + vec_len seats }
    ensures amount { calls.new.amount + sum_by calls_of seats.items ≡ calls.old.amount + vec_len seats * most_calls }
{
    while let Some(seat) = seats.pop() {
        calls.merge(seat.into_share());
    }
}
