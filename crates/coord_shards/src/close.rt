//! The end of shards.
ghost use Rattle.std.specs.Prelude.{◌≡◌, ◌≢◌, ◌⊎◌, ◌≤◌, All, IfOk, IfErr, IsErrOf, OnOk, sum_by, length, vec_len, vec_capacity};
ghost use Rattle.coord_shards.specs.Seat.{calls_of};
ghost use Rattle.coord_shards.specs.Close.{Agrees, entries_of};

use crate::compare::all_agree;
use crate::fault::ShardFault;
use crate::locked_shard::LockedShard;
use crate::seat::Seat;
use crate::settle::settle;
use crate::shard::Shard;
use crate::shards::Shards;
use std::alloc::Global;
use std::sync::Mutex;
use std::sync::ledger::Ledger;

/// Shards that weren't closed, with the seats that were handed in, and why.
#[derive(Drop)]
pub struct Unclosed<A: Ledger, C: Ledger, G> {
    pub shards: Shards<A, C, G>,
    pub seats: Vec<Seat<C>>,
    pub fault: ShardFault,
}

impl<A: Ledger, C: Ledger, G> Shards<A, C, G> {
    /// Takes in all seats, and gives the shards out of their locks.
    ///
    /// The entries of all shards are then together as many as the calls of all seats: the ledgers `A`, in which shards entered a unit
    /// for each of their entries, and `C`, of which seats handed over a unit for each of their calls, are put together and say so.
    ///
    /// Hands all back with [`ShardFault::NoSeat`] where a seat that was given out is missing, with [`ShardFault::Unequal`] where a
    /// seat's count in a shard isn't its calls there, or, above cap 0, its entries there aren't what it sent there, and with
    /// [`ShardFault::NoMemory`] where memory is short.
    pub fn close(self, alloc: Global, seats: Vec<Seat<C>>) -> Result<Vec<Shard>, Unclosed<A, C, G>>
    where
        G: Drop,
        ensures number { IfOk result (λ shards. vec_len shards ≡ self.shards) }
        ensures agree { IfOk result (λ shards. All (λ shard. All (Agrees self.cap shard) seats.items) shards.items) }
        ensures total { IfOk result (λ shards. sum_by entries_of shards.items ≡ sum_by calls_of seats.items) }
        ensures handed_back { IfErr result (λ kept. (kept.shards ≡ self) × (kept.seats.items ≡ seats.items)) }
        ensures faults { IfErr result (λ kept. (kept.fault ≡ ShardFault.NoSeat)
            ⊎ ((kept.fault ≡ ShardFault.NoMemory) ⊎ (kept.fault ≡ ShardFault.Unequal))) }
    {
        let Ok(mut held) = Vec::with_capacity(alloc, self.shards.len()) else {
            return Err(Unclosed {
                shards: self,
                seats,
                fault: ShardFault::NoMemory,
            });
        };
        let mut locks = self.shards;
        let registry = self.registry.into_inner();
        pour(&mut locks, &mut held, |lock| lock.into_inner());
        match room_for(alloc, registry.given, self.settings.cap, &held, &seats) {
            Ok(closed) => Ok(settle(registry, &self.entries, &self.calls, held, seats, closed)),
            Err(fault) => {
                pour(&mut held, &mut locks, |held| Mutex::new(held));
                let shards = Shards {
                    shards: locks,
                    registry: Mutex::new(registry),
                    ..self
                };
                Err(Unclosed {
                    shards,
                    seats,
                    fault,
                })
            }
        }
    }
}

/// An empty list with room for the shards, unless memory is short, one of the seats that were given out is missing, or one doesn't
/// agree with a shard.
fn room_for<A: Ledger, C: Ledger>(
    alloc: Global,
    given: usize,
    cap: usize,
    held: &[LockedShard<A, C>],
    seats: &[Seat<C>],
) -> Result<Vec<Shard>, ShardFault>
    ensures empty { IfOk result (λ closed. (vec_len closed ≡ 0) × (length held.now ≤ vec_capacity closed)) }
    ensures agree { OnOk result ((given ≡ length seats.now) × All (λ h. All (Agrees cap h.shard) seats.now) held.now) }
    ensures faults { IfErr result (λ fault. (fault ≡ ShardFault.NoSeat)
        ⊎ ((fault ≡ ShardFault.NoMemory) ⊎ (fault ≡ ShardFault.Unequal))) }
    ensures missing { IsErrOf result ShardFault.NoSeat → given ≢ length seats.now }
    ensures unequal { IsErrOf result ShardFault.Unequal → ¬ (All (λ h. All (Agrees cap h.shard) seats.now) held.now) }
{
    let Ok(closed) = Vec::with_capacity(alloc, held.len()) else {
        return Err(ShardFault::NoMemory);
    };
    if given != seats.len() {
        return Err(ShardFault::NoSeat);
    }
    if !all_agree(cap, held, seats) {
        return Err(ShardFault::Unequal);
    }
    Ok(closed)
}

/// Moves all elements, last ones first and each changed, to an empty list that has room for them.
fn pour<T, U: Drop, F: Fn(T) -> U + Drop>(from: &mut Vec<T>, to: &mut Vec<U>, change: F)
    requires callable { F.IsAlwaysCallable change }
    requires empty { vec_len to.old ≡ 0 }
    requires room { vec_len from.old ≤ vec_capacity to.old }
    ensures number { vec_len to.new ≡ vec_len from.old }
    ensures none_left { vec_len from.new ≡ 0 }
    ensures kept { vec_len from.old ≤ vec_capacity from.new }
{
    while let Some(element) = from.pop() {
        let Ok(()) = to.push(change(element)) else {
            unreachable!();
        };
    }
}
