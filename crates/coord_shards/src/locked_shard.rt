//! What lies under the lock of a shard.
ghost use Rattle.std.specs.Prelude.{◌≡◌, ◌+◌, ◌<◌, ◌≤◌, ◌^◌, sum, IfOk, OnOk, OnErr};
ghost use Rattle.coord_shards.specs.declared.limits.TheConstants.{MOST_SHARDS};
ghost use Rattle.coord_shards.specs.Events.{event_of, Gives};
ghost use Rattle.coord_shards.specs.Home.{IsHome};
ghost use Rattle.coord_shards.specs.Seat.{calls_of, most_entries};
ghost use Rattle.coord_shards.specs.Replay.{GoesOn};
ghost use Rattle.coord_shards.specs.Calls.{Rises};

use crate::fault::CallFault;
use crate::incoming::{Effect, Incoming};
use crate::seat::Seat;
use crate::shard::Shard;
use std::sync::ledger::{Ledger, Share, Total};

/// A shard, with its units of both ledgers: of the entries those that it has left, one for each call that it may still take, and
/// those that it entered, one for each of its entries; of the calls those that seats handed over.
#[derive(Drop)]
pub(crate) struct LockedShard<A: Ledger, C: Ledger> {
    pub(crate) shard: Shard,
    pub(crate) left: Share<A>,
    pub(crate) entered: Share<A>,
    pub(crate) calls: Share<C>,
    pub(crate) ghost parts: { (left.parts ≡ 1) × (entered.parts ≡ 1) × (calls.parts ≡ 1) },
    pub(crate) ghost one_a_call: { left.amount + calls.amount ≡ most_entries },
    pub(crate) ghost one_an_entry: { entered.amount ≡ sum shard.counts },
}

impl<A: Ledger, C: Ledger> LockedShard<A, C> {
    /// The shard takes an event of its own from a seat, and appends the bytes of the answer. Unless it fails, the seat hands over a
    /// unit for its call, and the shard enters one for its entry. All calls together leave it one to enter.
    pub(crate) fn take(
        &mut self,
        seat: &mut Seat<C>,
        event: &Incoming<'_>,
        all_calls: &Total<C>,
        out: &mut Vec<u8>,
    ) -> Result<Effect, CallFault>
        requires home { IsHome self.old.shard.shards (event_of event.now) self.old.shard.number }
        requires few { self.old.shard.shards ≤ MOST_SHARDS }
        requires fits { calls_of seat.old + 1 < 2 ^ 64 }
        requires all_calls { all_calls.now.amount ≡ most_entries }
        ensures step { IfOk result (λ outcome. Gives outcome out.old.items out.new.items
            (λ given. GoesOn self.old.shard (record { seat = seat.old.number; event = event_of event.now }) given self.new.shard)) }
        ensures seat { OnOk result (Rises seat.old self.old.shard.number seat.new) }
        ensures err { OnErr result ((seat.new ≡ seat.old) × (out.new.items ≡ out.old.items)) }
    {
        let number = self.shard.number();
        let outcome = self.shard.take(seat.number(), event, out)?;
        seat.enter(&mut self.calls, number);
        all_calls.audit(&mut self.calls);
        self.left.transfer(&mut self.entered, 1);
        Ok(outcome)
    }
}
