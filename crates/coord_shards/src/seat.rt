//! Who calls shards.
ghost use Rattle.std.specs.Prelude.{◌≡◌, ◌+◌, ◌<◌, ◌^◌, IsErrOf, OnOk, OnErr, take, slice_index};
ghost use Rattle.coord_shards.specs.Events.{event_of};
ghost use Rattle.coord_shards.specs.Shard.{kept_with, one_more};
ghost use Rattle.coord_shards.specs.Seat.{IsNewSeat, calls_of, most_calls};

use crate::counts::no_counts;
use crate::event::Event;
use crate::fault::CallFault;
use crate::incoming::Incoming;
use crate::limits::{MOST_SEATS, MOST_SHARDS};
use std::alloc::Global;
use std::marker::Model;
use std::sync::ledger::{Ledger, Share};

/// An event, and the number of the shard that took it: what a seat keeps.
#[derive(Drop)]
pub struct SentEvent {
    pub shard: usize,
    pub event: Event,
}

/// The right to call shards, for one thread at a time. It is of the shards that gave it out, and of no others.
#[derive(Drop)]
pub struct Seat<C: Ledger> {
    number: usize,
    calls: u64,
    by_shard: [u64; MOST_SHARDS],
    sent: Vec<SentEvent>,
    share: Share<C>,
}

impl<C: Ledger> Model for Seat<C> {
    ghost use Rattle.std.specs.Prelude.{◌≡◌, ◌+◌, ◌<◌, sum, length};
    ghost use Rattle.coord_shards.specs.Limits.{MOST_SEATS, MOST_SHARDS};
    ghost use Rattle.coord_shards.specs.Seat.{SeatState, most_calls};
    ghost use Rattle.std.specs.Coded.{codes};
    ghost use Rattle.topic_meta.specs.Stored.{topics_code};

    ghost Value = { SeatState };

    ghost coded = { Prim.hlevel (codes, topics_code) };

    ghost view = { λ s. record { number = s.number; by_shard = s.by_shard; sent = s.sent.items } };

    ghost invariant = { λ s. (s.number < MOST_SEATS) × (length s.by_shard ≡ MOST_SHARDS) × (s.calls ≡ sum s.by_shard)
        × (s.share.parts ≡ 1) × (s.share.amount + s.calls ≡ most_calls) };
}

impl<C: Ledger> Seat<C> {
    /// A seat with a number, and with a share of the most calls that it can make, from which nothing was called.
    pub(crate) fn new(alloc: Global, number: usize, share: Share<C>) -> Seat<C>
        requires number { number < MOST_SEATS }
        requires parts { share.parts ≡ 1 }
        requires amount { share.amount ≡ most_calls }
        ensures { IsNewSeat number result }
    {
        Seat {
            number,
            calls: 0,
            by_shard: no_counts(),
            sent: Vec::new(alloc),
            share,
        }
    }

    /// The number of the seat.
    pub fn number(&self) -> usize
        ensures number { result ≡ self.now.number }
        ensures there { result < MOST_SEATS }
    {
        self.number
    }

    /// How many calls of the seat were taken.
    pub fn calls(&self) -> u64
        ensures { result ≡ calls_of self.now }
    {
        self.calls
    }

    /// How many calls of the seat a shard took.
    pub fn calls_on(&self, shard: usize) -> u64
        ensures { result ≡ slice_index self.now.by_shard shard }
    {
        if shard < MOST_SHARDS {
            self.by_shard[shard]
        } else {
            0
        }
    }

    /// The events of the calls that were taken, each with its shard, in their order; none where journals keep no entries.
    pub fn sent(&self) -> &[SentEvent]
        ensures { result.now ≡ self.now.sent }
    {
        self.sent.as_slice()
    }

    /// Notes a copy of an event that a shard is to take, if journals keep entries. Fails if memory is short, and if the seat's calls are
    /// at their greatest number; then nothing has changed.
    pub(crate) fn note(
        &mut self,
        alloc: Global,
        cap: usize,
        shard: usize,
        event: &Incoming<'_>,
    ) -> Result<(), CallFault>
        ensures noted { OnOk result (self.new
            ≡ record self.old { sent = kept_with cap self.old.sent (record { shard = shard; event = event_of event.now }) }) }
        ensures fits { OnOk result (calls_of self.old + 1 < 2 ^ 64) }
        ensures err { OnErr result (self.new ≡ self.old) }
        ensures of_spent { IsErrOf result CallFault.CallsSpent → calls_of self.old ≡ most_calls }
    {
        if self.calls == u64::MAX {
            return Err(CallFault::CallsSpent);
        }
        if cap > 0 {
            let event = event.copy(alloc)?;
            self.sent.push(SentEvent { shard, event })?;
        }
        Ok(())
    }

    /// Forgets what was sent but for the first ones.
    pub(crate) fn forget(&mut self, sent: usize)
        ensures { self.new ≡ record self.old { sent = take sent self.old.sent } }
    {
        self.sent.truncate(sent);
    }

    /// Enters a call that a shard took, and hands it over to the share of the shard.
    pub(crate) fn enter(&mut self, share: &mut Share<C>, shard: usize)
        requires fits { calls_of self.old + 1 < 2 ^ 64 }
        requires shard { shard < MOST_SHARDS }
        requires part { 0 < share.old.parts }
        ensures seat { self.new ≡ record self.old { by_shard = one_more self.old.by_shard shard } }
        ensures calls { calls_of self.new ≡ calls_of self.old + 1 }
        ensures amount { share.new.amount ≡ share.old.amount + 1 }
        ensures parts { share.new.parts ≡ share.old.parts }
    {
        self.share.transfer(share, 1);
        self.by_shard[shard] += 1;
        self.calls += 1;
    }

    /// The share of the seat, with the calls that the seat could still make.
    pub(crate) fn into_share(self) -> Share<C>
        ensures parts { result.parts ≡ 1 }
        ensures amount { result.amount + calls_of self ≡ most_calls }
    {
        self.share
    }
}
