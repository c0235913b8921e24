//! The desk of a worker: it calls the shards from a seat.
ghost use Rattle.std.specs.Prelude.{◌≡◌, ◌≤◌, ℕ, IfOk, IfErr, OnOk, OnErr};
ghost use Rattle.coord_node.specs.Coordinator.{Answer as GivenAnswer};
ghost use Rattle.coord_shards.specs.Calls.{IsTaken, SeatCalls};
ghost use Rattle.coord_shards.specs.Seat.{IsNewSeat};
ghost use Rattle.coord_server.specs.Rounds.{CallsEach, TellsEach};

use crate::expiry::Timed;
use crate::log::EndLog;
use coord_node::Answered;
use coord_shards::{Answer, Event, Gate, Image, Moment, Seat, ShardFault, Shards, Stamp};
use link_futures::{Desk, End, Moments};
use std::alloc::{AllocError, Global};
use std::sync::Wait;
use std::sync::ledger::Ledger;

/// A desk that answers frames by calls of shards, from a seat of its own, and asks for the moment of each frame. It logs the ends of
/// connections.
///
/// A call that the shards refuse is want of memory: with a cap of 0 no journal is full.
#[derive(Drop)]
pub struct ShardsDesk<'a, A: Ledger, C: Ledger, G, M, R> {
    shards: &'a Shards<A, C, G>,
    seat: Seat<C>,
    moments: M,
    log: &'a EndLog,
    rt: &'a R,
    alloc: Global,
}

impl<'a, A: Ledger, C: Ledger, G: Gate, M: Moments, R: Wait> ShardsDesk<'a, A, C, G, M, R> {
    /// A desk over shards, with a new seat.
    pub fn new(
        rt: &'a R,
        alloc: Global,
        shards: &'a Shards<A, C, G>,
        moments: M,
        log: &'a EndLog,
    ) -> Result<ShardsDesk<'a, A, C, G, M, R>, ShardFault>
        ensures seat { IfOk result (λ desk. IsNewSeat desk.seat.number desk.seat) }
        ensures shards { IfOk result (λ desk. desk.shards.now ≡ shards.now) }
        ensures moments { IfOk result (λ desk. desk.moments ≡ moments) }
        ensures fault { IfErr result (λ fault. fault ≡ ShardFault.NoSeat) }
    {
        let seat = shards.seat(rt, alloc)?;
        Ok(ShardsDesk {
            shards,
            seat,
            moments,
            log,
            rt,
            alloc,
        })
    }

    /// Calls the shards for an event.
    fn call(&mut self, event: Event) -> Answer
        ensures call { SeatCalls self.old.shards.now self.old.seat event result self.new.seat }
        ensures others { self.new ≡ record self.old { seat = self.new.seat } }
    {
        self.shards.call(self.rt, self.alloc, &mut self.seat, event)
    }

    /// Lets the time of each shard go on to a moment. A shard that refuses, for want of memory, goes on at a later tick.
    pub fn tick_each(&mut self, moment: Moment)
        ensures ticks { CallsEach self.old.shards.now (λ shard. Event.Tick shard moment) self.old.shards.now.shards self.old.seat self.new.seat }
        ensures others { self.new ≡ record self.old { seat = self.new.seat } }
    {
        for shard in 0..self.shards.shards() {
            let _ = self.call(Event::Tick { shard, moment });
        }
    }

    /// Gives each shard a new image. Where memory is short, the first ones alone may have it.
    pub fn set_image(&mut self, image: &Image) -> Result<(), AllocError>
        ensures all { OnOk result (TellsEach self.old.shards.now (λ shard. Event.Image shard image.now) self.old.shards.now.shards self.old.seat self.new.seat) }
        ensures first { (told : ℕ) × (told ≤ self.old.shards.now.shards)
            × TellsEach self.old.shards.now (λ shard. Event.Image shard image.now) told self.old.seat self.new.seat }
        ensures others { self.new ≡ record self.old { seat = self.new.seat } }
    {
        for shard in 0..self.shards.shards() {
            self.tell(shard, image)?;
        }
        Ok(())
    }

    /// Gives a shard a new image.
    fn tell(&mut self, shard: usize, image: &Image) -> Result<(), AllocError>
        ensures told { OnOk result ((given : GivenAnswer)
            × IsTaken self.old.shards.now self.old.seat (Event.Image shard image.now) given self.new.seat) }
        ensures same { OnErr result (self.new ≡ self.old) }
        ensures others { self.new ≡ record self.old { seat = self.new.seat } }
    {
        let image = image.copy()?;
        match self.call(Event::Image { shard, image }) {
            Answer::Refused => Err(AllocError),
            Answer::Replied(_) | Answer::Closes | Answer::Done(_) => Ok(()),
        }
    }
}

impl<'a, A: Ledger, C: Ledger, G: Gate, M: Moments, R: Wait> Desk
    for ShardsDesk<'a, A, C, G, M, R> {
    ghost use Rattle.coord_server.specs.Desks.{ShardsAnswer, ShardsLack};

    ghost answers = { λ d body stamp answer e. (e.shards ≡ d.shards) × ShardsAnswer M.hands d.shards.now d.seat d.moments body stamp answer e.seat e.moments };

    ghost lacks = { λ d e. (e.shards ≡ d.shards) × ShardsLack M.hands d.seat d.moments e.seat e.moments };

    fn answer(
        &mut self,
        body: &[u8],
        stamp: Stamp,
        out: &mut Vec<u8>,
    ) -> Result<Answered, AllocError> {
        let moment = self.moments.now();
        let answered = self.shards.answer(
            self.rt,
            self.alloc,
            &mut self.seat,
            body,
            stamp,
            moment,
            out,
        );
        let Ok(answered) = answered else {
            return Err(AllocError);
        };
        if answered == Answered::Closes {
            self.log
                .note_body(self.rt, self.alloc, stamp.connection, body);
        }
        Ok(answered)
    }

    /// Asks the gate.
    fn may_send(&self, stamp: Stamp) -> bool {
        self.shards.gate().may_reply(stamp)
    }

    /// Has it written to the log.
    fn hear_end(&self, connection: u64, answered: u64, end: End) {
        self.log.note(self.rt, connection, answered, end);
    }
}

impl<'a, A: Ledger, C: Ledger, G: Gate, M: Moments, R: Wait> Timed
    for ShardsDesk<'a, A, C, G, M, R> {
    ghost use Rattle.coord_shards.specs.declared.event.Event.TheVariants.{Tick};

    ghost hands = { λ d moment e. M.hands d.moments moment e.moments × (e ≡ record d { moments = e.moments }) };

    ghost ticks = { λ d moment e. CallsEach d.shards.now (λ shard. Tick shard moment) d.shards.now.shards d.seat e.seat
        × (e ≡ record d { seat = e.seat }) };

    fn moment(&mut self) -> Moment {
        self.moments.now()
    }

    /// Ticks every shard.
    fn tick(&mut self, moment: Moment) {
        self.tick_each(moment);
    }
}
