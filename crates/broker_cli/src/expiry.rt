//! The desk of a broker's expiry worker.
ghost use Rattle.std.specs.Prelude.{◌≡◌};

use broker_apis::Topics;
use coord_server::{Moment, Timed};
use std::alloc::AllocGlobal;
use std::sync::Wait;

/// The most records that come to each partition at one tick, so that the next tick isn't late.
const MOST_RECORDS: u64 = 10_000;

/// A desk over shards whose time goes on, and topics to which records come by themselves.
#[derive(Drop)]
pub struct ExpiryDesk<'a, D, R> {
    over: D,
    rt: &'a R,
    topics: &'a Topics,
    /// How many records come to each partition in a second, since which moment, and how many have come.
    rate: u64,
    began: Moment,
    came: u64,
}

impl<'a, D: Timed, R: Wait + AllocGlobal> ExpiryDesk<'a, D, R> {
    /// Over the desk of the shards, from a moment on.
    pub fn new(
        over: D,
        rt: &'a R,
        topics: &'a Topics,
        rate: u64,
        began: Moment,
    ) -> ExpiryDesk<'a, D, R>
        ensures { result.over ≡ over }
    {
        ExpiryDesk {
            over,
            rt,
            topics,
            rate,
            began,
            came: 0,
        }
    }

    /// Has the records come that are due at a moment. Without memory they come at a later tick.
    fn generate(&mut self, moment: Moment)
        ensures { self.new.over ≡ self.old.over }
    {
        let elapsed = moment.millis().saturating_sub(self.began.millis());
        let wanted = self.rate.saturating_mul(elapsed) / 1_000;
        let due = wanted.saturating_sub(self.came).min(MOST_RECORDS);
        let alloc = self.rt.alloc();
        let done = self
            .topics
            .generate(self.rt, alloc, due as usize, moment.millis());
        if done.is_ok() {
            self.came = self.came.saturating_add(due);
        }
    }
}

impl<'a, D: Timed, R: Wait + AllocGlobal> Timed for ExpiryDesk<'a, D, R> {
    ghost hands = { λ d moment e. D.hands d.over moment e.over × (e ≡ record d { over = e.over }) };

    ghost ticks = { λ d moment e. D.ticks d.over moment e.over };

    fn moment(&mut self) -> Moment {
        self.over.moment()
    }

    fn tick(&mut self, moment: Moment) {
        self.over.tick(moment);
        self.generate(moment);
    }
}
