//! The desks of a broker's workers.

use crate::expiry::ExpiryDesk;
use broker_apis::{BrokerApis, Topics};
use broker_desk::BrokerDesk;
use coord_server::{AlwaysOpen, ClockMoments, Desks, ServerFault, ShardsDesk, ShardsDesks};
use std::alloc::AllocGlobal;
use std::sync::Wait;
use std::sync::ledger::Ledger;
use std::time::Clock;

/// The desk of a coordinator, over shards that a program has.
type CoordinatorDesk<'a, A, C, R> = ShardsDesk<'a, A, C, AlwaysOpen, ClockMoments<'a, R>, R>;

/// The desk of a broker's worker, over that one.
type WorkerDesk<'a, A, C, R> = BrokerDesk<
    'a,
    CoordinatorDesk<'a, A, C, R>,
    BrokerApis<'a, A, C, AlwaysOpen, R>,
    R,
>;

/// Makes the desks of a broker: that of a worker answers clients over the shards and the topics, and that of the expiry worker lets the
/// time of the shards go on, and has records come to the topics.
#[derive(Drop)]
pub struct BrokerDesks<'a, A: Ledger, C: Ledger, R> {
    pub over: ShardsDesks<'a, A, C, AlwaysOpen, ClockMoments<'a, R>, R>,
    pub topics: &'a Topics,
    /// How many records come to each partition in a second.
    pub rate: u64,
}

impl<'a, A, C, R> Desks for BrokerDesks<'a, A, C, R>
where
    A: Ledger + Send + Sync,
    C: Ledger + Send + Sync,
    R: Wait + Clock + AllocGlobal + Sync,
{
    type WorkerDesk = WorkerDesk<'a, A, C, R>;

    type ExpiryDesk = ExpiryDesk<'a, CoordinatorDesk<'a, A, C, R>, R>;

    fn desk_of(&self, worker: usize) -> Result<WorkerDesk<'a, A, C, R>, ServerFault> {
        let coordinator = self.over.shards_desk()?;
        let rt = self.over.rt;
        let others = BrokerApis {
            rt,
            alloc: rt.alloc(),
            shards: self.over.shards,
            topics: self.topics,
            log: self.over.log,
            worker,
        };
        Ok(BrokerDesk::new(rt, rt.alloc(), coordinator, others))
    }

    fn expiry(&self) -> Result<ExpiryDesk<'a, CoordinatorDesk<'a, A, C, R>, R>, ServerFault> {
        let over = self.over.shards_desk()?;
        let began = self.over.moments.first();
        Ok(ExpiryDesk::new(over, self.over.rt, self.topics, self.rate, began))
    }
}
