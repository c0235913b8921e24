//! What makes the desks of a server.
ghost use Rattle.std.specs.Prelude.{◌≡◌, IfOk};
ghost use Rattle.coord_shards.specs.Seat.{IsNewSeat};

use crate::desk::ShardsDesk;
use crate::expiry::Timed;
use crate::fault::ServerFault;
use crate::log::EndLog;
use coord_shards::{Gate, Image, Shards};
use link_futures::{Desk, Moments};
use std::alloc::AllocGlobal;
use std::sync::Wait;
use std::sync::ledger::Ledger;

/// What makes the desks of a server: one for each worker, and one for the expiry worker.
pub trait Desks {
    /// The desk of a worker.
    type WorkerDesk: Desk + Send;

    /// The desk of the expiry worker.
    type ExpiryDesk: Timed + Send;

    /// The desk of the worker with this number. The first worker has the number 0.
    fn desk_of(&self, worker: usize) -> Result<Self::WorkerDesk, ServerFault>;

    /// The desk of the expiry worker.
    fn expiry(&self) -> Result<Self::ExpiryDesk, ServerFault>;
}

/// Makes desks over shards, each of which has a seat of its own.
#[derive(Drop)]
pub struct ShardsDesks<'a, A: Ledger, C: Ledger, G, M, R> {
    pub rt: &'a R,
    pub shards: &'a Shards<A, C, G>,
    /// Those of each desk go on from these.
    pub moments: &'a M,
    /// Where each end of a connection is noted.
    pub log: &'a EndLog,
}

impl<'a, A, C, G, M, R> ShardsDesks<'a, A, C, G, M, R>
where
    A: Ledger,
    C: Ledger,
    G: Gate,
    M: Moments + Clone,
    R: Wait + AllocGlobal,
{
    /// A desk over the shards, with a new seat.
    pub fn shards_desk(&self) -> Result<ShardsDesk<'a, A, C, G, M, R>, ServerFault>
        ensures seat { IfOk result (λ desk. IsNewSeat desk.seat.number desk.seat) }
        ensures shards { IfOk result (λ desk. desk.shards.now ≡ self.now.shards.now) }
    {
        let moments = self.moments.clone()?;
        Ok(ShardsDesk::new(self.rt, self.rt.alloc(), self.shards, moments, self.log)?)
    }

    /// Gives each shard its topics.
    pub fn set_image(&self, image: &Image) -> Result<(), ServerFault> {
        let mut desk = self.shards_desk()?;
        let is_set = desk.set_image(image);
        drop(desk);
        Ok(is_set?)
    }
}

impl<'a, A, C, G, M, R> Desks for ShardsDesks<'a, A, C, G, M, R>
where
    A: Ledger + Send + Sync,
    C: Ledger + Send + Sync,
    G: Gate + Sync,
    M: Moments + Clone + Send,
    R: Wait + AllocGlobal + Sync,
{
    type WorkerDesk = ShardsDesk<'a, A, C, G, M, R>;

    type ExpiryDesk = ShardsDesk<'a, A, C, G, M, R>;

    fn desk_of(&self, _worker: usize) -> Result<ShardsDesk<'a, A, C, G, M, R>, ServerFault>
        ensures seat { IfOk result (λ desk. IsNewSeat desk.seat.number desk.seat) }
        ensures shards { IfOk result (λ desk. desk.shards.now ≡ self.now.shards.now) }
    {
        self.shards_desk()
    }

    fn expiry(&self) -> Result<ShardsDesk<'a, A, C, G, M, R>, ServerFault>
        ensures seat { IfOk result (λ desk. IsNewSeat desk.seat.number desk.seat) }
        ensures shards { IfOk result (λ desk. desk.shards.now ≡ self.now.shards.now) }
    {
        self.shards_desk()
    }
}
