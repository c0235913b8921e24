//! Shards behind locks.
ghost use Rattle.std.specs.Prelude.{◌≡◌, ◌⊎◌, ◌↔◌, ◌+◌, ◌*◌, ◌<◌, ◌≤◌, ◌^◌, ℕ, IfOk, IfErr, OnOk, OnErr, IsErrOf, vec_len};
ghost use Rattle.coord_shards.specs.Home.{IsHome, shard_of_group};
ghost use Rattle.coord_shards.specs.Seat.{IsNewSeat, calls_of, most_entries};
ghost use Rattle.coord_shards.specs.Calls.{SeatCalls, IsTaken, IsAnsweredInARun, Rises};
ghost use Rattle.coord_shards.specs.Events.{event_of, Gives};

use crate::event::{Answer, Event};
use crate::fault::{CallFault, ShardFault};
use crate::gate::Gate;
use crate::homes::{shard_numbered, shard_of_group};
use crate::incoming::{Effect, Incoming};
use crate::limits::{MOST_KEPT, MOST_SEATS, MOST_SHARDS};
use crate::locked_shard::LockedShard;
use crate::reader::NodeReader;
use crate::registry::{Registry, fill};
use crate::seat::Seat;
use crate::shard::{Shard, ShardSettings};
use coord_node::{Answered, Moment, ParsedBody, Stamp};
use std::alloc::{AllocError, Global};
use std::collections::hash_map::RandomState;
use std::marker::Model;
use std::sync::ledger::{Blank, Book, Ledger, Share, Total};
use std::sync::{Mutex, Wait};

/// Shards, each behind a lock of its own.
///
/// Threads share them by reference, each with a [`Seat`]. What a call does to a shard is one [`Shard::step`] under its lock;
/// no other lock is taken for it.
///
/// The ledgers exist in proofs alone. `A` counts entries: each shard has a unit of it for each entry that it may make, and enters it
/// with the entry. `C` counts calls: each seat has a unit of it for each call that it can make, and hands it over to its shard with
/// the call. At the end both are put together, and say that there are as many entries as calls. They also tell these shards from
/// others, so that no seat of others fits.
#[derive(Drop)]
pub struct Shards<A: Ledger, C: Ledger, G> {
    pub(crate) shards: Vec<Mutex<LockedShard<A, C>>>,
    pub(crate) registry: Mutex<Registry<A, C>>,
    pub(crate) entries: Total<A>,
    pub(crate) calls: Total<C>,
    pub(crate) settings: ShardSettings,
    pub(crate) gate: G,
}

impl<A: Ledger, C: Ledger, G> Model for Shards<A, C, G> {
    ghost use Rattle.std.specs.Prelude.{◌≡◌, ◌+◌, ◌*◌, ◌<◌, ◌≤◌, vec_len};
    ghost use Rattle.coord_shards.specs.Limits.{MOST_SHARDS, MOST_SEATS};
    ghost use Rattle.coord_shards.specs.Seat.{most_entries};
    ghost use Rattle.coord_shards.specs.Calls.{Shape};

    ghost Value = { Shape };

    ghost view = { λ s. record { shards = vec_len s.shards; salt = s.settings.salt; cap = s.settings.cap } };

    ghost invariant = { λ s. (0 < vec_len s.shards) × (vec_len s.shards ≤ MOST_SHARDS)
        × (s.entries.parts ≡ 2 * vec_len s.shards) × (s.entries.amount ≡ vec_len s.shards * most_entries)
        × (s.calls.parts ≡ MOST_SEATS + vec_len s.shards) × (s.calls.amount ≡ most_entries) };
}

impl<A: Ledger, C: Ledger, G> Shards<A, C, G> {
    /// Makes `shards` shards, 1 to 64 of them, none of which has met an event. The journal of each may keep `cap` entries, at most
    /// 65,536.
    ///
    /// The blanks become the ledgers: that of the entries has two parts for each shard, and that of the calls one part for each
    /// shard and one for each seat that there can be.
    pub fn new(
        alloc: Global,
        shards: usize,
        salt: u64,
        cap: usize,
        hasher: RandomState,
        gate: G,
        entries: Blank,
        calls: Blank,
    ) -> Result<Shards<A, C, G>, ShardFault>
    where
        G: Drop,
        requires entries { (entries.name ≡ A.name) × (entries.parts ≡ A.parts) × (entries.parts ≡ 2 * shards) }
        requires calls { (calls.name ≡ C.name) × (calls.parts ≡ C.parts) × (calls.parts ≡ MOST_SEATS + shards) }
        ensures shape { IfOk result (λ made. made ≡ record { shards = shards; salt = salt; cap = cap }) }
        ensures bad { (shards ≡ 0) ⊎ ((MOST_SHARDS < shards) ⊎ (MOST_KEPT < cap)) ↔ IsErrOf result ShardFault.BadNumber }
        ensures faults { IfErr result (λ fault. (fault ≡ ShardFault.BadNumber) ⊎ (fault ≡ ShardFault.NoMemory)) }
    {
        if shards == 0 || MOST_SHARDS < shards || MOST_KEPT < cap {
            return Err(ShardFault::BadNumber);
        }
        let settings = ShardSettings { salt, cap, hasher };
        let (mut entries, mut rest) = entries.open::<A>();
        let (mut calls, mut seats) = calls.open::<C>();
        fill(&mut calls, &mut seats);
        let made = locked(alloc, shards, settings, &mut entries, &mut rest, &mut seats);
        let Ok(made) = made else {
            return Err(ShardFault::NoMemory);
        };
        let registry = Registry {
            given: 0,
            seats,
            entries: rest,
        };
        Ok(Shards {
            shards: made,
            registry: Mutex::new(registry),
            entries: entries.close(),
            calls: calls.close(),
            settings,
            gate,
        })
    }

    /// How many shards there are.
    pub fn shards(&self) -> usize
        ensures number { result ≡ self.now.shards }
        ensures some { 0 < result }
        ensures few { result ≤ MOST_SHARDS }
    {
        self.shards.len()
    }

    /// The gate.
    pub fn gate(&self) -> &G {
        &self.gate
    }

    /// Gives out a seat; the numbers rise from 0. No seat is left once 256 were given out.
    pub fn seat<R: Wait>(&self, rt: &R, alloc: Global) -> Result<Seat<C>, ShardFault>
        ensures seat { IfOk result (λ seat. IsNewSeat seat.number seat) }
        ensures number { IfOk result (λ seat. seat.number < MOST_SEATS) }
        ensures fault { IfErr result (λ fault. fault ≡ ShardFault.NoSeat) }
    {
        match self.registry.lock(rt).next() {
            Some((number, share)) => Ok(Seat::new(alloc, number, share)),
            None => Err(ShardFault::NoSeat),
        }
    }

    /// Sends an event from a seat to the shard that is its home, and gives the shard's answer.
    ///
    /// If it is refused, nothing has changed: [`CallFault`] has the reasons.
    pub fn call<R: Wait>(&self, rt: &R, alloc: Global, seat: &mut Seat<C>, event: Event) -> Answer
    where
        G: Gate,
        ensures call { SeatCalls self.now seat.old event result seat.new }
    {
        let mut out = Vec::new(alloc);
        let Ok(event) = Incoming::of(alloc, &event) else {
            return Answer::Refused;
        };
        let taken = self.take(rt, alloc, seat, &event, &mut out);
        drop(event);
        Answer::of(taken, out)
    }

    /// Answers the body of a frame from a seat, as [`Shards::call`] answers the event that it is: appends the one frame of the reply,
    /// or closes. The body is read once, and is copied only if journals keep entries. If it fails, nothing has changed.
    pub fn answer<R: Wait>(
        &self,
        rt: &R,
        alloc: Global,
        seat: &mut Seat<C>,
        body: &[u8],
        stamp: Stamp,
        moment: Moment,
        out: &mut Vec<u8>,
    ) -> Result<Answered, CallFault>
    where
        G: Gate,
        // The frame is taken as `call` takes the event that it is, and the bytes of the answer are appended.
        ensures taken { IfOk result (λ kind. Gives (Effect.Answered kind) out.old.items out.new.items
            (λ given. IsTaken self.now seat.old (Event.Frame body.now stamp moment) given seat.new)) }
        ensures err { OnErr result ((seat.new ≡ seat.old) × (out.new.items ≡ out.old.items)) }
    {
        let body = ParsedBody::of(alloc, body)?;
        let event = Incoming::Frame(body, stamp, moment);
        let taken = self.take(rt, alloc, seat, &event, out);
        drop(event);
        match taken? {
            Effect::Answered(answered) => Ok(answered),
            Effect::Done(_) => unreachable!(),
        }
    }

    /// The number of the shard of a group: a group's frames and no others go there, besides those that are no request, which go to
    /// shard 0.
    pub fn shard_of(&self, group: &str) -> usize
        ensures home { result ≡ shard_of_group self.now.shards group.now }
        ensures there { result < self.now.shards }
    {
        shard_of_group(group, self.shards.len())
    }

    /// Has a reader look at the node of the shard with a number, under its lock. A shard that isn't there counts as shard 0. Nothing
    /// changes, and no entry is made. Fails if the reader does.
    pub fn read<R: Wait, V: NodeReader>(
        &self,
        rt: &R,
        number: usize,
        reader: &mut V,
    ) -> Result<(), AllocError> {
        let number = shard_numbered(number, self.shards.len());
        let mut guard = self.shards[number].lock(rt);
        let held = &mut *guard;
        reader.read(held.shard.present())
    }

    /// An event's seat notes it, and the shard that is its home takes it and appends the bytes of the answer. If that fails, nothing
    /// has changed.
    fn take<R: Wait>(
        &self,
        rt: &R,
        alloc: Global,
        seat: &mut Seat<C>,
        event: &Incoming<'_>,
        out: &mut Vec<u8>,
    ) -> Result<Effect, CallFault>
    where
        G: Gate,
        ensures taken { IfOk result (λ outcome. Gives outcome out.old.items out.new.items
            (λ given. IsTaken self.now seat.old (event_of event.now) given seat.new)) }
        ensures err { OnErr result ((seat.new ≡ seat.old) × (out.new.items ≡ out.old.items)) }
    {
        let number = event.home(self.shards.len());
        let sent = seat.sent().len();
        seat.note(alloc, self.settings.cap, number, event)?;
        let taken = self.take_at(rt, number, seat, event, out);
        if taken.is_err() {
            seat.forget(sent);
        }
        taken
    }

    /// The shard with a number takes an event of its own from a seat, under its lock.
    fn take_at<R: Wait>(
        &self,
        rt: &R,
        number: usize,
        seat: &mut Seat<C>,
        event: &Incoming<'_>,
        out: &mut Vec<u8>,
    ) -> Result<Effect, CallFault>
    where
        G: Gate,
        requires home { IsHome self.now.shards (event_of event.now) number }
        requires there { number < self.now.shards }
        requires fits { calls_of seat.old + 1 < 2 ^ 64 }
        ensures answered { IfOk result (λ outcome. Gives outcome out.old.items out.new.items
            (λ given. IsAnsweredInARun self.now number (event_of event.now) given)) }
        ensures seat { OnOk result (Rises seat.old number seat.new) }
        ensures err { OnErr result ((seat.new ≡ seat.old) × (out.new.items ≡ out.old.items)) }
    {
        let mut locked = self.shards[number].lock(rt);
        let held = &mut *locked;
        if !held
            .shard
            .is_itself(number, self.shards.len(), self.settings.salt)
        {
            return Err(CallFault::OtherShard);
        }
        self.gate.inside(number);
        held.take(seat, event, &self.calls, out)
    }
}

/// Makes `shards` new shards behind locks. Each has two parts of the entries' ledger, one of which is filled with a unit for each call
/// that all seats can make, and one empty part of the calls' ledger, which has a part for each seat beside them.
fn locked<A: Ledger, C: Ledger>(
    alloc: Global,
    shards: usize,
    settings: ShardSettings,
    book: &mut Book<A>,
    entries: &mut Share<A>,
    calls: &mut Share<C>,
) -> Result<Vec<Mutex<LockedShard<A, C>>>, AllocError>
    requires entries { (entries.old.parts ≡ 2 * shards) × (entries.old.amount ≡ 0) }
    requires calls { calls.old.parts ≡ MOST_SEATS + shards }
    ensures number { IfOk result (λ made. vec_len made ≡ shards) }
    ensures book { OnOk result (book.new.total ≡ book.old.total + shards * most_entries) }
    ensures entries { OnOk result ((entries.new.parts ≡ 0) × (entries.new.amount ≡ 0)) }
    ensures calls { OnOk result ((calls.new.parts ≡ MOST_SEATS) × (calls.new.amount ≡ calls.old.amount)) }
{
    let mut made = Vec::with_capacity(alloc, shards)?;
    for number in 0..shards {
        let shard = Shard::new(alloc, number, shards, settings);
        let mut left = entries.split_off(1, 0);
        fill(book, &mut left);
        made.push(Mutex::new(LockedShard {
            shard,
            left,
            entered: entries.split_off(1, 0),
            calls: calls.split_off(1, 0),
        }))?;
    }
    Ok(made)
}
