//! A node with its journal.
ghost use Rattle.std.specs.Prelude.{◌≡◌, ◌↔◌, ◌<◌, ◌-◌, ◌^◌, IfErr, IfOk, OnOk, OnErr, IsErr, IsErrOf, IsTrue, slice_index, sum};
ghost use Rattle.coord_node.specs.Nodes.{coordinator_of};
ghost use Rattle.coord_shards.specs.Events.{event_of, Gives, UnlessRefused};
ghost use Rattle.coord_shards.specs.Home.{IsHome};
ghost use Rattle.coord_shards.specs.Shard.{kept_with};
ghost use Rattle.coord_shards.specs.Replay.{Replay, IsFull, GoesOn};

use crate::counts::no_counts;
use crate::event::{Answer, Event};
use crate::fault::CallFault;
use crate::incoming::{Effect, Incoming};
use crate::limits::MOST_SEATS;
use coord_node::Node;
use std::alloc::Global;
use std::collections::hash_map::RandomState;
use std::marker::Model;

/// An event, and the number of the seat that it came from: what a journal keeps.
#[derive(Drop)]
pub struct JournalEntry {
    pub seat: usize,
    pub event: Event,
}

/// What all shards have in common: the salt of the ids that they make, how many entries their journals keep, and how their
/// nodes look groups up.
#[derive(Clone, Copy)]
pub(crate) struct ShardSettings {
    pub(crate) salt: u64,
    pub(crate) cap: usize,
    pub(crate) hasher: RandomState,
}

/// One coordinator of several: a node, the entries that were made in it, and how many of them each seat made.
///
/// A shard is what its entries make of the opening state, run one after the other through the machine of KIP-848. At cap 0
/// entries are counted and not kept.
#[derive(Drop)]
pub struct Shard {
    alloc: Global,
    number: usize,
    shards: usize,
    settings: ShardSettings,
    node: Node,
    journal: Vec<JournalEntry>,
    counts: [u64; MOST_SEATS],
}

impl Model for Shard {
    ghost use Rattle.coord_shards.specs.Shard.{ShardState};
    ghost use Rattle.std.specs.Coded.{codes};
    ghost use Rattle.topic_meta.specs.Stored.{topics_code};
    ghost use Rattle.coord_node.specs.Stored.{coordinator_code};

    ghost Value = { ShardState };

    ghost coded = { Prim.hlevel (codes, coordinator_code, topics_code) };

    ghost use Rattle.coord_shards.specs.Replay.{IsShard, shard_view};

    ghost view = { shard_view };

    ghost invariant = { λ s. IsShard (shard_view s) };
}

impl Shard {
    /// The shard with a number, of `shards` shards, before anything came to it. Takes no memory.
    pub(crate) fn new(alloc: Global, number: usize, shards: usize, settings: ShardSettings) -> Shard
        requires { number < shards }
        ensures number { result.number ≡ number }
        ensures shards { result.shards ≡ shards }
        ensures salt { result.salt ≡ settings.salt }
        ensures cap { result.cap ≡ settings.cap }
        ensures none { sum result.counts ≡ 0 }
    {
        Shard {
            alloc,
            number,
            shards,
            settings,
            node: Node::new(alloc, settings.salt, settings.hasher),
            journal: Vec::new(alloc),
            counts: no_counts(),
        }
    }

    /// The number of the shard among the shards: below their number.
    pub fn number(&self) -> usize
        ensures number { result ≡ self.now.number }
        ensures there { self.now.number < self.now.shards }
    {
        self.number
    }

    /// The node as it is now.
    pub fn present(&self) -> &Node
        ensures node { coordinator_of result.now ≡ self.now.present }
        ensures replay { Replay self.now }
    {
        &self.node
    }

    /// The entries that were made, in their order; at cap 0 none.
    pub fn entries(&self) -> &[JournalEntry]
        ensures { result.now ≡ self.now.kept }
    {
        self.journal.as_slice()
    }

    /// How many entries a seat made.
    pub fn count(&self, seat: usize) -> u64
        ensures { result ≡ slice_index self.now.counts seat }
    {
        if seat < MOST_SEATS {
            self.counts[seat]
        } else {
            0
        }
    }

    /// Whether this is the shard with this number, of `shards` shards, and with this salt.
    pub fn is_itself(&self, number: usize, shards: usize, salt: u64) -> bool
        ensures itself { IsTrue result ↔ ((self.now.number ≡ number) × (self.now.shards ≡ shards) × (self.now.salt ≡ salt)) }
        ensures replay { Replay self.now }
    {
        self.shards == shards && self.number == number && self.settings.salt == salt
    }

    /// Takes an event of this shard from a seat: the node does what the machine does, the event comes last into the journal,
    /// and the seat's count rises by one.
    ///
    /// Refused where memory is short, where the journal has as many entries as its cap, and where the seat's count is at its
    /// greatest. Then nothing has changed.
    pub fn step(&mut self, seat: usize, event: Event) -> Answer
        requires seat { seat < MOST_SEATS }
        requires home { IsHome self.old.shards event self.old.number }
        ensures step { UnlessRefused result self.old self.new
            (λ given. GoesOn self.old (record { seat = seat; event = event }) given self.new) }
        ensures full { IsFull self.old → result ≡ Answer.Refused }
        ensures spent { slice_index self.old.counts seat ≡ 2 ^ 64 - 1 → result ≡ Answer.Refused }
    {
        let mut out = Vec::new(self.alloc);
        let Ok(event) = Incoming::of(self.alloc, &event) else {
            return Answer::Refused;
        };
        let taken = self.take(seat, &event, &mut out);
        drop(event);
        Answer::of(taken, out)
    }

    /// Takes an event of this shard from a seat, as [`Shard::step`], and appends the bytes of the answer. The event is copied only
    /// if the journal keeps entries, and before the node's step. Fails if [`Shard::step`] refuses.
    pub(crate) fn take(
        &mut self,
        seat: usize,
        event: &Incoming<'_>,
        out: &mut Vec<u8>,
    ) -> Result<Effect, CallFault>
        requires seat { seat < MOST_SEATS }
        requires home { IsHome self.old.shards (event_of event.now) self.old.number }
        ensures step { IfOk result (λ outcome. Gives outcome out.old.items out.new.items
            (λ given. GoesOn self.old (record { seat = seat; event = event_of event.now }) given self.new)) }
        ensures err { OnErr result ((self.new ≡ self.old) × (out.new.items ≡ out.old.items)) }
        ensures full { IsFull self.old → IsErr result }
        ensures is_full { IsFull self.old → IsErrOf result CallFault.JournalFull }
        ensures of_full { IsErrOf result CallFault.JournalFull → IsFull self.old }
        ensures spent { slice_index self.old.counts seat ≡ 2 ^ 64 - 1 → IsErr result }
        ensures of_spent { IsErrOf result CallFault.CallsSpent → slice_index self.old.counts seat ≡ 2 ^ 64 - 1 }
    {
        if self.is_full() {
            return Err(CallFault::JournalFull);
        }
        if self.counts[seat] == u64::MAX {
            return Err(CallFault::CallsSpent);
        }
        let kept = self.journal.len();
        keep(
            self.alloc,
            &mut self.journal,
            self.settings.cap,
            seat,
            event,
        )?;
        match event.act(&mut self.node, out) {
            Ok(outcome) => {
                self.counts[seat] += 1;
                Ok(outcome)
            }
            Err(_) => {
                self.journal.truncate(kept);
                Err(CallFault::NoMemory)
            }
        }
    }

    /// Whether the journal has as many entries as it may keep. At cap 0 it never is full.
    fn is_full(&self) -> bool
        ensures { IsTrue result ↔ IsFull self.now }
    {
        0 < self.settings.cap && self.settings.cap <= self.journal.len()
    }
}

/// Puts the entry of an event last into a journal that keeps entries, with a copy of the event. If memory is short nothing has
/// changed.
fn keep(
    alloc: Global,
    journal: &mut Vec<JournalEntry>,
    cap: usize,
    seat: usize,
    event: &Incoming<'_>,
) -> Result<(), CallFault>
    ensures kept { OnOk result (journal.new.items
        ≡ kept_with cap journal.old.items (record { seat = seat; event = event_of event.now })) }
    ensures err { OnErr result (journal.new.items ≡ journal.old.items) }
    ensures fault { IfErr result (λ fault. fault ≡ CallFault.NoMemory) }
{
    if cap > 0 {
        let event = event.copy(alloc)?;
        journal.push(JournalEntry { seat, event })?;
    }
    Ok(())
}
