//! Whether what seats sent is what shards took.
ghost use Rattle.std.specs.Prelude.{◌≡◌, ◌↔◌, ◌<◌, [], ◌∷◌, All, IsTrue, IfSome, IfNone, length};
ghost use Rattle.coord_shards.specs.Close.{events_from, events_to, Agrees};

use crate::event::Event;
use crate::locked_shard::LockedShard;
use crate::seat::{Seat, SentEvent};
use crate::shard::{JournalEntry, Shard};
use std::sync::ledger::Ledger;

/// Whether all seats agree with all shards.
pub(crate) fn all_agree<A: Ledger, C: Ledger>(
    cap: usize,
    held: &[LockedShard<A, C>],
    seats: &[Seat<C>],
) -> bool
    ensures { IsTrue result ↔ (All (λ h. All (Agrees cap h.shard) seats.now) held.now) }
{
    held.iter()
        .all(|held| agrees_with_all(cap, &held.shard, seats))
}

/// Whether all seats agree with a shard.
fn agrees_with_all<C: Ledger>(cap: usize, shard: &Shard, seats: &[Seat<C>]) -> bool
    ensures { IsTrue result ↔ (All (Agrees cap shard.now) seats.now) }
{
    seats.iter().all(|seat| agrees(cap, shard, seat))
}

/// Whether a seat's count in a shard is its calls there, and, above cap 0, its entries there are what it sent there.
fn agrees<C: Ledger>(cap: usize, shard: &Shard, seat: &Seat<C>) -> bool
    ensures { IsTrue result ↔ (Agrees cap shard.now seat.now) }
{
    let (number, home) = (seat.number(), shard.number());
    shard.count(number) == seat.calls_on(home)
        && (cap == 0 || are_the_same(shard.entries(), number, seat.sent(), home))
}

/// Whether the events that came from a seat are those that went to a shard.
fn are_the_same(entries: &[JournalEntry], seat: usize, sent: &[SentEvent], shard: usize) -> bool
    ensures { IsTrue result ↔ (events_from seat entries.now ≡ events_to shard sent.now) }
{
    let (mut entries, mut sent) = (entries, sent);
    while let [entry, rest @ ..] = entries {
        if entry.seat == seat {
            match next_to(sent, shard) {
                Some((went, later)) if entry.event.equals(went) => sent = later,
                _ => return false,
            }
        }
        entries = rest;
    }
    next_to(sent, shard).is_none()
}

/// The first event that went to a shard, and what was sent behind it.
fn next_to(sent: &[SentEvent], shard: usize) -> Option<(&Event, &[SentEvent])>
    ensures none { IfNone result (events_to shard sent.now ≡ []) }
    ensures first { IfSome result (λ next. events_to shard sent.now ≡ next.0.now ∷ events_to shard next.1.now) }
{
    let mut left = sent;
    while let [first, rest @ ..] = left {
        if first.shard == shard {
            return Some((&first.event, rest));
        }
        left = rest;
    }
    None
}
