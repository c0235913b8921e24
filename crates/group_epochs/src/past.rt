//! The ids of former members.

ghost use Rattle.std.specs.Prelude.{◌≡◌, ◌+◌, ◌≤◌, ◌==◌, [], length, map, option_map, position, slice_get, None, IsOk, OnOk};
ghost use Rattle.std.specs.List.{list_any};
ghost use Rattle.std.specs.Ordering.{eq_by_cmp};
ghost use Rattle.std.specs.Str.{bytes_eq};
ghost use Rattle.group_types.specs.Limits.{MOST_PAST_MEMBERS};
ghost use Rattle.group_types.specs.Members.{past_stamp, remembering, without_past};
ghost use Rattle.group_types.specs.Text.{text_cmp};
ghost use Rattle.group_epochs.specs.Past.{AreApart, HasRoomFor, IsPlaceOf, fingerprint, places};

use group_types::limits::MOST_PAST_MEMBERS;
use group_types::{MemberId, Stamp};
use std::alloc::{AllocError, Global};
use std::collections::VecDeque;
use std::collections::hash_map::RandomState;
use std::hash::BuildHasher;
use std::marker::Model;

/// The last ids that had a record and have none, with their last stamps, oldest first: at most [`MOST_PAST_MEMBERS`]
/// (ours). By them a late repeat of a former member's join is told from a new join.
///
/// A fingerprint of each id stands beside the list, so that a look-up compares numbers, and then one text. What is taken
/// out of a list gives its place back, as a hash table can't promise: so a full list remembers more ids without memory. The
/// oldest is forgotten without a move of the others.
#[derive(Drop)]
pub struct Past {
    entries: VecDeque<(MemberId, Stamp)>,
    fingerprints: VecDeque<u64>,
    hasher: RandomState,
}

impl Model for Past {
    ghost use Rattle.std.specs.Prelude.{◌-◌, min, length};
    ghost use Rattle.std.specs.VecDeque.{deque_capacity};
    ghost use Rattle.group_epochs.specs.Past.{AreKept, PastState, past_state_code};

    ghost Value = { PastState };

    ghost coded = { past_state_code };

    ghost view = { λ a. record { past = a.entries.items; room = min (deque_capacity a.entries) (deque_capacity a.fingerprints) - length a.entries.items } };

    ghost invariant = { λ a. AreKept a.entries.items a.fingerprints.items a.hasher };
}

impl Past {
    /// The past with no id. Takes no memory.
    pub fn new(alloc: Global, hasher: RandomState) -> Past
        ensures { result.past ≡ [] }
    {
        Past {
            entries: VecDeque::new(alloc),
            fingerprints: VecDeque::new(alloc),
            hasher,
        }
    }

    /// The number of ids that are remembered. Takes no memory.
    pub fn len(&self) -> usize
        ensures len { result ≡ length self.now.past }
        ensures limit { result ≤ MOST_PAST_MEMBERS }
        ensures apart { AreApart self.now.past }
    {
        self.entries.len()
    }

    /// The id at a place, from the oldest on, and its last stamp; none past the last. Takes no memory.
    pub fn at(&self, place: usize) -> Option<(&MemberId, Stamp)>
        ensures { option_map (λ found. (found.0.now, found.1)) result ≡ slice_get self.now.past place }
    {
        match self.entries.get(place) {
            Some((id, stamp)) => Some((id, *stamp)),
            None => None,
        }
    }

    /// The last stamp of a former member, or none where the id isn't remembered. Takes no memory.
    pub fn stamp_of(&self, id: &str) -> Option<Stamp>
        ensures { result ≡ past_stamp self.now.past id.now }
    {
        let place = place_of(&self.entries, &self.fingerprints, &self.hasher, id)?;
        Some(self.entries[place].1)
    }

    /// Whether the id is remembered. Takes no memory.
    pub fn remembers(&self, id: &str) -> bool
        ensures { result ≡ list_any (λ e. eq_by_cmp text_cmp id.now e.0) self.now.past }
    {
        place_of(&self.entries, &self.fingerprints, &self.hasher, id).is_some()
    }

    /// Makes room for as many ids altogether, or for [`MOST_PAST_MEMBERS`] where that is less. [`Past::remember`] and
    /// [`Past::forget`] keep it. The ids stay as they are, also where memory is short. Fails only where there wasn't the
    /// room.
    pub fn make_room(&mut self, ids: usize) -> Result<(), AllocError>
        ensures past { self.new.past ≡ self.old.past }
        ensures kept { self.old.room ≤ self.new.room }
        ensures room { OnOk result (HasRoomFor self.new ids) }
        ensures succeeds { HasRoomFor self.old ids → IsOk result }
    {
        let wanted = ids.min(MOST_PAST_MEMBERS);
        let more = wanted.saturating_sub(self.entries.len());
        self.entries.reserve(more)?;
        self.fingerprints.reserve(more)
    }

    /// Remembers the id of a former member, with its last stamp: it goes last, and where [`MOST_PAST_MEMBERS`] are there the
    /// oldest is forgotten. Takes no memory.
    pub fn remember(&mut self, id: MemberId, stamp: Stamp)
        requires new { past_stamp self.old.past id ≡ None }
        requires room { HasRoomFor self.old (length self.old.past + 1) }
        ensures past { self.new.past ≡ remembering self.old.past id stamp }
        ensures places { places self.new ≡ places self.old }
    {
        if MOST_PAST_MEMBERS <= self.entries.len() {
            self.entries.pop_front();
            self.fingerprints.pop_front();
        }
        self.fingerprints
            .push_back_reserved(fingerprint(&self.hasher, id.as_str()));
        self.entries.push_back_reserved((id, stamp));
    }

    /// Forgets an id, and keeps the order of the others. Takes no memory.
    pub fn forget(&mut self, id: &str)
        ensures past { self.new.past ≡ without_past self.old.past id.now }
        ensures places { places self.new ≡ places self.old }
    {
        if let Some(place) = place_of(&self.entries, &self.fingerprints, &self.hasher, id) {
            self.entries.remove(place);
            self.fingerprints.remove(place);
        }
    }
}

/// The fingerprint of an id: equal ids have equal fingerprints.
fn fingerprint(hasher: &RandomState, id: &str) -> u64
    ensures { result ≡ fingerprint hasher.now id.now }
{
    hasher.hash_one(id)
}

/// The place of an id among entries, beside which their fingerprints stand.
fn place_of(
    entries: &VecDeque<(MemberId, Stamp)>,
    fingerprints: &VecDeque<u64>,
    hasher: &RandomState,
    id: &str,
) -> Option<usize>
    requires { fingerprints.now.items ≡ map (λ e. fingerprint hasher.now e.0) entries.now.items }
    ensures { IsPlaceOf entries.now.items id.now result }
{
    let place = first_place(fingerprints, fingerprint(hasher, id))?;
    if entries[place].0.is(id) {
        return Some(place);
    }
    search(entries, id)
}

/// The first place of a number.
fn first_place(numbers: &VecDeque<u64>, number: u64) -> Option<usize>
    ensures { result ≡ position (λ n. n == number) numbers.now.items }
{
    numbers.iter().position(|other| *other == number)
}

/// The first entry with an id, where all are looked at: another id before it has the same fingerprint.
fn search(entries: &VecDeque<(MemberId, Stamp)>, id: &str) -> Option<usize>
    ensures { result ≡ position (λ e. bytes_eq e.0 id.now) entries.now.items }
{
    entries.iter().position(|entry| entry.0.is(id))
}
