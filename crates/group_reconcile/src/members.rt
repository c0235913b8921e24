//! The members that were offered a target, by their numbers.

ghost use Rattle.std.specs.Prelude.{ℕ, ◌≡◌, ◌<◌, IfOk, IsSome, IsTrue, None, OnErr, OnOk};
ghost use Rattle.std.specs.Option.{option_copied, option_map};
ghost use Rattle.std.specs.List.Sorted.{IsStrictlySortedBy};
ghost use Rattle.std.specs.VecDeque.{deque_capacity, deque_len};
ghost use Rattle.slab.specs.Slab.{HasRoomFor, get};
ghost use Rattle.group_types.specs.Sets.{with_one};
ghost use Rattle.group_types.specs.Text.{text_cmp};
ghost use Rattle.group_reconcile.specs.Members.{Changes, IsIdOrder, IsIdOrderBut, IsNumberOf, IsPlace, KeepsMembers, KeepsParts, RenamesMember, SetsParts, TakesMember, by_id, id_of, parts_of, with_id};

use group_types::{MemberId, PartSet, Partition};
use slab::Slab;
use std::alloc::{AllocError, Global};
use std::cmp::Ordering;
use std::collections::VecDeque;
use std::marker::Model;

/// A member and what it holds.
#[derive(Drop)]
pub struct Member {
    pub id: MemberId,
    pub parts: PartSet,
}

/// The members that were offered a target, by numbers that stay while a member stays.
#[derive(Drop)]
pub struct Members {
    members: Slab<Member>,
    by_id: VecDeque<usize>,
    /// Where the last member stood that was taken out: the one that follows it stands there now, and in a tick it is often the next
    /// to go.
    gap: usize,
}

impl Model for Members {
    ghost use Rattle.group_reconcile.specs.Members.{IsIdOrder, MemberTable, member_table_code};

    ghost Value = { MemberTable };

    ghost coded = { member_table_code };

    ghost view = { λ a. a.members };

    ghost invariant = { λ a. IsIdOrder a.members a.by_id.items };
}

impl Members {
    /// The table with no member. Takes no memory.
    pub fn new(alloc: Global) -> Members
        ensures { (k : ℕ) → get result k ≡ None }
    {
        Members {
            members: Slab::new(alloc),
            by_id: VecDeque::new(alloc),
            gap: 0,
        }
    }

    /// The member with this number. Takes no memory.
    pub fn get(&self, number: usize) -> Option<&Member>
        ensures { option_copied result ≡ get self.now number }
    {
        self.members.get(number)
    }

    /// The number of the member with this id. Takes no memory.
    pub fn find(&self, id: &str) -> Option<usize>
        ensures { IsNumberOf self.now id.now result }
    {
        match place_of(&self.members, &self.by_id, id) {
            Ok(place) => Some(self.by_id[place]),
            Err(_) => None,
        }
    }

    /// The number of the member with this id, as [`Members::find`] says, and the place to give for the next member in the order of
    /// the ids: a member whose place is `near` is found without a search. Takes no memory.
    pub fn find_near(&self, id: &str, near: usize) -> (Option<usize>, usize)
        ensures { IsNumberOf self.now id.now result.0 }
    {
        match place_near(&self.members, &self.by_id, id, near) {
            Ok(place) => (Some(self.by_id[place]), place + 1),
            Err(place) => (None, place),
        }
    }

    /// The number of the member with this id: a new one, which holds nothing, where no member has the id. Where memory is
    /// short, no member has changed.
    pub fn number_for(&mut self, alloc: Global, id: &MemberId) -> Result<usize, AllocError>
        ensures number { IfOk result (λ n. IsNumberOf self.new id.now (Some n)) }
        ensures members { KeepsMembers self.old self.new }
        ensures parts { KeepsParts self.old self.new }
    {
        let at = match place_of(&self.members, &self.by_id, id.as_str()) {
            Ok(place) => return Ok(self.by_id[place]),
            Err(at) => at,
        };
        self.members.reserve(1)?;
        self.by_id.reserve(1)?;
        let id = id.copy(alloc)?;
        let parts = PartSet::new(alloc);
        Ok(add(&mut self.members, &mut self.by_id, at, Member { id, parts }))
    }

    /// Takes the member with this id out, and gives what it held: without a search where it follows the one that was taken out
    /// before it. Takes no memory.
    pub fn take(&mut self, id: &str) -> Option<PartSet>
        ensures { TakesMember self.old self.new id.now result }
    {
        let Ok(place) = place_near(&self.members, &self.by_id, id, self.gap) else {
            return None;
        };
        self.gap = place;
        let Some(number) = self.by_id.remove(place) else {
            unreachable!()
        };
        let Member { id: _, parts } = self.members.try_remove(number)?;
        Some(parts)
    }

    /// Gives back the room of the table where no member is left, and says whether none is. Takes no memory.
    pub fn give_back(&mut self) -> bool
        ensures none { IsTrue result → (k : ℕ) → get self.old k ≡ None }
        ensures members { (k : ℕ) → get self.new k ≡ get self.old k }
    {
        if !self.by_id.is_empty() {
            return false;
        }
        self.members.shrink_to_fit();
        self.by_id.shrink_to_fit();
        true
    }

    /// Gives the member with the old id the new one, which no member has. Its number stays. Takes no memory.
    pub fn rename(&mut self, old: &str, new: MemberId)
        requires { IsNumberOf self.old new None }
        ensures { RenamesMember self.old self.new old.now new }
    {
        let Ok(place) = place_of(&self.members, &self.by_id, old) else {
            return;
        };
        let Some(number) = self.by_id.remove(place) else {
            unreachable!()
        };
        put_back(&mut self.members, &mut self.by_id, number, new);
    }

    /// Says what the member with this number holds now. Takes no memory.
    pub fn set_parts(&mut self, number: usize, parts: PartSet)
        ensures { SetsParts self.old self.new number parts }
    {
        if let Some(member) = self.members.get_mut(number) {
            member.parts = parts;
        }
    }

    /// Adds a partition to those that the member with this number holds. Where memory is short, no member has changed.
    pub fn add_part(&mut self, number: usize, p: Partition) -> Result<(), AllocError>
        ensures added { OnOk result (SetsParts self.old self.new number (with_one (parts_of self.old number) p)) }
        ensures err { OnErr result ((k : ℕ) → get self.new k ≡ get self.old k) }
    {
        if let Some(member) = self.members.get_mut(number) {
            member.parts.insert(p)?;
        }
        Ok(())
    }
}

/// Puts a member in at its place among the numbers, for which there is room.
fn add(members: &mut Slab<Member>, by_id: &mut VecDeque<usize>, at: usize, member: Member) -> usize
    requires room { HasRoomFor members.old 1 }
    requires place_room { deque_len by_id.old < deque_capacity by_id.old }
    requires order { IsIdOrder members.old by_id.old.items }
    requires place { IsPlace members.old member.id by_id.old.items (Err at) }
    ensures vacant { get members.old result ≡ None }
    ensures added { Changes members.old members.new result (Some member) }
    ensures order { IsIdOrder members.new by_id.new.items }
{
    let number = members.insert_reserved(member);
    let Ok(()) = by_id.insert(at, number) else {
        unreachable!()
    };
    number
}

/// Puts the number of a member back among the others under a new id, for which there is room.
fn put_back(members: &mut Slab<Member>, by_id: &mut VecDeque<usize>, number: usize, id: MemberId)
    requires room { deque_len by_id.old < deque_capacity by_id.old }
    requires order { IsIdOrderBut members.old number by_id.old.items }
    requires there { IsSome (get members.old number) }
    requires apart { IsNumberOf members.old id None }
    ensures named { Changes members.old members.new number (option_map (with_id id) (get members.old number)) }
    ensures order { IsIdOrder members.new by_id.new.items }
{
    let Err(at) = place_of(members, by_id, id.as_str()) else {
        unreachable!()
    };
    let Ok(()) = by_id.insert(at, number) else {
        unreachable!()
    };
    if let Some(member) = members.get_mut(number) {
        member.id = id;
    }
}

/// The place of the number whose member has this id, or the place where such a number goes.
fn place_of(members: &Slab<Member>, numbers: &VecDeque<usize>, id: &str) -> Result<usize, usize>
    requires { IsStrictlySortedBy (by_id members.now) numbers.now.items }
    ensures { IsPlace members.now id.now numbers.now.items result }
{
    numbers.binary_search_by(|number| compare(members, *number, id))
}

/// The place of the number whose member has this id, or the place where such a number goes: without a search where its place is
/// `near`.
fn place_near(
    members: &Slab<Member>,
    numbers: &VecDeque<usize>,
    id: &str,
    near: usize,
) -> Result<usize, usize>
    requires { IsStrictlySortedBy (by_id members.now) numbers.now.items }
    ensures { IsPlace members.now id.now numbers.now.items result }
{
    if near < numbers.len() && compare(members, numbers[near], id).is_eq() {
        return Ok(near);
    }
    place_of(members, numbers, id)
}

/// How the id of the member with this number and an id are ordered.
fn compare(members: &Slab<Member>, number: usize, id: &str) -> Ordering
    ensures { result ≡ text_cmp (id_of members.now number) id.now }
{
    match members.get(number) {
        Some(member) => member.id.compare(id),
        None => "".cmp(id),
    }
}
