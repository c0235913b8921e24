//! The records of a group's members.

ghost use Rattle.std.specs.Prelude.{◌≡◌, ◌↔◌, ◌≢◌, ◌<◌, ◌≤◌, ◌++◌, ◌∷◌, [], false, length, slice_get, IsTrue, IsSome, IfOk, OnErr, OnOk, MatchOption, Some, None};
ghost use Rattle.std.specs.Option.{option_copied, option_map};
ghost use Rattle.group_types.specs.Tick.{NoneIsDue};
ghost use Rattle.group_epochs.specs.Table.{IsFirstRank, member_at};
ghost use Rattle.std.specs.FinMap as finite;
ghost use Rattle.group_types.specs.Sets.{size};
ghost use Rattle.group_types.specs.Text.{Text};
ghost use Rattle.group_types.specs.Fencing.{stamp_kept};
ghost use Rattle.group_types.specs.Group.{Record as Kept};
ghost use Rattle.group_types.specs.Limits.{MOST_PAST_MEMBERS};
ghost use Rattle.group_types.specs.Members.{HasInstance, is_remembered, past_stamp, taken_over, with_record, without_record};
ghost use Rattle.group_types.specs.Leave.{away};
ghost use Rattle.group_types.specs.Renewal.{AreMembers, view_for};
ghost use Rattle.group_epochs.specs.Records.{CanJoin, CanReplace, IsInstanceFreeFor, IsMarkedBeat, IsMember, KeepsNames, beaten, members_in};

use crate::counts::{Counts, asked_of, count_down, count_up};
use crate::deadlines::{Searched, earlier, first_of_all};
use crate::entry::{Entry, Table};
use crate::names::NewNames;
use crate::order::{around, with_instance};
use crate::past::Past;
use crate::record::Record;
use crate::subscribers::add_others;
use crate::table::{add, beat_marked, first_due, go_away, mark, put, take_out, take_out_at};
use group_types::limits::SESSION_TIMEOUT;
use group_types::{EpochNumber, MemberId, Moment, NameSet, Stamp};
use indexmap::IndexMap;
use range_assign::Subs;
use std::alloc::{AllocError, Global};
use std::collections::VecDeque;
use std::collections::hash_map::RandomState;
use std::marker::Model;
use topic_meta::{Image, View};

/// A member that is about to join: its id and the names that it subscribes, with what the records need of memory for them.
#[derive(Drop)]
pub struct NewMember {
    id: MemberId,
    text: String,
    names: NewNames,
}

impl Model for NewMember {
    ghost use Rattle.group_epochs.specs.Records.{Newcomer, newcomer_code};

    ghost Value = { Newcomer };

    ghost coded = { newcomer_code };

    ghost use Rattle.std.specs.Prelude.{◌≡◌, string_bytes};

    ghost view = { λ a. record { id = a.id; names = a.names } };

    ghost invariant = { λ a. string_bytes a.text ≡ a.id };
}

impl NewMember {
    /// The id.
    pub(crate) fn id(&self) -> &MemberId
        ensures { result.now ≡ self.now.id }
    {
        &self.id
    }
}

/// The records of a group's members, by their ids, and the ids of former members that are remembered.
#[derive(Drop)]
pub struct Records {
    pub(crate) alloc: Global,
    members: Table,
    /// The members' places, in the order of their ids.
    by_id: VecDeque<usize>,
    /// The members' places, in member order: static members first, by their instances; then the others, by their ids.
    in_member_order: VecDeque<usize>,
    past: Past,
    /// How many members subscribe each name.
    counts: Counts,
    /// No deadline of a member comes before it.
    earliest: Moment,
    /// Where the next search for a due member at the same moment begins.
    searched: Searched,
    /// The place of the member that a steady beat was last looked up for.
    last: usize,
}

impl Model for Records {
    ghost use Rattle.std.specs.Prelude.{◌-◌, min};
    ghost use Rattle.std.specs.VecDeque.{deque_capacity, deque_len};
    ghost use Rattle.group_epochs.specs.Records.{RecordsState, records_state_code};

    ghost Value = { RecordsState };

    ghost coded = { records_state_code };

    ghost use Rattle.indexmap.specs.IndexMap.{spare};
    ghost use Rattle.group_epochs.specs.Table.{state_of};
    ghost use Rattle.group_epochs.specs.Whole.{AreWhole};

    ghost view = { λ a. state_of a.members a.past (min (deque_capacity a.by_id - deque_len a.by_id) (deque_capacity a.in_member_order - deque_len a.in_member_order)) (spare a.counts) };

    ghost invariant = { λ a. AreWhole a.members a.by_id.items a.in_member_order.items a.past a.counts a.earliest a.searched };
}

impl Records {
    /// The records of a group that nobody has joined. Takes no memory.
    pub fn new(alloc: Global, hasher: RandomState) -> Records
        ensures records { result.records ≡ finite.empty }
        ensures past { result.past ≡ [] }
        ensures marks { result.marks ≡ finite.empty }
    {
        Records {
            alloc,
            members: IndexMap::with_hasher(alloc, hasher),
            by_id: VecDeque::new(alloc),
            in_member_order: VecDeque::new(alloc),
            past: Past::new(alloc, hasher),
            counts: IndexMap::with_hasher(alloc, hasher),
            earliest: Moment::of_millis(u64::MAX),
            searched: Searched {
                clock: Moment::of_millis(0),
                rank: 0,
            },
            last: 0,
        }
    }

    /// How many members there are. Takes no memory.
    pub fn len(&self) -> usize
        ensures { result ≡ finite.len self.now.records }
    {
        self.members.len()
    }

    /// The record of a member, or none where the id has none. Takes no memory, and no walk over the members.
    pub fn get(&self, id: &str) -> Option<&Record>
        ensures { option_copied result ≡ finite.get self.now.records id.now }
    {
        match self.members.get(id) {
            Some(entry) => Some(&entry.kept),
            None => None,
        }
    }

    /// The member that has an instance id, and its record; none where nobody has it. No two members have one. Takes no memory.
    pub(crate) fn with_instance(&self, instance: &str) -> Option<(&MemberId, &Record)>
        ensures { MatchOption result ((m : Text) → ¬ HasInstance self.now.records m instance.now)
            (λ found. (finite.get self.now.records found.0.now ≡ Some found.1.now) × (found.1.now.instance ≡ Some instance.now)) }
    {
        match with_instance(&self.members, &self.in_member_order, instance) {
            Some(entry) => Some((&entry.id, &entry.kept)),
            None => None,
        }
    }

    /// Whether the id has a record, or had one and is still remembered (ours). Takes no memory.
    pub fn remembers(&self, id: &str) -> bool
        ensures { result ≡ is_remembered (members_in self.now) id.now }
    {
        self.members.contains_key(id) || self.past.remembers(id)
    }

    /// The last stamp of a former member, or none where the id isn't remembered (ours). Takes no memory.
    pub(crate) fn past_stamp(&self, id: &str) -> Option<Stamp>
        ensures { result ≡ past_stamp self.now.past id.now }
    {
        self.past.stamp_of(id)
    }

    /// The stamp of the last heartbeat that was accepted under the id: its member's, or a former member's; none where the id isn't
    /// known (ours). Takes no memory.
    pub fn last_stamp(&self, id: &str) -> Option<Stamp>
        ensures { result ≡ stamp_kept (finite.get self.now.records id.now) (past_stamp self.now.past id.now) }
    {
        match self.get(id) {
            Some(record) => Some(record.stamp()),
            None => self.past_stamp(id),
        }
    }

    /// The members in member order, with this record for the id in place of the one that is kept, if any. They are listed as they stand in
    /// that order, and no two of them are compared. Fails where memory is short.
    pub fn subs_with<'a>(
        &'a self,
        id: &'a MemberId,
        record: &'a Record,
    ) -> Result<Subs<'a>, AllocError>
        ensures { IfOk result (λ subs. AreMembers (finite.insert self.now.records id.now «record».now) subs) }
    {
        // rounded up, so that a growing group asks the allocator for one size again and again
        let room = (self.members.len() / 1024 + 1) * 1024;
        let mut members = Vec::with_capacity(self.alloc, room)?;
        let own = self.members.get_index_of(id.as_str());
        let (before, after) = around(
            &self.members,
            &self.in_member_order,
            record.instance(),
            id.as_str(),
        );
        add_others(&mut members, &self.members, before, own)?;
        members.push(record.as_subscriber(id))?;
        add_others(&mut members, &self.members, after, own)?;
        Ok(Subs::in_order(members))
    }

    /// The image's topics that some member subscribes, with this record for the id in place of the one that is kept, if any. The time
    /// grows with the members' names or with the image, whichever are fewer. Fails where memory is short.
    pub fn view_with(&self, image: &Image, id: &str, record: &Record) -> Result<View, AllocError>
        ensures { IfOk result (λ view. view ≡ view_for image.now (finite.insert self.now.records id.now «record».now)) }
    {
        let former = self.get(id);
        let asked = asked_of(self.alloc, image, record.names(), &self.counts, former)?;
        image.view(self.alloc, &asked)
    }

    /// Makes room for one member more with this record, and what the records need of its id and its names. Where memory is short,
    /// or else, nothing changes but the room.
    pub(crate) fn prepare(
        &mut self,
        id: &MemberId,
        record: &Record,
    ) -> Result<NewMember, AllocError>
        ensures id { IfOk result (λ new. new.id ≡ id.now) }
        ensures room { IfOk result (λ new. CanJoin self.new new «record».now) }
        ensures members { members_in self.new ≡ members_in self.old }
        ensures marks { self.new.marks ≡ self.old.marks }
    {
        self.make_room(record.names())?;
        let text = String::from_str(self.alloc, id.as_str())?;
        let names = NewNames::of(self.alloc, record.names())?;
        Ok(NewMember {
            id: id.copy(self.alloc)?,
            text,
            names,
        })
    }

    /// What the records need of the names of a member's new record, and room for them; none where its names stay. Where memory is
    /// short, or else, nothing changes but the room.
    pub(crate) fn prepare_names(
        &mut self,
        id: &str,
        record: &Record,
    ) -> Result<Option<NewNames>, AllocError>
        ensures names { IfOk result (λ names. CanReplace self.new id.now «record».now names) }
        ensures members { members_in self.new ≡ members_in self.old }
        ensures marks { self.new.marks ≡ self.old.marks }
    {
        if self.keeps_names(id, record) {
            return Ok(None);
        }
        self.counts.reserve(record.names().len())?;
        Ok(Some(NewNames::of(self.alloc, record.names())?))
    }

    /// Stores the record of a new member, which is no former member any more. Takes no memory.
    pub(crate) fn admit(&mut self, new: NewMember, record: Record)
        requires room { CanJoin self.old new «record» }
        requires named { new.id ≢ [] }
        requires absent { finite.get self.old.records new.id ≡ None }
        requires instance { IsInstanceFreeFor self.old.records new.id «record» }
        ensures members { members_in self.new ≡ with_record (members_in self.old) new.id «record» }
        ensures marks { self.new.marks ≡ self.old.marks }
    {
        let NewMember { id, text, names } = new;
        count_up(&mut self.counts, names.into_texts());
        self.past.forget(id.as_str());
        self.earliest = earlier(self.earliest, record.first_deadline());
        self.searched.restart();
        let entry = Entry {
            id,
            kept: record,
            mark: None,
        };
        add(
            &mut self.members,
            &mut self.by_id,
            &mut self.in_member_order,
            text,
            entry,
        );
    }

    /// Replaces the record of a member, and takes its mark away. Takes no memory.
    pub(crate) fn put(&mut self, id: &str, names: Option<NewNames>, record: Record)
        requires there { IsMember self.old id.now }
        requires names { CanReplace self.old id.now «record» names }
        requires instance { IsInstanceFreeFor self.old.records id.now «record» }
        ensures members { members_in self.new ≡ with_record (members_in self.old) id.now «record» }
        ensures marks { self.new.marks ≡ finite.remove self.old.marks id.now }
    {
        self.earliest = earlier(self.earliest, record.first_deadline());
        self.searched.restart();
        let former = put(&mut self.members, &mut self.in_member_order, id, record);
        if let Some(names) = names {
            count_down(&mut self.counts, former.names());
            count_up(&mut self.counts, names.into_texts());
        }
    }

    /// Stores the stamp and the time of a heartbeat that gives nothing else, where the member is marked at the epoch and the stamp
    /// comes after its last one. Says whether it did; if not, nothing has changed. Takes no memory, and no walk over the members.
    pub fn beat_marked(&mut self, id: &str, epoch: EpochNumber, stamp: Stamp, now: Moment) -> bool
        ensures marked { IsTrue result ↔ IsMarkedBeat self.old id.now epoch stamp }
        ensures records { (r : Kept) → IsTrue result → finite.get self.old.records id.now ≡ Some r
            → self.new.records ≡ finite.insert self.old.records id.now (beaten r stamp now) }
        ensures past { self.new.past ≡ self.old.past }
        ensures marks { self.new.marks ≡ self.old.marks }
        ensures room { self.new.room ≡ self.old.room }
        ensures no { result ≡ false → self.new ≡ self.old }
    {
        if !beat_marked(&mut self.members, &mut self.last, id, epoch, stamp, now) {
            return false;
        }
        self.earliest = earlier(self.earliest, now.plus(SESSION_TIMEOUT));
        self.searched.restart();
        true
    }

    /// Marks a member as settled at this epoch of the target. Takes no memory.
    pub fn mark(&mut self, id: &str, epoch: EpochNumber)
        requires { IsMember self.old id.now }
        ensures members { members_in self.new ≡ members_in self.old }
        ensures marks { self.new.marks ≡ finite.insert self.old.marks id.now epoch }
        ensures room { self.new.room ≡ self.old.room }
    {
        mark(&mut self.members, id, epoch);
    }

    /// The member leaves for good, and its id is remembered with the stamp; where [`group_types::limits::MOST_PAST_MEMBERS`] ids are
    /// remembered the oldest is forgotten. Takes no memory.
    pub fn leave(&mut self, id: &str, stamp: Stamp)
        requires { IsMember self.old id.now }
        ensures members { members_in self.new ≡ without_record (members_in self.old) id.now stamp }
        ensures marks { self.new.marks ≡ finite.remove self.old.marks id.now }
    {
        let former = take_out(
            &mut self.members,
            &mut self.by_id,
            &mut self.in_member_order,
            id,
        );
        count_down(&mut self.counts, former.kept.names());
        self.past.remember(former.id, stamp);
        self.searched.restart();
        self.give_back();
    }

    /// The member at a rank, in the order of the members' ids, leaves for good, and its id is remembered with its last stamp; where
    /// [`group_types::limits::MOST_PAST_MEMBERS`] ids are remembered the oldest is forgotten. Takes no memory.
    pub fn leave_at(&mut self, rank: usize)
        requires { IsSome (member_at self.old.records rank) }
        ensures members { (m : Text) (r : Kept) → member_at self.old.records rank ≡ Some (m, r)
            → members_in self.new ≡ without_record (members_in self.old) m r.stamp }
        ensures marks { (m : Text) (r : Kept) → member_at self.old.records rank ≡ Some (m, r)
            → self.new.marks ≡ finite.remove self.old.marks m }
    {
        let former = take_out_at(
            &mut self.members,
            &mut self.by_id,
            &mut self.in_member_order,
            rank,
        );
        count_down(&mut self.counts, former.kept.names());
        let latest = former.kept.stamp();
        self.past.remember(former.id, latest);
        self.searched.leave_out(rank);
        self.give_back();
    }

    /// A static member goes away for a while (KIP-848, member epoch -2), and its mark is taken away. Takes no memory.
    pub fn away(&mut self, id: &str, stamp: Stamp, now: Moment)
        requires { IsMember self.old id.now }
        ensures records { (r : Kept) → finite.get self.old.records id.now ≡ Some r
            → self.new.records ≡ finite.insert self.old.records id.now (away r stamp now) }
        ensures past { self.new.past ≡ self.old.past }
        ensures marks { self.new.marks ≡ finite.remove self.old.marks id.now }
        ensures room { self.new.room ≡ self.old.room }
    {
        self.earliest = earlier(self.earliest, now.plus(SESSION_TIMEOUT));
        self.searched.restart();
        go_away(&mut self.members, id, stamp, now);
    }

    /// An heir takes a member's place under its own id, with this record, and the old id is remembered with its last stamp
    /// (KIP-848, "Static Membership"). Takes no memory.
    pub(crate) fn hand_over(&mut self, old: &str, heir: NewMember, record: Record)
        requires room { CanJoin self.old heir «record» }
        requires there { IsMember self.old old.now }
        requires named { heir.id ≢ [] }
        requires absent { finite.get self.old.records heir.id ≡ None }
        requires instance { IsInstanceFreeFor self.old.records old.now «record» }
        ensures members { (r : Kept) → finite.get self.old.records old.now ≡ Some r
            → members_in self.new ≡ taken_over (members_in self.old) old.now heir.id «record» r.stamp }
        ensures marks { self.new.marks ≡ finite.remove self.old.marks old.now }
    {
        let NewMember { id, text, names } = heir;
        self.past.forget(id.as_str());
        let former = take_out(
            &mut self.members,
            &mut self.by_id,
            &mut self.in_member_order,
            old,
        );
        count_down(&mut self.counts, former.kept.names());
        count_up(&mut self.counts, names.into_texts());
        let last = former.kept.stamp();
        self.past.remember(former.id, last);
        self.earliest = earlier(self.earliest, record.first_deadline());
        self.searched.restart();
        let entry = Entry {
            id,
            kept: record,
            mark: None,
        };
        add(
            &mut self.members,
            &mut self.by_id,
            &mut self.in_member_order,
            text,
            entry,
        );
    }

    /// Gives back the room of the tables where no member is left. Former ids stay. Takes no memory.
    fn give_back(&mut self)
        ensures members { members_in self.new ≡ members_in self.old }
        ensures marks { self.new.marks ≡ self.old.marks }
    {
        if !self.members.is_empty() {
            return;
        }
        self.members.shrink_to_fit();
        self.by_id.shrink_to_fit();
        self.in_member_order.shrink_to_fit();
        self.counts.shrink_to_fit();
    }

    /// The rank of the first member, in the order of the members' ids, whose deadline has come (KIP-848, "Session Management"); none
    /// where no deadline has come. Where the clock is before every deadline no record is looked at. A search at the moment of the last
    /// one goes on from where that came to, unless a record was stored or left by its id since. Takes no memory.
    pub fn due(&mut self, clock: Moment) -> Option<usize>
        ensures first { MatchOption result (NoneIsDue self.old.records clock) (λ rank. IsFirstRank self.old.records clock rank) }
        ensures same { self.new ≡ self.old }
    {
        if clock < self.earliest {
            return None;
        }
        let start = self.searched.start(clock);
        let due = first_due(&self.members, &self.by_id, start, clock);
        match due {
            Some(rank) => self.searched = Searched { clock, rank },
            None => self.earliest = first_of_all(&self.members),
        }
        due
    }

    /// The id at a rank, in the order of the members' ids; none past the last. Takes no memory.
    pub fn id_at(&self, rank: usize) -> Option<&MemberId>
        ensures { option_copied result ≡ option_map (λ m. m.0) (member_at self.now.records rank) }
    {
        let (id, _) = self.member_at(rank)?;
        Some(id)
    }

    /// The member at a rank, in the order of the members' ids, and its record; none past the last. Takes no memory, and no walk over
    /// the members.
    pub fn member_at(&self, rank: usize) -> Option<(&MemberId, &Record)>
        ensures { option_map (λ found. (found.0.now, found.1.now)) result ≡ member_at self.now.records rank }
    {
        let place = self.by_id.get(rank)?;
        match self.members.get_index(*place) {
            Some((_, entry)) => Some((&entry.id, &entry.kept)),
            None => None,
        }
    }

    /// How many former members are remembered. Takes no memory.
    pub fn past_len(&self) -> usize
        ensures { result ≡ length self.now.past }
    {
        self.past.len()
    }

    /// A former member that is remembered and its last stamp, by its place from the oldest on; none past the last. Takes no memory.
    pub fn past_at(&self, place: usize) -> Option<(&MemberId, Stamp)>
        ensures { option_map (λ found. (found.0.now, found.1)) result ≡ slice_get self.now.past place }
    {
        self.past.at(place)
    }

    /// Remembers one former member more, behind the others. Where memory is short, nothing changes but the room.
    pub(crate) fn remember(&mut self, id: MemberId, stamp: Stamp) -> Result<(), AllocError>
        requires new { is_remembered (members_in self.old) id ≡ false }
        requires few { length self.old.past < MOST_PAST_MEMBERS }
        ensures past { OnOk result (self.new.past ≡ self.old.past ++ (id, stamp) ∷ []) }
        ensures err { OnErr result (self.new.past ≡ self.old.past) }
        ensures records { self.new.records ≡ self.old.records }
        ensures marks { self.new.marks ≡ self.old.marks }
    {
        self.past
            .make_room(self.members.len() + self.past.len() + 1)?;
        self.past.remember(id, stamp);
        Ok(())
    }

    /// Makes room for one member more with these names. The members stay as they are, also where memory is short.
    fn make_room(&mut self, names: &NameSet) -> Result<(), AllocError>
        ensures room { OnOk result ((0 < self.new.room) × (size names.now ≤ self.new.names_room)) }
        ensures members { members_in self.new ≡ members_in self.old }
        ensures marks { self.new.marks ≡ self.old.marks }
    {
        self.members.reserve(1)?;
        self.by_id.reserve(1)?;
        self.in_member_order.reserve(1)?;
        self.past
            .make_room(self.members.len() + self.past.len() + 1)?;
        self.counts.reserve(names.len())
    }

    /// Whether a member's names are those of the record. Takes no memory.
    fn keeps_names(&self, id: &str, record: &Record) -> bool
        ensures { IsTrue result → KeepsNames self.now.records id.now «record».now }
    {
        match self.members.get(id) {
            Some(entry) => entry.kept.names().equals(record.names()),
            None => false,
        }
    }
}
