//! What a join or a beat makes of a member's record, before it is stored.

ghost use Rattle.std.specs.Prelude.{◌≡◌, ◌≢◌, [], IfOk, IfSome, MatchOption, Some, None};
ghost use Rattle.std.specs.Option.{option_copied};
ghost use Rattle.std.specs.FinMap as finite;
ghost use Rattle.group_types.specs.Group.{Record as Stored};
ghost use Rattle.group_types.specs.Join.{record_of_join};
ghost use Rattle.group_types.specs.Request.{kind_of};
ghost use Rattle.group_types.specs.Checks.{sender_of};
ghost use Rattle.group_types.specs.Members.{taken_over, with_record};
ghost use Rattle.kip_msgs.specs.Views.{heartbeat_request_value};
ghost use Rattle.group_epochs.specs.Checks.{AreSound};
ghost use Rattle.group_epochs.specs.Drafts.{CanStore, IsHeirOf, IsIdOf, drafted, drafted_in, placed_heir, record_after};
ghost use Rattle.group_epochs.specs.Records.{IsInstanceFreeFor, IsMember, KeepsMarks, members_in};
ghost use Rattle.group_epochs.specs.Request.{heartbeat_of};

use crate::names::NewNames;
use crate::record::Record;
use crate::records::{NewMember, Records};
use group_types::{MemberId, Moment, Stamp};
use kip_msgs::HeartbeatRequest;
use std::alloc::{AllocError, Global};

/// A member's record as it will be, with what storing it takes of memory.
#[derive(Drop)]
pub struct Draft {
    /// The id that the record stands under: at a take-over the one that is taken over.
    pub id: MemberId,
    pub record: Record,
    pub place: Place,
}

/// Where a record is stored.
#[derive(Drop)]
pub enum Place {
    /// Under an id that has none.
    New(NewMember),
    /// In place of the id's record.
    Kept(Option<NewNames>),
    /// At an heir, in place of the id's record.
    Handed(NewMember),
}

impl Draft {
    /// The id of the member that takes over the record, if any does.
    pub fn heir(&self) -> Option<&MemberId>
        ensures { option_copied result ≡ placed_heir self.now.place }
    {
        match &self.place {
            Place::Handed(heir) => Some(heir.id()),
            _ => None,
        }
    }
}

impl Records {
    /// The record of a member after its join or beat, under its id (KIP-848, "Consumer Group Heartbeat"), and room for one more: it is
    /// the member's own, a new one, or at a take-over that of another one, which stands under its former id until it is stored. Where
    /// memory is short, or else, nothing changes but the room.
    pub fn draft(
        &mut self,
        id: MemberId,
        request: &HeartbeatRequest<'_>,
        stamp: Stamp,
        now: Moment,
    ) -> Result<Draft, AllocError>
        requires sound { AreSound (members_in self.old) }
        requires id { IsIdOf self.old.records request.now.member_id.now id }
        ensures draft { let q = heartbeat_of (heartbeat_request_value request.now) in
            let sender = sender_of self.old.records q in
            IfOk result (λ d. drafted_in d ≡ drafted (kind_of q.epoch) sender.own sender.other id q stamp now) }
        ensures room { IfOk result (λ d. CanStore self.new d.id d.record d.place) }
        ensures members { members_in self.new ≡ members_in self.old }
        ensures marks { self.new.marks ≡ self.old.marks }
    {
        match self.get(request.member_id) {
            Some(own) => {
                let after = record_after(self.alloc, own, request, stamp, now)?;
                self.draft_again(id, after)
            }
            None => self.draft_first(id, request, stamp, now),
        }
    }

    /// Stores a draft, unless another member takes it over. Its id is no former member's any more, and its mark is taken away. Takes no
    /// memory.
    pub fn join(&mut self, draft: Draft)
        requires room { CanStore self.old draft.id draft.record draft.place }
        requires own { placed_heir draft.place ≡ None }
        requires instance { IsInstanceFreeFor self.old.records draft.id draft.record }
        ensures members { members_in self.new ≡ with_record (members_in self.old) draft.id draft.record }
        ensures marks { KeepsMarks self.old self.new draft.id }
    {
        let Draft { id, record, place } = draft;
        match place {
            Place::New(member) => self.admit(member, record),
            Place::Kept(names) => self.put(id.as_str(), names, record),
            Place::Handed(_) => unreachable!(),
        }
    }

    /// Stores a draft at its heir, which takes the member's place; the id that is taken over is remembered with its last stamp (KIP-848,
    /// "Static Membership"). Takes no memory.
    pub fn take_over(&mut self, draft: Draft)
        requires room { CanStore self.old draft.id draft.record draft.place }
        requires heir { ¬ (placed_heir draft.place ≡ None) }
        requires instance { IsInstanceFreeFor self.old.records draft.id draft.record }
        ensures members { (r : Stored) → finite.get self.old.records draft.id ≡ Some r
            → IfSome (placed_heir draft.place) (λ heir. members_in self.new ≡ taken_over (members_in self.old) draft.id heir draft.record r.stamp) }
        ensures marks { KeepsMarks self.old self.new draft.id }
    {
        let Draft { id, record, place } = draft;
        match place {
            Place::Handed(heir) => self.hand_over(id.as_str(), heir, record),
            _ => unreachable!(),
        }
    }

    /// The draft of a member that has a record.
    fn draft_again(&mut self, id: MemberId, record: Record) -> Result<Draft, AllocError>
        requires { IsMember self.old id }
        ensures draft { IfOk result (λ d. drafted_in d ≡ record { id = id; kept = «record»; heir = None }) }
        ensures room { IfOk result (λ d. CanStore self.new d.id d.record d.place) }
        ensures members { members_in self.new ≡ members_in self.old }
        ensures marks { self.new.marks ≡ self.old.marks }
    {
        let names = self.prepare_names(id.as_str(), &record)?;
        Ok(Draft {
            id,
            record,
            place: Place::Kept(names),
        })
    }

    /// The draft of a join whose member has no record.
    fn draft_first(
        &mut self,
        id: MemberId,
        request: &HeartbeatRequest<'_>,
        stamp: Stamp,
        now: Moment,
    ) -> Result<Draft, AllocError>
        requires sound { AreSound (members_in self.old) }
        requires none { finite.get self.old.records request.now.member_id.now ≡ None }
        requires absent { finite.get self.old.records id ≡ None }
        requires named { id ≢ [] }
        ensures draft { let q = heartbeat_of (heartbeat_request_value request.now) in
            let sender = sender_of self.old.records q in
            IfOk result (λ d. drafted_in d ≡ drafted (kind_of q.epoch) sender.own sender.other id q stamp now) }
        ensures room { IfOk result (λ d. CanStore self.new d.id d.record d.place) }
        ensures members { members_in self.new ≡ members_in self.old }
        ensures marks { self.new.marks ≡ self.old.marks }
    {
        match self.other_of(request) {
            Some((old, former)) => {
                let standing = old.copy(self.alloc)?;
                let taken = Record::joining(self.alloc, Some(former), request, stamp, now)?;
                self.draft_heir(standing, &id, taken)
            }
            None => {
                let first = Record::joining(self.alloc, None, request, stamp, now)?;
                self.draft_new(id, first)
            }
        }
    }

    /// The draft of a member that takes over a record.
    fn draft_heir(
        &mut self,
        old: MemberId,
        heir: &MemberId,
        record: Record,
    ) -> Result<Draft, AllocError>
        requires { IsHeirOf self.old.records old heir.now }
        ensures draft { IfOk result (λ d. drafted_in d ≡ record { id = old; kept = «record»; heir = Some heir.now }) }
        ensures room { IfOk result (λ d. CanStore self.new d.id d.record d.place) }
        ensures members { members_in self.new ≡ members_in self.old }
        ensures marks { self.new.marks ≡ self.old.marks }
    {
        let member = self.prepare(heir, &record)?;
        Ok(Draft {
            id: old,
            record,
            place: Place::Handed(member),
        })
    }

    /// The draft of a new member.
    fn draft_new(&mut self, id: MemberId, record: Record) -> Result<Draft, AllocError>
        requires absent { finite.get self.old.records id ≡ None }
        requires named { id ≢ [] }
        ensures draft { IfOk result (λ d. drafted_in d ≡ record { id = id; kept = «record»; heir = None }) }
        ensures room { IfOk result (λ d. CanStore self.new d.id d.record d.place) }
        ensures members { members_in self.new ≡ members_in self.old }
        ensures marks { self.new.marks ≡ self.old.marks }
    {
        let member = self.prepare(&id, &record)?;
        Ok(Draft {
            id,
            record,
            place: Place::New(member),
        })
    }
}

/// The record of a member that has one after its join or beat. Fails where memory is short.
fn record_after(
    alloc: Global,
    own: &Record,
    request: &HeartbeatRequest<'_>,
    stamp: Stamp,
    now: Moment,
) -> Result<Record, AllocError>
    ensures { let q = heartbeat_of (heartbeat_request_value request.now) in
        IfOk result (λ r. r ≡ record_after (kind_of q.epoch) own.now q stamp now) }
{
    match request.member_epoch {
        1.. => own.beating(alloc, request, stamp, now),
        _ => Record::joining(alloc, Some(own), request, stamp, now),
    }
}
