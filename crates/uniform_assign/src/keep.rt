//! The former owners that stay.

ghost use Rattle.std.specs.Prelude.{◌≡◌, ◌<◌, IfOk, Some, length, slice_get};
ghost use Rattle.std.specs.FinMap.{entries};
ghost use Rattle.group_types.specs.Assignors.{Subscriber as Member};
ghost use Rattle.group_types.specs.Sets.{has};
ghost use Rattle.group_types.specs.Text.{Text};
ghost use Rattle.group_types.specs.Topics.{Topic};
ghost use Rattle.group_types.specs.Uniform.{IsKept};
ghost use Rattle.uniform_assign.specs.Boards.{AreKnown, IsBare, members_on};
ghost use Rattle.uniform_assign.specs.Drafts.{IsDraft, drawn_on};

use crate::board::Board;
use crate::draft::{Draft, no_owners};
use crate::former::last_owner_end;
use range_assign::Spread;
use std::alloc::{AllocError, Global};

impl Board<'_> {
    /// The partitions whose former owners still subscribe them are theirs, and the others have no owner. Where no member
    /// owned any, none is looked at.
    pub fn kept(&self, alloc: Global, former: &Spread) -> Result<Draft, AllocError>
        requires { IsBare self.now }
        ensures draft { IfOk result (λ draft. IsDraft self.now draft) }
        ensures kept { IfOk result (λ draft. IsKept self.now.view.now (members_on self.now) former.now (drawn_on self.now draft.owners.items)) }
    {
        if last_owner_end(former, self.members) == 0 {
            return Draft::new(alloc, self.places.len(), self.members.len());
        }
        self.kept_of(alloc, former)
    }

    /// The same, looked for partition by partition.
    fn kept_of(&self, alloc: Global, former: &Spread) -> Result<Draft, AllocError>
        requires { IsBare self.now }
        ensures draft { IfOk result (λ draft. IsDraft self.now draft) }
        ensures kept { IfOk result (λ draft. IsKept self.now.view.now (members_on self.now) former.now (drawn_on self.now draft.owners.items)) }
    {
        let owners = self.former_owners(alloc, former, self.members)?;
        let mut draft = Draft::new(alloc, self.places.len(), self.members.len())?;
        let mut known = no_owners(alloc, self.members.len())?;
        for (at, place) in self.places.iter().enumerate() {
            if let Some(member) = owners[at] {
                if self.takes(&mut known, member, place.topic) {
                    draft.give(at, member);
                }
            }
        }
        Ok(draft)
    }

    /// Whether the member at a place subscribes the topic at a place. It isn't asked again where the topic is the last one
    /// that it is known to subscribe.
    fn takes(&self, known: &mut Vec<Option<usize>>, member: usize, topic: usize) -> bool
        requires member_in { member < length (members_on self.now) }
        requires topic_in { topic < length (entries self.now.view.now) }
        requires known { AreKnown self.now known.old.items }
        ensures known { AreKnown self.now known.new.items }
        ensures takes { (m : Member) (t : Text × Topic) → slice_get (members_on self.now) member ≡ Some m
            → slice_get (entries self.now.view.now) topic ≡ Some t → result ≡ has m.names t.0 }
    {
        if let Some(last) = known[member] {
            if last == topic {
                return true;
            }
        }
        if !self.subscribes(member, topic) {
            return false;
        }
        known[member] = Some(topic);
        true
    }

    /// Whether the member at a place subscribes the topic at a place.
    fn subscribes(&self, member: usize, topic: usize) -> bool
        requires member_in { member < length (members_on self.now) }
        requires topic_in { topic < length (entries self.now.view.now) }
        ensures { (m : Member) (t : Text × Topic) → slice_get (members_on self.now) member ≡ Some m
            → slice_get (entries self.now.view.now) topic ≡ Some t → result ≡ has m.names t.0 }
    {
        let name = self.view.topics()[topic].name.as_str();
        self.members[member].names.contains(name)
    }
}
