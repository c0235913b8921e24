//! A group and its heartbeats.
ghost use Rattle.std.specs.Prelude.{◌≡◌, ◌-◌, IfOk, OnErr, true, suc, length, vec_capacity, unwrap_or, option_map};
ghost use Rattle.std.specs.Option.{option_copied};
ghost use Rattle.std.specs.FinMap as finite;
ghost use Rattle.group_types.specs.Sets.{nothing};
ghost use Rattle.group_types.specs.Group.{new_group, starting_group, held};
ghost use Rattle.group_types.specs.Fencing.{last_stamp};
ghost use Rattle.group_types.specs.Members.{is_remembered, members_of};
ghost use Rattle.group_reconcile.specs.Holders.{pairs};

use crate::member_heartbeat::MemberHeartbeat;
use crate::outcome::Outcome;
use crate::state::State;
use crate::{heartbeat, tick};
use group_epochs::Records;
use group_reconcile::Grants;
use group_target::Target;
use group_types::{Epoch, EpochNumber, Moment, PartSet, Stamp};
use kip_msgs::{CommitReply, CommitRequest};
use offset_guard::{Committed, Offsets};
use std::alloc::{AllocError, Global};
use std::collections::hash_map::RandomState;
use std::marker::Model;
use topic_meta::{Image, View};

/// One consumer group, with its whole state.
pub struct Group {
    state: State,
}

/// Its parts are dropped here, so that a crate that drops a group goes through none of them in its proofs.
impl Drop for Group {
    fn drop(self) {
        let Group { state: _ } = self;
    }
}

impl Model for Group {
    ghost use Rattle.group_core.specs.Group.{GroupValue, group_value_code};

    ghost Value = { GroupValue };

    ghost coded = { group_value_code };

    ghost use Rattle.group_core.specs.GroupView.{group_view, IsGroup};

    ghost view = { group_view };

    ghost invariant = { λ a. IsGroup a.state };
}

impl Group {
    ghost use Rattle.group_types.specs.Sound.{IsSound};
    ghost use Rattle.kip_msgs.specs.Views.{commit_reply_value, commit_request_value, heartbeat_request_value};
    ghost use Rattle.group_epochs.specs.Request.{arrival_of};
    ghost use Rattle.group_types.specs.HeartbeatStep.{HeartbeatStep};
    ghost use Rattle.group_types.specs.Tick.{removed_by_tick, ticked};
    ghost use Rattle.group_epochs.specs.Request.{commit_of};
    ghost use Rattle.group_core.specs.Commits.{Commits};
    ghost use Rattle.group_core.specs.Outcome.{answer_of, IsCurrent, IsResponse};
    ghost use Rattle.group_core.specs.GroupView.{group_of};
    ghost use Rattle.group_core.specs.Since.{KeepsSinceOr};
    ghost use Rattle.group_core.specs.Steady.{AreMarked};
    ghost use Rattle.group_reconcile.specs.Offers.{KeepsSince};

    /// A new group: epoch 0, and no members. The salt is the first half of the ids that it makes. Takes no memory.
    pub fn new(alloc: Global, salt: u64, hasher: RandomState) -> Group
        ensures state { result.state ≡ new_group salt }
        ensures holders { result.holders ≡ finite.empty }
    {
        Group::starting_at(alloc, salt, hasher, EpochNumber::zero())
    }

    /// A group that nobody has joined, whose epoch and target epoch are this one. Takes no memory.
    pub fn starting_at(alloc: Global, salt: u64, hasher: RandomState, epoch: EpochNumber) -> Group
        ensures state { result.state ≡ starting_group salt epoch }
        ensures holders { result.holders ≡ finite.empty }
    {
        // so that the epoch is known to be at most the greatest
        let _ = epoch.as_u32();
        Group {
            state: State::starting_at(alloc, salt, hasher, epoch),
        }
    }

    /// The group that is stored so. Takes no memory.
    pub(crate) fn of(state: State) -> Group
        requires sound { IsSound (group_of state) }
        requires marks { AreMarked (group_of state) state.records.marks }
        ensures state { result.state ≡ group_of state }
        ensures holders { result.holders ≡ state.grants }
    {
        Group { state }
    }

    /// The group epoch.
    pub fn epoch(&self) -> EpochNumber
        ensures value { result ≡ self.now.state.epoch }
        ensures sound { IsSound self.now.state }
    {
        self.state.epoch
    }

    /// The first half of the ids that the group makes.
    pub fn salt(&self) -> u64
        ensures { result ≡ self.now.state.salt }
    {
        self.state.salt
    }

    /// The greatest moment that was used.
    pub fn clock(&self) -> Moment
        ensures { result ≡ self.now.state.clock }
    {
        self.state.clock
    }

    /// The serial of the last id that was made.
    pub fn ids_made(&self) -> u64
        ensures { self.now.state.serial ≡ suc result }
    {
        self.state.ids_made
    }

    /// The view: the topics that the group knows.
    pub fn view(&self) -> &View
        ensures { result.now ≡ self.now.state.view }
    {
        &self.state.view
    }

    /// The members' records, and the former members.
    pub fn records(&self) -> &Records
        ensures records { result.now.records ≡ self.now.state.records }
        ensures past { result.now.past ≡ self.now.state.past }
    {
        &self.state.records
    }

    /// What the members have committed.
    pub fn offsets(&self) -> &Offsets
        ensures { result.now ≡ self.now.state.offsets }
    {
        &self.state.offsets
    }

    /// How many members the group has.
    pub fn members(&self) -> usize
        ensures { result ≡ finite.len self.now.state.records }
    {
        self.state.records.len()
    }

    /// The target assignment: who is to own which partition, and since which epoch.
    pub fn target(&self) -> &Target
        ensures owners { result.now.owners ≡ self.now.state.target }
        ensures epoch { result.now.epoch ≡ self.now.state.target_epoch }
    {
        &self.state.target
    }

    /// Who may read which partition, and since which target.
    pub fn grants(&self) -> &Grants
        ensures pairs { pairs result.now ≡ self.now.state.grants }
        ensures holders { result.now ≡ self.now.holders }
    {
        &self.state.grants
    }

    /// The partitions that a member may read: none, or the empty set, where that is nothing.
    pub fn granted(&self, member: &str) -> Option<&PartSet>
        ensures { unwrap_or (option_copied result) nothing ≡ held self.now.state.grants member.now }
    {
        self.state.grants.held(member)
    }

    /// The member epoch of a member, and the one before it; none where the group has no such member. Takes no memory.
    pub fn epochs(&self, member: &str) -> Option<(Epoch, EpochNumber)>
        ensures { result ≡ option_map (λ r. (r.epoch, r.previous_epoch)) (finite.get self.now.state.records member.now) }
    {
        let record = self.state.records.get(member)?;
        Some((record.epoch(), record.previous_epoch()))
    }

    /// Whether the id has a record, or had one and is still remembered (ours). Takes no memory.
    pub fn remembers(&self, member: &str) -> bool
        ensures { result ≡ is_remembered (members_of self.now.state) member.now }
    {
        self.state.records.remembers(member)
    }

    /// The stamp of the last heartbeat that was accepted under the id, as long as the group knows it (ours). Takes no memory.
    pub fn last_stamp(&self, member: &str) -> Option<Stamp>
        ensures { result ≡ last_stamp self.now.state member.now }
    {
        self.state.records.last_stamp(member)
    }

    /// What was last committed for an index of a topic, or none. Takes no memory.
    pub fn committed(&self, name: &str, index: i32) -> Option<&Committed>
        ensures { option_copied result ≡ finite.get self.now.state.offsets (name.now, index) }
    {
        self.state.offsets.committed(name, index)
    }

    /// One heartbeat of KIP-848 with its stamp, at a moment, over the node's image. A refusal and an overtaken heartbeat change nothing. A partition that somebody held stays granted under the target
    /// epoch under which it was. Where it replies there is room for the reply's frame behind the bytes of `out`, which stay. Fails
    /// where memory is short, and then nothing has changed.
    pub fn heartbeat(
        &mut self,
        request: &MemberHeartbeat<'_, '_>,
        stamp: Stamp,
        now: Moment,
        image: &Image,
        out: &mut Vec<u8>,
    ) -> Result<Outcome, AllocError>
        ensures step { IfOk result (λ outcome. HeartbeatStep self.old.state
            (arrival_of (heartbeat_request_value request.now.request.now) stamp now image.now) (answer_of outcome) self.new.state) }
        ensures response { IfOk result (λ outcome. IsResponse (answer_of outcome) self.new.state image.now (vec_capacity out.new - length out.new.items)) }
        ensures since { KeepsSinceOr self.old.holders self.new.holders self.new.state.target_epoch }
        ensures out { out.new.items ≡ out.old.items }
        ensures err { OnErr result (self.new ≡ self.old) }
    {
        self.heartbeat_over(request, stamp, now, image, false, out)
    }

    /// The same where it may be known that the group's view is that of the image: a member that has nothing to be told then costs
    /// no look at a topic or at another member, and no memory beside the reply's id and the room in `out`.
    pub fn heartbeat_over(
        &mut self,
        request: &MemberHeartbeat<'_, '_>,
        stamp: Stamp,
        now: Moment,
        image: &Image,
        is_current: bool,
        out: &mut Vec<u8>,
    ) -> Result<Outcome, AllocError>
        requires current { is_current ≡ true → IsCurrent self.old.state image.now }
        ensures step { IfOk result (λ outcome. HeartbeatStep self.old.state
            (arrival_of (heartbeat_request_value request.now.request.now) stamp now image.now) (answer_of outcome) self.new.state) }
        ensures response { IfOk result (λ outcome. IsResponse (answer_of outcome) self.new.state image.now (vec_capacity out.new - length out.new.items)) }
        ensures since { KeepsSinceOr self.old.holders self.new.holders self.new.state.target_epoch }
        ensures out { out.new.items ≡ out.old.items }
        ensures err { OnErr result (self.new ≡ self.old) }
    {
        // so that its topics are known to be an image's
        let _ = image.len();
        heartbeat::respond(
            &mut self.state,
            request.request,
            stamp,
            now,
            image,
            is_current,
            out,
        )
    }

    /// Answers a commit of offsets (KIP-848, "OffsetCommit") over the node's image: it is refused as a whole, or taken and answered
    /// partition by partition, in the request's order. Fails where memory is short, and then nothing has changed.
    pub fn commit<'a>(
        &mut self,
        request: &CommitRequest<'a>,
        image: &Image,
    ) -> Result<CommitReply<'a>, AllocError>
        ensures step { IfOk result (λ reply. Commits self.old.state (commit_of (commit_request_value request.now)) image.now (commit_reply_value reply) self.new.state) }
        ensures holders { self.new.holders ≡ self.old.holders }
        ensures err { OnErr result (self.new ≡ self.old) }
    {
        self.state
            .offsets
            .commit(&self.state.records, request, image)
    }

    /// Removes the members whose session or release deadline has come (KIP-848, "Session Management", "Rebalance Timeout"), and says
    /// how many. The target is not renewed. Takes no memory.
    pub fn tick(&mut self, now: Moment) -> usize
        ensures ticked { self.new.state ≡ ticked self.old.state now }
        ensures removed { result ≡ removed_by_tick self.old.state now }
        ensures since { KeepsSince self.old.holders self.new.holders }
    {
        tick::tick(&mut self.state, now)
    }
}
