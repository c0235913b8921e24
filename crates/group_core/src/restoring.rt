//! A group that is built from what was read of one.
ghost use Rattle.std.specs.Prelude.{◌≡◌, ◌↔◌, IfOk, IsTrue, MatchOption, None, OnErr};
ghost use Rattle.std.specs.FinMap as finite;
ghost use Rattle.group_epochs.specs.Restored.{CanBePast};
ghost use Rattle.group_types.specs.Members.{members_of};
ghost use Rattle.range_assign.specs.Shares.{shares_in};
ghost use Rattle.group_core.specs.Restoring.{CanBeFinished, CanBeGranted, CanBeMember, changed_if, finished, nothing_restored, with_granted, with_member, with_offset, with_past};

use crate::fitting::members_fit;
use crate::group::Group;
use crate::owners::owners_fit;
use crate::state::State;
use group_epochs::Record;
use group_target::Target;
use group_types::limits::MOST_MEMBERS;
use group_types::{EpochNumber, MemberId, Moment, Partition, Stamp};
use offset_guard::Committed;
use range_assign::Share;
use std::alloc::{AllocError, Global};
use std::collections::hash_map::RandomState;
use std::marker::Model;
use topic_meta::View;

/// The numbers of a group.
#[derive(Clone, Copy, Debug)]
pub struct GroupNumbers {
    pub epoch: EpochNumber,
    /// The epoch for which the target was worked out.
    pub target_epoch: EpochNumber,
    /// The greatest moment that was used.
    pub clock: Moment,
    /// The serial of the last id that was made.
    pub ids_made: u64,
}

/// A group of which more is to come: its members, former members, grants and offsets are added one by one, and then it is finished.
#[derive(Drop)]
pub struct Restoring {
    state: State,
}

impl Model for Restoring {
    ghost use Rattle.group_core.specs.Group.{GroupValue, group_value_code};
    ghost use Rattle.group_core.specs.GroupView.{group_of};
    ghost use Rattle.group_core.specs.Restoring.{IsBegun};

    ghost Value = { GroupValue };

    ghost coded = { group_value_code };

    ghost view = { λ a. record { state = group_of a.state; holders = a.state.grants } };

    ghost invariant = { λ a. IsBegun a.state };
}

impl Restoring {
    /// A group in which nothing is yet. The salt is the first half of the ids that it makes. Takes no memory.
    pub fn new(alloc: Global, salt: u64, hasher: RandomState) -> Restoring
        ensures { result ≡ nothing_restored salt }
    {
        Restoring {
            state: State::starting_at(alloc, salt, hasher, EpochNumber::zero()),
        }
    }

    /// Adds a former member with its last stamp, behind the others, and says whether it did: its id isn't empty, it has no record and
    /// isn't remembered already, and there is room for one more. If not, or where memory is short, nothing changes.
    pub fn restore_past(&mut self, id: MemberId, stamp: Stamp) -> Result<bool, AllocError>
        ensures can { IfOk result (λ yes. IsTrue yes ↔ CanBePast (members_of self.old.state) id) }
        ensures added { IfOk result (λ yes. self.new ≡ changed_if yes (with_past self.old id stamp) self.old) }
        ensures err { OnErr result (self.new ≡ self.old) }
    {
        self.state.records.restore_past(id, stamp)
    }

    /// Adds a member with its record, and says whether it did: its id isn't empty, it has no record, it is no former member, nobody has
    /// its instance, and there is room for one more. If not, or where memory is short, nothing changes.
    pub fn restore_member(&mut self, id: &MemberId, record: Record) -> Result<bool, AllocError>
        ensures can { IfOk result (λ yes. IsTrue yes ↔ CanBeMember self.old.state id.now «record») }
        ensures added { IfOk result (λ yes. self.new ≡ changed_if yes (with_member self.old id.now «record») self.old) }
        ensures err { OnErr result (self.new ≡ self.old) }
    {
        if MOST_MEMBERS <= self.state.records.len() {
            return Ok(false);
        }
        self.state.records.restore(id, record)
    }

    /// Grants a partition to a member since an epoch, and says whether it did: the member has a record, and nobody may read the
    /// partition, whose index isn't below 0. If not, or where memory is short, nothing changes.
    pub fn restore_grant(
        &mut self,
        member: &MemberId,
        p: &Partition,
        since: EpochNumber,
    ) -> Result<bool, AllocError>
        ensures can { IfOk result (λ yes. IsTrue yes ↔ CanBeGranted self.old member.now p.now) }
        ensures added { IfOk result (λ yes. self.new ≡ changed_if yes (with_granted self.old member.now p.now since) self.old) }
        ensures err { OnErr result (self.new ≡ self.old) }
    {
        if self.state.records.get(member.as_str()).is_none() {
            return Ok(false);
        }
        self.state.grants.restore(member, p, since)
    }

    /// Stores what is committed for an index of a topic, and says whether it did: nothing is for it yet. If not, nothing changes; where
    /// memory is short, nothing but the offsets, which are of no further use.
    pub fn restore_offset(
        &mut self,
        name: &str,
        index: i32,
        committed: Committed,
    ) -> Result<bool, AllocError>
        ensures can { IfOk result (λ yes. IsTrue yes ↔ (finite.get self.old.state.offsets (name.now, index) ≡ None)) }
        ensures added { IfOk result (λ yes. self.new ≡ changed_if yes (with_offset self.old (name.now, index) committed) self.old) }
        ensures err { OnErr result (self.new ≡ record self.old { state = record self.old.state { offsets = self.new.state.offsets } }) }
    {
        if self.state.offsets.committed(name, index).is_some() {
            return Ok(false);
        }
        self.state.offsets.put(name, index, committed)?;
        Ok(true)
    }

    /// The group with its numbers, its target and its view: none where no sound group has them. Fails where memory is short. The time
    /// grows as n log n with what the group has.
    pub fn finish(
        self,
        numbers: GroupNumbers,
        shares: Vec<Share>,
        view: View,
    ) -> Result<Option<Group>, AllocError>
        ensures { IfOk result (λ group. MatchOption group (¬ CanBeFinished self.state numbers (shares_in shares.items) view)
            (λ g. CanBeFinished self.state numbers (shares_in shares.items) view × (g.state ≡ finished self.state numbers (shares_in shares.items) view)
            × (g.holders ≡ self.holders))) }
    {
        // so that the epoch is known to be at most the greatest, and the view's topics to be an image's
        let _ = numbers.epoch.as_u32();
        let _ = view.topics();
        let Restoring { mut state } = self;
        if !owners_fit(state.alloc, &state.records, &view, &shares)? {
            return Ok(None);
        }
        let Some(target) = Target::of_shares(state.alloc, shares, numbers.target_epoch)? else {
            return Ok(None);
        };
        state.epoch = numbers.epoch;
        state.target = target;
        state.view = view;
        state.clock = numbers.clock;
        state.ids_made = numbers.ids_made;
        if numbers.epoch < numbers.target_epoch || !members_fit(&state) {
            return Ok(None);
        }
        Ok(Some(Group::of(state)))
    }
}
