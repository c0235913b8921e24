//! A group that a node keeps.
ghost use Rattle.std.specs.Prelude.{◌≡◌, ◌-◌, ◌≤◌, ℕ, Option, None, IfOk, OnErr, length, vec_capacity};
ghost use Rattle.group_types.specs.Group.{new_group};
ghost use Rattle.group_types.specs.Limits.{LONGEST_STRING, MOST_MEMBERS};
ghost use Rattle.group_types.specs.Tick.{removed_by_tick, ticked};
ghost use Rattle.group_types.specs.Topics.{Topics};
ghost use Rattle.kip_msgs.specs.Views.{commit_reply_value, commit_request_value, heartbeat_request_value};
ghost use Rattle.group_epochs.specs.Request.{arrival_of, commit_of};
ghost use Rattle.group_types.specs.HeartbeatStep.{HeartbeatStep};
ghost use Rattle.group_core.specs.Commits.{Commits};
ghost use Rattle.group_core.specs.Outcome.{answer_of};
ghost use Rattle.coord_node.specs.Kept.{HasRightNumber, group_in, is_same, known_after};
ghost use Rattle.coord_node.specs.Answers.{IsSendable};

use crate::success::is_success;
use group_core::{Group, MemberHeartbeat, Outcome};
use group_types::{Moment, Stamp};
use kip_msgs::{CommitReply, CommitRequest, HeartbeatRequest};
use std::alloc::{AllocError, Global};
use std::collections::hash_map::RandomState;
use topic_meta::Image;

/// A group, and the image under which its view was last known to be the image's.
#[derive(Drop)]
pub(crate) struct Kept {
    pub(crate) group: Group,
    /// The number of that image; none where no image is known.
    known: Option<u64>,
}

impl Kept {
    /// A new group, of whose view nothing is known. Takes no memory.
    pub(crate) fn new(alloc: Global, salt: u64, hasher: RandomState) -> Kept
        ensures group { group_in result ≡ new_group salt }
        ensures known { result.known ≡ None }
    {
        Kept {
            group: Group::new(alloc, salt, hasher),
            known: None,
        }
    }

    /// A group that was restored, of whose view nothing is known. Takes no memory.
    pub(crate) fn of(group: Group) -> Kept
        ensures group { result.group ≡ group }
        ensures known { result.known ≡ None }
    {
        Kept { group, known: None }
    }

    /// One heartbeat, over the node's image and its number. Where it replies there is room for the reply's frame behind the bytes
    /// of `out`, which stay. Where memory is short nothing has changed.
    pub(crate) fn heartbeat(
        &mut self,
        request: &HeartbeatRequest<'_>,
        stamp: Stamp,
        now: Moment,
        image: &Image,
        generation: Option<u64>,
        out: &mut Vec<u8>,
    ) -> Result<Outcome, AllocError>
        requires kept { HasRightNumber generation image.now self.old }
        requires id { length request.now.member_id.now ≤ LONGEST_STRING }
        ensures step { IfOk result (λ outcome. HeartbeatStep (group_in self.old)
            (arrival_of (heartbeat_request_value request.now) stamp now image.now) (answer_of outcome) (group_in self.new)) }
        ensures sendable { IfOk result (λ outcome. IsSendable (answer_of outcome) (vec_capacity out.new - length out.new.items)) }
        ensures kept { HasRightNumber generation image.now self.new }
        ensures out { out.new.items ≡ out.old.items }
        ensures err { OnErr result (self.new ≡ self.old) }
    {
        let is_current = self.is_current(generation);
        let heartbeat = MemberHeartbeat { request };
        let outcome = self
            .group
            .heartbeat_over(&heartbeat, stamp, now, image, is_current, out)?;
        self.known = known_after(&outcome, self.known, generation);
        Ok(outcome)
    }

    /// One commit over the node's image, of which the group's view knows no more and no less than before. Where memory is short
    /// nothing has changed.
    pub(crate) fn commit<'a>(
        &mut self,
        request: &CommitRequest<'a>,
        image: &Image,
    ) -> Result<CommitReply<'a>, AllocError>
        ensures step { IfOk result (λ reply. Commits (group_in self.old) (commit_of (commit_request_value request.now)) image.now
            (commit_reply_value reply) (group_in self.new)) }
        ensures kept { (generation : Option ℕ) → HasRightNumber generation image.now self.old → HasRightNumber generation image.now self.new }
        ensures err { OnErr result (self.new ≡ self.old) }
    {
        self.group.commit(request, image)
    }

    /// The group meets the moment. Where members were removed, they may have been the last ones that subscribed a topic. Says how
    /// many. Takes no memory.
    pub(crate) fn tick(&mut self, now: Moment) -> usize
        ensures group { group_in self.new ≡ ticked (group_in self.old) now }
        ensures removed { result ≡ removed_by_tick (group_in self.old) now }
        ensures few { result ≤ MOST_MEMBERS }
        ensures kept { (generation : Option ℕ) (image : Topics) → HasRightNumber generation image self.old → HasRightNumber generation image self.new }
    {
        // so that the group is known to have no more members than the most
        let _ = self.group.epoch();
        let removed = self.group.tick(now);
        if removed != 0 {
            self.known = None;
        }
        removed
    }

    /// Whether the group's view is known to be that of the image with the number.
    fn is_current(&self, generation: Option<u64>) -> bool
        ensures { result ≡ is_same self.now.known generation }
    {
        match (self.known, generation) {
            (Some(known), Some(present)) => known == present,
            _ => false,
        }
    }
}

/// The number after a heartbeat: an accepted join or beat met the image, and a member that left may have been the last one that
/// subscribed a topic. What is refused or closes changes nothing.
fn known_after(outcome: &Outcome, before: Option<u64>, generation: Option<u64>) -> Option<u64>
    ensures { result ≡ known_after (answer_of outcome.now) before generation }
{
    match outcome {
        Outcome::Reply(reply) => {
            if !is_success(reply.code) {
                before
            } else if reply.epoch < 0 {
                None
            } else {
                generation
            }
        }
        Outcome::Overtaken => before,
    }
}
