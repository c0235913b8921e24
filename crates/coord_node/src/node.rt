//! The node and its answers.
ghost use Rattle.std.specs.Prelude.{◌≡◌, ◌↔◌, ◌+◌, ◌-◌, ◌≤◌, IfOk, OnOk, OnErr, IsTrue, None, length, map, slice_get, vec_capacity};
ghost use Rattle.std.specs.Option.{option_copied, option_map};
ghost use Rattle.std.specs.FinMap as finite;
ghost use Rattle.kip_msgs.specs.Values.{RequestValue};
ghost use Rattle.kip_msgs.specs.Spelling.{commit_request_fields, request_body, FitsCommitRequest, FitsRequest};
ghost use Rattle.kip_msgs.specs.Views.{commit_reply_value, commit_request_value, heartbeat_request_value, request_value};
ghost use Rattle.group_types.specs.Limits.{LARGEST_BODY as MOST_BYTES, LONGEST_STRING};
ghost use Rattle.group_types.specs.Images.{AreImageTopics};
ghost use Rattle.group_epochs.specs.Request.{arrival_of};
ghost use Rattle.group_core.specs.Outcome.{answer_of};
ghost use Rattle.coord_node.specs.Coordinator.{Done, Frame, Tick, committed_at, is_remembered_at};
ghost use Rattle.coord_node.specs.Nodes.{HasEachOnce, coordinator_of, held_of, node_opening};
ghost use Rattle.coord_node.specs.Steps.{HeartbeatAt, IsRequest, Step};
ghost use Rattle.coord_node.specs.Answers.{Answers, AnswersRequest, AnswersHeartbeat, ClosesAtOnce, CommitsIn, IsCommitted, IsSendable, IsSent};
ghost use Rattle.coord_node.specs.Restored.{CanBeKept, listed_named, with_named_if};

use crate::absent::reply_of_absent;
use crate::admission::{admit, restore};
use crate::event::Answered;
use crate::kept::Kept;
use crate::parsed::ParsedBody;
use crate::restored::{NamedGroup, listed, named_at};
use crate::tick::tick_all;
use crate::{commit_frame, heartbeat_frame};
use group_core::{Committed, Group, Outcome};
use group_epochs::place_of;
use group_types::{Moment, Stamp};
use indexmap::IndexMap;
use kip_msgs::{CommitReply, CommitRequest, HeartbeatRequest, Request};
use std::alloc::{AllocError, Global};
use std::collections::hash_map::RandomState;
use std::marker::Model;
use topic_meta::Image;

/// The coordinator of one node: its groups, in the order of their making, and the image of the topics.
pub struct Node {
    alloc: Global,
    salt: u64,
    groups: IndexMap<String, Kept, RandomState>,
    image: Image,
    /// The image's number: how many came before it. None for good after the last number.
    generation: Option<u64>,
    /// What the tables are keyed by.
    hasher: RandomState,
    /// The place of the group that was last looked for: frames of one group often come one behind the other.
    last: usize,
}

/// Its parts are dropped here, so that a crate that drops a node goes through none of them in its proofs.
impl Drop for Node {
    fn drop(self) {
        let Node {
            alloc: _,
            salt: _,
            groups: _,
            image: _,
            generation: _,
            hasher: _,
            last: _,
        } = self;
    }
}

impl Model for Node {
    ghost use Rattle.coord_node.specs.Nodes.{NodeValue};
    ghost use Rattle.coord_node.specs.Stored.{node_code};

    ghost Value = { NodeValue };

    ghost coded = { node_code };

    ghost use Rattle.coord_node.specs.NodeView.{IsNode, node_view};

    ghost view = { node_view };

    ghost invariant = { IsNode };
}

impl Node {
    /// A node with no groups and no topics. The salt is the first half of the ids that it makes. Takes no memory.
    pub fn new(alloc: Global, salt: u64, hasher: RandomState) -> Node
        ensures { result ≡ node_opening salt }
    {
        Node {
            alloc,
            salt,
            groups: IndexMap::with_hasher(alloc, hasher),
            image: Image::empty(alloc),
            generation: Some(0),
            hasher,
            last: 0,
        }
    }

    /// Replaces the image. Each group meets it at its next accepted heartbeat. Takes no memory.
    pub fn set_image(&mut self, image: Image)
        ensures value { self.new ≡ record self.old { image = image } }
        ensures sound { AreImageTopics image }
    {
        // so that its topics are known to be an image's
        let _ = image.len();
        self.image = image;
        self.generation = match self.generation {
            Some(number) => number.checked_add(1),
            None => None,
        };
    }

    /// The salt: the first half of the ids that the groups make.
    pub fn salt(&self) -> u64
        ensures { result ≡ self.now.salt }
    {
        self.salt
    }

    /// The image of the topics.
    pub fn image(&self) -> &Image
        ensures { result.now ≡ self.now.image }
    {
        &self.image
    }

    /// How many groups the node has.
    pub fn group_count(&self) -> usize
        ensures count { result ≡ length self.now.groups }
        ensures once { HasEachOnce self.now }
    {
        self.groups.len()
    }

    /// All groups with their names, each name once, in the order of their making. Fails where memory is short.
    pub fn groups(&self) -> Result<Vec<NamedGroup<'_>>, AllocError>
        ensures groups { IfOk result (λ list. map listed_named list.items ≡ self.now.groups) }
        ensures once { HasEachOnce self.now }
    {
        listed(self.alloc, &self.groups)
    }

    /// The group at a place, with its name, in the order of their making; none past the last. So a caller goes over all groups without
    /// taking memory.
    pub fn group_at(&self, place: usize) -> Option<NamedGroup<'_>>
        ensures { option_map listed_named result ≡ slice_get self.now.groups place }
    {
        named_at(&self.groups, place)
    }

    /// Adds a group that was restored under a name, behind the others, and says whether it did: the name is one that a join may have,
    /// the node has no group of it, and has room for one more. If not, or where memory is short, nothing changes.
    pub fn restore_group(&mut self, name: &str, group: Group) -> Result<bool, AllocError>
        ensures can { IfOk result (λ yes. IsTrue yes ↔ CanBeKept (coordinator_of self.old).groups name.now) }
        ensures kept { IfOk result (λ yes. self.new ≡ with_named_if yes self.old (name.now, held_of group)) }
        ensures err { OnErr result (self.new ≡ self.old) }
    {
        restore(self.alloc, &mut self.groups, name, Kept::of(group))
    }

    /// The group of a name, where the node has it.
    pub fn group(&self, name: &str) -> Option<&Group>
        ensures { option_map (λ g. g.state) (option_copied result) ≡ finite.get (coordinator_of self.now).groups name.now }
    {
        match self.groups.get(name) {
            Some(kept) => Some(&kept.group),
            None => None,
        }
    }

    /// Whether the node has the group, and the group the member, or remembers it as a former one. Takes no memory.
    pub fn remembers(&self, group: &str, id: &str) -> bool
        ensures { result ≡ is_remembered_at (finite.get (coordinator_of self.now).groups group.now) id.now }
    {
        match self.groups.get(group) {
            Some(kept) => kept.group.remembers(id),
            None => false,
        }
    }

    /// What was last committed in a group for an index of a topic; none where the node has no such group. Takes no memory.
    pub fn committed(&self, group: &str, name: &str, index: i32) -> Option<&Committed>
        ensures { option_copied result ≡ committed_at (finite.get (coordinator_of self.now).groups group.now) (name.now, index) }
    {
        match self.groups.get(group) {
            Some(kept) => kept.group.committed(name, index),
            None => None,
        }
    }

    /// Removes the members whose session or release deadline has come from all groups (KIP-848, "Session Management", "Rebalance
    /// Timeout"), and says how many. Takes no memory.
    pub fn tick(&mut self, now: Moment) -> usize
        ensures { Step (coordinator_of self.old) (Tick now) (Done result) (coordinator_of self.new) }
    {
        tick_all(&mut self.groups, now)
    }

    /// Answers the body of one frame, which came with a stamp at a moment: appends the one frame that spells the reply,
    /// or closes and changes nothing. A body closes that is no request or is outside the lengths of a frame, and a heartbeat that
    /// another one of its member overtook. Where memory is short nothing has changed.
    pub fn answer(
        &mut self,
        body: &[u8],
        stamp: Stamp,
        now: Moment,
        out: &mut Vec<u8>,
    ) -> Result<Answered, AllocError>
        ensures step { IfOk result (λ answered.
            Answers (coordinator_of self.old) (Frame body.now stamp now) answered (coordinator_of self.new) out.old.items out.new.items) }
        ensures err { OnErr result ((self.new ≡ self.old) × (out.new.items ≡ out.old.items)) }
        // A body that closes at once takes no memory.
        ensures at_once { ClosesAtOnce body.now → result ≡ Ok Answered.Closes }
    {
        let parsed = ParsedBody::of(self.alloc, body)?;
        self.answer_parsed(&parsed, stamp, now, out)
    }

    /// Answers a body that was read before, as [`Node::answer`] does: its bytes aren't read once more.
    pub fn answer_parsed(
        &mut self,
        parsed: &ParsedBody<'_>,
        stamp: Stamp,
        now: Moment,
        out: &mut Vec<u8>,
    ) -> Result<Answered, AllocError>
        ensures step { IfOk result (λ answered.
            Answers (coordinator_of self.old) (Frame parsed.now stamp now) answered (coordinator_of self.new) out.old.items out.new.items) }
        ensures err { OnErr result ((self.new ≡ self.old) × (out.new.items ≡ out.old.items)) }
        // A body that is no request, one of a refused length among them, takes no memory.
        ensures no_request { ((v : RequestValue) → ¬ IsRequest v parsed.now) → result ≡ Ok Answered.Closes }
    {
        let size = parsed.bytes().len();
        match parsed.request() {
            Some(request) => self.request(request, size, stamp, now, out),
            None => Ok(Answered::Closes),
        }
    }

    /// Answers a request, whose body has `size` bytes, by its API.
    fn request(
        &mut self,
        request: &Request<'_>,
        size: usize,
        stamp: Stamp,
        now: Moment,
        out: &mut Vec<u8>,
    ) -> Result<Answered, AllocError>
        requires fits { FitsRequest (request_value request.now) }
        requires size { length (request_body (request_value request.now)) ≤ size }
        requires most { size ≤ MOST_BYTES }
        ensures step { IfOk result (λ answered.
            AnswersRequest (coordinator_of self.old) (request_value request.now) stamp now answered (coordinator_of self.new) out.old.items out.new.items) }
        ensures err { OnErr result ((self.new ≡ self.old) × (out.new.items ≡ out.old.items)) }
    {
        match request {
            Request::Heartbeat(header, message) => {
                self.heartbeat(header.correlation_id, message, stamp, now, out)
            }
            Request::Commit(header, message) => {
                self.commit(header.correlation_id, message, size, out)?;
                Ok(Answered::Replied)
            }
        }
    }

    /// Answers a heartbeat: the one frame of its reply is appended in the room that is there for it by then.
    fn heartbeat(
        &mut self,
        correlation: i32,
        request: &HeartbeatRequest<'_>,
        stamp: Stamp,
        now: Moment,
        out: &mut Vec<u8>,
    ) -> Result<Answered, AllocError>
        requires id { length request.now.member_id.now ≤ LONGEST_STRING }
        ensures step { IfOk result (λ answered. AnswersHeartbeat (coordinator_of self.old) correlation
            (arrival_of (heartbeat_request_value request.now) stamp now self.old.image) answered (coordinator_of self.new)
            out.old.items out.new.items) }
        ensures err { OnErr result ((self.new ≡ self.old) × (out.new.items ≡ out.old.items)) }
    {
        let outcome = self.outcome_of(request, stamp, now, out)?;
        Ok(send(self.alloc, correlation, outcome, out))
    }

    /// Answers a commit, whose body has `size` bytes: a reply has no more bytes than its request, so the room for its frame is made
    /// before anything is stored.
    fn commit(
        &mut self,
        correlation: i32,
        request: &CommitRequest<'_>,
        size: usize,
        out: &mut Vec<u8>,
    ) -> Result<(), AllocError>
        requires fits { FitsCommitRequest (commit_request_value request.now) }
        requires size { length (commit_request_fields (commit_request_value request.now)) + 10 ≤ size }
        requires most { size ≤ MOST_BYTES }
        ensures step { OnOk result (IsCommitted (coordinator_of self.old) correlation (commit_request_value request.now) (coordinator_of self.new)
            out.old.items out.new.items) }
        ensures err { OnErr result ((self.new ≡ self.old) × (out.new.items ≡ out.old.items)) }
    {
        out.reserve(size)?;
        let reply = self.reply_of_commit(request)?;
        commit_frame::put(self.alloc, out, correlation, reply);
        Ok(())
    }

    /// What the group of a commit answers, in its place; GROUP_ID_NOT_FOUND for each partition where there is none. Where memory is
    /// short the node has not changed.
    fn reply_of_commit<'a>(
        &mut self,
        request: &CommitRequest<'a>,
    ) -> Result<CommitReply<'a>, AllocError>
        ensures step { IfOk result (λ reply. CommitsIn (coordinator_of self.old) (commit_request_value request.now) (commit_reply_value reply) (coordinator_of self.new)) }
        ensures err { OnErr result (self.new ≡ self.old) }
    {
        match place_of(&self.groups, self.last, request.group_id) {
            Some(place) => {
                self.last = place;
                let group = &mut self.groups[place];
                group.commit(request, &self.image)
            }
            None => reply_of_absent(self.alloc, request),
        }
    }

    /// What the group of a heartbeat makes of it, in its place, or a new group where there is none. Nothing is appended; where it
    /// replies there is room for the reply's frame. Where memory is short the node has not changed.
    fn outcome_of(
        &mut self,
        request: &HeartbeatRequest<'_>,
        stamp: Stamp,
        now: Moment,
        out: &mut Vec<u8>,
    ) -> Result<Outcome, AllocError>
        requires id { length request.now.member_id.now ≤ LONGEST_STRING }
        ensures step { IfOk result (λ outcome. HeartbeatAt (finite.get (coordinator_of self.old).groups request.now.group_id.now) (coordinator_of self.old)
            (arrival_of (heartbeat_request_value request.now) stamp now self.old.image) (answer_of outcome) (coordinator_of self.new)) }
        ensures sendable { IfOk result (λ outcome. IsSendable (answer_of outcome) (vec_capacity out.new - length out.new.items)) }
        ensures out { out.new.items ≡ out.old.items }
        ensures err { OnErr result (self.new ≡ self.old) }
    {
        match place_of(&self.groups, self.last, request.group_id) {
            Some(place) => {
                self.last = place;
                let kept = &mut self.groups[place];
                kept.heartbeat(request, stamp, now, &self.image, self.generation, out)
            }
            None => self.outcome_of_new(request, stamp, now, out),
        }
    }

    /// What a new group makes of a heartbeat. The node keeps it where it has its first member, and there is room for one more group.
    fn outcome_of_new(
        &mut self,
        request: &HeartbeatRequest<'_>,
        stamp: Stamp,
        now: Moment,
        out: &mut Vec<u8>,
    ) -> Result<Outcome, AllocError>
        requires id { length request.now.member_id.now ≤ LONGEST_STRING }
        requires absent { finite.get (coordinator_of self.old).groups request.now.group_id.now ≡ None }
        ensures step { IfOk result (λ outcome. HeartbeatAt (finite.get (coordinator_of self.old).groups request.now.group_id.now) (coordinator_of self.old)
            (arrival_of (heartbeat_request_value request.now) stamp now self.old.image) (answer_of outcome) (coordinator_of self.new)) }
        ensures sendable { IfOk result (λ outcome. IsSendable (answer_of outcome) (vec_capacity out.new - length out.new.items)) }
        ensures out { out.new.items ≡ out.old.items }
        ensures err { OnErr result (self.new ≡ self.old) }
    {
        let mut kept = Kept::new(self.alloc, self.salt, self.hasher);
        match kept.heartbeat(request, stamp, now, &self.image, self.generation, out) {
            Ok(outcome) => admit(
                self.alloc,
                &mut self.groups,
                request.group_id,
                kept,
                outcome,
            ),
            Err(error) => {
                drop(kept);
                Err(error)
            }
        }
    }
}

/// Sends what a group answered, in the room that is there. Takes no memory.
fn send(alloc: Global, correlation: i32, outcome: Outcome, out: &mut Vec<u8>) -> Answered
    requires { IsSendable (answer_of outcome) (vec_capacity out.old - length out.old.items) }
    ensures { IsSent correlation (answer_of outcome) result out.old.items out.new.items }
{
    match outcome {
        Outcome::Reply(reply) => {
            heartbeat_frame::put(alloc, out, correlation, reply);
            Answered::Replied
        }
        Outcome::Overtaken => Answered::Closes,
    }
}
