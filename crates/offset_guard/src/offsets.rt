//! The offsets of a group.

ghost use Rattle.std.specs.Prelude.{ℤ, ◌≡◌, map, IfOk, OnErr, OnOk};
ghost use Rattle.std.specs.Option.{option_copied, option_or};
ghost use Rattle.std.specs.List.{flat_map};
ghost use Rattle.std.specs.FinMap as finite;
ghost use Rattle.kip_msgs.specs.Views.{commit_reply_value as reply_value, commit_request_partition_value, commit_request_topic_value, commit_request_value};
ghost use Rattle.group_types.specs.Text.{Text};
ghost use Rattle.group_types.specs.Commit.{commit_reply, named_commitments, offsets_after, refusal_of_commit, with_offsets};
ghost use Rattle.group_epochs.specs.Request.{commit_of, commitment_of};
ghost use Rattle.offset_guard.specs.Requests.{topic_of};
ghost use Rattle.offset_guard.specs.Replies.{commit_reply_value};
ghost use Rattle.offset_guard.specs.Listing.{entry_of};

use crate::checks::{code_of_taken, partitions_of, refusal_of};
use crate::committed::Committed;
use crate::listing::{CommittedAt, add_topic, topics_in_order};
use crate::reply::reply_to;
use crate::store::{Topics, append, make_room, put};
use group_epochs::Records;
use group_types::Code;
use indexmap::IndexMap;
use kip_msgs::{CommitReply, CommitRequest, CommitRequestPartition, CommitRequestTopic};
use std::alloc::{AllocError, Global};
use std::collections::hash_map::RandomState;
use std::marker::Model;
use topic_meta::Image;

/// What a group's members have committed, by a topic's name and an index.
#[derive(Drop)]
pub struct Offsets {
    alloc: Global,
    topics: Topics,
    hasher: RandomState,
}

impl Model for Offsets {
    ghost use Rattle.group_types.specs.Group.{Offsets as Stored};
    ghost use Rattle.offset_guard.specs.Stored.{offsets_code};
    ghost use Rattle.offset_guard.specs.Topics.{offsets_in};

    ghost Value = { Stored };

    ghost coded = { offsets_code };

    ghost view = { λ a. offsets_in a.topics.entries };
}

impl Offsets {
    /// The offsets of a group that nobody has committed to. Takes no memory.
    pub fn new(alloc: Global, hasher: RandomState) -> Offsets
        ensures { result ≡ finite.empty }
    {
        Offsets {
            alloc,
            topics: IndexMap::with_hasher(alloc, hasher),
            hasher,
        }
    }

    /// What was last committed for an index of a topic, or none. Takes no memory.
    pub fn committed(&self, name: &str, index: i32) -> Option<&Committed>
        ensures { option_copied result ≡ finite.get self.now (name.now, index) }
    {
        match self.topics.get(name) {
            Some(offsets) => offsets.get(index),
            None => None,
        }
    }

    /// Answers a commit (KIP-848, "OffsetCommit"): it is refused as a whole, or taken and answered partition by partition, in the
    /// request's order. What is answered with success is stored, and of a partition that stands twice the last stands. The
    /// group is there; one that isn't is its caller's to answer. Where memory is short, nothing has changed.
    pub fn commit<'a>(
        &mut self,
        records: &Records,
        request: &CommitRequest<'a>,
        image: &Image,
    ) -> Result<CommitReply<'a>, AllocError>
        ensures reply { let c = commit_of (commit_request_value request.now) in
            IfOk result (λ reply. reply_value reply ≡ commit_reply_value (commit_reply (refusal_of_commit records.now.records c.member c.epoch) c image.now)) }
        ensures offsets { let c = commit_of (commit_request_value request.now) in
            OnOk result (self.new ≡ offsets_after (refusal_of_commit records.now.records c.member c.epoch) self.old c image.now) }
        ensures err { OnErr result (self.new ≡ self.old) }
    {
        let refusal = refusal_of(records, request);
        let reply = reply_to(self.alloc, refusal, request, image)?;
        if refusal.is_none() {
            let news = self.news_of(request, image)?;
            self.absorb(news)?;
        }
        Ok(reply)
    }

    /// What a taken commit stores, by itself. Fails where memory is short.
    fn news_of(&self, request: &CommitRequest<'_>, image: &Image) -> Result<Offsets, AllocError>
        ensures { IfOk result (λ news. news ≡ with_offsets image.now finite.empty (flat_map named_commitments (commit_of (commit_request_value request.now)).topics)) }
    {
        let mut news = Offsets::new(self.alloc, self.hasher);
        for topic in request.topics.as_slice() {
            news.put_topic(topic, image)?;
        }
        Ok(news)
    }

    /// Stores what a taken commit has for a topic. Fails where memory is short.
    fn put_topic(&mut self, topic: &CommitRequestTopic<'_>, image: &Image) -> Result<(), AllocError>
        ensures { OnOk result (self.new ≡ with_offsets image.now self.old (named_commitments (topic_of (commit_request_topic_value topic.now)))) }
    {
        let count = partitions_of(image, topic.name);
        for partition in topic.partitions.as_slice() {
            if code_of_taken(count, partition) == Code::NoError {
                let committed = self.committed_of(partition)?;
                self.put(topic.name, partition.partition_index, committed)?;
            }
        }
        Ok(())
    }

    /// What a request commits for a partition. Fails where memory is short.
    fn committed_of(&self, partition: &CommitRequestPartition<'_>) -> Result<Committed, AllocError>
        ensures { IfOk result (λ c. c ≡ (commitment_of (commit_request_partition_value partition.now)).committed) }
    {
        Committed::of(self.alloc, partition)
    }

    /// All that is committed, in the order of the topics' names by their bytes, and of the indexes. Fails where memory is short.
    pub fn in_order(&self) -> Result<Vec<CommittedAt<'_>>, AllocError>
        ensures { IfOk result (λ list. map entry_of list.items ≡ finite.entries self.now) }
    {
        let mut list = Vec::new(self.alloc);
        for (name, offsets) in topics_in_order(self.alloc, &self.topics)? {
            add_topic(self.alloc, &mut list, name, offsets)?;
        }
        Ok(list)
    }

    /// Stores what is committed for an index of a topic. Where memory is short, the offsets are of no further use.
    pub fn put(&mut self, name: &str, index: i32, committed: Committed) -> Result<(), AllocError>
        ensures { OnOk result (self.new ≡ finite.insert self.old (name.now, index) committed) }
    {
        put(
            &mut self.topics,
            self.alloc,
            self.hasher,
            name,
            index,
            committed,
        )
    }

    /// Takes over all of the news: room for all of it is made first. Where memory is short, nothing has changed.
    fn absorb(&mut self, news: Offsets) -> Result<(), AllocError>
        ensures absorbed { OnOk result ((place : Text × ℤ) → finite.get self.new place ≡ option_or (finite.get news place) (finite.get self.old place)) }
        ensures err { OnErr result (self.new ≡ self.old) }
    {
        let Offsets {
            alloc: _,
            topics: news,
            hasher: _,
        } = news;
        make_room(&mut self.topics, &news)?;
        append(&mut self.topics, news);
        Ok(())
    }
}
