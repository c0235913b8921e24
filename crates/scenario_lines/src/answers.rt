//! The lines of what the coordinator answers: of replies to heartbeats, and of those to commits.
ghost use Rattle.std.specs.Prelude.{◌≡◌, ◌++◌, [], map, IfOk, OnOk};
ghost use Rattle.std.specs.List.{flat_map};
ghost use Rattle.std.specs.Option.{option_map};
ghost use Rattle.kip_msgs.specs.Topics.{topic_partitions_value, topic_partitions_values};
ghost use Rattle.kip_msgs.specs.Views.{assignment_value, commit_reply_partition_value, commit_reply_topic_value, commit_reply_value, heartbeat_reply_value};
ghost use Rattle.group_types.specs.Sets.{of_list};
ghost use Rattle.member_core.specs.Listing.{all_partitions_of, partitions_of};
ghost use Rattle.scenario_text.specs.Lines.{fed};
ghost use Rattle.scenario_text.specs.Reports.{spaced};
ghost use Rattle.scenario_lines.specs.Shows.{IsCodesText, IsReplyText, assignment_word, code_word, code_words, codes_line, reply_line};

use crate::parts::put_set;
use group_types::PartSet;
use kip_msgs::{
    Api, Assignment, CommitReply, CommitReplyPartition, CommitReplyTopic, HeartbeatReply, Reply,
    TopicPartitions, read_reply,
};
use scenario_text::page::Page;
use std::alloc::{AllocError, Global};
use world_sim::{Partition, World};

/// Puts the line of the reply with a number on an empty page. That there is none is an `Err`, as want of memory is.
pub fn put_reply(
    alloc: Global,
    page: &mut Page,
    world: &World,
    number: usize,
) -> Result<(), AllocError>
    requires { page.old ≡ [] }
    ensures { OnOk result (IsReplyText world.now number page.new) }
{
    let Some(body) = world.reply(number) else {
        return Err(AllocError);
    };
    match read_reply(alloc, Api::Heartbeat, body) {
        Ok(Reply::Heartbeat(_, reply)) => put_heartbeat_reply(alloc, page, number, &reply),
        _ => Err(AllocError),
    }
}

/// Puts the line of a reply to a heartbeat: its number, its code, the member's epoch and the assignment.
fn put_heartbeat_reply(
    alloc: Global,
    page: &mut Page,
    number: usize,
    reply: &HeartbeatReply<'_>,
) -> Result<(), AllocError>
    ensures { OnOk result (page.new ≡ page.old ++ fed (reply_line number (heartbeat_reply_value reply.now))) }
{
    page.put("reply")?;
    page.number_word(number)?;
    page.word("code")?;
    page.number_word(reply.error_code)?;
    page.word("epoch")?;
    page.number_word(reply.member_epoch)?;
    page.word("shows")?;
    page.put(" ")?;
    put_assignment(alloc, page, &reply.assignment)?;
    page.put("\n")
}

/// Puts the word of an assignment, which is null where nothing is new.
fn put_assignment(
    alloc: Global,
    page: &mut Page,
    assignment: &Option<Assignment<'_>>,
) -> Result<(), AllocError>
    ensures { OnOk result (page.new ≡ page.old ++ assignment_word (option_map assignment_value assignment.now)) }
{
    match assignment {
        Some(assignment) => {
            let set = set_of(alloc, assignment.topic_partitions.as_slice())?;
            put_set(page, &set)
        }
        None => page.put("null"),
    }
}

/// The set of all topics' partitions.
fn set_of(alloc: Global, topics: &[TopicPartitions<'_>]) -> Result<PartSet, AllocError>
    ensures { IfOk result (λ set. set ≡ of_list (all_partitions_of (topic_partitions_values topics.now))) }
{
    let mut partitions = Vec::new(alloc);
    for topic in topics {
        add_topic(&mut partitions, topic)?;
    }
    Ok(PartSet::of_vec(partitions))
}

/// Adds the partitions of a topic.
fn add_topic(partitions: &mut Vec<Partition>, topic: &TopicPartitions<'_>) -> Result<(), AllocError>
    ensures { OnOk result (partitions.new.items ≡ partitions.old.items ++ partitions_of (topic_partitions_value topic.now)) }
{
    for index in topic.partitions.as_slice() {
        partitions.push(Partition {
            topic: topic.topic_id,
            index: *index,
        })?;
    }
    Ok(())
}

/// Puts the line of the reply to a commit on an empty page.
pub fn put_commit_reply(alloc: Global, page: &mut Page, body: &[u8]) -> Result<(), AllocError>
    requires { page.old ≡ [] }
    ensures { OnOk result (IsCodesText body.now page.new) }
{
    match read_reply(alloc, Api::Commit, body) {
        Ok(Reply::Commit(_, reply)) => put_codes(page, &reply),
        _ => Err(AllocError),
    }
}

/// Puts the line of the codes of a commit.
fn put_codes(page: &mut Page, reply: &CommitReply<'_>) -> Result<(), AllocError>
    ensures { OnOk result (page.new ≡ page.old ++ fed (codes_line (commit_reply_value reply.now))) }
{
    page.put("code")?;
    put_topic_codes(page, reply.topics.as_slice())?;
    page.put("\n")
}

/// Puts the codes of all topics' partitions.
fn put_topic_codes(page: &mut Page, topics: &[CommitReplyTopic<'_>]) -> Result<(), AllocError>
    ensures { OnOk result (page.new ≡ page.old
        ++ spaced (flat_map code_words (map commit_reply_topic_value topics.now))) }
{
    for topic in topics {
        put_code_words(page, topic.partitions.as_slice())?;
    }
    Ok(())
}

/// Puts the code of each partition.
fn put_code_words(
    page: &mut Page,
    partitions: &[CommitReplyPartition<'_>],
) -> Result<(), AllocError>
    ensures { OnOk result (page.new ≡ page.old
        ++ spaced (map code_word (map commit_reply_partition_value partitions.now))) }
{
    for partition in partitions {
        page.number_word(partition.error_code)?;
    }
    Ok(())
}
