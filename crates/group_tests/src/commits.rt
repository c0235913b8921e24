//! Requests that commit offsets, and the codes that answer them.

use flex_wire::TaggedFields;
use kip_msgs::{Array, CommitReply, CommitRequest, CommitRequestPartition, CommitRequestTopic};
use std::alloc::{AllocError, Global};
use test_support::tables::{cut, number, part_words};

/// The request that words say: the member's id, its epoch, and for each partition `TOPIC:INDEX:OFFSET:LEADER`, with the leader's
/// epoch, or `TOPIC:INDEX:OFFSET:LEADER:METADATA`.
pub fn request_of(alloc: Global, words: &str) -> Result<CommitRequest<'_>, AllocError> {
    let (id, words) = cut(words);
    let (epoch, words) = cut(words);
    let mut topics = Array::new(alloc);
    for word in words.split_whitespace() {
        topics.push(topic_of(alloc, word)?)?;
    }
    Ok(CommitRequest {
        group_id: "g",
        generation_id_or_member_epoch: number(epoch),
        member_id: id,
        group_instance_id: None,
        topics,
        tags: TaggedFields::new(alloc),
    })
}

/// A topic with the one partition that the word says.
fn topic_of(alloc: Global, word: &str) -> Result<CommitRequestTopic<'_>, AllocError> {
    let (name, fields) = word.split_once(':').unwrap_or((word, ""));
    let mut partitions = Array::new(alloc);
    partitions.push(partition_of(alloc, fields))?;
    Ok(CommitRequestTopic {
        name,
        partitions,
        tags: TaggedFields::new(alloc),
    })
}

fn partition_of(alloc: Global, fields: &str) -> CommitRequestPartition<'_> {
    let mut fields = fields.split(':');
    CommitRequestPartition {
        partition_index: number(fields.next().unwrap_or("")),
        committed_offset: number(fields.next().unwrap_or("")),
        committed_leader_epoch: number(fields.next().unwrap_or("")),
        committed_metadata: fields.next(),
        tags: TaggedFields::new(alloc),
    }
}

/// The codes of all partitions, in the reply's order, behind what was told before.
pub fn tell_codes(reply: &CommitReply<'_>, out: &mut String) -> Result<(), AllocError> {
    part_words(out)?;
    out.push_str("codes:")?;
    for topic in reply.topics.as_slice() {
        for partition in topic.partitions.as_slice() {
            if out.as_str().ends_with(|last: char| last.is_ascii_digit()) {
                out.push(',')?;
            }
            write!(out, "{}", partition.error_code)?;
        }
    }
    Ok(())
}
