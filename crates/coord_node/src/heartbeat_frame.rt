//! The frame of a reply to a heartbeat.
ghost use Rattle.std.specs.Prelude.{◌≡◌, All, IfSome, List, ℕ, ◌++◌, ◌-◌, length, option_map, vec_capacity};
ghost use Rattle.std.specs.Option.{option_copied};
ghost use Rattle.flex_wire.specs.Spelling.{FitsUuid};
ghost use Rattle.kip_msgs.specs.Topics.{topic_partitions_values};
ghost use Rattle.kip_msgs.specs.Views as views;
ghost use Rattle.group_types.specs.Sets.{in_order};
ghost use Rattle.group_core.specs.Listing.{listed};
ghost use Rattle.group_types.specs.HeartbeatStep.{Replied};
ghost use Rattle.group_core.specs.Outcome.{reply_of};
ghost use Rattle.coord_node.specs.Answers.{IsSendable};
ghost use Rattle.coord_node.specs.Replies.{assignment_value, reply_value, IsReplyFrame};

use crate::frame;
use flex_wire::TaggedFields;
use group_core::{MemberId, Reply, Shown};
use kip_msgs::{Assignment, HeartbeatReply, Reply as Message, ResponseHeader, TopicPartitions};
use std::alloc::Global;

/// Appends the frame of a reply to the heartbeat with the correlation id. Takes no memory: there is room for it.
pub(crate) fn put(alloc: Global, out: &mut Vec<u8>, correlation: i32, reply: Reply)
    requires { IsSendable (Replied (reply_of reply)) (vec_capacity out.old - length out.old.items) }
    ensures { (frame : List ℕ) × IsReplyFrame (reply_value correlation (reply_of reply)) frame
        × (out.new.items ≡ out.old.items ++ frame) }
{
    let Reply {
        code,
        member,
        epoch,
        interval,
        assignment,
    } = reply;
    let header = ResponseHeader {
        correlation_id: correlation,
        tags: TaggedFields::new(alloc),
    };
    let message = HeartbeatReply {
        throttle_time_ms: 0,
        error_code: code.number(),
        error_message: code.text(),
        member_id: text_of(&member),
        member_epoch: epoch,
        heartbeat_interval_ms: interval,
        assignment: assignment_of(alloc, assignment),
        tags: TaggedFields::new(alloc),
    };
    let reply = Message::Heartbeat(header, message);
    frame::put(out, &reply);
    drop(reply);
}

/// The text of an id, where there is one.
fn text_of(id: &Option<MemberId>) -> Option<&str>
    ensures { option_copied result ≡ id.now }
{
    match id {
        Some(id) => Some(id.as_str()),
        None => None,
    }
}

/// Each topic's id has sixteen bytes, as its type says.
fn have_ids(topics: &[TopicPartitions<'_>])
    ensures { All (λ t. FitsUuid t.topic_id) (topic_partitions_values topics.now) }
{
    for topic in topics {
        let _bytes: &[u8] = topic.topic_id.as_bytes();
    }
}

/// The assignment of a set, where there is one. Takes no memory.
fn assignment_of(alloc: Global, set: Option<Shown>) -> Option<Assignment<'static>>
    ensures value { option_map views.assignment_value result ≡ option_map assignment_value set }
    ensures ids { IfSome set (λ s. All (λ t. FitsUuid t.topic_id) (listed (in_order s))) }
{
    match set {
        Some(set) => {
            let topic_partitions = set.into_topics();
            have_ids(topic_partitions.as_slice());
            Some(Assignment {
                topic_partitions,
                tags: TaggedFields::new(alloc),
            })
        }
        None => None,
    }
}
