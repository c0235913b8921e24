//! Why the coordinator refused a request, in words: by the code of the reply, and by its state, which a refusal leaves as it was.

use crate::reasons::frame_of;
use crate::sentences::{behind, no_group, no_member};
use coord_node::Node;
use group_core::Group;
use group_types::limits::{GREATEST_EPOCH, LONGEST_METADATA, MOST_GROUPS};
use group_types::{Code, Epoch, Partition};
use kip_msgs::{
    Api, CommitReply, CommitRequest, HeartbeatRequest, Reply, Request, TopicPartitions, read_reply,
    read_request,
};
use scenario_text::command_line::escaped;
use scenario_text::frame;
use std::alloc::{AllocError, Global};

/// The codes of refusals.
const CODES: &[Code] = &[
    Code::UnknownTopicOrPartition,
    Code::OffsetMetadataTooLarge,
    Code::CoordinatorNotAvailable,
    Code::UnknownMemberId,
    Code::InvalidRequest,
    Code::GroupIdNotFound,
    Code::GroupMaxSizeReached,
    Code::FencedMemberEpoch,
    Code::UnreleasedInstanceId,
    Code::UnsupportedAssignor,
    Code::StaleMemberEpoch,
];

/// The code of a refusal with this number, if it is one.
pub fn code_of(number: i16) -> Option<Code> {
    CODES.iter().find(|code| code.number() == number).copied()
}

/// A reason behind the number of the code.
pub fn numbered(alloc: Global, code: Code, reason: &str) -> Result<Option<String>, AllocError> {
    let number = code.number();
    Ok(Some(format!(in alloc; "{number}: {reason}")?))
}

/// Why a node refused the request of a `req` line with this frame of a reply, if it did.
pub fn of_reply(
    alloc: Global,
    node: &Node,
    line: &[u8],
    reply: &[u8],
) -> Result<Option<String>, AllocError> {
    let Some(request) = frame_of(alloc, line)? else {
        return Ok(None);
    };
    let (Some(request), Some(reply)) = (frame::framed(request.as_slice()), frame::framed(reply))
    else {
        return Ok(None);
    };
    match read_request(alloc, request) {
        Ok(Request::Heartbeat(_, message)) => of_heartbeat(alloc, node, &message, reply),
        Ok(Request::Commit(_, message)) => of_commit(alloc, node, &message, reply),
        Err(_) => Err(AllocError),
    }
}

/// Why a heartbeat was refused with this body of a reply, if it was.
fn of_heartbeat(
    alloc: Global,
    node: &Node,
    message: &HeartbeatRequest<'_>,
    reply: &[u8],
) -> Result<Option<String>, AllocError> {
    let Ok(Reply::Heartbeat(_, reply)) = read_reply(alloc, Api::Heartbeat, reply) else {
        return Err(AllocError);
    };
    let Some(code) = code_of(reply.error_code) else {
        return Ok(None);
    };
    let group = node.group(message.group_id);
    let reason = match code {
        Code::CoordinatorNotAvailable => no_room(alloc, group, message.group_id)?,
        Code::UnknownMemberId => unknown_member(alloc, group, message)?,
        Code::InvalidRequest => String::from_str(alloc, invalid(message))?,
        Code::GroupMaxSizeReached => full(alloc, group, message.group_id)?,
        Code::FencedMemberEpoch => fenced(alloc, group, message)?,
        Code::UnreleasedInstanceId => unreleased(alloc, group, message)?,
        Code::UnsupportedAssignor => unsupported(alloc, message.server_assignor)?,
        _ => String::from_str(alloc, code.text().unwrap_or_default())?,
    };
    numbered(alloc, code, reason.as_str())
}

/// COORDINATOR_NOT_AVAILABLE.
fn no_room(alloc: Global, group: Option<&Group>, name: &str) -> Result<String, AllocError> {
    let Some(group) = group else {
        return format!(in alloc; "the node has {MOST_GROUPS} groups");
    };
    let name = escaped(alloc, name)?;
    if group.epoch().as_u32() == GREATEST_EPOCH {
        return format!(in alloc; "group {name} is at its last epoch, {GREATEST_EPOCH}");
    }
    format!(in alloc; "group {name} has no member id left")
}

/// UNKNOWN_MEMBER_ID of a heartbeat.
fn unknown_member(
    alloc: Global,
    group: Option<&Group>,
    message: &HeartbeatRequest<'_>,
) -> Result<String, AllocError> {
    let Some(group) = group else {
        return no_group(alloc, message.group_id);
    };
    if group.epochs(message.member_id).is_none() {
        return no_member(alloc, message.group_id, message.member_id);
    }
    let member = escaped(alloc, message.member_id)?;
    let instance = escaped(alloc, message.instance_id.unwrap_or_default())?;
    format!(in alloc; "member {member} does not have the instance id {instance}")
}

/// INVALID_REQUEST: the first of its reasons.
fn invalid(message: &HeartbeatRequest<'_>) -> &'static str {
    if message.group_id.is_empty() {
        return "GroupId is empty";
    }
    match message.member_epoch {
        0 => invalid_join(message),
        1.. if message.member_id.is_empty() => "MemberId is empty, and the heartbeat is no join",
        1.. => "RebalanceTimeoutMs is below -1",
        -1 => "MemberId is empty in a leave",
        -2 if message.member_id.is_empty() => "MemberId is empty in a leave",
        -2 => "InstanceId is null in a leave with epoch -2",
        _ => "MemberEpoch is below -2",
    }
}

/// The first reason of a join.
fn invalid_join(message: &HeartbeatRequest<'_>) -> &'static str {
    if message.rebalance_timeout_ms < -1 {
        "RebalanceTimeoutMs is below -1"
    } else if message.rebalance_timeout_ms == -1 {
        "RebalanceTimeoutMs is -1 in a join"
    } else if message.subscribed_topic_names.is_none() {
        "SubscribedTopicNames is null in a join"
    } else if message.instance_id.is_some_and(|id| id.is_empty()) {
        "InstanceId is empty in a join"
    } else {
        "TopicPartitions has a partition in a join"
    }
}

/// GROUP_MAX_SIZE_REACHED.
fn full(alloc: Global, group: Option<&Group>, name: &str) -> Result<String, AllocError> {
    let members = group.map_or(0, |group| group.members());
    let name = escaped(alloc, name)?;
    format!(in alloc; "group {name} has {members} members")
}

/// FENCED_MEMBER_EPOCH.
fn fenced(
    alloc: Global,
    group: Option<&Group>,
    message: &HeartbeatRequest<'_>,
) -> Result<String, AllocError> {
    let (group_id, member, epoch) = (message.group_id, message.member_id, message.member_epoch);
    let Some((group, (present, previous))) = group.and_then(|g| Some((g, g.epochs(member)?))) else {
        return no_member(alloc, group_id, member);
    };
    let reason = behind(alloc, "heartbeat", epoch, number_of(present))?;
    if present == Epoch::Away || previous.as_i32() != epoch {
        return Ok(reason);
    }
    let reason = reason.as_str();
    match &message.topic_partitions {
        None => format!(in alloc; "{reason}, and TopicPartitions is null"),
        Some(list) => match first_foreign(group, member, list.as_slice()) {
            Some(Partition { topic, index }) => {
                format!(in alloc; "{reason}, and {topic}/{index} is not granted to it")
            }
            None => String::from_str(alloc, reason),
        },
    }
}

/// The number of an epoch, or none where the member is away.
pub fn number_of(epoch: Epoch) -> Option<i32> {
    Some(epoch.number()?.as_i32())
}

/// The first partition of the topics that isn't granted to a member.
fn first_foreign(group: &Group, member: &str, topics: &[TopicPartitions<'_>]) -> Option<Partition> {
    for topic in topics {
        for index in topic.partitions.as_slice() {
            let partition = Partition {
                topic: topic.topic_id,
                index: *index,
            };
            if !group.grants().holds(member, &partition) {
                return Some(partition);
            }
        }
    }
    None
}

/// UNRELEASED_INSTANCE_ID.
fn unreleased(
    alloc: Global,
    group: Option<&Group>,
    message: &HeartbeatRequest<'_>,
) -> Result<String, AllocError> {
    let id = message.instance_id.unwrap_or_default();
    let instance = escaped(alloc, id)?;
    match group.and_then(|group| holder(group, id)) {
        Some(member) => {
            let member = escaped(alloc, member)?;
            format!(in alloc; "instance {instance} is member {member}'s")
        }
        None => format!(in alloc; "instance {instance} is another member's"),
    }
}

/// The id of the member that has an instance id.
fn holder<'a>(group: &'a Group, instance: &str) -> Option<&'a str> {
    let records = group.records();
    for rank in 0..records.len() {
        if let Some((member, record)) = records.member_at(rank) {
            if record.instance() == Some(instance) {
                return Some(member.as_str());
            }
        }
    }
    None
}

/// UNSUPPORTED_ASSIGNOR.
fn unsupported(alloc: Global, assignor: Option<&str>) -> Result<String, AllocError> {
    let assignor = escaped(alloc, assignor.unwrap_or_default())?;
    format!(in alloc; "the assignor {assignor} is neither range nor uniform")
}

/// Why a commit was refused, or the first of its partitions, with this body of a reply, if it was.
fn of_commit(
    alloc: Global,
    node: &Node,
    message: &CommitRequest<'_>,
    reply: &[u8],
) -> Result<Option<String>, AllocError> {
    let Ok(Reply::Commit(_, reply)) = read_reply(alloc, Api::Commit, reply) else {
        return Err(AllocError);
    };
    let Some((code, topic, place)) = first_refused(&reply) else {
        return Ok(None);
    };
    let reason = match code {
        Code::UnknownMemberId => no_committer(alloc, node, message)?,
        Code::GroupIdNotFound => no_group(alloc, message.group_id)?,
        Code::StaleMemberEpoch => stale(alloc, node, message)?,
        _ => of_partition(alloc, node, message, code, topic, place)?,
    };
    let reason = with_more(alloc, code, reason, refused_in(&reply).saturating_sub(1))?;
    numbered(alloc, code, reason.as_str())
}

/// The first code of a refusal in a reply, and the places of its topic and of its partition there.
pub fn first_refused(reply: &CommitReply<'_>) -> Option<(Code, usize, usize)> {
    for (topic_place, topic) in reply.topics.as_slice().iter().enumerate() {
        for (place, partition) in topic.partitions.as_slice().iter().enumerate() {
            if let Some(code) = code_of(partition.error_code) {
                return Some((code, topic_place, place));
            }
        }
    }
    None
}

/// How many partitions a reply refuses.
fn refused_in(reply: &CommitReply<'_>) -> usize {
    let mut refused = 0_usize;
    for topic in reply.topics.as_slice() {
        for partition in topic.partitions.as_slice() {
            if code_of(partition.error_code).is_some() {
                refused = refused.saturating_add(1);
            }
        }
    }
    refused
}

/// The reason of a partition, and how many more are refused. The other codes are of the whole commit.
fn with_more(alloc: Global, code: Code, reason: String, more: usize) -> Result<String, AllocError> {
    match code {
        Code::UnknownTopicOrPartition | Code::OffsetMetadataTooLarge if more > 0 => {
            let partitions = if more == 1 {
                "partition is"
            } else {
                "partitions are"
            };
            format!(in alloc; "{}, and {more} more {partitions} refused", reason.as_str())
        }
        _ => Ok(reason),
    }
}

/// UNKNOWN_MEMBER_ID of a commit, which may be of no member where the group has none.
fn no_committer(
    alloc: Global,
    node: &Node,
    message: &CommitRequest<'_>,
) -> Result<String, AllocError> {
    if !message.member_id.is_empty() {
        return no_member(alloc, message.group_id, message.member_id);
    }
    let members = node
        .group(message.group_id)
        .map_or(0, |group| group.members());
    let group = escaped(alloc, message.group_id)?;
    format!(in alloc; "MemberId is empty, and group {group} has {members} members")
}

/// STALE_MEMBER_EPOCH.
fn stale(alloc: Global, node: &Node, message: &CommitRequest<'_>) -> Result<String, AllocError> {
    let epoch = message.generation_id_or_member_epoch;
    let epochs = node
        .group(message.group_id)
        .and_then(|group| group.epochs(message.member_id));
    match epochs {
        Some((present, _)) => behind(alloc, "commit", epoch, number_of(present)),
        None => no_member(alloc, message.group_id, message.member_id),
    }
}

/// UNKNOWN_TOPIC_OR_PARTITION and OFFSET_METADATA_TOO_LARGE, of the partition at this place of the request.
fn of_partition(
    alloc: Global,
    node: &Node,
    message: &CommitRequest<'_>,
    code: Code,
    topic: usize,
    place: usize,
) -> Result<String, AllocError> {
    let Some(topic) = message.topics.as_slice().get(topic) else {
        return Ok(String::new(alloc));
    };
    let Some(partition) = topic.partitions.as_slice().get(place) else {
        return Ok(String::new(alloc));
    };
    let (name, index) = (escaped(alloc, topic.name)?, partition.partition_index);
    if code == Code::UnknownTopicOrPartition {
        return match node.image().find(topic.name) {
            Some(_) => format!(in alloc; "topic {name} has no partition {index}"),
            None => format!(in alloc; "there is no topic {name}"),
        };
    }
    let bytes = partition.committed_metadata.map_or(0, |text| text.len());
    format!(in alloc;
        "the metadata of {name}/{index} has {bytes} bytes, and at most {LONGEST_METADATA} are stored"
    )
}
