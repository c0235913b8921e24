//! The heartbeats that are measured.
ghost use Rattle.std.specs.Prelude.{◌≡◌, length, map, IfOk};
ghost use Rattle.std.specs.Option.{option_copied};
ghost use Rattle.kip_msgs.specs.Topics.{topic_partitions_values};
ghost use Rattle.kip_msgs.specs.Views.{request_header_value, request_value};
ghost use Rattle.kip_msgs.specs.Writable.{IsShort, IsShortIfAny, IsWritableArray, IsWritableHeader, IsWritableTopic, IsWritableRequest};

use crate::fault::Fault;
use flex_wire::TaggedFields;
use group_types::MemberId;
use kip_msgs::{Array, HeartbeatRequest, Request, RequestHeader, TopicPartitions, put_request};
use std::alloc::{AllocError, Global};
use uuid::Uuid;

/// The topic that members subscribe.
const SUBSCRIBED: &str = "topic-00000";

/// The member epoch of a member that joins.
const JOINS: i32 = 0;

/// A heartbeat of a member of a group: it says no more than it has to.
#[derive(Clone, Copy)]
pub struct Beat<'a> {
    pub group: &'a MemberId,
    /// None before the node has made one.
    pub member: Option<&'a MemberId>,
    pub epoch: i32,
    /// How many partitions the member says that it owns, where it says so.
    pub owned: Option<u16>,
}

impl<'a> Beat<'a> {
    /// A member without an id joins a group.
    pub fn join(group: &'a MemberId) -> Beat<'a> {
        Beat {
            group,
            member: None,
            epoch: JOINS,
            owned: None,
        }
    }

    /// A member at an epoch has nothing to say.
    pub fn steady(group: &'a MemberId, member: &'a MemberId, epoch: u16) -> Beat<'a> {
        Beat {
            member: Some(member),
            epoch: i32::from(epoch),
            ..Beat::join(group)
        }
    }
}

/// The body of a heartbeat.
pub fn beat_body(alloc: Global, beat: &Beat<'_>) -> Result<Vec<u8>, Fault> {
    let request = beat_request(alloc, beat)?;
    let mut body = Vec::new(alloc);
    put_request(&mut body, &request)?;
    Ok(body)
}

/// The heartbeat as a request. A join subscribes the topic, and allows a minute to release partitions.
pub fn beat_request<'a>(alloc: Global, beat: &Beat<'a>) -> Result<Request<'a>, AllocError>
    ensures { IfOk result (λ request. IsWritableRequest (request_value request)) }
{
    let joins = beat.epoch == JOINS;
    let message = HeartbeatRequest {
        group_id: beat.group.as_str(),
        member_id: short_text(beat.member).unwrap_or(""),
        member_epoch: beat.epoch,
        instance_id: None,
        rack_id: None,
        rebalance_timeout_ms: if joins { 60_000 } else { -1 },
        subscribed_topic_names: if joins {
            Some(subscribed(alloc)?)
        } else {
            None
        },
        server_assignor: None,
        topic_partitions: match beat.owned {
            Some(partitions) => Some(topics(alloc, partitions)?),
            None => None,
        },
        tags: TaggedFields::new(alloc),
    };
    Ok(Request::Heartbeat(header(alloc), message))
}

/// The names of the subscribed topics.
fn subscribed(alloc: Global) -> Result<Array<&'static str>, AllocError>
    ensures { IfOk result (λ names. IsWritableArray IsShort (map (λ name. name.now) names)) }
{
    let mut names = Array::new(alloc);
    names.push(SUBSCRIBED)?;
    Ok(names)
}

/// The text of an id, where there is one.
fn short_text(id: Option<&MemberId>) -> Option<&str>
    ensures { IsShortIfAny (option_copied result) }
{
    match id {
        Some(id) => Some(id.as_str()),
        None => None,
    }
}

/// One topic with `partitions` partitions, or no topic where that is 0.
fn topics(alloc: Global, partitions: u16) -> Result<Array<TopicPartitions<'static>>, AllocError>
    ensures { IfOk result (λ topics. IsWritableArray IsWritableTopic (topic_partitions_values topics)) }
{
    let mut topics = Array::new(alloc);
    if partitions > 0 {
        topics.push(TopicPartitions {
            topic_id: Uuid::from_u128(0),
            partitions: indexes(alloc, partitions)?,
            tags: TaggedFields::new(alloc),
        })?;
    }
    Ok(topics)
}

/// The indexes of `partitions` partitions, from 0 on.
fn indexes(alloc: Global, partitions: u16) -> Result<Array<i32>, AllocError>
    ensures { IfOk result (λ indexes. length indexes ≡ partitions) }
{
    let mut indexes = Array::new(alloc);
    for partition in 0..partitions {
        indexes.push(i32::from(partition))?;
    }
    Ok(indexes)
}

fn header(alloc: Global) -> RequestHeader<'static>
    ensures { IsWritableHeader (request_header_value result) }
{
    RequestHeader {
        correlation_id: 7,
        client_id: None,
        tags: TaggedFields::new(alloc),
    }
}
