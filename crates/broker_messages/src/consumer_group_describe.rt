//! ConsumerGroupDescribe (key 69, versions 0 and 1; KIP-848): the members of groups, what they have, and what they are to have.

ghost use Rattle.std.specs.Prelude.{◌≡◌};

use crate::api::BrokerApi;
use crate::fault::MessageFault;
use crate::fields::Fields;
use crate::output::{Output, PutFields};
use std::alloc::Global;
use uuid::Uuid;

/// A ConsumerGroupDescribe request.
#[derive(Debug, Drop)]
pub struct ConsumerGroupDescribeRequest<'a> {
    pub group_ids: Vec<&'a str>,
    pub include_authorized_operations: bool,
}

/// The answer to it, group by group.
#[derive(Drop)]
pub struct ConsumerGroupDescribeReply<'a> {
    pub throttle_time_ms: i32,
    pub groups: Vec<DescribedGroup<'a>>,
}

/// A group.
#[derive(Drop)]
pub struct DescribedGroup<'a> {
    pub error_code: i16,
    pub error_message: Option<&'a str>,
    pub group_id: &'a str,
    /// Empty, Assigning, Reconciling, Stable or Dead.
    pub group_state: &'a str,
    pub group_epoch: i32,
    pub assignment_epoch: i32,
    pub assignor_name: &'a str,
    pub members: Vec<DescribedMember<'a>>,
    /// A set of bits, or [`OPERATIONS_NOT_TOLD`](crate::OPERATIONS_NOT_TOLD).
    pub authorized_operations: i32,
}

/// A member of a group.
#[derive(Drop)]
pub struct DescribedMember<'a> {
    pub member_id: &'a str,
    pub instance_id: Option<&'a str>,
    pub rack_id: Option<&'a str>,
    pub member_epoch: i32,
    pub client_id: &'a str,
    pub client_host: &'a str,
    pub subscribed_topic_names: Vec<&'a str>,
    pub subscribed_topic_regex: Option<&'a str>,
    /// What the member has.
    pub assignment: Vec<AssignedTopic<'a>>,
    /// What the member is to have.
    pub target_assignment: Vec<AssignedTopic<'a>>,
    /// From version 1 on: -1 unknown, 0 of the classic protocol, 1 of the consumer protocol.
    pub member_type: i8,
}

/// Partitions of a topic.
#[derive(Drop)]
pub struct AssignedTopic<'a> {
    pub topic_id: Uuid,
    pub topic_name: &'a str,
    pub partitions: Vec<i32>,
}

impl<'a> ConsumerGroupDescribeRequest<'a> {
    /// Reads what comes after the head. Faults: a field's; memory.
    pub fn read(
        alloc: Global,
        version: i16,
        bytes: &'a [u8],
    ) -> Result<ConsumerGroupDescribeRequest<'a>, MessageFault> {
        let mut fields = Fields::of(BrokerApi::ConsumerGroupDescribe, version, bytes);
        let group_ids = fields.array(alloc)?;
        let include_authorized_operations = fields.boolean()?;
        fields.tags()?;
        Ok(ConsumerGroupDescribeRequest {
            group_ids,
            include_authorized_operations,
        })
    }
}

impl PutFields for ConsumerGroupDescribeReply<'_> {
    fn put_fields(&self, output: &mut Output) -> Result<(), MessageFault> {
        output.int32(self.throttle_time_ms)?;
        output.array(&self.groups)?;
        output.tags()
    }
}

impl PutFields for DescribedGroup<'_> {
    fn put_fields(&self, output: &mut Output) -> Result<(), MessageFault> {
        output.int16(self.error_code)?;
        output.nullable_string(self.error_message)?;
        output.string(self.group_id)?;
        output.string(self.group_state)?;
        output.int32(self.group_epoch)?;
        output.int32(self.assignment_epoch)?;
        output.string(self.assignor_name)?;
        output.array(&self.members)?;
        output.int32(self.authorized_operations)?;
        output.tags()
    }
}

impl PutFields for DescribedMember<'_> {
    fn put_fields(&self, output: &mut Output) -> Result<(), MessageFault> {
        output.string(self.member_id)?;
        output.nullable_string(self.instance_id)?;
        output.nullable_string(self.rack_id)?;
        output.int32(self.member_epoch)?;
        output.string(self.client_id)?;
        output.string(self.client_host)?;
        output.array(&self.subscribed_topic_names)?;
        output.nullable_string(self.subscribed_topic_regex)?;
        put_assignment(output, &self.assignment)?;
        put_assignment(output, &self.target_assignment)?;
        output.int8_since(1, self.member_type)?;
        output.tags()
    }
}

/// An assignment: a structure of one array.
fn put_assignment(output: &mut Output, topics: &[AssignedTopic<'_>]) -> Result<(), MessageFault>
    ensures { output.new ≡ output.old }
{
    output.array(topics)?;
    output.tags()
}

impl PutFields for AssignedTopic<'_> {
    fn put_fields(&self, output: &mut Output) -> Result<(), MessageFault> {
        output.uuid(&self.topic_id)?;
        output.string(self.topic_name)?;
        output.array(&self.partitions)?;
        output.tags()
    }
}
