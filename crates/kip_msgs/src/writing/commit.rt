//! Commits and their replies.

ghost use Rattle.std.specs.Prelude.{OnOk};
ghost use Rattle.flex_wire.specs.Writing.{AppendsUpTo};
ghost use Rattle.kip_msgs.specs.Spelling.{commit_request_fields, FitsCommitRequest, commit_reply_fields, FitsCommitReply};
ghost use Rattle.kip_msgs.specs.Writable.{IsWritableCommitRequest, IsWritableCommitReply};
ghost use Rattle.kip_msgs.specs.Views.{commit_request_value, commit_reply_value};

use super::arrays::{PutElement, put_array};
use super::fields::{put_text, put_text_or_null};
use crate::commit::{
    CommitReply, CommitReplyPartition, CommitReplyTopic, CommitRequest, CommitRequestPartition,
    CommitRequestTopic,
};
use flex_wire::{put_i16, put_i32, put_i64, put_tags};
use std::alloc::AllocError;

#[tactic(auto, unfolding(crate::specs::Spelling::commit_request_fields))]
pub(super) fn put_commit_request(
    out: &mut Vec<u8>,
    message: &CommitRequest<'_>,
) -> Result<(), AllocError>
    requires { IsWritableCommitRequest (commit_request_value message.now) }
    ensures appends { AppendsUpTo result out.old out.new (commit_request_fields (commit_request_value message.now)) }
    ensures fits { OnOk result (FitsCommitRequest (commit_request_value message.now)) }
{
    put_text(out, message.group_id)?;
    put_i32(out, message.generation_id_or_member_epoch)?;
    put_text(out, message.member_id)?;
    put_text_or_null(out, message.group_instance_id)?;
    put_array(out, &message.topics)?;
    put_tags(out, &message.tags)
}

impl PutElement for CommitRequestTopic<'_> {
    ghost use Rattle.kip_msgs.specs.Values.{CommitRequestTopicValue};
    ghost use Rattle.kip_msgs.specs.Spelling.{commit_request_topic_fields, FitsCommitRequestTopic};
    ghost use Rattle.kip_msgs.specs.Writable.{IsWritableCommitRequestTopic};
    ghost use Rattle.kip_msgs.specs.Views.{commit_request_topic_value};

    ghost Value = { CommitRequestTopicValue };

    ghost value_of = { commit_request_topic_value };

    ghost spelling = { commit_request_topic_fields };

    ghost Fits = { FitsCommitRequestTopic };

    ghost IsWritable = { IsWritableCommitRequestTopic };

    #[tactic(auto, unfolding(crate::specs::Spelling::commit_request_topic_fields))]
    fn put(&self, out: &mut Vec<u8>) -> Result<(), AllocError> {
        put_text(out, self.name)?;
        put_array(out, &self.partitions)?;
        put_tags(out, &self.tags)
    }
}

impl PutElement for CommitRequestPartition<'_> {
    ghost use Rattle.kip_msgs.specs.Values.{CommitRequestPartitionValue};
    ghost use Rattle.kip_msgs.specs.Spelling.{commit_request_partition_fields, FitsCommitRequestPartition};
    ghost use Rattle.kip_msgs.specs.Writable.{IsWritableCommitRequestPartition};
    ghost use Rattle.kip_msgs.specs.Views.{commit_request_partition_value};

    ghost Value = { CommitRequestPartitionValue };

    ghost value_of = { commit_request_partition_value };

    ghost spelling = { commit_request_partition_fields };

    ghost Fits = { FitsCommitRequestPartition };

    ghost IsWritable = { IsWritableCommitRequestPartition };

    #[tactic(auto, unfolding(crate::specs::Spelling::commit_request_partition_fields))]
    fn put(&self, out: &mut Vec<u8>) -> Result<(), AllocError> {
        put_i32(out, self.partition_index)?;
        put_i64(out, self.committed_offset)?;
        put_i32(out, self.committed_leader_epoch)?;
        put_text_or_null(out, self.committed_metadata)?;
        put_tags(out, &self.tags)
    }
}

#[tactic(auto, unfolding(crate::specs::Spelling::commit_reply_fields))]
pub(super) fn put_commit_reply(out: &mut Vec<u8>, reply: &CommitReply<'_>) -> Result<(), AllocError>
    requires { IsWritableCommitReply (commit_reply_value reply.now) }
    ensures appends { AppendsUpTo result out.old out.new (commit_reply_fields (commit_reply_value reply.now)) }
    ensures fits { OnOk result (FitsCommitReply (commit_reply_value reply.now)) }
{
    put_i32(out, reply.throttle_time_ms)?;
    put_array(out, &reply.topics)?;
    put_tags(out, &reply.tags)
}

impl PutElement for CommitReplyTopic<'_> {
    ghost use Rattle.kip_msgs.specs.Values.{CommitReplyTopicValue};
    ghost use Rattle.kip_msgs.specs.Spelling.{commit_reply_topic_fields, FitsCommitReplyTopic};
    ghost use Rattle.kip_msgs.specs.Writable.{IsWritableCommitReplyTopic};
    ghost use Rattle.kip_msgs.specs.Views.{commit_reply_topic_value};

    ghost Value = { CommitReplyTopicValue };

    ghost value_of = { commit_reply_topic_value };

    ghost spelling = { commit_reply_topic_fields };

    ghost Fits = { FitsCommitReplyTopic };

    ghost IsWritable = { IsWritableCommitReplyTopic };

    #[tactic(auto, unfolding(crate::specs::Spelling::commit_reply_topic_fields))]
    fn put(&self, out: &mut Vec<u8>) -> Result<(), AllocError> {
        put_text(out, self.name)?;
        put_array(out, &self.partitions)?;
        put_tags(out, &self.tags)
    }
}

impl PutElement for CommitReplyPartition<'_> {
    ghost use Rattle.kip_msgs.specs.Values.{CommitReplyPartitionValue};
    ghost use Rattle.kip_msgs.specs.Spelling.{commit_reply_partition_fields, FitsCommitReplyPartition};
    ghost use Rattle.kip_msgs.specs.Writable.{IsWritableCommitReplyPartition};
    ghost use Rattle.kip_msgs.specs.Views.{commit_reply_partition_value};

    ghost Value = { CommitReplyPartitionValue };

    ghost value_of = { commit_reply_partition_value };

    ghost spelling = { commit_reply_partition_fields };

    ghost Fits = { FitsCommitReplyPartition };

    ghost IsWritable = { IsWritableCommitReplyPartition };

    #[tactic(auto, unfolding(crate::specs::Spelling::commit_reply_partition_fields))]
    fn put(&self, out: &mut Vec<u8>) -> Result<(), AllocError> {
        put_i32(out, self.partition_index)?;
        put_i16(out, self.error_code)?;
        put_tags(out, &self.tags)
    }
}
