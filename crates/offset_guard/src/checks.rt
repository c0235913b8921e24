//! Which commits are taken, and with which code each partition is answered.

ghost use Rattle.std.specs.Prelude.{◌≡◌, ◌<◌, ℤ, pos, length};
ghost use Rattle.std.specs.Option.{option_copied, option_map_or};
ghost use Rattle.std.specs.FinMap as finite;
ghost use Rattle.kip_msgs.specs.Views.{commit_request_partition_value};
ghost use Rattle.group_types.specs.Text.{Text};
ghost use Rattle.group_types.specs.Topics.{Topics};
ghost use Rattle.group_types.specs.Commit.{code_of_taken, is_too_long, refusal_of_commit, refusal_of_member};
ghost use Rattle.group_epochs.specs.Request.{commitment_of};
ghost use Rattle.offset_guard.specs.Requests.{partitions_in};
ghost use Rattle.offset_guard.specs.Replies.{code_by};

use group_epochs::{Record, Records};
use group_types::Code;
use group_types::limits::LONGEST_METADATA;
use kip_msgs::{CommitRequest, CommitRequestPartition};
use topic_meta::Image;

/// Why the whole commit is refused, or none where it is taken (KIP-848, "OffsetCommit").
pub fn refusal_of(records: &Records, request: &CommitRequest<'_>) -> Option<Code>
    ensures { result ≡ refusal_of_commit records.now.records request.now.member_id.now request.now.generation_id_or_member_epoch }
{
    let epoch = request.generation_id_or_member_epoch;
    if epoch < 0 && records.len() == 0 {
        return None;
    }
    refusal_of_member(records.get(request.member_id), epoch)
}

/// Why the commit of a member is refused, or none: it is taken at the member's epoch alone.
fn refusal_of_member(member: Option<&Record>, epoch: i32) -> Option<Code>
    ensures { result ≡ refusal_of_member (option_copied member.entry) epoch }
{
    let Some(record) = member else {
        return Some(Code::UnknownMemberId);
    };
    if record.epoch().is_at(epoch) {
        None
    } else {
        Some(Code::StaleMemberEpoch)
    }
}

/// How many partitions the topic of a name has: none where there is no such topic.
pub fn partitions_of(image: &Image, name: &str) -> i32
    ensures { result ≡ pos (partitions_in image.now name.now) }
{
    match image.find(name) {
        Some((_, count)) => count,
        None => 0,
    }
}

/// The code of one partition, whose topic has `count` partitions: that of the refusal, where the whole commit is refused.
pub fn code_of(refusal: Option<Code>, count: i32, partition: &CommitRequestPartition<'_>) -> Code
    ensures { (image : Topics) (name : Text) → count ≡ pos (partitions_in image name)
        → result ≡ code_by refusal image name (commitment_of (commit_request_partition_value partition.now)) }
{
    match refusal {
        Some(code) => code,
        None => code_of_taken(count, partition),
    }
}

/// The code of one partition of a taken commit, whose topic has `count` partitions.
pub fn code_of_taken(count: i32, partition: &CommitRequestPartition<'_>) -> Code
    ensures { (image : Topics) (name : Text) → count ≡ pos (partitions_in image name)
        → result ≡ code_of_taken image name (commitment_of (commit_request_partition_value partition.now)) }
{
    let index = partition.partition_index;
    if index < 0 || count <= index {
        return Code::UnknownTopicOrPartition;
    }
    if is_too_long(partition.committed_metadata) {
        return Code::OffsetMetadataTooLarge;
    }
    Code::NoError
}

/// Whether metadata is longer than what is stored with an offset.
fn is_too_long(metadata: Option<&str>) -> bool
    ensures { result ≡ is_too_long (option_copied metadata.entry) }
{
    match metadata {
        Some(text) => LONGEST_METADATA < text.len(),
        None => false,
    }
}
