//! Partitions that are listed one behind the other.
ghost use Rattle.std.specs.Prelude.{◌≡◌, IfOk, OnOk};
ghost use Rattle.kip_msgs.specs.Topics.{topic_partitions_value, topic_partitions_values};
ghost use Rattle.kip_msgs.specs.Listing.{alone};
ghost use Rattle.kip_msgs.specs.Growth.{behind};

use crate::array::Array;
use crate::heartbeat::TopicPartitions;
use flex_wire::TaggedFields;
use std::alloc::{AllocError, Global};
use uuid::Uuid;

/// Adds a partition behind those that are listed: to the last entry where that is of its topic. Fails where memory is short.
pub fn list_partition<'a>(
    alloc: Global,
    topics: &mut Vec<TopicPartitions<'a>>,
    topic_id: &Uuid,
    index: i32,
) -> Result<(), AllocError>
    ensures { OnOk result
        (topic_partitions_values topics.new.items ≡ behind (topic_partitions_values topics.old.items) topic_id.now index) }
{
    if let Some(last) = topics.last_mut() {
        if last.topic_id == *topic_id {
            last.partitions.push(index)?;
            return Ok(());
        }
    }
    let entry = entry_of(alloc, topic_id, index)?;
    topics.push(entry)?;
    Ok(())
}

/// The entry of one partition alone.
fn entry_of<'a>(
    alloc: Global,
    topic_id: &Uuid,
    index: i32,
) -> Result<TopicPartitions<'a>, AllocError>
    ensures { IfOk result (λ entry. topic_partitions_value entry ≡ alone topic_id.now index) }
{
    let mut partitions = Array::new(alloc);
    partitions.push(index)?;
    Ok(TopicPartitions {
        topic_id: *topic_id,
        partitions,
        tags: TaggedFields::new(alloc),
    })
}
