//! Sets of partitions as messages list them.
ghost use Rattle.std.specs.Prelude.{◌≡◌, ◌++◌, IfOk, OnOk};
ghost use Rattle.group_types.specs.Sets.{in_order};
ghost use Rattle.kip_msgs.specs.Topics.{topic_partitions_value, topic_partitions_values};
ghost use Rattle.member_core.specs.Listing.{listed, partitions_of, all_partitions_of};

use group_types::{PartSet, Partition};
use kip_msgs::{Array, TopicPartitions, list_partition};
use std::alloc::{AllocError, Global};

/// The topics of a set by their ids' bytes, each with its indexes rising. Fails where memory is short.
pub(crate) fn topics_of<'a>(
    alloc: Global,
    set: &PartSet,
) -> Result<Array<TopicPartitions<'a>>, AllocError>
    ensures { IfOk result (λ topics. topic_partitions_values topics ≡ listed (in_order set.now)) }
{
    let mut topics = Vec::new(alloc);
    for partition in set.iter() {
        list_partition(alloc, &mut topics, &partition.topic, partition.index)?;
    }
    Ok(Array::of_vec(topics))
}

/// The partitions that entries name, in their order. Fails where memory is short.
pub(crate) fn partitions_of(
    alloc: Global,
    entries: &[TopicPartitions<'_>],
) -> Result<Vec<Partition>, AllocError>
    ensures { IfOk result (λ all. all.items ≡ all_partitions_of (topic_partitions_values entries.now)) }
{
    let mut all = Vec::new(alloc);
    for entry in entries {
        add_entry(&mut all, entry)?;
    }
    Ok(all)
}

/// Adds the partitions that an entry names.
fn add_entry(all: &mut Vec<Partition>, entry: &TopicPartitions<'_>) -> Result<(), AllocError>
    ensures { OnOk result (all.new.items ≡ all.old.items ++ partitions_of (topic_partitions_value entry.now)) }
{
    for index in entry.partitions.as_slice() {
        all.push(Partition {
            topic: entry.topic_id,
            index: *index,
        })?;
    }
    Ok(())
}
