//! A set of partitions as an assignment has it.
ghost use Rattle.std.specs.Prelude.{◌≡◌, IfOk};
ghost use Rattle.group_types.specs.Sets.{in_order};
ghost use Rattle.kip_msgs.specs.Topics.{topic_partitions_values};
ghost use Rattle.group_core.specs.Listing.{listed};

use group_types::PartSet;
use kip_msgs::{Array, TopicPartitions, list_partition};
use std::alloc::{AllocError, Global};

/// The topics of a set by their ids' bytes, each with its indexes rising. Fails where memory is short.
pub(crate) fn topics_of(
    alloc: Global,
    set: &PartSet,
) -> Result<Array<TopicPartitions<'static>>, AllocError>
    ensures { IfOk result (λ topics. topic_partitions_values topics ≡ listed (in_order set.now)) }
{
    let mut topics = Vec::new(alloc);
    for partition in set.iter() {
        list_partition(alloc, &mut topics, &partition.topic, partition.index)?;
    }
    Ok(Array::of_vec(topics))
}
