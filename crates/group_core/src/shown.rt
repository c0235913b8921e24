//! The partitions in a reply.

ghost use Rattle.std.specs.Prelude.{◌≡◌, IfOk};

use crate::listing::topics_of;
use group_types::PartSet;
use kip_msgs::{Array, TopicPartitions};
use std::alloc::{AllocError, Global};
use std::marker::Model;

/// The set of partitions that a reply shows, listed as a message lists it. Callers see the set.
#[derive(Drop)]
pub struct Shown {
    set: PartSet,
    topics: Array<TopicPartitions<'static>>,
}

impl Model for Shown {
    ghost use Rattle.std.specs.Prelude.{◌≡◌};
    ghost use Rattle.group_types.specs.Sets.{in_order};
    ghost use Rattle.group_types.specs.Partition.{Partitions};
    ghost use Rattle.group_epochs.specs.Stored.{partitions_code};
    ghost use Rattle.kip_msgs.specs.Topics.{topic_partitions_values};
    ghost use Rattle.group_core.specs.Listing.{listed};

    ghost Value = { Partitions };

    ghost coded = { partitions_code };

    ghost view = { λ a. a.set };

    ghost invariant = { λ a. topic_partitions_values a.topics ≡ listed (in_order a.set) };
}

impl Shown {
    ghost use Rattle.group_types.specs.Sets.{in_order};
    ghost use Rattle.kip_msgs.specs.Topics.{topic_partitions_values};
    ghost use Rattle.group_core.specs.Listing.{listed};

    /// The set with its listing. Fails where memory is short.
    pub(crate) fn of(alloc: Global, set: PartSet) -> Result<Shown, AllocError>
        ensures { IfOk result (λ shown. shown ≡ set) }
    {
        let topics = topics_of(alloc, &set)?;
        Ok(Shown { set, topics })
    }

    /// The partitions.
    pub fn set(&self) -> &PartSet
        ensures { result.now ≡ self.now }
    {
        &self.set
    }

    /// The topics by their ids' bytes, each with its indexes rising. Takes no memory.
    pub fn into_topics(self) -> Array<TopicPartitions<'static>>
        ensures { topic_partitions_values result ≡ listed (in_order self) }
    {
        self.topics
    }
}
