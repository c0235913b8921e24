//! A topic as it comes in, and as an image keeps it.

ghost use Rattle.std.specs.Prelude.{◌≡◌};
ghost use Rattle.topic_meta.specs.Images.{is_count};

use group_types::limits::MOST_TOPIC_PARTITIONS;
use uuid::Uuid;

/// One topic of a list as it comes in.
#[derive(Debug, Drop)]
pub struct TopicEntry {
    pub name: String,
    pub id: Uuid,
    /// How many partitions the topic has.
    pub count: i32,
}

impl TopicEntry {
    ghost use Rattle.std.specs.Prelude.{◌≡◌};
    ghost use Rattle.topic_meta.specs.Images.{partitions};

    /// How many partitions the topic has: 0 where its count is negative.
    pub(crate) fn partitions(&self) -> u32
        ensures { result ≡ partitions self.now.count }
    {
        if self.count > 0 { self.count as u32 } else { 0 }
    }
}

/// What an image keeps of a topic beside its name.
#[derive(Clone, Copy, PartialEq)]
pub struct StoredTopic {
    pub id: Uuid,
    pub count: u32,
}

/// Whether a topic may have `count` partitions.
pub fn is_in_range(count: u32) -> bool
    ensures { result ≡ is_count count }
{
    0 < count && count <= MOST_TOPIC_PARTITIONS
}
