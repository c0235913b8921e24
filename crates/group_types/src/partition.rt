//! A partition of a topic.

use uuid::Uuid;

/// A partition: the topic's id and the index within the topic, ordered by the id's bytes and then the index.
#[derive(Clone, Copy, Debug, PartialEq, Eq, PartialOrd, Ord)]
pub struct Partition {
    pub topic: Uuid,
    pub index: i32,
}
