//! A topic of a view.

use std::alloc::{AllocError, Global};
use uuid::Uuid;

/// A topic of a view.
#[derive(Debug, Drop)]
pub struct ViewTopic {
    pub name: String,
    pub id: Uuid,
    /// How many partitions the topic has: 1 to 100,000.
    pub count: u32,
}

impl ViewTopic {
    ghost use Rattle.std.specs.Prelude.{◌≡◌, IfOk};
    ghost use Rattle.topic_meta.specs.Views.{named, is_same};

    /// A copy of the topic.
    pub(crate) fn copy(&self, alloc: Global) -> Result<ViewTopic, AllocError>
        ensures { IfOk result (λ t. named t ≡ named self.now) }
    {
        Ok(ViewTopic {
            name: String::from_str(alloc, self.name.as_str())?,
            id: self.id,
            count: self.count,
        })
    }

    /// Whether the two have one name, one id and one count.
    pub(crate) fn equals(&self, other: &ViewTopic) -> bool
        ensures { result ≡ is_same self.now other.now }
    {
        self.name == other.name && self.id == other.id && self.count == other.count
    }
}
