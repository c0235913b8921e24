//! All that is committed, in the order of the topics' names and of the indexes.

ghost use Rattle.std.specs.Prelude.{◌≡◌, ◌++◌, map, IfOk, OnOk};
ghost use Rattle.std.specs.FinMap as finite;
ghost use Rattle.offset_guard.specs.Listing.{entries_of_topic, entry_of, named, topics_by_name};

use crate::committed::Committed;
use crate::store::Topics;
use crate::topic_offsets::TopicOffsets;
use std::alloc::{AllocError, Global};

/// What is committed for an index of a topic.
#[derive(Clone, Copy)]
pub struct CommittedAt<'a> {
    /// The topic's name.
    pub name: &'a str,
    pub index: i32,
    pub committed: &'a Committed,
}

/// The topics that have an entry, in the order of their names. Fails where memory is short.
pub fn topics_in_order(
    alloc: Global,
    topics: &Topics,
) -> Result<Vec<(&str, &TopicOffsets)>, AllocError>
    ensures { IfOk result (λ list. map named list.items ≡ finite.entries (topics_by_name topics.now.entries)) }
{
    let mut list = Vec::with_capacity(alloc, topics.len())?;
    for (name, offsets) in topics.iter() {
        list.push((name.as_str(), offsets))?;
    }
    list.sort_unstable_by(|a, b| a.0.cmp(b.0));
    Ok(list)
}

/// Adds what is committed for a topic, in the order of the indexes. Fails where memory is short.
pub fn add_topic<'a>(
    alloc: Global,
    list: &mut Vec<CommittedAt<'a>>,
    name: &'a str,
    offsets: &'a TopicOffsets,
) -> Result<(), AllocError>
    ensures { OnOk result (map entry_of list.new.items ≡ map entry_of list.old.items ++ entries_of_topic (name.now, offsets.now)) }
{
    for (index, committed) in offsets.in_order(alloc)? {
        list.push(CommittedAt {
            name,
            index,
            committed,
        })?;
    }
    Ok(())
}
