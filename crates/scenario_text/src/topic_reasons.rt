//! Why topics make no image, in words.

use crate::command_line::escaped;
use group_types::limits::{MOST_PARTITIONS, MOST_TOPIC_PARTITIONS, MOST_TOPICS};
use std::alloc::{AllocError, Global};
use topic_meta::TopicEntry;

/// Why a list of topics makes no image, if it doesn't.
pub fn of_list(alloc: Global, topics: &[TopicEntry]) -> Result<Option<String>, AllocError> {
    let (count, partitions) = (topics.len(), partitions_of(topics));
    if MOST_TOPICS < count || MOST_PARTITIONS < partitions {
        let reason = format!(in alloc;
            "an image has at most {MOST_TOPICS} topics and {MOST_PARTITIONS} partitions, and this one has {count} and {partitions}"
        )?;
        return Ok(Some(reason));
    }
    for (place, topic) in topics.iter().enumerate() {
        let reason = of_topic(alloc, topic, topics.get(..place).unwrap_or_default())?;
        if reason.is_some() {
            return Ok(reason);
        }
    }
    Ok(None)
}

/// How many partitions topics have together.
fn partitions_of(topics: &[TopicEntry]) -> u64 {
    let mut partitions = 0_u64;
    for topic in topics {
        partitions = partitions.saturating_add(u64::from(topic.count.unsigned_abs()));
    }
    partitions
}

/// Why a topic can't stand in an image behind former ones, if it can't.
fn of_topic(
    alloc: Global,
    topic: &TopicEntry,
    formers: &[TopicEntry],
) -> Result<Option<String>, AllocError> {
    let count = topic.count.unsigned_abs();
    if count < 1 || MOST_TOPIC_PARTITIONS < count {
        let name = escaped(alloc, topic.name.as_str())?;
        let reason = format!(in alloc;
            "topic {name} has {count} partitions, and a topic has 1 to {MOST_TOPIC_PARTITIONS}"
        )?;
        return Ok(Some(reason));
    }
    for former in formers {
        let reason = of_two(alloc, former, topic)?;
        if reason.is_some() {
            return Ok(reason);
        }
    }
    Ok(None)
}

/// Why two topics can't stand in one image, if they can't.
fn of_two(
    alloc: Global,
    one: &TopicEntry,
    other: &TopicEntry,
) -> Result<Option<String>, AllocError> {
    if one.name.as_str() == other.name.as_str() {
        let name = escaped(alloc, one.name.as_str())?;
        return Ok(Some(format!(in alloc; "two topics have the name {name}")?));
    }
    if one.id == other.id {
        let name = escaped(alloc, one.name.as_str())?;
        let other_name = escaped(alloc, other.name.as_str())?;
        return Ok(Some(format!(in alloc; "topics {name} and {other_name} have the same id")?));
    }
    Ok(None)
}
