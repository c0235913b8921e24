//! Partitions as words: the number that the topic's id ends in, a dot and the index.

use group_types::{PartSet, Partition};
use std::alloc::{AllocError, Global};
use test_support::tables::{number, part_words};
use uuid::Uuid;

pub fn part(word: &str) -> Partition {
    let (topic, index) = word.split_once('.').unwrap_or((word, ""));
    Partition {
        topic: topic_id(number(topic)),
        index: number(index),
    }
}

/// The id of a topic, which ends in the number.
pub fn topic_id(number: u64) -> Uuid {
    Uuid::from_u128(u128::from(number))
}

/// The set of partitions that are parted by commas; `-` is none.
pub fn set_of(alloc: Global, words: &str) -> Result<PartSet, AllocError> {
    let mut list = Vec::new(alloc);
    for word in words.split(',').filter(|word| *word != "-") {
        list.push(part(word))?;
    }
    PartSet::of_list(alloc, list.as_slice())
}

/// Appends the partitions of a set in its order, or `-` where there are none.
pub fn put_parts(set: &PartSet, out: &mut String) -> Result<(), AllocError> {
    part_words(out)?;
    if set.is_empty() {
        return out.push('-');
    }
    for p in set.iter() {
        part_words(out)?;
        write!(out, "{}.{}", p.topic.as_u128(), p.index)?;
    }
    Ok(())
}
