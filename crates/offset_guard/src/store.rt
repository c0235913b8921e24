//! The offsets of all topics: what is new goes in once there is room for all of it.

ghost use Rattle.std.specs.Prelude.{ℤ, ◌≡◌, ◌≤◌, ◌<◌, ◌+◌, false, Some, OnOk, if◌then◌else◌};
ghost use Rattle.std.specs.Option.{option_or};
ghost use Rattle.std.specs.Ordering.{eq_by_cmp};
ghost use Rattle.std.specs.FinMap as finite;
ghost use Rattle.std.specs.Str.{bytes_eq};
ghost use Rattle.std.specs.String.{string_bytes};
ghost use Rattle.indexmap.specs.IndexMap.{get_by_text, spare};
ghost use Rattle.group_types.specs.Text.{Text};
ghost use Rattle.group_types.specs.Group.{place_cmp};
ghost use Rattle.offset_guard.specs.Topics.{HasRoomFor, HasTopicRoom, KeepsOffsets, KeepsRoom, offset_at};

use crate::committed::Committed;
use crate::topic_offsets::TopicOffsets;
use indexmap::IndexMap;
use std::alloc::{AllocError, Global};
use std::collections::hash_map::RandomState;

/// The topics that have an entry, by their names. An entry may be empty.
pub type Topics = IndexMap<String, TopicOffsets, RandomState>;

/// Stores what is committed for an index of a topic. Fails where memory is short.
pub fn put(
    topics: &mut Topics,
    alloc: Global,
    hasher: RandomState,
    name: &str,
    index: i32,
    committed: Committed,
) -> Result<(), AllocError>
    ensures { OnOk result ((place : Text × ℤ)
        → offset_at topics.new place ≡ (if eq_by_cmp place_cmp place (name.now, index) then Some committed else offset_at topics.old place)) }
{
    if let Some(offsets) = topics.get_mut(name) {
        return offsets.insert(index, committed);
    }
    let name = String::from_str(alloc, name)?;
    let mut offsets = TopicOffsets::new(alloc, hasher);
    offsets.insert(index, committed)?;
    topics.insert(name, offsets)?;
    Ok(())
}

/// Makes room for all of the news. Where memory is short, no offset has changed.
pub fn make_room(topics: &mut Topics, news: &Topics) -> Result<(), AllocError>
    ensures offsets { KeepsOffsets topics.old topics.new }
    ensures room { OnOk result (HasRoomFor topics.new news.now) }
{
    topics.reserve(news.len())?;
    for at in 0..news.len() {
        if let Some((name, offsets)) = news.get_index(at) {
            make_topic_room(topics, name.as_str(), offsets.len())?;
        }
    }
    Ok(())
}

/// Makes room for `more` further offsets of a topic, where it has an entry. Where memory is short, no offset has changed.
fn make_topic_room(topics: &mut Topics, name: &str, more: usize) -> Result<(), AllocError>
    ensures offsets { KeepsOffsets topics.old topics.new }
    ensures kept { KeepsRoom topics.old topics.new }
    ensures entries { spare topics.new ≡ spare topics.old }
    ensures room { OnOk result (HasTopicRoom topics.new name.now more) }
{
    match topics.get_mut(name) {
        Some(offsets) => offsets.reserve(more),
        None => Ok(()),
    }
}

/// Takes over all of the news, for which there is room. Takes no memory.
pub fn append(topics: &mut Topics, mut news: Topics)
    requires { HasRoomFor topics.old news }
    ensures { (place : Text × ℤ) → offset_at topics.new place ≡ option_or (offset_at news place) (offset_at topics.old place) }
{
    while let Some((name, offsets)) = news.pop() {
        append_topic(topics, name, offsets);
    }
}

/// Takes over the news of a topic, for which there is room. Takes no memory.
fn append_topic(topics: &mut Topics, name: String, news: TopicOffsets)
    requires entry { 0 < spare topics.old }
    requires room { HasTopicRoom topics.old (string_bytes name) news.len }
    ensures here { (i : ℤ) → offset_at topics.new (string_bytes name, i) ≡ option_or (finite.get news.offsets i) (offset_at topics.old (string_bytes name, i)) }
    ensures others { (other : Text) → bytes_eq (string_bytes name) other ≡ false → get_by_text topics.new other ≡ get_by_text topics.old other }
    ensures entries { spare topics.old ≤ spare topics.new + 1 }
{
    match topics.get_mut(name.as_str()) {
        Some(offsets) => offsets.append(news),
        None => match topics.insert(name, news) {
            Ok(_) => {}
            Err(_) => unreachable!(),
        },
    }
}
