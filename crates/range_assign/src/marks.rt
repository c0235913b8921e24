//! Which topics a member subscribes, found without a search for each topic.

ghost use Rattle.std.specs.Prelude.{◌≡◌, [], IfOk, OnOk};
ghost use Rattle.std.specs.Bool.{OnTrue};
ghost use Rattle.range_assign.specs.Marks.{IsNamedAt, IsPlaceNamed, NamesRise, marks_in};

use group_types::NameSet;
use std::alloc::{AllocError, Global};
use topic_meta::ViewTopic;

/// For each of the topics whether its name is among the names. The topics are in the order of their names, as in a view.
///
/// The names are gone over once; where the topics are far fewer than they are, each topic is looked up instead.
pub fn marks_of(
    alloc: Global,
    topics: &[ViewTopic],
    names: &NameSet,
) -> Result<Vec<bool>, AllocError>
    requires { NamesRise topics.now }
    ensures { IfOk result (λ marks. marks.items ≡ marks_in topics.now names.now) }
{
    let mut marks = Vec::new(alloc);
    mark(topics, names, &mut marks)?;
    Ok(marks)
}

/// Puts the marks, as [`marks_of`] tells them, in place of those that are there: for several members they take memory once.
pub(crate) fn mark(
    topics: &[ViewTopic],
    names: &NameSet,
    marks: &mut Vec<bool>,
) -> Result<(), AllocError>
    requires { NamesRise topics.now }
    ensures { OnOk result (marks.new.items ≡ marks_in topics.now names.now) }
{
    marks.clear();
    if topics.len() < names.len() / 16 {
        mark_by_topics(topics, names, marks)
    } else {
        mark_by_names(topics, names, marks)
    }
}

/// Adds for each of the topics whether its name is among the names, by a look-up of each topic.
fn mark_by_topics(
    topics: &[ViewTopic],
    names: &NameSet,
    marks: &mut Vec<bool>,
) -> Result<(), AllocError>
    requires { marks.old.items ≡ [] }
    ensures { OnOk result (marks.new.items ≡ marks_in topics.now names.now) }
{
    for topic in topics {
        marks.push(names.contains(topic.name.as_str()))?;
    }
    Ok(())
}

/// Adds for each of the topics whether its name is among the names, by a walk over the names: a topic's place is looked for behind
/// that of the topic found before it, so the time grows with the names, and for the topics it hardly grows.
fn mark_by_names(
    topics: &[ViewTopic],
    names: &NameSet,
    marks: &mut Vec<bool>,
) -> Result<(), AllocError>
    requires none { marks.old.items ≡ [] }
    requires rise { NamesRise topics.now }
    ensures { OnOk result (marks.new.items ≡ marks_in topics.now names.now) }
{
    marks.resize(topics.len(), false)?;
    let mut near = 0;
    for name in names.iter() {
        if let Some(place) = place_named(topics, name.as_str(), near) {
            marks[place] = true;
            near = place.saturating_add(1);
        }
    }
    Ok(())
}

/// The place of the topic with this name, if there is one. It is found without a search where it is `near` or the next.
fn place_named(topics: &[ViewTopic], name: &str, near: usize) -> Option<usize>
    requires { NamesRise topics.now }
    ensures { IsPlaceNamed topics.now name.now result }
{
    let next = near.saturating_add(1);
    if is_named(topics, name, near) {
        return Some(near);
    }
    if is_named(topics, name, next) {
        return Some(next);
    }
    place_searched(topics, name)
}

/// Whether the topic at the place has this name.
fn is_named(topics: &[ViewTopic], name: &str, place: usize) -> bool
    ensures { OnTrue result (IsNamedAt topics.now name.now place) }
{
    place < topics.len() && topics[place].name.as_str() == name
}

/// The place of the topic with this name, if there is one.
fn place_searched(topics: &[ViewTopic], name: &str) -> Option<usize>
    requires { NamesRise topics.now }
    ensures { IsPlaceNamed topics.now name.now result }
{
    topics
        .binary_search_by(|topic| topic.name.as_str().cmp(name))
        .ok()
}
