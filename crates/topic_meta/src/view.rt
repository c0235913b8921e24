//! The topics that one group knows.

ghost use Rattle.std.specs.Prelude.{◌≡◌, IsTrue, IfOk, ◌↔◌, zip};
ghost use Rattle.std.specs.List.{list_all};
ghost use Rattle.std.specs.FinMap as finite;
ghost use Rattle.group_types.specs.Images.{AreImageTopics};
ghost use Rattle.topic_meta.specs.Views.{all_named, is_same, are_same, shown, IsView};

use crate::view_topic::ViewTopic;
use std::alloc::{AllocError, Global};
use std::marker::Model;

/// The topics that one group knows, in name order: of an image, those that its members subscribe (KIP-848, "Group
/// Metadata").
#[derive(Drop)]
pub struct View {
    topics: Vec<ViewTopic>,
}

impl Model for View {
    ghost use Rattle.group_types.specs.Topics.{Topics};
    ghost use Rattle.topic_meta.specs.Stored.{topics_code};
    ghost use Rattle.topic_meta.specs.Views.{all_named, shown, IsView};

    ghost Value = { Topics };

    ghost coded = { topics_code };

    ghost view = { λ a. shown (all_named a.topics.items) };

    ghost invariant = { λ a. IsView (all_named a.topics.items) };
}

impl View {
    /// A view of no topics. Takes no memory.
    pub fn empty(alloc: Global) -> View
        ensures { result ≡ finite.empty }
    {
        View {
            topics: Vec::new(alloc),
        }
    }

    /// The view of topics that are in name order.
    pub(crate) fn in_order(topics: Vec<ViewTopic>) -> View
        requires { IsView (all_named topics.items) }
        ensures { result ≡ shown (all_named topics.items) }
    {
        View { topics }
    }

    /// The topics, in the order of their names' bytes.
    ///
    /// No two have one name or one id, and each has at least one partition, as in the image.
    pub fn topics(&self) -> &[ViewTopic]
        ensures all { all_named result.now ≡ finite.entries self.now }
        ensures sound { AreImageTopics self.now }
    {
        &self.topics
    }

    /// How many topics the view has.
    pub fn len(&self) -> usize
        ensures { result ≡ finite.len self.now }
    {
        self.topics().len()
    }

    /// Whether the view has no topic.
    pub fn is_empty(&self) -> bool
        ensures { IsTrue result ↔ (self.now ≡ finite.empty) }
    {
        self.len() == 0
    }

    /// Whether the two views have the same topics, with the same ids and counts.
    pub fn equals(&self, other: &View) -> bool
        ensures { IsTrue result ↔ (self.now ≡ other.now) }
    {
        have_same_topics(self.topics.as_slice(), other.topics.as_slice())
    }

    /// An equal view. Fails where memory is short.
    pub fn copy(&self, alloc: Global) -> Result<View, AllocError>
        ensures { IfOk result (λ view. view ≡ self.now) }
    {
        let topics = copies(alloc, self.topics.as_slice())?;
        Ok(View { topics })
    }
}

/// A copy of each topic, in their order.
fn copies(alloc: Global, topics: &[ViewTopic]) -> Result<Vec<ViewTopic>, AllocError>
    ensures { IfOk result (λ copies. all_named copies.items ≡ all_named topics.now) }
{
    let mut copies = Vec::with_capacity(alloc, topics.len())?;
    for topic in topics {
        copies.push(topic.copy(alloc)?)?;
    }
    Ok(copies)
}

/// Whether two slices have the same topics in the same order.
fn have_same_topics(some: &[ViewTopic], others: &[ViewTopic]) -> bool
    ensures { result ≡ are_same some.now others.now }
{
    some.len() == others.len() && are_same_one_by_one(some, others)
}

/// Whether each topic of a slice is that at its place in the other.
fn are_same_one_by_one(some: &[ViewTopic], others: &[ViewTopic]) -> bool
    ensures { result ≡ list_all (λ p. is_same p.0 p.1) (zip some.now others.now) }
{
    some.iter().zip(others).all(|(a, b)| a.equals(b))
}
