//! What the assignor goes over: the partitions of a view in partition order, and who may take them.

ghost use Rattle.std.specs.Prelude.{◌≡◌, ◌++◌, ◌<◌, ◌≤◌, ◌^◌, All, IfOk, OnOk, length, map};
ghost use Rattle.std.specs.List.{range_with_len};
ghost use Rattle.topic_meta.specs.Views.{all_named};
ghost use Rattle.uniform_assign.specs.Boards.{ArePlaces, IsBare, IsBoard, IsOfClass, members_on, place_at};

use crate::classes::classes_of;
use crate::takers::takers_of;
use group_types::Partition;
use range_assign::{Subs, Subscriber};
use std::alloc::{AllocError, Global};
use topic_meta::{View, ViewTopic};

/// A partition, and the place of its topic among the topics of the view.
#[derive(Clone, Copy)]
pub(crate) struct Place {
    pub topic: usize,
    pub partition: Partition,
}

/// The partitions of a view and the members of a group.
#[derive(Drop)]
pub(crate) struct Board<'a> {
    pub members: &'a [Subscriber<'a>],
    pub view: &'a View,
    /// The partitions in partition order: by their topics' names, then by the index.
    pub places: Vec<Place>,
    /// For each topic its class. Topics with the same subscribers are of one class. The classes are found only where a
    /// partition has no owner or may move.
    pub classes: Vec<usize>,
    /// For each class the places of its topics' subscribers among the members, rising.
    pub takers: Vec<Vec<usize>>,
}

impl<'a> Board<'a> {
    /// The partitions of the view, whose takers are not found yet.
    pub fn of(alloc: Global, subs: &'a Subs<'a>, view: &'a View) -> Result<Board<'a>, AllocError>
        ensures board { IfOk result (λ board. IsBare board) }
        ensures members { IfOk result (λ board. members_on board ≡ subs.now) }
        ensures view { IfOk result (λ board. board.view.now ≡ view.now) }
    {
        let places = places_of(alloc, view.topics())?;
        Ok(Board {
            members: subs.members(),
            view,
            places,
            classes: Vec::new(alloc),
            takers: Vec::new(alloc),
        })
    }

    /// Finds the takers of the topics.
    pub fn find_takers(&mut self, alloc: Global) -> Result<(), AllocError>
        requires { IsBare self.old }
        ensures board { OnOk result (IsBoard self.new) }
        ensures same { OnOk result (self.new ≡ record self.old { classes = self.new.classes; takers = self.new.takers }) }
    {
        let lists = takers_of(alloc, self.view.topics(), self.members)?;
        let found = classes_of(alloc, &lists)?;
        self.classes = found.classes;
        self.takers = found.takers;
        Ok(())
    }

    /// The class of the partition at a place.
    pub fn class_at(&self, at: usize) -> usize
        requires board { IsBoard self.now }
        requires within { at < length self.now.places.items }
        ensures class { IsOfClass self.now at result }
        ensures below { result < length self.now.takers.items }
    {
        self.classes[self.places[at].topic]
    }
}

/// The partitions of the topics, in the topics' order and then by the index.
fn places_of(alloc: Global, topics: &[ViewTopic]) -> Result<Vec<Place>, AllocError>
    requires { All (λ t. t.count ≤ 2 ^ 31) topics.now }
    ensures { IfOk result (λ places. ArePlaces (all_named topics.now) places.items) }
{
    let mut places = Vec::with_capacity(alloc, partition_count(topics))?;
    for (at, topic) in topics.iter().enumerate() {
        add_places(&mut places, at, topic)?;
    }
    Ok(places)
}

/// How many partitions the topics have together, so that room for them is taken once.
fn partition_count(topics: &[ViewTopic]) -> usize {
    let mut all = 0usize;
    for topic in topics {
        all = all.saturating_add(topic.count as usize);
    }
    all
}

/// Adds the partitions of a topic, which has a place among the topics.
fn add_places(places: &mut Vec<Place>, at: usize, topic: &ViewTopic) -> Result<(), AllocError>
    requires { topic.now.count ≤ 2 ^ 31 }
    ensures { OnOk result
        (places.new.items ≡ places.old.items ++ map (place_at at topic.now.id) (range_with_len 0 topic.now.count)) }
{
    for index in 0..topic.count {
        let partition = Partition {
            topic: topic.id,
            index: index as i32,
        };
        places.push(Place {
            topic: at,
            partition,
        })?;
    }
    Ok(())
}
