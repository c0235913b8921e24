//! An image of the cluster's topics.

ghost use Rattle.std.specs.Prelude.{◌≡◌, ◌⊎◌, ◌≤◌, ◌↔◌, length, map, option_map, pos, string_bytes, String, Some, None, IfOk, IfErr, IsTrue, true};
ghost use Rattle.std.specs.declared.alloc.Global.{Global as Heap};
ghost use Rattle.std.specs.FinMap as finite;
ghost use Rattle.std.specs.Map.Iter.{ShowsInOrder, deref, deref_pair};
ghost use Rattle.group_types.specs.Topics.{view_of};
ghost use Rattle.topic_meta.specs.Images.{topics_of, entries_of, first_fault, is_too_many, partitions_in};
ghost use Rattle.topic_meta.specs.Stored.{shown_entries};
ghost use Rattle.topic_meta.specs.declared.topic.StoredTopic.{StoredTopic as Stored};
ghost use Rattle.group_types.specs.Images.{AreImageTopics};
ghost use Rattle.topic_meta.specs.declared.image_fault.ImageFault.TheVariants.{NoMemory};

use crate::draft::Draft;
use crate::image_fault::ImageFault;
use crate::topic::{StoredTopic, TopicEntry};
use crate::view::View;
use crate::view_topic::ViewTopic;
use group_types::NameSet;
use group_types::limits::{MOST_PARTITIONS, MOST_TOPICS};
use std::alloc::{AllocError, Global};
use std::collections::BTreeMap;
use std::collections::btree_map::{Iter, Keys};
use std::marker::Model;
use uuid::Uuid;

/// All topics of the cluster, by name: each with an id of its own and 1 to 100,000 partitions.
#[derive(Drop)]
pub struct Image {
    topics: BTreeMap<String, StoredTopic>,
}

impl Model for Image {
    ghost use Rattle.group_types.specs.Topics.{Topics};
    ghost use Rattle.topic_meta.specs.Stored.{topics_code, topics_in};
    ghost use Rattle.group_types.specs.Images.{AreImageTopics};

    ghost Value = { Topics };

    ghost coded = { topics_code };

    ghost view = { λ a. topics_in a.topics.entries };

    ghost invariant = { λ a. AreImageTopics (topics_in a.topics.entries) };
}

impl Image {
    /// An image of no topics. Takes no memory.
    pub fn empty(alloc: Global) -> Image
        ensures { result ≡ finite.empty }
    {
        Image {
            topics: BTreeMap::new(alloc),
        }
    }

    /// The image of a list of topics, where the list has no fault; else the list's first fault.
    ///
    /// More topics or partitions than the limits allow come before any other fault. Then the topics are looked at in
    /// their order, each for its count, its name and its id. The limits are this coordinator's own. Where memory is
    /// short, the answer is [`ImageFault::NoMemory`], in place of the image or of a topic's fault, but not of the limits'.
    pub fn of(alloc: Global, list: Vec<TopicEntry>) -> Result<Image, ImageFault>
        ensures accepted { IfOk result (λ image. (first_fault (entries_of list.items) ≡ None)
            × (image ≡ topics_of (entries_of list.items))) }
        ensures refused { IfErr result (λ fault. (fault ≡ NoMemory)
            ⊎ (first_fault (entries_of list.items) ≡ Some fault)) }
        ensures past_the_limits { is_too_many (entries_of list.items) ≡ true → result ≡ Err ImageFault.TooMany }
    {
        if is_past_the_limits(&list) {
            return Err(ImageFault::TooMany);
        }
        let mut draft = Draft::new(alloc);
        for entry in list {
            draft.add(entry)?;
        }
        let Draft { topics, ids: _ } = draft;
        Ok(Image { topics })
    }

    /// The topics of the image that are among the names, as a group that subscribes them knows them (KIP-848, "Group
    /// Metadata"). Fails where memory is short.
    ///
    /// Each name is looked up, so the time grows with the names and not with the image.
    pub fn view(&self, alloc: Global, names: &NameSet) -> Result<View, AllocError>
        ensures value { IfOk result (λ view. view ≡ view_of self.now names.now) }
        ensures sound { IfOk result AreImageTopics }
    {
        let mut topics = Vec::new(alloc);
        for name in names.iter() {
            if let Some(topic) = self.topics.get(name.as_str()) {
                topics.push(ViewTopic {
                    name: name.clone()?,
                    id: topic.id,
                    count: topic.count,
                })?;
            }
        }
        Ok(View::in_order(topics))
    }

    /// The view of all topics of the image, as a group knows them whose members subscribe each of them. Fails where memory is
    /// short.
    pub fn whole_view(&self, alloc: Global) -> Result<View, AllocError>
        ensures { IfOk result (λ view. view ≡ self.now) }
    {
        let mut topics = Vec::with_capacity(alloc, self.len())?;
        for (name, topic) in self.topics() {
            topics.push(ViewTopic {
                name: name.clone()?,
                id: topic.id,
                count: topic.count,
            })?;
        }
        Ok(View::in_order(topics))
    }

    /// The topics with their names, in the order of the names' bytes. Takes no memory.
    pub fn topics(&self) -> Iter<'_, String, StoredTopic>
        ensures rest { shown_entries result ≡ finite.entries self.now }
        ensures runs { ShowsInOrder (deref_pair {K = String Heap} {X = Stored}) }
    {
        self.topics.iter()
    }

    /// The names of the topics, rising. Takes no memory.
    pub fn names(&self) -> Keys<'_, String, StoredTopic>
        ensures rest { map string_bytes result ≡ finite.keys self.now }
        ensures runs { ShowsInOrder (deref {X = String Heap}) }
    {
        self.topics.keys()
    }

    /// The id and the number of partitions of the topic with this name, where the image has it. Takes no memory.
    pub fn find(&self, name: &str) -> Option<(Uuid, i32)>
        ensures { result ≡ option_map (λ t. (t.id, pos t.count)) (finite.get self.now name.now) }
    {
        let Some(topic) = self.topics.get(name) else {
            return None;
        };
        Some((topic.id, topic.count as i32))
    }

    /// An equal image. Fails where memory is short.
    pub fn copy(&self) -> Result<Image, AllocError>
        ensures { IfOk result (λ image. image ≡ self.now) }
    {
        let topics = self.topics.clone()?;
        Ok(Image { topics })
    }

    /// Whether the two images have the same topics, with the same ids and counts. Takes no memory.
    pub fn equals(&self, other: &Image) -> bool
        ensures { IsTrue result ↔ (self.now ≡ other.now) }
    {
        let (some, others) = (&self.topics, &other.topics);
        some.len() == others.len() && *some == *others
    }

    /// How many topics the image has: at most 10,000.
    pub fn len(&self) -> usize
        ensures number { result ≡ finite.len self.now }
        ensures sound { AreImageTopics self.now }
    {
        self.topics.len()
    }

    /// Whether the image has no topic.
    pub fn is_empty(&self) -> bool
        ensures { IsTrue result ↔ (self.now ≡ finite.empty) }
    {
        self.len() == 0
    }
}

/// Whether the list has more topics, or its topics more partitions, than an image may have.
fn is_past_the_limits(list: &[TopicEntry]) -> bool
    ensures { result ≡ is_too_many (entries_of list.now) }
{
    list.len() > MOST_TOPICS || all_partitions(list) > MOST_PARTITIONS
}

/// The partitions of all topics of a list that is not too long.
fn all_partitions(list: &[TopicEntry]) -> u64
    requires { length list.now ≤ MOST_TOPICS }
    ensures { result ≡ partitions_in (entries_of list.now) }
{
    let mut all: u64 = 0;
    for entry in list {
        all += u64::from(entry.partitions());
    }
    all
}
