//! The offsets of one topic.

ghost use Rattle.std.specs.Prelude.{ℤ, ◌≡◌, ◌≤◌, map, IfOk, OnOk};
ghost use Rattle.std.specs.Option.{option_copied, option_or};
ghost use Rattle.std.specs.FinMap as finite;
ghost use Rattle.offset_guard.specs.Listing.{indexed};

use crate::committed::Committed;
use indexmap::IndexMap;
use std::alloc::{AllocError, Global};
use std::collections::hash_map::RandomState;
use std::marker::Model;

/// What was committed for the indexes of one topic, and the room that was made for more.
#[derive(Drop)]
pub struct TopicOffsets {
    offsets: IndexMap<i32, Committed, RandomState>,
}

impl Model for TopicOffsets {
    ghost use Rattle.offset_guard.specs.Topics.{TopicState, topic_code};
    ghost use Rattle.std.specs.FinMap as finite;
    ghost use Rattle.indexmap.specs.IndexMap.{index_map_len, spare};

    ghost Value = { TopicState };

    ghost coded = { topic_code };

    ghost view = { λ a. record { offsets = finite.from_entries a.offsets.entries; len = index_map_len a.offsets; room = spare a.offsets } };
}

impl TopicOffsets {
    /// No offsets. Takes no memory.
    pub fn new(alloc: Global, hasher: RandomState) -> TopicOffsets
        ensures { result.offsets ≡ finite.empty }
    {
        TopicOffsets {
            offsets: IndexMap::with_hasher(alloc, hasher),
        }
    }

    /// What was committed for an index. Takes no memory.
    pub fn get(&self, index: i32) -> Option<&Committed>
        ensures { option_copied result ≡ finite.get self.now.offsets index }
    {
        self.offsets.get(&index)
    }

    /// What was committed for each index, in the order of the indexes. Fails where memory is short.
    pub fn in_order(&self, alloc: Global) -> Result<Vec<(i32, &Committed)>, AllocError>
        ensures { IfOk result (λ list. map indexed list.items ≡ finite.entries self.now.offsets) }
    {
        let mut list = Vec::with_capacity(alloc, self.len())?;
        for (index, committed) in self.offsets.iter() {
            list.push((*index, committed))?;
        }
        list.sort_unstable_by_key(|entry| entry.0);
        Ok(list)
    }

    /// How many offsets there are.
    pub fn len(&self) -> usize
        ensures { result ≡ self.now.len }
    {
        self.offsets.len()
    }

    /// Stores what is committed for an index. Fails where memory is short.
    pub fn insert(&mut self, index: i32, committed: Committed) -> Result<(), AllocError>
        ensures { OnOk result (self.new.offsets ≡ finite.insert self.old.offsets index committed) }
    {
        self.offsets.insert(index, committed)?;
        Ok(())
    }

    /// Makes room for `more` further offsets. Where memory is short, no offset has changed.
    pub fn reserve(&mut self, more: usize) -> Result<(), AllocError>
        ensures offsets { self.new.offsets ≡ self.old.offsets }
        ensures kept { self.old.room ≤ self.new.room }
        ensures room { OnOk result (more ≤ self.new.room) }
    {
        self.offsets.reserve(more)
    }

    /// Takes over all of the news, for which there is room. Takes no memory.
    pub fn append(&mut self, news: TopicOffsets)
        requires { news.len ≤ self.old.room }
        ensures { (i : ℤ) → finite.get self.new.offsets i ≡ option_or (finite.get news.offsets i) (finite.get self.old.offsets i) }
    {
        let TopicOffsets { offsets: mut news } = news;
        // `len` is called for its clause that no index stands twice.
        let _len = news.len();
        let Ok(()) = self.offsets.append(&mut news) else {
            unreachable!()
        };
    }
}
