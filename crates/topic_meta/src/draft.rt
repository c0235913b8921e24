//! The part of a list that was read so far, while an image is made of it.

use crate::image_fault::ImageFault;
use crate::topic::{StoredTopic, TopicEntry, is_in_range};
use std::alloc::Global;
use std::collections::{BTreeMap, BTreeSet};
use uuid::Uuid;

/// The topics read so far, and their ids.
#[derive(Drop)]
pub struct Draft {
    pub topics: BTreeMap<String, StoredTopic>,
    pub ids: BTreeSet<Uuid>,
}

impl Draft {
    ghost use Rattle.std.specs.Prelude.{◌≡◌, ◌⊎◌, List, [], ◌∷◌, ◌++◌, OnOk, IfErr, Some, None};
    ghost use Rattle.flex_wire.specs.Spelling.{FitsUuid};
    ghost use Rattle.topic_meta.specs.Drafts.{IsDraftOf};
    ghost use Rattle.topic_meta.specs.Images.{Entry, entry_of, fault_of};
    ghost use Rattle.topic_meta.specs.declared.image_fault.ImageFault.TheVariants.{NoMemory};

    /// A draft of no topics.
    pub fn new(alloc: Global) -> Draft
        ensures { IsDraftOf [] result }
    {
        Draft {
            topics: BTreeMap::new(alloc),
            ids: BTreeSet::new(alloc),
        }
    }

    /// Takes one more entry in, or finds its fault. After an `Err` the draft is of no further use.
    pub fn add(&mut self, entry: TopicEntry) -> Result<(), ImageFault>
        ensures taken { (earlier : List Entry) → IsDraftOf earlier self.old → OnOk result (
            (fault_of earlier (entry_of entry) ≡ None) × IsDraftOf (earlier ++ entry_of entry ∷ []) self.new) }
        ensures refused { (earlier : List Entry) → IsDraftOf earlier self.old → IfErr result (λ fault.
            (fault ≡ NoMemory) ⊎ (fault_of earlier (entry_of entry) ≡ Some fault)) }
        ensures sixteen { FitsUuid entry.id }
    {
        // so that the id is known to have sixteen bytes
        let _bytes: &[u8] = entry.id.as_bytes();
        let count = entry.partitions();
        if !is_in_range(count) {
            return Err(ImageFault::BadCount);
        }
        if self.topics.contains_key(entry.name.as_str()) {
            return Err(ImageFault::DuplicateName);
        }
        if !self.ids.insert(entry.id)? {
            return Err(ImageFault::DuplicateId);
        }
        let topic = StoredTopic {
            id: entry.id,
            count,
        };
        self.topics.insert(entry.name, topic)?;
        Ok(())
    }
}
