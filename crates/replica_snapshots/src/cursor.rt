//! Fields, read one after the other from the front of bytes. Whatever is spelled as a snapshot spells it is read; what was read
//! is looked at as a whole, once it is read.

ghost use Rattle.std.specs.Prelude.{◌≡◌, ◌≤◌, length, IfOk, IsOk, IsTrue};
ghost use Rattle.std.specs.Option.{option_map};
ghost use Rattle.std.specs.String.{string_bytes};
ghost use Rattle.group_types.specs.Limits.{LONGEST_STRING};
ghost use Rattle.group_types.specs.Sets.{nothing};
ghost use Rattle.topic_meta.specs.Images.{entry_of, entries_of};
ghost use Rattle.replica_snapshots.specs.Reading.{Gives, number_at, int16_at, int32_at, int64_at, id_at, count_at, present_at, text_at, optional_at, epoch_at, member_epoch_at, timeout_at, stamp_at, index_at, partition_at, partitions_at, names_into, names_at, entry_at, each_at, image_at, assignor_at};
ghost use Rattle.replica_snapshots.specs.Views.{unread};

use crate::fault::SnapshotFault;
use crate::fields::is_index;
use flex_wire::{
    WireFault, take_compact_str, take_count, take_i16, take_i32, take_i64, take_mark, take_uuid,
};
use group_types::{
    AssignorName, Epoch, EpochNumber, MemberId, Moment, NameSet, PartSet, Partition, Stamp,
};
use std::alloc::Global;
use topic_meta::{Image, ImageFault, TopicEntry};
use uuid::Uuid;

/// Bytes of which those in front are read.
#[derive(Drop)]
pub struct Cursor<'a> {
    alloc: Global,
    size: usize,
    pub(crate) rest: &'a [u8],
}

impl<'a> Cursor<'a> {
    /// In front of all of the bytes.
    pub fn new(alloc: Global, bytes: &'a [u8]) -> Cursor<'a>
        ensures { unread result ≡ bytes.now }
    {
        Cursor {
            alloc,
            size: bytes.len(),
            rest: bytes,
        }
    }

    /// How many bytes were read.
    pub fn place(&self) -> usize {
        self.size.saturating_sub(self.rest.len())
    }

    /// The fault of the field that is to be read.
    fn fault(&self, fault: WireFault) -> SnapshotFault {
        SnapshotFault::Wire(fault, self.place())
    }

    /// That the field that was read can't have its value.
    pub fn bad_value(&self) -> SnapshotFault {
        SnapshotFault::BadValue(self.place())
    }

    /// That what was read isn't sound.
    pub fn unsound(&self) -> SnapshotFault {
        SnapshotFault::Unsound(self.place())
    }

    /// Whether a step was taken; else what was read isn't sound.
    pub fn sound(&self, is_taken: bool) -> Result<(), SnapshotFault>
        ensures { IsTrue is_taken → IsOk result }
    {
        if !is_taken {
            return Err(self.unsound());
        }
        Ok(())
    }

    /// A number of 64 bits.
    #[tactic(auto, unfolding(crate::specs::Reading::number_at, flex_wire::specs::Reading::bytes_at))]
    pub fn number(&mut self) -> Result<u64, SnapshotFault>
        ensures { Gives (λ n. n) result (unread self.new) (number_at (unread self.old)) }
    {
        if self.rest.len() < 8 {
            return Err(self.fault(WireFault::Short));
        }
        let (front, rest) = self.rest.split_at(8);
        let mut number = [0; 8];
        number.copy_from_slice(front);
        self.rest = rest;
        Ok(u64::from_be_bytes(number))
    }

    pub fn int16(&mut self) -> Result<i16, SnapshotFault>
        ensures { Gives (λ n. n) result (unread self.new) (int16_at (unread self.old)) }
    {
        match take_i16(self.rest) {
            Ok((number, rest)) => {
                self.rest = rest;
                Ok(number)
            }
            Err(fault) => Err(self.fault(fault)),
        }
    }

    pub fn int32(&mut self) -> Result<i32, SnapshotFault>
        ensures { Gives (λ n. n) result (unread self.new) (int32_at (unread self.old)) }
    {
        match take_i32(self.rest) {
            Ok((number, rest)) => {
                self.rest = rest;
                Ok(number)
            }
            Err(fault) => Err(self.fault(fault)),
        }
    }

    pub fn int64(&mut self) -> Result<i64, SnapshotFault>
        ensures { Gives (λ n. n) result (unread self.new) (int64_at (unread self.old)) }
    {
        match take_i64(self.rest) {
            Ok((number, rest)) => {
                self.rest = rest;
                Ok(number)
            }
            Err(fault) => Err(self.fault(fault)),
        }
    }

    pub fn uuid(&mut self) -> Result<Uuid, SnapshotFault>
        ensures { Gives (λ id. id) result (unread self.new) (id_at (unread self.old)) }
    {
        match take_uuid(self.rest) {
            Ok((id, rest)) => {
                self.rest = rest;
                Ok(id)
            }
            Err(fault) => Err(self.fault(fault)),
        }
    }

    /// How many elements follow. That takes no memory before they are read.
    pub fn count(&mut self) -> Result<u32, SnapshotFault>
        ensures { Gives (λ n. n) result (unread self.new) (count_at (unread self.old)) }
    {
        match take_count(self.rest) {
            Ok((count, rest)) => {
                self.rest = rest;
                Ok(count)
            }
            Err(fault) => Err(self.fault(fault)),
        }
    }

    /// Whether a value follows.
    pub fn is_present(&mut self) -> Result<bool, SnapshotFault>
        ensures { Gives (λ b. b) result (unread self.new) (present_at (unread self.old)) }
    {
        match take_mark(self.rest) {
            Ok((present, rest)) => {
                self.rest = rest;
                Ok(present)
            }
            Err(fault) => Err(self.fault(fault)),
        }
    }

    /// A text.
    pub fn text(&mut self) -> Result<&'a str, SnapshotFault>
        ensures short { IfOk result (λ text. length text.now ≤ LONGEST_STRING) }
        ensures exact { Gives (λ text. text.now) result (unread self.new) (text_at (unread self.old)) }
    {
        match take_compact_str(self.rest) {
            Ok((text, rest)) => {
                self.rest = rest;
                Ok(text)
            }
            Err(fault) => Err(self.fault(fault)),
        }
    }

    #[tactic(auto, unfolding(crate::specs::Reading::optional_at))]
    pub fn optional_text(&mut self) -> Result<Option<String>, SnapshotFault>
        ensures { Gives (option_map string_bytes) result (unread self.new) (optional_at text_at (unread self.old)) }
    {
        if !self.is_present()? {
            return Ok(None);
        }
        let text = self.text()?;
        Ok(Some(String::from_str(self.alloc, text)?))
    }

    pub fn member_id(&mut self) -> Result<MemberId, SnapshotFault>
        ensures { Gives (λ id. id) result (unread self.new) (text_at (unread self.old)) }
    {
        let text = self.text()?;
        Ok(MemberId::of(self.alloc, text)?)
    }

    #[tactic(auto, unfolding(crate::specs::Reading::epoch_at))]
    pub fn epoch(&mut self) -> Result<EpochNumber, SnapshotFault>
        ensures { Gives (λ epoch. epoch) result (unread self.new) (epoch_at (unread self.old)) }
    {
        let number = self.int32()?;
        match EpochNumber::of_i32(number) {
            Some(epoch) => Ok(epoch),
            None => Err(self.bad_value()),
        }
    }

    /// The epoch of a member, which is missing where the member is away.
    #[tactic(auto, unfolding(crate::specs::Reading::member_epoch_at))]
    pub fn member_epoch(&mut self) -> Result<Epoch, SnapshotFault>
        ensures { Gives (λ epoch. epoch) result (unread self.new) (member_epoch_at (unread self.old)) }
    {
        if !self.is_present()? {
            return Ok(Epoch::Away);
        }
        Ok(Epoch::At(self.epoch()?))
    }

    /// A time of 32 bits.
    #[tactic(auto, unfolding(crate::specs::Reading::timeout_at))]
    pub fn timeout(&mut self) -> Result<u32, SnapshotFault>
        ensures { Gives (λ n. n) result (unread self.new) (timeout_at (unread self.old)) }
    {
        let millis = self.number()?;
        match u32::try_from(millis) {
            Ok(millis) => Ok(millis),
            Err(_) => Err(self.bad_value()),
        }
    }

    #[tactic(auto, unfolding(crate::specs::Reading::optional_at))]
    pub fn optional_moment(&mut self) -> Result<Option<Moment>, SnapshotFault>
        ensures { Gives (λ moment. moment) result (unread self.new) (optional_at number_at (unread self.old)) }
    {
        if !self.is_present()? {
            return Ok(None);
        }
        Ok(Some(self.moment()?))
    }

    pub fn moment(&mut self) -> Result<Moment, SnapshotFault>
        ensures { Gives (λ moment. moment) result (unread self.new) (number_at (unread self.old)) }
    {
        Ok(Moment::of_millis(self.number()?))
    }

    #[tactic(auto, unfolding(crate::specs::Reading::stamp_at))]
    pub fn stamp(&mut self) -> Result<Stamp, SnapshotFault>
        ensures { Gives (λ stamp. stamp) result (unread self.new) (stamp_at (unread self.old)) }
    {
        let connection = self.number()?;
        let frame = self.number()?;
        Ok(Stamp { connection, frame })
    }

    /// An index that a partition of a topic can have: so no table that goes by indexes grows without end.
    #[tactic(auto, unfolding(crate::specs::Reading::index_at))]
    pub fn index(&mut self) -> Result<i32, SnapshotFault>
        ensures { Gives (λ index. index) result (unread self.new) (index_at (unread self.old)) }
    {
        let index = self.int32()?;
        if !is_index(index) {
            return Err(self.bad_value());
        }
        Ok(index)
    }

    #[tactic(auto, unfolding(crate::specs::Reading::partition_at))]
    pub fn partition(&mut self) -> Result<Partition, SnapshotFault>
        ensures { Gives (λ p. p) result (unread self.new) (partition_at (unread self.old)) }
    {
        let topic = self.uuid()?;
        let index = self.index()?;
        Ok(Partition { topic, index })
    }

    #[tactic(auto, unfolding(crate::specs::Reading::optional_at))]
    pub fn optional_partitions(&mut self) -> Result<Option<PartSet>, SnapshotFault>
        ensures { Gives (λ set. set) result (unread self.new) (optional_at partitions_at (unread self.old)) }
    {
        if !self.is_present()? {
            return Ok(None);
        }
        Ok(Some(self.partitions()?))
    }

    #[tactic(auto, unfolding(crate::specs::Reading::partitions_at))]
    pub fn partitions(&mut self) -> Result<PartSet, SnapshotFault>
        ensures { Gives (λ set. set) result (unread self.new) (partitions_at (unread self.old)) }
    {
        let count = self.count()?;
        let parts = self.each_partition(count)?;
        Ok(PartSet::of_vec(parts))
    }

    /// So many partitions, in the order in which they stand.
    fn each_partition(&mut self, count: u32) -> Result<Vec<Partition>, SnapshotFault>
        ensures { Gives (λ parts. parts.items) result (unread self.new) (each_at partition_at count (unread self.old)) }
    {
        let mut parts = Vec::new(self.alloc);
        for _ in 0..count {
            let p = self.partition()?;
            parts.push(p)?;
        }
        Ok(parts)
    }

    #[tactic(auto, unfolding(crate::specs::Reading::names_at))]
    pub fn names(&mut self) -> Result<NameSet, SnapshotFault>
        ensures { Gives (λ names. names) result (unread self.new) (names_at (unread self.old)) }
    {
        let count = self.count()?;
        self.each_name(count)
    }

    /// So many names.
    fn each_name(&mut self, count: u32) -> Result<NameSet, SnapshotFault>
        ensures { Gives (λ names. names) result (unread self.new) (names_into count nothing (unread self.old)) }
    {
        let mut names = NameSet::new(self.alloc);
        for _ in 0..count {
            let name = self.text()?;
            names.insert(self.alloc, name)?;
        }
        Ok(names)
    }

    /// A topic of an image or of a view.
    #[tactic(auto, unfolding(crate::specs::Reading::entry_at))]
    fn topic(&mut self) -> Result<TopicEntry, SnapshotFault>
        ensures { Gives entry_of result (unread self.new) (entry_at (unread self.old)) }
    {
        let name = self.text()?;
        let id = self.uuid()?;
        let count = self.int32()?;
        let name = String::from_str(self.alloc, name)?;
        Ok(TopicEntry { name, id, count })
    }

    /// So many topics, in the order in which they stand.
    fn each_topic(&mut self, count: u32) -> Result<Vec<TopicEntry>, SnapshotFault>
        ensures { Gives (λ topics. entries_of topics.items) result (unread self.new) (each_at entry_at count (unread self.old)) }
    {
        let mut topics = Vec::new(self.alloc);
        for _ in 0..count {
            let topic = self.topic()?;
            topics.push(topic)?;
        }
        Ok(topics)
    }

    /// The topics of an image or of a view.
    #[tactic(auto, unfolding(crate::specs::Reading::image_at))]
    pub fn image(&mut self) -> Result<Image, SnapshotFault>
        ensures { Gives (λ image. image) result (unread self.new) (image_at (unread self.old)) }
    {
        let count = self.count()?;
        let topics = self.each_topic(count)?;
        match Image::of(self.alloc, topics) {
            Ok(image) => Ok(image),
            Err(ImageFault::NoMemory) => Err(SnapshotFault::NoMemory),
            Err(_) => Err(self.unsound()),
        }
    }

    #[tactic(auto, unfolding(crate::specs::Reading::optional_at, crate::specs::Reading::assignor_at))]
    pub fn optional_assignor(&mut self) -> Result<Option<AssignorName>, SnapshotFault>
        ensures { Gives (λ assignor. assignor) result (unread self.new) (optional_at assignor_at (unread self.old)) }
    {
        if !self.is_present()? {
            return Ok(None);
        }
        let name = self.text()?;
        match AssignorName::of(name) {
            Some(assignor) => Ok(Some(assignor)),
            None => Err(self.bad_value()),
        }
    }
}
