//! What lies behind a slot's pointer: a coordinator or a replica, with the replies, the topics and the entry that wait.
ghost use Rattle.std.specs.Prelude.{◌≡◌, ◌≢◌, ◌⊎◌, ◌≤◌, ◌<◌, ◌++◌, ◌∷◌, [], true, false, Some, None, IfOk, IfErr, IfSome, OnErr, IsUtf8, length, take, pos};
ghost use Rattle.std.specs.FinMap as finite;
ghost use Rattle.std.specs.Option.{option_copied};
ghost use Rattle.topic_meta.specs.Faults.{fault_number};
ghost use Rattle.topic_meta.specs.Images.{entries_of, entry_of, first_fault, topics_of};
ghost use Rattle.topic_meta.specs.declared.image_fault.ImageFault.TheVariants.{NoMemory};
ghost use Rattle.coord_node.specs.Answers.{Answers, ClosesAtOnce};
ghost use Rattle.coord_node.specs.Coordinator.{Done, Frame, Tick, committed_at, is_remembered_at};
ghost use Rattle.coord_node.specs.Steps.{Step};
ghost use Rattle.coord_c.specs.Machines.{coordinator_of, is_replica};
ghost use Rattle.coord_c.specs.Reads.{ShowsCommitted, epoch_shown, epochs_shown, fault_shown, size_shown, yes_or_no};

use crate::code::{
    AWAY, CLOSES, DONE, EMPTY, NO, NO_MEMBER, NO_MEMORY, NO_OFFSET, NOT_TEXT, SHORT, YES,
};
use crate::machine::Machine;
use coord_node::{Answered, Image, Moment, Stamp};
use group_types::Epoch;
use std::alloc::{AllocError, Global};
use topic_meta::{ImageFault, TopicEntry};
use uuid::Uuid;

/// A coordinator or a replica, the replies that were not taken yet, the topics that were not set yet, and the entry that was proposed
/// last and not taken yet.
#[derive(Drop)]
pub struct Embedded {
    pub(crate) machine: Machine,
    pub(crate) replies: Vec<u8>,
    pub(crate) topics: Vec<TopicEntry>,
    pub(crate) entry: Vec<u8>,
}

impl Embedded {
    /// Nothing waits. Takes no memory.
    pub(crate) fn new(alloc: Global, machine: Machine) -> Embedded
        ensures machine { result.machine ≡ machine }
        ensures replies { result.replies.items ≡ [] }
        ensures topics { result.topics.items ≡ [] }
        ensures entry { result.entry.items ≡ [] }
    {
        Embedded {
            machine,
            replies: Vec::new(alloc),
            topics: Vec::new(alloc),
            entry: Vec::new(alloc),
        }
    }

    /// Answers the body of a frame, as [`coord_node::Node::answer`] does, where it is a coordinator by itself.
    pub(crate) fn answer(&mut self, body: &[u8], stamp: Stamp, now: Moment) -> i32
        ensures kind { is_replica self.new.machine ≡ is_replica self.old.machine }
        ensures replica { is_replica self.old.machine ≡ true → (result ≡ EMPTY) × (self.new ≡ self.old) }
        ensures replied { result ≡ DONE → Answers (coordinator_of self.old.machine) (Frame body.now stamp now) Answered.Replied
            (coordinator_of self.new.machine) self.old.replies.items self.new.replies.items }
        ensures closes { result ≡ CLOSES → Answers (coordinator_of self.old.machine) (Frame body.now stamp now) Answered.Closes
            (coordinator_of self.new.machine) self.old.replies.items self.new.replies.items }
        ensures no_memory { result ≡ NO_MEMORY → (self.new.machine ≡ self.old.machine) × (self.new.replies.items ≡ self.old.replies.items) }
        ensures known { is_replica self.old.machine ≡ false → (result ≡ DONE) ⊎ ((result ≡ CLOSES) ⊎ (result ≡ NO_MEMORY)) }
        ensures at_once { is_replica self.old.machine ≡ false → ClosesAtOnce body.now → result ≡ CLOSES }
        ensures others { (self.new.topics ≡ self.old.topics) × (self.new.entry ≡ self.old.entry) }
    {
        let Machine::Coordinator(node) = &mut self.machine else {
            return EMPTY;
        };
        match node.answer(body, stamp, now, &mut self.replies) {
            Ok(Answered::Replied) => DONE,
            Ok(Answered::Closes) => CLOSES,
            Err(_) => NO_MEMORY,
        }
    }

    /// Tells the moment, where it is a coordinator by itself, and writes how many members were removed.
    pub(crate) fn tick(&mut self, now: Moment, removed: &mut usize) -> i32
        ensures kind { is_replica self.new.machine ≡ is_replica self.old.machine }
        ensures replica { is_replica self.old.machine ≡ true → (result ≡ EMPTY) × (self.new ≡ self.old) × (removed.new ≡ removed.old) }
        ensures ticked { is_replica self.old.machine ≡ false
            → (result ≡ DONE) × Step (coordinator_of self.old.machine) (Tick now) (Done removed.new) (coordinator_of self.new.machine) }
        ensures others { (self.new.replies ≡ self.old.replies) × (self.new.topics ≡ self.old.topics) × (self.new.entry ≡ self.old.entry) }
    {
        let Machine::Coordinator(node) = &mut self.machine else {
            return EMPTY;
        };
        *removed = node.tick(now);
        DONE
    }

    /// Moves the replies into a buffer, where it has room for them, and says how many bytes they are.
    pub(crate) fn take_replies(&mut self, to: &mut [u8], size: &mut usize) -> i32
        ensures size { size.new ≡ length self.old.replies.items }
        ensures taken { length self.old.replies.items ≤ length to.old
            → (result ≡ DONE) × (take size.new to.new ≡ self.old.replies.items) × (self.new.replies.items ≡ []) }
        ensures short { length to.old < length self.old.replies.items
            → (result ≡ SHORT) × (to.new ≡ to.old) × (self.new.replies.items ≡ self.old.replies.items) }
        ensures others { (self.new.machine ≡ self.old.machine) × (self.new.topics ≡ self.old.topics) × (self.new.entry ≡ self.old.entry) }
    {
        take_bytes(&mut self.replies, to, size)
    }

    /// Adds a topic to those that will be set.
    pub(crate) fn add_topic(&mut self, alloc: Global, name: &[u8], id: [u8; 16], count: i32) -> i32
        ensures added { result ≡ DONE → entries_of self.new.topics.items
            ≡ entries_of self.old.topics.items ++ record { name = name.now; id = id; count = count } ∷ [] }
        ensures refused { result ≢ DONE → self.new.topics.items ≡ self.old.topics.items }
        ensures text { result ≡ DONE → IsUtf8 name.now }
        ensures not_text { result ≡ NOT_TEXT → ¬ IsUtf8 name.now }
        ensures is_text { IsUtf8 name.now → result ≢ NOT_TEXT }
        ensures known { (result ≡ DONE) ⊎ ((result ≡ NO_MEMORY) ⊎ (result ≡ NOT_TEXT)) }
        ensures others { (self.new.machine ≡ self.old.machine) × (self.new.replies ≡ self.old.replies) × (self.new.entry ≡ self.old.entry) }
    {
        let Ok(name) = str::from_utf8(name) else {
            return NOT_TEXT;
        };
        match self.push_topic(alloc, name, Uuid::from_bytes(id), count) {
            Ok(()) => DONE,
            Err(_) => NO_MEMORY,
        }
    }

    /// The same for a name that is a text. Where memory is short nothing has changed.
    fn push_topic(
        &mut self,
        alloc: Global,
        name: &str,
        id: Uuid,
        count: i32,
    ) -> Result<(), AllocError>
        ensures added { IfOk result (λ _. entries_of self.new.topics.items
            ≡ entries_of self.old.topics.items ++ record { name = name.now; id = id; count = count } ∷ []) }
        ensures err { OnErr result (self.new.topics.items ≡ self.old.topics.items) }
        ensures others { (self.new.machine ≡ self.old.machine) × (self.new.replies ≡ self.old.replies) × (self.new.entry ≡ self.old.entry) }
    {
        let name = String::from_str(alloc, name)?;
        self.topics.push(TopicEntry { name, id, count })?;
        Ok(())
    }

    /// Sets the topics that were added, where it is a coordinator by itself: 0, or the number of their fault. They are gone then. Where
    /// memory is short they stay.
    pub(crate) fn set_topics(&mut self, alloc: Global) -> i32
        ensures kind { is_replica self.new.machine ≡ is_replica self.old.machine }
        ensures replica { is_replica self.old.machine ≡ true → (result ≡ EMPTY) × (self.new ≡ self.old) }
        ensures code { is_replica self.old.machine ≡ false
            → (result ≡ NO_MEMORY) ⊎ (result ≡ fault_shown (first_fault (entries_of self.old.topics.items))) }
        ensures set { result ≡ DONE → coordinator_of self.new.machine
            ≡ record (coordinator_of self.old.machine) { image = topics_of (entries_of self.old.topics.items) } }
        ensures refused { result ≢ DONE → self.new.machine ≡ self.old.machine }
        ensures gone { is_replica self.old.machine ≡ false → result ≢ NO_MEMORY → self.new.topics.items ≡ [] }
        ensures no_memory { result ≡ NO_MEMORY → self.new.topics.items ≡ self.old.topics.items }
        ensures others { (self.new.replies ≡ self.old.replies) × (self.new.entry ≡ self.old.entry) }
    {
        let Machine::Coordinator(node) = &mut self.machine else {
            return EMPTY;
        };
        match image_of(alloc, self.topics.as_slice()) {
            Ok(image) => {
                node.set_image(image);
                self.topics.clear();
                DONE
            }
            Err(fault) => self.keep_or_forget(fault_code(fault)),
        }
    }

    /// The same code. The topics are gone, unless it is that memory is short.
    pub(crate) fn keep_or_forget(&mut self, code: i32) -> i32
        ensures code { result ≡ code }
        ensures gone { result ≢ NO_MEMORY → self.new.topics.items ≡ [] }
        ensures no_memory { result ≡ NO_MEMORY → self.new.topics.items ≡ self.old.topics.items }
        ensures others { (self.new.machine ≡ self.old.machine) × (self.new.replies ≡ self.old.replies) × (self.new.entry ≡ self.old.entry) }
    {
        if code != NO_MEMORY {
            self.topics.clear();
        }
        code
    }

    /// Whether a group has a member, or remembers it: [`YES`] or [`NO`].
    pub(crate) fn remembers(&self, group: &[u8], member: &[u8]) -> i32
        ensures text { IsUtf8 group.now → IsUtf8 member.now
            → result ≡ yes_or_no (is_remembered_at (finite.get (coordinator_of self.now.machine).groups group.now) member.now) }
        ensures not_text { result ≡ NOT_TEXT → ¬ (IsUtf8 group.now × IsUtf8 member.now) }
        ensures known { (result ≡ YES) ⊎ ((result ≡ NO) ⊎ (result ≡ NOT_TEXT)) }
    {
        let Ok(group) = str::from_utf8(group) else {
            return NOT_TEXT;
        };
        let Ok(member) = str::from_utf8(member) else {
            return NOT_TEXT;
        };
        if self.machine.node().remembers(group, member) {
            YES
        } else {
            NO
        }
    }

    /// Writes the member epoch of a member and the one before it, where a group has the member.
    pub(crate) fn epochs(
        &self,
        group: &[u8],
        member: &[u8],
        epoch: &mut i32,
        previous: &mut i32,
    ) -> i32
        ensures found { result ≡ DONE → epochs_shown (finite.get (coordinator_of self.now.machine).groups group.now) member.now ≡ Some (epoch.new, previous.new) }
        ensures no_member { result ≡ NO_MEMBER → epochs_shown (finite.get (coordinator_of self.now.machine).groups group.now) member.now ≡ None }
        ensures not_text { result ≡ NOT_TEXT → ¬ (IsUtf8 group.now × IsUtf8 member.now) }
        ensures unchanged { result ≢ DONE → (epoch.new ≡ epoch.old) × (previous.new ≡ previous.old) }
        ensures known { (result ≡ DONE) ⊎ ((result ≡ NO_MEMBER) ⊎ (result ≡ NOT_TEXT)) }
    {
        let Ok(group) = str::from_utf8(group) else {
            return NOT_TEXT;
        };
        let Ok(member) = str::from_utf8(member) else {
            return NOT_TEXT;
        };
        match self.epochs_of(group, member) {
            Some((now, before)) => {
                *epoch = now;
                *previous = before;
                DONE
            }
            None => NO_MEMBER,
        }
    }

    /// The member epoch of a member and the one before it, where a group has the member.
    fn epochs_of(&self, group: &str, member: &str) -> Option<(i32, i32)>
        ensures { result ≡ epochs_shown (finite.get (coordinator_of self.now.machine).groups group.now) member.now }
    {
        let group = self.machine.node().group(group)?;
        let (epoch, previous) = group.epochs(member)?;
        Some((number_of(epoch), previous.as_i32()))
    }

    /// Writes what was last committed in a group for an index of a topic: the offset, the leader's epoch, and the metadata with its size,
    /// where the buffer has room for it. Without metadata the size is the greatest that there is.
    pub(crate) fn committed(
        &self,
        group: &[u8],
        topic: &[u8],
        index: i32,
        offset: &mut i64,
        leader_epoch: &mut i32,
        metadata: &mut [u8],
        size: &mut usize,
    ) -> i32
        ensures found { result ≡ DONE → IfSome (committed_at (finite.get (coordinator_of self.now.machine).groups group.now) (topic.now, index))
            (λ it. ShowsCommitted it (record { offset = offset.new; leader_epoch = leader_epoch.new; metadata = metadata.new; size = size.new })) }
        ensures no_offset { result ≡ NO_OFFSET →
            committed_at (finite.get (coordinator_of self.now.machine).groups group.now) (topic.now, index) ≡ None }
        ensures short { result ≡ SHORT → IfSome (committed_at (finite.get (coordinator_of self.now.machine).groups group.now) (topic.now, index))
            (λ it. (size.new ≡ size_shown it.metadata) × (length metadata.old < size.new)) }
        ensures not_text { result ≡ NOT_TEXT → ¬ (IsUtf8 group.now × IsUtf8 topic.now) }
        ensures unchanged { result ≢ DONE → (offset.new ≡ offset.old) × (leader_epoch.new ≡ leader_epoch.old) × (metadata.new ≡ metadata.old) }
        ensures known { (result ≡ DONE) ⊎ ((result ≡ NO_OFFSET) ⊎ ((result ≡ SHORT) ⊎ (result ≡ NOT_TEXT))) }
    {
        let Ok(group) = str::from_utf8(group) else {
            return NOT_TEXT;
        };
        let Ok(topic) = str::from_utf8(topic) else {
            return NOT_TEXT;
        };
        let Some(found) = self.machine.node().committed(group, topic, index) else {
            return NO_OFFSET;
        };
        let code = put_text(found.metadata(), metadata, size);
        if code == DONE {
            *offset = found.offset();
            *leader_epoch = found.leader_epoch();
        }
        code
    }
}

/// Writes a text into a buffer, where there is one and the buffer has room for it, and its size; without a text the greatest size that
/// there is.
fn put_text(text: Option<&str>, to: &mut [u8], size: &mut usize) -> i32
    ensures size { size.new ≡ size_shown (option_copied text.entry) }
    ensures written { result ≡ DONE → IfSome (option_copied text.entry) (λ bytes. take (length bytes) to.new ≡ bytes) }
    ensures short { result ≢ DONE → (result ≡ SHORT) × (to.new ≡ to.old) × (length to.old < size.new) }
{
    let Some(text) = text else {
        *size = usize::MAX;
        return DONE;
    };
    *size = text.len();
    if to.len() < text.len() {
        return SHORT;
    }
    to[..text.len()].copy_from_slice(text.as_bytes());
    DONE
}

/// The image of a list of topics, or the list's first fault, as [`Image::of`] gives it. The list stays.
fn image_of(alloc: Global, topics: &[TopicEntry]) -> Result<Image, ImageFault>
    ensures accepted { IfOk result (λ image. (first_fault (entries_of topics.now) ≡ None) × (image ≡ topics_of (entries_of topics.now))) }
    ensures refused { IfErr result (λ fault. (fault ≡ NoMemory) ⊎ (first_fault (entries_of topics.now) ≡ Some fault)) }
{
    match copies(alloc, topics) {
        Ok(list) => Image::of(alloc, list),
        Err(_) => Err(ImageFault::NoMemory),
    }
}

/// A copy of each topic, in their order.
pub(crate) fn copies(alloc: Global, topics: &[TopicEntry]) -> Result<Vec<TopicEntry>, AllocError>
    ensures { IfOk result (λ list. entries_of list.items ≡ entries_of topics.now) }
{
    let mut list = Vec::with_capacity(alloc, topics.len())?;
    for topic in topics {
        list.push(copy(alloc, topic)?)?;
    }
    Ok(list)
}

/// A copy of a topic.
fn copy(alloc: Global, topic: &TopicEntry) -> Result<TopicEntry, AllocError>
    ensures { IfOk result (λ entry. entry_of entry ≡ entry_of topic.now) }
{
    Ok(TopicEntry {
        name: String::from_str(alloc, topic.name.as_str())?,
        id: topic.id,
        count: topic.count,
    })
}

/// The code of a fault: its number, or that memory is short.
fn fault_code(fault: ImageFault) -> i32
    ensures no_memory { fault ≡ NoMemory → result ≡ NO_MEMORY }
    ensures number { fault ≢ NoMemory → result ≡ pos (fault_number fault) }
    ensures some { result ≢ DONE }
{
    match fault {
        ImageFault::NoMemory => NO_MEMORY,
        ImageFault::DuplicateName
        | ImageFault::DuplicateId
        | ImageFault::TooMany
        | ImageFault::BadCount => i32::from(fault.number()),
    }
}

/// The number of a member epoch, as a reply has it.
fn number_of(epoch: Epoch) -> i32
    ensures { result ≡ epoch_shown epoch }
{
    match epoch {
        Epoch::At(number) => number.as_i32(),
        Epoch::Away => AWAY,
    }
}

/// Moves bytes into a buffer, where it has room for them, and says how many they are.
pub(crate) fn take_bytes(from: &mut Vec<u8>, to: &mut [u8], size: &mut usize) -> i32
    ensures size { size.new ≡ length from.old.items }
    ensures taken { length from.old.items ≤ length to.old → (result ≡ DONE) × (take size.new to.new ≡ from.old.items) × (from.new.items ≡ []) }
    ensures short { length to.old < length from.old.items → (result ≡ SHORT) × (to.new ≡ to.old) × (from.new.items ≡ from.old.items) }
{
    let length = from.len();
    *size = length;
    if to.len() < length {
        return SHORT;
    }
    to[..length].copy_from_slice(from.as_slice());
    from.clear();
    DONE
}
