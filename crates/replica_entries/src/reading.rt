//! Entries, read from all of their bytes.

ghost use Rattle.std.specs.Prelude.{◌≡◌, ◌≢◌, ◌↔◌, ℕ, List, IfOk, IfErr, IsErrOf};
ghost use Rattle.std.specs.Int.{w32, w64};
ghost use Rattle.flex_wire.specs.Composed.{array_at, elements_at};
ghost use Rattle.flex_wire.specs.Reading.{ReadsInMemory};
ghost use Rattle.topic_meta.specs.Images.{entry_of, entries_of};
ghost use Rattle.replica_entries.specs.declared.fault.EntryFault.{EntryFault};
ghost use Rattle.replica_entries.specs.declared.fault.EntryFault.TheVariants.{NoMemory};
ghost use Rattle.replica_entries.specs.Values.{EntryValue};
ghost use Rattle.replica_entries.specs.Spelling.{SpellsEntry};
ghost use Rattle.replica_entries.specs.Reading.{Gives, GivesInMemory, AnswersInMemory, FailsInMemory, number_at, kind_at, topic_at, frame_at, content_at, entry_at, whole};
ghost use Rattle.replica_entries.specs.Heads.{HasUnknownVersion, HasUnknownKind, HasLeftOver};
ghost use Rattle.replica_entries.specs.Views.{entry_value, content_value, frame_value};

use crate::entry::{Content, Entry, LoggedFrame};
use crate::fault::EntryFault;
use crate::kind::Kind;
use flex_wire::{WireFault, take_compact_str, take_count, take_i16, take_i32, take_i64, take_uuid};
use group_types::Moment;
use group_types::limits::{LARGEST_BODY, SMALLEST_BODY};
use std::alloc::Global;
use topic_meta::TopicEntry;

/// The version in which entries are spelled.
pub const VERSION: i16 = 0;

/// Reads an entry: the one that all of the bytes spell. A frame's body is lent from `bytes`; no count takes memory
/// before its elements are read.
///
/// Faults, the first from left to right: that of a field (`Wire`); `UnknownVersion`; `UnknownKind`; `BadNumber` for a
/// negative number; `BadBody` for a body of a length that no frame has; `LeftOver` where bytes stand behind the last
/// field. `NoMemory` comes only behind a version and a kind that are known.
pub fn read_entry<'a>(alloc: Global, bytes: &'a [u8]) -> Result<Entry<'a>, EntryFault>
    ensures found { IfOk result (λ entry. SpellsEntry (entry_value entry) bytes.now) }
    ensures only { (v : EntryValue) → SpellsEntry v bytes.now → AnswersInMemory entry_value result v }
    ensures refused { IfErr result (λ fault. fault ≢ NoMemory → (v : EntryValue) → ¬ SpellsEntry v bytes.now) }
    ensures exact { GivesInMemory entry_value result (entry_at bytes.now) }
    ensures unknown_version { IsErrOf result EntryFault.UnknownVersion ↔ HasUnknownVersion bytes.now }
    ensures unknown_kind { IsErrOf result EntryFault.UnknownKind ↔ HasUnknownKind bytes.now }
    ensures left_over { IsErrOf result EntryFault.LeftOver → HasLeftOver bytes.now }
    ensures left_over_or_no_memory { HasLeftOver bytes.now → FailsInMemory EntryFault.LeftOver result }
{
    entry_in(alloc, bytes)
}

#[tactic(auto, unfolding(crate::specs::Reading::entry_at))]
fn entry_in<'a>(alloc: Global, bytes: &'a [u8]) -> Result<Entry<'a>, EntryFault>
    ensures exact { GivesInMemory entry_value result (entry_at bytes.now) }
    // A head that isn't read wants no memory.
    ensures head { (fault : EntryFault) → kind_at bytes.now ≡ Err fault → IsErrOf result fault }
{
    let (kind, rest) = head_of(bytes)?;
    let (leadership, rest) = take_number(rest)?;
    match content_of(alloc, kind, rest) {
        Ok(content) => Ok(Entry {
            leadership,
            content,
        }),
        Err(fault) => Err(fault),
    }
}

/// The kind of an entry, behind its version.
#[tactic(auto, unfolding(crate::specs::Reading::kind_at))]
fn head_of(bytes: &[u8]) -> Result<(Kind, &[u8]), EntryFault>
    ensures { Gives (λ x. (x.0, x.1.now)) result (kind_at bytes.now) }
{
    let (version, rest) = take_i16(bytes)?;
    if version != VERSION {
        return Err(EntryFault::UnknownVersion);
    }
    let (number, rest) = take_i16(rest)?;
    match Kind::with_number(number) {
        Some(kind) => Ok((kind, rest)),
        None => Err(EntryFault::UnknownKind),
    }
}

/// What an entry of the kind brings: all of the bytes.
#[tactic(auto, unfolding(crate::specs::Reading::content_at))]
fn content_of<'a>(alloc: Global, kind: Kind, bytes: &'a [u8]) -> Result<Content<'a>, EntryFault>
    ensures { GivesInMemory content_value result (content_at kind bytes.now) }
{
    match kind {
        Kind::Frame => match frame_of(bytes) {
            Ok(frame) => Ok(Content::Frame(frame)),
            Err(fault) => Err(fault),
        },
        Kind::Tick => {
            let (moment, rest) = take_long_number(bytes)?;
            all_read(rest)?;
            Ok(Content::Tick(Moment::of_millis(moment)))
        }
        Kind::Image => {
            let (topics, rest) = topics_of(alloc, bytes)?;
            all_read(rest)?;
            Ok(Content::Image(topics))
        }
        Kind::Leads => {
            all_read(bytes)?;
            Ok(Content::Leads)
        }
    }
}

/// A frame, whose body is all bytes that are left.
#[tactic(auto, unfolding(crate::specs::Reading::frame_at))]
fn frame_of(bytes: &[u8]) -> Result<LoggedFrame<'_>, EntryFault>
    ensures { Gives frame_value result (frame_at bytes.now) }
{
    let (connection, rest) = take_number(bytes)?;
    let (number, rest) = take_long_number(rest)?;
    let (moment, body) = take_long_number(rest)?;
    if body.len() < SMALLEST_BODY || LARGEST_BODY < body.len() {
        return Err(EntryFault::BadBody);
    }
    Ok(LoggedFrame {
        connection,
        number,
        moment: Moment::of_millis(moment),
        body,
    })
}

/// An INT32 that isn't negative.
#[tactic(auto, unfolding(crate::specs::Reading::number_at))]
fn take_number(bytes: &[u8]) -> Result<(u32, &[u8]), EntryFault>
    ensures { Gives (λ x. (x.0, x.1.now)) result (number_at w32 bytes.now) }
{
    let (number, rest) = take_i32(bytes)?;
    if number < 0 {
        return Err(EntryFault::BadNumber);
    }
    Ok((number as u32, rest))
}

/// An INT64 that isn't negative.
#[tactic(auto, unfolding(crate::specs::Reading::number_at))]
fn take_long_number(bytes: &[u8]) -> Result<(u64, &[u8]), EntryFault>
    ensures { Gives (λ x. (x.0, x.1.now)) result (number_at w64 bytes.now) }
{
    let (number, rest) = take_i64(bytes)?;
    if number < 0 {
        return Err(EntryFault::BadNumber);
    }
    Ok((number as u64, rest))
}

/// Whether no bytes are left.
fn all_read(rest: &[u8]) -> Result<(), EntryFault>
    ensures { result ≡ whole tt rest.now }
{
    if !rest.is_empty() {
        return Err(EntryFault::LeftOver);
    }
    Ok(())
}

/// The topics of an image.
#[tactic(auto, unfolding(flex_wire::specs::Composed::array_at))]
fn topics_of<'a>(alloc: Global, bytes: &'a [u8]) -> Result<(Vec<TopicEntry>, &'a [u8]), WireFault>
    ensures { ReadsInMemory (λ x. (entries_of x.0.items, x.1.now)) result (array_at topic_at bytes.now) }
{
    let (count, rest) = take_count(bytes)?;
    count_of_topics(alloc, count, rest)
}

/// So many topics.
fn count_of_topics<'a>(
    alloc: Global,
    count: u32,
    bytes: &'a [u8],
) -> Result<(Vec<TopicEntry>, &'a [u8]), WireFault>
    ensures { ReadsInMemory (λ x. (entries_of x.0.items, x.1.now)) result (elements_at topic_at count bytes.now) }
{
    let mut topics = Vec::new(alloc);
    let mut rest = bytes;
    for _ in 0..count {
        let (topic, after) = match topic_of(alloc, rest) {
            Ok(found) => found,
            Err(fault) => return Err(fault),
        };
        topics.push(topic)?;
        rest = after;
    }
    Ok((topics, rest))
}

/// A topic.
#[tactic(auto, unfolding(crate::specs::Reading::topic_at))]
fn topic_of(alloc: Global, bytes: &[u8]) -> Result<(TopicEntry, &[u8]), WireFault>
    ensures { ReadsInMemory (λ x. (entry_of x.0, x.1.now)) result (topic_at bytes.now) }
{
    let (name, rest) = take_compact_str(bytes)?;
    let (id, rest) = match take_uuid(rest) {
        Ok(found) => found,
        Err(fault) => return Err(fault),
    };
    let (count, rest) = take_i32(rest)?;
    match String::from_str(alloc, name) {
        Ok(name) => Ok((TopicEntry { name, id, count }, rest)),
        Err(_) => Err(WireFault::NoMemory),
    }
}
