//! Whether an entry has a spelling.

ghost use Rattle.std.specs.Prelude.{◌↔◌, ◌<◌, ◌^◌, IsTrue, OnOk, IfErr};
ghost use Rattle.flex_wire.specs.Composed.{FitsArray};
ghost use Rattle.topic_meta.specs.Images.{entry_of, entries_of};
ghost use Rattle.replica_entries.specs.Spelling.{FitsNumbers, FitsFrameNumbers, FitsBody, FitsTopic, FitsTopics, FitsEntry};
ghost use Rattle.replica_entries.specs.Misfits.{Misfits};
ghost use Rattle.replica_entries.specs.Views.{entry_value, content_value, frame_value};

use crate::entry::{Content, Entry, LoggedFrame};
use crate::fault::EntryFault;
use flex_wire::{LONGEST_STRING, WireFault};
use group_types::limits::{LARGEST_BODY, SMALLEST_BODY};
use topic_meta::TopicEntry;

/// Whether the entry has a spelling; else the fault of the first part that has none: the numbers, the body, the topics.
pub fn check(entry: &Entry<'_>) -> Result<(), EntryFault>
    ensures fits { OnOk result (FitsEntry (entry_value entry.now)) }
    ensures refused { IfErr result (λ fault. Misfits fault (entry_value entry.now)) }
{
    if !is_number(entry.leadership) || !has_numbers(&entry.content) {
        return Err(EntryFault::BadNumber);
    }
    if !has_body(&entry.content) {
        return Err(EntryFault::BadBody);
    }
    if !has_topics(&entry.content) {
        return Err(EntryFault::Wire(WireFault::TooLong));
    }
    Ok(())
}

/// Whether an INT32 can be the number.
fn is_number(number: u32) -> bool
    ensures { IsTrue result ↔ (number < 2 ^ 31) }
{
    number <= 0x7fff_ffff
}

/// Whether an INT64 can be the number.
fn is_long_number(number: u64) -> bool
    ensures { IsTrue result ↔ (number < 2 ^ 63) }
{
    number <= 0x7fff_ffff_ffff_ffff
}

fn has_numbers(content: &Content<'_>) -> bool
    ensures { IsTrue result ↔ FitsNumbers (content_value content.now) }
{
    match content {
        Content::Frame(frame) => has_frame_numbers(frame),
        Content::Tick(moment) => is_long_number(moment.millis()),
        Content::Image(_) | Content::Leads => true,
    }
}

fn has_frame_numbers(frame: &LoggedFrame<'_>) -> bool
    ensures { IsTrue result ↔ FitsFrameNumbers (frame_value frame.now) }
{
    is_number(frame.connection)
        && is_long_number(frame.number)
        && is_long_number(frame.moment.millis())
}

fn has_body(content: &Content<'_>) -> bool
    ensures { IsTrue result ↔ FitsBody (content_value content.now) }
{
    match content {
        Content::Frame(frame) => {
            SMALLEST_BODY <= frame.body.len() && frame.body.len() <= LARGEST_BODY
        }
        Content::Tick(_) | Content::Image(_) | Content::Leads => true,
    }
}

fn has_topics(content: &Content<'_>) -> bool
    ensures { IsTrue result ↔ FitsTopics (content_value content.now) }
{
    match content {
        Content::Image(topics) => are_spelled(topics),
        Content::Frame(_) | Content::Tick(_) | Content::Leads => true,
    }
}

/// Whether there are no more topics than a count can say, and each has a spelling.
fn are_spelled(topics: &[TopicEntry]) -> bool
    ensures { IsTrue result ↔ FitsArray FitsTopic (entries_of topics.now) }
{
    if 0xffff_ffff <= topics.len() {
        return false;
    }
    for topic in topics {
        if !is_spelled(topic) {
            return false;
        }
    }
    true
}

fn is_spelled(topic: &TopicEntry) -> bool
    ensures { IsTrue result ↔ FitsTopic (entry_of topic.now) }
{
    // so that the id is known to have sixteen bytes, and the count to be an INT32
    let _bytes: &[u8] = topic.id.as_bytes();
    let _count: i32 = topic.count;
    let name: &str = topic.name.as_str();
    name.len() <= LONGEST_STRING
}
