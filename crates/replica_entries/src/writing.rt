//! Entries, written at the end of a `Vec`.

ghost use Rattle.std.specs.Prelude.{◌≡◌, ◌⊎◌, ◌<◌, ◌^◌, pos, All, OnOk, IfErr};
ghost use Rattle.std.specs.List.{flat_map};
ghost use Rattle.flex_wire.specs.Composed.{array, FitsArray};
ghost use Rattle.flex_wire.specs.Writing.{Appends, AppendsUpTo};
ghost use Rattle.flex_wire.specs.Spelling.{int32, int64};
ghost use Rattle.topic_meta.specs.Images.{entry_of, entries_of};
ghost use Rattle.replica_entries.specs.declared.fault.EntryFault.TheVariants.{NoMemory};
ghost use Rattle.replica_entries.specs.Spelling.{FitsEntry, entry_fields, head_fields, FitsNumbers, FitsTopics, content_fields, FitsFrameNumbers, frame_fields, FitsTopic, topic_fields};
ghost use Rattle.replica_entries.specs.Writing.{PutsEntry};
ghost use Rattle.replica_entries.specs.Misfits.{Misfits};
ghost use Rattle.replica_entries.specs.Views.{entry_value, content_value, frame_value};

use crate::check::check;
use crate::entry::{Content, Entry, LoggedFrame};
use crate::fault::EntryFault;
use crate::kind::Kind;
use crate::reading::VERSION;
use flex_wire::{put_compact_str, put_count, put_i16, put_i32, put_i64, put_uuid};
use std::alloc::AllocError;
use topic_meta::TopicEntry;

/// Appends the one spelling of an entry.
///
/// Refused, with no byte changed: `BadNumber` where a number is too great for its field; `BadBody` where a frame's body
/// is one that no frame has; `TooLong` of `Wire` where a name has over 32,767 bytes, or where there are more topics
/// than a count can say; `NoMemory`, which doesn't come where there is room for all of the bytes. The capacity never
/// shrinks.
pub fn put_entry(out: &mut Vec<u8>, entry: &Entry<'_>) -> Result<(), EntryFault>
    ensures appends { PutsEntry result out.old out.new (entry_value entry.now) }
    ensures fits { OnOk result (FitsEntry (entry_value entry.now)) }
    ensures fitting { FitsEntry (entry_value entry.now) → IfErr result (λ fault. fault ≡ NoMemory) }
    ensures refused { IfErr result (λ fault. (fault ≡ NoMemory) ⊎ Misfits fault (entry_value entry.now)) }
{
    check(entry)?;
    let before = out.len();
    if entry_up_to(out, entry).is_err() {
        out.truncate(before);
        return Err(EntryFault::NoMemory);
    }
    Ok(())
}

#[tactic(auto, unfolding(crate::specs::Spelling::entry_fields))]
fn entry_up_to(out: &mut Vec<u8>, entry: &Entry<'_>) -> Result<(), AllocError>
    requires { FitsEntry (entry_value entry.now) }
    ensures { AppendsUpTo result out.old out.new (entry_fields (entry_value entry.now)) }
{
    put_head(out, Kind::of(&entry.content), entry.leadership)?;
    put_content(out, &entry.content)
}

/// What stands in front of each entry.
#[tactic(auto, unfolding(crate::specs::Spelling::head_fields))]
fn put_head(out: &mut Vec<u8>, kind: Kind, leadership: u32) -> Result<(), AllocError>
    requires { leadership < 2 ^ 31 }
    ensures { AppendsUpTo result out.old out.new (head_fields kind leadership) }
{
    put_i16(out, VERSION)?;
    put_i16(out, kind.number())?;
    put_number(out, leadership)
}

#[tactic(auto, unfolding(crate::specs::Spelling::content_fields))]
fn put_content(out: &mut Vec<u8>, content: &Content<'_>) -> Result<(), AllocError>
    requires numbers { FitsNumbers (content_value content.now) }
    requires topics { FitsTopics (content_value content.now) }
    ensures { AppendsUpTo result out.old out.new (content_fields (content_value content.now)) }
{
    match content {
        Content::Frame(frame) => put_frame(out, frame),
        Content::Tick(moment) => put_long_number(out, moment.millis()),
        Content::Image(topics) => put_topics(out, topics),
        Content::Leads => Ok(()),
    }
}

#[tactic(auto, unfolding(crate::specs::Spelling::frame_fields))]
fn put_frame(out: &mut Vec<u8>, frame: &LoggedFrame<'_>) -> Result<(), AllocError>
    requires { FitsFrameNumbers (frame_value frame.now) }
    ensures { AppendsUpTo result out.old out.new (frame_fields (frame_value frame.now)) }
{
    put_number(out, frame.connection)?;
    put_long_number(out, frame.number)?;
    put_long_number(out, frame.moment.millis())?;
    out.extend_from_slice(frame.body)
}

/// A number as an INT32.
fn put_number(out: &mut Vec<u8>, number: u32) -> Result<(), AllocError>
    requires { number < 2 ^ 31 }
    ensures { Appends result out.old out.new (int32 (pos number)) }
{
    put_i32(out, number as i32)
}

/// A number as an INT64.
fn put_long_number(out: &mut Vec<u8>, number: u64) -> Result<(), AllocError>
    requires { number < 2 ^ 63 }
    ensures { Appends result out.old out.new (int64 (pos number)) }
{
    put_i64(out, number as i64)
}

/// The topics of an image.
fn put_topics(out: &mut Vec<u8>, topics: &[TopicEntry]) -> Result<(), AllocError>
    requires { FitsArray FitsTopic (entries_of topics.now) }
    ensures { AppendsUpTo result out.old out.new (array topic_fields (entries_of topics.now)) }
{
    put_count(out, topics.len() as u32)?;
    put_each(out, topics)
}

fn put_each(out: &mut Vec<u8>, topics: &[TopicEntry]) -> Result<(), AllocError>
    requires { All FitsTopic (entries_of topics.now) }
    ensures { AppendsUpTo result out.old out.new (flat_map topic_fields (entries_of topics.now)) }
{
    for topic in topics {
        put_topic(out, topic)?;
    }
    Ok(())
}

#[tactic(auto, unfolding(crate::specs::Spelling::topic_fields))]
fn put_topic(out: &mut Vec<u8>, topic: &TopicEntry) -> Result<(), AllocError>
    requires { FitsTopic (entry_of topic.now) }
    ensures { AppendsUpTo result out.old out.new (topic_fields (entry_of topic.now)) }
{
    put_compact_str(out, topic.name.as_str())?;
    put_uuid(out, &topic.id)?;
    put_i32(out, topic.count)
}
