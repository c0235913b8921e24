//! TAG_BUFFER: the tagged fields, behind their number.

ghost use Rattle.std.specs.Prelude.{◌≡◌, ℕ, List, ◌++◌, Option, All, IfOk};
ghost use Rattle.std.specs.List.{flat_map};
ghost use Rattle.flex_wire.specs.Spelling.{Tagged, tagged_field, tagged_fields, FitsTaggedField, FitsTaggedFields};
ghost use Rattle.flex_wire.specs.Reading.{Reads, ReadsInMemory, TakesInMemory, tagged_field_at, tagged_fields_behind, tagged_fields_at};
ghost use Rattle.flex_wire.specs.Writing.{Appends, AppendsUpTo};
ghost use Rattle.flex_wire.specs.Tags.{tagged, all_tagged};

use crate::fault::WireFault;
use crate::raw::bytes_of;
use crate::tagged::{TaggedField, TaggedFields};
use crate::varint::{put_varint, take_varint};
use std::alloc::{AllocError, Global};

#[tactic(auto, unfolding(crate::specs::Reading::tagged_field_at))]
#[inline(always)]
fn field_of(last: Option<u32>, bytes: &[u8]) -> Result<(TaggedField<'_>, &[u8]), WireFault>
    ensures { Reads (λ x. (tagged x.0, x.1.now)) result (tagged_field_at last bytes.now) }
{
    let (tag, rest) = take_varint(bytes)?;
    if let Some(last) = last
        && tag <= last
    {
        return Err(WireFault::TagOrder);
    }
    let (size, rest) = take_varint(rest)?;
    let (value, rest) = bytes_of(rest, size as usize)?;
    Ok((TaggedField { tag, value }, rest))
}

#[inline(always)]
fn fields_of<'a>(
    alloc: Global,
    count: u32,
    bytes: &'a [u8],
) -> Result<(Vec<TaggedField<'a>>, &'a [u8]), WireFault>
    ensures { ReadsInMemory (λ x. (all_tagged x.0.items, x.1.now)) result (tagged_fields_behind None count bytes.now) }
{
    let mut fields = Vec::new(alloc);
    let mut last = None;
    let mut rest = bytes;
    for _ in 0..count {
        let (field, after) = field_of(last, rest)?;
        fields.push(field)?;
        last = Some(field.tag);
        rest = after;
    }
    Ok((fields, rest))
}

#[tactic(auto, unfolding(crate::specs::Reading::tagged_fields_at))]
#[inline(always)]
fn tags_of<'a>(alloc: Global, bytes: &'a [u8]) -> Result<(TaggedFields<'a>, &'a [u8]), WireFault>
    ensures { ReadsInMemory (λ x. (x.0, x.1.now)) result (tagged_fields_at bytes.now) }
{
    let (count, rest) = take_varint(bytes)?;
    let (fields, rest) = fields_of(alloc, count, rest)?;
    Ok((TaggedFields::of_vec(fields), rest))
}

/// Takes a TAG_BUFFER (KIP-482): a varint of the number of tagged fields, and for each a varint of
/// its tag, a varint of its size and that many bytes, the tags rising strictly. The fields' bytes
/// are lent from `bytes`; no memory is taken for a field before it is read.
///
/// Faults: those of the varints; `TagOrder`, judged before the field's size is read; `Short`;
/// `NoMemory`.
#[inline(always)]
pub fn take_tags<'a>(
    alloc: Global,
    bytes: &'a [u8],
) -> Result<(TaggedFields<'a>, &'a [u8]), WireFault>
    ensures found { IfOk result (λ x. FitsTaggedFields x.0 × (bytes.now ≡ tagged_fields x.0 ++ x.1.now)) }
    ensures only { (fields : List Tagged) (rest : List ℕ) → FitsTaggedFields fields → bytes.now ≡ tagged_fields fields ++ rest →
        TakesInMemory (λ x. (x.0, x.1.now)) result fields rest }
    ensures exact { ReadsInMemory (λ x. (x.0, x.1.now)) result (tagged_fields_at bytes.now) }
{
    tags_of(alloc, bytes)
}

#[tactic(auto, unfolding(crate::specs::Spelling::tagged_field))]
fn field_up_to(out: &mut Vec<u8>, field: &TaggedField<'_>) -> Result<(), AllocError>
    requires { FitsTaggedField (tagged field.now) }
    ensures { AppendsUpTo result out.old out.new (tagged_field (tagged field.now)) }
{
    put_varint(out, field.tag)?;
    put_varint(out, field.value.len() as u32)?;
    out.extend_from_slice(field.value)
}

fn fields_up_to(out: &mut Vec<u8>, fields: &[TaggedField<'_>]) -> Result<(), AllocError>
    requires { All FitsTaggedField (all_tagged fields.now) }
    ensures { AppendsUpTo result out.old out.new (flat_map tagged_field (all_tagged fields.now)) }
{
    for field in fields {
        field_up_to(out, field)?;
    }
    Ok(())
}

#[tactic(auto, unfolding(crate::specs::Spelling::tagged_fields))]
fn tags_up_to(out: &mut Vec<u8>, tags: &TaggedFields<'_>) -> Result<(), AllocError>
    requires { FitsTaggedFields tags.now }
    ensures { AppendsUpTo result out.old out.new (tagged_fields tags.now) }
{
    put_varint(out, tags.len() as u32)?;
    fields_up_to(out, tags.as_slice())
}

/// Appends a TAG_BUFFER (KIP-482) of these fields, whose tags rise strictly.
///
/// Fails only by want of memory, and then no byte has changed.
pub fn put_tags(out: &mut Vec<u8>, tags: &TaggedFields<'_>) -> Result<(), AllocError>
    requires { FitsTaggedFields tags.now }
    ensures { Appends result out.old out.new (tagged_fields tags.now) }
{
    let before = out.len();
    let done = tags_up_to(out, tags);
    if done.is_err() {
        out.truncate(before);
    }
    done
}
