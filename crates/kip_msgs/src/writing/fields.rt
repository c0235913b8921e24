//! Texts and other fields, written by their Rust types.

ghost use Rattle.std.specs.Option.{option_copied};
ghost use Rattle.flex_wire.specs.Writing.{Appends};
ghost use Rattle.flex_wire.specs.Spelling.{uuid, FitsUuid, compact_string, FitsText, compact_nullable_string, nullable_string, FitsNullableText};
ghost use Rattle.kip_msgs.specs.Writable.{IsShort, IsShortIfAny};

use flex_wire::{put_compact_str, put_nullable_str, put_old_str};
use std::alloc::AllocError;
use uuid::Uuid;

/// A COMPACT_STRING (KIP-482); a text is UTF-8 by its type.
pub(super) fn put_text(out: &mut Vec<u8>, text: &str) -> Result<(), AllocError>
    requires { IsShort text.now }
    ensures appends { Appends result out.old out.new (compact_string text.now) }
    ensures fits { FitsText text.now }
{
    put_compact_str(out, text)
}

/// A COMPACT_NULLABLE_STRING (KIP-482).
#[tactic(auto, unfolding(flex_wire::specs::Spelling::compact_nullable_string))]
pub(super) fn put_text_or_null(out: &mut Vec<u8>, text: Option<&str>) -> Result<(), AllocError>
    requires { IsShortIfAny (option_copied text) }
    ensures appends { Appends result out.old out.new (compact_nullable_string (option_copied text.entry)) }
    ensures fits { FitsNullableText (option_copied text.entry) }
{
    match text {
        None => put_nullable_str(out, None),
        Some(text) => put_compact_str(out, text),
    }
}

/// A NULLABLE_STRING (Kafka protocol guide, "Protocol Primitive Types").
#[tactic(auto, unfolding(flex_wire::specs::Spelling::nullable_string))]
pub(super) fn put_old_text_or_null(out: &mut Vec<u8>, text: Option<&str>) -> Result<(), AllocError>
    requires { IsShortIfAny (option_copied text) }
    ensures appends { Appends result out.old out.new (nullable_string (option_copied text.entry)) }
    ensures fits { FitsNullableText (option_copied text.entry) }
{
    put_old_str(out, text)
}

/// A UUID (Kafka protocol guide), which is sixteen bytes by its type.
pub(super) fn put_id(out: &mut Vec<u8>, id: &Uuid) -> Result<(), AllocError>
    ensures appends { Appends result out.old out.new (uuid id.now) }
    ensures fits { FitsUuid id.now }
{
    out.extend_from_slice(id.as_bytes())
}
