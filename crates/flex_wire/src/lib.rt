//! The primitive fields of Kafka's flexible encodings, read from the front of a slice of bytes and
//! appended to a `Vec` of them.
//!
//! What a `take_*` gives stood in the bytes in its one spelling, each such spelling is taken, and
//! otherwise the fault is the first one from the left; a `put_*` appends exactly the spelling.
//!
//! Start from [`take_varint`] and [`WireFault`]; `specs/Spelling.antt` has the format itself.
#![tactic(auto)]

mod count;
mod fault;
mod ident;
mod int;
pub mod laws;
mod mark;
mod raw;
mod tagged;
mod tags;
mod text;
mod varint;

pub use count::{put_count, put_nullable_count, take_count, take_nullable_count};
pub use fault::WireFault;
pub use ident::{put_uuid, take_uuid};
pub use int::{put_i16, put_i32, put_i64, take_i16, take_i32, take_i64};
pub use mark::{put_mark, take_mark};
pub use tagged::{TaggedField, TaggedFields};
pub use tags::{put_tags, take_tags};
pub use text::{
    LONGEST_STRING, put_compact_str, put_nullable_str, put_old_str, take_compact_str,
    take_nullable_str, take_old_str,
};
pub use varint::{put_varint, take_varint};
