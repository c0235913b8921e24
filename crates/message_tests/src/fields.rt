//! The fields of `flex_wire`: vectors worked out by hand from the protocol guide and KIP-482.

ghost use Rattle.std.specs.Prelude.{◌≤◌, ◌<◌, ◌+◌, ◌^◌, IfOk, length};
ghost use Rattle.std.specs.Option.{ForSome};
ghost use Rattle.flex_wire.specs.Spelling.{FitsTaggedFields};

use flex_wire::*;
use std::alloc::{AllocError, Global};
use std::fmt::Debug;
use std::test::Fail;
use test_support::frames::{bytes_of, put_hex};
use test_support::tables::{Answers, cut, number, wrong_rows};
use uuid::Uuid;

/// What is taken from bytes, and the bytes behind it; and the bytes that are put for a value.
const TABLE: &str = r#"
take varint 00 = 0 before -
take varint 0599 = 5 before 99
take varint 8001 = 128 before -
take varint ac0200 = 300 before 00
take varint ffffffff0f = 4294967295 before -
take varint - = Short
take varint 80 = Short
take varint 80808080 = Short
take varint 8000 = NotShortest
take varint 8080808000 = NotShortest
take varint 8080808010 = TooLong
take varint 808080808001 = TooLong

take compact_string 03686907 = "hi" before 07
take compact_string 01 = "" before -
take compact_string 8000 = NotShortest
take compact_string 0068 = BadCount
# lengths 32,768 and 32,767, both without a byte of the text
take compact_string 818002 = TooLong
take compact_string 808002 = Short
take compact_string 03ff = Short
take compact_string 02ff = NotUtf8

take nullable_string 0007 = None before 07
take nullable_string 0268 = Some("h") before -
take nullable_string 818002 = TooLong
take nullable_string 02 = Short
take nullable_string 02ff = NotUtf8

take old_string ffff07 = None before 07
take old_string 00026869 = Some("hi") before -
take old_string 00 = Short
take old_string fffe = BadCount
take old_string 8000 = BadCount
take old_string 7fff = Short
take old_string 0001ff = NotUtf8

take count 0107 = 0 before 07
take count 04 = 3 before -
take count 00 = BadCount
take count 8000 = NotShortest
take count - = Short
take nullable_count 0107 = Some(0) before 07
take nullable_count 04 = Some(3) before -
take nullable_count 00 = None before -
take nullable_count 8000 = NotShortest
take nullable_count - = Short

take mark ff07 = false before 07
take mark 01 = true before -
take mark 00 = BadMark
take mark 02 = BadMark
take mark - = Short

take uuid 000102030405060708090a0b0c0d0e0f10 = 00010203-0405-0607-0809-0a0b0c0d0e0f before 10
take uuid 000102030405060708090a0b0c0d0e = Short

take i16 fffe07 = -2 before 07
take i16 01 = Short
take i32 80000001 = -2147483647 before -
take i32 000001 = Short
take i64 7ffffffffffffffe = 9223372036854775806 before -
take i64 fffffffffffffe = Short

take tags 020002aabb80010007 = 2 fields, 0:aabb 128:- before 07
take tags 0007 = no fields, before 07
take tags - = Short
# 5 behind 5, and its size is not there: the order is judged first
take tags 02050005 = TagOrder
take tags 0205000400 = TagOrder
take tags 010502aa = Short
take tags 01058000 = NotShortest
# 2^32 - 1 fields, of which there is none: the count takes no memory
take_at_once tags ffffffff0f = Some(Short)

put varint 0 = 00
put varint 127 = 7f
put varint 300 = ac02
put varint 16384 = 808001
put varint 2097152 = 80808001
put varint 4294967295 = ffffffff0f
put compact_string hi = 036869
put nullable_string null = 00
put nullable_string h = 0268
put old_string null = ffff
put old_string hi = 00026869
put count 3 = 04
put nullable_count null = 00
put nullable_count 0 = 01
put mark false = ff
put mark true = 01
put uuid 000102030405060708090a0b0c0d0e0f = 000102030405060708090a0b0c0d0e0f
put i16 -2 = fffe
put i32 256 = 00000100
put i64 -3 = fffffffffffffffd
put tags none = 00
put tags 128:aa = 01800101aa

fault 1 = Short: the bytes end inside a field
fault 2 = NotShortest: a varint is longer than its number needs
fault 3 = TooLong: a varint or a text is too long
fault 4 = NotUtf8: a text is not UTF-8
fault 5 = TagOrder: the tags do not rise
fault 6 = BadCount: a length or a count is one that its field can't have
fault 7 = BadMark: a nullable struct begins with neither ff nor 01
fault 8 = NoMemory: out of memory
"#;

#[test]
fn spellings(rt: HostRuntime) -> Result<(), Fail> {
    let wrong = wrong_rows(rt.alloc(), &Fields, TABLE)?;
    assert_eq!(rt; wrong.as_str(), "");
    Ok(())
}

struct Fields;

impl Answers for Fields {
    fn answer(&self, alloc: Global, question: &str, out: &mut String) -> Result<(), AllocError> {
        let (call, words) = cut(question);
        let (field, value) = cut(words);
        match call {
            "take" => take(alloc, field, value, out),
            "take_at_once" => take_tags_at_once(alloc, value, out),
            "put" => put(alloc, field, value, out),
            _ => tell_numbered(number(field), out),
        }
    }
}

/// Tells what is taken from the bytes that a value spells in hex.
fn take(alloc: Global, field: &str, value: &str, out: &mut String) -> Result<(), AllocError> {
    let bytes = bytes_of(alloc, value.strip_prefix('-').unwrap_or(value))?;
    take_from(alloc, field, bytes.as_slice(), out)
}

fn take_from(alloc: Global, field: &str, bytes: &[u8], out: &mut String) -> Result<(), AllocError> {
    match field {
        "compact_string" => tell(take_compact_str(bytes), out),
        "nullable_string" => tell(take_nullable_str(bytes), out),
        "old_string" => tell(take_old_str(bytes), out),
        "mark" => tell(take_mark(bytes), out),
        "uuid" => take_uuid_from(bytes, out),
        "tags" => take_tags_from(alloc, bytes, out),
        _ => take_number(field, bytes, out),
    }
}

fn take_number(field: &str, bytes: &[u8], out: &mut String) -> Result<(), AllocError> {
    match field {
        "varint" => tell(take_varint(bytes), out),
        "count" => tell(take_count(bytes), out),
        "nullable_count" => tell(take_nullable_count(bytes), out),
        "i16" => tell(take_i16(bytes), out),
        "i32" => tell(take_i32(bytes), out),
        _ => tell(take_i64(bytes), out),
    }
}

/// Tells what was taken and the bytes behind it, or the fault.
fn tell<T: Debug + Drop>(
    taken: Result<(T, &[u8]), WireFault>,
    out: &mut String,
) -> Result<(), AllocError> {
    match taken {
        Ok((value, rest)) => tell_value(&value, rest, out),
        Err(fault) => write!(out, "{fault:?}"),
    }
}

fn tell_value<T: Debug>(value: &T, rest: &[u8], out: &mut String) -> Result<(), AllocError> {
    write!(out, "{value:?} before ")?;
    put_hex(out, rest)
}

fn take_uuid_from(bytes: &[u8], out: &mut String) -> Result<(), AllocError> {
    match take_uuid(bytes) {
        Ok((id, rest)) => tell_value(&id, rest, out),
        Err(fault) => write!(out, "{fault:?}"),
    }
}

/// Tells tagged fields and the bytes behind them, or the fault. Want of memory is for the table.
fn take_tags_from(alloc: Global, bytes: &[u8], out: &mut String) -> Result<(), AllocError> {
    match take_tags(alloc, bytes) {
        Ok((tags, rest)) => {
            tell_fields(&tags, out)?;
            out.push_str(" before ")?;
            put_hex(out, rest)
        }
        Err(WireFault::NoMemory) => Err(AllocError),
        Err(fault) => write!(out, "{fault:?}"),
    }
}

/// Tells the fault of the first try, whichever growth is refused.
fn take_tags_at_once(alloc: Global, value: &str, out: &mut String) -> Result<(), AllocError> {
    let bytes = bytes_of(alloc, value)?;
    write!(out, "{:?}", take_tags(alloc, bytes.as_slice()).err())
}

fn tell_fields(tags: &TaggedFields<'_>, out: &mut String) -> Result<(), AllocError> {
    if tags.is_empty() {
        return out.push_str("no fields,");
    }
    write!(out, "{} fields,", tags.len())?;
    for field in tags.as_slice() {
        write!(out, " {}:", field.tag)?;
        put_hex(out, field.value)?;
    }
    Ok(())
}

/// Tells the bytes that are put for a value.
fn put(alloc: Global, field: &str, value: &str, out: &mut String) -> Result<(), AllocError> {
    let mut bytes = Vec::new(alloc);
    put_field(alloc, field, value, &mut bytes)?;
    put_hex(out, bytes.as_slice())
}

fn put_field(
    alloc: Global,
    field: &str,
    value: &str,
    bytes: &mut Vec<u8>,
) -> Result<(), AllocError> {
    match field {
        "compact_string" => put_compact_str(bytes, short(value)),
        "nullable_string" => put_nullable_str(bytes, text(value)),
        "old_string" => put_old_str(bytes, text(value)),
        "mark" => put_mark(bytes, value == "true"),
        "uuid" => put_uuid(bytes, &Uuid::parse_str(value).unwrap_or(Uuid::nil())),
        "tags" => put_some_tags(alloc, value, bytes),
        _ => put_number(field, value, bytes),
    }
}

fn put_number(field: &str, value: &str, bytes: &mut Vec<u8>) -> Result<(), AllocError> {
    match field {
        "varint" => put_varint(bytes, number(value)),
        "count" => put_count(bytes, u32::from(count(value))),
        "nullable_count" => put_nullable_count(bytes, count_or_null(value)),
        "i16" => put_i16(bytes, number(value)),
        "i32" => put_i32(bytes, number(value)),
        _ => put_i64(bytes, number(value)),
    }
}

/// A text that isn't too long.
fn short(value: &str) -> &str
    ensures { length result.now ≤ LONGEST_STRING }
{
    if value.len() <= LONGEST_STRING {
        value
    } else {
        ""
    }
}

fn text(value: &str) -> Option<&str>
    ensures { ForSome result (λ t. length t.now ≤ LONGEST_STRING) }
{
    if value == "null" {
        return None;
    }
    Some(short(value))
}

fn count(value: &str) -> u16 {
    number(value)
}

fn count_or_null(value: &str) -> Option<u32>
    ensures { ForSome result (λ n. n + 1 < 2 ^ 32) }
{
    if value == "null" {
        return None;
    }
    Some(u32::from(count(value)))
}

/// Puts no tagged fields, or one that is built by hand.
fn put_some_tags(alloc: Global, value: &str, bytes: &mut Vec<u8>) -> Result<(), AllocError> {
    if value == "none" {
        return put_tags(bytes, &TaggedFields::new(alloc));
    }
    let tags = one_field(alloc)?;
    put_tags(bytes, &tags)
}

/// The tagged field with the tag 128 and the byte aa.
fn one_field(alloc: Global) -> Result<TaggedFields<'static>, AllocError>
    ensures { IfOk result FitsTaggedFields }
{
    let field = TaggedField {
        tag: 128,
        value: &[0xaa],
    };
    let mut fields = Vec::new(alloc);
    fields.push(field)?;
    Ok(TaggedFields::of_vec(fields))
}

/// Tells the fault with a number, and its text.
fn tell_numbered(number: u8, out: &mut String) -> Result<(), AllocError> {
    let faults = [
        WireFault::Short,
        WireFault::NotShortest,
        WireFault::TooLong,
        WireFault::NotUtf8,
        WireFault::TagOrder,
        WireFault::BadCount,
        WireFault::BadMark,
        WireFault::NoMemory,
    ];
    for fault in faults {
        if fault.number() == number {
            return write!(out, "{fault:?}: {fault}");
        }
    }
    Ok(())
}
