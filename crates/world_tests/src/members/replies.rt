//! Bodies of replies to heartbeats, put together field by field ("Response Header v1" and "ConsumerGroupHeartbeat Response v0"
//! of the Kafka protocol guide).

use std::alloc::{AllocError, Global};
use test_support::tables::{cut, number};

/// The body that words say: the request's number, the error code, the member id, the member epoch, and the assignment. That is
/// `null`, `-`, indexes of the topic whose id is sixteen bytes 0x11, or `many`.
pub fn reply_of(alloc: Global, words: &str) -> Result<Vec<u8>, AllocError> {
    let (correlation, words) = cut(words);
    let (code, words) = cut(words);
    let (id, words) = cut(words);
    let (epoch, shown) = cut(words);
    let mut body = Vec::new(alloc);
    put_number(&mut body, correlation)?;
    // no tagged fields, and a throttle of 0
    body.extend_from_slice(&[0; 5])?;
    put_code(&mut body, number(code))?;
    put_id(&mut body, id)?;
    put_number(&mut body, epoch)?;
    // an interval of 5,000 ms
    body.extend_from_slice(b"\x00\x00\x13\x88")?;
    put_shown(&mut body, shown)?;
    // no tagged fields
    body.push(0)?;
    Ok(body)
}

/// Puts an INT32.
fn put_number(body: &mut Vec<u8>, word: &str) -> Result<(), AllocError> {
    let number: i32 = number(word);
    body.extend_from_slice(&number.to_be_bytes())
}

/// Puts an error code, and its text where it is one: `no`.
fn put_code(body: &mut Vec<u8>, code: i16) -> Result<(), AllocError> {
    body.extend_from_slice(&code.to_be_bytes())?;
    let text: &[u8] = if code == 0 { b"\x00" } else { b"\x03no" };
    body.extend_from_slice(text)
}

/// Puts a text of one byte, or null.
fn put_id(body: &mut Vec<u8>, id: &str) -> Result<(), AllocError> {
    if id == "-" {
        return body.extend_from_slice(b"\x00");
    }
    body.extend_from_slice(b"\x02")?;
    body.extend_from_slice(id.as_bytes())
}

/// Puts an assignment.
fn put_shown(body: &mut Vec<u8>, shown: &str) -> Result<(), AllocError> {
    match shown {
        "null" => body.extend_from_slice(b"\xff"),
        "-" => body.extend_from_slice(b"\x01\x01\x00"),
        "many" => put_many(body),
        indexes => put_indexes(body, indexes),
    }
}

/// Puts an assignment of fewer than ten partitions of one topic.
fn put_indexes(body: &mut Vec<u8>, indexes: &str) -> Result<(), AllocError> {
    body.extend_from_slice(b"\x01\x02")?;
    body.extend_from_slice(&[0x11; 16])?;
    // each index has one digit, and they are parted by commas
    let count = indexes.len() / 2 + 2;
    body.extend_from_slice(&[(count & 0x7f) as u8])?;
    for index in indexes.split(',') {
        put_number(body, index)?;
    }
    body.extend_from_slice(b"\x00\x00")
}

/// Puts an assignment of 27 topics of 1,000 partitions.
fn put_many(body: &mut Vec<u8>) -> Result<(), AllocError> {
    body.extend_from_slice(b"\x01\x1c")?;
    for topic in 0x11..0x2c {
        put_topic(body, topic)?;
    }
    body.push(0)?;
    Ok(())
}

/// Puts 1,000 partitions of the topic whose id is sixteen times this byte.
fn put_topic(body: &mut Vec<u8>, topic: u8) -> Result<(), AllocError> {
    body.extend_from_slice(&[topic; 16])?;
    body.extend_from_slice(b"\xe9\x07")?;
    for index in 0..1_000i32 {
        body.extend_from_slice(&index.to_be_bytes())?;
    }
    body.push(0)?;
    Ok(())
}
