//! Bytes as text, and frames that were worked out by hand from the Kafka protocol guide and KIP-848.
//!
//! The requests are those of one group over a topic `t` of two partitions, whose id is sixteen bytes 0x11, where the salt is 0.
//! Each stands here as the body of its frame, line by line with what the bytes spell.

use std::alloc::{AllocError, Global};

/// A join of group `g` that names topic `t`, and says nothing else.
pub const JOIN: &str = r#"
00440000 | key 68, version 0
00000007 | correlation id
ffff | no client id
00 | no tagged fields
0267 | group "g"
01 | member ""
00000000 | epoch
00 | no instance
00 | no rack
0000ea60 | 60,000 ms
020274 | one name, "t"
00 | no assignor
01 | owns nothing
00 | no tagged fields
"#;

/// The reply to the first join: its member is given both partitions.
pub const JOINED: &str = r#"
00000007 | correlation id
00 | no tagged fields
00000000 | throttle time
0000 | no error
00 | no message
ID1 | the member's id, of serial 1
00000001 | epoch 1
00001388 | interval 5,000 ms
01 | an assignment
02 | one topic
T | its id
030000000000000001 | indexes 0 and 1
00 | no tagged fields in the topic
00 | nor in the assignment
00 | nor in the message
"#;

/// The reply to the same join beside that member: a second one, which has to wait for its partition.
pub const JOINED_SECOND: &str = r#"
00000007 | correlation id
00 | no tagged fields
00000000 | throttle time
0000 | no error
00 | no message
ID2 | the member's id, of serial 2
00000002 | epoch 2
00001388 | interval 5,000 ms
01 | an assignment
01 | no topic
00 | no tagged fields in the assignment
00 | nor in the message
"#;

/// A heartbeat of a member `x` of the group at epoch 3, which isn't there. It says nothing else.
pub const STRANGER: &str = r#"
00440000 | key 68, version 0
00000009 | correlation id
ffff | no client id
00 | no tagged fields
0267 | group "g"
0278 | member "x"
00000003 | epoch
00 | no instance
00 | no rack
ffffffff | timeout -1
00 | no names
00 | no assignor
00 | nothing of what it owns
00 | no tagged fields
"#;

/// The reply to it.
pub const UNKNOWN: &str = r#"
00000009 | correlation id
00 | no tagged fields
00000000 | throttle time
0019 | error 25
0f756e6b6e6f776e | "unknown
206d656d626572 | member"
00 | no member id
00000000 | epoch
00000000 | interval
ff | no assignment
00 | no tagged fields
"#;

/// A commit of offset 5 for partition 1 of topic `t` by the first member at epoch 2.
pub const COMMIT: &str = r#"
00080009 | key 8, version 9
00000008 | correlation id
ffff | no client id
00 | no tagged fields
0267 | group "g"
00000002 | epoch 2
ID1 | the member's id, of serial 1
00 | no instance
020274 | one topic, "t"
0200000001 | one partition, index 1
0000000000000005 | offset 5
ffffffff | leader epoch -1
00 | no metadata
00 | no tagged fields in the partition
00 | nor in the topic
00 | nor in the message
"#;

/// The reply to it: the offset was taken.
pub const TAKEN: &str = r#"
00000008 | correlation id
00 | no tagged fields
00000000 | throttle time
020274 | one topic, "t"
0200000001 | one partition, index 1
0000 | no error
00 | no tagged fields in the partition
00 | nor in the topic
00 | nor in the message
"#;

/// Words that stand for bytes: the ids that the node makes of the serials 1 and 2, each as a compact string, and the id of the topic.
const WORDS: [(&str, &[u8]); 3] = [
    ("ID1", b"\x2500000000-0000-0000-0000-000000000001"),
    ("ID2", b"\x2500000000-0000-0000-0000-000000000002"),
    ("T", &[0x11; 16]),
];

/// The bytes of words of hex, and of `ID1`, `ID2` and `T`. What stands behind a `|`, up to the end of the line, is a comment.
pub fn bytes_of(alloc: Global, text: &str) -> Result<Vec<u8>, AllocError> {
    let mut bytes = Vec::new(alloc);
    for line in text.lines() {
        let (words, _comment) = line.split_once('|').unwrap_or((line, ""));
        for word in words.split_whitespace() {
            put_word(alloc, &mut bytes, word)?;
        }
    }
    Ok(bytes)
}

/// Appends the bytes of a word.
fn put_word(alloc: Global, bytes: &mut Vec<u8>, word: &str) -> Result<(), AllocError> {
    if let Some((_, part)) = WORDS.iter().find(|(name, _)| *name == word) {
        return bytes.extend_from_slice(part);
    }
    let part = hex::decode(alloc, word).map_err(|_| AllocError)?;
    bytes.extend_from_slice(part.as_slice())
}

/// The frame of a body whose bytes these words are: its size, and the bytes.
pub fn frame_of(alloc: Global, text: &str) -> Result<Vec<u8>, AllocError> {
    let body = bytes_of(alloc, text)?;
    let size = u32::try_from(body.len()).unwrap_or(0);
    let mut frame = Vec::new(alloc);
    frame.extend_from_slice(&size.to_be_bytes())?;
    frame.extend_from_slice(body.as_slice())?;
    Ok(frame)
}

/// Appends bytes in hex, or `-` where there are none.
pub fn put_hex(out: &mut String, bytes: &[u8]) -> Result<(), AllocError> {
    if bytes.is_empty() {
        return out.push('-');
    }
    for byte in bytes {
        write!(out, "{byte:02x}")?;
    }
    Ok(())
}
