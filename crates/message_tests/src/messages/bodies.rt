//! Whole bodies in hex, each line with what it spells.

/// A heartbeat with every field but the names, and tagged fields in the header, a topic and the
/// message.
pub(super) const FULL_HEARTBEAT: &str = r#"
00440000 | key 68, version 0
00000100 | correlation id 256
000163 | client "c"
010502aabb | tag 5: aa bb
0267 | group "g"
026d | member "m"
fffffffe | epoch -2
0269 | instance "i"
0272 | rack "r"
ffffffff | timeout -1
00 | no names
0672616e6765 | assignor "range"
02 | one topic
2222222222222222 | its id
2222222222222222
0300000003ffffffff | indexes 3 and -1
010701cc | tag 7: cc
020000 | tag 0: nothing
800101dd | tag 128: dd
"#;

/// A reply to a heartbeat with every field, and tagged fields in the header, a topic, the assignment
/// and the message.
pub(super) const FULL_HEARTBEAT_REPLY: &str = r#"
0000000a | correlation id 10
010101ee | tag 1: ee
00000064 | throttle time 100 ms
ffff | error -1
036f6b | message "ok"
026d | member "m"
00000005 | epoch 5
00001388 | interval 5,000 ms
01 | an assignment
02 | one topic
2222222222222222 | its id
2222222222222222
0200000007 | index 7
010701cc | tag 7: cc
010200 | the assignment's tag 2: nothing
0109020102 | tag 9: 01 02
"#;

/// A commit with every field, two topics, and tagged fields in the header, a partition, a topic and
/// the message.
pub(super) const FULL_COMMIT: &str = r#"
00080009 | key 8, version 9
00000101 | correlation id 257
000163 | client "c"
010501aa | tag 5: aa
0267 | group "g"
ffffffff | epoch -1
026d | member "m"
0269 | instance "i"
03 | two topics
0274 | "t"
03 | two partitions
00000000 | index 0
0000000000000005 | offset 5
00000002 | leader epoch 2
036f6b | metadata "ok"
010301bb | tag 3: bb
00000001 | index 1
ffffffffffffffff | offset -1
ffffffff | leader epoch -1
00 | no metadata
00 | no tagged fields
010400 | the topic's tag 4: nothing
0275 | "u"
01 | no partition
00 | no tagged fields
01800101dd | tag 128: dd
"#;

/// A reply to a commit with tagged fields in the header, a partition, a topic and the message.
pub(super) const FULL_COMMIT_REPLY: &str = r#"
0000000b | correlation id 11
010100 | tag 1: nothing
00000000 | throttle time
02 | one topic
0274 | "t"
02 | one partition
00000003 | index 3
0071 | error 113
010601ff | tag 6: ff
010800 | the topic's tag 8: nothing
010a0177 | tag 10: 77
"#;

/// The join up to the number of its names, 2^32 - 2, of which there is none.
pub(super) const UNNAMED: &str = r#"
00440000 | key 68, version 0
00000007 | correlation id
ffff | no client id
00 | no tagged fields
0267 | group "g"
01 | member ""
00000000 | epoch
00 | no instance
00 | no rack
0000ea60 | 60,000 ms
ffffffff0f | the number of names and one
"#;
