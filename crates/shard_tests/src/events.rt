//! Events that come to shards, and what is told of their answers.

use coord_shards::{
    AlwaysOpen, Answer, Answered, Event, Moment, Octets, Seat, Shards, Stamp, home,
};
use kip_msgs::{Api, Assignment, HeartbeatReply, Reply, read_reply};
use std::alloc::{AllocError, Global};
use std::sync::Wait;
use std::sync::ledger::Ledger;
use std::test::Fail;
use test_support::frames;
use test_support::frames::JOINED;
use test_support::tables::{Answers, cut, number, wrong_rows};
use topic_meta::{Image, TopicEntry};
use uuid::Uuid;

/// An event, a number of shards, and the shard that is its home: bytes of ids are `a` 97, `b` 98, `z` 122, `é` 195 and 169. And
/// whether the copy of an event is the same event.
const TABLE: &str = "
home 1 join a = 0
home 2 join b = 0
home 2 join ab = 1
home 64 join zz = 52
home 64 join é = 44
home 65 join zzz = 41
home 64 bad = 0
home 2 tick 1 = 1
home 64 tick 64 = 0
home 2 image 2 = 0
copy 1 join a = true
copy 1 bad = true
copy 1 tick = true
copy 1 image = true
";

#[test]
fn events_have_homes_and_are_copied(rt: HostRuntime) -> Result<(), Fail> {
    let wrong = wrong_rows(rt.alloc(), &Events, TABLE)?;
    assert_eq!(rt; wrong.as_str(), "");
    Ok(())
}

struct Events;

impl Answers for Events {
    fn answer(&self, alloc: Global, question: &str, out: &mut String) -> Result<(), AllocError> {
        let (call, words) = cut(question);
        let (shards, words) = cut(words);
        let event = event_of(alloc, 1, words)?;
        match (call, number(shards)) {
            ("copy", _) => put_is_copied(alloc, &event, out),
            (_, 0) => Ok(()),
            (_, shards) => write!(out, "{}", home(alloc, &event, shards)?),
        }
    }
}

fn put_is_copied(alloc: Global, event: &Event, out: &mut String) -> Result<(), AllocError> {
    let copy = event.copy(alloc)?;
    write!(out, "{}", event.equals(&copy))
}

/// What words say: a tick or an image for a shard, with its moment or with how many partitions it has; the join of a group, or a
/// frame that can't be read, with the number of its stamp.
pub fn event_of(alloc: Global, frame: u64, words: &str) -> Result<Event, AllocError> {
    let (verb, words) = cut(words);
    let (first, second) = cut(words);
    match verb {
        "tick" => Ok(Event::Tick {
            shard: number(first),
            moment: Moment::of_millis(number(second)),
        }),
        "image" => Ok(Event::Image {
            shard: number(first),
            image: image_of(alloc, number(second))?,
        }),
        _ => Ok(frame_of(body_of(alloc, first)?, 1, frame)),
    }
}

/// An image of a topic `t` of `count` partitions, or of no topic where `count` isn't above 0.
fn image_of(alloc: Global, count: i32) -> Result<Image, AllocError> {
    let mut topics = Vec::new(alloc);
    if count > 0 {
        topics.push(TopicEntry {
            name: String::from_str(alloc, "t")?,
            id: Uuid::from_bytes([0x11; 16]),
            count,
        })?;
    }
    Image::of(alloc, topics).map_err(|_| AllocError)
}

/// A frame that comes at 0 ms.
fn frame_of(body: Vec<u8>, connection: u64, frame: u64) -> Event {
    Event::Frame {
        body: Octets::of(body),
        stamp: Stamp { connection, frame },
        moment: Moment::of_millis(0),
    }
}

/// "Request Header v2" with API key 68, version 0, correlation id 7 and no client id.
const HEADER: &[u8] = b"\x00\x44\x00\x00\x00\x00\x00\x07\xff\xff\x00";

/// The fields of a join behind the group id: no member id, epoch 0, no instance id, no rack, a rebalance timeout of
/// 60,000 ms, topic `t`, no assignor, no partitions that it owns, no tagged fields.
const JOIN: &[u8] = b"\x01\x00\x00\x00\x00\x00\x00\x00\x00\xea\x60\x02\x02t\x00\x01\x00";

/// The same for a heartbeat behind the member epoch, where only the timeout isn't null: it is -1.
const BEAT: &[u8] = b"\x00\x00\xff\xff\xff\xff\x00\x00\x00\x00";

/// The body of a join of a group, whose id has at most 126 bytes, or where it has none of a frame that can't be read.
pub fn body_of(alloc: Global, group: &str) -> Result<Vec<u8>, AllocError> {
    if group.is_empty() {
        return Vec::from_elem(alloc, 0xff, 3);
    }
    let mut body = Vec::new(alloc);
    body.extend_from_slice(HEADER)?;
    put_text(&mut body, group)?;
    body.extend_from_slice(JOIN)?;
    Ok(body)
}

/// The body of a heartbeat of a member of a group, which says nothing but its epoch.
pub fn beat_body(
    alloc: Global,
    group: &str,
    member: &str,
    epoch: i32,
) -> Result<Vec<u8>, AllocError> {
    let mut body = Vec::new(alloc);
    body.extend_from_slice(HEADER)?;
    put_text(&mut body, group)?;
    put_text(&mut body, member)?;
    body.extend_from_slice(&epoch.to_be_bytes())?;
    body.extend_from_slice(BEAT)?;
    Ok(body)
}

/// Appends a text of at most 126 bytes (KIP-482, COMPACT_STRING).
fn put_text(body: &mut Vec<u8>, text: &str) -> Result<(), AllocError> {
    let len = u8::try_from(text.len()).unwrap_or(0);
    body.push(len.saturating_add(1))?;
    body.extend_from_slice(text.as_bytes())
}

/// Sends the body of a frame from a seat, at 0 ms, as a server does.
pub fn ask<A: Ledger, C: Ledger, R: Wait>(
    rt: &R,
    alloc: Global,
    shards: &Shards<A, C, AlwaysOpen>,
    seat: &mut Seat<C>,
    body: &[u8],
    stamp: Stamp,
) -> Answer {
    let (moment, mut out) = (Moment::of_millis(0), Vec::new(alloc));
    match shards.answer(rt, alloc, seat, body, stamp, moment, &mut out) {
        Ok(Answered::Replied) => Answer::Replied(Octets::of(out)),
        Ok(Answered::Closes) => Answer::Closes,
        Err(_) => Answer::Refused,
    }
}

/// Calls the shards from a seat for a frame that comes at 0 ms.
pub fn call<A: Ledger, C: Ledger, R: Wait>(
    rt: &R,
    alloc: Global,
    shards: &Shards<A, C, AlwaysOpen>,
    seat: &mut Seat<C>,
    body: Vec<u8>,
    stamp: Stamp,
) -> Answer {
    shards.call(
        rt,
        alloc,
        seat,
        frame_of(body, stamp.connection, stamp.frame),
    )
}

/// Appends what an answer is: `joined` where its bytes are those of the worked reply to a first join, `CODE@EPOCH:SHOWN` of another
/// reply to a heartbeat, `closes`, `done:N` or `refused`.
pub fn put_answer(alloc: Global, answer: &Answer, out: &mut String) -> Result<(), AllocError> {
    match answer {
        Answer::Replied(frame) => put_reply(alloc, frame.as_slice(), out),
        Answer::Closes => out.push_str("closes"),
        Answer::Done(count) => write!(out, "done:{count}"),
        Answer::Refused => out.push_str("refused"),
    }
}

fn put_reply(alloc: Global, frame: &[u8], out: &mut String) -> Result<(), AllocError> {
    if frame == frames::frame_of(alloc, JOINED)?.as_slice() {
        return out.push_str("joined");
    }
    let body = frame.get(4..).unwrap_or(&[]);
    match read_reply(alloc, Api::Heartbeat, body) {
        Ok(reply) => put_fields(&reply, out),
        Err(_) => Err(AllocError),
    }
}

fn put_fields(reply: &Reply<'_>, out: &mut String) -> Result<(), AllocError> {
    match reply {
        Reply::Heartbeat(_, reply) => {
            let shown = shown(reply);
            write!(out, "{}@{}:{shown}", reply.error_code, reply.member_epoch)
        }
        Reply::Commit(_, _) => out.push('?'),
    }
}

/// How many partitions a reply shows.
fn shown(reply: &HeartbeatReply<'_>) -> usize {
    match &reply.assignment {
        Some(assignment) => assigned(assignment),
        None => 0,
    }
}

fn assigned(assignment: &Assignment<'_>) -> usize {
    let mut count = 0usize;
    for topic in assignment.topic_partitions.as_slice() {
        count = count.saturating_add(topic.partitions.as_slice().len());
    }
    count
}
