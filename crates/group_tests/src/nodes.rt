//! Frames at a node, and replies worked out by hand from the Kafka protocol guide and KIP-848.
//!
//! Where a growth is refused nothing may have changed. Sent once more, a frame has the bytes that are wanted; left out, it leaves the
//! members' deadlines as they were. What a group shows of itself is looked at right behind the refusal: its epoch and its target's,
//! its members with their epochs, targets and grants, and who is remembered. A stamp that was noted already would refuse the second
//! try. Of offsets a group shows nothing; they are looked at where they are kept, in the table of offsets.

use crate::groups::{image_of, tell_group, tell_member};
use crate::restored::rebuilt;
use coord_node::{Moment, Node, NodeEvent, Stamp};
use std::alloc::{AllocError, Global};
use std::collections::VecDeque;
use std::collections::hash_map::RandomState;
use std::test::Fail;
use test_support::frames::{JOIN, JOINED, JOINED_SECOND, bytes_of, frame_of, put_hex};

const IDS: [&str; 2] = [
    "00000000-0000-0000-0000-000000000001",
    "00000000-0000-0000-0000-000000000002",
];

/// A frame that comes to a node, and what comes of it. Bytes are hex, and words that stand for bytes.
struct Step {
    name: &'static str,
    /// The number of the frame on its connection, and the moment at which it comes, in milliseconds.
    frame: u64,
    now: u64,
    /// The frame without its size.
    body: &'static str,
    /// The frame that answers it, or nothing where the connection closes.
    reply: &'static str,
    /// When the members' sessions then end, in milliseconds: each lasts 45,000 ms from the member's last heartbeat.
    ends: &'static [u64],
}

/// Two members share a topic: the first releases what the second is granted, and commits an offset of the rest.
const SHARED: &[Step] = &[
    Step {
        name: "the first join",
        frame: 1,
        now: 0,
        body: "0044 0000 00000007 ffff 00 0267 01 00000000 00 00 0000ea60 02 0274 00 01 00",
        reply: "00000057 00000007 00 00000000 0000 00 ID1 00000001 00001388 01 02 T 03 00000000 00000001 00 00 00",
        ends: &[45_000],
    },
    Step {
        name: "the second member's join",
        frame: 2,
        now: 1_000,
        body: "0044 0000 00000007 ffff 00 0267 01 00000000 00 00 0000ea60 02 0274 00 01 00",
        reply: "0000003d 00000007 00 00000000 0000 00 ID2 00000002 00001388 01 01 00 00",
        ends: &[45_000, 46_000],
    },
    Step {
        name: "the first is shown what it keeps",
        frame: 3,
        now: 2_000,
        body: "0044 0000 00000007 ffff 00 0267 ID1 00000001 00 00 ffffffff 00 00 00 00",
        reply: "00000053 00000007 00 00000000 0000 00 ID1 00000001 00001388 01 02 T 02 00000001 00 00 00",
        ends: &[46_000, 47_000],
    },
    Step {
        name: "the first releases the other",
        frame: 4,
        now: 3_000,
        body: "0044 0000 00000007 ffff 00 0267 ID1 00000001 00 00 ffffffff 00 00 02 T 02 00000001 00 00",
        reply: "0000003b 00000007 00 00000000 0000 00 ID1 00000002 00001388 ff 00",
        ends: &[46_000, 48_000],
    },
    Step {
        name: "the second is granted it",
        frame: 5,
        now: 4_000,
        body: "0044 0000 00000007 ffff 00 0267 ID2 00000002 00 00 ffffffff 00 00 00 00",
        reply: "00000053 00000007 00 00000000 0000 00 ID2 00000002 00001388 01 02 T 02 00000000 00 00 00",
        ends: &[48_000, 49_000],
    },
    Step {
        name: "the first commits, which is no heartbeat",
        frame: 6,
        now: 5_000,
        body: "0008 0009 00000008 ffff 00 0267 00000002 ID1 00 02 0274 02 00000001 0000000000000005 ffffffff 00 00 00 00",
        reply: "00000016 00000008 00 00000000 02 0274 02 00000001 0000 00 00 00",
        ends: &[48_000, 49_000],
    },
];

/// A static member goes away, and another id takes its place over. The former id is remembered with the stamp of its last
/// heartbeat, not with that of the take-over.
const TAKEN_OVER: &[Step] = &[
    Step {
        name: "a static member joins",
        frame: 1,
        now: 0,
        body: "0044 0000 00000007 ffff 00 0267 01 00000000 03 6931 00 0000ea60 02 0274 00 01 00",
        reply: "00000057 00000007 00 00000000 0000 00 ID1 00000001 00001388 01 02 T 03 00000000 00000001 00 00 00",
        ends: &[45_000],
    },
    Step {
        name: "it goes away",
        frame: 2,
        now: 1_000,
        body: "0044 0000 00000007 ffff 00 0267 ID1 fffffffe 03 6931 00 ffffffff 00 00 00 00",
        reply: "0000003b 00000007 00 00000000 0000 00 ID1 fffffffe 00000000 ff 00",
        ends: &[46_000],
    },
    Step {
        name: "a join with its instance takes its place over",
        frame: 3,
        now: 2_000,
        body: "0044 0000 00000007 ffff 00 0267 01 00000000 03 6931 00 0000ea60 02 0274 00 01 00",
        reply: "00000057 00000007 00 00000000 0000 00 ID2 00000001 00001388 01 02 T 03 00000000 00000001 00 00 00",
        ends: &[47_000],
    },
    Step {
        name: "a join under the former id that isn't later than its last heartbeat",
        frame: 2,
        now: 3_000,
        body: "0044 0000 00000007 ffff 00 0267 ID1 00000000 00 00 0000ea60 02 0274 00 01 00",
        reply: "",
        ends: &[47_000],
    },
    Step {
        name: "a join under the former id that is later",
        frame: 3,
        now: 4_000,
        body: "0044 0000 00000007 ffff 00 0267 ID1 00000000 00 00 0000ea60 02 0274 00 01 00",
        reply: "0000003d 00000007 00 00000000 0000 00 ID1 00000002 00001388 01 01 00 00",
        ends: &[47_000, 49_000],
    },
];

/// Requests of a group that isn't there, which they don't make.
const ABSENT: &[Step] = &[
    Step {
        name: "a commit",
        frame: 1,
        now: 0,
        body: "0008 0009 00000008 ffff 00 0267 00000001 ID1 00 02 0274 02 00000001 0000000000000005 ffffffff 00 00 00 00",
        reply: "00000016 00000008 00 00000000 02 0274 02 00000001 0045 00 00 00",
        ends: &[],
    },
    Step {
        name: "a join that names no topics",
        frame: 2,
        now: 0,
        body: "0044 0000 00000007 ffff 00 0267 01 00000000 00 00 0000ea60 00 00 01 00",
        reply: "00000026 00000007 00 00000000 002a 10 696e76616c69642072657175657374 00 00000000 00000000 ff 00",
        ends: &[],
    },
];

/// What is done where a growth is refused.
#[derive(Clone, Copy)]
enum Refused {
    SendAgain,
    /// Nothing is sent any more, and time passes.
    LetTimePass,
}

#[test]
fn frames_are_answered(rt: HostRuntime) -> Result<(), Fail> {
    let wrong = wrong_steps_twice(rt.alloc(), RandomState::new(&rt)?, Refused::SendAgain)?;
    assert_eq!(rt; wrong.as_str(), "");
    Ok(())
}

#[test]
fn deadlines_stay_where_a_growth_is_refused(rt: HostRuntime) -> Result<(), Fail> {
    let wrong = wrong_steps_twice(rt.alloc(), RandomState::new(&rt)?, Refused::LetTimePass)?;
    assert_eq!(rt; wrong.as_str(), "");
    Ok(())
}

/// The steps that are answered otherwise; looked at once more where a growth of the test itself is refused.
fn wrong_steps_twice(
    alloc: Global,
    hasher: RandomState,
    refused: Refused,
) -> Result<String, AllocError> {
    wrong_steps(alloc, hasher, refused).or_else(|_| wrong_steps(alloc, hasher, refused))
}

/// The steps that are answered otherwise, each with its answer.
fn wrong_steps(alloc: Global, hasher: RandomState, refused: Refused) -> Result<String, AllocError> {
    let mut wrong = String::new(alloc);
    for steps in [SHARED, TAKEN_OVER, ABSENT] {
        take_steps(alloc, hasher, steps, refused, &mut wrong)?;
    }
    Ok(wrong)
}

/// Sends the frames to a new node, up to the first that isn't answered, and lets time pass.
fn take_steps(
    alloc: Global,
    hasher: RandomState,
    steps: &[Step],
    refused: Refused,
    wrong: &mut String,
) -> Result<(), AllocError> {
    let mut node = node_over(alloc, hasher)?;
    send_all(alloc, &mut node, steps, refused, wrong)
}

fn send_all(
    alloc: Global,
    node: &mut Node,
    steps: &[Step],
    refused: Refused,
    wrong: &mut String,
) -> Result<(), AllocError> {
    let mut ends: &[u64] = &[];
    for step in steps {
        if !is_taken(alloc, node, step, refused, wrong)? {
            break;
        }
        ends = step.ends;
    }
    pass_time(node, ends, wrong)
}

/// Lets time pass: a member is removed where its session ends, and not before, and then none is left.
fn pass_time(node: &mut Node, ends: &[u64], wrong: &mut String) -> Result<(), AllocError> {
    for end in ends {
        look_at_tick(node, end.saturating_sub(1), 0, wrong)?;
        look_at_tick(node, *end, 1, wrong)?;
    }
    look_at_tick(node, 1_000_000, 0, wrong)
}

/// Looks how many members a tick removes.
fn look_at_tick(
    node: &mut Node,
    millis: u64,
    wanted: usize,
    wrong: &mut String,
) -> Result<(), AllocError> {
    let removed = node.tick(Moment::of_millis(millis));
    if removed == wanted {
        return Ok(());
    }
    writeln!(wrong, "a tick at {millis} removes {removed}")
}

/// Whether a frame was answered, and not refused for good. Tells an answer that isn't the one that is wanted.
fn is_taken(
    alloc: Global,
    node: &mut Node,
    step: &Step,
    refused: Refused,
    wrong: &mut String,
) -> Result<bool, AllocError> {
    let frame = frame_in(alloc, step)?;
    let mut out = Vec::new(alloc);
    if !is_answered(alloc, node, &frame, refused, &mut out, wrong)? {
        return Ok(false);
    }
    look_at_reply(alloc, step, out.as_slice(), wrong)?;
    Ok(true)
}

/// Tells a reply that isn't the one that is wanted.
fn look_at_reply(
    alloc: Global,
    step: &Step,
    out: &[u8],
    wrong: &mut String,
) -> Result<(), AllocError> {
    let reply = bytes_of(alloc, step.reply)?;
    if out == reply.as_slice() {
        return Ok(());
    }
    write!(wrong, "{}: ", step.name)?;
    put_hex(wrong, out)?;
    wrong.push('\n')
}

/// A frame without its size, and the stamp and the moment with which it comes.
#[derive(Drop)]
struct Frame {
    body: Vec<u8>,
    stamp: Stamp,
    now: Moment,
}

fn frame_in(alloc: Global, step: &Step) -> Result<Frame, AllocError> {
    Ok(Frame {
        body: bytes_of(alloc, step.body)?,
        stamp: stamp(step.frame),
        now: Moment::of_millis(step.now),
    })
}

fn stamp(frame: u64) -> Stamp {
    Stamp {
        connection: 1,
        frame,
    }
}

/// Sends a frame. Where a growth is refused nothing may have changed, and it is sent once more or never again.
fn is_answered(
    alloc: Global,
    node: &mut Node,
    frame: &Frame,
    refused: Refused,
    out: &mut Vec<u8>,
    wrong: &mut String,
) -> Result<bool, AllocError> {
    let before = told(alloc, node)?;
    if send(node, frame, out).is_ok() {
        return Ok(true);
    }
    if !out.is_empty() || told(alloc, node)? != before {
        wrong.push_str("a refused growth has changed the node\n")?;
    }
    match refused {
        Refused::SendAgain => {
            send(node, frame, out)?;
            Ok(true)
        }
        Refused::LetTimePass => Ok(false),
    }
}

fn send(node: &mut Node, frame: &Frame, out: &mut Vec<u8>) -> Result<(), AllocError> {
    node.answer(frame.body.as_slice(), frame.stamp, frame.now, out)?;
    Ok(())
}

/// What the node's group is, with its members.
fn told(alloc: Global, node: &Node) -> Result<String, AllocError> {
    let mut text = String::new(alloc);
    if let Some(group) = node.group("g") {
        tell_group(group, &mut text)?;
        for id in IDS {
            text.push(' ')?;
            tell_member(group, id, &mut text)?;
        }
    }
    Ok(text)
}

/// A node with no groups over the topic `t` of two partitions.
fn node_over(alloc: Global, hasher: RandomState) -> Result<Node, AllocError> {
    let mut node = Node::new(alloc, 0, hasher);
    node.set_image(image_of(alloc, 2)?);
    Ok(node)
}

#[test]
fn a_node_that_is_built_anew_answers_alike(rt: HostRuntime) -> Result<(), Fail> {
    let alloc = rt.alloc();
    let hasher = RandomState::new(&rt)?;
    let wrong = wrong_rebuilt(alloc, hasher).or_else(|_| wrong_rebuilt(alloc, hasher))?;
    assert_eq!(rt; wrong.as_str(), "");
    Ok(())
}

/// The steps that are answered otherwise where the node is built anew of what is read of it before each of them.
fn wrong_rebuilt(alloc: Global, hasher: RandomState) -> Result<String, AllocError> {
    let mut wrong = String::new(alloc);
    for steps in [SHARED, TAKEN_OVER] {
        take_rebuilt(alloc, hasher, steps, &mut wrong)?;
    }
    Ok(wrong)
}

fn take_rebuilt(
    alloc: Global,
    hasher: RandomState,
    steps: &[Step],
    wrong: &mut String,
) -> Result<(), AllocError> {
    let mut node = node_over(alloc, hasher)?;
    let mut ends: &[u64] = &[];
    for step in steps {
        let Some(new) = rebuilt(alloc, hasher, &node)? else {
            return wrong.push_str("refused\n");
        };
        node = new;
        is_taken(alloc, &mut node, step, Refused::SendAgain, wrong)?;
        ends = step.ends;
    }
    pass_time(&mut node, ends, wrong)
}

#[test]
fn the_longest_body_is_answered(rt: HostRuntime) -> Result<(), Fail> {
    let alloc = rt.alloc();
    let hasher = RandomState::new(&rt)?;
    assert!(rt; is_longest(alloc, hasher).or_else(|_| is_longest(alloc, hasher))?);
    Ok(())
}

/// Whether the join with one tagged field of 8,388,573 bytes in its header, which is the longest body, gets the reply of
/// the join, and a body of one byte more closes.
fn is_longest(alloc: Global, hasher: RandomState) -> Result<bool, AllocError> {
    let mut body = padded_join(alloc)?;
    let fits = body.len() == 8_388_608
        && replies(alloc, hasher, body.as_slice())? == frame_of(alloc, JOINED)?;
    body.push(0)?;
    Ok(fits && replies(alloc, hasher, body.as_slice())?.is_empty())
}

/// The join with one tagged field in its header, in place of none.
fn padded_join(alloc: Global) -> Result<Vec<u8>, AllocError> {
    let join = bytes_of(alloc, JOIN)?;
    let padding = Vec::from_elem(alloc, 0u8, 8_388_573)?;
    let mut body = Vec::new(alloc);
    body.extend_from_slice(join.get(..10).unwrap_or(&[]))?;
    body.extend_from_slice(b"\x01\x00\xdd\xff\xff\x03")?;
    body.extend_from_slice(padding.as_slice())?;
    body.extend_from_slice(join.get(11..).unwrap_or(&[]))?;
    Ok(body)
}

/// What a new node appends for a body.
fn replies(alloc: Global, hasher: RandomState, body: &[u8]) -> Result<Vec<u8>, AllocError> {
    let mut node = node_over(alloc, hasher)?;
    reply(alloc, &mut node, body)
}

/// What a node appends for a body. Where a growth is refused the body comes once more.
fn reply(alloc: Global, node: &mut Node, body: &[u8]) -> Result<Vec<u8>, AllocError> {
    let (stamp, now) = (stamp(1), Moment::of_millis(0));
    let mut out = Vec::new(alloc);
    if node.answer(body, stamp, now, &mut out).is_err() {
        node.answer(body, stamp, now, &mut out)?;
    }
    Ok(out)
}

#[test]
fn events_are_taken_in_their_order(rt: HostRuntime) -> Result<(), Fail> {
    let alloc = rt.alloc();
    let hasher = RandomState::new(&rt)?;
    assert!(rt; are_taken(alloc, hasher).or_else(|_| are_taken(alloc, hasher))?);
    Ok(())
}

/// Whether a node takes all events, appends both replies, and remembers the first member alone of those that are asked for.
fn are_taken(alloc: Global, hasher: RandomState) -> Result<bool, AllocError> {
    let mut node = Node::new(alloc, 0, hasher);
    let is_answered = answers_both(alloc, &mut node);
    Ok(
        is_answered?
            && node.remembers("g", IDS[0])
            && !node.remembers("g", "x")
            && !node.remembers("h", IDS[0]),
    )
}

fn answers_both(alloc: Global, node: &mut Node) -> Result<bool, AllocError> {
    let out = run(alloc, node)?;
    let (first, second) = (frame_of(alloc, JOINED)?, frame_of(alloc, JOINED_SECOND)?);
    Ok(out.as_slice().strip_prefix(first.as_slice()) == Some(second.as_slice()))
}

/// What a node appends for the events. Where a growth is refused it takes up again what is left.
fn run(alloc: Global, node: &mut Node) -> Result<Vec<u8>, AllocError> {
    let mut events = events(alloc)?;
    let mut out = Vec::new(alloc);
    if node.run(&mut events, &mut out).is_err() {
        node.run(&mut events, &mut out)?;
    }
    Ok(out)
}

/// The image of topic `t` of two partitions, and then a join twice.
fn events(alloc: Global) -> Result<VecDeque<NodeEvent>, AllocError> {
    let mut events = VecDeque::new(alloc);
    events.push_back(NodeEvent::Image {
        image: image_of(alloc, 2)?,
    })?;
    for _ in 0..2 {
        events.push_back(NodeEvent::Frame {
            body: bytes_of(alloc, JOIN)?,
            stamp: stamp(1),
            moment: Moment::of_millis(0),
        })?;
    }
    Ok(events)
}
