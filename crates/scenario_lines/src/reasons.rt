//! Why lines are bad, and why frames close, in words.

use coord_node::Node;
use group_types::Stamp;
use group_types::limits::{LARGEST_BODY, SMALLEST_BODY};
use kip_msgs::{Request, read_request};
use scenario_text::command_line::escaped;
use scenario_text::fault::LineFault;
use scenario_text::reasons::{argument_of, of_frame, of_line, of_word};
use scenario_text::topic_reasons::of_list;
use scenario_text::topics::topic_of;
use scenario_text::{frame, words};
use std::alloc::{AllocError, Global};

/// The lines of `coord reply`: what each begins with, and its form.
const REPLY_FORMS: &[(&str, &str)] = &[
    ("image", IMAGE),
    ("now", "now MS"),
    ("stamp", "stamp CONNECTION FRAME"),
    ("req", "req HEX"),
    ("tick", "tick"),
];

/// The lines of `coord run`.
const RUN_FORMS: &[(&str, &str)] = &[
    ("client", CLIENT),
    ("image", IMAGE),
    ("clock", "clock MS"),
    ("tick", "tick MS"),
    ("join", "join CLIENT"),
    ("beat", "beat CLIENT short|owned|full"),
    ("quit", "quit CLIENT leave|away"),
    ("lose", "lose CLIENT"),
    ("deliver", "deliver REQUEST"),
    ("take", "take REPLY"),
    ("release", "release CLIENT UUID INDEX"),
    ("commit", "commit CLIENT NAME INDEX OFFSET"),
    ("bring", "bring COMMIT"),
    ("settle", "settle"),
];

const IMAGE: &str =
    "image [NAME UUID COUNT].., whose names and ids differ and whose counts are 1 to 100000";

const CLIENT: &str =
    "client NAME GROUP INSTANCE ASSIGNOR REBALANCE TOPICS, before the first act, whose name is new";

/// Why a line of `coord reply` is bad.
pub fn of_bad_reply_line(alloc: Global, line: &[u8]) -> Result<String, AllocError> {
    match argument_of(line, "req ") {
        Some(_) => of_word(alloc, LineFault::BadLine),
        None => of_bad_line(alloc, line, REPLY_FORMS),
    }
}

/// Why a line of `coord run` is bad.
pub fn of_bad_run_line(alloc: Global, line: &[u8]) -> Result<String, AllocError> {
    of_bad_line(alloc, line, RUN_FORMS)
}

/// Why a line is bad that isn't of these forms, or whose topics make no image.
fn of_bad_line(alloc: Global, line: &[u8], forms: &[(&str, &str)]) -> Result<String, AllocError> {
    if let Some(topics) = argument_of(line, "image ") {
        if let Some(reason) = of_topics(alloc, topics)? {
            return Ok(reason);
        }
    }
    of_line(alloc, line, forms)
}

/// Why topics make no image, if they don't: three words each.
fn of_topics(alloc: Global, text: &str) -> Result<Option<String>, AllocError> {
    let words = words_of(alloc, text)?;
    let mut topics = Vec::new(alloc);
    for topic in words.as_slice().chunks(3) {
        match topic_of(alloc, topic) {
            Ok(topic) => topics.push(topic)?,
            Err(LineFault::NoMemory) => return Err(AllocError),
            Err(LineFault::BadLine) => return Ok(Some(of_topic_words(alloc, topic)?)),
        }
    }
    of_list(alloc, topics.as_slice())
}

/// The words of a text, which one space parts each from the next.
fn words_of<'a>(alloc: Global, text: &'a str) -> Result<Vec<&'a str>, AllocError> {
    text.split(' ').collect(alloc)
}

/// That three words, or fewer, are no topic.
fn of_topic_words(alloc: Global, words: &[&str]) -> Result<String, AllocError> {
    let mut text = String::new(alloc);
    for word in words {
        text.push(' ')?;
        text.push_str(escaped(alloc, word)?.as_str())?;
    }
    format!(in alloc; "\"{}\" is not NAME UUID COUNT", text.as_str().trim_start())
}

/// Why a `req` line closed, whose request had this stamp: it has no frame that is answered, or the node had accepted a later heartbeat
/// of the member.
pub fn of_closed(
    alloc: Global,
    node: &Node,
    line: &[u8],
    stamp: Stamp,
) -> Result<Option<String>, AllocError> {
    let Some(frame) = frame_of(alloc, line)? else {
        return Ok(None);
    };
    let reason = of_frame(alloc, frame.as_slice(), SMALLEST_BODY, LARGEST_BODY)?;
    if reason.is_some() {
        return Ok(reason);
    }
    match last_stamp(alloc, frame.as_slice(), node)? {
        Some(last) => Ok(Some(overtaken(alloc, stamp, last)?)),
        None => Ok(None),
    }
}

/// The bytes of the frame of a `req` line, where it is one.
pub fn frame_of(alloc: Global, line: &[u8]) -> Result<Option<Vec<u8>>, AllocError> {
    let Some(word) = argument_of(line, "req ") else {
        return Ok(None);
    };
    match words::bytes_of(alloc, word) {
        Ok(frame) => Ok(Some(frame)),
        Err(LineFault::BadLine) => Ok(None),
        Err(LineFault::NoMemory) => Err(AllocError),
    }
}

/// That a heartbeat with a stamp doesn't come behind the last one.
fn overtaken(alloc: Global, stamp: Stamp, last: Stamp) -> Result<String, AllocError> {
    let (connection, number) = (stamp.connection, stamp.frame);
    let (former_connection, former_number) = (last.connection, last.frame);
    format!(in alloc;
        "the heartbeat was overtaken: its stamp ({connection}, {number}) is not above ({former_connection}, {former_number})"
    )
}

/// The stamp of the last heartbeat that a node accepted from the member whose heartbeat is in a frame, if it is one.
fn last_stamp(alloc: Global, frame: &[u8], node: &Node) -> Result<Option<Stamp>, AllocError> {
    let Some(body) = frame::framed(frame) else {
        return Ok(None);
    };
    match read_request(alloc, body) {
        Ok(Request::Heartbeat(_, message)) => Ok(
            node.group(message.group_id)
                .and_then(|group| group.last_stamp(message.member_id)),
        ),
        _ => Ok(None),
    }
}
