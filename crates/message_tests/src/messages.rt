//! The messages of `kip_msgs`: bodies spelled out by hand from the protocol guide and KIP-848.

ghost use Rattle.kip_msgs.specs.Writable.{IsWritableRequest, IsWritableReply};
ghost use Rattle.kip_msgs.specs.Views.{request_value, reply_value};

mod bodies;
mod read;

use flex_wire::WireFault;
use kip_msgs::{
    Api, MsgFault, Reply, Request, api_of, put_reply, put_request, read_reply, read_request,
};
use std::alloc::{AllocError, Global};
use std::test::Fail;
use test_support::frames::{self, bytes_of, put_hex};
use test_support::tables::{Answers, add_wrong_pairs, cut, number, wrong_rows};

/// A body is hex or a name; behind it may stand AT:HEX for other bytes from a place on.
const TABLE: &str = r#"
api_of - = Wire(Short)
api_of one_byte = Wire(Short)
# key 18, whatever stands behind it
api_of 0012 = UnknownApi
api_of 00120000 = UnknownApi
api_of fff80009 = UnknownApi
api_of 004400 = Wire(Short)
api_of 000800 = Wire(Short)
# another version, whatever stands behind it
api_of 00440001 = UnknownVersion
api_of 0044ffff00 = UnknownVersion
api_of 00080008 = UnknownVersion
api_of 0008000a = UnknownVersion
api_of 0044000000 = Heartbeat before 00
api_of 0008000900000008 = Commit before 00000008
apis = Heartbeat 68 0 Some(Heartbeat), Commit 8 9 Some(Commit), -8 None

request - = Wire(Short)
request one_byte = Wire(Short)
request 0012 = UnknownApi
request 00120000 = UnknownApi
request fff80009 = UnknownApi
request 004400 = Wire(Short)
request 000800 = Wire(Short)
request 00440001 = UnknownVersion
request 0044ffff00 = UnknownVersion
request 00080008 = UnknownVersion
request 0008000a = UnknownVersion

request join 0:0012 = UnknownApi
request join 2:0001 = UnknownVersion
# a client id of length -2
request join 8:fffe = Wire(BadCount)
# two tagged fields with one tag
request join 10:0205000500 = Wire(TagOrder)
# no tagged fields, in two bytes
request join 10:8000 = Wire(NotShortest)
# a group id that is null, one of 32,768 bytes, and one that isn't UTF-8
request join 11:00 = Wire(BadCount)
request join 11:818002 = Wire(TooLong)
request join 12:ff = Wire(NotUtf8)
# tagged fields that go on
request join 29:01 = Wire(Short)
# a byte behind the message
request join 30:00 = LeftOver
# the number of the message's tagged fields, 0, in two bytes
request join 29:8000 = Wire(NotShortest)
request join cut = Wire(Short)
request steady cut = Wire(Short)
request full_heartbeat cut = Wire(Short)

# no topics where an array must be, a topic's name that is null, and no partitions where an array must be
request commit 55:00 = Wire(BadCount)
request commit 56:00 = Wire(BadCount)
request commit 58:00 = Wire(BadCount)
# metadata that isn't UTF-8
request commit 75:02ff = Wire(NotUtf8)
request commit 79:00 = LeftOver
request commit cut = Wire(Short)
request full_commit cut = Wire(Short)

# a count takes no memory before its elements are read: 2^32 - 2 names of which there is none, and 2^32 and more
request_at_once unnamed = Wire(Short)
request_at_once unnamed 28:10 = Wire(TooLong)

# a mark of 02 before the assignment, and one of 00
reply_to_heartbeat unknown_member 35:02 = Wire(BadMark)
reply_to_heartbeat granted 57:00 = Wire(BadMark)
# a message that isn't UTF-8
reply_to_heartbeat unknown_member 12:ff = Wire(NotUtf8)
reply_to_heartbeat granted 87:00 = LeftOver
reply_to_heartbeat granted cut = Wire(Short)
reply_to_heartbeat granted_nothing cut = Wire(Short)
reply_to_heartbeat unknown_member cut = Wire(Short)
reply_to_heartbeat full_heartbeat_reply cut = Wire(Short)
# no topics where an array must be
reply_to_commit taken 9:00 = Wire(BadCount)
reply_to_commit taken 22:00 = LeftOver
reply_to_commit taken cut = Wire(Short)
reply_to_commit full_commit_reply cut = Wire(Short)

fault 1 = Wire(NotUtf8): a text is not UTF-8
fault 2 = UnknownApi: unknown api key
fault 3 = UnknownVersion: unknown version of the api
fault 4 = LeftOver: bytes left after the message
fault 5 = NoMemory: out of memory
"#;

#[test]
fn bodies_and_faults(rt: HostRuntime) -> Result<(), Fail> {
    let mut wrong = wrong_rows(rt.alloc(), &Messages, TABLE)?;
    add_wrong_pairs(rt.alloc(), &Messages, &read::READ, &mut wrong)?;
    assert_eq!(rt; wrong.as_str(), "");
    Ok(())
}

struct Messages;

impl Answers for Messages {
    fn answer(&self, alloc: Global, question: &str, out: &mut String) -> Result<(), AllocError> {
        let (call, words) = cut(question);
        let (name, change) = cut(words);
        match call {
            "apis" => tell_apis(out),
            "fault" => tell_numbered(number(words), out),
            _ => tell_body(alloc, call, name, change, out),
        }
    }
}

/// Tells what a call reads in a body.
fn tell_body(
    alloc: Global,
    call: &str,
    name: &str,
    change: &str,
    out: &mut String,
) -> Result<(), AllocError> {
    let mut body = bytes_of(alloc, text_of(name))?;
    if change == "cut" {
        return tell_cuts(alloc, call, body.as_slice(), out);
    }
    change_body(alloc, &mut body, change)?;
    tell_read(alloc, call, body.as_slice(), out)
}

/// Bodies and their names.
const BODIES: [(&str, &str); 14] = [
    ("join", frames::JOIN),
    ("steady", frames::STRANGER),
    ("full_heartbeat", bodies::FULL_HEARTBEAT),
    ("unnamed", bodies::UNNAMED),
    ("commit", frames::COMMIT),
    ("full_commit", bodies::FULL_COMMIT),
    ("granted", frames::JOINED),
    ("granted_nothing", frames::JOINED_SECOND),
    ("unknown_member", frames::UNKNOWN),
    ("full_heartbeat_reply", bodies::FULL_HEARTBEAT_REPLY),
    ("taken", frames::TAKEN),
    ("full_commit_reply", bodies::FULL_COMMIT_REPLY),
    ("-", ""),
    ("one_byte", "00"),
];

/// The text of a body that has a name; else the word itself.
fn text_of(word: &str) -> &str {
    for (name, text) in BODIES {
        if name == word {
            return text;
        }
    }
    word
}

/// Puts other bytes in place of those from a place on, and the last of them behind the end.
fn change_body(alloc: Global, body: &mut Vec<u8>, change: &str) -> Result<(), AllocError> {
    let (place, part) = change.split_once(':').unwrap_or((change, ""));
    let part = bytes_of(alloc, part)?;
    let mut place: usize = number(place);
    for byte in part.as_slice() {
        if place < body.len() {
            body[place] = *byte;
        } else {
            body.push(*byte)?;
        }
        place = place.saturating_add(1);
    }
    Ok(())
}

/// Tells the one answer to all beginnings of a body, or each that is another than the one before.
fn tell_cuts(alloc: Global, call: &str, body: &[u8], out: &mut String) -> Result<(), AllocError> {
    let mut last = String::new(alloc);
    for length in 0..body.len() {
        tell_if_new(alloc, call, &body[..length], &mut last, out)?;
    }
    Ok(())
}

/// Tells the answer to a body, and keeps it, where it isn't the last one that was kept.
fn tell_if_new(
    alloc: Global,
    call: &str,
    body: &[u8],
    last: &mut String,
    out: &mut String,
) -> Result<(), AllocError> {
    let mut answer = String::new(alloc);
    tell_read(alloc, call, body, &mut answer)?;
    if answer.as_str() == last.as_str() {
        return Ok(());
    }
    last.clear();
    last.push_str(answer.as_str())?;
    out.push_str(answer.as_str())
}

fn tell_read(alloc: Global, call: &str, body: &[u8], out: &mut String) -> Result<(), AllocError> {
    match call {
        "api_of" => tell_api(body, out),
        "request_at_once" => tell_at_once(alloc, body, out),
        "request" => tell_request(alloc, body, out),
        "reply_to_heartbeat" => tell_reply(alloc, Api::Heartbeat, body, out),
        _ => tell_reply(alloc, Api::Commit, body, out),
    }
}

fn tell_api(body: &[u8], out: &mut String) -> Result<(), AllocError> {
    match api_of(body) {
        Ok((api, rest)) => {
            write!(out, "{api:?} before ")?;
            put_hex(out, rest)
        }
        Err(fault) => write!(out, "{fault:?}"),
    }
}

/// Tells what is read at the first try, whichever growth is refused.
fn tell_at_once(alloc: Global, body: &[u8], out: &mut String) -> Result<(), AllocError> {
    match read_request(alloc, body) {
        Ok(request) => write!(out, "{request:?}"),
        Err(fault) => write!(out, "{fault:?}"),
    }
}

/// Tells the request of a body and how many tagged fields it has, or the fault.
fn tell_request(alloc: Global, body: &[u8], out: &mut String) -> Result<(), AllocError> {
    match read_request(alloc, body) {
        Ok(request) => request_again(alloc, &request, body, out),
        Err(fault) => tell_fault(fault, out),
    }
}

/// Tells a fault. Want of memory is for the table.
fn tell_fault(fault: MsgFault, out: &mut String) -> Result<(), AllocError> {
    match fault {
        MsgFault::NoMemory => Err(AllocError),
        other => write!(out, "{other:?}"),
    }
}

/// Tells the request, and what it is written as where that is another body.
fn request_again(
    alloc: Global,
    request: &Request<'_>,
    body: &[u8],
    out: &mut String,
) -> Result<(), AllocError>
    requires { IsWritableRequest (request_value request.now) }
{
    write!(out, "{request:?} tags {}", request.tag_count())?;
    let mut again = Vec::new(alloc);
    put_request(&mut again, request)?;
    tell_other(again.as_slice(), body, out)
}

fn tell_reply(alloc: Global, api: Api, body: &[u8], out: &mut String) -> Result<(), AllocError> {
    match read_reply(alloc, api, body) {
        Ok(reply) => reply_again(alloc, &reply, body, out),
        Err(fault) => tell_fault(fault, out),
    }
}

/// Tells a reply, writes it again, and tells where that gives another body.
fn reply_again(
    alloc: Global,
    reply: &Reply<'_>,
    body: &[u8],
    out: &mut String,
) -> Result<(), AllocError>
    requires { IsWritableReply (reply_value reply.now) }
{
    write!(out, "{reply:?}")?;
    let mut again = Vec::new(alloc);
    put_reply(&mut again, reply)?;
    tell_other(again.as_slice(), body, out)
}

/// Tells the bytes that were put where they are other bytes than the body's.
fn tell_other(put: &[u8], body: &[u8], out: &mut String) -> Result<(), AllocError> {
    if put == body {
        return Ok(());
    }
    out.push_str(" written as ")?;
    put_hex(out, put)
}

fn tell_apis(out: &mut String) -> Result<(), AllocError> {
    for api in [Api::Heartbeat, Api::Commit] {
        let (key, version) = (api.key(), api.version());
        write!(out, "{api:?} {key} {version} {:?}, ", Api::with_key(key))?;
    }
    write!(out, "-8 {:?}", Api::with_key(-8))
}

/// Tells the fault with a number, and its text.
fn tell_numbered(number: u8, out: &mut String) -> Result<(), AllocError> {
    for fault in [
        MsgFault::Wire(WireFault::NotUtf8),
        MsgFault::UnknownApi,
        MsgFault::UnknownVersion,
        MsgFault::LeftOver,
        MsgFault::NoMemory,
    ] {
        if fault.number() == number {
            return write!(out, "{fault:?}: {fault}");
        }
    }
    Ok(())
}
