//! The log of connections that have ended.

use coord_server::{LogQueue, Reason, reason_of};
use link_futures::End;
use std::alloc::{AllocError, Global};
use std::test::Fail;
use test_support::frames::bytes_of;
use test_support::tables::{Answers, wrong_rows};

/// Why a line ended, in the order of the numbers that reports use.
const ENDS: [End; 6] = [
    End::Finished,
    End::CutShort,
    End::Closed,
    End::ReadFault,
    End::WriteFault,
    End::NoMemory,
];

/// The lines of connections that ended so, and of three that the server closed: for the body of a frame, and for silences.
const LINES: &str = "\
connection 1 closed: finished, 0 frames answered
connection 2 closed: cut short, 1 frame answered
connection 3 closed: a frame's size is below 1 or above 8388608, 2 frames answered
connection 4 closed: read fault, 3 frames answered
connection 5 closed: write fault, 4 frames answered
connection 6 closed: out of memory, 5 frames answered
connection 7 closed: ApiVersions (18) isn't served here, 0 frames answered
connection 8 closed: no byte for 60 s, 1 frame answered
connection 9 closed: no reply read for 120 s, 1 frame answered
";

/// A body, and why it closes its connection. Its fields: the key and the version of an API, a correlation id, no client id, no tags, and
/// those of a heartbeat.
const BODIES: &str = "
0012 0003 00000001 ffff 00 = ApiVersions (18) isn't served here
0003 000c 00000001 ffff 00 = Metadata (3) isn't served here
0064 0000 00000001 ffff 00 = the API 100 isn't served here
ffff 0000 = the API -1 isn't served here
0044 0001 00000001 ffff 00 = version 1 of ConsumerGroupHeartbeat isn't served here
0008 0008 00000001 ffff 00 = version 8 of OffsetCommit isn't served here
0044 0000 00000001 ffff = no request: the bytes end inside a field
00 = no request: the bytes end inside a field
0044 0000 00000001 ffff 00 0267 0278 00000003 00 00 ffffffff 00 00 00 00 = a heartbeat that a later one of its member overtook
0044 0000 00000001 ffff 00 0267 0278 00000003 00 00 ffffffff 00 00 00 00 07 = no request: bytes are left behind it
";

/// How many lines wait where nobody writes them.
const MOST_LINES: u64 = 4_096;

#[test]
fn ends_have_lines(rt: HostRuntime) {
    let mut written = Vec::new(rt.alloc());
    let queue = LogQueue::new(rt.alloc());
    for (answered, end) in ENDS.iter().enumerate() {
        let answered = answered as u64;
        queue.add(&rt, answered.saturating_add(1), answered, *end);
    }
    queue.add_reason(&rt, 7, Some(Reason::Api(18)));
    queue.add_reason(&rt, 8, Some(Reason::Silent(60)));
    queue.add_reason(&rt, 9, Some(Reason::Unread(120)));
    queue.add(&rt, 7, 1, End::Closed);
    queue.add(&rt, 8, 1, End::Finished);
    queue.add(&rt, 9, 1, End::WriteFault);
    queue.close(&rt);
    queue.write_all(&rt, &mut written);
    assert_eq!(rt; written.as_slice(), LINES.as_bytes());
}

/// While nobody writes, the lines that don't fit are counted, and none of them comes before that number.
#[test]
fn lines_that_do_not_fit_are_counted(rt: HostRuntime) {
    let mut written = Vec::new(rt.alloc());
    let queue = LogQueue::new(rt.alloc());
    for connection in 0..MOST_LINES + 3 {
        queue.add(&rt, connection, 1, End::Finished);
    }
    queue.close(&rt);
    queue.write_all(&rt, &mut written);
    let last = "connection 4095 closed: finished, 1 frame answered\n3 lines were left out\n";
    assert!(rt; written.as_slice().ends_with(last.as_bytes()));
}

/// Answers a body, in hex, by the reason.
struct Bodies;

impl Answers for Bodies {
    fn answer(&self, alloc: Global, question: &str, out: &mut String) -> Result<(), AllocError> {
        let body = bytes_of(alloc, question)?;
        match reason_of(alloc, body.as_slice()) {
            Some(reason) => write!(out, "{reason}"),
            None => Err(AllocError),
        }
    }
}

#[test]
fn bodies_have_reasons(rt: HostRuntime) -> Result<(), Fail> {
    let wrong = wrong_rows(rt.alloc(), &Bodies, BODIES)?;
    assert_eq!(rt; wrong.as_str(), "");
    Ok(())
}
