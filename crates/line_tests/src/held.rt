//! Lines whose replies a desk holds: they sleep until the desk or their reader wakes them.

use crate::holding::{Hold, Holding};
use crate::streams::{asleep_within, output_within, task_of};
use futures::stream;
use futures::task::Poll;
use link_futures::{Counted, Drain, Feed, Line, Session, Worker};
use std::alloc::{AllocError, Global};
use std::collections::VecDeque;
use std::test::Fail;
use test_support::frames::{STRANGER, frame_of};
use tokio::io::{AsyncRead, AsyncWrite, duplex};

/// The lines of a worker.
const LINES: u64 = 100;

/// The most polls until a worker with these lines sleeps. A poll takes one line at least.
const POLLS: usize = 200;

/// How many bytes a pipe holds.
const PIPE: usize = 256;

/// A line over a reader, and a writer with room for two replies.
fn line_over<R: AsyncRead>(
    alloc: Global,
    connection: u64,
    reader: R,
) -> Result<Line<Counted<R>, Counted<Drain>>, AllocError> {
    let writer = Drain::new(alloc, 10, VecDeque::new(alloc))?;
    let reader = Counted::new(reader);
    Ok(Line::new(alloc, connection, reader, Counted::new(writer)))
}

/// A line that reads one frame and then its reader's end.
fn fed_line(
    alloc: Global,
    connection: u64,
) -> Result<Line<Counted<Feed>, Counted<Drain>>, AllocError> {
    let reader = Feed::new(frame_of(alloc, STRANGER)?, VecDeque::new(alloc));
    line_over(alloc, connection, reader)
}

/// A worker with a hundred lines, each with a reply that is held, asks each of them some times and then sleeps. One wake lets all go on.
#[test]
fn held_lines_sleep(rt: HostRuntime) -> Result<(), Fail> {
    let task = task_of(&rt)?;
    let hold = Hold::new();
    let mut lines = Vec::new(rt.alloc());
    for connection in 1..=LINES {
        lines.push(fed_line(rt.alloc(), connection)?)?;
    }
    let worker = Worker::new(rt.alloc(), stream::iter(lines), Holding::new(&hold));
    let worker = asleep_within(&task, worker, POLLS).ok_or("the worker asks on")?;
    let asked = hold.asked();
    assert!(rt; u64::from(asked) >= LINES);
    hold.release();
    assert!(rt; task.is_woken());
    assert_eq!(rt; output_within(&task, worker, 2), Some(LINES));
    assert_eq!(rt; u64::from(hold.asked().wrapping_sub(asked)), LINES);
    Ok(())
}

/// A line whose reply is held is woken by its reader, and its next frame is answered. Both replies go out once they may.
#[test]
fn a_held_line_reads_on(rt: HostRuntime) -> Result<(), Fail> {
    let task = task_of(&rt)?;
    let hold = Hold::new();
    let (near, mut far) = duplex(rt.alloc(), PIPE)?;
    let frame = frame_of(rt.alloc(), STRANGER)?;
    let line = line_over(rt.alloc(), 1, near)?;
    let mut session = Session::new(line, Holding::new(&hold));
    for answered in 1..=2 {
        let sent = task.enter(|cx| far.poll_write(cx, frame.as_slice()));
        assert!(rt; matches!(sent, Poll::Ready(Ok(_))));
        assert!(rt; answered == 1 || task.is_woken());
        session = asleep_within(&task, session, 10).ok_or("the line asks on")?;
        let (line, desk) = session.into_parts();
        assert_eq!(rt; line.answered(), answered);
        assert_eq!(rt; line.writer().inner().taken().len(), 0);
        session = Session::new(line, desk);
    }
    hold.release();
    assert!(rt; task.is_woken());
    let session = asleep_within(&task, session, 10).ok_or("the line asks on")?;
    let (line, _) = session.into_parts();
    assert_eq!(rt;
        line.writer().inner().taken(),
        [0, 0, 0, 1, 7, 0, 0, 0, 1, 7].as_slice()
    );
    Ok(())
}
