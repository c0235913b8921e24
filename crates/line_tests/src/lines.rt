//! Lines over readers and writers in memory, with replies worked out by hand from the Kafka protocol guide and KIP-848.
ghost use Rattle.std.specs.Prelude.{⊤};

use crate::noting::Noting;
use crate::numbering::{Numbering, put_numbers};
use crate::streams::{
    Frames, drain, feed, numbered_rows, output_within, put_words, task_of, written,
};
use coord_node::{Image, Node};
use futures::stream;
use futures::task::Poll;
use futures::test::MockTask;
use link_futures::{
    Counted, Desk, Drain, End, Feed, Line, Moment, Moments, Session, Solo, Worker, WriteParts,
};
use std::alloc::{AllocError, AllocGlobal, Global};
use std::collections::hash_map::RandomState;
use std::random::RandomSource;
use std::sync::atomic::{AtomicBool, Ordering};
use std::test::Fail;
use test_support::frames::{JOIN, JOINED, STRANGER, TAKEN, UNKNOWN};
use test_support::tables::{Answers, cut, number, wrong_rows};
use tokio::io::{DuplexStream, duplex};
use topic_meta::TopicEntry;
use uuid::Uuid;

/// The commit of the worked frames, at the epoch of the first join.
const COMMIT: &str =
    "0008 0009 00000008 ffff 00 0267 00000001 ID1 00 02 0274 02 00000001 0000000000000005 ffffffff 00 00 00 00";

const REQUESTS: &[(&str, &str)] = &[("join", JOIN), ("stranger", STRANGER), ("commit", COMMIT)];

const REPLIES: &[(&str, &str)] = &[("joined", JOINED), ("unknown", UNKNOWN), ("taken", TAKEN)];

/// A question has what each poll of the reader and of the writer does, and the bytes that the reader gives. The answer has how
/// the line ends, and what was written.
const LINES: &str = "
1 1p*80 - = Finished
1 1p*80 - join = Finished joined
1..33 1p*80 - join join:# = CutShort joined
1 1p*80 - join 00000000 = Closed joined
1 1p*80 - join 00800001 = Closed joined
1 1p*80 - join ffffffff = Closed joined
1 1p*80 - 00800001 = Closed
1 1p*80 - 00000000 = Closed
1..33 1p*80 - join:# = CutShort
1..32 1p*80 - stranger:# = CutShort
0..29 1p*80 - join/# = Closed
0..28 1p*80 - stranger/# = Closed
0..78 1p*80 - commit/# = Closed
0..78 - - join commit/# = Closed joined
1 1p*80 - join commit = Finished joined taken
1..82 1p*80 - join commit:# = CutShort joined
1 1p*80 - 00000001ff join = Closed
1 - 1*132 join stranger = Finished joined unknown
1 7*9 9*20 join stranger = Finished joined unknown
1 - - stranger*16 = Finished unknown*16
1 - - stranger*17 = Finished unknown*17
1 - p*70 stranger*65 = Finished unknown*65
1 - p*70+1*9 stranger*65 join = Finished unknown*65 joined
0..33 1*#+f - join = ReadFault
34 1*#+f - join = ReadFault joined
35 1*#+f - join = Finished joined
35..66 1*#+f - join stranger = ReadFault joined
67 1*#+f - join stranger = ReadFault joined unknown
68 1*#+f - join stranger = Finished joined unknown
0 - 1*#+f join stranger = WriteFault
1..90 - 1*#+f join stranger = WriteFault joined:#
91 - 1*#+f join stranger = WriteFault joined
132 - 1*#+f join stranger = Finished joined unknown
0 - 1*#+f stranger join = WriteFault
4..40 - 1*#+f stranger join = WriteFault unknown:#
41 - 1*#+f stranger join = WriteFault unknown
0 - 1*#+0 join = WriteFault
1..90 - 1*#+0 join = WriteFault joined:#
91 - 1*#+0 join = Finished joined
";

/// Two frames at once, and byte by byte. So few growths are made here that each can be refused.
const TWO_FRAMES: &str = "
- - join stranger = Finished joined unknown
1p*80 1p*132 join stranger = Finished joined unknown
";

/// Lines of workers, and a line whose writer takes nothing.
///
/// - `worker`: the lines of one worker, parted by `; `: what each poll of the reader does, and the bytes that it gives. The answer has
///   how many have ended once the worker is ready, and what each has written.
/// - `polls N`: how many lines of the worker with this one line have ended within N polls.
/// - `turns`: the lines of one worker, as of `worker`, over a desk that answers each frame with the number of frames that it has
///   answered by then, of whichever line. The answer has the numbers that each line has written.
/// - `held N`: how many frames of the line are answered within N turns, and how many bytes are written then; and what comes after.
/// - `gated N`: a line over a desk that numbers the frames and holds the reply to frame N: what it has written after 1,000 turns, and
///   at its end, once nothing is held.
const WORKERS: &str = "
# the second line has nothing to read any more while the others are still read byte by byte
worker 1p*80 join; - stranger; 1p*80 stranger*2 = 3 | joined | unknown | unknown*2
# three frames each come in one read, the second line's a round later or the first line's; then they are answered in turn
turns p stranger*3; - stranger*3 = 1 3 5 | 2 4 6
turns - stranger*3; - stranger*3 = 1 2 4 | 3 5 6
turns - stranger*4; - stranger*2; - stranger*2 = 1 2 4 7 | 3 5 | 6 8
# a session answers a hundred frames in a hundred turns: a poll of a worker has several rounds while a line has frames
polls 40 - - stranger*100 = 1
# sixty-five frames come in one read, while the writer is pending
held 70 - p*70 stranger*65 = 64 0 Finished unknown*65
# a reply that is held isn't written, nor one behind it, however the writer takes those before it; the line goes on once it may be sent
gated 3 - - stranger*5 = 1 2 | 1 2 3 4 5
gated 3 - 1*9+p*50 stranger*5 = 1 2 | 1 2 3 4 5
gated 5 1p*80 - stranger*5 = 1 2 3 4 | 1 2 3 4 5
gated 1 - - stranger*5 = none | 1 2 3 4 5
";

/// A desk whose frames all come at 0 ms.
#[derive(Drop)]
struct Still;

impl Moments for Still {
    ghost hands = { λ _ _ _. ⊤ };

    fn now(&mut self) -> Moment {
        Moment::of_millis(0)
    }
}

/// A line whose reader gives what a question says.
type FedLine<W> = Line<Fed, W>;

type Fed = Counted<Feed>;

type Polled<D> = Session<Fed, Counted<Drain>, D>;

/// How many bytes a pipe holds: more than all replies of a line.
const PIPE: usize = 256;

/// A task that polls, how nodes look groups up, and the frames that come and go.
#[derive(Drop)]
struct Streaming {
    task: MockTask,
    hasher: RandomState,
    requests: Frames,
    replies: Frames,
}

fn polling<R: RandomSource + AllocGlobal>(rt: &R) -> Result<Streaming, Fail> {
    Ok(Streaming {
        task: task_of(rt)?,
        hasher: RandomState::new(rt)?,
        requests: Frames::of(rt.alloc(), REQUESTS)?,
        replies: Frames::of(rt.alloc(), REPLIES)?,
    })
}

#[test]
fn streams_are_answered(rt: HostRuntime) -> Result<(), Fail> {
    let rows = numbered_rows(rt.alloc(), LINES)?;
    let wrong = wrong_rows(rt.alloc(), &polling(&rt)?, rows.as_str())?;
    assert_eq!(rt; wrong.as_str(), "");
    Ok(())
}

#[test]
fn two_frames_are_answered(rt: HostRuntime) -> Result<(), Fail> {
    let wrong = wrong_rows(rt.alloc(), &polling(&rt)?, TWO_FRAMES)?;
    assert_eq!(rt; wrong.as_str(), "");
    Ok(())
}

#[test]
fn workers_serve_their_lines(rt: HostRuntime) -> Result<(), Fail> {
    let wrong = wrong_rows(rt.alloc(), &polling(&rt)?, WORKERS)?;
    assert_eq!(rt; wrong.as_str(), "");
    Ok(())
}

impl Answers for Streaming {
    fn answer(&self, alloc: Global, question: &str, out: &mut String) -> Result<(), AllocError> {
        let (call, words) = cut(question);
        match call {
            "worker" => self.tell_worker(alloc, words, out),
            "polls" => self.tell_polls(alloc, words, out),
            "held" => self.tell_held(alloc, words, out),
            "turns" => self.tell_turns(alloc, words, out),
            "gated" => self.tell_gated(alloc, words, out),
            _ => self.tell_session(self.session_of(alloc, question)?, out),
        }
    }
}

impl Streaming {
    /// Tells how a session ends, and what it has written.
    fn tell_session<D: Desk>(
        &self,
        session: Polled<D>,
        out: &mut String,
    ) -> Result<(), AllocError> {
        let mut session = session;
        let end = last_turn(&self.task, &mut session);
        let (line, _) = session.into_parts();
        self.tell_end(end, line.writer().inner().taken(), out)
    }

    fn tell_end(
        &self,
        end: Option<End>,
        written: &[u8],
        out: &mut String,
    ) -> Result<(), AllocError> {
        match end {
            Some(end) => write!(out, "{end:?}")?,
            None => out.push_str("no end")?,
        }
        put_words(written, &self.replies, out)
    }

    fn tell_held(&self, alloc: Global, words: &str, out: &mut String) -> Result<(), AllocError> {
        let (turns, words) = cut(words);
        let mut session = self.session_of(alloc, words)?;
        for _ in 0..number::<u32>(turns) {
            let _ = turn(&self.task, &mut session);
        }
        self.tell_rest(session, out)
    }

    /// Tells how far a session has come, and then how it ends.
    fn tell_rest<D: Desk>(&self, session: Polled<D>, out: &mut String) -> Result<(), AllocError> {
        let (line, desk) = session.into_parts();
        let told = tell_counts(&line, out);
        let ended = self.tell_session(Session::new(line, desk), out);
        told.and(ended)
    }

    /// Tells the numbers of a worker's replies, line by line.
    fn tell_turns(&self, alloc: Global, words: &str, out: &mut String) -> Result<(), AllocError> {
        let (lines, far_ends) = self.piped_lines(alloc, words)?;
        let _ = self.ended_within(alloc, lines, Numbering::new(), 1_000)?;
        for far in far_ends {
            let bytes = written(alloc, &self.task, far)?;
            put_numbers(bytes.as_slice(), out)?;
        }
        Ok(())
    }

    /// Tells the numbers of a line's replies while one is held, and behind that.
    fn tell_gated(&self, alloc: Global, words: &str, out: &mut String) -> Result<(), AllocError> {
        let (held, words) = cut(words);
        let line = self.line_of(alloc, words)?;
        let line = self.turned(line, Numbering::holding(number(held)));
        match line.writer().inner().taken() {
            [] => out.push_str("none")?,
            written => put_numbers(written, out)?,
        }
        let line = self.turned(line, Numbering::new());
        put_numbers(line.writer().inner().taken(), out)
    }

    /// A line after its turns over a desk, at its end or while it waits for the desk.
    fn turned<D: Desk>(&self, line: FedLine<Counted<Drain>>, desk: D) -> FedLine<Counted<Drain>> {
        let mut session = Session::new(line, desk);
        let _ = last_turn(&self.task, &mut session);
        session.into_parts().0
    }

    /// Tells how many of a worker's lines have ended, and what each has written.
    fn tell_worker(&self, alloc: Global, words: &str, out: &mut String) -> Result<(), AllocError> {
        let (lines, far_ends) = self.piped_lines(alloc, words)?;
        put_ended(
            self.ended_within(alloc, lines, self.desk(alloc)?, 1_000)?,
            out,
        )?;
        self.tell_written(alloc, far_ends, out)
    }

    fn tell_written(
        &self,
        alloc: Global,
        far_ends: Vec<DuplexStream>,
        out: &mut String,
    ) -> Result<(), AllocError> {
        for far in far_ends {
            out.push_str(" |")?;
            let bytes = written(alloc, &self.task, far)?;
            put_words(bytes.as_slice(), &self.replies, out)?;
        }
        Ok(())
    }

    fn tell_polls(&self, alloc: Global, words: &str, out: &mut String) -> Result<(), AllocError> {
        let (polls, words) = cut(words);
        let mut lines = Vec::new(alloc);
        lines.push(self.line_of(alloc, words)?)?;
        put_ended(
            self.ended_within(alloc, lines, self.desk(alloc)?, number(polls))?,
            out,
        )
    }

    /// How many of these lines have ended once their worker is ready, if it is within `polls` polls. Fails where one of them has ended
    /// for want of memory.
    fn ended_within<W: WriteParts, D: Desk>(
        &self,
        alloc: Global,
        lines: Vec<FedLine<W>>,
        desk: D,
        polls: usize,
    ) -> Result<Option<u64>, AllocError> {
        let has_lacked = AtomicBool::new(false);
        let desk = Noting::new(desk, &has_lacked);
        let worker = Worker::new(alloc, stream::iter(lines), desk);
        let ended = output_within(&self.task, worker, polls);
        if has_lacked.load(Ordering::SeqCst) {
            return Err(AllocError);
        }
        Ok(ended)
    }

    /// Lines that write into pipes, and the other ends of the pipes.
    fn piped_lines(
        &self,
        alloc: Global,
        words: &str,
    ) -> Result<(Vec<FedLine<Counted<DuplexStream>>>, Vec<DuplexStream>), AllocError> {
        let (mut lines, mut far_ends) = (Vec::new(alloc), Vec::new(alloc));
        for words in words.split("; ") {
            let (line, far) = self.piped_line(alloc, words)?;
            lines.push(line)?;
            far_ends.push(far)?;
        }
        Ok((lines, far_ends))
    }

    /// A line that writes into a pipe, and the other end of the pipe.
    fn piped_line(
        &self,
        alloc: Global,
        words: &str,
    ) -> Result<(FedLine<Counted<DuplexStream>>, DuplexStream), AllocError> {
        let (reads, words) = cut(words);
        let reader = self.reader_of(alloc, reads, words)?;
        let (near, far) = duplex(alloc, PIPE)?;
        Ok((Line::new(alloc, 1, reader, Counted::new(near)), far))
    }

    /// The session of a question, over a node with a topic `t` of two partitions.
    fn session_of(&self, alloc: Global, question: &str) -> Result<Polled<Solo<Still>>, AllocError> {
        let line = self.line_of(alloc, question)?;
        Ok(Session::new(line, self.desk(alloc)?))
    }

    /// The line of a question.
    fn line_of(
        &self,
        alloc: Global,
        question: &str,
    ) -> Result<FedLine<Counted<Drain>>, AllocError> {
        let (reads, words) = cut(question);
        let (writes, words) = cut(words);
        let reader = self.reader_of(alloc, reads, words)?;
        let writer = Counted::new(drain(alloc, writes)?);
        Ok(Line::new(alloc, 1, reader, writer))
    }

    /// The reader of a question.
    fn reader_of(&self, alloc: Global, reads: &str, words: &str) -> Result<Fed, AllocError> {
        let fed = feed(alloc, reads, words, &self.requests)?;
        Ok(Counted::new(fed))
    }

    /// A desk over a node with a topic `t` of two partitions.
    fn desk(&self, alloc: Global) -> Result<Solo<Still>, AllocError> {
        let mut topics = Vec::new(alloc);
        topics.push(TopicEntry {
            name: String::from_str(alloc, "t")?,
            id: Uuid::from_bytes([0x11; 16]),
            count: 2,
        })?;
        let mut node = Node::new(alloc, 0, self.hasher);
        node.set_image(Image::of(alloc, topics).map_err(|_| AllocError)?);
        Ok(Solo::new(node, Still))
    }
}

/// Puts how many lines have ended, where the worker is ready.
fn put_ended(ended: Option<u64>, out: &mut String) -> Result<(), AllocError> {
    match ended {
        Some(ended) => write!(out, "{ended}"),
        None => out.push_str("no end"),
    }
}

/// Tells how many frames of a line were answered, and how many bytes were written.
fn tell_counts(line: &FedLine<Counted<Drain>>, out: &mut String) -> Result<(), AllocError> {
    let written = line.writer().inner().taken().len();
    write!(out, "{} {written} ", line.answered())
}

/// How a session ends, or nothing where it doesn't end within 1,000 turns or waits for what never comes.
fn last_turn<D: Desk>(task: &MockTask, session: &mut Polled<D>) -> Option<End> {
    for _ in 0..1_000 {
        match turn(task, session) {
            Poll::Ready(end) => return Some(end),
            Poll::Pending => {
                if !task.is_woken() {
                    return None;
                }
            }
        }
    }
    None
}

/// One turn. Where a growth is refused nothing is lost, and it is made once more.
fn turn<D: Desk>(task: &MockTask, session: &mut Polled<D>) -> Poll<End> {
    match task.poll(session) {
        Poll::Ready(End::NoMemory) => task.poll(session),
        polled => polled,
    }
}

/// The numbers that reports use for the ends.
#[test]
fn ends_have_numbers(rt: HostRuntime) {
    let ends = [
        End::Finished,
        End::CutShort,
        End::Closed,
        End::ReadFault,
        End::WriteFault,
        End::NoMemory,
    ];
    assert_eq!(rt; ends.map(|end| end as u8), [1, 2, 3, 4, 5, 6]);
}
