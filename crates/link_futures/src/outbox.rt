//! The replies that a line has and hasn't written.
ghost use Rattle.std.specs.Prelude.{◌≡◌, ℕ, ◌+◌, ◌==◌, ◌<◌, ◌≤◌, [], length, take, drop, All, None, IfOk, IfSome, OnOk, OnErr, IsTrue, ◌↔◌};
ghost use Rattle.std.specs.VecDeque.{deque_len, deque_capacity};
ghost use Rattle.futures.specs.Task.{Covers, Keeps};
ghost use Rattle.tokio.specs.Io.Moved.{TakesWritten};
ghost use Rattle.link_futures.specs.declared.limits.TheConstants.{MOST_BYTES, MOST_REPLIES};
ghost use Rattle.link_futures.specs.Parts.{count_of, faults_of, stalls_of, OnWaits};
ghost use Rattle.link_futures.specs.Buffers.{bytes_of_all, bytes_in, unsent_of};

use crate::desk::Desk;
use crate::limits::{MOST_BYTES, MOST_PARTS, MOST_REPLIES};
use crate::part::Part;
use crate::writer::WriteParts;
use bytes::Bytes;
use coord_node::{Answered, Stamp};
use futures::task::Context;
use std::alloc::{AllocError, Global};
use std::collections::VecDeque;
use std::io::IoSlice;
use std::marker::Model;
use std::mem;

/// With at least this number of unsent bytes a write is worth its while, and doesn't wait for further replies.
const GATHERED: usize = 8_192;

/// The room of a queue that a line keeps while it has nothing to write.
const QUIET: usize = 8;

/// The most bytes of room that a line keeps of a buffer that is written, for the next reply.
const KEPT: usize = 1_024;

/// The number of a reply's frame, and how many bytes of the reply aren't written.
#[derive(Drop)]
pub(crate) struct Reply {
    frame: u64,
    unsent: usize,
}

/// The replies that a line has and hasn't written, in order. Callers see the list of their bytes and frames' numbers.
#[derive(Drop)]
pub(crate) struct Outbox {
    replies: VecDeque<Reply>,
    /// The bytes of all replies, one after the other, but for those of the last ones. A buffer holds one reply or several.
    buffers: VecDeque<Bytes>,
    /// The bytes of the last replies, to which the desk appends. With the next write they are frozen, and are the last buffer.
    tail: Vec<u8>,
    /// How many bytes there are.
    unsent: usize,
    alloc: Global,
}

impl Model for Outbox {
    ghost use Rattle.std.specs.Prelude.{◌≡◌, ◌<◌, List, length, All};
    ghost use Rattle.std.specs.VecDeque.{deque_len, deque_capacity};
    ghost use Rattle.link_futures.specs.Buffers.{Waiting, waiting_code, waiting_in, joined, unsent_of};

    ghost Value = { List Waiting };

    ghost coded = { waiting_code };

    ghost view = { λ o. waiting_in o.replies.items (joined o.buffers.items o.tail.items) };

    ghost invariant = { λ o. (unsent_of o.replies.items ≡ length (joined o.buffers.items o.tail.items)) × (o.unsent ≡ unsent_of o.replies.items)
        × All (λ r. 0 < r.unsent) o.replies.items × (0 < length o.tail.items → deque_len o.buffers < deque_capacity o.buffers) };
}

impl Outbox {
    ghost use Rattle.link_futures.specs.Answering.{AnswersInto};

    /// No replies. Takes no memory.
    pub(crate) fn new(alloc: Global) -> Outbox
        ensures { result ≡ [] }
    {
        Outbox {
            replies: VecDeque::new(alloc),
            buffers: VecDeque::new(alloc),
            tail: Vec::new(alloc),
            unsent: 0,
            alloc,
        }
    }

    #[tactic(auto, using(crate::proofs::QueueLemmas::waiting_length))]
    pub(crate) fn is_empty(&self) -> bool
        ensures { result ≡ (length self.now == 0) }
    {
        self.replies.is_empty()
    }

    /// Whether a further frame may be answered.
    #[tactic(auto, using(crate::proofs::QueueLemmas::waiting_length))]
    pub(crate) fn has_room(&self) -> bool
        ensures { IsTrue result ↔ ((length self.now < MOST_REPLIES) × (length (bytes_of_all self.now) ≤ MOST_BYTES)) }
    {
        self.replies.len() < MOST_REPLIES && self.unsent() <= MOST_BYTES
    }

    /// How many bytes aren't written.
    fn unsent(&self) -> usize
        ensures { result ≡ length (bytes_of_all self.now) }
    {
        self.unsent
    }

    /// Lets the desk answer a frame's body, and keeps its reply after the others. If memory is short nothing is kept. The room
    /// in the queues is made first, and the desk appends to the tail: once it has answered, no memory is needed. Where one reply
    /// waits, and so more frames are under way, the room of a whole write is made at once, if it is to be had.
    pub(crate) fn answer<D: Desk>(
        &mut self,
        desk: &mut D,
        body: &[u8],
        stamp: Stamp,
    ) -> Result<Answered, AllocError>
        requires { length (bytes_of_all self.old) ≤ MOST_BYTES }
        ensures answers { AnswersInto D.answers D.lacks desk.old body.now stamp result desk.new self.old self.new }
        ensures same_sources { (source : ℕ) → D.wakes desk.new source → D.wakes desk.old source }
    {
        self.replies.reserve(1)?;
        self.buffers.reserve(1)?;
        let room = if self.replies.len() == 1 { GATHERED } else { 0 };
        let _ = self.tail.reserve(room);
        let before = self.tail.len();
        let answered = desk.answer(body, stamp, &mut self.tail)?;
        let unsent = self.tail.len() - before;
        if unsent > 0 {
            self.unsent += unsent;
            let frame = stamp.frame;
            self.replies.push_back_reserved(Reply { frame, unsent });
        }
        Ok(answered)
    }

    /// Whether so few bytes are unsent that a write may wait for those of further replies.
    pub(crate) fn has_room_in_a_write(&self) -> bool {
        self.unsent < GATHERED
    }

    /// The number of the first reply's frame.
    pub(crate) fn first(&self) -> Option<u64>
        ensures { result ≡ None → length self.now ≡ 0 }
    {
        let reply = self.replies.front()?;
        Some(reply.frame)
    }

    /// How many bytes may be written by now, on a connection: those of the first replies, up to one that is to wait.
    pub(crate) fn sendable<D: Desk>(&self, desk: &D, connection: u64) -> usize
        ensures { result ≤ length (bytes_of_all self.now) }
    {
        let mut rest = self.unsent;
        for place in 0..self.replies.len() {
            let frame = self.replies[place].frame;
            if !desk.may_send(Stamp { connection, frame }) {
                return self.unsent - rest;
            }
            rest -= self.replies[place].unsent;
        }
        self.unsent
    }

    /// Writes once, at most `most` bytes, and drops what was written. Where memory is short nothing is written.
    pub(crate) fn write<W: WriteParts>(
        &mut self,
        most: usize,
        writer: &mut W,
        cx: &mut Context<'_>,
    ) -> Result<Part, AllocError>
        ensures bytes { OnOk result (TakesWritten W.writes writer.old writer.new (bytes_of_all self.old) (bytes_of_all self.new)) }
        ensures once { IfOk result (λ _. W.polls writer.old writer.new) }
        ensures counted { IfOk result (λ part. W.faults writer.new ≡ W.faults writer.old + faults_of part) }
        ensures stalled { IfOk result (λ part. W.stalls writer.new ≡ W.stalls writer.old + stalls_of part) }
        ensures registered { IfOk result (λ part. OnWaits part (Covers cx.new (W.needs writer.new))) }
        ensures err { OnErr result ((self.new ≡ self.old) × (writer.new ≡ writer.old)) }
        ensures kept { Keeps cx.old cx.new }
    {
        self.end_tail()?;
        let part = write_front(&self.buffers, most, writer, cx);
        let written = part.count();
        drop_replies(&mut self.replies, written);
        let last = drop_bytes(&mut self.buffers, written);
        self.unsent -= written;
        self.take_back(last);
        self.give_room_back();
        Ok(part)
    }

    /// Freezes the tail and makes it the last one of the queue, where a write would come to it.
    fn end_tail(&mut self) -> Result<(), AllocError>
        ensures { self.new ≡ self.old }
    {
        if self.tail.is_empty() || MOST_PARTS <= self.buffers.len() {
            return Ok(());
        }
        let tail = mem::replace(&mut self.tail, Vec::new(self.alloc));
        match Bytes::from_vec(tail) {
            Ok(bytes) => {
                self.buffers.push_back_reserved(bytes);
                Ok(())
            }
            Err(failed) => {
                self.tail = failed.value;
                Err(AllocError)
            }
        }
    }

    /// Takes the room of a buffer that is written for the tail, where there is no tail: a line that has one reply at a time makes
    /// room for the first one alone.
    fn take_back(&mut self, written: Option<Bytes>)
        ensures { self.new ≡ self.old }
    {
        if !self.tail.is_empty() {
            return;
        }
        if let Some(room) = room_of(written) {
            self.tail = room;
        }
    }

    /// A line with nothing to write keeps little room.
    fn give_room_back(&mut self)
        ensures { self.new ≡ self.old }
    {
        if !self.replies.is_empty() || !self.tail.is_empty() {
            return;
        }
        if QUIET < self.replies.capacity() {
            self.replies = VecDeque::new(self.alloc);
        }
        if self.buffers.is_empty() && QUIET < self.buffers.capacity() {
            self.buffers = VecDeque::new(self.alloc);
        }
    }
}

/// Writes once, at most `most` bytes of the first buffers.
fn write_front<W: WriteParts>(
    buffers: &VecDeque<Bytes>,
    most: usize,
    writer: &mut W,
    cx: &mut Context<'_>,
) -> Part
    ensures bound { count_of result ≤ length (bytes_in buffers.now.items) }
    ensures bytes { W.writes writer.old (take (count_of result) (bytes_in buffers.now.items)) writer.new }
    ensures once { W.polls writer.old writer.new }
    ensures counted { W.faults writer.new ≡ W.faults writer.old + faults_of result }
    ensures stalled { W.stalls writer.new ≡ W.stalls writer.old + stalls_of result }
    ensures registered { OnWaits result (Covers cx.new (W.needs writer.new)) }
    ensures kept { Keeps cx.old cx.new }
{
    let count = buffers.len().min(MOST_PARTS);
    let mut parts = [IoSlice::new(&[]); MOST_PARTS];
    let mut left = most;
    for place in 0..count {
        let bytes = buffers[place].as_slice();
        let len = left.min(bytes.len());
        parts[place] = IoSlice::new(&bytes[..len]);
        left -= len;
    }
    writer.poll_write_parts(cx, &parts[..count])
}

/// Counts `count` bytes of the first replies as written, and drops the replies of which none is left.
fn drop_replies(replies: &mut VecDeque<Reply>, count: usize)
    requires there { count ≤ unsent_of replies.old.items }
    requires some { All (λ r. 0 < r.unsent) replies.old.items }
    ensures unsent { unsent_of replies.new.items + count ≡ unsent_of replies.old.items }
    ensures some { All (λ r. 0 < r.unsent) replies.new.items }
{
    let mut left = count;
    while let Some(reply) = replies.front() {
        let unsent = reply.unsent;
        if left < unsent {
            replies[0].unsent = unsent - left;
            return;
        }
        left -= unsent;
        let _ = replies.pop_front();
    }
}

/// The room of a buffer that is written, where it is small and nobody else has the buffer. Its bytes aren't moved.
fn room_of(written: Option<Bytes>) -> Option<Vec<u8>>
    ensures { IfSome result (λ room. room.items ≡ []) }
{
    let mut written = written?;
    written.clear();
    let room = written.reclaim()?.into_vec().ok()?;
    if KEPT < room.capacity() {
        return None;
    }
    Some(room)
}

/// Drops the first `count` bytes, buffer by buffer. Gives the last buffer that is dropped whole.
fn drop_bytes(buffers: &mut VecDeque<Bytes>, count: usize) -> Option<Bytes>
    requires { count ≤ length (bytes_in buffers.old.items) }
    ensures bytes { bytes_in buffers.new.items ≡ drop count (bytes_in buffers.old.items) }
    ensures room { (deque_len buffers.new ≤ deque_len buffers.old) × (deque_capacity buffers.new ≡ deque_capacity buffers.old) }
{
    let mut left = count;
    let mut last = None;
    while let Some(buffer) = buffers.front() {
        let len = buffer.len();
        if left < len {
            buffers[0].advance(left);
            return last;
        }
        left -= len;
        last = buffers.pop_front();
    }
    last
}
