//! A member's request that is under way.
ghost use Rattle.std.specs.Prelude.{◌≡◌, ◌+◌, ◌<◌, ◌≤◌, length, drop, OnOk};
ghost use Rattle.futures.specs.Task.{Covers, Keeps};
ghost use Rattle.futures.specs.Poll.{IfReady, OnPending};
ghost use Rattle.tokio.specs.Io.Moved.{TakesWritten};
ghost use Rattle.link_futures.specs.Parts.{count_of, faults_of, stalls_of, OnWaits};
ghost use Rattle.link_futures.specs.Replies.{LacksOfReply};
ghost use Rattle.link_futures.specs.Beats.{Finishes};

use crate::beat::AfterBeat;
use crate::end::End;
use crate::heard::{Heard, heard_of};
use crate::inbox::read_into;
use crate::limits::{LARGEST_READ, SIZE_BYTES};
use crate::part::Part;
use crate::reader::ReadPart;
use crate::writer::WriteParts;
use bytes::BytesMut;
use futures::task::{Context, Poll};
use member_core::{Idle, Member, Sent};
use std::io::IoSlice;

/// A member's request that is under way: what is left to be written of it, and what was read of its reply.
#[derive(Drop)]
pub(crate) struct Call<R, W, S: Idle> {
    pub(crate) reader: R,
    pub(crate) writer: W,
    pub(crate) member: Member<Sent<S>>,
    pub(crate) request: BytesMut,
    pub(crate) reply: BytesMut,
    /// At least this many bytes of the reply are missing.
    pub(crate) missing: usize,
}

impl<R: ReadPart, W: WriteParts, S: Idle> Call<R, W, S> {
    ghost use Rattle.link_futures.specs.Beats.{IsUnderWay, CallNeeds, Polls, CallMetNoFault, EndsCall};

    /// Writes once, or, once the request is written, reads once. It is ready once the reply is there, or where it fails.
    pub(crate) fn poll(&mut self, cx: &mut Context<'_>) -> Poll<Result<(), End>>
        requires { IsUnderWay self.old }
        ensures polls { Polls R.reads W.writes self.old self.new }
        ensures ends { IfReady result (λ end. EndsCall R.faults W.faults W.stalls R.is_at_end end self.old self.new) }
        ensures goes_on { OnPending result (CallMetNoFault R.faults W.faults W.stalls self.old self.new) }
        ensures again { OnPending result (IsUnderWay self.new) }
        ensures registered { OnPending result (Covers cx.new (CallNeeds R.needs W.needs self.new)) }
        ensures kept { Keeps cx.old cx.new }
    {
        if !self.request.is_empty() {
            return match write_once(&mut self.request, &mut self.writer, cx) {
                Part::Waits => Poll::Pending,
                Part::Fault | Part::Moved(0) => Poll::Ready(Err(End::WriteFault)),
                Part::Moved(_) => cx.yield_now(),
            };
        }
        let room = self.missing.min(LARGEST_READ);
        let Ok(part) = read_into(&mut self.reply, room, &mut self.reader, cx) else {
            return Poll::Ready(Err(End::NoMemory));
        };
        match part {
            Part::Waits => Poll::Pending,
            Part::Fault => Poll::Ready(Err(End::ReadFault)),
            Part::Moved(0) if self.reply.is_empty() => Poll::Ready(Err(End::Finished)),
            Part::Moved(0) => Poll::Ready(Err(End::CutShort)),
            Part::Moved(_) => self.weigh(cx),
        }
    }

    /// Looks whether the reply is whole, and asks for another poll where it isn't.
    fn weigh(&mut self, cx: &mut Context<'_>) -> Poll<Result<(), End>>
        requires written { length self.old.request.items ≡ 0 }
        requires lacks { LacksOfReply 0 self.old.reply.items }
        ensures others { self.new ≡ record self.old { missing = self.new.missing } }
        ensures ends { IfReady result (λ end. EndsCall R.faults W.faults W.stalls R.is_at_end end self.old self.new) }
        ensures again { OnPending result (IsUnderWay self.new) }
        ensures registered { OnPending result (Covers cx.new (CallNeeds R.needs W.needs self.new)) }
        ensures kept { Keeps cx.old cx.new }
    {
        match heard_of(self.reply.as_slice()) {
            Heard::Partial(missing) => {
                self.missing = missing;
                cx.yield_now()
            }
            Heard::Whole => Poll::Ready(Ok(())),
            Heard::Refused => Poll::Ready(Err(End::Closed)),
        }
    }

    /// Gives the reader and the writer back, and the member: it takes the reply, or gives up.
    pub(crate) fn finish(self, end: Result<(), End>) -> AfterBeat<R, W, S>
        requires { OnOk end (4 ≤ length self.reply.items) }
        ensures reader { result.reader ≡ self.reader }
        ensures writer { result.writer ≡ self.writer }
        ensures member { Finishes end self.member self.reply.items result.member }
    {
        let member = match end {
            Ok(()) => Ok(self.member.take(&self.reply.as_slice()[SIZE_BYTES..])),
            Err(end) => Err((self.member.give_up(), end)),
        };
        AfterBeat {
            reader: self.reader,
            writer: self.writer,
            member,
        }
    }
}

/// Writes once, and drops what was written.
fn write_once<W: WriteParts>(request: &mut BytesMut, writer: &mut W, cx: &mut Context<'_>) -> Part
    ensures bytes { TakesWritten W.writes writer.old writer.new request.old.items request.new.items }
    ensures left { request.new.items ≡ drop (count_of result) request.old.items }
    ensures counted { W.faults writer.new ≡ W.faults writer.old + faults_of result }
    ensures stalled { W.stalls writer.new ≡ W.stalls writer.old + stalls_of result }
    ensures registered { OnWaits result (Covers cx.new (W.needs writer.new)) }
    ensures kept { Keeps cx.old cx.new }
{
    let part = writer.poll_write_parts(cx, &[IoSlice::new(request.as_slice())]);
    request.advance(part.count());
    part
}
