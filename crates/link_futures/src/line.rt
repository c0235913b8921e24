//! One connection's line to a desk.
ghost use Rattle.std.specs.Prelude.{◌≡◌, ◌⊎◌, ℕ, ◌<◌, true, false, length, Ok, IfErr, IfSome, OnOk, OnErr};
ghost use Rattle.futures.specs.Task.{Covers, Keeps};
ghost use Rattle.futures.specs.Poll.{IfReady, OnPending};

use crate::desk::Desk;
use crate::end::End;
use crate::inbox::{Inbox, Next};
use crate::outbox::Outbox;
use crate::part::Part;
use crate::reader::ReadPart;
use crate::turned::Turned;
use crate::writer::WriteParts;
use coord_node::{Answered, Stamp};
use futures::task::{Context, Poll};
use std::alloc::{AllocError, Global};

/// One connection's line to a desk: what it has read and not answered, and what it has answered and not written. A frame
/// that is partly read and a reply that is partly written are kept from turn to turn.
#[derive(Drop)]
pub struct Line<R, W> {
    reader: R,
    writer: W,
    inbox: Inbox,
    outbox: Outbox,
    connection: u64,
    /// How many frames were answered.
    answered: u64,
    /// The reader has ended.
    is_over: bool,
    /// The desk has closed.
    is_closed: bool,
    /// The desk held the next reply when the line asked for the last time.
    is_held: bool,
}

impl<R: ReadPart, W: WriteParts> Line<R, W> {
    ghost use Rattle.link_futures.specs.Stream.{Turns, WantsBytes, SendNeeds, LineNeeds, EndsAs, MetNoFault, LeavesDesk};
    ghost use Rattle.link_futures.specs.Steps.{IsNewLine, IsAnswerable, ReadsOn, AnswersOn, WritesOn, EndsQuietly};
    ghost use Rattle.link_futures.specs.Turned.{polled_of};
    ghost use Rattle.link_futures.specs.Parts.{AtMostOnce};

    /// The line of the connection with this number. Takes no memory.
    pub fn new(alloc: Global, connection: u64, reader: R, writer: W) -> Line<R, W>
        ensures { IsNewLine result connection reader writer }
    {
        Line {
            reader,
            writer,
            inbox: Inbox::new(alloc),
            outbox: Outbox::new(alloc),
            connection,
            answered: 0,
            is_over: false,
            is_closed: false,
            is_held: false,
        }
    }

    /// The writer.
    pub fn writer(&self) -> &W
        ensures { result.now ≡ self.now.writer }
    {
        &self.writer
    }

    /// How many frames were answered.
    pub fn answered(&self) -> u64
        ensures { result ≡ self.now.answered }
    {
        self.answered
    }

    /// One turn: reads at most once, lets the desk answer at most one frame, and writes at most once. It is ready once the
    /// line has ended; else it waits for the reader or the writer, or asks for another turn, as when a further frame is there.
    pub fn turn<D: Desk>(&mut self, cx: &mut Context<'_>, desk: &mut D) -> Poll<End>
        ensures stream { (last : D) × Turns R.reads R.is_at_end W.writes D.answers R.polls W.polls
            (record { line = self.old; desk = desk.old }) (record { line = self.new; desk = last })
            × LeavesDesk D.lacks result last desk.new }
        ensures ends { IfReady result (λ end. EndsAs R.faults W.faults W.stalls end self.old self.new) }
        ensures goes_on { OnPending result (MetNoFault R.faults W.faults W.stalls self.old self.new) }
        ensures armed { OnPending result (Covers cx.new (LineNeeds R.needs W.needs (D.wakes desk.new) self.new)) }
        ensures same_sources { (source : ℕ) → D.wakes desk.new source → D.wakes desk.old source }
        ensures kept { Keeps cx.old cx.new }
    {
        match self.step(cx, desk) {
            Turned::Ends(end) => Poll::Ready(end),
            Turned::Waits => Poll::Pending,
            Turned::GoesOn => cx.yield_now(),
        }
    }

    /// One turn, without asking for another.
    pub(crate) fn step<D: Desk>(&mut self, cx: &mut Context<'_>, desk: &mut D) -> Turned
        ensures stream { (last : D) × Turns R.reads R.is_at_end W.writes D.answers R.polls W.polls
            (record { line = self.old; desk = desk.old }) (record { line = self.new; desk = last })
            × LeavesDesk D.lacks (polled_of result) last desk.new }
        ensures ends { IfReady (polled_of result) (λ end. EndsAs R.faults W.faults W.stalls end self.old self.new) }
        ensures goes_on { OnPending (polled_of result) (MetNoFault R.faults W.faults W.stalls self.old self.new) }
        ensures armed { result ≡ Turned.Waits → Covers cx.new (LineNeeds R.needs W.needs (D.wakes desk.new) self.new) }
        ensures same_sources { (source : ℕ) → D.wakes desk.new source → D.wakes desk.old source }
        ensures kept { Keeps cx.old cx.new }
    {
        let reader_waits = match self.read(cx) {
            Ok(waits) => waits,
            Err(end) => return Turned::Ends(end),
        };
        let Ok(()) = self.answer(desk) else {
            return Turned::Ends(End::NoMemory);
        };
        if self.gathers() {
            return Turned::GoesOn;
        }
        let send_waits = match self.write(cx, desk) {
            Ok(waits) => waits,
            Err(end) => return Turned::Ends(end),
        };
        match self.end() {
            Some(end) => Turned::Ends(end),
            None => self.rest(cx, desk, reader_waits, send_waits),
        }
    }

    /// Lets the desk hear that the line has ended.
    #[cold]
    #[inline(never)]
    pub(crate) fn tell_end<D: Desk>(&self, desk: &D, end: End) {
        desk.hear_end(self.connection, self.answered, end);
    }

    /// Whether there is nothing to do before bytes come, and none have come for some turns: no reply is unsent, and more bytes
    /// are wanted.
    pub(crate) fn is_quiet(&self) -> bool
        ensures { result ≡ true → (length self.now.outbox ≡ 0) × WantsBytes self.now }
    {
        self.inbox.is_quiet() && self.outbox.is_empty() && self.wants_bytes()
    }

    /// Whether a frame is there that may be answered.
    pub(crate) fn has_frame(&self) -> bool {
        self.answerable().is_some()
    }

    /// Reads once, if the desk may want more bytes. Says whether the reader waits.
    pub(crate) fn read(&mut self, cx: &mut Context<'_>) -> Result<bool, End>
        ensures reads { ReadsOn R.reads R.is_at_end self.old self.new }
        ensures ends { IfErr result (λ end. EndsAs R.faults W.faults W.stalls end self.old self.new) }
        ensures goes_on { OnOk result (MetNoFault R.faults W.faults W.stalls self.old self.new) }
        ensures armed { result ≡ Ok true → Covers cx.new (R.needs self.new.reader) }
        ensures waits { result ≡ Ok true → self.new.inbox ≡ self.old.inbox }
        ensures once { AtMostOnce R.polls self.old.reader self.new.reader }
        ensures kept { Keeps cx.old cx.new }
    {
        if !self.wants_bytes() {
            return Ok(false);
        }
        let Ok(part) = self.inbox.read(&mut self.reader, cx) else {
            return Err(End::NoMemory);
        };
        match part {
            Part::Waits => Ok(true),
            Part::Fault => Err(End::ReadFault),
            Part::Moved(count) => {
                self.is_over = count == 0;
                Ok(false)
            }
        }
    }

    /// Lets the desk answer the frame at the front, if it may be answered.
    fn answer<D: Desk>(&mut self, desk: &mut D) -> Result<(), AllocError>
        ensures ok { OnOk result (AnswersOn D.answers self.old desk.old self.new desk.new) }
        ensures err { OnErr result ((self.new ≡ self.old) × ((desk.new ≡ desk.old) ⊎ D.lacks desk.old desk.new)) }
        ensures same_sources { (source : ℕ) → D.wakes desk.new source → D.wakes desk.old source }
    {
        let Some(len) = self.answerable() else {
            return Ok(());
        };
        let stamp = Stamp {
            connection: self.connection,
            frame: self.answered + 1,
        };
        let answered = self.outbox.answer(desk, self.inbox.body(len), stamp)?;
        self.inbox.drop_frame(len);
        self.answered += 1;
        self.is_closed = answered == Answered::Closes;
        Ok(())
    }

    /// Whether replies wait for that to a frame that is there already, so that one write takes them all.
    fn gathers(&self) -> bool {
        self.has_frame() && self.outbox.has_room_in_a_write()
    }

    /// Writes once, if a reply may be sent by now. Says whether the line waits for the writer, or for the desk if it holds the next
    /// reply.
    #[inline(never)]
    fn write<D: Desk>(&mut self, cx: &mut Context<'_>, desk: &D) -> Result<bool, End>
        ensures writes { WritesOn W.writes self.old self.new }
        ensures once { AtMostOnce W.polls self.old.writer self.new.writer }
        ensures ends { IfErr result (λ end. EndsAs R.faults W.faults W.stalls end self.old self.new) }
        ensures goes_on { OnOk result (MetNoFault R.faults W.faults W.stalls self.old self.new) }
        ensures armed { result ≡ Ok true → Covers cx.new (SendNeeds W.needs (D.wakes desk.now) self.new) }
        ensures kept { Keeps cx.old cx.new }
    {
        let Some(frame) = self.outbox.first() else {
            return Ok(false);
        };
        let connection = self.connection;
        self.is_held = desk.poll_send(cx, Stamp { connection, frame }).is_pending();
        if self.is_held {
            return Ok(true);
        }
        let most = self.outbox.sendable(desk, connection);
        if most == 0 {
            return Ok(false);
        }
        let Ok(part) = self.outbox.write(most, &mut self.writer, cx) else {
            return Err(End::NoMemory);
        };
        match part {
            Part::Waits => Ok(true),
            Part::Fault | Part::Moved(0) => Err(End::WriteFault),
            Part::Moved(_) => Ok(false),
        }
    }

    /// How the line ends, if it does once all replies are written.
    fn end(&self) -> Option<End>
        ensures { IfSome result (λ end. EndsQuietly end self.now) }
    {
        if !self.outbox.is_empty() {
            return None;
        }
        if self.is_done() {
            return Some(End::Closed);
        }
        match self.inbox.next() {
            Next::Refused => Some(End::Closed),
            Next::Whole(_) => None,
            Next::Partial if !self.is_over => None,
            Next::Partial if self.inbox.is_empty() => Some(End::Finished),
            Next::Partial => Some(End::CutShort),
        }
    }

    /// The line waits for its reader, and for its writer or the desk, with which `_cx` is registered then, unless there is more to do than
    /// they would wake for.
    fn rest<D: Desk>(
        &self,
        _cx: &Context<'_>,
        _desk: &D,
        reader_waits: bool,
        send_waits: bool,
    ) -> Turned
        requires reader { reader_waits ≡ true → Covers _cx.now (R.needs self.now.reader) }
        requires send { send_waits ≡ true → Covers _cx.now (SendNeeds W.needs (D.wakes _desk.now) self.now) }
        ensures pending { polled_of result ≡ Poll.Pending }
        ensures armed { result ≡ Turned.Waits → Covers _cx.now (LineNeeds R.needs W.needs (D.wakes _desk.now) self.now) }
    {
        if (!reader_waits && self.wants_bytes()) || (!send_waits && !self.outbox.is_empty()) {
            return Turned::GoesOn;
        }
        if (!reader_waits && !send_waits) || self.has_frame() {
            return Turned::GoesOn;
        }
        Turned::Waits
    }

    /// Whether more bytes are wanted: the reader hasn't ended, the desk answers on, and no frame and no refused size is there.
    fn wants_bytes(&self) -> bool
        ensures yes { result ≡ true → WantsBytes self.now }
        ensures no { result ≡ false → ¬ WantsBytes self.now }
    {
        !self.is_over && !self.is_done() && matches!(self.inbox.next(), Next::Partial)
    }

    /// The length of the body at the front, if it may be answered: it is whole, the desk answers on, and there is room
    /// for the reply.
    fn answerable(&self) -> Option<usize>
        ensures { IfSome result (λ len. IsAnswerable self.now len) }
    {
        if self.is_done() || !self.outbox.has_room() {
            return None;
        }
        match self.inbox.next() {
            Next::Whole(len) => Some(len),
            Next::Partial | Next::Refused => None,
        }
    }

    /// Whether the desk answers no more: it has closed, or the last number of a frame is used.
    fn is_done(&self) -> bool
        ensures done { result ≡ true → (self.now.is_closed ≡ true) ⊎ (self.now.answered ≡ u64.MAX) }
        ensures answers_on { result ≡ false → (self.now.is_closed ≡ false) × (self.now.answered < u64.MAX) }
    {
        self.is_closed || self.answered == u64::MAX
    }
}
