//! Many lines over one desk.
ghost use Rattle.std.specs.Prelude.{◌≡◌, ◌≢◌, ◌+◌, ◌-◌, ◌<◌, ◌^◌, ℕ, false, [], slice_index_or, vec_len};
ghost use Rattle.futures.specs.Task.{Covers, Keeps};
ghost use Rattle.futures.specs.Runs.{EndsIf};
ghost use Rattle.link_futures.specs.Resting.{RestingNeed};
ghost use Rattle.link_futures.specs.Workers.{AreArmedBut};

use crate::desk::Desk;
use crate::line::Line;
use crate::reader::ReadPart;
use crate::resting::Resting;
use crate::turned::Turned;
use crate::writer::WriteParts;
use futures::task::{Context, Poll};
use futures::{Future, Stream};
use std::alloc::Global;
use std::ops::Range;

/// Up to this number of lines have turns and none of them rests: to give them all a turn costs less than to wake one.
const FEW_LINES: usize = 16;

/// The most rounds of a poll. An event loop looks for new bytes between polls alone, and only after some of them, so a line that waits
/// for its reader waits for all of their rounds.
const MOST_ROUNDS: usize = 4;

/// Many lines over one desk. In a round it looks once for an arrival, unless it is to be woken for the next, and gives each line one
/// turn, so no line waits for another to end, and lines that have frames are answered frame by frame in turn. A poll is one round, a
/// second one where a line has more to do, which mostly finds that it waits, and further ones while a line has a frame, up to
/// `MOST_ROUNDS`. Where nothing has come since the last round, only the lines from the first to the last that have more to do have a
/// turn: the others wait. Where there are many lines, one that waits for its reader alone rests until it is woken. It is ready, with
/// the number of lines that have ended, once arrivals have ended and no line is left. The desk hears of each end.
#[derive(Drop)]
pub struct Worker<A: Stream, D> {
    arrivals: A,
    /// No line arrives any more.
    is_closed: bool,
    /// The lines that have turns.
    lines: Vec<A::Item>,
    resting: Resting<A::Item>,
    desk: D,
    /// How many lines have ended.
    ended: u64,
}

impl<R: ReadPart, W: WriteParts, A: Stream<Item = Line<R, W>>, D: Desk> Worker<A, D> {
    /// A worker with no lines. Takes no memory.
    pub fn new(alloc: Global, arrivals: A, desk: D) -> Worker<A, D>
        ensures given { (result.arrivals ≡ arrivals) × (result.desk ≡ desk) }
        ensures fresh { (result.is_closed ≡ false) × (result.lines.items ≡ []) × (result.resting.count ≡ 0) × (result.ended ≡ 0) }
    {
        Worker {
            arrivals,
            is_closed: false,
            lines: Vec::new(alloc),
            resting: Resting::new(alloc),
            desk,
            ended: 0,
        }
    }

    /// Looks once for an arrival. Says whether one has come, or may have: where memory is short for it none is taken.
    fn poll_arrival(&mut self, cx: &mut Context<'_>) -> bool
        requires { self.old.is_closed ≡ false → A.can_poll self.old.arrivals }
        ensures can { self.new.is_closed ≡ false → A.can_poll self.new.arrivals }
        ensures gives { (n : ℕ) → ⟦<Worker<A, D> as Future>⟧.gives self.new n → ⟦<Worker<A, D> as Future>⟧.gives self.old n }
        ensures waits { result ≡ false → self.new.is_closed ≡ false → Covers cx.new (A.needs self.new.arrivals) }
        ensures kept { Keeps cx.old cx.new }
    {
        if self.is_closed {
            return false;
        }
        if self.lines.reserve(1).is_err() {
            return true;
        }
        match self.arrivals.poll_next(cx) {
            Poll::Ready(Some(line)) => {
                self.lines.push_reserved(line);
                true
            }
            Poll::Ready(None) => {
                self.is_closed = true;
                false
            }
            Poll::Pending => false,
        }
    }

    /// Gives turns to the lines that have rested and were woken. Says whether there was such a line, or may be: where memory is short
    /// for one, it stays where it rests, and is woken still.
    #[inline(never)]
    fn wake(&mut self, cx: &mut Context<'_>) -> bool
        ensures arrivals { (self.new.arrivals ≡ self.old.arrivals) × (self.new.is_closed ≡ self.old.is_closed) }
        ensures gives { (n : ℕ) → ⟦<Worker<A, D> as Future>⟧.gives self.new n → ⟦<Worker<A, D> as Future>⟧.gives self.old n }
        ensures waits { result ≡ false → 0 < self.new.resting.count → Covers cx.new (RestingNeed self.new.resting.lines) }
        ensures kept { Keeps cx.old cx.new }
    {
        let resting = self.resting.len();
        for place in 0..resting {
            if self.lines.reserve(1).is_err() {
                continue;
            }
            let Poll::Ready(woken) = self.resting.poll_woken(cx) else {
                return 0 < place;
            };
            match woken {
                Ok(line) => self.lines.push_reserved(line),
                Err((line, end)) => {
                    line.tell_end(&self.desk, end);
                    self.ended = self.ended.saturating_add(1);
                }
            }
        }
        0 < resting
    }

    /// Gives each line of a range a turn, one line after the other, so that the replies of one go out while the next is answered. Those
    /// that end are dropped. Gives the range of those that have more to do; all others are registered for what they need.
    fn take_turns(&mut self, cx: &mut Context<'_>, turns: Range<usize>) -> Range<usize>
        requires { AreArmedBut R.needs W.needs (D.wakes self.old.desk) cx.old self.old.lines.items turns.start turns.end }
        ensures arrivals { (self.new.arrivals ≡ self.old.arrivals) × (self.new.is_closed ≡ self.old.is_closed) }
        ensures resting { self.new.resting ≡ self.old.resting }
        ensures gives { (n : ℕ) → ⟦<Worker<A, D> as Future>⟧.gives self.new n → ⟦<Worker<A, D> as Future>⟧.gives self.old n }
        ensures armed { AreArmedBut R.needs W.needs (D.wakes self.new.desk) cx.new self.new.lines.items result.start result.end }
        ensures kept { Keeps cx.old cx.new }
    {
        let (mut first, mut behind) = (turns.end, turns.end);
        let mut place = turns.start;
        while place < turns.end && place < self.lines.len() {
            match self.lines[place].step(cx, &mut self.desk) {
                Turned::Waits => place += 1,
                Turned::GoesOn => {
                    first = first.min(place);
                    place += 1;
                    behind = place;
                }
                Turned::Ends(end) => {
                    self.lines[place].tell_end(&self.desk, end);
                    drop_line(&mut self.lines, place);
                    self.ended = self.ended.saturating_add(1);
                }
            }
        }
        first..behind
    }

    /// Looks once for an arrival and for lines that were woken, where there may be one. Says whether there was one, or may be; where
    /// there is none the task is woken for the next.
    fn look(&mut self, cx: &mut Context<'_>, may_come: bool) -> bool
        requires can { self.old.is_closed ≡ false → A.can_poll self.old.arrivals }
        requires waits { may_come ≡ false → self.old.is_closed ≡ false → Covers cx.old (A.needs self.old.arrivals) }
        requires rests { may_come ≡ false → 0 < self.old.resting.count → Covers cx.old (RestingNeed self.old.resting.lines) }
        ensures can { self.new.is_closed ≡ false → A.can_poll self.new.arrivals }
        ensures gives { (n : ℕ) → ⟦<Worker<A, D> as Future>⟧.gives self.new n → ⟦<Worker<A, D> as Future>⟧.gives self.old n }
        ensures waits { result ≡ false → self.new.is_closed ≡ false → Covers cx.new (A.needs self.new.arrivals) }
        ensures rests { result ≡ false → 0 < self.new.resting.count → Covers cx.new (RestingNeed self.new.resting.lines) }
        ensures none { may_come ≡ false → (self.new ≡ self.old) × (cx.new ≡ cx.old) }
        ensures kept { Keeps cx.old cx.new }
    {
        if !may_come {
            return false;
        }
        let has_come = self.poll_arrival(cx);
        if self.resting.len() == 0 {
            return has_come;
        }
        let has_woken = self.wake(cx);
        has_come || has_woken
    }

    /// How many lines have ended.
    fn ended_lines(&self) -> u64
        ensures value { result ≡ self.now.ended }
        ensures small { result < 2 ^ 64 }
    {
        self.ended
    }

    /// Whether a line has a frame that may be answered.
    fn has_frame(&self) -> bool {
        self.lines.iter().any(|line| line.has_frame())
    }

    /// Lets the lines rest that wait for their readers alone, until few are left that have turns. Says whether there was such a line.
    fn rest_all(&mut self) -> bool
        ensures arrivals { (self.new.arrivals ≡ self.old.arrivals) × (self.new.is_closed ≡ self.old.is_closed) }
        ensures gives { (n : ℕ) → ⟦<Worker<A, D> as Future>⟧.gives self.new n → ⟦<Worker<A, D> as Future>⟧.gives self.old n }
        ensures none { result ≡ false → self.new ≡ self.old }
    {
        let mut has_rested = false;
        let mut place = 0;
        while place < self.lines.len() && FEW_LINES < self.lines.len() {
            if !self.lines[place].is_quiet() {
                place += 1;
                continue;
            }
            if let Err(line) = self.resting.rest(self.lines.swap_remove(place)) {
                self.lines.push_reserved(line);
                return true;
            }
            has_rested = true;
        }
        has_rested
    }
}

impl<R: ReadPart, W: WriteParts, A: Stream<Item = Line<R, W>>, D: Desk> Future for Worker<A, D> {
    ghost use Rattle.link_futures.specs.Workers.{WorkerNeeds, WorkerGives};

    type Output = u64;

    ghost can_poll = { λ w. w.is_closed ≡ false → A.can_poll w.arrivals };

    ghost needs = { λ w. WorkerNeeds A.needs R.needs W.needs (D.wakes w.desk) w.arrivals w.is_closed w.lines.items w.resting.lines w.resting.count };

    ghost gives = { λ w. WorkerGives R.reads R.is_at_end R.faults W.writes W.faults W.stalls D.answers
        (EndsIf w.is_closed (A.yields w.arrivals)) w.lines.items w.resting.lines w.resting.count w.ended };

    /// Makes a round, a second one where there is more to do, and further ones while a line has a frame.
    fn poll(&mut self, cx: &mut Context<'_>) -> Poll<u64> {
        let mut has_come = true;
        let mut going = 0..0;
        for round in 0..MOST_ROUNDS {
            if (!has_come && going.is_empty()) || (1 < round && !self.has_frame()) {
                break;
            }
            let had_come = has_come;
            has_come = self.look(cx, had_come);
            let turns = if had_come {
                0..self.lines.len()
            } else {
                going.start..going.end
            };
            going = self.take_turns(cx, turns);
        }
        if has_come || !going.is_empty() {
            return cx.yield_now();
        }
        if self.rest_all() {
            return cx.yield_now();
        }
        if self.is_closed && self.lines.is_empty() && self.resting.len() == 0 {
            return Poll::Ready(self.ended_lines());
        }
        Poll::Pending
    }
}

/// Drops a line that has ended. The last one comes to its place.
#[cold]
#[inline(never)]
fn drop_line<L: Drop>(lines: &mut Vec<L>, place: usize)
    requires { place < vec_len lines.old }
    ensures len { vec_len lines.new + 1 ≡ vec_len lines.old }
    ensures last { (d : L) → place + 1 < vec_len lines.old → slice_index_or lines.new.items place d ≡ slice_index_or lines.old.items (vec_len lines.old - 1) d }
    ensures others { (k : ℕ) (d : L) → k ≢ place → k + 1 < vec_len lines.old → slice_index_or lines.new.items k d ≡ slice_index_or lines.old.items k d }
{
    let _ = lines.swap_remove(place);
}
