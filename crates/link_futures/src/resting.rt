//! Lines that wait for their readers alone.
ghost use Rattle.std.specs.Prelude.{◌≡◌, ◌⊎◌, ◌+◌, ◌<◌, Ok, Err, None, length, IfErr, IfSome, IsSomeAnd, OnOk, OnErr};
ghost use Rattle.futures.specs.Task.{Covers, Keeps};
ghost use Rattle.futures.specs.Poll.{IfReady, OnPending};
ghost use Rattle.futures.specs.Queued.{IsEmptySet, set_len};
ghost use Rattle.link_futures.specs.Resting.{RestingNeed};

use crate::end::End;
use crate::line::Line;
use crate::quiet::Quiet;
use crate::reader::ReadPart;
use crate::writer::WriteParts;
use futures::Stream;
use futures::stream::FuturesUnordered;
use futures::task::{Context, Poll};
use std::alloc::{AllocError, Global};

/// Lines that wait for their readers alone. Each is looked at only once its reader has woken it.
#[derive(Drop)]
pub struct Resting<L> {
    /// None where no line rests.
    lines: Option<FuturesUnordered<Quiet<L>>>,
    count: usize,
    alloc: Global,
}

impl<R: ReadPart, W: WriteParts> Resting<Line<R, W>> {
    ghost use Rattle.link_futures.specs.Resting.{Wakes, MayWake};
    ghost use Rattle.link_futures.specs.declared.line.Line.{Line};
    ghost use Rattle.link_futures.specs.declared.end.End.{End};

    /// No lines. Takes no memory.
    pub(crate) fn new(alloc: Global) -> Resting<Line<R, W>>
        ensures { (result.lines ≡ None) × (result.count ≡ 0) }
    {
        Resting {
            lines: None,
            count: 0,
            alloc,
        }
    }

    /// How many lines rest.
    pub(crate) fn len(&self) -> usize
        ensures { result ≡ self.now.count }
    {
        self.count
    }

    /// Lets a line rest that has no unsent reply. Where memory is short it comes back.
    pub(crate) fn rest(&mut self, line: Line<R, W>) -> Result<(), Line<R, W>>
        requires { length line.outbox ≡ 0 }
        ensures count { OnOk result (self.new.count ≡ self.old.count + 1) }
        ensures err { OnErr result (self.new.count ≡ self.old.count) }
        ensures value_returned { IfErr result (λ back. back ≡ line) }
        ensures wakes { OnOk result ((woken : _) → MayWake R.reads R.is_at_end R.faults W.faults W.stalls self.new.lines woken
            → MayWake R.reads R.is_at_end R.faults W.faults W.stalls self.old.lines woken ⊎ Wakes R.reads R.is_at_end R.faults W.faults W.stalls line woken) }
        ensures refused { OnErr result ((woken : _) → MayWake R.reads R.is_at_end R.faults W.faults W.stalls self.new.lines woken
            → MayWake R.reads R.is_at_end R.faults W.faults W.stalls self.old.lines woken) }
    {
        let Some(count) = self.count.checked_add(1) else {
            return Err(line);
        };
        if make_set(&mut self.lines, self.alloc).is_err() {
            return Err(line);
        }
        let Some(lines) = &mut self.lines else {
            return Err(line);
        };
        if let Err(failed) = lines.push(Quiet { line: Some(line) }) {
            let Some(line) = failed.value.line else {
                unreachable!()
            };
            return Err(line);
        }
        self.count = count;
        Ok(())
    }

    /// A line whose reader has woken it, or one that has ended.
    pub(crate) fn poll_woken(
        &mut self,
        cx: &mut Context<'_>,
    ) -> Poll<Result<Line<R, W>, (Line<R, W>, End)>>
        requires { 0 < self.old.count }
        ensures ready { IfReady result (MayWake R.reads R.is_at_end R.faults W.faults W.stalls self.old.lines) }
        ensures count { IfReady result (λ _. self.new.count + 1 ≡ self.old.count) }
        ensures waits { OnPending result (self.new.count ≡ self.old.count) }
        ensures stay { (woken : _) → MayWake R.reads R.is_at_end R.faults W.faults W.stalls self.new.lines woken
            → MayWake R.reads R.is_at_end R.faults W.faults W.stalls self.old.lines woken }
        ensures registered { OnPending result (Covers cx.new (RestingNeed self.new.lines)) }
        ensures kept { Keeps cx.old cx.new }
    {
        let Some(lines) = &mut self.lines else {
            return cx.yield_now();
        };
        let polled = lines.poll_next(cx);
        drop_empty(&mut self.lines);
        match polled {
            Poll::Ready(Some(woken)) => {
                self.count -= 1;
                Poll::Ready(woken)
            }
            Poll::Ready(None) => {
                self.lines = None;
                cx.yield_now()
            }
            Poll::Pending => Poll::Pending,
        }
    }
}

/// Drops a set in which no line is left.
fn drop_empty<F: Drop>(lines: &mut Option<FuturesUnordered<F>>)
    ensures { (lines.new ≡ None) ⊎ ((lines.new ≡ lines.old) × IfSome lines.new (λ set. 0 < set_len set)) }
{
    if let Some(set) = lines {
        if set.is_empty() {
            *lines = None;
        }
    }
}

/// Makes an empty set where there is none.
fn make_set<F: Drop>(
    lines: &mut Option<FuturesUnordered<F>>,
    alloc: Global,
) -> Result<(), AllocError>
    ensures same { (lines.new ≡ lines.old) ⊎ ((lines.old ≡ None) × IsSomeAnd lines.new IsEmptySet) }
    ensures err { OnErr result (lines.new ≡ lines.old) }
{
    if lines.is_none() {
        *lines = Some(FuturesUnordered::new(alloc)?);
    }
    Ok(())
}
