//! The future of one line that owns its desk.
ghost use Rattle.std.specs.Prelude.{◌≡◌, ⊤};
ghost use Rattle.futures.specs.Task.{Covers, Keeps};
ghost use Rattle.futures.specs.Poll.{IfReady, OnPending};

use crate::desk::Desk;
use crate::end::End;
use crate::line::Line;
use crate::reader::ReadPart;
use crate::writer::WriteParts;
use futures::Future;
use futures::task::{Context, Poll};

/// The future of one line that owns its desk. A poll is one turn of the line.
#[derive(Drop)]
pub struct Session<R, W, D> {
    line: Line<R, W>,
    desk: D,
}

impl<R: ReadPart, W: WriteParts, D: Desk> Session<R, W, D> {
    /// A session of a line and a desk.
    pub fn new(line: Line<R, W>, desk: D) -> Session<R, W, D>
        ensures { (result.line ≡ line) × (result.desk ≡ desk) }
    {
        Session { line, desk }
    }

    /// The line and the desk.
    pub fn into_parts(self) -> (Line<R, W>, D)
        ensures { (result.0 ≡ self.line) × (result.1 ≡ self.desk) }
    {
        (self.line, self.desk)
    }
}

impl<R: ReadPart, W: WriteParts, D: Desk> Future for Session<R, W, D> {
    ghost use Rattle.link_futures.specs.Stream.{Turns, LineNeeds, EndsAs, MetNoFault, LeavesDesk};
    ghost use Rattle.link_futures.specs.Sessions.{MayEnd};
    ghost use Rattle.link_futures.specs.declared.end.End.{End};

    type Output = End;

    ghost needs = { λ s. LineNeeds R.needs W.needs (D.wakes s.desk) s.line };

    ghost gives = { λ s end. MayEnd R.reads R.is_at_end R.faults W.writes W.faults W.stalls D.answers s end };

    /// One turn of the line.
    fn poll(&mut self, cx: &mut Context<'_>) -> Poll<End>
        ensures stream { (last : D) × Turns R.reads R.is_at_end W.writes D.answers R.polls W.polls
            self.old (record { line = self.new.line; desk = last }) × LeavesDesk D.lacks result last self.new.desk }
        ensures ends { IfReady result (λ end. EndsAs R.faults W.faults W.stalls end self.old.line self.new.line) }
        ensures goes_on { OnPending result (MetNoFault R.faults W.faults W.stalls self.old.line self.new.line) }
        ensures value { IfReady result (MayEnd R.reads R.is_at_end R.faults W.writes W.faults W.stalls D.answers self.old) }
        ensures again { OnPending result ⊤ }
        ensures same { let Ends = MayEnd R.reads R.is_at_end R.faults W.writes W.faults W.stalls D.answers in
            OnPending result ((end : End) → Ends self.new end → Ends self.old end) }
        ensures registered { OnPending result (Covers cx.new (LineNeeds R.needs W.needs (D.wakes self.new.desk) self.new.line)) }
        ensures kept { Keeps cx.old cx.new }
    {
        self.line.turn(cx, &mut self.desk)
    }
}
