//! What answers the frames of lines.
ghost use Rattle.std.specs.Prelude.{ℕ, List, ⊤};
ghost use Rattle.futures.specs.Task.{Covers, Keeps};
ghost use Rattle.futures.specs.Poll.{OnPending};
ghost use Rattle.group_types.specs.declared.stamp.Stamp.{Stamp};
ghost use Rattle.coord_node.specs.Coordinator.{Answer};
ghost use Rattle.link_futures.specs.Desks.{Gives};

use crate::end::End;
use coord_node::{Answered, Stamp};
use futures::task::{Context, Poll};
use std::alloc::AllocError;

/// What answers the frames of lines.
pub trait Desk: Drop {
    /// In the first state it may answer a frame's body, which came with a stamp, and be in the second.
    ghost answers: { Self → List ℕ → Stamp → Answer → Self → Type 0 };

    /// It may lack memory for an answer in the first state, and be in the second.
    ghost lacks: { Self → Self → Type 0 };

    /// The sources that wake a line whose next reply is held. A desk that doesn't say has none of its own, and such a line asks for
    /// another poll at once, as if every source woke it.
    ghost wakes: { Self → ℕ → Type 0 } = { λ _ _. ⊤ };

    /// Answers a frame's body: appends the frame of a reply, or closes. Where memory is short nothing is appended.
    fn answer(
        &mut self,
        body: &[u8],
        stamp: Stamp,
        out: &mut Vec<u8>,
    ) -> Result<Answered, AllocError>
        ensures gives { Gives answers lacks self.old body.now stamp result self.new out.old.items out.new.items }
        ensures same_sources { (source : ℕ) → wakes self.new source → wakes self.old source };

    /// Whether the reply to the frame with this stamp may be written by now. Until it may, the replies after it wait too.
    fn may_send(&self, _stamp: Stamp) -> bool {
        true
    }

    /// The same for the next reply of a line. While that is held, the task is woken by one of the sources that the desk says.
    fn poll_send(&self, cx: &mut Context<'_>, stamp: Stamp) -> Poll<()>
        ensures registered { OnPending result (Covers cx.new (wakes self.now)) }
        ensures kept { Keeps cx.old cx.new }
    {
        if self.may_send(stamp) {
            return Poll::Ready(());
        }
        cx.yield_now()
    }

    /// Is told the end of the line of the connection with this number, how many frames were answered, and why it ended. A worker
    /// tells it of each of its lines.
    fn hear_end(&self, _connection: u64, _answered: u64, _end: End) {}
}
