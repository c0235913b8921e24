//! Readers that tell contracts how many of their polls have failed.
ghost use Rattle.std.specs.Prelude.{◌≡◌, ℕ, ◌+◌, ◌<◌, ◌≤◌, length, take};
ghost use Rattle.futures.specs.Task.{Covers, Keeps};
ghost use Rattle.link_futures.specs.Parts.{count_of, faults_of, OnWaits};
ghost use Rattle.link_futures.specs.declared.part.Part.TheVariants.{Moved};

use crate::part::Part;
use futures::task::Context;
use tokio::io::AsyncRead;

/// A polled reader that tells contracts how many of its polls have failed, and by `tokio`'s `reads` its bytes.
pub trait ReadPart: AsyncRead {
    /// How many polls have failed.
    ghost faults: { Self → ℕ };

    /// One poll may lead from the first state to the second.
    ghost polls: { Self → Self → Type 0 };

    /// One read into `buf`. No byte for a buffer with room means the end.
    fn poll_read_part(&mut self, cx: &mut Context<'_>, buf: &mut [u8]) -> Part
        ensures bound { count_of result ≤ length buf.new }
        ensures bytes { Self.reads self.old (take (count_of result) buf.new) self.new }
        ensures end { result ≡ Moved 0 → 0 < length buf.old → Self.is_at_end self.new }
        ensures once { polls self.old self.new }
        ensures counted { faults self.new ≡ faults self.old + faults_of result }
        ensures registered { OnWaits result (Covers cx.new (Self.needs self.new)) }
        ensures kept { Keeps cx.old cx.new };
}
