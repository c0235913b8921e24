//! Writers that tell contracts how many of their polls have failed.
ghost use Rattle.std.specs.Prelude.{◌≡◌, ℕ, ◌+◌, ◌≤◌, length, take};
ghost use Rattle.std.specs.Io.Slices.{io_slices_bytes};
ghost use Rattle.futures.specs.Task.{Covers, Keeps};
ghost use Rattle.link_futures.specs.Parts.{count_of, faults_of, stalls_of, OnWaits};

use crate::part::Part;
use futures::task::Context;
use std::io::IoSlice;
use tokio::io::AsyncWrite;

/// A polled writer that tells contracts how many of its polls have failed or taken nothing, and by `tokio`'s `writes`
/// its bytes.
pub trait WriteParts: AsyncWrite {
    /// How many polls have failed.
    ghost faults: { Self → ℕ };

    /// One poll may lead from the first state to the second.
    ghost polls: { Self → Self → Type 0 };

    /// How many polls have taken no byte.
    ghost stalls: { Self → ℕ };

    /// One write of the buffers joined in order.
    fn poll_write_parts(&mut self, cx: &mut Context<'_>, bufs: &[IoSlice<'_>]) -> Part
        ensures bound { count_of result ≤ length (io_slices_bytes bufs.now) }
        ensures bytes { Self.writes self.old (take (count_of result) (io_slices_bytes bufs.now)) self.new }
        ensures once { polls self.old self.new }
        ensures counted { faults self.new ≡ faults self.old + faults_of result }
        ensures stalled { stalls self.new ≡ stalls self.old + stalls_of result }
        ensures registered { OnWaits result (Covers cx.new (Self.needs self.new)) }
        ensures kept { Keeps cx.old cx.new };
}
