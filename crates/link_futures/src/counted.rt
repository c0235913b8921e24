//! A reader or a writer of `tokio` with counts of its failed polls.
ghost use Rattle.std.specs.Prelude.{◌≡◌, ℕ, List};

use crate::part::Part;
use crate::reader::ReadPart;
use crate::writer::WriteParts;
use futures::task::{Context, Poll};
use std::io;
use std::io::IoSlice;
use tokio::io::{AsyncRead, AsyncWrite};

/// A reader or a writer of `tokio` with counts of its failed polls, as a socket's half is none of its own. Once a count is at
/// its greatest, 2^64 - 1, it moves no byte any more and asks for another poll instead.
#[derive(Drop)]
pub struct Counted<T> {
    inner: T,
    /// How many polls have failed.
    faults: u64,
    /// How many writes have taken no byte.
    stalls: u64,
}

impl<T> Counted<T> {
    /// A reader or a writer of which no poll has failed.
    pub fn new(inner: T) -> Counted<T>
        ensures inner { result.inner ≡ inner }
        ensures counts { (result.faults ≡ 0) × (result.stalls ≡ 0) }
    {
        Counted {
            inner,
            faults: 0,
            stalls: 0,
        }
    }

    /// The reader or the writer.
    pub fn inner(&self) -> &T
        ensures { result.now ≡ self.now.inner }
    {
        &self.inner
    }
}

impl<R: AsyncRead> AsyncRead for Counted<R> {
    ghost needs = { λ c. R.needs c.inner };

    ghost reads = { λ a xs b. R.reads a.inner xs b.inner };

    ghost is_at_end = { λ c. R.is_at_end c.inner };

    ghost fails = { λ c. R.fails c.inner };

    ghost reads_nothing = { λ c. R.reads_nothing c.inner };

    ghost reads_in_order = { λ a xs b ys c. R.reads_in_order a.inner xs b.inner ys c.inner };

    fn poll_read(&mut self, cx: &mut Context<'_>, buf: &mut [u8]) -> Poll<io::Result<usize>> {
        self.inner.poll_read(cx, buf)
    }
}

impl<R: AsyncRead> ReadPart for Counted<R> {
    ghost faults = { λ c. c.faults };

    ghost polls = { λ a b. (xs : List ℕ) × R.reads a.inner xs b.inner };

    fn poll_read_part(&mut self, cx: &mut Context<'_>, buf: &mut [u8]) -> Part {
        if self.faults == u64::MAX {
            let _: Poll<()> = cx.yield_now();
            return Part::Waits;
        }
        match self.inner.poll_read(cx, buf) {
            Poll::Pending => Part::Waits,
            Poll::Ready(Ok(count)) => Part::Moved(count),
            Poll::Ready(Err(_)) => {
                self.faults += 1;
                Part::Fault
            }
        }
    }
}

impl<W: AsyncWrite> AsyncWrite for Counted<W> {
    ghost needs = { λ c. W.needs c.inner };

    ghost writes = { λ a xs b. W.writes a.inner xs b.inner };

    ghost is_flushed = { λ c. W.is_flushed c.inner };

    ghost is_shut_down = { λ c. W.is_shut_down c.inner };

    ghost is_full = { λ c. W.is_full c.inner };

    ghost fails = { λ c. W.fails c.inner };

    ghost writes_nothing = { λ c. W.writes_nothing c.inner };

    ghost writes_in_order = { λ a xs b ys c. W.writes_in_order a.inner xs b.inner ys c.inner };

    fn poll_write(&mut self, cx: &mut Context<'_>, buf: &[u8]) -> Poll<io::Result<usize>> {
        self.inner.poll_write(cx, buf)
    }

    fn poll_write_vectored(
        &mut self,
        cx: &mut Context<'_>,
        bufs: &[IoSlice<'_>],
    ) -> Poll<io::Result<usize>> {
        self.inner.poll_write_vectored(cx, bufs)
    }

    fn is_write_vectored(&self) -> bool {
        self.inner.is_write_vectored()
    }

    fn poll_flush(&mut self, cx: &mut Context<'_>) -> Poll<io::Result<()>> {
        self.inner.poll_flush(cx)
    }

    fn poll_shutdown(&mut self, cx: &mut Context<'_>) -> Poll<io::Result<()>> {
        self.inner.poll_shutdown(cx)
    }
}

impl<W: AsyncWrite> WriteParts for Counted<W> {
    ghost faults = { λ c. c.faults };

    ghost stalls = { λ c. c.stalls };

    ghost polls = { λ a b. (xs : List ℕ) × W.writes a.inner xs b.inner };

    fn poll_write_parts(&mut self, cx: &mut Context<'_>, bufs: &[IoSlice<'_>]) -> Part {
        if self.faults == u64::MAX || self.stalls == u64::MAX {
            let _: Poll<()> = cx.yield_now();
            return Part::Waits;
        }
        match self.inner.poll_write_vectored(cx, bufs) {
            Poll::Pending => Part::Waits,
            Poll::Ready(Ok(count)) => {
                if count == 0 {
                    self.stalls += 1;
                }
                Part::Moved(count)
            }
            Poll::Ready(Err(_)) => {
                self.faults += 1;
                Part::Fault
            }
        }
    }
}
