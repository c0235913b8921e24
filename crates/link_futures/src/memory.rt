//! A reader and a writer over memory that follow a list of what each poll does.
ghost use Rattle.std.specs.Prelude.{◌≡◌, ◌≤◌, [], ◌++◌, length, take, IfOk, refl, vec_capacity};
ghost use Rattle.std.proofs.Common.{rules};
ghost use Rattle.std.proofs.lemmas.Grind.{common_steps};
ghost use Rattle.std.specs.Io.Slices.{io_slices_bytes};

use bytes::BytesMut;
use futures::task::{Context, Poll};
use std::alloc::{AllocError, Global};
use std::collections::VecDeque;
use std::io;
use std::io::IoSlice;
use tokio::io::{AsyncRead, AsyncWrite};

/// What a poll of a [`Feed`] or a [`Drain`] does.
#[derive(Clone, Copy, Debug, PartialEq, Eq)]
pub enum PollAct {
    /// It moves at most this number of bytes.
    Bytes(usize),
    /// It is pending, and asks for another poll.
    Pending,
    /// It fails.
    Fault,
}

/// A reader over memory that follows a list of what each poll does. Past the list each poll gives all that it can.
#[derive(Drop)]
pub struct Feed {
    rest: BytesMut,
    acts: VecDeque<PollAct>,
}

impl Feed {
    /// A reader of these bytes. Takes no memory.
    pub fn new(bytes: Vec<u8>, acts: VecDeque<PollAct>) -> Feed
        ensures bytes { result.rest.items ≡ bytes.items }
        ensures acts { result.acts ≡ acts }
    {
        Feed {
            rest: BytesMut::from_vec(bytes),
            acts,
        }
    }
}

impl AsyncRead for Feed {
    ghost reads = { λ a xs b. a.rest.items ≡ xs ++ b.rest.items };

    ghost is_at_end = { λ f. f.rest.items ≡ [] };

    ghost reads_nothing = { λ f. refl };

    ghost reads_in_order = { λ a xs b ys c p q. Prim.search (rules, common_steps) };

    /// Gives one byte at least where there is one: no byte would mean the end.
    fn poll_read(&mut self, cx: &mut Context<'_>, buf: &mut [u8]) -> Poll<io::Result<usize>> {
        let most = match self.acts.pop_front() {
            Some(PollAct::Bytes(most)) => most.max(1),
            Some(PollAct::Pending) => return cx.yield_now(),
            Some(PollAct::Fault) => {
                return Poll::Ready(Err(io::Error::from(io::ErrorKind::ConnectionReset)));
            }
            None => usize::MAX,
        };
        let count = most.min(self.rest.len()).min(buf.len());
        buf[..count].copy_from_slice(&self.rest.as_slice()[..count]);
        self.rest.advance(count);
        Poll::Ready(Ok(count))
    }
}

/// A writer over memory, with room for a number of bytes, that follows a list of what each poll does. Past the list each poll
/// takes all that it has room for.
#[derive(Drop)]
pub struct Drain {
    taken: Vec<u8>,
    acts: VecDeque<PollAct>,
}

impl Drain {
    /// A writer that has taken no byte. All its memory is taken here.
    pub fn new(alloc: Global, room: usize, acts: VecDeque<PollAct>) -> Result<Drain, AllocError>
        ensures nothing { IfOk result (λ drain. drain.taken.items ≡ []) }
        ensures room { IfOk result (λ drain. room ≤ vec_capacity drain.taken) }
        ensures acts { IfOk result (λ drain. drain.acts ≡ acts) }
    {
        let taken = Vec::with_capacity(alloc, room)?;
        Ok(Drain { taken, acts })
    }

    /// The bytes that it has taken.
    pub fn taken(&self) -> &[u8]
        ensures { result.now ≡ self.now.taken.items }
    {
        self.taken.as_slice()
    }
}

impl AsyncWrite for Drain {
    ghost writes = { λ a xs b. b.taken.items ≡ a.taken.items ++ xs };

    ghost writes_nothing = { λ w. Prim.search (rules, common_steps) };

    ghost writes_in_order = { λ a xs b ys c p q. Prim.search (rules, common_steps) };

    fn poll_write(&mut self, cx: &mut Context<'_>, buf: &[u8]) -> Poll<io::Result<usize>> {
        self.poll_write_vectored(cx, &[IoSlice::new(buf)])
    }

    fn poll_write_vectored(
        &mut self,
        cx: &mut Context<'_>,
        bufs: &[IoSlice<'_>],
    ) -> Poll<io::Result<usize>> {
        let room = self.taken.capacity() - self.taken.len();
        match self.acts.pop_front() {
            Some(PollAct::Bytes(most)) => {
                Poll::Ready(Ok(take_parts(&mut self.taken, bufs, most.min(room))))
            }
            Some(PollAct::Pending) => cx.yield_now(),
            Some(PollAct::Fault) => Poll::Ready(Err(io::Error::from(io::ErrorKind::BrokenPipe))),
            None => Poll::Ready(Ok(take_parts(&mut self.taken, bufs, room))),
        }
    }

    fn is_write_vectored(&self) -> bool {
        true
    }

    fn poll_flush(&mut self, _cx: &mut Context<'_>) -> Poll<io::Result<()>> {
        Poll::Ready(Ok(()))
    }

    fn poll_shutdown(&mut self, _cx: &mut Context<'_>) -> Poll<io::Result<()>> {
        Poll::Ready(Ok(()))
    }
}

/// Appends at most `most` bytes of the buffers joined in order. Says how many.
fn take_parts(taken: &mut Vec<u8>, bufs: &[IoSlice<'_>], most: usize) -> usize
    ensures bound { result ≤ length (io_slices_bytes bufs.now) }
    ensures bytes { taken.new.items ≡ taken.old.items ++ take result (io_slices_bytes bufs.now) }
{
    let mut count = 0;
    for buf in bufs {
        let bytes = buf.as_slice();
        let part = bytes.len().min(most - count);
        if taken.extend_from_slice(&bytes[..part]).is_err() {
            return count;
        }
        count += part;
        if part < bytes.len() {
            return count;
        }
    }
    count
}
