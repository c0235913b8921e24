//! A server over lines in memory.
ghost use Rattle.std.specs.Prelude.{◌≡◌, ◌<◌};

use crate::gates::Watched;
use crate::server::{Told, Unheard, shards_over};
use bytes::BytesMut;
use coord_server::{
    ClockMoments, EndLog, Listener, Moments, Plan, Registry, Runtime, Server, ServerFault, Shards,
    ShardsDesks, Token,
};
use futures::task::Poll;
use futures::test::MockTask;
use link_futures::{Counted, Feed};
use std::alloc::{AllocError, AllocGlobal, Global};
use std::collections::VecDeque;
use std::io;
use std::marker::Brand;
use std::random::RandomSource;
use std::sync::ledger::{Blank, Ledger};
use test_support::frames::{JOINED, frame_of};
use tokio::io::{DuplexStream, duplex, read_to_end};

/// What comes of a server over lines in memory.
pub fn over_memory<G, R>(
    rt: &R,
    gate: G,
    plan: Plan,
    frames: &[Vec<u8>],
) -> Result<Told, ServerFault>
where
    G: Watched,
    R: Runtime + Sync,
{
    let moments = match ClockMoments::start(rt) {
        Ok(moments) => moments,
        Err(error) => return Err(ServerFault::System(error)),
    };
    let (entries, calls) = (Blank::new(4), Blank::new(258));
    memory_over::<Brand, Brand, G, _, R>(rt, gate, &moments, plan, frames, entries, calls)
}

/// The same, over ledgers of its own.
fn memory_over<'a, A, C, G, M, R>(
    rt: &'a R,
    gate: G,
    moments: &'a M,
    plan: Plan,
    frames: &[Vec<u8>],
    entries: Blank,
    calls: Blank,
) -> Result<Told, ServerFault>
where
    A: Ledger + Send + Sync,
    C: Ledger + Send + Sync,
    G: Watched,
    M: Moments + Clone + Send,
    R: Runtime + Sync,
    requires entries { (entries.name ≡ A.name) × (entries.parts ≡ A.parts) × (entries.parts ≡ 4) }
    requires calls { (calls.name ≡ C.name) × (calls.parts ≡ C.parts) × (calls.parts ≡ 258) }
{
    match shards_over::<A, C, G, _, R>(rt, gate, moments, entries, calls) {
        Ok(shards) => told_over_memory(rt, &shards, moments, plan, frames),
        Err(fault) => Err(fault),
    }
}

/// The same, over these shards.
fn told_over_memory<'a, A, C, G, M, R>(
    rt: &'a R,
    shards: &'a Shards<A, C, G>,
    moments: &'a M,
    plan: Plan,
    frames: &[Vec<u8>],
) -> Result<Told, ServerFault>
where
    A: Ledger + Send + Sync,
    C: Ledger + Send + Sync,
    G: Watched,
    M: Moments + Clone + Send,
    R: Runtime + Sync,
{
    let (lines, far_ends) = lines_of(rt.alloc(), frames)?;
    let log = EndLog::none();
    let desks = ShardsDesks {
        rt,
        shards,
        moments,
        log: &log,
    };
    let server = Server {
        rt,
        desks: &desks,
        plan,
        log: &log,
    };
    let served = server.run(Listed { lines }, Unheard)?;
    let right = right_replies(rt, far_ends)?;
    Ok((served, right, shards.gate().was_late()))
}

/// How many of the replies are right that were written into pipes whose other ends are gone.
fn right_replies<R: RandomSource + AllocGlobal>(
    rt: &R,
    far_ends: Vec<DuplexStream>,
) -> Result<usize, ServerFault> {
    let (alloc, task) = (rt.alloc(), MockTask::new(rt)?);
    let reply = frame_of(alloc, JOINED)?;
    let mut right = 0usize;
    for far in far_ends {
        if written(alloc, &task, far)?.as_slice() == reply.as_slice() {
            right = right.saturating_add(1);
        }
    }
    Ok(right)
}

/// What was written into a pipe whose other end is gone.
fn written(alloc: Global, task: &MockTask, far: DuplexStream) -> Result<BytesMut, AllocError> {
    let mut read = read_to_end(far, BytesMut::from_vec(Vec::new(alloc)));
    match task.poll(&mut read) {
        Poll::Ready(Ok((_far, bytes))) => Ok(bytes),
        _ => Err(AllocError),
    }
}

/// A line in memory.
type MemoryLine = (Counted<Feed>, Counted<DuplexStream>);

/// Lines in memory, which arrive one by one.
#[derive(Drop)]
struct Listed {
    lines: VecDeque<MemoryLine>,
}

impl Listener for Listed {
    type Connection = MemoryLine;

    fn register(&mut self, _registry: &Registry, _token: Token) -> io::Result<()> {
        Ok(())
    }

    fn accept(&mut self) -> io::Result<MemoryLine> {
        match self.lines.pop_front() {
            Some(line) => Ok(line),
            None => Err(io::Error::from(io::ErrorKind::WouldBlock)),
        }
    }
}

/// Lines in memory that give these frames, and the other ends of the pipes that they write into.
fn lines_of(
    alloc: Global,
    frames: &[Vec<u8>],
) -> Result<(VecDeque<MemoryLine>, Vec<DuplexStream>), AllocError> {
    let mut lines = VecDeque::new(alloc);
    let mut far_ends = Vec::new(alloc);
    for frame in frames {
        let feed = Feed::new(
            Vec::from_slice(alloc, frame.as_slice())?,
            VecDeque::new(alloc),
        );
        let (near, far) = duplex(alloc, 256)?;
        lines.push_back((Counted::new(feed), Counted::new(near)))?;
        far_ends.push(far)?;
    }
    Ok((lines, far_ends))
}
