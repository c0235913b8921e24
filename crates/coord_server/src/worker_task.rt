//! What a worker's event loop runs: the lines of the connections that are sent to the worker, and their turns.
ghost use Rattle.std.specs.Prelude.{◌≡◌, ◌⊎◌, ◌+◌, ◌%◌, vec_len, IsOk, IfSome, IfOk, OnOk};
ghost use Rattle.futures.specs.Channel.{unbounded_readable_source};
ghost use Rattle.tokio.specs.Timers.{sleep_source, interval_delay};
ghost use Rattle.link_futures.specs.Stream.{place_of};
ghost use Rattle.coord_server.specs.Senders.{AreSenders};

use crate::channel::{AssignedConnection, WorkerSender};
use crate::event_loop::Resumable;
use crate::expiry::ticks_of;
use crate::fault::ServerFault;
use crate::socket::Connection;
use futures::channel::mpsc::{UnboundedReceiver, unbounded};
use futures::task::{Context, Poll};
use futures::{Future, Stream};
use link_futures::{Desk, Line, Worker};
use std::alloc::{AllocGlobal, Global};
use std::io;
use std::time::Clock;
use tokio::runtime::Handle;
use tokio::time::Interval;

/// The lines of the connections that are sent to the worker with the number `worker`, of `workers`, at its event loop. A connection
/// that can't be taken, for want of memory, is closed.
///
/// Twice a second they are looked for unasked, since the system may interrupt the call that wakes the worker, and then it is lost.
#[derive(Drop)]
pub struct IncomingLines<K: Drop> {
    assigned: UnboundedReceiver<AssignedConnection<K>>,
    looks: Interval,
    handle: Handle,
    worker: usize,
    workers: usize,
    alloc: Global,
}

impl<K: Drop> IncomingLines<K> {
    /// The lines at an event loop of the worker, of `workers`, that follows those that `senders` send to. The sender to it is put
    /// behind theirs.
    pub fn new<R: Clock + AllocGlobal>(
        rt: &R,
        handle: &Handle,
        senders: &mut Vec<WorkerSender<K>>,
        workers: usize,
    ) -> Result<IncomingLines<K>, ServerFault>
        ensures more { OnOk result (vec_len senders.new ≡ vec_len senders.old + 1) }
        ensures placed { AreSenders workers senders.old.items → OnOk result (AreSenders workers senders.new.items) }
        ensures lines { IfOk result (λ lines. (lines.worker ≡ vec_len senders.old) × (lines.workers ≡ workers)) }
    {
        let alloc = rt.alloc();
        let looks = ticks_of(rt, handle.time())?;
        let handle = handle.clone()?;
        let (sender, assigned) = unbounded(alloc)?;
        let worker = senders.len();
        senders.push(WorkerSender {
            sender,
            worker,
            workers,
        })?;
        Ok(IncomingLines {
            assigned,
            looks,
            handle,
            worker,
            workers,
            alloc,
        })
    }
}

impl<K: Connection> IncomingLines<K> {
    /// The line of a connection that was sent.
    fn line_of(&self, assigned: AssignedConnection<K>) -> io::Result<Line<K::Reader, K::Writer>>
        ensures { IfOk result (λ line. (place_of line).connection ≡ assigned.number) }
    {
        let (reader, writer) = assigned.connection.open(assigned.number, &self.handle)?;
        Ok(Line::new(self.alloc, assigned.number, reader, writer))
    }
}

impl<K: Connection> Stream for IncomingLines<K> {
    type Item = Line<K::Reader, K::Writer>;

    ghost needs = { λ a source. (source ≡ unbounded_readable_source a.assigned) ⊎ (source ≡ sleep_source (interval_delay a.looks)) };

    ghost yields = { λ a _ last. IfSome last (λ line. (place_of line).connection % a.workers ≡ a.worker) };

    /// The next line. Each of them was sent by this worker's sender, which no contract of the channel says, so it is looked at once more.
    fn poll_next(&mut self, cx: &mut Context<'_>) -> Poll<Option<Self::Item>> {
        match self.assigned.poll_next(cx) {
            Poll::Ready(Some(assigned)) => {
                if assigned.worker != self.worker || assigned.workers != self.workers {
                    return cx.yield_now();
                }
                match self.line_of(assigned) {
                    Ok(line) => Poll::Ready(Some(line)),
                    Err(_) => cx.yield_now(),
                }
            }
            Poll::Ready(None) => Poll::Ready(None),
            Poll::Pending => match self.looks.poll_tick(cx) {
                Poll::Ready(_) => cx.yield_now(),
                Poll::Pending => Poll::Pending,
            },
        }
    }
}

/// A worker over the lines that come in, and its desk. It has no faults: its lines end with theirs.
#[derive(Drop)]
pub struct WorkerTask<K: Connection, D> {
    worker: Worker<IncomingLines<K>, D>,
}

impl<K: Connection, D: Desk> WorkerTask<K, D> {
    /// A worker with no lines.
    pub fn new(alloc: Global, lines: IncomingLines<K>, desk: D) -> WorkerTask<K, D>
        ensures { (result.worker.arrivals ≡ lines) × (result.worker.desk ≡ desk) }
    {
        WorkerTask {
            worker: Worker::new(alloc, lines, desk),
        }
    }
}

impl<K: Connection, D: Desk> Future for WorkerTask<K, D> {
    type Output = Result<u64, ServerFault>;

    ghost gives = { λ _ r. IsOk r };

    fn poll(&mut self, cx: &mut Context<'_>) -> Poll<Result<u64, ServerFault>> {
        match self.worker.poll(cx) {
            Poll::Ready(ended) => Poll::Ready(Ok(ended)),
            Poll::Pending => Poll::Pending,
        }
    }
}

impl<K: Connection, D: Desk> Resumable for WorkerTask<K, D> {
    ghost can_go_on = { λ _. tt };

    ghost gives_the_same = { λ _ _ _ given. given };
}
