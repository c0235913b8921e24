//! How a producer wakes the workers that hold fetches.

ghost use Rattle.std.specs.Prelude.{◌≡◌};
ghost use Rattle.futures.specs.Task.{Hears, IsArmed, Keeps};

use crate::limits::MOST_WORKERS;
use futures::task::{Context, Poll, Source, Waker};
use std::alloc::{AllocError, Global};
use std::sync::{Mutex, Wait};

/// A bell for each worker: the waker of its task, while it waits.
#[derive(Drop)]
pub(crate) struct Bells {
    wakers: Vec<Mutex<Option<Waker>>>,
}

impl Bells {
    /// Bells of [`MOST_WORKERS`] workers, for none of which a task waits.
    pub(crate) fn new(alloc: Global) -> Result<Bells, AllocError> {
        let mut wakers = Vec::with_capacity(alloc, MOST_WORKERS)?;
        for _worker in 0..MOST_WORKERS {
            wakers.push(Mutex::new(None))?;
        }
        Ok(Bells { wakers })
    }

    /// Has the task woken once the worker's bell rings. The source names the bell in the task's contracts.
    pub(crate) fn listen<R: Wait>(
        &self,
        rt: &R,
        cx: &mut Context<'_>,
        source: &Source,
        worker: usize,
    ) -> Poll<()>
        ensures pending { result ≡ Poll.Pending }
        ensures armed { IsArmed cx.new }
        ensures heard { Hears cx.new source.now.id }
        ensures kept { Keeps cx.old cx.new }
    {
        match self.wakers.get(worker) {
            Some(waker) => {
                let mut waker = waker.lock(rt);
                cx.register(source, &mut *waker)
            }
            None => cx.yield_now(),
        }
    }

    /// Rings the bells of these workers, a bit for each.
    pub(crate) fn ring<R: Wait>(&self, rt: &R, workers: u64) {
        for (worker, waker) in self.wakers.iter().enumerate() {
            if has_bit(workers, worker) {
                let waker = waker.lock(rt).take();
                drop(waker);
            }
        }
    }
}

/// Whether the worker's bit is set.
pub(crate) fn has_bit(workers: u64, worker: usize) -> bool {
    workers & bit_of(worker) != 0
}

/// The bit of a worker. One with too high a number has none.
pub(crate) fn bit_of(worker: usize) -> u64 {
    if worker < MOST_WORKERS {
        1 << worker
    } else {
        0
    }
}
