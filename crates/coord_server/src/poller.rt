//! What the acceptor waits for, and how threads that have ended wake it.

use crate::fault::ServerFault;
use crate::listener::Listener;
use mio::{Events, Poll, Token, Waker};
use std::alloc::AllocGlobal;
use std::io;
use std::net::Net;
use std::sync::atomic::{AtomicBool, AtomicU64, Ordering};
use std::time::Duration;

/// What the sources of events are known by.
const LISTENER: Token = Token(0);

const WAKER: Token = Token(1);

/// How often a call that is interrupted is made.
const MOST_CALLS: u64 = 1_000;

/// What the acceptor waits by, for connections and for threads that have ended.
#[derive(Drop)]
pub struct Poller {
    poll: Poll,
    events: Events,
}

impl Poller {
    /// A poller for the connections of a listener.
    pub fn new<L, R>(rt: &R, listener: &mut L) -> Result<Poller, ServerFault>
    where
        L: Listener,
        R: Net + AllocGlobal,
    {
        let poll = Poll::new(rt)?;
        listener.register(poll.registry(), LISTENER)?;
        let events = Events::with_capacity(rt.alloc(), 4)?;
        Ok(Poller { poll, events })
    }

    /// A waker that ends a wait. No thread has ended.
    pub fn waker(&self) -> Result<AcceptorWaker, ServerFault> {
        Ok(AcceptorWaker::new(Waker::new(self.poll.registry(), WAKER)?))
    }

    /// Waits for a connection, for the waker, or for so long.
    pub fn wait(&mut self, limit: Option<Duration>) -> Result<(), ServerFault> {
        match self.poll.poll(&mut self.events, limit) {
            Ok(()) => Ok(()),
            Err(error) => Err(ServerFault::Loop(error)),
        }
    }
}

/// How threads that have ended wake the acceptor. Each of them tells it once.
#[derive(Drop)]
pub struct AcceptorWaker {
    /// Ends the acceptor's wait.
    waker: Waker,
    /// How many threads have ended without a fault.
    ended: AtomicU64,
    has_failed: AtomicBool,
}

impl AcceptorWaker {
    /// A waker that no thread has told of its end.
    pub fn new(waker: Waker) -> AcceptorWaker {
        AcceptorWaker {
            waker,
            ended: AtomicU64::new(0),
            has_failed: AtomicBool::new(false),
        }
    }

    /// Says that the calling thread's work has ended, with a fault or without one, and wakes the acceptor.
    pub fn tell_end(&self, has_failed: bool) {
        if has_failed {
            self.has_failed.store(true, Ordering::SeqCst);
        } else {
            self.ended.fetch_add(1, Ordering::SeqCst);
        }
        self.wake();
    }

    /// Ends the acceptor's wait. A call that is interrupted is made again.
    fn wake(&self) {
        for _ in 0..MOST_CALLS {
            match self.waker.wake() {
                Err(error) if error.kind() == io::ErrorKind::Interrupted => {}
                _ => return,
            }
        }
    }

    /// How many threads have ended without a fault.
    pub fn ended(&self) -> u64 {
        self.ended.load(Ordering::SeqCst)
    }

    /// Whether a thread has ended with a fault.
    pub fn has_failed(&self) -> bool {
        self.has_failed.load(Ordering::SeqCst)
    }
}
