//! Gates that hold threads of a server up, and that a test looks at.

use coord_server::{AlwaysOpen, Gate, Stamp};
use std::sync::atomic::{AtomicU64, Ordering};
use std::thread;
use std::time::{Clock, Duration};

/// How many turns a gate looks for what it waits for. A turn is one look and a short sleep.
const MOST_TURNS: u64 = 10_000;

/// The microseconds of that sleep.
const TURN: u64 = 200;

/// A gate that a test looks at.
pub trait Watched: Gate + Drop + Sync {
    /// From now on it holds threads up.
    fn arm(&self) {}

    /// The reply on the connection with this number has come to its client.
    fn reply_is_out(&self, _connection: u64) {}

    /// Whether it held a thread up for more turns than it may, or a reply went out without its leave.
    fn was_late(&self) -> bool {
        false
    }
}

impl Watched for AlwaysOpen {}

/// A gate under which the steps of two shards wait for each other to begin.
#[derive(Drop)]
pub struct Meeting<'a, R> {
    clock: &'a R,
    is_armed: AtomicU64,
    /// Whether a step of shard 0 has begun.
    first: AtomicU64,
    /// Whether a step of another shard has begun.
    second: AtomicU64,
    late: AtomicU64,
}

impl<'a, R: Clock> Meeting<'a, R> {
    pub fn new(clock: &'a R) -> Meeting<'a, R> {
        Meeting {
            clock,
            is_armed: AtomicU64::new(0),
            first: AtomicU64::new(0),
            second: AtomicU64::new(0),
            late: AtomicU64::new(0),
        }
    }

    /// Waits for a step to begin, or until it is too late.
    fn wait_for(&self, begun: &AtomicU64) {
        for _ in 0..MOST_TURNS {
            if begun.load(Ordering::SeqCst) == 1 {
                return;
            }
            thread::sleep(self.clock, Duration::from_micros(TURN));
        }
        self.late.store(1, Ordering::SeqCst);
    }
}

impl<'a, R: Clock> Gate for Meeting<'a, R> {
    fn inside(&self, shard: usize) {
        if self.is_armed.load(Ordering::SeqCst) == 0 {
            return;
        }
        if shard == 0 {
            self.first.store(1, Ordering::SeqCst);
            self.wait_for(&self.second);
        } else {
            self.second.store(1, Ordering::SeqCst);
            self.wait_for(&self.first);
        }
    }

    fn may_reply(&self, _stamp: Stamp) -> bool {
        true
    }
}

impl<'a, R: Clock + Sync> Watched for Meeting<'a, R> {
    fn arm(&self) {
        self.is_armed.store(1, Ordering::SeqCst);
    }

    fn was_late(&self) -> bool {
        self.late.load(Ordering::SeqCst) == 1
    }
}

/// A gate that holds the reply on one connection until that on another is out. It counts too long a hold as late, and a reply that went
/// out without its leave.
#[derive(Drop)]
pub struct Crossing<'a, R> {
    clock: &'a R,
    held: u64,
    is_out: AtomicU64,
    turns: AtomicU64,
    /// How often it has let the held reply go.
    leaves: AtomicU64,
}

impl<'a, R: Clock> Crossing<'a, R> {
    pub fn new(clock: &'a R, held: u64) -> Crossing<'a, R> {
        Crossing {
            clock,
            held,
            is_out: AtomicU64::new(0),
            turns: AtomicU64::new(0),
            leaves: AtomicU64::new(0),
        }
    }
}

impl<'a, R: Clock> Gate for Crossing<'a, R> {
    fn inside(&self, _shard: usize) {}

    fn may_reply(&self, stamp: Stamp) -> bool {
        if stamp.connection != self.held {
            return true;
        }
        if self.is_out.load(Ordering::SeqCst) == 1 {
            self.leaves.fetch_add(1, Ordering::SeqCst);
            return true;
        }
        thread::sleep(self.clock, Duration::from_micros(TURN));
        MOST_TURNS <= self.turns.fetch_add(1, Ordering::SeqCst)
    }
}

impl<'a, R: Clock + Sync> Watched for Crossing<'a, R> {
    fn reply_is_out(&self, connection: u64) {
        if connection != self.held {
            self.is_out.store(1, Ordering::SeqCst);
        }
    }

    fn was_late(&self) -> bool {
        MOST_TURNS < self.turns.load(Ordering::SeqCst) || self.leaves.load(Ordering::SeqCst) == 0
    }
}
