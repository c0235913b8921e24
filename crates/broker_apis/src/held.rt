//! A held reply and its time.

use broker_topics::Held;
use std::time::{Clock, Duration, Instant};

/// What the reply to a Fetch waits for, and until when.
#[derive(Drop)]
pub struct HeldFetch {
    pub(crate) held: Held,
    /// When it goes in any case. None: the clock couldn't be read.
    until: Option<Instant>,
}

impl HeldFetch {
    /// A reply that is held from now on.
    pub(crate) fn new<R: Clock>(clock: &R, held: Held) -> HeldFetch {
        let longest = Duration::from_millis(u64::from(held.max_wait_ms));
        let until = match Instant::now(clock) {
            Ok(now) => now.checked_add(longest),
            Err(_) => None,
        };
        HeldFetch { held, until }
    }

    /// Whether its time is over. It is, if the clock can't be read.
    pub(crate) fn is_over<R: Clock>(&self, clock: &R) -> bool {
        let Some(until) = self.until else {
            return true;
        };
        match Instant::now(clock) {
            Ok(now) => until <= now,
            Err(_) => true,
        }
    }
}
