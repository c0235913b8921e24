//! A desk that notes whether a line has ended for want of memory.

use futures::task::{Context, Poll};
use link_futures::{Answered, Desk, End, Stamp};
use std::alloc::AllocError;
use std::sync::atomic::{AtomicBool, Ordering};

/// A desk that notes whether one of its lines has ended for want of memory.
#[derive(Drop)]
pub struct Noting<'a, D> {
    desk: D,
    has_lacked: &'a AtomicBool,
}

impl<'a, D> Noting<'a, D> {
    /// The same desk, which notes it there.
    pub fn new(desk: D, has_lacked: &'a AtomicBool) -> Noting<'a, D> {
        Noting { desk, has_lacked }
    }
}

impl<'a, D: Desk> Desk for Noting<'a, D> {
    ghost answers = { λ d body stamp answer e. D.answers d.desk body stamp answer e.desk };

    ghost lacks = { λ d e. D.lacks d.desk e.desk };

    ghost wakes = { λ d source. D.wakes d.desk source };

    fn answer(
        &mut self,
        body: &[u8],
        stamp: Stamp,
        out: &mut Vec<u8>,
    ) -> Result<Answered, AllocError> {
        self.desk.answer(body, stamp, out)
    }

    fn may_send(&self, stamp: Stamp) -> bool {
        self.desk.may_send(stamp)
    }

    fn poll_send(&self, cx: &mut Context<'_>, stamp: Stamp) -> Poll<()> {
        self.desk.poll_send(cx, stamp)
    }

    fn hear_end(&self, _connection: u64, _answered: u64, end: End) {
        if end == End::NoMemory {
            self.has_lacked.store(true, Ordering::SeqCst);
        }
    }
}
