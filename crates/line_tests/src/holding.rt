//! A desk that holds its replies, and a source that tells when it lets them go.
ghost use Rattle.std.specs.Prelude.{◌≡◌, ⊤};

use futures::task::{Context, Poll, Source, Waker};
use link_futures::{Answered, Desk, Stamp};
use std::alloc::AllocError;
use std::cell::{Cell, RefCell};

/// Whether the replies of a desk may be sent, and the task that waits for it.
#[derive(Drop)]
pub struct Hold {
    is_released: Cell<bool>,
    asked: Cell<u32>,
    waiting: RefCell<Option<Waker>>,
}

impl Hold {
    /// No reply may be sent.
    pub fn new() -> Hold {
        Hold {
            is_released: Cell::new(false),
            asked: Cell::new(0),
            waiting: RefCell::new(None),
        }
    }

    /// How often lines have asked.
    pub fn asked(&self) -> u32 {
        self.asked.get()
    }

    /// Lets all replies be sent, and wakes the task that waits for it.
    pub fn release(&self) {
        self.is_released.set(true);
        if let Ok(mut waiting) = self.waiting.try_borrow_mut() {
            *waiting = None;
        }
    }
}

/// A desk that answers each frame with one byte, and holds the replies until they are released.
#[derive(Drop)]
pub struct Holding<'a> {
    source: Source,
    hold: &'a Hold,
}

impl<'a> Holding<'a> {
    pub fn new(hold: &'a Hold) -> Holding<'a> {
        let source = Source::new();
        Holding { source, hold }
    }
}

impl<'a> Desk for Holding<'a> {
    ghost answers = { λ _ _ _ _ _. ⊤ };

    ghost lacks = { λ _ _. ⊤ };

    ghost wakes = { λ d source. source ≡ d.source.id };

    fn answer(
        &mut self,
        _body: &[u8],
        _stamp: Stamp,
        out: &mut Vec<u8>,
    ) -> Result<Answered, AllocError> {
        out.extend_from_slice(&[0, 0, 0, 1, 7])?;
        Ok(Answered::Replied)
    }

    fn may_send(&self, _stamp: Stamp) -> bool {
        self.hold.is_released.get()
    }

    fn poll_send(&self, cx: &mut Context<'_>, stamp: Stamp) -> Poll<()> {
        self.hold.asked.set(self.hold.asked.get().wrapping_add(1));
        if self.may_send(stamp) {
            return Poll::Ready(());
        }
        match self.hold.waiting.try_borrow_mut() {
            Ok(mut waiting) => cx.register(&self.source, &mut waiting),
            Err(_) => cx.yield_now(),
        }
    }
}
