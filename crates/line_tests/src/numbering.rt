//! A desk that numbers the frames that it answers, over all its lines.
ghost use Rattle.std.specs.Prelude.{⊤};

use link_futures::{Answered, Desk, Stamp};
use std::alloc::AllocError;

/// A desk that answers each frame with the number of frames that it has answered by then, of whichever line: the first with 1.
#[derive(Drop)]
pub struct Numbering {
    answered: u8,
    /// The reply to the frame with this number is held.
    held: u64,
}

impl Numbering {
    /// A desk that has answered no frame, and holds no reply.
    pub fn new() -> Numbering {
        Numbering::holding(0)
    }

    /// A desk that has answered no frame, and holds the reply to the frame with this number. Frames are numbered from 1.
    pub fn holding(held: u64) -> Numbering {
        Numbering { answered: 0, held }
    }
}

impl Desk for Numbering {
    ghost answers = { λ _ _ _ _ _. ⊤ };

    ghost lacks = { λ _ _. ⊤ };

    fn answer(
        &mut self,
        _body: &[u8],
        _stamp: Stamp,
        out: &mut Vec<u8>,
    ) -> Result<Answered, AllocError> {
        let number = self.answered.wrapping_add(1);
        out.extend_from_slice(&[0, 0, 0, 1, number])?;
        self.answered = number;
        Ok(Answered::Replied)
    }

    fn may_send(&self, stamp: Stamp) -> bool {
        stamp.frame != self.held
    }
}

/// Puts the numbers of replies, behind a bar where others stand before them.
pub fn put_numbers(replies: &[u8], out: &mut String) -> Result<(), AllocError> {
    if !out.is_empty() {
        out.push_str(" | ")?;
    }
    for (index, reply) in replies.chunks(5).enumerate() {
        if index > 0 {
            out.push_str(" ")?;
        }
        write!(out, "{}", reply.last().copied().unwrap_or(0))?;
    }
    Ok(())
}
