//! What is measured.

use crate::fault::Fault;

/// A work that is measured: it is done again and again, over the same input.
pub trait Work {
    /// What the work needs of its input.
    ghost can_be_done: { Self → Type 0 };

    /// Does the work once. What it writes goes to `out`, in place of what stands there. The answer is a
    /// number that takes all of the work to know, and is the same each time.
    fn once(&self, out: &mut Vec<u8>) -> Result<usize, Fault>
        requires { Self.can_be_done self.now };
}
