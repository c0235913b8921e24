//! What a turn of a line came to.
use crate::end::End;

/// What a turn of a line came to.
#[derive(Clone, Copy)]
pub(crate) enum Turned {
    /// The line has ended.
    Ends(End),
    /// It waits for its reader, its writer or the desk, which will wake the task.
    Waits,
    /// It has more to do, and nobody would wake the task for that.
    GoesOn,
}
