//! Why a heartbeat is refused.

use group_types::Code;

/// What the checks of a heartbeat refuse it with.
#[derive(Clone, Copy, Debug, PartialEq, Eq)]
pub enum Refusal {
    /// It is answered with the code.
    Refused(Code),
    /// A later heartbeat of the member was accepted before: there is no answer, and the connection is to be closed.
    Overtaken,
}
