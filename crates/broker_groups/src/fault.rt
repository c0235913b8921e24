//! Why a request has no reply.

use broker_messages::MessageFault;
use std::alloc::{AllocError, AllocFailed};

/// Why a request has no reply.
#[derive(Clone, Copy)]
pub(crate) enum Unanswered {
    /// The connection is to be closed: the request can't be read, or its reply would be too long.
    Closes,
    /// Memory ran out.
    NoMemory,
}

impl From<MessageFault> for Unanswered {
    fn from(fault: MessageFault) -> Unanswered {
        match fault {
            MessageFault::NoMemory => Unanswered::NoMemory,
            MessageFault::Wire(_) | MessageFault::OtherMessage | MessageFault::LeftOver => {
                Unanswered::Closes
            }
        }
    }
}

impl From<AllocError> for Unanswered {
    fn from(_error: AllocError) -> Unanswered {
        Unanswered::NoMemory
    }
}

impl<T: Drop> From<AllocFailed<T>> for Unanswered {
    fn from(_refused: AllocFailed<T>) -> Unanswered {
        Unanswered::NoMemory
    }
}
