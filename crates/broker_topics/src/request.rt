//! What a client asks, and what it gets.

use crate::held::Held;
use broker_messages::{MessageFault, RequestHead};
use std::alloc::{AllocError, AllocFailed};

/// A request whose head has been read, and the worker that answers it.
#[derive(Clone, Copy)]
pub struct TopicsRequest<'a> {
    pub head: RequestHead<'a>,
    /// What comes after the head.
    pub rest: &'a [u8],
    /// The number of the worker, from 0 on.
    pub worker: usize,
}

/// What a client gets.
#[derive(Drop)]
pub enum TopicsAnswer {
    /// One frame was appended.
    Replied,
    /// One frame was appended, which may wait.
    Held(Held),
    /// Nothing was appended, and the client waits for nothing: a Produce with `acks` 0.
    NoReply,
    /// Nothing was appended, and the connection is to be closed.
    Closes,
}

/// Why a request has no reply.
#[derive(Clone, Copy)]
pub(crate) enum Unanswered {
    /// The connection is to be closed: the request can't be read, or the reply can't be written.
    Closes,
    /// Memory ran out.
    NoMemory,
}

impl From<MessageFault> for Unanswered {
    fn from(fault: MessageFault) -> Unanswered {
        match fault {
            MessageFault::NoMemory => Unanswered::NoMemory,
            MessageFault::Wire(_) | MessageFault::OtherMessage | MessageFault::LeftOver => {
                Unanswered::Closes
            }
        }
    }
}

impl From<AllocError> for Unanswered {
    fn from(_error: AllocError) -> Unanswered {
        Unanswered::NoMemory
    }
}

impl<T: Drop> From<AllocFailed<T>> for Unanswered {
    fn from(_refused: AllocFailed<T>) -> Unanswered {
        Unanswered::NoMemory
    }
}
