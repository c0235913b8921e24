//! What answers the requests that are not the coordinator's.
ghost use Rattle.std.specs.Prelude.{◌≡◌, IfOk, OnErr};
ghost use Rattle.futures.specs.Task.{Covers, Keeps};
ghost use Rattle.futures.specs.Poll.{OnPending};
ghost use Rattle.broker_desk.specs.Answers.{IsAppended};

use broker_requests::TopicNames;
use coord_node::Stamp;
use futures::task::{Context, Poll, Source};
use std::alloc::AllocError;

/// The answer to a request of an API besides ConsumerGroupHeartbeat and OffsetCommit.
#[derive(Drop)]
pub enum OwnAnswer<H> {
    /// What is sent was appended: a frame, or nothing for a Produce that wants no reply.
    Replied,
    /// The same, and it waits.
    Held(H),
    /// Nothing was appended, and the connection is to be closed.
    Closes,
}

/// What answers the requests of the APIs besides ConsumerGroupHeartbeat and OffsetCommit, over the topics of a broker.
pub trait OtherApis: TopicNames + Drop {
    /// What a held reply waits for.
    type Held: Drop;

    /// Answers a request: appends one frame with its correlation id, or nothing. Fails for want of memory, and nothing was appended then.
    fn answer(&self, body: &[u8], out: &mut Vec<u8>) -> Result<OwnAnswer<Self::Held>, AllocError>
        ensures ok { IfOk result (λ answer. IsAppended body.now answer out.old.items out.new.items) }
        ensures err { OnErr result (out.new.items ≡ out.old.items) };

    /// Whether a held reply may go by now. Until then what the source names wakes the task, or the next turn of its line finds that it may.
    fn poll_held(&self, cx: &mut Context<'_>, growth: &Source, held: &Self::Held) -> Poll<()>
        ensures registered { OnPending result (Covers cx.new (λ source. source ≡ growth.now.id)) }
        ensures kept { Keeps cx.old cx.new };

    /// Is told that the connection of a stamp is closed on account of a body.
    fn note_close(&self, _stamp: Stamp, _body: &[u8]) {}
}
