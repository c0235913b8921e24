//! What comes to shards, and what becomes of it.
ghost use Rattle.std.specs.Prelude.{◌≡◌, ◌↔◌, IfOk, IsTrue};

use crate::fault::CallFault;
use crate::incoming::{Effect, Incoming};
use crate::octets::Octets;
use coord_node::Answered;
use group_types::{Moment, Stamp};
use std::alloc::{AllocError, Global};
use topic_meta::Image;

/// What comes to shards.
#[derive(Drop)]
pub enum Event {
    /// The body of a frame, with the stamp and the moment at which it came.
    Frame {
        body: Octets,
        stamp: Stamp,
        moment: Moment,
    },
    /// The time of a shard goes on to a moment. A shard that isn't there counts as shard 0.
    Tick {
        shard: usize,
        moment: Moment,
    },
    /// A new image of the topics, for a shard. A shard that isn't there counts as shard 0.
    Image {
        shard: usize,
        image: Image,
    },
}

/// What becomes of an event.
#[derive(Debug, Drop)]
pub enum Answer {
    /// The frame of the reply.
    Replied(Octets),
    /// The connection is to be closed.
    Closes,
    /// How many members a tick removed; 0 for an image.
    Done(usize),
    /// The event was dropped, and nothing has changed: [`CallFault`] has the reasons.
    Refused,
}

impl Answer {
    ghost use Rattle.std.specs.Prelude.{◌≡◌, ◌↔◌, IfOk, IsTrue, OnErr, Some, []};
    ghost use Rattle.coord_node.specs.Coordinator.{Answer as GivenAnswer};
    ghost use Rattle.coord_shards.specs.Events.{node_answer, IsGiven};

    /// The answer by what became of the event, with the bytes of its reply.
    pub(crate) fn of(taken: Result<Effect, CallFault>, bytes: Vec<u8>) -> Answer
        ensures given { IfOk taken (λ outcome. (given : GivenAnswer) → IsGiven outcome [] bytes.items given → node_answer result ≡ Some given) }
        ensures refused { OnErr taken (result ≡ Answer.Refused) }
    {
        match taken {
            Ok(Effect::Answered(Answered::Replied)) => Answer::Replied(Octets::of(bytes)),
            Ok(Effect::Answered(Answered::Closes)) => Answer::Closes,
            Ok(Effect::Done(removed)) => Answer::Done(removed),
            Err(_) => Answer::Refused,
        }
    }

    /// Whether the event was refused.
    pub fn is_refused(&self) -> bool
        ensures { IsTrue result ↔ (self.now ≡ Answer.Refused) }
    {
        matches!(self, Answer::Refused)
    }
}

impl Event {
    /// An equal event. Fails where memory is short.
    pub fn copy(&self, alloc: Global) -> Result<Event, AllocError>
        ensures { IfOk result (λ event. event ≡ self.now) }
    {
        let lent = Incoming::of(alloc, self)?;
        let copied = lent.copy(alloc);
        drop(lent);
        copied
    }

    /// Whether the two are the same event.
    pub fn equals(&self, other: &Event) -> bool
        ensures { IsTrue result ↔ (self.now ≡ other.now) }
    {
        match (self, other) {
            (
                Event::Frame {
                    body,
                    stamp,
                    moment,
                },
                Event::Frame {
                    body: other_body,
                    stamp: other_stamp,
                    moment: other_moment,
                },
            ) => *stamp == *other_stamp && *moment == *other_moment && body.equals(other_body),
            (
                Event::Tick { shard, moment },
                Event::Tick {
                    shard: other_shard,
                    moment: other_moment,
                },
            ) => *shard == *other_shard && *moment == *other_moment,
            (
                Event::Image { shard, image },
                Event::Image {
                    shard: other_shard,
                    image: other_image,
                },
            ) => *shard == *other_shard && image.equals(other_image),
            _ => false,
        }
    }
}
