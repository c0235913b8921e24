//! What a heartbeat is answered.

ghost use Rattle.std.specs.Prelude.{◌≡◌, Some};

use crate::shown::Shown;
use group_types::limits::HEARTBEAT_INTERVAL;
use group_types::{Code, Epoch, MemberId};

/// A reply to a heartbeat. It owns its member id and its partitions, so it outlives its request.
#[derive(Drop)]
pub struct Reply {
    pub code: Code,
    /// The member's id; none beside an error.
    pub member: Option<MemberId>,
    pub epoch: i32,
    /// Milliseconds to the next heartbeat.
    pub interval: i32,
    /// The partitions that the member may read, where they are said.
    pub assignment: Option<Shown>,
}

impl Reply {
    ghost use Rattle.group_types.specs.HeartbeatStep.{epoch_number, farewell, refusal};
    ghost use Rattle.group_types.specs.Limits as limits;
    ghost use Rattle.group_core.specs.Outcome.{reply_of};

    /// The reply that says an error and nothing else. Takes no memory.
    pub fn refusal(code: Code) -> Reply
        ensures { reply_of result ≡ refusal code }
    {
        Reply {
            code,
            member: None,
            epoch: 0,
            interval: 0,
            assignment: None,
        }
    }

    /// The reply to an accepted join or beat. Takes no memory.
    pub(crate) fn acceptance(member: MemberId, epoch: Epoch, assignment: Option<Shown>) -> Reply
        ensures { reply_of result ≡ record {
          code = Code.NoError;
          member = Some member;
          epoch = epoch_number epoch;
          interval = limits.HEARTBEAT_INTERVAL;
          assignment = assignment;
        } }
    {
        Reply {
            code: Code::NoError,
            member: Some(member),
            epoch: match epoch {
                Epoch::At(number) => number.as_i32(),
                Epoch::Away => -2,
            },
            interval: HEARTBEAT_INTERVAL,
            assignment,
        }
    }

    /// The reply to a member that leaves, at the member epoch of its heartbeat. Takes no memory.
    pub(crate) fn farewell(member: MemberId, epoch: i32) -> Reply
        ensures { reply_of result ≡ farewell member epoch }
    {
        Reply {
            code: Code::NoError,
            member: Some(member),
            epoch,
            interval: 0,
            assignment: None,
        }
    }
}

/// What becomes of a heartbeat.
#[derive(Drop)]
pub enum Outcome {
    /// It is answered.
    Reply(Reply),
    /// A later heartbeat of the member was accepted before: it is not answered, and its connection is to be closed.
    Overtaken,
}
