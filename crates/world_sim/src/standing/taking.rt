//! Clients that are given replies, give up and release.
ghost use Rattle.std.specs.Prelude.{◌≡◌, if◌then◌else◌};
ghost use Rattle.member_core.specs.Asking.{after_giving_up};
ghost use Rattle.member_core.specs.Releasing.{may_release, after_release};
ghost use Rattle.world_sim.specs.Standing.{client_of};
ghost use Rattle.world_sim.specs.Stands.{TakesReply, WasTaken};

use super::Standing;
use member_core::{Idle, Member, Next, Outside, Partition, Released, Releasing, Sent, Steady};
use std::alloc::AllocError;

/// What became of a member that waited in the state `S` and was given bytes.
#[derive(Drop)]
pub(crate) enum Taken<S: Idle> {
    /// It took the reply, and stands here.
    Moved(Standing),
    /// It took the reply, and is in the state from which it asked.
    Back(Member<S>),
    /// The bytes are no reply to its request.
    Waits(Member<Sent<S>>),
    /// A growth was refused.
    Short(Member<Sent<S>>),
}

impl Standing {
    /// Takes a reply, and says whether it is one to the request for which the client waits. Where it isn't, and where
    /// memory is short, the client is as it was.
    pub(crate) fn take(self, body: &[u8]) -> (Standing, Result<bool, AllocError>)
        ensures { TakesReply (client_of self) body.now result.1 (client_of result.0) }
    {
        let _ = self.state();
        match self {
            Standing::Joining(member) => take_joining(member, body),
            Standing::BeatingSteady(member) => take_steady(member, body),
            Standing::BeatingReleasing(member) => take_releasing(member, body),
            Standing::Outside(member) => (Standing::Outside(member), Ok(false)),
            Standing::Steady(member) => (Standing::Steady(member), Ok(false)),
            Standing::Releasing(member) => (Standing::Releasing(member), Ok(false)),
            Standing::Gone(member) => (Standing::Gone(member), Ok(false)),
        }
    }

    /// Waits no longer, and says whether the client did. Takes no memory.
    pub(crate) fn give_up(self) -> (Standing, bool)
        ensures waited { result.1 ≡ (client_of self).waits }
        ensures after { client_of result.0 ≡ (if (client_of self).waits then after_giving_up (client_of self) else client_of self) }
    {
        let _ = self.state();
        match self {
            Standing::Joining(member) => (Standing::Outside(member.give_up()), true),
            Standing::BeatingSteady(member) => (Standing::Steady(member.give_up()), true),
            Standing::BeatingReleasing(member) => (Standing::Releasing(member.give_up()), true),
            Standing::Outside(member) => (Standing::Outside(member), false),
            Standing::Steady(member) => (Standing::Steady(member), false),
            Standing::Releasing(member) => (Standing::Releasing(member), false),
            Standing::Gone(member) => (Standing::Gone(member), false),
        }
    }

    /// Releases a partition, and says whether the client may release any. Takes no memory.
    pub(crate) fn release(self, p: &Partition) -> (Standing, bool)
        ensures may { result.1 ≡ may_release (client_of self) }
        ensures after { client_of result.0 ≡ (if may_release (client_of self) then after_release (client_of self) p.now else client_of self) }
    {
        let _ = self.state();
        match self {
            Standing::Releasing(member) => match member.release(p) {
                Released::Steady(member) => (Standing::Steady(member), true),
                Released::Releasing(member) => (Standing::Releasing(member), true),
            },
            Standing::Outside(member) => (Standing::Outside(member), false),
            Standing::Steady(member) => (Standing::Steady(member), false),
            Standing::Gone(member) => (Standing::Gone(member), false),
            Standing::Joining(member) => (Standing::Joining(member), false),
            Standing::BeatingSteady(member) => (Standing::BeatingSteady(member), false),
            Standing::BeatingReleasing(member) => (Standing::BeatingReleasing(member), false),
        }
    }
}

/// Gives bytes to a member that waits for the reply to its join.
fn take_joining(member: Member<Sent<Outside>>, body: &[u8]) -> (Standing, Result<bool, AllocError>)
    ensures { TakesReply member body.now result.1 (client_of result.0) }
{
    match take_waiting(member, body) {
        Taken::Moved(standing) => (standing, Ok(true)),
        Taken::Back(member) => (Standing::Outside(member), Ok(true)),
        Taken::Waits(member) => (Standing::Joining(member), Ok(false)),
        Taken::Short(member) => (Standing::Joining(member), Err(AllocError)),
    }
}

/// Gives bytes to a member that waits for the reply to a heartbeat.
fn take_steady(member: Member<Sent<Steady>>, body: &[u8]) -> (Standing, Result<bool, AllocError>)
    ensures { TakesReply member body.now result.1 (client_of result.0) }
{
    match take_waiting(member, body) {
        Taken::Moved(standing) => (standing, Ok(true)),
        Taken::Back(member) => (Standing::Steady(member), Ok(true)),
        Taken::Waits(member) => (Standing::BeatingSteady(member), Ok(false)),
        Taken::Short(member) => (Standing::BeatingSteady(member), Err(AllocError)),
    }
}

/// Gives bytes to a member that waits for the reply to a heartbeat, with something to release.
fn take_releasing(
    member: Member<Sent<Releasing>>,
    body: &[u8],
) -> (Standing, Result<bool, AllocError>)
    ensures { TakesReply member body.now result.1 (client_of result.0) }
{
    match take_waiting(member, body) {
        Taken::Moved(standing) => (standing, Ok(true)),
        Taken::Back(member) => (Standing::Releasing(member), Ok(true)),
        Taken::Waits(member) => (Standing::BeatingReleasing(member), Ok(false)),
        Taken::Short(member) => (Standing::BeatingReleasing(member), Err(AllocError)),
    }
}

/// Gives bytes to a member that waits.
fn take_waiting<S: Idle>(member: Member<Sent<S>>, body: &[u8]) -> Taken<S>
    ensures { WasTaken member body.now result }
{
    match member.take(body) {
        Next::Steady(member) => Taken::Moved(Standing::Steady(member)),
        Next::Releasing(member) => Taken::Moved(Standing::Releasing(member)),
        Next::Outside(member) => Taken::Moved(Standing::Outside(member)),
        Next::Gone(member, _) => Taken::Moved(Standing::Gone(member)),
        Next::Kept(member, _) => Taken::Back(member),
        Next::Still(member) => Taken::Waits(member),
        Next::NoMemory(member) => Taken::Short(member),
    }
}
