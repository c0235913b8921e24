//! Members that wait for a reply.
ghost use Rattle.std.specs.Prelude.{◌≡◌, false};
ghost use Rattle.member_core.specs.Asking.{after_giving_up};
ghost use Rattle.member_core.specs.Client.{Inside};
ghost use Rattle.member_core.specs.Next.{IsNext, IsInside};

use super::Member;
use crate::machine::{Machine, Outcome};
use crate::stage::{Gone, Idle, Outside, Releasing, Sent, Steady};

/// What a member that waited in the state `S` is once it was given bytes.
#[derive(Drop)]
pub enum Next<S: Idle> {
    /// It is inside its group, and is shown all that it owns.
    Steady(Member<Steady>),
    /// It is inside its group, and has to release some of what it owns.
    Releasing(Member<Releasing>),
    /// It isn't a member any more, and may join again.
    Outside(Member<Outside>),
    /// It is gone, by the error code of the reply.
    Gone(Member<Gone>, i16),
    /// Nothing has happened, by the error code of the reply: it may ask again.
    Kept(Member<S>, i16),
    /// The bytes are no reply to its request: it waits on.
    Still(Member<Sent<S>>),
    /// A growth was refused: it waits on, and may be given the bytes again.
    NoMemory(Member<Sent<S>>),
}

impl<S: Idle> Member<Sent<S>> {
    /// Takes the body of the reply to the member's request (KIP-848, "ConsumerGroupHeartbeatResponse"). Bytes that are
    /// no reply to it leave the member as it is: unreadable ones, those of another number, and a success without an id
    /// or below member epoch 1.
    pub fn take(self, body: &[u8]) -> Next<S>
        ensures { IsNext self body.now result }
    {
        let mut machine = self.into_machine();
        match machine.take(body) {
            Ok(Some(Outcome::Accepted)) => inside(machine),
            Ok(Some(Outcome::Fenced)) => Next::Outside(Member::of(machine)),
            Ok(Some(Outcome::Kept(code))) => Next::Kept(Member::of(machine), code),
            Ok(Some(Outcome::Ended(code))) => Next::Gone(Member::of(machine), code),
            Ok(None) => Next::Still(Member::of(machine)),
            Err(_) => Next::NoMemory(Member::of(machine)),
        }
    }

    /// Waits no longer for the reply: the member is in the state from which it asked, and its next heartbeat is full.
    /// Takes no memory.
    pub fn give_up(self) -> Member<S>
        ensures { result ≡ after_giving_up self }
    {
        let mut machine = self.into_machine();
        machine.give_up();
        Member::of(machine)
    }
}

/// A member inside its group, by whether it has something to release.
fn inside<S: Idle>(machine: Machine) -> Next<S>
    requires place { machine.place ≡ Inside }
    requires idle { machine.waits ≡ false }
    ensures { IsInside machine result }
{
    if machine.has_to_release() {
        Next::Releasing(Member::of(machine))
    } else {
        Next::Steady(Member::of(machine))
    }
}
