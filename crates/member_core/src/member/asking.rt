//! Members that are made, join, beat and quit.
ghost use Rattle.std.specs.Prelude.{◌≡◌, IfOk, IfErr};
ghost use Rattle.member_core.specs.Asking.{Join, Beat};
ghost use Rattle.member_core.specs.Client.{new_client};
ghost use Rattle.member_core.specs.Kinds.{fullness, quit_ask};
ghost use Rattle.member_core.specs.Refusing.{Sends, refusal_of, IsFault};
ghost use Rattle.member_core.specs.Views.{settings_value, HasShortTexts};

use super::Member;
use crate::ask::{Ask, Kind, Quit};
use crate::fault::BeatFault;
use crate::machine::Machine;
use crate::settings::Settings;
use crate::stage::{Gone, Outside, Present, Sent};
use std::alloc::Global;

impl Member<Outside> {
    /// A member that has yet to join. Takes no memory.
    pub fn new(alloc: Global, settings: Settings) -> Member<Outside>
        requires { HasShortTexts (settings_value settings) }
        ensures { result ≡ new_client (settings_value settings) }
    {
        Member::of(Machine::new(alloc, settings))
    }

    /// Asks to join, and gives the request's frame, size and body. A join says all of the settings, reports that the
    /// member owns nothing, and names the id that the member has, if any (KIP-848).
    ///
    /// Where it is refused the member comes back as it was. Faults, judged in this order: `Spent`, which takes no memory to
    /// see; then `TooLarge` or `NoMemory`.
    pub fn join(self) -> Result<(Member<Sent<Outside>>, Vec<u8>), (Member<Outside>, BeatFault)>
        ensures sends { IfOk result (λ x. Sends self Join x.1.items x.0) }
        ensures unchanged { IfErr result (λ x. x.0 ≡ self) }
        ensures fault { IfErr result (λ x. IsFault (refusal_of self Join) x.1) }
    {
        let mut machine = self.into_machine();
        match machine.ask(Ask::Join) {
            Ok(frame) => Ok((Member::of(machine), frame)),
            Err(fault) => Err((Member::of(machine), fault)),
        }
    }
}

impl<S: Present> Member<S> {
    /// Asks with a heartbeat of this kind, or a full one after a request that was given up, and gives the request's
    /// frame, size and body (KIP-848, "ConsumerGroupHeartbeat API").
    ///
    /// Where it is refused the member comes back as it was. Faults, judged in this order: `Spent`, which takes no memory to
    /// see; then `TooLarge` or `NoMemory`.
    pub fn beat(self, kind: Kind) -> Result<(Member<Sent<S>>, Vec<u8>), (Member<S>, BeatFault)>
        ensures sends { IfOk result (λ x. Sends self (Beat (fullness kind)) x.1.items x.0) }
        ensures unchanged { IfErr result (λ x. x.0 ≡ self) }
        ensures fault { IfErr result (λ x. IsFault (refusal_of self (Beat (fullness kind))) x.1) }
    {
        let mut machine = self.into_machine();
        match machine.ask(Ask::Beat(kind)) {
            Ok(frame) => Ok((Member::of(machine), frame)),
            Err(fault) => Err((Member::of(machine), fault)),
        }
    }

    /// Leaves the group for good or for a while, and gives the request's frame, size and body (KIP-848). The member
    /// doesn't wait for the reply: it is gone, and owns nothing.
    ///
    /// Where it is refused the member comes back as it was. Faults, judged in this order: `NoInstance`, `Spent`, which take
    /// no memory to see; then `TooLarge` or `NoMemory`.
    pub fn quit(self, quit: Quit) -> Result<(Member<Gone>, Vec<u8>), (Member<S>, BeatFault)>
        ensures sends { IfOk result (λ x. Sends self (quit_ask quit) x.1.items x.0) }
        ensures unchanged { IfErr result (λ x. x.0 ≡ self) }
        ensures fault { IfErr result (λ x. IsFault (refusal_of self (quit_ask quit)) x.1) }
    {
        let mut machine = self.into_machine();
        match machine.ask(Ask::Quit(quit)) {
            Ok(frame) => Ok((Member::of(machine), frame)),
            Err(fault) => Err((Member::of(machine), fault)),
        }
    }
}
