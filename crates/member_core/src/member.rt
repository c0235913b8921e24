//! Members whose types say what they can do.
ghost use Rattle.std.specs.Prelude.{◌≡◌};
ghost use Rattle.std.specs.Option.{option_copied};
ghost use Rattle.member_core.specs.Client.{state_of};

mod asking;
mod committing;
mod releasing;
mod taking;

use crate::machine::Machine;
use crate::stage::Stage;
use group_types::{EpochNumber, PartSet};
pub use releasing::Released;
use std::marker::{Model, PhantomData};
pub use taking::Next;

/// A member of a consumer group, in the state `S` (KIP-848, "Consumer"). Contracts see it as a client of the client
/// machine.
#[derive(Drop)]
pub struct Member<S: Stage> {
    machine: Machine,
    stage: PhantomData<S>,
}

impl<S: Stage> Model for Member<S> {
    ghost use Rattle.std.specs.Prelude.{◌≡◌};
    ghost use Rattle.member_core.specs.Client.{Client, state_of};
    ghost use Rattle.member_core.specs.ClientCode.{client_code};

    ghost Value = { Client };

    ghost coded = { client_code };

    ghost view = { λ m. m.machine };

    ghost invariant = { λ m. (state_of m.machine ≡ S.state) × (m.machine.waits ≡ S.waits) };
}

impl<S: Stage> Member<S> {
    /// A member that knows this and is in the state.
    fn of(machine: Machine) -> Member<S>
        requires state { state_of machine ≡ S.state }
        requires waits { machine.waits ≡ S.waits }
        ensures { result ≡ machine }
    {
        Member {
            machine,
            stage: PhantomData,
        }
    }

    /// What the member knows.
    fn into_machine(self) -> Machine
        ensures value { result ≡ self }
        ensures state { state_of self ≡ S.state }
        ensures waits { self.waits ≡ S.waits }
    {
        let Member { machine, stage: _ } = self;
        machine
    }

    /// The partitions that the member reads, and what its type says of it. Takes no memory.
    pub fn own(&self) -> &PartSet
        ensures own { result.now ≡ self.now.own }
        ensures state { state_of self.now ≡ S.state }
        ensures waits { self.now.waits ≡ S.waits }
    {
        self.machine.own()
    }

    /// The member's id, where it has one: a member that is fenced keeps it. Takes no memory.
    pub fn id(&self) -> Option<&str>
        ensures { option_copied result ≡ self.now.id }
    {
        self.machine.id()
    }

    /// The member epoch that the member knows, 0 outside its group. Takes no memory.
    pub fn epoch(&self) -> EpochNumber
        ensures { result ≡ self.now.epoch }
    {
        self.machine.epoch()
    }
}
