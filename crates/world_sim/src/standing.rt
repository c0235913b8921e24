//! Clients by their states.
ghost use Rattle.std.specs.Prelude.{◌≡◌, ◌↔◌, IsTrue};
ghost use Rattle.std.specs.Option.{option_copied};
ghost use Rattle.member_core.specs.Client.{state_of};
ghost use Rattle.world_sim.specs.Fitting.{IsIdle};
ghost use Rattle.world_sim.specs.Standing.{client_of, state_value, HasState};

mod asking;
mod taking;

use crate::state::ClientState;
use member_core::{
    EpochNumber, Gone, Member, Outside, PartSet, Present, Releasing, Sent, Settings, Steady,
};
use std::alloc::Global;

/// A client as the member that it is.
#[derive(Drop)]
pub(crate) enum Standing {
    Outside(Member<Outside>),
    Steady(Member<Steady>),
    Releasing(Member<Releasing>),
    Gone(Member<Gone>),
    /// It waits for the reply to its join.
    Joining(Member<Sent<Outside>>),
    /// It waits for the reply to a heartbeat.
    BeatingSteady(Member<Sent<Steady>>),
    BeatingReleasing(Member<Sent<Releasing>>),
}

impl Standing {
    /// One that is no client's, to hold a place. Takes no memory.
    pub(crate) fn nobody(alloc: Global) -> Standing {
        let settings = Settings {
            group: String::new(alloc),
            instance: None,
            rack: None,
            rebalance_timeout: 0,
            names: Vec::new(alloc),
            assignor: None,
        };
        Standing::Outside(Member::new(alloc, settings))
    }

    /// The client's state.
    pub(crate) fn state(&self) -> ClientState
        ensures state { state_value result ≡ state_of (client_of self.now) }
        ensures known { HasState self.now }
    {
        match self {
            Standing::Outside(member) => {
                let _ = member.own();
                ClientState::Outside
            }
            Standing::Steady(member) => {
                let _ = member.own();
                ClientState::Steady
            }
            Standing::Releasing(member) => {
                let _ = member.own();
                ClientState::Releasing
            }
            Standing::Gone(member) => {
                let _ = member.own();
                ClientState::Gone
            }
            Standing::Joining(member) => {
                let _ = member.own();
                ClientState::Outside
            }
            Standing::BeatingSteady(member) => {
                let _ = member.own();
                ClientState::Steady
            }
            Standing::BeatingReleasing(member) => {
                let _ = member.own();
                ClientState::Releasing
            }
        }
    }

    /// Whether the client is inside its group, and doesn't wait.
    pub(crate) fn is_idle(&self) -> bool
        ensures { IsTrue result ↔ IsIdle (client_of self.now) }
    {
        let _ = self.state();
        match self {
            Standing::Outside(_) => false,
            Standing::Steady(_) => true,
            Standing::Releasing(_) => true,
            Standing::Gone(_) => false,
            Standing::Joining(_) => false,
            Standing::BeatingSteady(_) => false,
            Standing::BeatingReleasing(_) => false,
        }
    }

    /// The client's id, where it has one.
    pub(crate) fn id(&self) -> Option<&str>
        ensures { option_copied result ≡ (client_of self.now).id }
    {
        match self {
            Standing::Outside(member) => member.id(),
            Standing::Steady(member) => member.id(),
            Standing::Releasing(member) => member.id(),
            Standing::Gone(member) => member.id(),
            Standing::Joining(member) => member.id(),
            Standing::BeatingSteady(member) => member.id(),
            Standing::BeatingReleasing(member) => member.id(),
        }
    }

    /// The member epoch that the client knows.
    pub(crate) fn epoch(&self) -> EpochNumber
        ensures { result ≡ (client_of self.now).epoch }
    {
        match self {
            Standing::Outside(member) => member.epoch(),
            Standing::Steady(member) => member.epoch(),
            Standing::Releasing(member) => member.epoch(),
            Standing::Gone(member) => member.epoch(),
            Standing::Joining(member) => member.epoch(),
            Standing::BeatingSteady(member) => member.epoch(),
            Standing::BeatingReleasing(member) => member.epoch(),
        }
    }

    /// The partitions that the client reads.
    pub(crate) fn own(&self) -> &PartSet
        ensures { result.now ≡ (client_of self.now).own }
    {
        match self {
            Standing::Outside(member) => member.own(),
            Standing::Steady(member) => member.own(),
            Standing::Releasing(member) => member.own(),
            Standing::Gone(member) => member.own(),
            Standing::Joining(member) => member.own(),
            Standing::BeatingSteady(member) => member.own(),
            Standing::BeatingReleasing(member) => member.own(),
        }
    }
}
