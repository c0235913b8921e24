//! What a member knows, in whatever state it is.
ghost use Rattle.std.specs.Prelude.{◌≡◌};
ghost use Rattle.std.specs.Option.{option_copied};
ghost use Rattle.member_core.specs.Client.{new_client};
ghost use Rattle.member_core.specs.Views.{settings_value, HasShortTexts};

mod asking;
mod committing;
mod releasing;
mod taking;

use crate::settings::Settings;
use group_types::{EpochNumber, MemberId, PartSet};
use std::alloc::Global;
use std::marker::Model;
pub(crate) use taking::Outcome;

/// Where a member stands.
#[derive(Clone, Copy, Debug, PartialEq, Eq)]
pub(crate) enum Place {
    Outside,
    Inside,
    Gone,
}

/// What a member knows. The steps of the client machine are its methods, whatever the state that it is in.
#[derive(Drop)]
pub(crate) struct Machine {
    alloc: Global,
    settings: Settings,
    place: Place,
    id: Option<MemberId>,
    epoch: EpochNumber,
    own: PartSet,
    shown: PartSet,
    /// How many partitions of `own` aren't in `shown`.
    to_release: usize,
    /// The number of the latest request, 0 before the first.
    number: u32,
    waits: bool,
    /// The next heartbeat is full, whatever kind is asked for.
    says_all: bool,
}

impl Model for Machine {
    ghost use Rattle.member_core.specs.Client.{Client};
    ghost use Rattle.member_core.specs.ClientCode.{client_code};

    ghost Value = { Client };

    ghost coded = { client_code };

    ghost use Rattle.member_core.specs.MachineView.{machine_view, IsMachine};

    ghost view = { machine_view };

    ghost invariant = { IsMachine };
}

impl Machine {
    /// One that hasn't asked for anything yet. Takes no memory.
    pub(crate) fn new(alloc: Global, settings: Settings) -> Machine
        requires { HasShortTexts (settings_value settings) }
        ensures { result ≡ new_client (settings_value settings) }
    {
        Machine {
            alloc,
            settings,
            place: Place::Outside,
            id: None,
            epoch: EpochNumber::zero(),
            own: PartSet::new(alloc),
            shown: PartSet::new(alloc),
            to_release: 0,
            number: 0,
            waits: false,
            says_all: false,
        }
    }

    /// The partitions that the member reads.
    pub(crate) fn own(&self) -> &PartSet
        ensures { result.now ≡ self.now.own }
    {
        &self.own
    }

    /// The member's id, where it has one.
    pub(crate) fn id(&self) -> Option<&str>
        ensures { option_copied result ≡ self.now.id }
    {
        match &self.id {
            Some(id) => Some(id.as_str()),
            None => None,
        }
    }

    /// The member epoch that the member knows.
    pub(crate) fn epoch(&self) -> EpochNumber
        ensures { result ≡ self.now.epoch }
    {
        self.epoch
    }
}
