//! Worlds and what happens in them.

ghost use Rattle.std.specs.Prelude.{◌≡◌, map, All, MatchOption, None, IfOk, IfErr};
ghost use Rattle.member_core.specs.Client.{new_client};
ghost use Rattle.member_core.specs.Views.{settings_value, HasShortTexts};
ghost use Rattle.world_sim.specs.World.{new_world, numbered};
ghost use Rattle.world_sim.specs.Acting.{act_value, Acted, HasShortTopics};
ghost use Rattle.world_sim.specs.Exclusivity.{ActsLawfully, BringsHeld, CommitHeld, HoldApart, HoldGranted, HoldsOn, IsExclusive, RenewsLawfully, ShowGranted, SinceGranted};
ghost use Rattle.world_sim.specs.Invariant.{Keeps};
ghost use Rattle.world_sim.specs.Convergence.{IsSettled};
ghost use Rattle.world_sim.specs.Running.{AfterEachAct, HasRun, InEachAct, StaysLawful, StaysSo};
ghost use Rattle.world_sim.specs.Settling.{IsSettling};
ghost use Rattle.world_sim.specs.Viewing.{IsReplyBody, IsView};

use crate::act::Act;
use crate::client::Client;
use crate::fault::WorldFault;
use crate::laws::{
    commits_are_taken_while_held, every_act_keeps_the_invariant, members_hold_apart,
    replies_are_spelled, replies_show_what_is_granted, targets_are_renewed_lawfully,
    three_rounds_settle,
};
use crate::scene::{Scene, place_of};
use crate::shown::Shown;
use crate::view::ClientView;
use member_core::Settings;
use std::alloc::{AllocError, Global};
use std::collections::hash_map::RandomState;
use std::marker::Model;

/// A world: one coordinator, its clients, and every message that was ever sent between them. Contracts see it as a world
/// of `specs/World.antt`, to which some list of acts led from clients that hadn't asked for anything.
pub struct World {
    scene: Scene,
}

/// Its parts are dropped here, so that a crate that drops a world goes through none of them in its proofs.
impl Drop for World {
    fn drop(self) {
        let World { scene: _ } = self;
    }
}

impl Model for World {
    ghost use Rattle.world_sim.specs.World.{World as State};
    ghost use Rattle.world_sim.specs.Stored.{world_code};

    ghost Value = { State };

    ghost coded = { world_code };

    ghost use Rattle.world_sim.specs.Scene.{scene_view};
    ghost use Rattle.world_sim.specs.Reached.{IsReached};

    ghost view = { λ w. scene_view w.scene };

    ghost invariant = { λ w. IsReached (scene_view w.scene) };
}

impl World {
    /// A world of clients that haven't asked for anything yet, numbered from 1. The salt is the first half of the ids that
    /// the coordinator makes; the clock is at 0, and there are no topics. The texts of the settings are at most 32,767 bytes,
    /// and their timeouts INT32s.
    ///
    /// Fails with `NoMemory` alone.
    pub fn new(
        alloc: Global,
        salt: u64,
        hasher: RandomState,
        clients: Vec<Settings>,
    ) -> Result<World, WorldFault>
        requires { All (λ settings. HasShortTexts (settings_value settings)) clients.items }
        ensures world { IfOk result (λ w. w ≡ new_world salt (map settings_value clients.items)) }
        ensures fault { IfErr result (λ fault. fault ≡ WorldFault.NoMemory) }
    {
        let clients = clients_of(alloc, clients)?;
        Ok(World {
            scene: Scene::new(alloc, salt, hasher, clients),
        })
    }

    /// Does one act, and says what it shows; an act that is refused changes nothing. The texts of a commit's list are at
    /// most 32,767 bytes, and its tagged fields rise.
    ///
    /// Faults, judged in this order: `NoSuchClient` or `NoSuchMessage`; `WrongState`; then `TooLarge`, of a delivery `Forgotten`,
    /// or `NoMemory`, but never of an act that takes none: giving up, a release, the clock, a tick and an image.
    ///
    /// After the act no two members of a group hold one partition, each holds what it is granted, a reply that may still be
    /// taken shows what is granted, and a commit that would be taken has been granted all that its maker held.
    pub fn act<'a>(&mut self, act: Act<'a>) -> Result<Shown, WorldFault>
        requires { HasShortTopics (act_value act) }
        ensures step { Acted self.old (act_value act.entry) result self.new }
        ensures apart { HoldApart self.new }
        ensures granted { HoldGranted self.new }
        ensures shown { ShowGranted self.new }
        ensures commits { CommitHeld self.new }
        ensures since { SinceGranted self.new }
        ensures brought { BringsHeld self.old }
        ensures lawful { RenewsLawfully self.old self.new }
    {
        self.hold();
        let shown = self.scene.act(act);
        self.hold();
        shown
    }

    /// Does one act after the other, and says what each shows, or why it is refused; a refused act changes nothing, and those
    /// behind it are done. The texts of the commits' lists are at most 32,767 bytes, and their tagged fields rise.
    ///
    /// Fails with `NoMemory` alone, and then no act was done.
    ///
    /// After each act the laws hold that [`World::act`] names, and of a commit that the first act brings too.
    pub fn run<'a>(
        &mut self,
        acts: Vec<Act<'a>>,
    ) -> Result<Vec<Result<Shown, WorldFault>>, WorldFault>
        requires { All (λ act. HasShortTopics (act_value act)) acts.items }
        ensures steps { HasRun self.old (map act_value acts.entry.items) result self.new }
        ensures apart { IfOk result (λ answers. AfterEachAct HoldApart self.old (map act_value acts.entry.items) answers.items) }
        ensures granted { IfOk result (λ answers. AfterEachAct HoldGranted self.old (map act_value acts.entry.items) answers.items) }
        ensures shown { IfOk result (λ answers. AfterEachAct ShowGranted self.old (map act_value acts.entry.items) answers.items) }
        ensures commits { IfOk result (λ answers. AfterEachAct CommitHeld self.old (map act_value acts.entry.items) answers.items) }
        ensures since { IfOk result (λ answers. AfterEachAct SinceGranted self.old (map act_value acts.entry.items) answers.items) }
        ensures brought { IfOk result (λ answers. AfterEachAct BringsHeld self.old (map act_value acts.entry.items) answers.items) }
        ensures brought_first { BringsHeld self.old }
        ensures lawful { IfOk result (λ answers. InEachAct RenewsLawfully self.old (map act_value acts.entry.items) answers.items) }
    {
        self.hold_on();
        let mut answers = Vec::with_capacity(self.scene.alloc, acts.len())?;
        for act in acts {
            let answer = self.act(act);
            answers.push_reserved(answer);
        }
        Ok(answers)
    }

    /// Settles the world by three rounds. In a round client after client sends a full heartbeat, the coordinator answers
    /// it, the client takes the reply, and releases all that it isn't shown. Every client then owns its target, at the
    /// target's epoch (KIP-848, "Reconciliation of the group"; that three rounds do is ours).
    ///
    /// Faults: `WrongState` where a client isn't inside its group, waits, has no record, knows an epoch that its record neither
    /// has nor had last, or has fewer than three requests left; where a record has no client, or is away; or where a group is at
    /// its greatest epoch. Nothing has changed then. `TooLarge` where a heartbeat has more bytes than a frame may have, and
    /// `NoMemory`: the acts before that were done, and a client that waited has given up.
    ///
    /// In every world on the way the laws hold that [`World::act`] names, and in every act that leads from one to the next.
    pub fn settle(&mut self) -> Result<(), WorldFault>
        ensures rounds { IsSettling self.old result self.new }
        ensures on_the_way { HoldsOn IsExclusive self.old }
        ensures settled { IfOk result (λ _. IsSettled self.new) }
        ensures apart { HoldApart self.new }
        ensures granted { HoldGranted self.new }
        ensures shown { ShowGranted self.new }
        ensures commits { CommitHeld self.new }
        ensures since { SinceGranted self.new }
    {
        three_rounds_settle();
        self.hold_on();
        self.hold();
        if !self.scene.may_settle() {
            return Err(WorldFault::WrongState);
        }
        let settled = self.scene.make_rounds();
        self.hold();
        settled
    }

    /// The body of the reply with a number, from 1: the reply to a heartbeat. Takes no memory.
    pub fn reply(&self, number: usize) -> Option<&[u8]>
        ensures { MatchOption result (numbered self.now.replies number ≡ None) (λ body. IsReplyBody self.now number body.now) }
    {
        replies_are_spelled();
        let Some(place) = place_of(number, self.scene.replies.as_slice().len()) else {
            return None;
        };
        Some(self.scene.replies[place].frame.body())
    }

    /// What holds of every world. Nothing runs.
    pub(crate) fn hold(&self)
        ensures keeps { Keeps self.now }
        ensures apart { HoldApart self.now }
        ensures granted { HoldGranted self.now }
        ensures shown { ShowGranted self.now }
        ensures commits { CommitHeld self.now }
        ensures since { SinceGranted self.now }
        ensures brought { BringsHeld self.now }
        ensures lawful { ActsLawfully self.now }
    {
        every_act_keeps_the_invariant();
        members_hold_apart();
        replies_show_what_is_granted();
        commits_are_taken_while_held();
        targets_are_renewed_lawfully();
        let _ = &self.scene;
    }

    /// What holds after every act that is yet to come. Nothing runs.
    fn hold_on(&self)
        ensures apart { StaysSo HoldApart self.now }
        ensures granted { StaysSo HoldGranted self.now }
        ensures shown { StaysSo ShowGranted self.now }
        ensures commits { StaysSo CommitHeld self.now }
        ensures since { StaysSo SinceGranted self.now }
        ensures brought { StaysSo BringsHeld self.now }
        ensures lawful { StaysLawful self.now }
        ensures all { HoldsOn IsExclusive self.now }
    {
        members_hold_apart();
        replies_show_what_is_granted();
        commits_are_taken_while_held();
        targets_are_renewed_lawfully();
        let _ = &self.scene;
    }

    /// The client with a number, from 1. Takes no memory.
    pub fn client(&self, number: usize) -> Option<ClientView<'_>>
        ensures { MatchOption result (numbered self.now.clients number ≡ None) (λ view. IsView self.now number view) }
    {
        let Some(place) = place_of(number, self.scene.clients.as_slice().len()) else {
            return None;
        };
        let client = &self.scene.clients[place];
        Some(ClientView {
            state: client.state(),
            id: client.id(),
            epoch: client.epoch(),
            own: client.own(),
        })
    }
}

/// A client for each of the settings. Fails where memory is short.
fn clients_of(alloc: Global, each: Vec<Settings>) -> Result<Vec<Client>, AllocError>
    requires { All (λ settings. HasShortTexts (settings_value settings)) each.items }
    ensures { IfOk result (λ clients. clients.items ≡ map (λ settings. new_client (settings_value settings)) each.items) }
{
    let mut clients = Vec::with_capacity(alloc, each.len())?;
    for settings in each {
        clients.push(Client::new(alloc, settings)?)?;
    }
    Ok(clients)
}
