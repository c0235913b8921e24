//! Rounds that settle everything.
ghost use Rattle.std.specs.Prelude.{◌≡◌, ◌+◌, ◌<◌, ◌↔◌, IsTrue, OnOk, length, vec_len};
ghost use Rattle.std.specs.Str.{bytes_eq};
ghost use Rattle.coord_node.specs.Nodes.{coordinator_of};
ghost use Rattle.world_sim.specs.Convergence.{CanSettle};
ghost use Rattle.world_sim.specs.Fitting.{in_group, IsFit, IsFitIn, IsKnown};
ghost use Rattle.world_sim.specs.Reached.{IsReached};
ghost use Rattle.world_sim.specs.Scene.{scene_view};
ghost use Rattle.world_sim.specs.Settling.{HasExchanged, HasReleased, HasRound, HasTurned, IsSettling, IsToldBy};
ghost use Rattle.world_sim.specs.Underway.{HasBegun, IsBetween, IsUnderway};

use super::Scene;
use super::clients::give_up_at;
use crate::act::Ask;
use crate::client::Client;
use crate::fault::WorldFault;
use crate::laws::{every_act_keeps_the_invariant, rounds_go_on};
use coord_node::Group;
use group_core::{Epoch, EpochNumber};
use group_types::limits::GREATEST_EPOCH;
use kip_msgs::one_request_a_body;
use member_core::Kind;
use std::alloc::AllocError;

/// The most requests that a client may have sent so that three are left to it: the correlation ids are INT32s.
const MOST_REQUESTS: u32 = 2_147_483_644;

impl Scene {
    /// Whether three rounds can be made. Takes no memory.
    pub(crate) fn may_settle(&self) -> bool
        requires { IsReached (scene_view self.now) }
        ensures { IsTrue result ↔ CanSettle (scene_view self.now) }
    {
        one_request_a_body();
        every_act_keeps_the_invariant();
        for place in 0..self.clients.len() {
            if !self.is_fit(&self.clients[place]) {
                return false;
            }
        }
        true
    }

    /// Whether a client and its group are fit for three rounds. Takes no memory.
    fn is_fit(&self, client: &Client) -> bool
        ensures { IsTrue result ↔ IsFit (coordinator_of self.now.node) self.now.clients.items client.now }
    {
        if !client.is_idle() || client.requests() > MOST_REQUESTS {
            return false;
        }
        let Some(id) = client.id() else {
            return false;
        };
        let Some(group) = self.node.group(client.group()) else {
            return false;
        };
        self.fits_group(client, id, group)
    }

    /// Whether a client with this id is fit in its group. Takes no memory.
    fn fits_group(&self, client: &Client, id: &str, group: &Group) -> bool
        ensures { IsTrue result ↔ IsFitIn client.now id.now group.now.state self.now.clients.items }
    {
        let Some(epochs) = group.epochs(id) else {
            return false;
        };
        if !is_known(epochs.0, epochs.1, client.epoch()) {
            return false;
        }
        group.epoch().as_u32() < GREATEST_EPOCH && self.count_in(client.group()) == group.members()
    }

    /// How many clients a group has. Takes no memory.
    fn count_in(&self, name: &str) -> usize
        ensures { result ≡ length (in_group name.now self.now.clients.items) }
    {
        self.clients
            .iter()
            .filter(|client| is_same_name(name, client.group()))
            .count()
    }

    /// Makes three rounds.
    pub(crate) fn make_rounds(&mut self) -> Result<(), WorldFault>
        requires reached { IsReached (scene_view self.old) }
        requires can { CanSettle (scene_view self.old) }
        ensures { IsSettling (scene_view self.old) result (scene_view self.new) }
    {
        rounds_go_on();
        for _round in 0..3usize {
            self.round()?;
        }
        Ok(())
    }

    /// One round: client after client has its turn.
    fn round(&mut self) -> Result<(), WorldFault>
        requires { IsBetween (scene_view self.old) }
        ensures { HasRound (scene_view self.old) result (scene_view self.new) }
    {
        rounds_go_on();
        let count = self.clients.len();
        for place in 0..count {
            self.turn(place)?;
        }
        Ok(())
    }

    /// The turn of the client at a place: its full beat is answered, it takes the reply, and it releases all that it
    /// isn't shown.
    fn turn(&mut self, place: usize) -> Result<(), WorldFault>
        requires { IsUnderway (scene_view self.old) (place + 1) }
        ensures { HasTurned (scene_view self.old) (place + 1) result (scene_view self.new) }
    {
        self.tell(place)?;
        self.release_all(place)?;
        Ok(())
    }

    /// The client at a place beats, and takes the reply. Where memory is short it waits no longer.
    fn tell(&mut self, place: usize) -> Result<(), WorldFault>
        requires { IsUnderway (scene_view self.old) (place + 1) }
        ensures told { IsToldBy (scene_view self.old) (place + 1) result (scene_view self.new) }
        ensures there { OnOk result (place < vec_len self.new.clients) }
    {
        rounds_go_on();
        self.ask(place + 1, Ask::Beat(Kind::Full))?;
        match self.exchange(place) {
            Ok(()) => Ok(()),
            Err(fault) => {
                give_up_at(&mut self.clients, place);
                Err(fault)
            }
        }
    }

    /// The latest request is answered, and its sender, the client at a place, takes the reply.
    fn exchange(&mut self, place: usize) -> Result<(), WorldFault>
        requires { HasBegun (scene_view self.old) (place + 1) }
        ensures { HasExchanged (scene_view self.old) result (scene_view self.new) }
    {
        every_act_keeps_the_invariant();
        rounds_go_on();
        let request = self.requests.len();
        self.deliver(request)?;
        let reply = self.replies.len();
        self.take(reply)?;
        Ok(())
    }

    /// The client at a place releases all that it isn't shown.
    fn release_all(&mut self, place: usize) -> Result<(), AllocError>
        requires { place < vec_len self.old.clients }
        ensures { HasReleased (scene_view self.old) (place + 1) result (scene_view self.new) }
    {
        let client = &mut self.clients[place];
        let own = client.own().copy(self.alloc)?;
        client.release_each(&own);
        Ok(())
    }
}

/// Whether the names are the same.
fn is_same_name(one: &str, other: &str) -> bool
    ensures { result ≡ bytes_eq one.now other.now }
{
    one == other
}

/// Whether an epoch is known that a record has, or had last. None is where the record is away.
fn is_known(epoch: Epoch, before: EpochNumber, known: EpochNumber) -> bool
    ensures { IsTrue result ↔ IsKnown epoch before known }
{
    match epoch {
        Epoch::At(at) => at == known || before == known,
        Epoch::Away => false,
    }
}
