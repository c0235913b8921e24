//! What a world is made of.
ghost use Rattle.std.specs.Prelude.{◌≡◌, ◌⊎◌, ◌+◌, ◌<◌, [], map, MatchOption};
ghost use Rattle.coord_node.specs.Coordinator.{opening};
ghost use Rattle.coord_node.specs.Nodes.{coordinator_of};
ghost use Rattle.world_sim.specs.World.{cut};
ghost use Rattle.world_sim.specs.Mail.{AreNamed, AreSmall};

mod asking;
mod bringing;
mod clients;
mod delivering;
mod passing;
mod settling;

use crate::act::{Act, Ask};
use crate::client::Client;
use crate::commit::Commit;
use crate::fault::WorldFault;
use crate::mail::{Reply, Request};
use crate::shown::Shown;
use coord_node::{Moment, Node};
use std::alloc::Global;
use std::collections::hash_map::RandomState;

/// A coordinator, its clients and the messages between them.
#[derive(Drop)]
pub(crate) struct Scene {
    pub(crate) alloc: Global,
    pub(crate) node: Node,
    pub(crate) clock: Moment,
    pub(crate) clients: Vec<Client>,
    pub(crate) requests: Vec<Request>,
    pub(crate) replies: Vec<Reply>,
    pub(crate) commits: Vec<Commit>,
    /// Each reply's request is there.
    ghost named: { AreNamed requests.items replies.items },
    /// Each commit's body fits a frame.
    ghost small: { AreSmall commits.items },
}

impl Scene {
    ghost use Rattle.world_sim.specs.Acting.{act_value, Acted, HasShortTopics};
    ghost use Rattle.world_sim.specs.Invariant.{Keeps};
    ghost use Rattle.world_sim.specs.Scene.{scene_view};

    /// Clients, and a coordinator to which nothing has come. Takes no memory.
    pub(crate) fn new(alloc: Global, salt: u64, hasher: RandomState, clients: Vec<Client>) -> Scene
        ensures { scene_view result ≡ record { coordinator = opening salt; clock = 0; clients = clients.items; requests = []; replies = []; commits = [] } }
    {
        Scene {
            alloc,
            node: Node::new(alloc, salt, hasher),
            clock: Moment::of_millis(0),
            clients,
            requests: Vec::new(alloc),
            replies: Vec::new(alloc),
            commits: Vec::new(alloc),
        }
    }

    /// Does an act.
    pub(crate) fn act<'a>(&mut self, act: Act<'a>) -> Result<Shown, WorldFault>
        requires keeps { Keeps (scene_view self.old) }
        requires topics { HasShortTopics (act_value act) }
        ensures { Acted (scene_view self.old) (act_value act.entry) result (scene_view self.new) }
    {
        match act {
            Act::Join { client } => self.ask(client, Ask::Join),
            Act::Beat { client, kind } => self.ask(client, Ask::Beat(kind)),
            Act::Quit { client, quit } => self.ask(client, Ask::Quit(quit)),
            Act::GiveUp { client } => self.give_up(client),
            Act::Deliver { request } => self.deliver(request),
            Act::Take { reply } => self.take(reply),
            Act::Release { client, partition } => self.release(client, &partition),
            Act::Commit { client, topics } => self.commit(client, topics),
            Act::Bring { commit } => self.bring(commit),
            Act::Clock { moment } => Ok(self.set_clock(moment)),
            Act::Tick { moment } => Ok(self.pass(moment)),
            Act::Image { image } => Ok(self.see(image)),
        }
    }
}

/// The place among `count` places of a number that counts from 1.
pub(crate) fn place_of(number: usize, count: usize) -> Option<usize>
    ensures { MatchOption result ((number ≡ 0) ⊎ (count < number)) (λ place. (number ≡ place + 1) × (place < count)) }
{
    if number == 0 || number > count {
        return None;
    }
    Some(number - 1)
}

/// Leaves of each commit's `since` only what is granted still, after a tick that removed `removed` members: it takes back
/// only what they held. Takes no memory.
fn cut_after(commits: &mut Vec<Commit>, node: &Node, removed: usize)
    requires { removed ≡ 0 → map (cut (coordinator_of node.now)) commits.old.items ≡ commits.old.items }
    ensures { commits.new.items ≡ map (cut (coordinator_of node.now)) commits.old.items }
{
    if removed > 0 {
        cut_all(commits, node);
    }
}

/// Leaves of each commit's `since` only what is granted still. Takes no memory.
fn cut_all(commits: &mut Vec<Commit>, node: &Node)
    ensures { commits.new.items ≡ map (cut (coordinator_of node.now)) commits.old.items }
{
    for commit in commits.iter_mut() {
        commit.cut(node);
    }
}
