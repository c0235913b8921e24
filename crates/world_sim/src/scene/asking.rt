//! Acts of clients.

ghost use Rattle.std.specs.Prelude.{◌<◌, map, vec_len, All};
ghost use Rattle.kip_msgs.specs.Views.{commit_request_topic_value};
ghost use Rattle.member_core.specs.Writing.{HasShortTopic};
ghost use Rattle.world_sim.specs.Acts.{Asks, GivesUp, Take, Release, Commits};
ghost use Rattle.world_sim.specs.Acting.{Acted};
ghost use Rattle.world_sim.specs.Invariant.{Keeps};
ghost use Rattle.world_sim.specs.Places.{ShowsChange, ShowsTaken};
ghost use Rattle.world_sim.specs.Scene.{scene_view, IsTaker};
ghost use Rattle.world_sim.specs.Standing.{ask_value};

use super::clients::{ask_at, give_up_at, release_at, take_at};
use super::{Scene, place_of};
use crate::act::Ask;
use crate::fault::WorldFault;
use crate::shown::Shown;
use crate::state::ClientState;
use member_core::{Array, CommitRequestTopic, Partition};

/// The greatest number of a commit, which is its correlation id: the greatest INT32.
const GREATEST_NUMBER: usize = 2_147_483_647;

impl Scene {
    /// A client asks.
    pub(crate) fn ask(&mut self, number: usize, ask: Ask) -> Result<Shown, WorldFault>
        ensures { Acted (scene_view self.old) (Asks number (ask_value ask)) result (scene_view self.new) }
    {
        let Some(place) = place_of(number, self.clients.as_slice().len()) else {
            return Err(WorldFault::NoSuchClient);
        };
        if !self.clients[place].may_ask(ask) {
            return Err(WorldFault::WrongState);
        }
        self.requests.reserve(1)?;
        let request = ask_at(&mut self.clients, place, ask)?;
        self.requests.push_reserved(request);
        Ok(Shown::Sent {
            request: self.requests.len(),
        })
    }

    /// A client waits no longer.
    pub(crate) fn give_up(&mut self, number: usize) -> Result<Shown, WorldFault>
        ensures { Acted (scene_view self.old) (GivesUp number) result (scene_view self.new) }
    {
        let Some(place) = place_of(number, self.clients.as_slice().len()) else {
            return Err(WorldFault::NoSuchClient);
        };
        let state = give_up_at(&mut self.clients, place);
        change_shown(state)
    }

    /// A client releases a partition.
    pub(crate) fn release(&mut self, number: usize, p: &Partition) -> Result<Shown, WorldFault>
        ensures { Acted (scene_view self.old) (Release number p.now) result (scene_view self.new) }
    {
        let Some(place) = place_of(number, self.clients.as_slice().len()) else {
            return Err(WorldFault::NoSuchClient);
        };
        let state = release_at(&mut self.clients, place, p);
        change_shown(state)
    }

    /// A reply is given to the client whose request it answers.
    pub(crate) fn take(&mut self, number: usize) -> Result<Shown, WorldFault>
        requires { Keeps (scene_view self.old) }
        ensures { Acted (scene_view self.old) (Take number) result (scene_view self.new) }
    {
        let Some(place) = place_of(number, self.replies.as_slice().len()) else {
            return Err(WorldFault::NoSuchMessage);
        };
        let client = self.taker_of(place);
        let body = self.replies[place].frame.body();
        let state = take_at(&mut self.clients, client, body)?;
        Ok(taken_shown(state))
    }

    /// The place of the client whose request the reply at a place answers.
    fn taker_of(&self, place: usize) -> usize
        requires place { place < vec_len self.now.replies }
        requires keeps { Keeps (scene_view self.now) }
        ensures { IsTaker self.now place result }
    {
        let reply = &self.replies[place];
        let sender = self.requests[reply.request].stamp.connection;
        sender as usize - 1
    }

    /// A client commits.
    pub(crate) fn commit<'a>(
        &mut self,
        number: usize,
        topics: Array<CommitRequestTopic<'a>>,
    ) -> Result<Shown, WorldFault>
        requires { All HasShortTopic (map commit_request_topic_value topics) }
        ensures { Acted (scene_view self.old) (Commits number (map commit_request_topic_value topics.entry)) result (scene_view self.new) }
    {
        let Some(place) = place_of(number, self.clients.as_slice().len()) else {
            return Err(WorldFault::NoSuchClient);
        };
        if self.commits.len() >= GREATEST_NUMBER {
            return Err(WorldFault::WrongState);
        }
        let number = self.commits.len() + 1;
        let mut commit = self.clients[place].commit(number as u32, topics)?;
        commit.cut(&self.node);
        self.commits.reserve(1)?;
        self.commits.push_reserved(commit);
        Ok(Shown::Committed { commit: number })
    }
}

/// What is shown of a change, which only some states allow.
fn change_shown(state: Option<ClientState>) -> Result<Shown, WorldFault>
    ensures { ShowsChange state result }
{
    match state {
        Some(state) => Ok(Shown::Is { state }),
        None => Err(WorldFault::WrongState),
    }
}

/// What is shown of a reply that was given to a client.
fn taken_shown(state: Option<ClientState>) -> Shown
    ensures { ShowsTaken state result }
{
    match state {
        Some(state) => Shown::Is { state },
        None => Shown::Ignored,
    }
}
