//! What is noted of a script, to say why something in it was refused: its clients' settings, who sent which message, and the epochs of the
//! members, as the coordinator's replies have them.

use crate::cast::Cast;
use crate::refusals::first_refused;
use crate::told;
use crate::verb::Verb;
use indexmap::IndexMap;
use kip_msgs::{Api, HeartbeatReply, Reply, read_reply};
use scenario_text::words;
use std::alloc::{AllocError, Global};
use std::collections::hash_map::RandomState;
use world_sim::{ClientState, ClientView, Shown, World, WorldFault};

/// A client of a script.
#[derive(Drop)]
pub struct Client {
    pub name: String,
    pub group: String,
    /// Its instance id, or `-`.
    pub instance: String,
    /// Its assignor, or `-`.
    pub assignor: String,
    /// The number of the request for whose reply it waits.
    pub waits: Option<usize>,
}

/// A request or a commit.
#[derive(Drop)]
pub struct Sent {
    /// The number of its client.
    pub client: usize,
    /// The member id that it names.
    pub id: String,
    /// The epoch that it names.
    pub epoch: i32,
    /// The partition of a commit.
    pub place: String,
}

/// The present epoch of a member, as the replies to it have it, and the one before.
#[derive(Clone, Copy)]
pub struct Epochs {
    pub present: i32,
    pub previous: i32,
}

/// What a client knows of itself.
#[derive(Clone, Copy)]
pub struct Standing<'a> {
    pub state: ClientState,
    /// Its id, empty where it has none.
    pub id: &'a str,
    pub epoch: i32,
}

/// What is noted of a script.
#[derive(Drop)]
pub struct Story {
    alloc: Global,
    /// By their numbers from 1.
    clients: Vec<Client>,
    /// By their numbers.
    requests: IndexMap<usize, Sent, RandomState>,
    /// By their numbers.
    commits: IndexMap<usize, Sent, RandomState>,
    /// The requests that replies answer, by the replies' numbers.
    replies: IndexMap<usize, usize, RandomState>,
    /// By their groups and ids, with a space between.
    members: IndexMap<String, Epochs, RandomState>,
    /// The numbers of the clients that last joined under an instance id, by group and instance id.
    instances: IndexMap<String, usize, RandomState>,
}

impl Story {
    /// Before the first line. Takes no memory.
    pub fn new(alloc: Global, hasher: RandomState) -> Story {
        Story {
            alloc,
            clients: Vec::new(alloc),
            requests: IndexMap::with_hasher(alloc, hasher),
            commits: IndexMap::with_hasher(alloc, hasher),
            replies: IndexMap::with_hasher(alloc, hasher),
            members: IndexMap::with_hasher(alloc, hasher),
            instances: IndexMap::with_hasher(alloc, hasher),
        }
    }

    /// The clients, in the order of their numbers.
    pub fn clients(&self) -> &[Client] {
        self.clients.as_slice()
    }

    /// The client with a number.
    pub fn client(&self, number: usize) -> Option<&Client> {
        self.clients.get(number.checked_sub(1)?)
    }

    /// The request with a number, where it was noted.
    pub fn request(&self, number: usize) -> Option<&Sent> {
        self.requests.get(&number)
    }

    /// The commit with a number.
    pub fn commit(&self, number: usize) -> Option<&Sent> {
        self.commits.get(&number)
    }

    /// The epochs of a member, where a reply gave it one.
    pub fn epochs(&self, group: &str, id: &str) -> Result<Option<Epochs>, AllocError> {
        let key = self.key(group, id)?;
        Ok(self.members.get(key.as_str()).copied())
    }

    /// The client that last joined under an instance id.
    pub fn holder(&self, group: &str, instance: &str) -> Result<Option<&Client>, AllocError> {
        let key = self.key(group, instance)?;
        Ok(
            self.instances
                .get(key.as_str())
                .and_then(|number| self.client(*number)),
        )
    }

    fn key(&self, group: &str, name: &str) -> Result<String, AllocError> {
        format!(in self.alloc; "{group} {name}")
    }

    /// Notes a client, by the words behind `client`.
    pub fn enter(&mut self, words: &[&str]) -> Result<(), AllocError> {
        let [name, group, instance, assignor, ..] = words else {
            return Ok(());
        };
        self.clients.push(Client {
            name: String::from_str(self.alloc, name)?,
            group: String::from_str(self.alloc, group)?,
            instance: String::from_str(self.alloc, instance)?,
            assignor: String::from_str(self.alloc, assignor)?,
            waits: None,
        })?;
        Ok(())
    }

    /// Notes what an act shows, and says why the coordinator refused the message or closed, if it did.
    pub fn show(
        &mut self,
        cast: &Cast,
        world: &World,
        verb: Verb,
        words: &[&str],
        shown: &Shown,
    ) -> Result<Option<String>, AllocError> {
        match shown {
            Shown::Sent { request } => self.send(cast, world, verb, words, *request),
            Shown::Committed { commit } => self.make_commit(cast, world, words, *commit),
            Shown::Replied { reply } => self.reply(world, number_in(words), *reply),
            Shown::Answered { reply } => self.answer(number_in(words), reply.body()),
            Shown::Is { state: _ } => {
                self.stop_waiting(cast, verb, words);
                Ok(None)
            }
            Shown::Closed => Ok(Some(told::overtaken(self.alloc)?)),
            Shown::Ignored | Shown::Removed { members: _ } | Shown::Done => Ok(None),
        }
    }

    /// Notes a request.
    fn send(
        &mut self,
        cast: &Cast,
        world: &World,
        verb: Verb,
        words: &[&str],
        request: usize,
    ) -> Result<Option<String>, AllocError> {
        let client = named(cast, words);
        let Some(standing) = standing_of(world, client) else {
            return Ok(None);
        };
        let epoch = match (verb, words) {
            (Verb::Join, _) => 0,
            (Verb::Quit, [_, "leave"]) => -1,
            (Verb::Quit, _) => -2,
            _ => standing.epoch,
        };
        let sent = self.sent_by(client, standing.id, epoch, "")?;
        self.requests.insert(request, sent)?;
        if verb != Verb::Quit {
            self.wait(client, Some(request));
        }
        Ok(None)
    }

    /// Notes a commit.
    fn make_commit(
        &mut self,
        cast: &Cast,
        world: &World,
        words: &[&str],
        commit: usize,
    ) -> Result<Option<String>, AllocError> {
        let client = named(cast, words);
        let (Some(standing), [_, topic, index, _]) = (standing_of(world, client), words) else {
            return Ok(None);
        };
        let place = format!(in self.alloc; "partition {index} of a topic {topic}")?;
        let sent = self.sent_by(client, standing.id, standing.epoch, place.as_str())?;
        self.commits.insert(commit, sent)?;
        Ok(None)
    }

    /// A message of a client at an epoch.
    fn sent_by(
        &self,
        client: usize,
        id: &str,
        epoch: i32,
        place: &str,
    ) -> Result<Sent, AllocError> {
        Ok(Sent {
            client,
            id: String::from_str(self.alloc, id)?,
            epoch,
            place: String::from_str(self.alloc, place)?,
        })
    }

    /// Notes a reply to a request, and says why the request was refused, if it was.
    fn reply(
        &mut self,
        world: &World,
        request: usize,
        reply: usize,
    ) -> Result<Option<String>, AllocError> {
        self.replies.insert(reply, request)?;
        let Some(body) = world.reply(reply) else {
            return Ok(None);
        };
        let Ok(Reply::Heartbeat(_, message)) = read_reply(self.alloc, Api::Heartbeat, body) else {
            return Err(AllocError);
        };
        if message.error_code == 0 {
            self.accept(request, &message)?;
        }
        told::of_heartbeat(self.alloc, self, request, message.error_code)
    }

    /// Notes the epoch of the member whose request was accepted, and its instance id.
    fn accept(&mut self, request: usize, reply: &HeartbeatReply<'_>) -> Result<(), AllocError> {
        let Some(sent) = self.requests.get(&request) else {
            return Ok(());
        };
        let Some(client) = self.client(sent.client) else {
            return Ok(());
        };
        let id = reply.member_id.unwrap_or(sent.id.as_str());
        let member = self.key(client.group.as_str(), id)?;
        let instance = self.key(client.group.as_str(), client.instance.as_str())?;
        let (number, is_join) = (sent.client, sent.epoch == 0);
        self.stand_at(member, reply.member_epoch)?;
        if is_join {
            self.instances.insert(instance, number)?;
        }
        Ok(())
    }

    /// Notes a member's present epoch.
    fn stand_at(&mut self, member: String, epoch: i32) -> Result<(), AllocError> {
        let previous = match self.members.get(member.as_str()) {
            Some(epochs) if epochs.present == epoch => epochs.previous,
            Some(epochs) => epochs.present,
            None => epoch,
        };
        let epochs = Epochs {
            present: epoch,
            previous,
        };
        self.members.insert(member, epochs)?;
        Ok(())
    }

    /// Why a commit was refused, if it was.
    fn answer(&self, commit: usize, body: &[u8]) -> Result<Option<String>, AllocError> {
        let Ok(Reply::Commit(_, reply)) = read_reply(self.alloc, Api::Commit, body) else {
            return Err(AllocError);
        };
        match first_refused(&reply) {
            Some((code, _, _)) => told::of_commit(self.alloc, self, commit, code),
            None => Ok(None),
        }
    }

    /// Notes that the client waits no longer that took a reply, or gave up.
    fn stop_waiting(&mut self, cast: &Cast, verb: Verb, words: &[&str]) {
        let client = match verb {
            Verb::Take => self.sender_of(number_in(words)),
            _ => named(cast, words),
        };
        self.wait(client, None);
    }

    /// The number of the client whose request a reply answers, or 0.
    fn sender_of(&self, reply: usize) -> usize {
        let request = self
            .replies
            .get(&reply)
            .and_then(|request| self.requests.get(request));
        request.map_or(0, |sent| sent.client)
    }

    /// Notes for which request's reply a client waits.
    fn wait(&mut self, client: usize, waits: Option<usize>) {
        let Some(place) = client.checked_sub(1) else {
            return;
        };
        if let Some(client) = self.clients.get_mut(place) {
            client.waits = waits;
        }
    }

    /// Notes that the world is settled.
    pub fn settle(&mut self, world: &World) -> Result<(), AllocError> {
        for place in 0..self.clients.len() {
            self.wait(place + 1, None);
            let (Some(standing), Some(client)) = (
                standing_of(world, place + 1),
                self.clients.get(place),
            ) else {
                return Ok(());
            };
            let member = self.key(client.group.as_str(), standing.id)?;
            self.stand_at(member, standing.epoch)?;
        }
        Ok(())
    }

    /// Why an act was refused.
    pub fn refusal(
        &self,
        cast: &Cast,
        world: &World,
        verb: Verb,
        words: &[&str],
        fault: WorldFault,
    ) -> Result<String, AllocError> {
        match fault {
            WorldFault::NoSuchClient => told::no_client(self.alloc, words),
            WorldFault::NoSuchMessage => told::no_message(self.alloc, verb, words),
            WorldFault::WrongState => {
                let number = named(cast, words);
                let state = standing_of(world, number).map_or(
                    ClientState::Outside,
                    |standing| standing.state,
                );
                told::wrong_state(self.alloc, verb, self.client(number), state)
            }
            WorldFault::NoMemory => String::from_str(self.alloc, "out of memory"),
            WorldFault::TooLarge => told::too_large(self.alloc),
            WorldFault::Forgotten => told::forgotten(self.alloc, self, number_in(words)),
        }
    }
}

/// Where the client with a number stands.
pub fn standing_of(world: &World, number: usize) -> Option<Standing<'_>> {
    match world.client(number) {
        Some(
            ClientView {
                state,
                id,
                epoch,
                own: _,
            },
        ) => Some(Standing {
            state,
            id: id.unwrap_or_default(),
            epoch: epoch.as_i32(),
        }),
        None => None,
    }
}

/// The number of the client that the first word names, or 0.
fn named(cast: &Cast, words: &[&str]) -> usize {
    words.first().map_or(0, |name| cast.number_of(name))
}

/// The number that the first word is, or 0.
fn number_in(words: &[&str]) -> usize {
    let number = words.first().and_then(|word| words::number_of(word));
    number.map_or(0, |number| number as usize)
}
