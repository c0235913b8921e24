//! Clients of a world.
ghost use Rattle.std.specs.Prelude.{◌≡◌, ◌≤◌, ◌↔◌, IsTrue, map, All, IfOk, IfErr, OnErr, string_bytes, if◌then◌else◌};
ghost use Rattle.std.specs.Option.{option_copied};
ghost use Rattle.kip_msgs.specs.Views.{commit_request_topic_value};
ghost use Rattle.member_core.specs.Asking.{after_giving_up, may_ask};
ghost use Rattle.member_core.specs.Client.{new_client, state_of};
ghost use Rattle.member_core.specs.Limits.{GREATEST_NUMBER};
ghost use Rattle.member_core.specs.Releasing.{may_release, after_release};
ghost use Rattle.member_core.specs.Views.{settings_value, HasShortTexts};
ghost use Rattle.member_core.specs.Writing.{HasShortTopic};
ghost use Rattle.world_sim.specs.Standing.{state_value, ask_value, CannotAsk};
ghost use Rattle.world_sim.specs.Stands.{TakesReply, CannotCommit};
ghost use Rattle.group_types.specs.Sets.{in_order};
ghost use Rattle.world_sim.specs.Clients.{AsksWithin, IsCommitOf};
ghost use Rattle.world_sim.specs.Fitting.{IsIdle};
ghost use Rattle.world_sim.specs.Places.{releasing_all};

use crate::act::Ask;
use crate::commit::Commit;
use crate::fault::WorldFault;
use crate::frame::Frame;
use crate::standing::Standing;
use crate::state::ClientState;
use member_core::{Array, CommitRequestTopic, EpochNumber, Member, PartSet, Partition, Settings};
use std::alloc::{AllocError, Global};
use std::marker::Model;
use std::mem;

/// The greatest number of a client's request, which is its correlation id: the greatest INT32.
const GREATEST_NUMBER: u32 = 2_147_483_647;

/// A client of a world. Contracts see it as a client of the client machine.
#[derive(Drop)]
pub(crate) struct Client {
    alloc: Global,
    standing: Standing,
    /// The name of its group.
    group: String,
    /// The number of its latest request, 0 before the first.
    requests: u32,
    /// Whether it has an instance id.
    is_static: bool,
}

impl Model for Client {
    ghost use Rattle.member_core.specs.Client.{Client as Known};
    ghost use Rattle.member_core.specs.ClientCode.{client_code};

    ghost Value = { Known };

    ghost coded = { client_code };

    ghost use Rattle.world_sim.specs.Standing.{client_of};
    ghost use Rattle.world_sim.specs.Clients.{IsClient};

    ghost view = { λ c. client_of c.standing };

    ghost invariant = { IsClient };
}

impl Client {
    /// One that hasn't asked for anything yet. Fails where memory is short.
    pub(crate) fn new(alloc: Global, settings: Settings) -> Result<Client, AllocError>
        requires { HasShortTexts (settings_value settings) }
        ensures { IfOk result (λ c. c ≡ new_client (settings_value settings)) }
    {
        let group = String::from_str(alloc, settings.group.as_str())?;
        let is_static = settings.instance.is_some();
        Ok(Client {
            alloc,
            standing: Standing::Outside(Member::new(alloc, settings)),
            group,
            requests: 0,
            is_static,
        })
    }

    pub(crate) fn state(&self) -> ClientState
        ensures { state_value result ≡ state_of self.now }
    {
        self.standing.state()
    }

    /// Whether the client is inside its group, and doesn't wait.
    pub(crate) fn is_idle(&self) -> bool
        ensures { IsTrue result ↔ IsIdle self.now }
    {
        self.standing.is_idle()
    }

    pub(crate) fn id(&self) -> Option<&str>
        ensures { option_copied result ≡ self.now.id }
    {
        self.standing.id()
    }

    /// The member epoch that the client knows.
    pub(crate) fn epoch(&self) -> EpochNumber
        ensures { result ≡ self.now.epoch }
    {
        self.standing.epoch()
    }

    /// The partitions that the client reads.
    pub(crate) fn own(&self) -> &PartSet
        ensures { result.now ≡ self.now.own }
    {
        self.standing.own()
    }

    /// The name of the client's group.
    pub(crate) fn group(&self) -> &str
        ensures { result.now ≡ self.now.settings.group }
    {
        self.group.as_str()
    }

    /// The number of the client's latest request, 0 before the first.
    pub(crate) fn requests(&self) -> u32
        ensures { result ≡ self.now.number }
    {
        self.requests
    }

    /// Whether the client's state allows it to ask for this. Takes no memory.
    pub(crate) fn may_ask(&self, ask: Ask) -> bool
        ensures { result ≡ may_ask self.now (ask_value ask) }
    {
        !self.standing.waits()
            && self.requests < GREATEST_NUMBER
            && self.standing.allows(ask, self.is_static)
    }

    /// Asks, and gives the request. A client that is refused is as it was.
    pub(crate) fn ask(&mut self, ask: Ask) -> Result<Frame, WorldFault>
        ensures asks { IfOk result (λ body. AsksWithin self.old (ask_value ask) body self.new) }
        ensures fault { IfErr result (λ fault. CannotAsk self.old (ask_value ask) fault) }
        ensures unchanged { OnErr result (self.new ≡ self.old) }
    {
        let (standing, asked) = mem::replace(&mut self.standing, Standing::nobody(self.alloc)).ask(
            ask,
        );
        put(&mut self.standing, standing);
        let frame = asked?;
        self.requests += 1;
        Ok(Frame::of(frame))
    }

    /// Takes a reply, and says whether it is one to the request for which the client waits. Where it isn't, and where
    /// memory is short, the client is as it was.
    pub(crate) fn take(&mut self, body: &[u8]) -> Result<bool, AllocError>
        ensures { TakesReply self.old body.now result self.new }
    {
        let (standing, taken) = mem::replace(&mut self.standing, Standing::nobody(self.alloc)).take(
            body,
        );
        put(&mut self.standing, standing);
        taken
    }

    /// Waits no longer, and says whether the client did. Takes no memory.
    pub(crate) fn give_up(&mut self) -> bool
        ensures waited { result ≡ self.old.waits }
        ensures after { self.new ≡ (if self.old.waits then after_giving_up self.old else self.old) }
    {
        let (standing, waited) = mem::replace(
            &mut self.standing,
            Standing::nobody(self.alloc),
        ).give_up();
        put(&mut self.standing, standing);
        waited
    }

    /// Releases a partition, and says whether the client may release any. Takes no memory.
    pub(crate) fn release(&mut self, p: &Partition) -> bool
        ensures may { result ≡ may_release self.old }
        ensures after { self.new ≡ (if may_release self.old then after_release self.old p.now else self.old) }
    {
        let (standing, may) = mem::replace(
            &mut self.standing,
            Standing::nobody(self.alloc),
        ).release(p);
        put(&mut self.standing, standing);
        may
    }

    /// Releases each of these partitions that the client may release. Takes no memory.
    pub(crate) fn release_each(&mut self, parts: &PartSet)
        ensures { self.new ≡ releasing_all self.old (in_order parts.now) }
    {
        for p in parts.iter() {
            self.release(p);
        }
    }

    /// A commit of these offsets under a number, with copies of what the client is now.
    pub(crate) fn commit<'a>(
        &'a self,
        number: u32,
        topics: Array<CommitRequestTopic<'a>>,
    ) -> Result<Commit, WorldFault>
        requires number { number ≤ GREATEST_NUMBER }
        requires topics { All HasShortTopic (map commit_request_topic_value topics) }
        ensures made { IfOk result (λ k. IsCommitOf self.now number (map commit_request_topic_value topics.entry) k) }
        ensures fault { IfErr result (λ fault. CannotCommit self.now number (map commit_request_topic_value topics.entry) fault) }
    {
        let frame = self.standing.commit(number, topics)?;
        let commit = Commit::of(
            self.alloc,
            Frame::of(frame),
            self.group.as_str(),
            self.standing.id(),
            self.standing.epoch(),
            self.standing.own(),
        )?;
        Ok(commit)
    }
}

/// Puts a standing into a place that somebody holds.
fn put(place: &mut Standing, standing: Standing)
    ensures { place.new ≡ standing }
{
    drop(mem::replace(place, standing));
}
