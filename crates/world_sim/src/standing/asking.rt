//! Clients that ask and commit.
ghost use Rattle.std.specs.Prelude.{◌≡◌, ◌≤◌, map, All, Option, is_some};
ghost use Rattle.group_types.specs.Text.{Text};
ghost use Rattle.kip_msgs.specs.Views.{commit_request_topic_value};
ghost use Rattle.member_core.specs.Asking.{may_ask_at};
ghost use Rattle.member_core.specs.Client as client;
ghost use Rattle.member_core.specs.Limits.{GREATEST_NUMBER};
ghost use Rattle.member_core.specs.Writing.{HasShortTopic};
ghost use Rattle.world_sim.specs.Standing.{client_of, ask_value, Asked};
ghost use Rattle.world_sim.specs.Stands.{InsideAsked, IsCommitFrame};

use super::Standing;
use crate::act::Ask;
use crate::fault::WorldFault;
use crate::state::ClientState;
use member_core::{
    Array, CommitRequestTopic, Commits, Gone, Member, Outside, Present, Quit, Releasing, Sent,
    Steady,
};

/// What became of a member inside its group that was asked to ask.
#[derive(Drop)]
pub(crate) enum Inside<S: Present> {
    /// It waits for the reply to the request of this frame.
    Waits(Member<Sent<S>>, Vec<u8>),
    /// It is gone by the request of this frame.
    Gone(Member<Gone>, Vec<u8>),
    Stays(Member<S>, WorldFault),
}

impl Standing {
    /// Whether the client waits for a reply. Takes no memory.
    pub(crate) fn waits(&self) -> bool
        ensures { result ≡ (client_of self.now).waits }
    {
        let _ = self.state();
        match self {
            Standing::Outside(_) => false,
            Standing::Steady(_) => false,
            Standing::Releasing(_) => false,
            Standing::Gone(_) => false,
            Standing::Joining(_) => true,
            Standing::BeatingSteady(_) => true,
            Standing::BeatingReleasing(_) => true,
        }
    }

    /// Whether the client, with or without an instance id, stands where that can be asked. Takes no memory.
    pub(crate) fn allows(&self, ask: Ask, is_static: bool) -> bool
        requires { is_static ≡ is_some (client_of self.now).settings.instance }
        ensures { result ≡ may_ask_at (client_of self.now).place (ask_value ask) (client_of self.now).settings.instance }
    {
        match self.state() {
            ClientState::Outside => may_ask_outside(ask),
            ClientState::Steady => may_ask_inside(ask, is_static),
            ClientState::Releasing => may_ask_inside(ask, is_static),
            ClientState::Gone => false,
        }
    }

    /// Asks, and gives the request's frame, size and body. A client that is refused is as it was.
    pub(crate) fn ask(self, ask: Ask) -> (Standing, Result<Vec<u8>, WorldFault>)
        ensures { Asked (client_of self) (ask_value ask) result.1 (client_of result.0) }
    {
        let _ = self.state();
        match self {
            Standing::Outside(member) => join(member, ask),
            Standing::Steady(member) => ask_steady(member, ask),
            Standing::Releasing(member) => ask_releasing(member, ask),
            Standing::Gone(member) => (Standing::Gone(member), Err(WorldFault::WrongState)),
            Standing::Joining(member) => (Standing::Joining(member), Err(WorldFault::WrongState)),
            Standing::BeatingSteady(member) => {
                (Standing::BeatingSteady(member), Err(WorldFault::WrongState))
            }
            Standing::BeatingReleasing(member) => {
                (
                    Standing::BeatingReleasing(member),
                    Err(WorldFault::WrongState),
                )
            }
        }
    }

    /// The frame, size and body, of a commit under a number, where the client is inside its group.
    pub(crate) fn commit<'a>(
        &'a self,
        number: u32,
        topics: Array<CommitRequestTopic<'a>>,
    ) -> Result<Vec<u8>, WorldFault>
        requires number { number ≤ GREATEST_NUMBER }
        requires topics { All HasShortTopic (map commit_request_topic_value topics) }
        ensures { IsCommitFrame (client_of self.now) number (map commit_request_topic_value topics.entry) result }
    {
        let _ = self.state();
        match self {
            Standing::Steady(member) => commit_inside(member, number, topics),
            Standing::Releasing(member) => commit_inside(member, number, topics),
            Standing::BeatingSteady(member) => commit_inside(member, number, topics),
            Standing::BeatingReleasing(member) => commit_inside(member, number, topics),
            _ => Err(WorldFault::WrongState),
        }
    }
}

/// Whether a client that has yet to join may ask for this.
fn may_ask_outside(ask: Ask) -> bool
    ensures { (instance : Option Text) → result ≡ may_ask_at client.Outside (ask_value ask) instance }
{
    match ask {
        Ask::Join => true,
        Ask::Beat(_) => false,
        Ask::Quit(Quit::Leave) => false,
        Ask::Quit(Quit::Away) => false,
    }
}

/// Whether a client inside its group may ask for this: only one with an instance id goes away for a while.
fn may_ask_inside(ask: Ask, is_static: bool) -> bool
    ensures { (instance : Option Text) → is_static ≡ is_some instance → result ≡ may_ask_at client.Inside (ask_value ask) instance }
{
    match ask {
        Ask::Join => false,
        Ask::Beat(_) => true,
        Ask::Quit(Quit::Leave) => true,
        Ask::Quit(Quit::Away) => is_static,
    }
}

/// A member outside asks: it may join.
fn join(member: Member<Outside>, ask: Ask) -> (Standing, Result<Vec<u8>, WorldFault>)
    ensures { Asked member (ask_value ask) result.1 (client_of result.0) }
{
    let _ = member.own();
    match ask {
        Ask::Join => match member.join() {
            Ok((member, frame)) => (Standing::Joining(member), Ok(frame)),
            Err((member, fault)) => (Standing::Outside(member), Err(WorldFault::from(fault))),
        },
        _ => (Standing::Outside(member), Err(WorldFault::WrongState)),
    }
}

/// The frame, size and body, of a commit of a member inside.
fn commit_inside<'a, S: Commits>(
    member: &'a Member<S>,
    number: u32,
    topics: Array<CommitRequestTopic<'a>>,
) -> Result<Vec<u8>, WorldFault>
    requires number { number ≤ GREATEST_NUMBER }
    requires inside { member.now.place ≡ client.Inside }
    requires topics { All HasShortTopic (map commit_request_topic_value topics) }
    ensures { IsCommitFrame member.now number (map commit_request_topic_value topics.entry) result }
{
    match member.commit(number as i32, topics) {
        Ok(frame) => Ok(frame),
        Err(fault) => Err(WorldFault::from(fault)),
    }
}

/// A member that is shown all that it owns asks.
fn ask_steady(member: Member<Steady>, ask: Ask) -> (Standing, Result<Vec<u8>, WorldFault>)
    ensures { Asked member (ask_value ask) result.1 (client_of result.0) }
{
    match ask_inside(member, ask) {
        Inside::Waits(member, frame) => (Standing::BeatingSteady(member), Ok(frame)),
        Inside::Gone(member, frame) => (Standing::Gone(member), Ok(frame)),
        Inside::Stays(member, fault) => (Standing::Steady(member), Err(fault)),
    }
}

/// A member that has something to release asks.
fn ask_releasing(member: Member<Releasing>, ask: Ask) -> (Standing, Result<Vec<u8>, WorldFault>)
    ensures { Asked member (ask_value ask) result.1 (client_of result.0) }
{
    match ask_inside(member, ask) {
        Inside::Waits(member, frame) => (Standing::BeatingReleasing(member), Ok(frame)),
        Inside::Gone(member, frame) => (Standing::Gone(member), Ok(frame)),
        Inside::Stays(member, fault) => (Standing::Releasing(member), Err(fault)),
    }
}

/// A member inside asks: it may beat and quit.
fn ask_inside<S: Present>(member: Member<S>, ask: Ask) -> Inside<S>
    ensures { InsideAsked member (ask_value ask) result }
{
    let _ = member.own();
    match ask {
        Ask::Join => Inside::Stays(member, WorldFault::WrongState),
        Ask::Beat(kind) => match member.beat(kind) {
            Ok((member, frame)) => Inside::Waits(member, frame),
            Err((member, fault)) => Inside::Stays(member, WorldFault::from(fault)),
        },
        Ask::Quit(quit) => match member.quit(quit) {
            Ok((member, frame)) => Inside::Gone(member, frame),
            Err((member, fault)) => Inside::Stays(member, WorldFault::from(fault)),
        },
    }
}
