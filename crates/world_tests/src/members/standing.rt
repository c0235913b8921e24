//! Where a member stands, as a value.

use crate::parts::tell_parts;
use member_core::{
    BeatFault, EpochNumber, Gone, Member, Outside, PartSet, Releasing, Sent, Settings, Stage,
    Steady,
};
use std::alloc::{AllocError, Global};
use std::mem;
use test_support::tables::part_words;

/// A member in any state.
#[derive(Drop)]
pub enum Standing {
    Outside(Member<Outside>),
    Steady(Member<Steady>),
    Releasing(Member<Releasing>),
    Gone(Member<Gone>),
    Joining(Member<Sent<Outside>>),
    BeatingSteady(Member<Sent<Steady>>),
    BeatingReleasing(Member<Sent<Releasing>>),
}

/// What comes of a step.
#[derive(Drop)]
pub enum Answer {
    /// A request was made: its frame.
    Frame(Vec<u8>),
    Refused(BeatFault),
    /// The member did it, and is what it then is.
    Done,
    /// The member is gone, by this code of a reply.
    Gone(i16),
    /// The member may ask again, by this code of a reply.
    Kept(i16),
    /// The bytes are no reply to the member's request.
    Still,
    /// The member didn't wait on with a beginning of the bytes.
    TooSoon,
    /// The state has no such call.
    NoCall,
}

/// What is to be seen of a member.
struct Seen<'a> {
    state: &'static str,
    id: Option<&'a str>,
    epoch: EpochNumber,
    own: &'a PartSet,
}

impl Standing {
    /// A member that has yet to join a group without a name. Takes no memory.
    pub fn nobody(alloc: Global) -> Standing {
        let settings = Settings {
            group: String::new(alloc),
            instance: None,
            rack: None,
            rebalance_timeout: 0,
            names: Vec::new(alloc),
            assignor: None,
        };
        Standing::Outside(Member::new(alloc, settings))
    }

    /// Takes the member out, and leaves a nobody in its place.
    pub fn take_out(&mut self, alloc: Global) -> Standing {
        mem::replace(self, Standing::nobody(alloc))
    }

    /// Puts a member in the place of the one that is there.
    pub fn put(&mut self, standing: Standing) {
        drop(mem::replace(self, standing));
    }

    /// Appends what the member is: its state, and `ID@EPOCH:OWN`.
    pub fn tell_member(&self, out: &mut String) -> Result<(), AllocError> {
        let Seen {
            state,
            id,
            epoch,
            own,
        } = self.seen();
        part_words(out)?;
        write!(out, "{state} {}@{}:", id.unwrap_or("-"), epoch.as_u32())?;
        tell_parts(own, out)
    }

    fn seen(&self) -> Seen<'_> {
        match self {
            Standing::Outside(member) => seen_in("outside", member),
            Standing::Joining(member) => seen_in("outside", member),
            Standing::Steady(member) => seen_in("steady", member),
            Standing::BeatingSteady(member) => seen_in("steady", member),
            Standing::Releasing(member) => seen_in("releasing", member),
            Standing::BeatingReleasing(member) => seen_in("releasing", member),
            Standing::Gone(member) => seen_in("gone", member),
        }
    }
}

/// What is to be seen of a member in a state.
fn seen_in<'a, S: Stage>(state: &'static str, member: &'a Member<S>) -> Seen<'a> {
    Seen {
        state,
        id: member.id(),
        epoch: member.epoch(),
        own: member.own(),
    }
}
