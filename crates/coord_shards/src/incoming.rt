//! Events on their way to a shard.
ghost use Rattle.std.specs.Prelude.{◌≡◌, ◌<◌, IfOk, OnErr};
ghost use Rattle.coord_node.specs.Nodes.{coordinator_of};
ghost use Rattle.coord_node.specs.Steps.{Step};
ghost use Rattle.coord_shards.specs.Home.{IsHome};
ghost use Rattle.coord_shards.specs.Events.{node_event, event_of, Gives};

use crate::event::Event;
use crate::homes::{shard_numbered, shard_of_group};
use crate::octets::Octets;
use coord_node::{Answered, Moment, Node, ParsedBody, Stamp};
use std::alloc::{AllocError, Global};
use topic_meta::Image;

/// An event on its way to its shard: all of it is lent, and a frame's body was read, once.
#[derive(Drop)]
pub(crate) enum Incoming<'a> {
    Frame(ParsedBody<'a>, Stamp, Moment),
    Tick(usize, Moment),
    Image(usize, &'a Image),
}

/// What became of an event. The bytes of a reply were appended.
#[derive(Clone, Copy)]
pub(crate) enum Effect {
    /// What became of a frame.
    Answered(Answered),
    /// How many members a tick removed; 0 for an image.
    Done(usize),
}

impl<'a> Incoming<'a> {
    /// An event, lent. Fails where memory is too short to read its frame.
    pub(crate) fn of(alloc: Global, event: &'a Event) -> Result<Incoming<'a>, AllocError>
        ensures { IfOk result (λ incoming. event_of incoming ≡ event.now) }
    {
        match event {
            Event::Frame {
                body,
                stamp,
                moment,
            } => {
                let body = ParsedBody::of(alloc, body.as_slice())?;
                Ok(Incoming::Frame(body, *stamp, *moment))
            }
            Event::Tick { shard, moment } => Ok(Incoming::Tick(*shard, *moment)),
            Event::Image { shard, image } => Ok(Incoming::Image(*shard, image)),
        }
    }

    /// The event, copied. Fails where memory is short.
    pub(crate) fn copy(&self, alloc: Global) -> Result<Event, AllocError>
        ensures { IfOk result (λ event. event ≡ event_of self.now) }
    {
        match self {
            Incoming::Frame(body, stamp, moment) => Ok(Event::Frame {
                body: Octets::of(Vec::from_slice(alloc, body.bytes())?),
                stamp: *stamp,
                moment: *moment,
            }),
            Incoming::Tick(shard, moment) => Ok(Event::Tick {
                shard: *shard,
                moment: *moment,
            }),
            Incoming::Image(shard, image) => Ok(Event::Image {
                shard: *shard,
                image: image.copy()?,
            }),
        }
    }

    /// The number of the shard that the event is for, of `shards` shards.
    pub(crate) fn home(&self, shards: usize) -> usize
        requires { 0 < shards }
        ensures home { IsHome shards (event_of self.now) result }
        ensures there { result < shards }
    {
        match self {
            Incoming::Frame(body, ..) => match body.group() {
                Some(group) => shard_of_group(group, shards),
                None => 0,
            },
            Incoming::Tick(shard, _) | Incoming::Image(shard, _) => {
                shard_numbered(*shard, shards)
            }
        }
    }

    /// Does at a node what the machine does at the event, and appends the bytes of the answer. Where memory is short nothing has
    /// changed.
    pub(crate) fn act(&self, node: &mut Node, out: &mut Vec<u8>) -> Result<Effect, AllocError>
        ensures acts { IfOk result (λ outcome. Gives outcome out.old.items out.new.items
            (λ given. Step (coordinator_of node.old) (node_event (event_of self.now)) given (coordinator_of node.new))) }
        ensures err { OnErr result ((node.new ≡ node.old) × (out.new.items ≡ out.old.items)) }
    {
        match self {
            Incoming::Frame(body, stamp, moment) => {
                let answered = node.answer_parsed(body, *stamp, *moment, out)?;
                Ok(Effect::Answered(answered))
            }
            Incoming::Tick(_, moment) => Ok(Effect::Done(node.tick(*moment))),
            Incoming::Image(_, image) => {
                node.set_image(image.copy()?);
                Ok(Effect::Done(0))
            }
        }
    }
}
