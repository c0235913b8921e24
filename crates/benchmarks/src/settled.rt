//! A node whose members have settled.
ghost use Rattle.std.specs.Prelude.{◌≡◌, IfOk};
ghost use Rattle.group_types.specs.MemberId.{made_id};

use crate::beats::{Beat, beat_body};
use crate::dice::Dice;
use crate::fault::Fault;
use coord_node::{Image, Moment, Node, Stamp};
use group_types::MemberId;
use std::alloc::{AllocError, Global};
use std::collections::hash_map::RandomState;

/// The first half of the ids that the node makes.
const SALT: u64 = 0x6b4c_2a9e_5d1f_4c3b;

/// The first half of the name of the group.
const NAMES: u64 = 0x1d2e_3f40_5162_7384;

/// A node with one group, whose members are each at the target; the number of its last frame, and the last reply.
#[derive(Drop)]
pub struct Settled {
    node: Node,
    group: MemberId,
    frame: u64,
    out: Vec<u8>,
}

/// Bodies of one size, one behind the other: to read the next costs as little as to read what a socket has just brought.
#[derive(Drop)]
pub struct Bodies {
    bytes: Vec<u8>,
    size: usize,
}

impl Settled {
    /// `members` members join one after the other, each without an id. Then each says that it owns nothing at the epoch
    /// at which it joined, and is at the target.
    pub fn with_members(
        alloc: Global,
        hasher: RandomState,
        image: Image,
        members: u16,
    ) -> Result<Settled, Fault> {
        let mut node = Node::new(alloc, SALT, hasher);
        node.set_image(image);
        let mut settled = Settled {
            node,
            group: MemberId::made(alloc, NAMES, 0)?,
            frame: 0,
            out: Vec::new(alloc),
        };
        settled.fill(alloc, members)?;
        settled.settle(alloc, members)?;
        Ok(settled)
    }

    fn fill(&mut self, alloc: Global, members: u16) -> Result<(), Fault> {
        let body = beat_body(alloc, &Beat::join(&self.group))?;
        for _ in 0..members {
            self.answer(body.as_slice())?;
        }
        Ok(())
    }

    fn settle(&mut self, alloc: Global, members: u16) -> Result<(), Fault> {
        for serial in 1..=members {
            let member = id_of(alloc, u64::from(serial))?;
            let beat = Beat {
                owned: Some(0),
                ..Beat::steady(&self.group, &member, serial)
            };
            let body = beat_body(alloc, &beat)?;
            self.answer(body.as_slice())?;
        }
        Ok(())
    }

    /// Answers a body as the next frame, and gives how many bytes the reply has.
    fn answer(&mut self, body: &[u8]) -> Result<usize, Fault> {
        self.frame = self.frame.saturating_add(1);
        let stamp = Stamp {
            connection: 1,
            frame: self.frame,
        };
        let now = Moment::of_millis(0);
        self.out.clear();
        self.node.answer(body, stamp, now, &mut self.out)?;
        Ok(self.out.len())
    }

    /// Answers `times` of the bodies in turn, and gives how many bytes the replies have. Behind the last body comes the first.
    pub fn answer_in_turn(&mut self, bodies: &Bodies, times: u32) -> Result<usize, Fault> {
        let mut bytes = 0usize;
        let mut start = 0usize;
        for _ in 0..times {
            if bodies.bytes.len().saturating_sub(start) < bodies.size {
                start = 0;
            }
            let end = start.saturating_add(bodies.size);
            if let Some(body) = bodies.bytes.get(start..end) {
                bytes = bytes.saturating_add(self.answer(body)?);
            }
            start = end;
        }
        Ok(bytes)
    }

    /// The bodies of a heartbeat of each member in which nothing is new, in an order that looks random.
    pub fn steady_bodies(&self, alloc: Global, members: u16) -> Result<Bodies, Fault> {
        let mut bytes = Vec::new(alloc);
        let mut size = 0;
        for (_, serial) in &at_random(alloc, members)? {
            let member = id_of(alloc, u64::from(*serial))?;
            let body = beat_body(alloc, &Beat::steady(&self.group, &member, members))?;
            bytes.extend_from_slice(body.as_slice())?;
            size = body.len();
        }
        Ok(Bodies { bytes, size })
    }
}

/// The numbers from 1 to `most`, in an order that looks random, each behind the number by which it came there.
fn at_random(alloc: Global, most: u16) -> Result<Vec<(u64, u16)>, AllocError> {
    let mut dice = Dice::new(848);
    let mut numbers = Vec::new(alloc);
    for number in 1..=most {
        numbers.push((dice.below(u64::MAX), number))?;
    }
    numbers.sort()?;
    Ok(numbers)
}

/// The id that the node makes for the member whose join is number `serial`, counted from 1.
fn id_of(alloc: Global, serial: u64) -> Result<MemberId, AllocError>
    ensures { IfOk result (λ id. id ≡ made_id SALT serial) }
{
    MemberId::made(alloc, SALT, serial)
}
