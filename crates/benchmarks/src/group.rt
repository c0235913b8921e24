//! What is measured of assignors: a cluster's topics, and the members of a group that subscribe them.

ghost use Rattle.std.specs.Prelude.{◌≡◌, ◌≤◌, IfOk, length};

use crate::fault::Fault;
use group_types::{MemberId, NameSet};
use range_assign::{Subs, Subscriber};
use std::alloc::{AllocError, Global};
use topic_meta::{Image, TopicEntry, View};
use uuid::Uuid;

/// The first half of the members' ids.
const SALT: u64 = 0x6b4c_2a9e_5d1f_4c3b;

/// Which topics the members of a group subscribe.
#[derive(Clone, Copy)]
pub enum Wish {
    /// Each member subscribes all of them.
    All,
    /// Each member subscribes three of four, and each four members do so in four ways.
    ThreeOfFour,
}

impl Wish {
    /// Whether a member subscribes a topic, both by their numbers.
    fn takes(self, member: u16, topic: u16) -> bool {
        match self {
            Wish::All => true,
            Wish::ThreeOfFour => member % 4 != topic % 4,
        }
    }
}

/// What the members refer to.
#[derive(Drop)]
pub struct Seat {
    id: MemberId,
    names: NameSet,
}

/// The topic's name.
fn topic_name(alloc: Global, topic: u16) -> Result<String, AllocError> {
    format!(in alloc; "topic-{topic:05}")
}

/// An image of `topics` topics, each of `partitions` partitions.
pub fn image_of(alloc: Global, topics: u16, partitions: i32) -> Result<Image, Fault> {
    let mut list = Vec::new(alloc);
    for topic in 0..topics {
        list.push(topic_of(alloc, topic, partitions)?)?;
    }
    Ok(Image::of(alloc, list)?)
}

fn topic_of(alloc: Global, topic: u16, partitions: i32) -> Result<TopicEntry, AllocError> {
    Ok(TopicEntry {
        name: topic_name(alloc, topic)?,
        id: Uuid::from_u128(u128::from(topic)),
        count: partitions,
    })
}

/// The names of those of `topics` topics that a member subscribes.
fn names_of(alloc: Global, topics: u16, wish: Wish, member: u16) -> Result<NameSet, AllocError> {
    let mut names = NameSet::new(alloc);
    for topic in 0..topics {
        if wish.takes(member, topic) {
            let name = topic_name(alloc, topic)?;
            names.insert(alloc, name.as_str())?;
        }
    }
    Ok(names)
}

/// A view of `topics` topics, each of `partitions` partitions.
pub fn view_of(alloc: Global, topics: u16, partitions: i32) -> Result<View, Fault> {
    let image = image_of(alloc, topics, partitions)?;
    let names = names_of(alloc, topics, Wish::All, 0)?;
    Ok(image.view(alloc, &names)?)
}

/// `members` members of a group that has `topics` topics.
pub fn seats_of(
    alloc: Global,
    members: u16,
    topics: u16,
    wish: Wish,
) -> Result<Vec<Seat>, AllocError>
    ensures { IfOk result (λ seats. length seats.items ≡ members) }
{
    let mut seats = Vec::new(alloc);
    for member in 0..members {
        seats.push(Seat {
            id: MemberId::made(alloc, SALT, u64::from(member))?,
            names: names_of(alloc, topics, wish, member)?,
        })?;
    }
    Ok(seats)
}

/// The first `members` members.
pub fn subs_of<'a>(alloc: Global, seats: &'a [Seat], members: u16) -> Result<Subs<'a>, Fault>
    requires { members ≤ length seats.now }
    ensures { IfOk result (λ subs. length subs ≡ members) }
{
    let mut list = Vec::new(alloc);
    for seat in &seats[..usize::from(members)] {
        list.push(Subscriber {
            id: &seat.id,
            instance: None,
            names: &seat.names,
            assignor: None,
        })?;
    }
    if !Subscriber::are_apart(&list) {
        return Err(Fault::OneId);
    }
    Ok(Subs::of(list))
}
