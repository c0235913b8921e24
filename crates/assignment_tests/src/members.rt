//! Members and topics, as words say them.
//!
//! A member is `ID@INSTANCE?ASSIGNOR:TOPIC,TOPIC`, of which all but the id may be left out. A topic is
//! `NAME#NUMBER*COUNT`: its id ends in NUMBER, and it has COUNT partitions.

use crate::parts::topic_id;
use crate::types::names_of;
use group_types::limits::LONGEST_STRING;
use group_types::{AssignorName, MemberId, NameSet};
use range_assign::{Subs, Subscriber};
use std::alloc::{AllocError, Global};
use topic_meta::{Image, TopicEntry, View};
use uuid::Uuid;

/// A member.
#[derive(Drop)]
struct Seat<'a> {
    id: MemberId,
    instance: Option<&'a str>,
    assignor: Option<AssignorName>,
    names: NameSet,
}

/// Members, and a view of topics.
#[derive(Drop)]
pub struct Group<'a> {
    seats: Vec<Seat<'a>>,
    pub view: View,
}

impl<'a> Group<'a> {
    /// The members and topics that the words say. A word that says none is left out.
    pub fn of(alloc: Global, words: &'a str) -> Result<Group<'a>, AllocError> {
        let seats = seats_in(alloc, words)?;
        let view = view_in(alloc, words)?;
        Ok(Group { seats, view })
    }

    /// The members in member order, or nothing where two have one id.
    pub fn subs(&self, alloc: Global) -> Result<Option<Subs<'_>>, AllocError> {
        let members: Vec<Subscriber<'_>> = self.seats.iter().map(subscriber).collect(alloc)?;
        if Subscriber::are_apart(&members) {
            Ok(Some(Subs::of(members)))
        } else {
            Ok(None)
        }
    }
}

fn subscriber<'a>(seat: &'a Seat<'_>) -> Subscriber<'a> {
    Subscriber {
        id: &seat.id,
        instance: seat.instance,
        names: &seat.names,
        assignor: seat.assignor,
    }
}

/// A member's id.
pub fn id_of(alloc: Global, text: &str) -> Result<MemberId, AllocError> {
    if text.len() <= LONGEST_STRING {
        MemberId::of(alloc, text)
    } else {
        Err(AllocError)
    }
}

fn seats_in<'a>(alloc: Global, words: &'a str) -> Result<Vec<Seat<'a>>, AllocError> {
    let mut seats = Vec::new(alloc);
    for word in words.split(' ') {
        if !word.is_empty() && !word.contains('#') {
            seats.push(seat_of(alloc, word)?)?;
        }
    }
    Ok(seats)
}

fn seat_of<'a>(alloc: Global, word: &'a str) -> Result<Seat<'a>, AllocError> {
    let (who, topics) = cut_at(word, ':');
    let (who, vote) = cut_at(who, '?');
    let (id, instance) = cut_at(who, '@');
    Ok(Seat {
        id: id_of(alloc, id)?,
        instance,
        assignor: vote.and_then(AssignorName::of),
        names: names_of(alloc, topics.unwrap_or(""))?,
    })
}

/// The text before the mark, and the text after it where there is one.
fn cut_at(text: &str, mark: char) -> (&str, Option<&str>) {
    match text.split_once(mark) {
        Some((before, after)) => (before, Some(after)),
        None => (text, None),
    }
}

/// A topic.
#[derive(Clone, Copy)]
pub struct Topic<'a> {
    name: &'a str,
    number: u64,
    pub id: Uuid,
    pub count: i32,
}

/// The topic that a word says.
pub fn topic_of(word: &str) -> Option<Topic<'_>> {
    let (name, rest) = word.split_once('#')?;
    let (number, count) = rest.split_once('*')?;
    let number = number.parse().ok()?;
    Some(Topic {
        name,
        number,
        id: topic_id(number),
        count: count.parse().ok()?,
    })
}

/// The view of all topics that the words say.
fn view_in(alloc: Global, words: &str) -> Result<View, AllocError> {
    let image = Image::of(alloc, topics_in(alloc, words)?).map_err(|_| AllocError)?;
    image.view(alloc, &names_in(alloc, words)?)
}

fn topics_in(alloc: Global, words: &str) -> Result<Vec<TopicEntry>, AllocError> {
    let mut list = Vec::new(alloc);
    for topic in words.split(' ').filter_map(topic_of) {
        list.push(entry_of(alloc, topic.name, topic.number, topic.count)?)?;
    }
    Ok(list)
}

fn names_in(alloc: Global, words: &str) -> Result<NameSet, AllocError> {
    let mut names = NameSet::new(alloc);
    for topic in words.split(' ').filter_map(topic_of) {
        names.insert(alloc, topic.name)?;
    }
    Ok(names)
}

/// A topic of an image, whose id ends in the number.
pub fn entry_of(
    alloc: Global,
    name: &str,
    number: u64,
    count: i32,
) -> Result<TopicEntry, AllocError> {
    Ok(TopicEntry {
        name: String::from_str(alloc, name)?,
        id: topic_id(number),
        count,
    })
}
