//! Uniform beside its plain rule, over small groups that look random.

use crate::members::Group;
use crate::plain::plain_owners;
use group_types::Partition;
use range_assign::{Assignor, Range, Spread, Subs};
use std::alloc::{AllocError, Global};
use std::test::Fail;
use topic_meta::View;
use uniform_assign::Uniform;

/// How many groups are looked at.
const GROUPS: u64 = 400;
/// How many members and topics a group may have.
const MEMBERS: u64 = 6;

const TOPICS: u64 = 4;

#[test]
fn uniform_is_its_plain_rule(rt: HostRuntime) -> Result<(), Fail> {
    let mut differing = Vec::new(rt.alloc());
    for number in 0..GROUPS {
        if !is_plain(rt.alloc(), number)? {
            differing.push(number)?;
        }
    }
    assert_eq!(rt; differing.as_slice(), &[] as &[u64]);
    Ok(())
}

/// Whether uniform gives a group the owners that the plain rule gives it, after those that another group had.
fn is_plain(alloc: Global, number: u64) -> Result<bool, AllocError> {
    let former = former_owners(alloc, number)?;
    let words = words_of(alloc, number.wrapping_mul(2))?;
    let group = Group::of(alloc, words.as_str())?;
    match group.subs(alloc)? {
        Some(subs) => agree(alloc, &former, &subs, &group.view),
        None => Ok(false),
    }
}

/// Nobody, or the owners that an assignor gives another group.
fn former_owners(alloc: Global, number: u64) -> Result<Spread, AllocError> {
    let words = words_of(alloc, number.wrapping_mul(2).wrapping_add(1))?;
    let group = Group::of(alloc, words.as_str())?;
    let nobody = Spread::empty(alloc);
    match (group.subs(alloc)?, number % 3) {
        (Some(subs), 1) => Range.assign(alloc, &nobody, &subs, &group.view),
        (Some(subs), 2) => Uniform.assign(alloc, &nobody, &subs, &group.view),
        _ => Ok(nobody),
    }
}

/// Whether uniform gives the owners that the plain rule gives.
fn agree(alloc: Global, former: &Spread, subs: &Subs<'_>, view: &View) -> Result<bool, AllocError> {
    let spread = Uniform.assign(alloc, former, subs, view)?;
    let plain = plain_owners(alloc, former, subs, view)?;
    let mut same = true;
    for (member, owned) in subs.members().iter().zip(plain.iter()) {
        same = same && has_just(&spread, member.id.as_str(), owned);
    }
    Ok(same)
}

/// Whether a member owns these partitions and no other one.
fn has_just(spread: &Spread, id: &str, owned: &[Partition]) -> bool {
    match spread.share_of(id) {
        Some(set) => set.len() == owned.len() && owned.iter().all(|it| set.contains(it)),
        None => owned.is_empty(),
    }
}

/// Members and topics as words, which a number decides.
fn words_of(alloc: Global, number: u64) -> Result<String, AllocError> {
    let mut words = String::new(alloc);
    for member in 0..MEMBERS {
        if number_at(number, "joins", member) % 4 != 0 {
            put_member(&mut words, number, member)?;
        }
    }
    for topic in 0..TOPICS {
        let id = apart(number_at(number, "id", topic), topic);
        let count = number_at(number, "count", topic) % 9 + 1;
        write!(words, "t{topic}#{id}*{count} ")?;
    }
    Ok(words)
}

/// A member with or without an instance, and the topics that it subscribes, one of which is missing.
fn put_member(words: &mut String, number: u64, member: u64) -> Result<(), AllocError> {
    let id = apart(number_at(number, "member", member), member);
    write!(words, "{id}")?;
    if number_at(number, "static", member) % 3 == 0 {
        let instance = apart(number_at(number, "instance", member), member);
        write!(words, "@i{instance}")?;
    }
    words.push_str(":lost")?;
    for topic in 0..TOPICS {
        let place = member.wrapping_mul(TOPICS).wrapping_add(topic);
        if number_at(number, "subscribes", place) % 3 != 0 {
            write!(words, ",t{topic}")?;
        }
    }
    words.push_str(" ")
}

/// A small number: different ones for different places below 8.
fn apart(random: u64, place: u64) -> u64 {
    (random % 1_000 * 8).wrapping_add(place % 8)
}

/// A number that looks random, for a place of something in a group.
pub fn number_at(number: u64, what: &str, place: u64) -> u64 {
    let mut mixed = number.wrapping_add(place.wrapping_mul(0x9e37_79b9_7f4a_7c15));
    for byte in what.bytes() {
        mixed = (mixed ^ u64::from(byte)).wrapping_mul(0xbf58_476d_1ce4_e5b9);
        mixed ^= mixed >> 31;
    }
    mixed
}
