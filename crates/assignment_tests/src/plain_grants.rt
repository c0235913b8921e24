//! Grants beside a plain list of them: over the rows that are worked out by hand, and over steps that look random.

use crate::grants::{GRANTS, Granted, Offer, SHOWN, offer_of};
use crate::members::id_of;
use crate::parts::part;
use crate::random_groups::number_at;
use group_types::{EpochNumber, MemberId, Partition};
use std::alloc::{AllocError, Global};
use std::test::Fail;
use test_support::tables::{Answers, cut, part_words, wrong_rows};

/// How many rows of steps are looked at, and how many steps each has.
const ROWS: u64 = 100;

const STEPS: u64 = 10;
/// The members.
const IDS: [&str; 4] = ["a", "b", "c", "d"];

/// A grant: who may read a partition, and since which epoch.
#[derive(Drop)]
struct Grant {
    member: MemberId,
    partition: Partition,
    since: EpochNumber,
}

/// Answers as `Granted` does, by a list of grants and the words of the rule.
struct PlainList;

impl Answers for PlainList {
    fn answer(&self, alloc: Global, question: &str, out: &mut String) -> Result<(), AllocError> {
        let mut list = Vec::new(alloc);
        for step in question.split("; ") {
            take_step(alloc, &mut list, step, out)?;
        }
        for word in SHOWN {
            tell_partition(&list, &part(word), out)?;
        }
        Ok(())
    }
}

fn take_step(
    alloc: Global,
    list: &mut Vec<Grant>,
    step: &str,
    out: &mut String,
) -> Result<(), AllocError> {
    let (verb, words) = cut(step);
    let (old, new) = cut(words);
    match verb {
        "offer" => make_offer(alloc, list, &offer_of(alloc, words)?, out),
        "drop" => {
            list.retain(|grant| !grant.member.is(words));
            Ok(())
        }
        "hand" => hand_over(alloc, list, old, new),
        _ => Ok(()),
    }
}

/// Makes the offer, and tells the verdict.
fn make_offer(
    alloc: Global,
    list: &mut Vec<Grant>,
    offer: &Offer<'_>,
    out: &mut String,
) -> Result<(), AllocError> {
    part_words(out)?;
    if !moves(list, offer) {
        return out.push_str("holds");
    }
    list.retain(|grant| !grant.member.is(offer.member) || offer.wanted.contains(&grant.partition));
    take_free(alloc, list, offer)?;
    out.push_str("moves")
}

/// Whether the member holds nothing but its target, or reports that it owns none of the rest.
fn moves(list: &[Grant], offer: &Offer<'_>) -> bool {
    let mut rest = list.iter().filter(|grant| grant.member.is(offer.member)
        && !offer.wanted.contains(&grant.partition));
    match &offer.owned {
        Some(owned) => rest.all(|grant| !owned.contains(&grant.partition)),
        None => rest.next().is_none(),
    }
}

/// Grants the member what nobody holds of its target.
fn take_free(alloc: Global, list: &mut Vec<Grant>, offer: &Offer<'_>) -> Result<(), AllocError> {
    for p in offer.wanted.iter() {
        if grant_of(list, p).is_none() {
            list.push(Grant {
                member: id_of(alloc, offer.member)?,
                partition: *p,
                since: offer.epoch,
            })?;
        }
    }
    Ok(())
}

fn grant_of<'a>(list: &'a [Grant], p: &Partition) -> Option<&'a Grant> {
    list.iter().find(|grant| grant.partition == *p)
}

/// Gives all that the first id may read to the second, where that may read nothing.
fn hand_over(alloc: Global, list: &mut Vec<Grant>, old: &str, new: &str) -> Result<(), AllocError> {
    if list.iter().any(|grant| grant.member.is(new)) {
        return Ok(());
    }
    for grant in list {
        if grant.member.is(old) {
            grant.member = id_of(alloc, new)?;
        }
    }
    Ok(())
}

/// Tells who may read the partition and since when.
fn tell_partition(list: &[Grant], p: &Partition, out: &mut String) -> Result<(), AllocError> {
    part_words(out)?;
    match grant_of(list, p) {
        Some(grant) => write!(out, "{}{}", grant.member.as_str(), grant.since.as_u32()),
        None => out.push('-'),
    }
}

/// Steps as words, which a number decides.
fn steps_of(alloc: Global, number: u64) -> Result<String, AllocError> {
    let mut words = String::new(alloc);
    for step in 0..STEPS {
        if step > 0 {
            words.push_str("; ")?;
        }
        put_step(&mut words, number, step)?;
    }
    Ok(words)
}

/// Mostly an offer; its epoch rises from step to step.
fn put_step(words: &mut String, number: u64, step: u64) -> Result<(), AllocError> {
    let member = id_at(number_at(number, "member", step));
    match number_at(number, "verb", step) % 8 {
        0 => write!(words, "drop {member}"),
        1 => write!(
            words,
            "hand {member} {}",
            id_at(number_at(number, "heir", step))
        ),
        _ => {
            write!(words, "offer {member} {step}")?;
            put_some(words, number_at(number, "wanted", step))?;
            let owned = number_at(number, "owned", step);
            if owned % 3 == 0 {
                return Ok(());
            }
            put_some(words, owned / 3)
        }
    }
}

fn id_at(random: u64) -> &'static str {
    match random % 4 {
        0 => IDS[0],
        1 => IDS[1],
        2 => IDS[2],
        _ => IDS[3],
    }
}

/// Some of the partitions, or none.
fn put_some(words: &mut String, random: u64) -> Result<(), AllocError> {
    words.push(' ')?;
    let mut is_first = true;
    for (at, word) in (0u32..4).zip(SHOWN) {
        if random.wrapping_shr(at) % 2 == 1 {
            if !is_first {
                words.push(',')?;
            }
            words.push_str(word)?;
            is_first = false;
        }
    }
    if is_first {
        return words.push('-');
    }
    Ok(())
}

/// The steps to which the grants and the list have different answers, a line each.
fn differing_steps(alloc: Global) -> Result<String, AllocError> {
    let mut differing = String::new(alloc);
    for number in 0..ROWS {
        let steps = steps_of(alloc, number)?;
        let mut row = String::new(alloc);
        write!(row, "{steps} = ")?;
        PlainList.answer(alloc, steps.as_str(), &mut row)?;
        differing.push_str(wrong_rows(alloc, &Granted, row.as_str())?.as_str())?;
    }
    Ok(differing)
}

#[test]
fn grants_are_a_plain_list(rt: HostRuntime) -> Result<(), Fail> {
    let mut wrong = wrong_rows(rt.alloc(), &PlainList, GRANTS)?;
    wrong.push_str(differing_steps(rt.alloc())?.as_str())?;
    assert_eq!(rt; wrong.as_str(), "");
    Ok(())
}
