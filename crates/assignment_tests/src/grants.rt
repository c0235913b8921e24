//! Grants of partitions, worked out by hand from the rule of an offer.

ghost use Rattle.std.specs.Prelude.{◌≡◌, IsTrue};
ghost use Rattle.group_types.specs.Sets.{nothing};
ghost use Rattle.group_types.specs.Group.{held};
ghost use Rattle.group_reconcile.specs.Holders.{pairs};

use crate::members::id_of;
use crate::parts::{part, set_of};
use group_reconcile::{Grants, MemberTarget, Verdict};
use group_types::{EpochNumber, MemberId, PartSet, Partition, Wanted};
use std::alloc::{AllocError, Global};
use std::test::Fail;
use test_support::tables::{Answers, cut, number, part_words, wrong_rows};

/// The steps are parted by `; `.
///
/// - `offer ID EPOCH WANTED OWNED`: offers the member a target of this epoch. It reports what it owns, or nothing.
/// - `drop ID`, `hand OLD NEW`: a member that leaves, or hands over what it may read.
///
/// The answer has a verdict for each offer, `?` where the offer showed the member anything else before; and for each of 1.0, 1.1,
/// 1.2 and 2.0 the member that may read it and since which epoch.
pub const GRANTS: &str = "
nothing = - - - -
offer a 3 1.0,1.1 = moves a3 a3 - -
offer a 3 1.0,1.1; offer b 3 1.1,1.2 = moves moves a3 a3 b3 -
offer a 3 1.0,1.1; offer a 4 1.0 = moves holds a3 a3 - -
offer a 3 1.0,1.1; offer a 4 1.0 1.0,1.1 = moves holds a3 a3 - -
offer a 3 1.0,1.1; offer a 4 1.0 1.0 = moves moves a3 - - -
offer a 3 1.0,1.1,1.2; offer a 4 1.0 1.0,1.1 = moves holds a3 a3 a3 -
offer a 3 1.0,1.1; offer a 4 2.0,1.1 - = moves moves - a3 - a4
offer a 3 1.0,1.1; offer a 4 2.0,1.1,1.0 = moves moves a3 a3 - a4
offer a 3 1.0; offer b 4 1.0; offer a 4 1.1 1.1; offer b 4 1.0 = moves moves moves moves b4 a4 - -
offer a 3 1.0; offer b 5 1.1; drop a = moves moves - b5 - -
offer a 3 1.0; drop a; offer c 4 1.1; offer b 4 1.0 = moves moves moves b4 c4 - -
offer c 1 1.2; offer a 1 1.0; offer b 1 1.1,2.0 = moves moves moves a1 b1 c1 b1
offer a 3 1.0,2.0; hand a b = moves b3 - - b3
offer a 3 1.0; offer b 3 -; hand a b; offer b 4 1.0,1.1 = moves moves moves b3 b4 - -
offer a 3 1.0; hand a b; offer a 4 1.0,1.1; drop b = moves moves - a4 - -
drop a; hand a b; offer b 2147483647 2.0 = moves - - - b2147483647
";

/// The partitions of which the answers tell.
pub const SHOWN: [&str; 4] = ["1.0", "1.1", "1.2", "2.0"];

/// An offer to a member.
#[derive(Drop)]
pub struct Offer<'a> {
    pub member: &'a str,
    pub epoch: EpochNumber,
    pub wanted: PartSet,
    pub owned: Option<PartSet>,
}

pub struct Granted;

impl Answers for Granted {
    /// The verdicts of the steps' offers, and the grants after the last.
    fn answer(&self, alloc: Global, question: &str, out: &mut String) -> Result<(), AllocError> {
        let mut grants = Grants::new(alloc);
        take_steps(alloc, &mut grants, question, out)?;
        tell_grants(&grants, out)
    }
}

fn take_steps(
    alloc: Global,
    grants: &mut Grants,
    steps: &str,
    out: &mut String,
) -> Result<(), AllocError> {
    for step in steps.split("; ") {
        take_step(alloc, grants, step, out)?;
    }
    Ok(())
}

fn tell_grants(grants: &Grants, out: &mut String) -> Result<(), AllocError> {
    for word in SHOWN {
        tell_partition(grants, &part(word), out)?;
    }
    Ok(())
}

fn take_step(
    alloc: Global,
    grants: &mut Grants,
    step: &str,
    out: &mut String,
) -> Result<(), AllocError> {
    let (verb, words) = cut(step);
    let (old, new) = cut(words);
    match verb {
        "offer" => make_offer(alloc, grants, &offer_of(alloc, words)?, out),
        "drop" => {
            grants.drop_member(words);
            Ok(())
        }
        "hand" => {
            give(grants, old, id_of(alloc, new)?);
            Ok(())
        }
        _ => Ok(()),
    }
}

/// Makes the offer, and tells the verdict.
fn make_offer(
    alloc: Global,
    grants: &mut Grants,
    offer: &Offer<'_>,
    out: &mut String,
) -> Result<(), AllocError> {
    let member = id_of(alloc, offer.member)?;
    let target = Wanted::new(Some(&offer.wanted), offer.epoch);
    let owned = offer.owned.as_ref();
    let shown = grants.shown_after(offer.member, &target, owned)?;
    let Some(target) = MemberTarget::of(target) else {
        return out.push_str("below zero");
    };
    let verdict = grants.offer(&member, &target, owned)?;
    let is_shown = is_held(grants, offer, &shown);
    put_verdict(verdict, is_shown, out)
}

fn put_verdict(verdict: Verdict, is_shown: bool, out: &mut String) -> Result<(), AllocError> {
    part_words(out)?;
    out.push_str(match verdict {
        _ if !is_shown => "?",
        Verdict::Moves => "moves",
        Verdict::StillHolds => "holds",
    })
}

/// Whether the set is what the member may read of its target.
fn is_held(grants: &Grants, offer: &Offer<'_>, set: &PartSet) -> bool {
    let held = |p: &Partition| grants.holds(offer.member, p);
    offer.wanted.iter().all(|p| set.contains(p) == held(p))
        && set.iter().all(|p| offer.wanted.contains(p))
}

/// Gives all that the first id may read to the second, where that may read nothing.
fn give(grants: &mut Grants, old: &str, new: MemberId) {
    if has_nothing(grants, new.as_str()) {
        grants.hand_over(old, new);
    }
}

/// Whether the member may read nothing.
fn has_nothing(grants: &Grants, member: &str) -> bool
    ensures { IsTrue result → held (pairs grants.now) member.now ≡ nothing }
{
    match grants.held(member) {
        Some(set) => set.is_empty(),
        None => true,
    }
}

/// Tells who may read the partition and since when.
fn tell_partition(grants: &Grants, p: &Partition, out: &mut String) -> Result<(), AllocError> {
    part_words(out)?;
    match (grants.holder(p), grants.granted_at(p)) {
        (Some(id), Some(epoch)) => write!(out, "{id}{}", epoch.as_u32()),
        _ => out.push('-'),
    }
}

pub fn offer_of<'a>(alloc: Global, words: &'a str) -> Result<Offer<'a>, AllocError> {
    let (member, rest) = cut(words);
    let (epoch, rest) = cut(rest);
    let (wanted, owned) = cut(rest);
    Ok(Offer {
        member,
        epoch: EpochNumber::of_i32(number(epoch)).unwrap_or(EpochNumber::zero()),
        wanted: set_of(alloc, wanted)?,
        owned: match owned {
            "" => None,
            _ => Some(set_of(alloc, owned)?),
        },
    })
}

#[test]
fn grants_are_as_worked_out(rt: HostRuntime) -> Result<(), Fail> {
    let wrong = wrong_rows(rt.alloc(), &Granted, GRANTS)?;
    assert_eq!(rt; wrong.as_str(), "");
    Ok(())
}
