//! Who owns what under either assignor, which of them is voted for, and targets that are renewed, worked out by hand.

use crate::members::{Group, Topic, topic_of};
use group_target::Target;
use group_types::{EpochNumber, PartSet, Partition};
use range_assign::{Assignor, Range, Spread, Subs};
use std::alloc::{AllocError, Global};
use std::test::Fail;
use test_support::tables::{Answers, cut, wrong_rows};
use topic_meta::View;
use uniform_assign::Uniform;

/// A row has steps, parted by `; `, each with members and topics.
///
/// - `range`, `uniform`: what the assignor makes of them, where the owners were those of the step before. The answer has the owners of
///   all partitions, topic by topic and index by index: ids, which are digits, or `-`.
/// - `renew`: what a target makes of them, which begins at epoch 0. Behind the owners stand its epoch, and that of what it wants
///   of member 1.
/// - `runs`: the first and the last index of each member under range, and how many it has. `votes`: the assignor that is chosen.
const TABLE: &str = "
# the first subscribers get one more; those with an instance come first; topics are split one by one; nobody owns what nobody
# subscribes
range 2:t 4 1:t 3:t t#2*7 = 1112233
range 1:t 2@b:t 3@a:t t#2*7 = 3332211
range 1:t,u,lost 2:t t#2*3 u#1*2 = 11211
range 1:u 2:u 3:u t#2*3 u#1*2 = ---12
range t#1*2 = --
runs 1:t 2:t 3:t t#1*100000 = 0 to 33333: 33334; 33334 to 66666: 33333; 66667 to 99999: 33333;

# without former owners topics are filled in the order of their names
uniform 1:t 2@b:t 3@a:t t#2*7 = 3213213
uniform 1:t,u 2:t 3@a:u t#2*3 u#1*2 = 12133
uniform 1:t 2:t,u t#1*3 u#2*2 = 12122
uniform 1:t 2:t t#1*4 = 1212
uniform 1:lost,t 2:lost t#1*2 = 11
uniform 1 2 t#1*2 = --
uniform t#1*2 = --

# a member that joins takes the first half; new partitions of a topic are filled; an even spread is given back; who no longer
# subscribes loses its partitions; those of a member that is gone are filled; the first of the fullest gives to the first of
# the emptiest; partitions that nobody else subscribes stay
range 1:t t#1*4; uniform 1:t 2:t t#1*4 = 2211
range 1:t 2:t t#1*4; uniform 1:t 2:t t#1*6 = 112212
range 1:t 2:t t#1*4; uniform 1:t 2:t t#1*4 = 1122
range 1:t 2:t t#1*4 u#2*1; uniform 1:t 2:u t#1*4 u#2*1 = 11112
range 1:t 2:t 3:t t#1*6; uniform 1:t 3:t t#1*6 = 111333
range 1:t 2:t t#1*6; uniform 1:t 2:t 3:t 4:t t#1*6 = 311422
range 1:t,u t#1*5 u#2*2; uniform 1:t,u 2:u t#1*5 u#2*2 = 1111122
uniform 1:t 2:t,u t#1*3 u#2*2; uniform 1:t 2:t,u t#1*5 u#2*2 = 1211122

# range wins where more members ask for it than for uniform
votes 1?range 2?uniform 3?range = range
votes 1?range 2 3 = range
votes 1?range 2?uniform 3 = uniform
votes 1 2 3 = uniform

renew 1?range:t 2?range:t t#1*5 = 11122 at 1, wanted at 1
renew 1:t t#1*4 = 1111 at 1, wanted at 1
renew 1:t t#1*4; renew 1:t 2:t t#1*4 = 2211 at 2, wanted at 2
renew 1?uniform:t 2?range:t 3?range:t t#1*6 = 112233 at 1, wanted at 1
renew 1?uniform:t 2?range:t t#1*6 = 121212 at 1, wanted at 1
";

/// The ids of owners.
const IDS: [&str; 4] = ["1", "2", "3", "4"];

#[test]
fn owners_are_as_worked_out(rt: HostRuntime) -> Result<(), Fail> {
    let wrong = wrong_rows(rt.alloc(), &Owned, TABLE)?;
    assert_eq!(rt; wrong.as_str(), "");
    Ok(())
}

struct Owned;

impl Answers for Owned {
    fn answer(&self, alloc: Global, question: &str, out: &mut String) -> Result<(), AllocError> {
        let (verb, words) = cut(question);
        match verb {
            "votes" => tell_winner(alloc, words, out),
            "runs" => tell_runs(alloc, words, out),
            "renew" => tell_target(alloc, question, out),
            _ => tell_owners(alloc, question, out),
        }
    }
}

/// Tells the name of the assignor for which the members vote.
fn tell_winner(alloc: Global, words: &str, out: &mut String) -> Result<(), AllocError> {
    let group = Group::of(alloc, words)?;
    match group.subs(alloc)? {
        Some(subs) => out.push_str(subs.assignor().as_str()),
        None => out.push_str("two members have one id"),
    }
}

/// Tells the runs of the members under range, in member order.
fn tell_runs(alloc: Global, words: &str, out: &mut String) -> Result<(), AllocError> {
    let group = Group::of(alloc, words)?;
    match group.subs(alloc)? {
        Some(subs) => put_runs(alloc, &subs, &group.view, out),
        None => out.push_str("two members have one id"),
    }
}

fn put_runs(
    alloc: Global,
    subs: &Subs<'_>,
    view: &View,
    out: &mut String,
) -> Result<(), AllocError> {
    let spread = Range.assign(alloc, &Spread::empty(alloc), subs, view)?;
    for member in subs.members() {
        put_run(out, spread.share_of(member.id.as_str()))?;
    }
    Ok(())
}

fn put_run(out: &mut String, set: Option<&PartSet>) -> Result<(), AllocError> {
    let Some(set) = set else {
        return out.push_str("nothing; ");
    };
    let (mut first, mut last) = (i32::MAX, i32::MIN);
    for partition in set.iter() {
        first = first.min(partition.index);
        last = last.max(partition.index);
    }
    write!(out, "{first} to {last}: {}; ", set.len())
}

/// Tells the owners after the steps.
fn tell_owners(alloc: Global, steps: &str, out: &mut String) -> Result<(), AllocError> {
    let mut spread = Spread::empty(alloc);
    for step in steps.split("; ") {
        let (verb, words) = cut(step);
        spread = match verb {
            "range" => assigned(alloc, &Range, &spread, words)?,
            _ => assigned(alloc, &Uniform, &spread, words)?,
        };
    }
    put_owners(&spread, last_step(steps), out)
}

/// What an assignor makes of the words' members and topics; nothing where two members have one id.
fn assigned<A: Assignor>(
    alloc: Global,
    assignor: &A,
    former: &Spread,
    words: &str,
) -> Result<Spread, AllocError> {
    let group = Group::of(alloc, words)?;
    match group.subs(alloc)? {
        Some(subs) => assignor.assign(alloc, former, &subs, &group.view),
        None => Ok(Spread::empty(alloc)),
    }
}

/// Tells a target after the steps, each of which renews it under the next epoch.
fn tell_target(alloc: Global, steps: &str, out: &mut String) -> Result<(), AllocError> {
    let mut target = Target::new(alloc, EpochNumber::zero());
    for step in steps.split("; ") {
        let (_, words) = cut(step);
        target = renewed(alloc, &target, words)?;
    }
    put_owners(&target, last_step(steps), out)?;
    let (epoch, wanted) = (target.epoch().as_u32(), target.of("1").epoch().as_u32());
    write!(out, " at {epoch}, wanted at {wanted}")
}

/// The target of the next epoch, for the words' members and topics; one without owners where two members have one id.
fn renewed(alloc: Global, target: &Target, words: &str) -> Result<Target, AllocError> {
    let epoch = target.epoch().next().unwrap_or(EpochNumber::zero());
    let group = Group::of(alloc, words)?;
    match group.subs(alloc)? {
        Some(subs) => target.renew(alloc, &subs, &group.view, epoch),
        None => Ok(Target::new(alloc, epoch)),
    }
}

/// The last of the steps.
fn last_step(steps: &str) -> &str {
    match steps.rsplit_once("; ") {
        Some((_, last)) => last,
        None => steps,
    }
}

/// Who owns which partition.
trait Owners {
    fn owns(&self, member: &str, partition: &Partition) -> bool;
}

impl Owners for Spread {
    fn owns(&self, member: &str, partition: &Partition) -> bool {
        self.share_of(member)
            .is_some_and(|set| set.contains(partition))
    }
}

impl Owners for Target {
    fn owns(&self, member: &str, partition: &Partition) -> bool {
        self.of(member).contains(partition)
    }
}

/// Appends the owner of each partition of the topics that the words say.
fn put_owners<O: Owners>(owners: &O, words: &str, out: &mut String) -> Result<(), AllocError> {
    for Topic { id, count, .. } in words.split(' ').filter_map(topic_of) {
        for index in 0..count {
            out.push_str(owner_of(owners, &Partition { topic: id, index }))?;
        }
    }
    Ok(())
}

fn owner_of<O: Owners>(owners: &O, partition: &Partition) -> &'static str {
    for id in IDS {
        if owners.owns(id, partition) {
            return id;
        }
    }
    "-"
}
