//! Threads that call shards at the same time. Whatever their order, each shard's entries, run one after the other through a
//! node of their own, give the answers that the callers had.
ghost use Rattle.std.specs.Prelude.{◌≡◌};

use crate::events::{ask, beat_body, body_of, call, put_answer};
use coord_node::{Answered, Node};
use coord_shards::{AlwaysOpen, Answer, Event, JournalEntry, Seat, Shard, Shards, Stamp};
use kip_msgs::{Api, Reply, read_reply};
use std::alloc::{AllocError, Global};
use std::collections::hash_map::RandomState;
use std::marker::Brand;
use std::sync::Wait;
use std::sync::ledger::{Blank, Ledger};
use std::test::Fail;
use std::thread;
use std::thread::Threads;

/// The groups that calls go to in turn. Of two shards `a` is on shard 1 and `b` on shard 0, since they are the bytes 97 and 98.
/// Of four shards they are on 1, 2, 3 and 0.
const GROUPS: [&str; 4] = ["a", "b", "c", "d"];

/// How many joins a seat sends, and to how many of the groups.
#[derive(Clone, Copy)]
struct Joins {
    count: u64,
    groups: u64,
}

/// Two threads with a seat each send 100 joins, in turn to both groups. Then the first seat sends a heartbeat of the first
/// member that the second made, at its epoch. It goes to group `a`, so shard 1 has the one entry more.
const HISTORY: &str =
    "beat 0 calls 101 100 shard 0: 100 of 50 50 b:100 shard 1: 101 of 51 50 a:100 closed";

#[test]
fn two_callers_make_one_history(rt: HostRuntime) -> Result<(), Fail> {
    let (alloc, hasher) = (rt.alloc(), RandomState::new(&rt)?);
    let told = history(&rt, alloc, hasher).or_else(|_| history(&rt, alloc, hasher))?;
    assert_eq!(rt; told.as_str(), HISTORY);
    Ok(())
}

fn history<R: Threads + Wait + Sync>(
    rt: &R,
    alloc: Global,
    hasher: RandomState,
) -> Result<String, AllocError> {
    two_callers::<Brand, Brand, R>(rt, alloc, hasher, Blank::new(4), Blank::new(258))
}

/// What two callers and the shards that they called come to.
fn two_callers<A: Ledger + Sync, C: Ledger + Sync, R: Threads + Wait + Sync>(
    rt: &R,
    alloc: Global,
    hasher: RandomState,
    entries: Blank,
    calls: Blank,
) -> Result<String, AllocError>
    requires entries { (entries.name ≡ A.name) × (entries.parts ≡ A.parts) × (entries.parts ≡ 4) }
    requires calls { (calls.name ≡ C.name) × (calls.parts ≡ C.parts) × (calls.parts ≡ 258) }
{
    let made = Shards::<A, C, AlwaysOpen>::new(
        alloc, 2, 0, 65_536, hasher, AlwaysOpen, entries, calls,
    );
    match made {
        Ok(shards) => told_of_two(rt, alloc, hasher, shards),
        Err(_) => Err(AllocError),
    }
}

fn told_of_two<A: Ledger + Sync, C: Ledger + Sync, R: Threads + Wait + Sync>(
    rt: &R,
    alloc: Global,
    hasher: RandomState,
    shards: Shards<A, C, AlwaysOpen>,
) -> Result<String, AllocError> {
    match called_by_two(rt, alloc, &shards) {
        Ok(called) => told_behind(alloc, hasher, shards, called),
        Err(error) => Err(error),
    }
}

/// Two seats from which was called, the answers that they had, and what is told of both.
#[derive(Drop)]
struct Called<C: Ledger> {
    seats: Vec<Seat<C>>,
    answers: Answers,
    told: String,
}

fn called_by_two<A: Ledger + Sync, C: Ledger + Sync, R: Threads + Wait + Sync>(
    rt: &R,
    alloc: Global,
    shards: &Shards<A, C, AlwaysOpen>,
) -> Result<Called<C>, AllocError> {
    let mut seats = seats_of(rt, alloc, shards, 2)?;
    let [first, second] = seats.as_mut_slice() else {
        return Err(AllocError);
    };
    let answers = call_by_two(rt, alloc, shards, first, second)?;
    let told = calls_told(alloc, &seats, &answers)?;
    Ok(Called {
        seats,
        answers,
        told,
    })
}

/// Closes the shards behind the calls, and adds what they come to.
fn told_behind<A: Ledger, C: Ledger>(
    alloc: Global,
    hasher: RandomState,
    shards: Shards<A, C, AlwaysOpen>,
    called: Called<C>,
) -> Result<String, AllocError> {
    let Called {
        seats,
        answers,
        told,
    } = called;
    match shards.close(alloc, seats) {
        Ok(closed) => with_shards(alloc, hasher, &closed, &answers, told),
        Err(_) => Err(AllocError),
    }
}

/// The code of the heartbeat's answer, and how many calls each seat made.
fn calls_told<C: Ledger>(
    alloc: Global,
    seats: &[Seat<C>],
    answers: &Answers,
) -> Result<String, AllocError> {
    let mut out = String::new(alloc);
    put_last(alloc, answers, &mut out)?;
    put_calls(seats, &mut out)?;
    Ok(out)
}

/// Adds what the shards come to, and what is wrong with their entries.
fn with_shards(
    alloc: Global,
    hasher: RandomState,
    shards: &[Shard],
    answers: &Answers,
    told: String,
) -> Result<String, AllocError> {
    let mut told = told;
    for shard in shards {
        put_shard(shard, &mut told)?;
        put_history(alloc, hasher, shard, answers, &mut told)?;
    }
    told.push_str(" closed")?;
    Ok(told)
}

/// Gives out `count` seats.
fn seats_of<A: Ledger, C: Ledger, R: Wait>(
    rt: &R,
    alloc: Global,
    shards: &Shards<A, C, AlwaysOpen>,
    count: usize,
) -> Result<Vec<Seat<C>>, AllocError> {
    let mut seats = Vec::with_capacity(alloc, count)?;
    for _ in 0..count {
        seats.push(shards.seat(rt, alloc).map_err(|_| AllocError)?)?;
    }
    Ok(seats)
}

/// The answers that each of two callers had, in the order of its calls.
#[derive(Drop)]
struct Answers {
    first: Vec<Answer>,
    second: Vec<Answer>,
}

/// Sends 100 joins from each of two seats at the same time, and then the heartbeat from the first.
fn call_by_two<A: Ledger + Sync, C: Ledger + Sync, R: Threads + Wait + Sync>(
    rt: &R,
    alloc: Global,
    shards: &Shards<A, C, AlwaysOpen>,
    one: &mut Seat<C>,
    other: &mut Seat<C>,
) -> Result<Answers, AllocError> {
    let joins = Joins {
        count: 100,
        groups: 2,
    };
    let (first, second) = thread::join(
        rt,
        || join_all(rt, alloc, shards, one, joins),
        || join_all(rt, alloc, shards, other, joins),
    );
    match (first, second) {
        (Ok(first), Ok(second)) => beat_behind(rt, alloc, shards, one, Answers { first, second }),
        _ => Err(AllocError),
    }
}

/// Sends the heartbeat behind the joins, from the first of the seats.
fn beat_behind<A: Ledger, C: Ledger, R: Wait>(
    rt: &R,
    alloc: Global,
    shards: &Shards<A, C, AlwaysOpen>,
    seat: &mut Seat<C>,
    answers: Answers,
) -> Result<Answers, AllocError> {
    let mut answers = answers;
    let stamp = Stamp {
        connection: 2,
        frame: 1,
    };
    let body = beat(alloc, &answers.second)?;
    let answer = ask(rt, alloc, shards, seat, &body, stamp);
    answers.first.push(answer)?;
    Ok(answers)
}

/// Sends joins from a seat, in turn to the groups, and gives their answers.
fn join_all<A: Ledger, C: Ledger, R: Wait>(
    rt: &R,
    alloc: Global,
    shards: &Shards<A, C, AlwaysOpen>,
    seat: &mut Seat<C>,
    joins: Joins,
) -> Result<Vec<Answer>, AllocError> {
    let mut answers = Vec::new(alloc);
    for number in 1..=joins.count {
        let group = group_of(number, joins);
        answers.push(call_twice(rt, alloc, shards, seat, group, number)?)?;
    }
    Ok(answers)
}

/// The group that the join with a number goes to.
fn group_of(number: u64, joins: Joins) -> &'static str {
    let place = number.saturating_sub(1).checked_rem(joins.groups);
    let place = usize::try_from(place.unwrap_or(0)).unwrap_or(0);
    GROUPS.get(place).copied().unwrap_or("")
}

/// Calls for a join, and once more if it is refused.
fn call_twice<A: Ledger, C: Ledger, R: Wait>(
    rt: &R,
    alloc: Global,
    shards: &Shards<A, C, AlwaysOpen>,
    seat: &mut Seat<C>,
    group: &str,
    number: u64,
) -> Result<Answer, AllocError> {
    let stamp = Stamp {
        connection: seat.number() as u64,
        frame: number,
    };
    let body = body_of(alloc, group).or_else(|_| body_of(alloc, group))?;
    let answer = call(rt, alloc, shards, seat, body, stamp);
    if answer.is_refused() {
        return Ok(call(rt, alloc, shards, seat, body_of(alloc, group)?, stamp));
    }
    Ok(answer)
}

/// The body of a heartbeat of the member that the first of these answers made, in group `a`.
fn beat(alloc: Global, answers: &[Answer]) -> Result<Vec<u8>, AllocError> {
    match answers.first() {
        Some(Answer::Replied(frame)) => beat_of(alloc, frame.as_slice()),
        _ => Ok(Vec::new(alloc)),
    }
}

/// The heartbeat of the member that a reply made.
fn beat_of(alloc: Global, frame: &[u8]) -> Result<Vec<u8>, AllocError> {
    match read_reply(alloc, Api::Heartbeat, frame.get(4..).unwrap_or(&[])) {
        Ok(Reply::Heartbeat(_, reply)) => {
            let id = reply.member_id.unwrap_or("");
            beat_body(alloc, GROUPS[0], id, reply.member_epoch)
        }
        _ => Err(AllocError),
    }
}

/// Puts the code of the last answer of the first caller, which is that to the heartbeat.
fn put_last(alloc: Global, answers: &Answers, out: &mut String) -> Result<(), AllocError> {
    let mut told = String::new(alloc);
    if let Some(answer) = answers.first.last() {
        put_answer(alloc, answer, &mut told)?;
    }
    let (code, _) = told.split_once('@').unwrap_or((told.as_str(), ""));
    write!(out, "beat {code}")
}

fn put_calls<C: Ledger>(seats: &[Seat<C>], out: &mut String) -> Result<(), AllocError> {
    out.push_str(" calls")?;
    for seat in seats {
        write!(out, " {}", seat.calls())?;
    }
    Ok(())
}

/// Puts how many entries a shard has, how many of them each seat made, and the members of its groups.
fn put_shard(shard: &Shard, out: &mut String) -> Result<(), AllocError> {
    let (number, kept) = (shard.number(), shard.entries().len());
    let (first, second) = (shard.count(0), shard.count(1));
    write!(out, " shard {number}: {kept} of {first} {second}")?;
    for group in GROUPS {
        if let Some(there) = shard.present().group(group) {
            write!(out, " {group}:{}", there.members())?;
        }
    }
    Ok(())
}

/// Puts what is wrong with the entries of a shard: that a seat's aren't in the order of its calls, or that a fresh node answers
/// one of them otherwise than the caller was answered.
fn put_history(
    alloc: Global,
    hasher: RandomState,
    shard: &Shard,
    answers: &Answers,
    out: &mut String,
) -> Result<(), AllocError> {
    let mut node = Node::new(alloc, 0, hasher);
    let mut last = [0; 2];
    for entry in shard.entries() {
        let call = call_of(entry);
        if entry.seat > 1 || call <= last[entry.seat] {
            out.push_str(" out of order")?;
            return Ok(());
        }
        last[entry.seat] = call;
        if !is_answered(
            alloc,
            &mut node,
            entry,
            answer_to(answers, entry.seat, call),
        )? {
            write!(out, " other answer to {}-{call}", entry.seat)?;
        }
    }
    Ok(())
}

/// The number of the call that made an entry, among those of its seat: the heartbeat comes behind 100 joins.
fn call_of(entry: &JournalEntry) -> usize {
    match &entry.event {
        Event::Frame { stamp, .. } if stamp.connection < 2 => stamp.frame as usize,
        Event::Frame { .. } => 101,
        _ => 0,
    }
}

/// The answer that a caller had to its call with a number.
fn answer_to(answers: &Answers, seat: usize, call: usize) -> Option<&Answer> {
    let had = if seat == 0 {
        &answers.first
    } else {
        &answers.second
    };
    had.get(call.saturating_sub(1))
}

/// Whether a node answers an entry as the caller was answered.
fn is_answered(
    alloc: Global,
    node: &mut Node,
    entry: &JournalEntry,
    had: Option<&Answer>,
) -> Result<bool, AllocError> {
    let Event::Frame {
        body,
        stamp,
        moment,
    } = &entry.event
    else {
        return Ok(false);
    };
    let mut out = Vec::new(alloc);
    match node.answer(body.as_slice(), *stamp, *moment, &mut out)? {
        Answered::Replied => Ok(is_reply(had, out.as_slice())),
        Answered::Closes => Ok(false),
    }
}

/// Whether the caller had this reply.
fn is_reply(had: Option<&Answer>, reply: &[u8]) -> bool {
    match had {
        Some(Answer::Replied(frame)) => frame.as_slice() == reply,
        _ => false,
    }
}

/// Four threads with a seat each send 250 joins, in turn to four groups on four shards that keep no entries.
const SUMS: &str = " calls 250 250 250 250 counts 250 250 250 250 kept 0 closed 4";

#[test]
fn four_callers_are_all_counted(rt: HostRuntime) -> Result<(), Fail> {
    let (alloc, hasher) = (rt.alloc(), RandomState::new(&rt)?);
    let told = sums(&rt, alloc, hasher).or_else(|_| sums(&rt, alloc, hasher))?;
    assert_eq!(rt; told.as_str(), SUMS);
    Ok(())
}

fn sums<R: Threads + Wait + Sync>(
    rt: &R,
    alloc: Global,
    hasher: RandomState,
) -> Result<String, AllocError> {
    four_callers::<Brand, Brand, R>(rt, alloc, hasher, Blank::new(8), Blank::new(260))
}

/// What four callers and the shards that they called come to.
fn four_callers<A: Ledger + Sync, C: Ledger + Sync, R: Threads + Wait + Sync>(
    rt: &R,
    alloc: Global,
    hasher: RandomState,
    entries: Blank,
    calls: Blank,
) -> Result<String, AllocError>
    requires entries { (entries.name ≡ A.name) × (entries.parts ≡ A.parts) × (entries.parts ≡ 8) }
    requires calls { (calls.name ≡ C.name) × (calls.parts ≡ C.parts) × (calls.parts ≡ 260) }
{
    let made = Shards::<A, C, AlwaysOpen>::new(alloc, 4, 0, 0, hasher, AlwaysOpen, entries, calls);
    match made {
        Ok(shards) => told_of_four(rt, alloc, shards),
        Err(_) => Err(AllocError),
    }
}

fn told_of_four<A: Ledger + Sync, C: Ledger + Sync, R: Threads + Wait + Sync>(
    rt: &R,
    alloc: Global,
    shards: Shards<A, C, AlwaysOpen>,
) -> Result<String, AllocError> {
    match called_by_four(rt, alloc, &shards) {
        Ok((seats, told)) => sums_behind(alloc, shards, seats, told),
        Err(error) => Err(error),
    }
}

/// Sends joins from four seats at the same time, and gives the seats and how many calls each made.
fn called_by_four<A: Ledger + Sync, C: Ledger + Sync, R: Threads + Wait + Sync>(
    rt: &R,
    alloc: Global,
    shards: &Shards<A, C, AlwaysOpen>,
) -> Result<(Vec<Seat<C>>, String), AllocError> {
    let mut seats = seats_of(rt, alloc, shards, 4)?;
    let joins = Joins {
        count: 250,
        groups: 4,
    };
    thread::for_each_mut(
        rt,
        seats.as_mut_slice(),
        4,
        &|_, seat| send_all(rt, alloc, shards, seat, joins),
    );
    let mut told = String::new(alloc);
    put_calls(&seats, &mut told)?;
    Ok((seats, told))
}

/// Closes the shards behind the calls, and adds their sums.
fn sums_behind<A: Ledger, C: Ledger>(
    alloc: Global,
    shards: Shards<A, C, AlwaysOpen>,
    seats: Vec<Seat<C>>,
    told: String,
) -> Result<String, AllocError> {
    match shards.close(alloc, seats) {
        Ok(closed) => with_sums(&closed, told),
        Err(_) => Err(AllocError),
    }
}

/// Sends joins from a seat, in turn to the groups.
fn send_all<A: Ledger, C: Ledger, R: Wait>(
    rt: &R,
    alloc: Global,
    shards: &Shards<A, C, AlwaysOpen>,
    seat: &mut Seat<C>,
    joins: Joins,
) {
    for number in 1..=joins.count {
        let _ = call_twice(rt, alloc, shards, seat, group_of(number, joins), number);
    }
}

/// Adds how many entries of all shards each seat made, and how many are kept.
fn with_sums(shards: &[Shard], told: String) -> Result<String, AllocError> {
    let mut told = told;
    told.push_str(" counts")?;
    for seat in 0..4 {
        let count = shards
            .iter()
            .fold(0u64, |sum, shard| sum.saturating_add(shard.count(seat)));
        write!(told, " {count}")?;
    }
    let kept = shards.iter().any(|shard| !shard.entries().is_empty());
    write!(told, " kept {} closed {}", u8::from(kept), shards.len())?;
    Ok(told)
}
