//! Shards, their seats and their journals, with answers worked out by hand from KIP-848 and from what the crate says of
//! homes, caps and seats.
ghost use Rattle.std.specs.Prelude.{◌≡◌, ◌+◌, ◌*◌, ◌≤◌};

use crate::events::{ask, body_of, event_of, put_answer};
use coord_shards::{
    AlwaysOpen, Answer, Event, Moment, Node, NodeReader, Seat, Shard, ShardFault, Shards, Stamp,
    Unclosed,
};
use std::alloc::{AllocError, Global};
use std::collections::hash_map::RandomState;
use std::marker::Brand;
use std::sync::Wait;
use std::sync::ledger::{Blank, Ledger};
use std::test::Fail;
use test_support::tables::{cut, number, part_words};

/// A question begins with the number of shards and the most entries that a journal keeps. Its steps are parted by `; `, and
/// step N has the stamp (1, N) and comes at 0 ms.
///
/// - `seats N`: N seats are given out, numbered from 0.
/// - `SEAT join GROUP`: a join of topic `t` is sent from the seat.
/// - `SEAT bad`: a frame that can't be read is sent from the seat.
/// - `SEAT ask GROUP`, `SEAT ask`: the same two, as the bodies of frames that are no events.
/// - `look GROUP`: the node of the group's shard is looked at.
/// - `SEAT tick SHARD MS`, `SEAT image SHARD COUNT`: the time of a shard goes on to MS ms, and a topic `t` of COUNT partitions comes to
///   it.
///
/// The answer has for each event `CODE@EPOCH:SHOWN` of a reply, with the number of partitions that it shows, `joined`, `closes`,
/// `done:N` or `refused`; for each look the shard's number, and the groups of its node with their members; and the number of a fault
/// if no shards or no seat can be had. After `|` stands what each seat tells from which something was called: its number, its calls
/// and its events that were kept. Then come the faults of closing without the last seat, if there is one, and with all seats; and at last what each shard tells to which something came: its number, its
/// entries that were kept, `SEAT*COUNT` for each seat, the members of the groups `a`, `b` and `c` that are there, and what it answers
/// to one more tick, from seat 0 and at 90 s, with `*` and the entries that this seat made by then.
const SHARDS: &str = "
0 0; seats 1 = fault:1
65 0; seats 1 = fault:1
1 65537; seats 1 = fault:1
64 65536; seats 2 = | short:2 closed:64
3 0 = | closed:3
1 0; seats 256; 0 join a; 255 join a = 0@1:0 0@2:0 | seat:0 1 0 seat:255 1 0 short:2 closed:1 shard:0 0 0*1 255*1 a:2 done:2*2
1 0; seats 257 = fault:2 | short:2 closed:1
1 2; seats 1; 0 join a; 0 join a; 0 join a = 0@1:0 0@2:0 refused | seat:0 2 2 short:2 closed:1 shard:0 2 0*2 a:2 refused*2
1 0; seats 1; 0 join a; 0 join a; 0 join a = 0@1:0 0@2:0 0@3:0 | seat:0 3 0 short:2 closed:1 shard:0 0 0*3 a:3 done:3*4
2 2; seats 2; 0 join a; 1 join b; 1 join a; 1 join a; 0 join b = 0@1:0 0@1:0 0@2:0 refused 0@2:0 | seat:0 2 2 seat:1 2 2 short:2 closed:2 shard:0 2 0*1 1*1 b:2 refused*1 shard:1 2 0*1 1*1 a:2 refused*1
2 9; seats 1; 0 join b; 0 tick 7 44999; 0 tick 7 45000 = 0@1:0 done:0 done:1 | seat:0 3 3 short:2 closed:2 shard:0 3 0*3 b:0 done:0*4
2 9; seats 1; 0 join a; 0 tick 0 45000; 0 tick 1 45000 = 0@1:0 done:0 done:1 | seat:0 3 3 short:2 closed:2 shard:0 1 0*1 done:0*2 shard:1 2 0*2 a:0 done:0*3
2 9; seats 1; 0 image 2 3; 0 join b; 0 join a = done:0 0@1:3 0@1:0 | seat:0 3 3 short:2 closed:2 shard:0 2 0*2 b:1 done:1*3 shard:1 1 0*1 a:1 done:1*2
3 0; seats 2; 1 image 1 5; 1 join c; 0 join a = done:0 0@1:0 0@1:5 | seat:0 1 0 seat:1 2 0 short:2 closed:3 shard:0 0 1*1 c:1 done:1*1 shard:1 0 0*1 1*1 a:1 done:1*2
2 9; look a; seats 1; 0 join a; look a; look b = looks:1 0@1:0 looks:1 a:1 looks:0 | seat:0 1 1 short:2 closed:2 shard:1 1 0*1 a:1 done:1*2
1 0; seats 1; 0 join b; 0 join a; 0 join a; look c = 0@1:0 0@1:0 0@2:0 looks:0 b:1 a:2 | seat:0 3 0 short:2 closed:1 shard:0 0 0*3 a:2 b:1 done:3*4
2 9; seats 1; 0 bad = closes | seat:0 1 1 short:2 closed:2 shard:0 1 0*1 done:0*2
1 0; seats 1; 0 ask a; 0 join a; 0 ask a = 0@1:0 0@2:0 0@3:0 | seat:0 3 0 short:2 closed:1 shard:0 0 0*3 a:3 done:3*4
2 0; seats 2; 1 ask b; 0 ask a; 0 ask = 0@1:0 0@1:0 closes | seat:0 2 0 seat:1 1 0 short:2 closed:2 shard:0 0 0*1 1*1 b:1 done:1*2 shard:1 0 0*1 a:1 done:1*2
2 9; seats 2; 1 ask b; 0 ask a; 0 ask = 0@1:0 0@1:0 closes | seat:0 2 2 seat:1 1 1 short:2 closed:2 shard:0 2 0*1 1*1 b:1 done:1*2 shard:1 1 0*1 a:1 done:1*2
1 2; seats 1; 0 ask a; 0 join a; 0 ask a = 0@1:0 0@2:0 refused | seat:0 2 2 short:2 closed:1 shard:0 2 0*2 a:2 refused*2
";

/// The worked join, whose reply is told by its bytes, at a shard that keeps no entries and at one that keeps two. So few growths are
/// made here that each can be refused.
const CALLS: &str = "
1 0; seats 1; 0 image 0 2; 0 join g = done:0 joined | seat:0 2 0 short:2 closed:1 shard:0 0 0*2 done:1*3
1 2; seats 1; 0 image 0 2; 0 join g = done:0 joined | seat:0 2 2 short:2 closed:1 shard:0 2 0*2 refused*2
";

/// How many shards there are, how many entries the journal of each keeps, and what comes to them.
#[derive(Clone, Copy)]
struct Question<'a> {
    shards: usize,
    cap: usize,
    steps: &'a str,
}

#[test]
fn shards_answer_and_close(rt: HostRuntime) -> Result<(), Fail> {
    let wrong = wrong_rows(&rt, rt.alloc(), RandomState::new(&rt)?, SHARDS)?;
    assert_eq!(rt; wrong.as_str(), "");
    Ok(())
}

#[test]
fn calls_are_made_again(rt: HostRuntime) -> Result<(), Fail> {
    let wrong = wrong_rows(&rt, rt.alloc(), RandomState::new(&rt)?, CALLS)?;
    assert_eq!(rt; wrong.as_str(), "");
    Ok(())
}

/// The rows of a table whose answer is another one, each with that answer.
fn wrong_rows<R: Wait>(
    rt: &R,
    alloc: Global,
    hasher: RandomState,
    table: &str,
) -> Result<String, AllocError> {
    let mut wrong = String::new(alloc);
    for row in table.lines().filter(|row| !row.is_empty()) {
        look(rt, alloc, hasher, row, &mut wrong)?;
    }
    Ok(wrong)
}

/// Adds a row to the wrong ones where its answer is another one.
fn look<R: Wait>(
    rt: &R,
    alloc: Global,
    hasher: RandomState,
    row: &str,
    wrong: &mut String,
) -> Result<(), AllocError> {
    let (question, wanted) = row.split_once(" = ").unwrap_or((row, ""));
    let first = answer(rt, alloc, hasher, question);
    let answer = first.or_else(|_| answer(rt, alloc, hasher, question))?;
    if answer.as_str() == wanted {
        return Ok(());
    }
    writeln!(wrong, "{question} = {answer}")
}

/// What becomes of a question.
fn answer<R: Wait>(
    rt: &R,
    alloc: Global,
    hasher: RandomState,
    words: &str,
) -> Result<String, AllocError> {
    let (size, steps) = words.split_once("; ").unwrap_or((words, ""));
    let (shards, cap) = cut(size);
    let shards: usize = number(shards);
    let question = Question {
        // No row asks for more.
        shards: shards.min(65),
        cap: number(cap),
        steps,
    };
    let shards = question.shards as u64;
    let (entries, calls) = (Blank::new(2 * shards), Blank::new(256 + shards));
    told::<Brand, Brand, R>(rt, alloc, hasher, question, entries, calls)
}

/// Makes shards, sends them what the steps say, and closes them.
fn told<A: Ledger, C: Ledger, R: Wait>(
    rt: &R,
    alloc: Global,
    hasher: RandomState,
    question: Question<'_>,
    entries: Blank,
    calls: Blank,
) -> Result<String, AllocError>
    requires entries { (entries.name ≡ A.name) × (entries.parts ≡ A.parts) × (entries.parts ≡ 2 * question.shards) }
    requires calls { (calls.name ≡ C.name) × (calls.parts ≡ C.parts) × (calls.parts ≡ 256 + question.shards) }
{
    let Question { shards, cap, steps } = question;
    let made = Shards::<A, C, AlwaysOpen>::new(
        alloc, shards, 0, cap, hasher, AlwaysOpen, entries, calls,
    );
    let mut out = String::new(alloc);
    match made {
        Ok(shards) => send_and_close(rt, alloc, shards, steps, &mut out)?,
        Err(fault) => put_fault("fault", fault, &mut out)?,
    }
    Ok(out)
}

fn send_and_close<A: Ledger, C: Ledger, R: Wait>(
    rt: &R,
    alloc: Global,
    shards: Shards<A, C, AlwaysOpen>,
    steps: &str,
    out: &mut String,
) -> Result<(), AllocError> {
    match send_all(rt, alloc, &shards, steps, out) {
        Ok(seats) => close(alloc, shards, seats, out),
        Err(error) => Err(error),
    }
}

/// Puts a fault by its number. Want of memory is to be met by asking again.
fn put_fault(name: &str, fault: ShardFault, out: &mut String) -> Result<(), AllocError> {
    match fault {
        ShardFault::NoMemory => Err(AllocError),
        _ => write!(out, "{name}:{}", fault.number()),
    }
}

/// Sends what the steps say, puts what each seat tells, and gives the seats that were given out.
fn send_all<A: Ledger, C: Ledger, R: Wait>(
    rt: &R,
    alloc: Global,
    shards: &Shards<A, C, AlwaysOpen>,
    steps: &str,
    out: &mut String,
) -> Result<Vec<Seat<C>>, AllocError> {
    let mut seats = Vec::new(alloc);
    let mut frame = 0u64;
    for step in steps.split("; ").filter(|step| !step.is_empty()) {
        frame = frame.saturating_add(1);
        take_step(
            rt,
            alloc,
            shards,
            Step { frame, words: step },
            &mut seats,
            out,
        )?;
    }
    put_seats(&seats, out)?;
    Ok(seats)
}

fn take_step<A: Ledger, C: Ledger, R: Wait>(
    rt: &R,
    alloc: Global,
    shards: &Shards<A, C, AlwaysOpen>,
    step: Step<'_>,
    seats: &mut Vec<Seat<C>>,
    out: &mut String,
) -> Result<(), AllocError> {
    let (seat, words) = cut(step.words);
    if seat == "seats" {
        return sit(rt, alloc, shards, number(words), seats, out);
    }
    if seat == "look" {
        return look_into(rt, alloc, shards, words, out);
    }
    let Some(seat) = seats.get_mut(number::<usize>(seat)) else {
        return Ok(());
    };
    part_words(out)?;
    let step = Step {
        frame: step.frame,
        words,
    };
    let answer = call(rt, alloc, shards, seat, step, out)?;
    put_answer(alloc, &answer, out)
}

/// Tells the number of a group's shard, and what its node has.
fn look_into<A: Ledger, C: Ledger, R: Wait>(
    rt: &R,
    alloc: Global,
    shards: &Shards<A, C, AlwaysOpen>,
    group: &str,
    out: &mut String,
) -> Result<(), AllocError> {
    part_words(out)?;
    let number = shards.shard_of(group);
    let mut reader = GroupReader {
        groups: String::new(alloc),
    };
    shards.read(rt, number, &mut reader)?;
    write!(out, "looks:{number}{}", reader.groups)
}

/// What a node has: its groups with their members.
#[derive(Drop)]
struct GroupReader {
    groups: String,
}

impl NodeReader for GroupReader {
    fn read(&mut self, node: &Node) -> Result<(), AllocError> {
        for place in 0..node.group_count() {
            if let Some(it) = node.group_at(place) {
                write!(self.groups, " {}:{}", it.name, it.group.members())?;
            }
        }
        Ok(())
    }
}

/// Gives out `count` seats. For each that isn't to be had the fault is written.
fn sit<A: Ledger, C: Ledger, R: Wait>(
    rt: &R,
    alloc: Global,
    shards: &Shards<A, C, AlwaysOpen>,
    count: usize,
    seats: &mut Vec<Seat<C>>,
    out: &mut String,
) -> Result<(), AllocError> {
    for _ in 0..count {
        match shards.seat(rt, alloc) {
            Ok(seat) => seats.push(seat)?,
            Err(fault) => put_fault("fault", fault, out)?,
        }
    }
    Ok(())
}

/// What comes from a seat, and the number of its frame.
#[derive(Clone, Copy)]
struct Step<'a> {
    frame: u64,
    words: &'a str,
}

/// The answer to a step. Where it is refused the seat may not have changed, and the event is sent once more.
fn call<A: Ledger, C: Ledger, R: Wait>(
    rt: &R,
    alloc: Global,
    shards: &Shards<A, C, AlwaysOpen>,
    seat: &mut Seat<C>,
    step: Step<'_>,
    out: &mut String,
) -> Result<Answer, AllocError> {
    let before = (seat.calls(), seat.sent().len());
    let answer = send(rt, alloc, shards, seat, step)?;
    if !answer.is_refused() {
        return Ok(answer);
    }
    if before != (seat.calls(), seat.sent().len()) {
        out.push_str("a refused call has changed the seat ")?;
    }
    send(rt, alloc, shards, seat, step)
}

/// Sends what a step says, as an event or as the body of a frame.
fn send<A: Ledger, C: Ledger, R: Wait>(
    rt: &R,
    alloc: Global,
    shards: &Shards<A, C, AlwaysOpen>,
    seat: &mut Seat<C>,
    step: Step<'_>,
) -> Result<Answer, AllocError> {
    let (verb, group) = cut(step.words);
    if verb != "ask" {
        let event = event_of(alloc, step.frame, step.words)?;
        return Ok(shards.call(rt, alloc, seat, event));
    }
    let body = body_of(alloc, group)?;
    let stamp = Stamp {
        connection: 1,
        frame: step.frame,
    };
    Ok(ask(rt, alloc, shards, seat, &body, stamp))
}

/// Closes the shards without the last seat, and then with all, and tells what they come to.
fn close<A: Ledger, C: Ledger>(
    alloc: Global,
    shards: Shards<A, C, AlwaysOpen>,
    seats: Vec<Seat<C>>,
    out: &mut String,
) -> Result<(), AllocError> {
    let mut seats = seats;
    let Some(last) = seats.pop() else {
        return close_all(alloc, shards, seats, out);
    };
    match shards.close(alloc, seats) {
        Ok(closed) => write!(out, " closed without a seat:{}", closed.len()),
        Err(kept) => close_with(alloc, kept, last, out),
    }
}

/// Tells why the shards weren't closed, and closes them with one seat more.
fn close_with<A: Ledger, C: Ledger>(
    alloc: Global,
    kept: Unclosed<A, C, AlwaysOpen>,
    last: Seat<C>,
    out: &mut String,
) -> Result<(), AllocError> {
    let Unclosed {
        shards,
        mut seats,
        fault,
    } = kept;
    match put_fault(" short", fault, out) {
        Ok(()) => match seats.push(last) {
            Ok(()) => close_all(alloc, shards, seats, out),
            Err(_) => Err(AllocError),
        },
        Err(error) => Err(error),
    }
}

/// Closes the shards. Where that fails all is handed back, and it is tried once more.
fn close_all<A: Ledger, C: Ledger>(
    alloc: Global,
    shards: Shards<A, C, AlwaysOpen>,
    seats: Vec<Seat<C>>,
    out: &mut String,
) -> Result<(), AllocError> {
    match shards.close(alloc, seats) {
        Ok(closed) => put_shards(alloc, closed, out),
        Err(kept) => match kept.shards.close(alloc, kept.seats) {
            Ok(closed) => put_shards(alloc, closed, out),
            Err(kept) => put_fault(" fault", kept.fault, out),
        },
    }
}

/// Puts what each seat tells from which something was called.
fn put_seats<C: Ledger>(seats: &[Seat<C>], out: &mut String) -> Result<(), AllocError> {
    part_words(out)?;
    out.push('|')?;
    for seat in seats.iter().filter(|seat| seat.calls() > 0) {
        let (number, calls, sent) = (seat.number(), seat.calls(), seat.sent().len());
        write!(out, " seat:{number} {calls} {sent}")?;
    }
    Ok(())
}

/// Puts how many shards there are, and what each tells to which something came.
fn put_shards(alloc: Global, shards: Vec<Shard>, out: &mut String) -> Result<(), AllocError> {
    write!(out, " closed:{}", shards.len())?;
    for mut shard in shards {
        if (0..256).any(|seat| shard.count(seat) > 0) {
            put_shard(&shard, out)?;
            put_step(alloc, &mut shard, out)?;
        }
    }
    Ok(())
}

/// Puts what a closed shard answers to one more tick, by which every session has ended, and how many entries of seat 0 it has then.
fn put_step(alloc: Global, shard: &mut Shard, out: &mut String) -> Result<(), AllocError> {
    let mut answer = tick(shard);
    if answer.is_refused() {
        // Memory may have been short.
        answer = tick(shard);
    }
    out.push(' ')?;
    put_answer(alloc, &answer, out)?;
    write!(out, "*{}", shard.count(0))
}

fn put_shard(shard: &Shard, out: &mut String) -> Result<(), AllocError> {
    write!(out, " shard:{} {}", shard.number(), shard.entries().len())?;
    for seat in 0..256 {
        let count = shard.count(seat);
        if count > 0 {
            write!(out, " {seat}*{count}")?;
        }
    }
    for group in ["a", "b", "c"] {
        if let Some(there) = shard.present().group(group) {
            write!(out, " {group}:{}", there.members())?;
        }
    }
    Ok(())
}

/// One more tick of a shard from seat 0, by which every session has ended.
fn tick(shard: &mut Shard) -> Answer {
    let event = Event::Tick {
        shard: shard.number(),
        moment: Moment::of_millis(90_000),
    };
    shard.step(0, event)
}
