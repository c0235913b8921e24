//! Requests of members over readers and writers in memory, with replies worked out by hand from the Kafka protocol guide and
//! KIP-848.
ghost use Rattle.std.specs.Prelude.{IfOk};
ghost use Rattle.link_futures.specs.Beats.{IsRequestOf};
ghost use Rattle.member_core.specs.Views.{settings_value, HasShortTexts};

use crate::streams::{Frames, drain, feed, numbered_rows, output_within, put_words, task_of};
use futures::test::MockTask;
use link_futures::{AfterBeat, Beat, Counted, Drain, End, Feed};
use member_core::{Idle, Kind, Member, Next, Outside, Sent, Settings, Stage, Steady};
use std::alloc::{AllocError, AllocGlobal, Global};
use std::random::RandomSource;
use std::test::Fail;
use test_support::tables::{Answers, cut, part_words, wrong_rows};

/// What the member sends: a join of group `g` that names topic `t`, and a heartbeat of member id `m` at epoch 1 that says nothing else.
const REQUESTS: &[(&str, &str)] = &[
    (
        "join",
        "0044 0000 00000001 ffff 00 0267 01 00000000 00 00 0000ea60 02 0274 00 01 00",
    ),
    (
        "short",
        "0044 0000 00000002 ffff 00 0267 026d 00000001 00 00 ffffffff 00 00 00 00",
    ),
];

/// What it is sent: the reply to the join, with member id `m`, epoch 1, an interval of 5,000 ms and both partitions of a topic; that to
/// the heartbeat, with epoch 2 and no assignment; and that to an invalid request, with code 42 and its text.
const REPLIES: &[(&str, &str)] = &[
    (
        "joined",
        "00000001 00 00000000 0000 00 026d 00000001 00001388 01 02 T 03 00000000 00000001 00 00 00",
    ),
    (
        "beaten",
        "00000002 00 00000000 0000 00 026d 00000002 00001388 ff 00",
    ),
    (
        "invalid",
        "00000001 00 00000000 002a 10 696e76616c69642072657175657374 00 00000000 00000000 ff 00",
    ),
];

/// A question has the number of requests, which are a join and then a heartbeat, what each poll of the reader and of the writer
/// does, and the bytes that the reader gives. The answer has what each request comes to, a member by its id, its epoch and how
/// many partitions it owns; and what was written.
const BEATS: &str = "
1 1 1p*60 1p*40 joined = steady m 1 2 join
1 1 7*8 5*7 joined = steady m 1 2 join
1 2 1p*90 1p*80 joined beaten = steady m 1 2 steady m 2 2 join short
1 2 - - joined beaten = steady m 1 2 steady m 2 2 join short
1 2 - - joined joined = steady m 1 2 still join short
1 2 - - joined = steady m 1 2 Finished m 1 2 join short
1..27 2 - - joined beaten:# = steady m 1 2 CutShort m 1 2 join short
1 1 - - beaten = still join
1..51 1 - - joined/# = still join
1..23 2 - - joined beaten/# = steady m 1 2 still join short
1..37 1 - - invalid/# = still join
1 1 - - invalid = gone 42 join
1 1 - - = Finished - 0 0 join
1..55 1 1p*60 - joined:# = CutShort - 0 0 join
1 1 - - 00000000 = Closed - 0 0 join
1 1 - - 01000001 = Closed - 0 0 join
1 1 - - ffffffff joined = Closed - 0 0 join
1 1 - - 0100000000 = CutShort - 0 0 join
0..55 1 1*#+f - joined = ReadFault - 0 0 join
56 1 1*#+f - joined = steady m 1 2 join
0 1 - 1*#+f joined = WriteFault - 0 0
1..33 1 - 1*#+f joined = WriteFault - 0 0 join:#
34 1 - 1*#+f joined = steady m 1 2 join
0 1 - 1*#+0 joined = WriteFault - 0 0
1..33 1 - 1*#+0 joined = WriteFault - 0 0 join:#
";

#[test]
fn members_take_replies(rt: HostRuntime) -> Result<(), Fail> {
    let rows = numbered_rows(rt.alloc(), BEATS)?;
    let wrong = wrong_rows(rt.alloc(), &beating(&rt)?, rows.as_str())?;
    assert_eq!(rt; wrong.as_str(), "");
    Ok(())
}

fn beating<R: RandomSource + AllocGlobal>(rt: &R) -> Result<Beats, Fail> {
    Ok(Beats {
        task: task_of(rt)?,
        requests: Frames::of(rt.alloc(), REQUESTS)?,
        replies: Frames::of(rt.alloc(), REPLIES)?,
    })
}

/// A task that polls, and the frames that go and come.
#[derive(Drop)]
struct Beats {
    task: MockTask,
    requests: Frames,
    replies: Frames,
}

impl Answers for Beats {
    fn answer(&self, alloc: Global, question: &str, out: &mut String) -> Result<(), AllocError> {
        let (requests, words) = cut(question);
        let (reads, words) = cut(words);
        let (writes, words) = cut(words);
        let reader = Counted::new(feed(alloc, reads, words, &self.replies)?);
        let writer = Counted::new(drain(alloc, writes)?);
        let after = join(alloc, &self.task, reader, writer)?;
        let writer = told(alloc, &self.task, after, requests == "2", out)?;
        put_words(writer.inner().taken(), &self.requests, out)
    }
}

/// Tells what the join came to, and what the heartbeat behind it comes to where it is to be made.
fn told(
    alloc: Global,
    task: &MockTask,
    after: AfterBeat<Reader, Writer, Outside>,
    beats: bool,
    out: &mut String,
) -> Result<Writer, AllocError> {
    let AfterBeat {
        reader,
        writer,
        member,
    } = after;
    let Some(steady) = put_outcome(member, out)? else {
        return Ok(writer);
    };
    if !beats {
        return Ok(writer);
    }
    told_beat(alloc, task, reader, writer, steady, out)
}

/// Tells what a heartbeat of the member comes to.
fn told_beat(
    alloc: Global,
    task: &MockTask,
    reader: Reader,
    writer: Writer,
    member: Member<Steady>,
    out: &mut String,
) -> Result<Writer, AllocError> {
    let AfterBeat {
        reader: _reader,
        writer,
        member,
    } = beat(alloc, task, reader, writer, member)?;
    let _ = put_outcome(member, out)?;
    Ok(writer)
}

type Reader = Counted<Feed>;

type Writer = Counted<Drain>;

/// What the join of a new member comes to.
fn join(
    alloc: Global,
    task: &MockTask,
    reader: Reader,
    writer: Writer,
) -> Result<AfterBeat<Reader, Writer, Outside>, AllocError> {
    let member = Member::new(alloc, settings(alloc)?);
    let Ok((member, request)) = member.join() else {
        return Err(AllocError);
    };
    exchange(alloc, task, reader, writer, member, request)
}

/// What a heartbeat of a member comes to that says nothing but its epoch.
fn beat(
    alloc: Global,
    task: &MockTask,
    reader: Reader,
    writer: Writer,
    member: Member<Steady>,
) -> Result<AfterBeat<Reader, Writer, Steady>, AllocError> {
    let Ok((member, request)) = member.beat(Kind::Short) else {
        return Err(AllocError);
    };
    exchange(alloc, task, reader, writer, member, request)
}

/// What the request of a member comes to that waits for the reply to it.
fn exchange<S: Idle>(
    alloc: Global,
    task: &MockTask,
    reader: Reader,
    writer: Writer,
    member: Member<Sent<S>>,
    request: Vec<u8>,
) -> Result<AfterBeat<Reader, Writer, S>, AllocError>
    requires { IsRequestOf member request.items }
{
    let beat = Beat::new(alloc, reader, writer, member, request);
    output_within(task, beat, 1_000).ok_or(AllocError)
}

/// What a member of group `g` says of itself that subscribes topic `t`.
fn settings(alloc: Global) -> Result<Settings, AllocError>
    ensures { IfOk result (λ s. HasShortTexts (settings_value s)) }
{
    let mut names = Vec::new(alloc);
    names.push(String::from_str(alloc, "t")?)?;
    Ok(Settings {
        group: String::from_str(alloc, "g")?,
        instance: None,
        rack: None,
        rebalance_timeout: 60_000,
        names,
        assignor: None,
    })
}

/// Puts what became of a member, and gives it where it is steady.
fn put_outcome<S: Idle>(
    member: Result<Next<S>, (Member<S>, End)>,
    out: &mut String,
) -> Result<Option<Member<Steady>>, AllocError> {
    match member {
        Ok(next) => put_next(next, out),
        Err((member, end)) => {
            let put = put_failed(&member, end, out);
            none_after(put)
        }
    }
}

/// No member, once what was put is there.
fn none_after(put: Result<(), AllocError>) -> Result<Option<Member<Steady>>, AllocError> {
    put?;
    Ok(None)
}

/// Puts why a request failed, and the member that has given up.
fn put_failed<S: Idle>(member: &Member<S>, end: End, out: &mut String) -> Result<(), AllocError> {
    if end == End::NoMemory {
        return Err(AllocError);
    }
    part_words(out)?;
    write!(out, "{end:?}")?;
    put_member("", member, out)
}

/// Puts what a member makes of a reply, and gives it where it is steady.
fn put_next<S: Idle>(
    next: Next<S>,
    out: &mut String,
) -> Result<Option<Member<Steady>>, AllocError> {
    let told = tell_next(&next, out);
    let steady = steady_of(next);
    told?;
    Ok(steady)
}

fn steady_of<S: Idle>(next: Next<S>) -> Option<Member<Steady>> {
    match next {
        Next::Steady(member) => Some(member),
        Next::Releasing(member) => let_go(member),
        Next::Outside(member) => let_go(member),
        Next::Gone(member, _) => let_go(member),
        Next::Kept(member, _) => let_go(member),
        Next::Still(member) => let_go(member),
        Next::NoMemory(member) => let_go(member),
    }
}

/// Lets a member go that isn't steady.
fn let_go<S: Stage>(_member: Member<S>) -> Option<Member<Steady>> {
    None
}

/// Puts what a member makes of a reply.
fn tell_next<S: Idle>(next: &Next<S>, out: &mut String) -> Result<(), AllocError> {
    part_words(out)?;
    match next {
        Next::Steady(member) => put_member("steady", member, out),
        Next::Releasing(member) => put_member("releasing", member, out),
        Next::Outside(member) => put_member("outside", member, out),
        Next::Gone(_, code) => write!(out, "gone {code}"),
        Next::Kept(_, code) => write!(out, "kept {code}"),
        Next::Still(_) => out.push_str("still"),
        Next::NoMemory(_) => Err(AllocError),
    }
}

/// Puts a member by its id, its epoch and how many partitions it owns.
fn put_member<S: Stage>(
    name: &str,
    member: &Member<S>,
    out: &mut String,
) -> Result<(), AllocError> {
    let id = member.id().unwrap_or("-");
    let (epoch, own) = (member.epoch().as_u32(), member.own().len());
    write!(out, "{name} {id} {epoch} {own}")
}
