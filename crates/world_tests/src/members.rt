//! Members at the requests that they make and the replies that they take, worked out by hand from the Kafka protocol guide and
//! KIP-848.

mod asking;
mod replies;
mod standing;
mod taking;

use crate::settings::settings_of;
use asking::{ask, commit};
use member_core::{BeatFault, Member};
use replies::reply_of;
use standing::{Answer, Standing};
use std::alloc::{AllocError, Global};
use std::test::Fail;
use taking::{give, give_up, give_whole, release};
use test_support::courses::{Course, OUT_OF_MEMORY, wrong_steps};
use test_support::frames::put_hex;
use test_support::tables::cut;

/// A longer frame is told by its length.
const LONGEST_TOLD: usize = 100;

/// Steps of members, and what comes of each. Members come one after the other.
///
/// - `member GROUP INSTANCE RACK ASSIGNOR TIMEOUT TOPICS`: a new member. `COUNT*LENGTH` in place of topics is COUNT names of LENGTH bytes.
/// - `join`, `beat short`, `beat owned`, `beat full`, `leave`, `away`: the frame of the request, or `fault` and its number.
/// - `commit N FIRST COUNT`: the frame of a commit with correlation id N of offset 5, for COUNT partitions of the topic `t`.
/// - `take N CODE ID EPOCH SHOWN`: the body of a reply to request N, behind each of its proper beginnings, on which the member waits
///   on. SHOWN is `null`, `-`, indexes of the topic `U`, or `many`: 27 topics of 1,000 partitions, of which `U` is the first. A reply
///   with another code than 0 has the text `no`.
/// - `give` with the same words is that body alone, and `long` that body with one byte more.
/// - `lose`: the member gives up. `release INDEX`: it releases an index of `U`. `look`: nothing happens.
///
/// A step that isn't answered by a frame or a fault is answered by what the member then is: its state, and `ID@EPOCH:OWN`. Before it stands
/// `gone` or `kept` with the code of the reply, or `still` where the bytes were no reply to its request. Where the state has no such call,
/// the answer is `-`.
const STEPS: &str = "
# a join says all settings and reports that nothing is owned; the member waits
member g - - - 60000 t = outside -@0:-
join = 0000001e 0044 0000 00000001 ffff 00 0267 01 00000000 00 00 0000ea60 02 0274 00 01 00
join = -
beat short = -
commit 1 0 1 = -
long 1 0 m 1 0,1 = still outside -@0:-
# what is no reply to the request: another number, success without an id, or below epoch 1
take 2 0 m 1 0,1 = still outside -@0:-
take 0 0 m 1 0,1 = still outside -@0:-
take 1 0 - 1 0,1 = still outside -@0:-
take 1 0 m 0 0,1 = still outside -@0:-
take 1 0 m -1 0,1 = still outside -@0:-
take 1 0 m 1 0,1 = steady m@1:U/0,U/1
take 1 0 m 1 0,1 = -
# heartbeats of each kind
beat short = 0000001d 0044 0000 00000002 ffff 00 0267 026d 00000001 00 00 ffffffff 00 00 00 00
take 1 0 m 9 0 = still steady m@1:U/0,U/1
commit 7 1 1 = 0000002c 0008 0009 00000007 ffff 00 0267 00000001 026d 00 02 0274 02 00000001 0000000000000005 ffffffff 00 00 00 00
take 2 0 m 1 0 = releasing m@1:U/0,U/1
commit 8 0 1 = 0000002c 0008 0009 00000008 ffff 00 0267 00000001 026d 00 02 0274 02 00000000 0000000000000005 ffffffff 00 00 00 00
beat owned = 00000037 0044 0000 00000003 ffff 00 0267 026d 00000001 00 00 ffffffff 00 00 02 11111111111111111111111111111111 03 00000000 00000001 00 00
take 3 0 m 1 null = releasing m@1:U/0,U/1
release 0 = releasing m@1:U/0,U/1
release 2 = releasing m@1:U/0,U/1
release 1 = steady m@1:U/0
beat full = 00000035 0044 0000 00000004 ffff 00 0267 026d 00000001 00 00 0000ea60 02 0274 00 02 11111111111111111111111111111111 02 00000000 00 00
take 4 0 m 2 null = steady m@2:U/0
# nothing is shown: all is to be released
beat short = 0000001d 0044 0000 00000005 ffff 00 0267 026d 00000002 00 00 ffffffff 00 00 00 00
take 5 0 m 2 - = releasing m@2:U/0
release 0 = steady m@2:-
beat owned = 0000001d 0044 0000 00000006 ffff 00 0267 026d 00000002 00 00 ffffffff 00 00 01 00
# a fenced member owns nothing, and keeps its id for the next join
take 6 110 - 0 null = outside m@0:-
join = 0000001f 0044 0000 00000007 ffff 00 0267 026d 00000000 00 00 0000ea60 02 0274 00 01 00
take 7 25 - 0 null = outside m@0:-
join = 0000001f 0044 0000 00000008 ffff 00 0267 026d 00000000 00 00 0000ea60 02 0274 00 01 00
take 8 0 m 5 1 = steady m@5:U/1
# after a code that allows another try the next heartbeat is full, whatever kind is asked for, and once
beat short = 0000001d 0044 0000 00000009 ffff 00 0267 026d 00000005 00 00 ffffffff 00 00 00 00
take 9 15 - 0 null = kept 15 steady m@5:U/1
beat short = 00000035 0044 0000 0000000a ffff 00 0267 026d 00000005 00 00 0000ea60 02 0274 00 02 11111111111111111111111111111111 02 00000001 00 00
take 10 14 - 0 null = kept 14 steady m@5:U/1
beat owned = 00000035 0044 0000 0000000b ffff 00 0267 026d 00000005 00 00 0000ea60 02 0274 00 02 11111111111111111111111111111111 02 00000001 00 00
take 11 16 - 0 null = kept 16 steady m@5:U/1
beat full = 00000035 0044 0000 0000000c ffff 00 0267 026d 00000005 00 00 0000ea60 02 0274 00 02 11111111111111111111111111111111 02 00000001 00 00
take 12 111 - 0 null = kept 111 steady m@5:U/1
# a request that is given up isn't answered any more
beat short = 00000035 0044 0000 0000000d ffff 00 0267 026d 00000005 00 00 0000ea60 02 0274 00 02 11111111111111111111111111111111 02 00000001 00 00
lose = steady m@5:U/1
lose = -
beat short = 00000035 0044 0000 0000000e ffff 00 0267 026d 00000005 00 00 0000ea60 02 0274 00 02 11111111111111111111111111111111 02 00000001 00 00
take 13 0 m 5 - = still steady m@5:U/1
take 14 0 m 5 null = steady m@5:U/1
beat short = 0000001d 0044 0000 0000000f ffff 00 0267 026d 00000005 00 00 ffffffff 00 00 00 00
# any other code ends the member
take 15 42 - 0 null = gone 42 gone m@5:-
join = -
beat short = -
commit 9 0 1 = -
leave = -

# a static member says all that it has, and goes away for a while
member g i r range 5 t,u = outside -@0:-
join = 00000027 0044 0000 00000001 ffff 00 0267 01 00000000 0269 0272 00000005 03 0274 0275 0672616e6765 01 00
lose = outside -@0:-
join = 00000027 0044 0000 00000002 ffff 00 0267 01 00000000 0269 0272 00000005 03 0274 0275 0672616e6765 01 00
take 1 0 m 1 0,1 = still outside -@0:-
take 2 111 - 0 null = kept 111 outside -@0:-
join = 00000027 0044 0000 00000003 ffff 00 0267 01 00000000 0269 0272 00000005 03 0274 0275 0672616e6765 01 00
take 3 0 m 2147483647 0,1 = steady m@2147483647:U/0,U/1
away = 0000001e 0044 0000 00000004 ffff 00 0267 026d fffffffe 0269 00 ffffffff 00 00 00 00
take 4 0 m -2 null = -
commit 1 0 1 = -

# a plain member can't go away; it leaves
member g - - - 60000 t = outside -@0:-
leave = -
join = 0000001e 0044 0000 00000001 ffff 00 0267 01 00000000 00 00 0000ea60 02 0274 00 01 00
take 1 0 m 1 1 = steady m@1:U/1
away = fault 1
beat short = 0000001d 0044 0000 00000002 ffff 00 0267 026d 00000001 00 00 ffffffff 00 00 00 00
take 2 0 m 2 0 = releasing m@2:U/0,U/1
away = fault 1
leave = 0000001d 0044 0000 00000003 ffff 00 0267 026d ffffffff 00 00 ffffffff 00 00 00 00

# a refused first join leaves no id
member g - - - 60000 t = outside -@0:-
join = 0000001e 0044 0000 00000001 ffff 00 0267 01 00000000 00 00 0000ea60 02 0274 00 01 00
take 1 81 - 0 null = gone 81 gone -@0:-
";

/// Requests that are as large as they come, and one that is too large.
const LARGE: &str = "
# each name has 32,767 bytes behind three bytes of a length, and what is left of a join has 28 bytes behind its size
member g - - - 60000 40*32767 = outside -@0:-
join = 1310832 bytes
# 300 of them are more than the 8,388,608 bytes of a body
member g - - - 60000 300*32767 = outside -@0:-
join = fault 2
look = outside -@0:-

# each partition of a commit has 18 bytes, and what is left 28; each topic that is reported has 4,019 bytes, and what is left 31
member g - - - 60000 t = outside -@0:-
join = 0000001e 0044 0000 00000001 ffff 00 0267 01 00000000 00 00 0000ea60 02 0274 00 01 00
give 1 0 m 1 many = steady m@1:U/0.. 27000
commit 1 0 60000 = 1080032 bytes
beat full = 108548 bytes
";

#[test]
fn members_ask_and_take(rt: HostRuntime) -> Result<(), Fail> {
    let alloc = rt.alloc();
    let wrong = wrong_of(alloc, STEPS).or_else(|_| wrong_of(alloc, STEPS))?;
    assert_eq!(rt; wrong.as_str(), "");
    Ok(())
}

#[test]
fn large_requests_are_made_or_refused(rt: HostRuntime) -> Result<(), Fail> {
    let alloc = rt.alloc();
    let wrong = wrong_of(alloc, LARGE).or_else(|_| wrong_of(alloc, LARGE))?;
    assert_eq!(rt; wrong.as_str(), "");
    Ok(())
}

/// The steps of a table of which something else comes, each with that.
fn wrong_of(alloc: Global, table: &str) -> Result<String, AllocError> {
    wrong_steps(alloc, Standing::nobody(alloc), table)
}

impl Course for Standing {
    fn step(&mut self, alloc: Global, step: &str) -> Result<String, AllocError> {
        let answer = answer_of(alloc, self, step)?;
        let mut text = String::new(alloc);
        tell_answer(&answer, self, &mut text)?;
        Ok(text)
    }

    fn tell(&self, out: &mut String) -> Result<(), AllocError> {
        self.tell_member(out)
    }
}

/// Takes a step.
fn answer_of(alloc: Global, standing: &mut Standing, step: &str) -> Result<Answer, AllocError> {
    let (verb, words) = cut(step);
    match verb {
        "member" => {
            let settings = settings_of(alloc, words)?;
            standing.put(Standing::Outside(Member::new(alloc, settings)));
            Ok(Answer::Done)
        }
        "look" => Ok(Answer::Done),
        "take" | "give" | "long" => take(alloc, standing, verb, words),
        "commit" => Ok(commit(alloc, standing, words)),
        _ => Ok(move_on(alloc, standing, step)),
    }
}

/// Gives a reply to the member.
fn take(
    alloc: Global,
    standing: &mut Standing,
    verb: &str,
    words: &str,
) -> Result<Answer, AllocError> {
    let mut body = reply_of(alloc, words)?;
    if verb == "take" {
        return Ok(give_whole(alloc, standing, body.as_slice()));
    }
    if verb == "long" {
        body.push(0)?;
    }
    Ok(give(alloc, standing, body.as_slice()))
}

/// Lets the member ask, give up or release.
fn move_on(alloc: Global, standing: &mut Standing, step: &str) -> Answer {
    let before = standing.take_out(alloc);
    let (verb, words) = cut(step);
    let (now, answer) = match verb {
        "lose" => give_up(before),
        "release" => release(before, words),
        _ => ask(before, step),
    };
    standing.put(now);
    answer
}

fn tell_answer(answer: &Answer, standing: &Standing, out: &mut String) -> Result<(), AllocError> {
    match answer {
        Answer::Frame(frame) => return tell_frame(frame.as_slice(), out),
        Answer::Refused(BeatFault::NoMemory) => return out.push_str(OUT_OF_MEMORY),
        Answer::Refused(fault) => return write!(out, "fault {}", fault.number()),
        Answer::TooSoon => return out.push_str("too soon"),
        Answer::NoCall => return out.push('-'),
        Answer::Still => out.push_str("still")?,
        Answer::Gone(code) => write!(out, "gone {code}")?,
        Answer::Kept(code) => write!(out, "kept {code}")?,
        Answer::Done => {}
    }
    standing.tell_member(out)
}

/// Appends a frame in hex, or how many bytes a long one has.
fn tell_frame(frame: &[u8], out: &mut String) -> Result<(), AllocError> {
    if frame.len() > LONGEST_TOLD {
        return write!(out, "{} bytes", frame.len());
    }
    put_hex(out, frame)
}
