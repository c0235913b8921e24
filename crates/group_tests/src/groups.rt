//! Heartbeats at a group, with answers worked out by hand from KIP-848.

use crate::commits;
use flex_wire::TaggedFields;
use group_core::{
    Group, HeartbeatRequest, Image, MemberHeartbeat, Moment, Outcome, PartSet, Partition, Reply,
    Stamp,
};
use group_types::EpochNumber;
use kip_msgs::{Array, CommitRequest, TopicPartitions};
use std::alloc::{AllocError, Global};
use std::collections::hash_map::RandomState;
use std::test::Fail;
use test_support::tables::{Answers, cut, number, part_words, wrong_rows};
use topic_meta::TopicEntry;
use uuid::Uuid;

/// A question begins with the epoch of a group that nobody has joined, over a topic `t` of two partitions. Its steps are
/// parted by `; `, and step N has the stamp (1, N).
///
/// - `join ID TOPICS`, `join ID TOPICS ASSIGNOR`: a join; `-` is no id or no topic.
/// - `beat ID EPOCH OWNED`: a heartbeat that reports these indexes of `t`, `-` for none of them, or nothing with `null`.
/// - `leave ID`, `image COUNT`: a leave, and a topic that has grown.
/// - `static ID INSTANCE`, `away ID INSTANCE`: a static member joins `t`, and goes away for a while.
/// - `tick MS`: members whose deadline has come by this moment leave. Heartbeats come at 7 ms.
/// - `commit WORDS`: offsets are committed.
///
/// The answer has for each heartbeat the error's name, `closes`, or the id, the member epoch and the partitions that are
/// shown; for a tick how many members left; and for a commit the code of each index. Behind `|` stand the group epoch, the target's epoch and the number of members; for `a`, `b` and `c` the member epoch, the
/// one before it and what the target has, `past` for a former member, or `-`; and for each partition its holder, and the epoch of the
/// target under which it was granted.
const GROUPS: &str = "
0 = | 0 0 0 - - - - - -
0; join a t = a@1:0,1 | 1 1 1 a@1/0:0,1 - - a@1 a@1 -
41; join - t range = 00000000-0000-0000-0000-000000000001@42:0,1 | 42 42 1 - - - 00000000-0000-0000-0000-000000000001@42 00000000-0000-0000-0000-000000000001@42 -
0; join a t; join b t = a@1:0,1 b@2:- | 2 2 2 a@1/0:1 b@2/0:0 - a@1 a@1 -
0; join a t; join b t; beat a 1 null; beat a 1 1; beat b 2 null = a@1:0,1 b@2:- a@1:1 a@2:null b@2:0 | 2 2 2 a@2/1:1 b@2/0:0 - b@2 a@1 -
0; join a t; join b t; beat a 1 0,1; beat a 1 0 = a@1:0,1 b@2:- a@1:1 a@1:null | 2 2 2 a@1/0:1 b@2/0:0 - a@1 a@1 -
0; join a t; join b t; join a t; beat b 2 null = a@1:0,1 b@2:- a@2:1 b@2:0 | 2 2 2 a@2/1:1 b@2/0:0 - b@2 a@1 -
0; join a t; beat a 2 null; beat b 1 null; beat a -3 null = a@1:0,1 FencedMemberEpoch UnknownMemberId InvalidRequest | 1 1 1 a@1/0:0,1 - - a@1 a@1 -
0; join a t; join b t; leave a; beat b 2 null = a@1:0,1 b@2:- a@-1:null b@3:0,1 | 3 3 1 past b@3/2:0,1 - b@3 b@3 -
0; join a t; leave a; join a t = a@1:0,1 a@-1:null a@3:0,1 | 3 3 1 a@3/0:0,1 - - a@3 a@3 -
0; join a t; image 3; beat a 1 null = a@1:0,1 a@2:0,1,2 | 2 2 1 a@2/1:0,1,2 - - a@1 a@1 a@2
0; join a -; join b t; join c t = a@1:- b@2:0,1 c@3:- | 3 3 3 a@1/0:- b@2/0:1 c@3/0:0 b@2 b@2 -
0; join a t range; join b t = a@1:0,1 b@2:- | 2 2 2 a@1/0:0 b@2/0:1 - a@1 a@1 -
0; join a t sticky; leave a = UnsupportedAssignor UnknownMemberId | 0 0 0 - - - - - -
2147483646; join a t; join b t; leave a = a@2147483647:0,1 CoordinatorNotAvailable a@-1:null | 2147483647 2147483647 0 past - - - - -
2147483646; join a t; beat a 2147483647 null; image 3; beat a 2147483647 null = a@2147483647:0,1 a@2147483647:null CoordinatorNotAvailable | 2147483647 2147483647 1 a@2147483647/0:0,1 - - a@2147483647 a@2147483647 -
2147483646; join a t; image 3; beat a 2147483647 null; tick 45006; tick 45007 = a@2147483647:0,1 CoordinatorNotAvailable removed:0 removed:1 | 2147483647 2147483647 0 past - - - - -
0; static a i; away a i; static b i; static c i; beat a 1 null = a@1:0,1 a@-2:null b@1:0,1 UnreleasedInstanceId UnknownMemberId | 1 1 1 past b@1/1:0,1 - b@1 b@1 -
0; static a i; away a j; away a i; beat a 1 null; static a i = a@1:0,1 UnknownMemberId a@-2:null FencedMemberEpoch a@1:0,1 | 1 1 1 a@1/1:0,1 - - a@1 a@1 -
0; static a i; join b t; away a i; beat b 2 null; tick 45007; beat b 2 null = a@1:0,1 b@2:- a@-2:null b@2:null removed:2 UnknownMemberId | 3 2 0 past past - - - -
0; join a t; commit a 1 t:0:5:-1 t:2:5:-1 t:1:5:-1; commit a 2 t:0:5:-1; commit b 1 t:0:5:-1; commit a -1 t:0:5:-1; leave a; commit a -1 t:1:5:-1; commit a 1 t:1:5:-1 = a@1:0,1 codes:0,3,0 codes:113 codes:25 codes:113 a@-1:null codes:0 codes:25 | 2 1 0 past - - - - -
2147483647; join a t; join a t range; join a t sticky = CoordinatorNotAvailable CoordinatorNotAvailable UnsupportedAssignor | 2147483647 2147483647 0 - - - - - -
";

/// A group, and the image that its heartbeats meet.
#[derive(Drop)]
struct Told {
    group: Group,
    image: Image,
    steps: u64,
}

#[test]
fn heartbeats_are_answered(rt: HostRuntime) -> Result<(), Fail> {
    let groups = Groups {
        hasher: RandomState::new(&rt)?,
    };
    let wrong = wrong_rows(rt.alloc(), &groups, GROUPS)?;
    assert_eq!(rt; wrong.as_str(), "");
    Ok(())
}

/// Groups, and how they look their members up.
#[derive(Drop)]
struct Groups {
    hasher: RandomState,
}

impl Answers for Groups {
    /// What the steps are answered, and what the group then is.
    fn answer(&self, alloc: Global, question: &str, out: &mut String) -> Result<(), AllocError> {
        let (epoch, steps) = question.split_once("; ").unwrap_or((question, ""));
        put_answer(alloc, self.hasher, number(epoch), steps, out)
    }
}

fn put_answer(
    alloc: Global,
    hasher: RandomState,
    epoch: i32,
    steps: &str,
    out: &mut String,
) -> Result<(), AllocError> {
    let mut told = new_told(alloc, hasher, epoch)?;
    take_steps(alloc, &mut told, steps, out)
}

fn take_steps(
    alloc: Global,
    told: &mut Told,
    steps: &str,
    out: &mut String,
) -> Result<(), AllocError> {
    for step in steps.split("; ").filter(|step| !step.is_empty()) {
        take_step(alloc, told, step, out)?;
    }
    part_words(out)?;
    out.push('|')?;
    tell_group(&told.group, out)
}

fn new_told(alloc: Global, hasher: RandomState, epoch: i32) -> Result<Told, AllocError> {
    let epoch = EpochNumber::of_i32(epoch).unwrap_or(EpochNumber::zero());
    Ok(Told {
        group: Group::starting_at(alloc, 0, hasher, epoch),
        image: image_of(alloc, 2)?,
        steps: 0,
    })
}

/// An image of the topic `t`, whose id is sixteen bytes 0x11.
pub fn image_of(alloc: Global, count: i32) -> Result<Image, AllocError> {
    let mut topics = Vec::new(alloc);
    topics.push(entry_of(alloc, "t", topic_id(), count)?)?;
    Image::of(alloc, topics).map_err(|_| AllocError)
}

/// A topic of an image.
pub fn entry_of(alloc: Global, name: &str, id: Uuid, count: i32) -> Result<TopicEntry, AllocError> {
    let name = String::from_str(alloc, name)?;
    Ok(TopicEntry { name, id, count })
}

fn topic_id() -> Uuid {
    Uuid::from_bytes([0x11; 16])
}

fn take_step(
    alloc: Global,
    told: &mut Told,
    step: &str,
    out: &mut String,
) -> Result<(), AllocError> {
    told.steps = told.steps.saturating_add(1);
    let (verb, words) = cut(step);
    match verb {
        "image" => {
            told.image = image_of(alloc, number(words))?;
            Ok(())
        }
        "tick" => tick(told, number(words), out),
        "commit" => commit(alloc, told, words, out),
        _ => beat(alloc, told, verb, words, out),
    }
}

fn tick(told: &mut Told, millis: i32, out: &mut String) -> Result<(), AllocError> {
    let removed = told
        .group
        .tick(Moment::of_millis(u64::from(millis.unsigned_abs())));
    part_words(out)?;
    write!(out, "removed:{removed}")
}

fn commit(alloc: Global, told: &mut Told, words: &str, out: &mut String) -> Result<(), AllocError> {
    let request = commits::request_of(alloc, words)?;
    put_codes(told, &request, out)
}

/// Commits offsets. Where a growth is refused the commit is sent once more.
fn put_codes(
    told: &mut Told,
    request: &CommitRequest<'_>,
    out: &mut String,
) -> Result<(), AllocError> {
    let Told { group, image, .. } = told;
    let reply = match group.commit(request, image) {
        Ok(reply) => reply,
        Err(AllocError) => group.commit(request, image)?,
    };
    commits::tell_codes(&reply, out)
}

fn beat(
    alloc: Global,
    told: &mut Told,
    verb: &str,
    words: &str,
    out: &mut String,
) -> Result<(), AllocError> {
    let request = request_of(alloc, verb, words)?;
    send(alloc, told, &request, out)
}

fn send(
    alloc: Global,
    told: &mut Told,
    request: &HeartbeatRequest<'_>,
    out: &mut String,
) -> Result<(), AllocError> {
    let mut frame = Vec::new(alloc);
    let outcome = heartbeat(told, request, &mut frame, out)?;
    tell_outcome(&outcome, out)
}

/// The request of a step: all fields that are not said are null, and the timeout of a join is 60,000 ms.
fn request_of<'a>(
    alloc: Global,
    verb: &str,
    words: &'a str,
) -> Result<HeartbeatRequest<'a>, AllocError> {
    let (_, parts) = cut(words);
    let (first, second) = cut(parts);
    let names = names_of(alloc, verb, first)?;
    let owned = owned_of(alloc, verb, second)?;
    Ok(with_lists(alloc, verb, words, names, owned))
}

fn with_lists<'a>(
    alloc: Global,
    verb: &str,
    words: &'a str,
    names: Option<Array<&'a str>>,
    owned: Option<Array<TopicPartitions<'a>>>,
) -> HeartbeatRequest<'a> {
    let (id, words) = cut(words);
    let (first, second) = cut(words);
    HeartbeatRequest {
        group_id: "g",
        member_id: word_if(id != "-", id).unwrap_or(""),
        member_epoch: epoch_of(verb, first),
        instance_id: word_if(verb == "static" || verb == "away", first),
        rack_id: None,
        rebalance_timeout_ms: if names.is_some() { 60_000 } else { -1 },
        subscribed_topic_names: names,
        server_assignor: word_if(verb == "join" && !second.is_empty(), second),
        topic_partitions: owned,
        tags: TaggedFields::new(alloc),
    }
}

fn word_if(is_said: bool, word: &str) -> Option<&str> {
    if is_said { Some(word) } else { None }
}

fn epoch_of(verb: &str, word: &str) -> i32 {
    match verb {
        "join" | "static" => 0,
        "away" => -2,
        "leave" => -1,
        _ => number(word),
    }
}

/// The names of a join; that of a static member says `t`.
fn names_of<'a>(
    alloc: Global,
    verb: &str,
    words: &'a str,
) -> Result<Option<Array<&'a str>>, AllocError> {
    let words = match verb {
        "join" => words,
        "static" => "t",
        _ => return Ok(None),
    };
    let mut names = Array::new(alloc);
    for name in words.split(',').filter(|name| *name != "-") {
        names.push(name)?;
    }
    Ok(Some(names))
}

/// What a heartbeat reports.
fn owned_of<'a>(
    alloc: Global,
    verb: &str,
    words: &str,
) -> Result<Option<Array<TopicPartitions<'a>>>, AllocError> {
    if verb != "beat" || words == "null" {
        return Ok(None);
    }
    let mut list = Array::new(alloc);
    list.push(TopicPartitions {
        topic_id: topic_id(),
        partitions: indexes_of(alloc, words)?,
        tags: TaggedFields::new(alloc),
    })?;
    Ok(Some(list))
}

fn indexes_of(alloc: Global, words: &str) -> Result<Array<i32>, AllocError> {
    let mut indexes = Array::new(alloc);
    for index in words.split(',').filter(|index| *index != "-") {
        indexes.push(number(index))?;
    }
    Ok(indexes)
}

/// What the group answers. Where a growth is refused nothing may have changed, and the heartbeat is sent once more.
fn heartbeat(
    told: &mut Told,
    request: &HeartbeatRequest<'_>,
    frame: &mut Vec<u8>,
    out: &mut String,
) -> Result<Outcome, AllocError> {
    let stamp = Stamp {
        connection: 1,
        frame: told.steps,
    };
    let now = Moment::of_millis(7);
    let before = numbers_of(&told.group);
    let Some(request) = MemberHeartbeat::of(request) else {
        return Err(AllocError);
    };
    if let Ok(outcome) = told
        .group
        .heartbeat(&request, stamp, now, &told.image, frame)
    {
        return Ok(outcome);
    }
    if before != numbers_of(&told.group) {
        out.push_str("a refused growth has changed the group")?;
    }
    told.group
        .heartbeat(&request, stamp, now, &told.image, frame)
}

fn numbers_of(group: &Group) -> (u32, u32, usize) {
    let target = group.target().epoch();
    (group.epoch().as_u32(), target.as_u32(), group.members())
}

fn tell_outcome(outcome: &Outcome, out: &mut String) -> Result<(), AllocError> {
    part_words(out)?;
    match outcome {
        Outcome::Overtaken => out.push_str("closes"),
        Outcome::Reply(reply) => tell_reply(reply, out),
    }
}

fn tell_reply(reply: &Reply, out: &mut String) -> Result<(), AllocError> {
    let Some(member) = &reply.member else {
        return write!(out, "{:?}", reply.code);
    };
    write!(out, "{}@{}:", member.as_str(), reply.epoch)?;
    match &reply.assignment {
        Some(shown) => tell_set(Some(shown.set()), out),
        None => out.push_str("null"),
    }
}

/// The indexes of a set, or `-` where there are none.
fn tell_set(set: Option<&PartSet>, out: &mut String) -> Result<(), AllocError> {
    let Some(set) = set.filter(|set| !set.is_empty()) else {
        return out.push('-');
    };
    for part in set.iter() {
        if out.as_str().ends_with(|last: char| last.is_ascii_digit()) {
            out.push(',')?;
        }
        write!(out, "{}", part.index)?;
    }
    Ok(())
}

/// Tells what the group is.
pub fn tell_group(group: &Group, out: &mut String) -> Result<(), AllocError> {
    let (epoch, target, members) = numbers_of(group);
    write!(out, " {epoch} {target} {members}")?;
    for id in ["a", "b", "c"] {
        out.push(' ')?;
        tell_member(group, id, out)?;
    }
    for index in 0..3 {
        out.push(' ')?;
        tell_partition(group, index, out)?;
    }
    Ok(())
}

pub fn tell_member(group: &Group, id: &str, out: &mut String) -> Result<(), AllocError> {
    let Some((epoch, previous)) = group.epochs(id) else {
        return out.push_str(if group.remembers(id) { "past" } else { "-" });
    };
    let epoch = epoch.number().unwrap_or(EpochNumber::zero()).as_u32();
    write!(out, "{id}@{epoch}/{}:", previous.as_u32())?;
    tell_set(group.target().of(id).set(), out)
}

/// Who may read the partition, and since when; `?` where the member's own set doesn't have it.
fn tell_partition(group: &Group, index: i32, out: &mut String) -> Result<(), AllocError> {
    let part = Partition {
        topic: topic_id(),
        index,
    };
    let grants = group.grants();
    match (grants.holder(&part), grants.granted_at(&part)) {
        (Some(id), Some(since)) => {
            let known = group.granted(id).is_some_and(|set| set.contains(&part));
            let mark = if known { "" } else { "?" };
            write!(out, "{mark}{id}@{}", since.as_u32())
        }
        (None, None) => out.push('-'),
        _ => out.push('?'),
    }
}
