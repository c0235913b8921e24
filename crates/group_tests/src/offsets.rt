//! Offsets that are committed to a group without members, with codes worked out by hand from KIP-848 and the Kafka protocol guide.

use crate::commits::{request_of, tell_codes};
use crate::groups::entry_of;
use group_epochs::Records;
use kip_msgs::{CommitReply, CommitRequest};
use offset_guard::{Committed, Offsets};
use std::alloc::{AllocError, Global};
use std::collections::hash_map::RandomState;
use std::test::Fail;
use test_support::tables::{Answers, wrong_rows};
use topic_meta::Image;
use uuid::Uuid;

/// A question has commits, parted by `; `, of a member `x`, which isn't there: the words of a request. Topic `t` has two
/// partitions, and topic `u` has one.
///
/// The answer has the codes of each commit, and behind `|` what is then committed for the first three indexes of `t` and the first
/// of `u`: `OFFSET@LEADER`, with `/METADATA` where there is some, or `-`.
const OFFSETS: &str = "
x -1 = codes: | - - - -
x -1 t:0:5:-1 = codes:0 | 5@-1 - - -
x -1 t:0:5:3:m t:1:6:-1 u:0:7:0:mm = codes:0,0,0 | 5@3/m 6@-1 - 7@0/mm
x -1 t:0:5:3:m; x -1 t:1:6:-1 t:0:4:-1 = codes:0 codes:0,0 | 4@-1 6@-1 - -
x -1 t:0:5:3; x -1 u:0:7:0:mm = codes:0 codes:0 | 5@3 - - 7@0/mm
x -1 t:0:5:-1 u:0:9:-1 t:0:6:-1:m = codes:0,0,0 | 6@-1/m - - 9@-1
x -1 t:2:5:-1 u:1:5:-1 v:0:5:-1 t:-1:5:-1 t:1:-7:-1 = codes:3,3,3,3,0 | - -7@-1 - -
x -2 t:1:9223372036854775807:2147483647 = codes:0 | - 9223372036854775807@2147483647 - -
x -1 t:0:5:-1; x 0 t:0:6:-1 t:2:6:-1; x 1 t:1:6:-1 = codes:0 codes:25,25 codes:25 | 5@-1 - - -
";

/// The places of which the answers tell.
const SHOWN: [(&str, i32); 4] = [("t", 0), ("t", 1), ("t", 2), ("u", 0)];

/// The offsets of a group that nobody has joined, and the image that its commits meet.
#[derive(Drop)]
struct Kept {
    offsets: Offsets,
    records: Records,
    image: Image,
}

#[test]
fn offsets_are_committed(rt: HostRuntime) -> Result<(), Fail> {
    let kept = Commits {
        hasher: RandomState::new(&rt)?,
    };
    let wrong = wrong_rows(rt.alloc(), &kept, OFFSETS)?;
    assert_eq!(rt; wrong.as_str(), "");
    Ok(())
}

/// Commits, and how the offsets of a group are looked up.
#[derive(Drop)]
struct Commits {
    hasher: RandomState,
}

impl Answers for Commits {
    /// The codes of the commits, and what is then committed.
    fn answer(&self, alloc: Global, question: &str, out: &mut String) -> Result<(), AllocError> {
        let mut kept = nothing_committed(alloc, self.hasher)?;
        put_commits(alloc, &mut kept, question, out)
    }
}

fn put_commits(
    alloc: Global,
    kept: &mut Kept,
    question: &str,
    out: &mut String,
) -> Result<(), AllocError> {
    for words in question.split("; ") {
        put_commit(alloc, kept, words, out)?;
    }
    out.push_str(" |")?;
    tell_offsets(&kept.offsets, out)
}

fn put_commit(
    alloc: Global,
    kept: &mut Kept,
    words: &str,
    out: &mut String,
) -> Result<(), AllocError> {
    let request = request_of(alloc, words)?;
    put_codes(alloc, kept, &request, out)
}

fn put_codes(
    alloc: Global,
    kept: &mut Kept,
    request: &CommitRequest<'_>,
    out: &mut String,
) -> Result<(), AllocError> {
    let reply = commit(alloc, kept, request, out)?;
    tell_codes(&reply, out)
}

fn nothing_committed(alloc: Global, hasher: RandomState) -> Result<Kept, AllocError> {
    let mut topics = Vec::new(alloc);
    topics.push(entry_of(alloc, "t", Uuid::from_u128(1), 2)?)?;
    topics.push(entry_of(alloc, "u", Uuid::from_u128(2), 1)?)?;
    let image = Image::of(alloc, topics).map_err(|_| AllocError)?;
    Ok(Kept {
        offsets: Offsets::new(alloc, hasher),
        records: Records::new(alloc, hasher),
        image,
    })
}

/// What a commit is answered. Where a growth is refused nothing may have changed, and the commit comes once more.
fn commit<'a>(
    alloc: Global,
    kept: &mut Kept,
    request: &CommitRequest<'a>,
    out: &mut String,
) -> Result<CommitReply<'a>, AllocError> {
    let before = told(alloc, &kept.offsets)?;
    let Kept {
        offsets,
        records,
        image,
    } = kept;
    if let Ok(reply) = offsets.commit(records, request, image) {
        return Ok(reply);
    }
    if told(alloc, offsets)? != before {
        out.push_str("a refused growth has changed the offsets ")?;
    }
    offsets.commit(records, request, image)
}

fn told(alloc: Global, offsets: &Offsets) -> Result<String, AllocError> {
    let mut text = String::new(alloc);
    tell_offsets(offsets, &mut text)?;
    Ok(text)
}

fn tell_offsets(offsets: &Offsets, out: &mut String) -> Result<(), AllocError> {
    for (name, index) in SHOWN {
        out.push(' ')?;
        match offsets.committed(name, index) {
            Some(committed) => tell_committed(committed, out)?,
            None => out.push('-')?,
        }
    }
    Ok(())
}

fn tell_committed(committed: &Committed, out: &mut String) -> Result<(), AllocError> {
    write!(out, "{}@{}", committed.offset(), committed.leader_epoch())?;
    match committed.metadata() {
        Some(metadata) => write!(out, "/{metadata}"),
        None => Ok(()),
    }
}
