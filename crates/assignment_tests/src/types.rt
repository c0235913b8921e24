//! The types of `group_types`: codes and their texts, names of assignors, ids and sets.

use crate::members::id_of;
use crate::parts::{part, put_parts, set_of};
use group_types::{AssignorName, Code, EpochNumber, MemberId, NameSet, PartSet, Wanted};
use std::alloc::{AllocError, Global};
use std::test::Fail;
use test_support::tables::{Answers, add_wrong_pairs, cut, number, part_words, wrong_rows};

/// What is made of numbers, of a text, or of partitions or names that are inserted one after the other: each is new or not.
const TABLE: &str = "
id b = b
copy b = b
made 0 1 = 00000000-0000-0000-0000-000000000001
made 81985529216486895 65244 = 01234567-89ab-cdef-0000-00000000fedc
assignor range = range
assignor uniform = uniform
assignor Range = none
assignor - = none
parts 2.0 1.1 1.0 1.1 = true true true false, 1.0 1.1 2.0
list 1.0,2.0,1.0 = 1.0 2.0
copied 1.0,2.0 = 1.0 2.0
wanted 1.0 = 1.0
wanted - = -
names b a b = true true false, a b, copied a b
more b,a c = a b c
";

// The numbers stand in the Kafka protocol guide, "Error Codes".
const CODES: [(&str, &str); 1] = [(
    "codes",
    r#"
NoError 0 None
UnknownTopicOrPartition 3 None
OffsetMetadataTooLarge 12 None
CoordinatorNotAvailable 15 Some("coordinator not available")
UnknownMemberId 25 Some("unknown member")
InvalidRequest 42 Some("invalid request")
GroupIdNotFound 69 None
GroupMaxSizeReached 81 Some("group is full")
FencedMemberEpoch 110 Some("fenced member epoch")
UnreleasedInstanceId 111 Some("instance id in use")
UnsupportedAssignor 112 Some("unknown assignor")
StaleMemberEpoch 113 None
"#,
)];

#[test]
fn codes_ids_and_sets(rt: HostRuntime) -> Result<(), Fail> {
    let mut wrong = wrong_rows(rt.alloc(), &Types, TABLE)?;
    add_wrong_pairs(rt.alloc(), &Types, &CODES, &mut wrong)?;
    assert_eq!(rt; wrong.as_str(), "");
    Ok(())
}

struct Types;

impl Answers for Types {
    fn answer(&self, alloc: Global, question: &str, out: &mut String) -> Result<(), AllocError> {
        let (call, words) = cut(question);
        match call {
            "codes" => tell_codes(out),
            "assignor" => out.push_str(AssignorName::of(words).map_or(
                "none",
                |name| name.as_str(),
            )),
            "id" | "copy" | "made" => tell_id(alloc, call, words, out),
            "parts" => tell_parts(alloc, words, out),
            "names" => tell_names(alloc, words, out),
            "more" => tell_more(alloc, words, out),
            _ => put_parts(&set_made(alloc, call, words)?, out),
        }
    }
}

fn tell_codes(out: &mut String) -> Result<(), AllocError> {
    for code in [
        Code::NoError,
        Code::UnknownTopicOrPartition,
        Code::OffsetMetadataTooLarge,
        Code::CoordinatorNotAvailable,
        Code::UnknownMemberId,
        Code::InvalidRequest,
        Code::GroupIdNotFound,
        Code::GroupMaxSizeReached,
        Code::FencedMemberEpoch,
        Code::UnreleasedInstanceId,
        Code::UnsupportedAssignor,
        Code::StaleMemberEpoch,
    ] {
        writeln!(out, "{code:?} {} {:?}", code.number(), code.text())?;
    }
    Ok(())
}

/// Tells an id that is made of a text, as the copy of that, or of two numbers.
fn tell_id(alloc: Global, call: &str, words: &str, out: &mut String) -> Result<(), AllocError> {
    let (first, second) = cut(words);
    let id = match call {
        "made" => MemberId::made(alloc, number(first), number(second))?,
        "copy" => id_of(alloc, first)?.copy(alloc)?,
        _ => id_of(alloc, first)?,
    };
    out.push_str(id.as_str())
}

/// The set of a list, its copy, or the copy of what is wanted of a member.
fn set_made(alloc: Global, call: &str, words: &str) -> Result<PartSet, AllocError> {
    let set = set_of(alloc, words)?;
    match call {
        "copied" => set.copy(alloc),
        "wanted" => Wanted::new(
            Some(&set).filter(|set| !set.is_empty()),
            EpochNumber::zero(),
        )
        .copy_set(alloc),
        _ => Ok(set),
    }
}

fn tell_parts(alloc: Global, words: &str, out: &mut String) -> Result<(), AllocError> {
    let mut set = PartSet::new(alloc);
    for word in words.split(' ') {
        part_words(out)?;
        write!(out, "{}", set.insert(part(word))?)?;
    }
    out.push(',')?;
    put_parts(&set, out)
}

fn tell_names(alloc: Global, words: &str, out: &mut String) -> Result<(), AllocError> {
    let mut names = NameSet::new(alloc);
    insert_names(alloc, &mut names, words, out)?;
    put_names(&names, out)?;
    out.push_str(", copied")?;
    put_names(&names.copy(alloc)?, out)
}

/// Inserts names, and tells which of them are new.
fn insert_names(
    alloc: Global,
    names: &mut NameSet,
    words: &str,
    out: &mut String,
) -> Result<(), AllocError> {
    for name in words.split(' ') {
        part_words(out)?;
        write!(out, "{}", names.insert(alloc, name)?)?;
    }
    out.push(',')
}

/// Tells all names of two sets.
fn tell_more(alloc: Global, words: &str, out: &mut String) -> Result<(), AllocError> {
    let (first, second) = cut(words);
    let mut names = names_of(alloc, first)?;
    names.add_all(alloc, &names_of(alloc, second)?)?;
    put_names(&names, out)
}

/// The set of names that are parted by commas.
pub fn names_of(alloc: Global, words: &str) -> Result<NameSet, AllocError> {
    let mut names = NameSet::new(alloc);
    for name in words.split(',') {
        names.insert(alloc, name)?;
    }
    Ok(names)
}

/// Appends the names of a set in its order.
fn put_names(names: &NameSet, out: &mut String) -> Result<(), AllocError> {
    for name in names.iter() {
        part_words(out)?;
        out.push_str(name.as_str())?;
    }
    Ok(())
}
