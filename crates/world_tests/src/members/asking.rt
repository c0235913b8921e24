//! Members that ask and commit.

use super::standing::{Answer, Standing};
use crate::offsets::offsets_of;
use member_core::{BeatFault, Commits, Gone, Kind, Member, Present, Quit, Sent};
use std::alloc::Global;
use test_support::tables::{cut, number};

/// What becomes of a member inside its group that is to ask.
#[derive(Drop)]
enum Inside<S: Present> {
    Waits(Member<Sent<S>>, Vec<u8>),
    Gone(Member<Gone>, Vec<u8>),
    Stays(Member<S>, Answer),
}

/// Lets a member ask.
pub fn ask(standing: Standing, step: &str) -> (Standing, Answer) {
    match standing {
        Standing::Outside(member) if step == "join" => match member.join() {
            Ok((member, frame)) => (Standing::Joining(member), Answer::Frame(frame)),
            Err((member, fault)) => (Standing::Outside(member), Answer::Refused(fault)),
        },
        Standing::Steady(member) => match ask_inside(member, step) {
            Inside::Waits(member, frame) => (Standing::BeatingSteady(member), Answer::Frame(frame)),
            Inside::Gone(member, frame) => (Standing::Gone(member), Answer::Frame(frame)),
            Inside::Stays(member, answer) => (Standing::Steady(member), answer),
        },
        Standing::Releasing(member) => match ask_inside(member, step) {
            Inside::Waits(member, frame) => {
                (Standing::BeatingReleasing(member), Answer::Frame(frame))
            }
            Inside::Gone(member, frame) => (Standing::Gone(member), Answer::Frame(frame)),
            Inside::Stays(member, answer) => (Standing::Releasing(member), answer),
        },
        standing => (standing, Answer::NoCall),
    }
}

fn ask_inside<S: Present>(member: Member<S>, step: &str) -> Inside<S> {
    match step {
        "beat short" => beat(member, Kind::Short),
        "beat owned" => beat(member, Kind::Owned),
        "beat full" => beat(member, Kind::Full),
        "leave" => quit(member, Quit::Leave),
        "away" => quit(member, Quit::Away),
        _ => Inside::Stays(member, Answer::NoCall),
    }
}

fn beat<S: Present>(member: Member<S>, kind: Kind) -> Inside<S> {
    match member.beat(kind) {
        Ok((member, frame)) => Inside::Waits(member, frame),
        Err((member, fault)) => Inside::Stays(member, Answer::Refused(fault)),
    }
}

fn quit<S: Present>(member: Member<S>, quit: Quit) -> Inside<S> {
    match member.quit(quit) {
        Ok((member, frame)) => Inside::Gone(member, frame),
        Err((member, fault)) => Inside::Stays(member, Answer::Refused(fault)),
    }
}

/// Lets a member commit offset 5 of partitions of the topic `t`. The words say the correlation id, the first index, and how many.
pub fn commit(alloc: Global, standing: &Standing, words: &str) -> Answer {
    match standing {
        Standing::Steady(member) => commit_inside(alloc, member, words),
        Standing::Releasing(member) => commit_inside(alloc, member, words),
        Standing::BeatingSteady(member) => commit_inside(alloc, member, words),
        Standing::BeatingReleasing(member) => commit_inside(alloc, member, words),
        _ => Answer::NoCall,
    }
}

fn commit_inside<S: Commits>(alloc: Global, member: &Member<S>, words: &str) -> Answer {
    match commit_frame(alloc, member, words) {
        Ok(frame) => Answer::Frame(frame),
        Err(fault) => Answer::Refused(fault),
    }
}

fn commit_frame<S: Commits>(
    alloc: Global,
    member: &Member<S>,
    words: &str,
) -> Result<Vec<u8>, BeatFault> {
    let (correlation, words) = cut(words);
    let (first, count) = cut(words);
    let topics = offsets_of(alloc, number(first), number(count))?;
    member.commit(number(correlation), topics)
}
