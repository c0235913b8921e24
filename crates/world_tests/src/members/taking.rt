//! Members that take replies, give up and release.

use super::standing::{Answer, Standing};
use crate::parts::first_topic;
use member_core::{BeatFault, Idle, Member, Next, Partition, Released, Sent};
use std::alloc::Global;
use test_support::tables::number;

/// What became of a member that waited in the state `S` and was given bytes.
#[derive(Drop)]
enum Taken<S: Idle> {
    Moved(Standing, Answer),
    Back(Member<S>, Answer),
    Waits(Member<Sent<S>>, Answer),
}

/// Gives the bytes to the member.
pub fn give(alloc: Global, standing: &mut Standing, body: &[u8]) -> Answer {
    let (now, answer) = after_taking(standing.take_out(alloc), body);
    standing.put(now);
    answer
}

/// Gives each proper beginning of the bytes to the member, which is to wait on, and then the bytes.
pub fn give_whole(alloc: Global, standing: &mut Standing, body: &[u8]) -> Answer {
    for length in 0..body.len() {
        match give(alloc, standing, &body[..length]) {
            Answer::Still | Answer::NoCall => {}
            Answer::Refused(fault) => return Answer::Refused(fault),
            _ => return Answer::TooSoon,
        }
    }
    give(alloc, standing, body)
}

fn after_taking(standing: Standing, body: &[u8]) -> (Standing, Answer) {
    match standing {
        Standing::Joining(member) => match take_reply(member, body) {
            Taken::Moved(standing, answer) => (standing, answer),
            Taken::Back(member, answer) => (Standing::Outside(member), answer),
            Taken::Waits(member, answer) => (Standing::Joining(member), answer),
        },
        Standing::BeatingSteady(member) => match take_reply(member, body) {
            Taken::Moved(standing, answer) => (standing, answer),
            Taken::Back(member, answer) => (Standing::Steady(member), answer),
            Taken::Waits(member, answer) => (Standing::BeatingSteady(member), answer),
        },
        Standing::BeatingReleasing(member) => match take_reply(member, body) {
            Taken::Moved(standing, answer) => (standing, answer),
            Taken::Back(member, answer) => (Standing::Releasing(member), answer),
            Taken::Waits(member, answer) => (Standing::BeatingReleasing(member), answer),
        },
        standing => (standing, Answer::NoCall),
    }
}

fn take_reply<S: Idle>(member: Member<Sent<S>>, body: &[u8]) -> Taken<S> {
    match member.take(body) {
        Next::Steady(member) => Taken::Moved(Standing::Steady(member), Answer::Done),
        Next::Releasing(member) => Taken::Moved(Standing::Releasing(member), Answer::Done),
        Next::Outside(member) => Taken::Moved(Standing::Outside(member), Answer::Done),
        Next::Gone(member, code) => Taken::Moved(Standing::Gone(member), Answer::Gone(code)),
        Next::Kept(member, code) => Taken::Back(member, Answer::Kept(code)),
        Next::Still(member) => Taken::Waits(member, Answer::Still),
        Next::NoMemory(member) => Taken::Waits(member, Answer::Refused(BeatFault::NoMemory)),
    }
}

/// Lets the member give up, where it waits.
pub fn give_up(standing: Standing) -> (Standing, Answer) {
    match standing {
        Standing::Joining(member) => (Standing::Outside(member.give_up()), Answer::Done),
        Standing::BeatingSteady(member) => (Standing::Steady(member.give_up()), Answer::Done),
        Standing::BeatingReleasing(member) => (Standing::Releasing(member.give_up()), Answer::Done),
        standing => (standing, Answer::NoCall),
    }
}

/// Lets the member release an index of the topic `U`, where it has to release any.
pub fn release(standing: Standing, index: &str) -> (Standing, Answer) {
    let partition = Partition {
        topic: first_topic(),
        index: number(index),
    };
    match standing {
        Standing::Releasing(member) => match member.release(&partition) {
            Released::Steady(member) => (Standing::Steady(member), Answer::Done),
            Released::Releasing(member) => (Standing::Releasing(member), Answer::Done),
        },
        standing => (standing, Answer::NoCall),
    }
}
