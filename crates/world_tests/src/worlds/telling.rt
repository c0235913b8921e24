//! What acts show, and what is to be seen of clients.

use crate::parts::tell_parts;
use kip_msgs::{Api, Assignment, Reply, TopicPartitions, read_reply};
use member_core::{PartSet, Partition};
use std::alloc::{AllocError, Global};
use test_support::courses::OUT_OF_MEMORY;
use test_support::tables::part_words;
use world_sim::{ClientState, ClientView, Shown, World, WorldFault};

/// Appends all clients: each as its state and `ID@EPOCH:OWN`.
pub fn tell_clients(world: &World, out: &mut String) -> Result<(), AllocError> {
    for number in 1..4 {
        if let Some(client) = world.client(number) {
            tell_client(client, out)?;
        }
    }
    Ok(())
}

fn tell_client(client: ClientView<'_>, out: &mut String) -> Result<(), AllocError> {
    let ClientView {
        state,
        id,
        epoch,
        own,
    } = client;
    part_words(out)?;
    let id = id.map(last_digit).unwrap_or("-");
    write!(out, "{} {id}@{}:", state_word(state), epoch.as_u32())?;
    tell_parts(own, out)
}

/// What stands behind the zeros of an id.
fn last_digit(id: &str) -> &str {
    id.rsplit_once('0').map(|(_, digit)| digit).unwrap_or(id)
}

fn state_word(state: ClientState) -> &'static str {
    match state {
        ClientState::Outside => "outside",
        ClientState::Steady => "steady",
        ClientState::Releasing => "releasing",
        ClientState::Gone => "gone",
    }
}

/// Appends what an act shows, or the number of the fault.
pub fn tell_outcome(
    alloc: Global,
    world: &World,
    outcome: &Result<Shown, WorldFault>,
    out: &mut String,
) -> Result<(), AllocError> {
    match outcome {
        Ok(Shown::Sent { request }) => write!(out, "sent {request}"),
        Ok(Shown::Replied { reply }) => tell_reply(alloc, world, *reply, out),
        Ok(Shown::Closed) => out.push_str("closed"),
        Ok(Shown::Is { state }) => out.push_str(state_word(*state)),
        Ok(Shown::Ignored) => out.push_str("ignored"),
        Ok(Shown::Committed { commit }) => write!(out, "commit {commit}"),
        Ok(Shown::Answered { reply }) => tell_codes(alloc, reply.body(), out),
        Ok(Shown::Removed { members }) => write!(out, "removed {members}"),
        Ok(Shown::Done) => out.push_str("done"),
        Err(WorldFault::NoMemory) => out.push_str(OUT_OF_MEMORY),
        Err(fault) => write!(out, "refused {}", fault.number()),
    }
}

/// Appends what stands in the reply with a number: its code, the member epoch, and what it shows.
fn tell_reply(
    alloc: Global,
    world: &World,
    number: usize,
    out: &mut String,
) -> Result<(), AllocError> {
    let body = world.reply(number).unwrap_or(&[]);
    match read_reply(alloc, Api::Heartbeat, body) {
        Ok(reply) => {
            let told = tell_heartbeat(alloc, number, &reply, out);
            drop(reply);
            told
        }
        Err(_) => Err(AllocError),
    }
}

fn tell_heartbeat(
    alloc: Global,
    number: usize,
    reply: &Reply<'_>,
    out: &mut String,
) -> Result<(), AllocError> {
    let Reply::Heartbeat(_, reply) = reply else {
        return Err(AllocError);
    };
    write!(
        out,
        "reply {number} code {} epoch {} shows ",
        reply.error_code, reply.member_epoch
    )?;
    tell_shown(alloc, &reply.assignment, out)
}

fn tell_shown(
    alloc: Global,
    assignment: &Option<Assignment<'_>>,
    out: &mut String,
) -> Result<(), AllocError> {
    let Some(assignment) = assignment else {
        return out.push_str("null");
    };
    let set = set_of(alloc, assignment.topic_partitions.as_slice())?;
    tell_parts(&set, out)
}

/// The partitions of topics.
fn set_of(alloc: Global, topics: &[TopicPartitions<'_>]) -> Result<PartSet, AllocError> {
    let mut parts = Vec::new(alloc);
    for topic in topics {
        for index in topic.partitions.as_slice() {
            parts.push(Partition {
                topic: topic.topic_id,
                index: *index,
            })?;
        }
    }
    Ok(PartSet::of_vec(parts))
}

/// Appends the codes of the reply to a commit.
fn tell_codes(alloc: Global, body: &[u8], out: &mut String) -> Result<(), AllocError> {
    match read_reply(alloc, Api::Commit, body) {
        Ok(reply) => {
            let told = tell_commit(&reply, out);
            drop(reply);
            told
        }
        Err(_) => Err(AllocError),
    }
}

fn tell_commit(reply: &Reply<'_>, out: &mut String) -> Result<(), AllocError> {
    let Reply::Commit(_, reply) = reply else {
        return Err(AllocError);
    };
    out.push_str("code")?;
    for topic in reply.topics.as_slice() {
        for partition in topic.partitions.as_slice() {
            write!(out, " {}", partition.error_code)?;
        }
    }
    Ok(())
}
