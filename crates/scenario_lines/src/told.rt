//! Why lines of `coord run` came to nothing, in words.

use crate::refusals::{code_of, numbered};
use crate::sentences::{behind, no_group, no_member};
use crate::story::{Client, Epochs, Sent, Story, standing_of};
use crate::verb::Verb;
use group_types::Code;
use group_types::limits::{LARGEST_BODY, MOST_MEMBERS};
use scenario_text::command_line::escaped;
use std::alloc::{AllocError, Global};
use world_sim::{ClientState, World, WorldFault};

/// The epoch of a reply by which a static member has gone away.
const AWAY: i32 = -2;

/// That a heartbeat was overtaken.
pub fn overtaken(alloc: Global) -> Result<String, AllocError> {
    let text =
        "the heartbeat was overtaken: it, or a later one of its client, was delivered before";
    String::from_str(alloc, text)
}

/// Why the request with a number was answered with the code of this number, where that is a refusal.
pub fn of_heartbeat(
    alloc: Global,
    story: &Story,
    request: usize,
    number: i16,
) -> Result<Option<String>, AllocError> {
    let Some(code) = code_of(number) else {
        return Ok(None);
    };
    let sent = story.request(request);
    let reason = match sent.and_then(|sent| Some((sent, story.client(sent.client)?))) {
        Some((sent, client)) => of_sent(alloc, story, sent, client, code)?,
        None => String::from_str(alloc, code.text().unwrap_or_default())?,
    };
    numbered(alloc, code, reason.as_str())
}

/// Why a client's request was refused with a code.
fn of_sent(
    alloc: Global,
    story: &Story,
    sent: &Sent,
    client: &Client,
    code: Code,
) -> Result<String, AllocError> {
    let (group, id) = (client.group.as_str(), sent.id.as_str());
    match code {
        Code::UnknownMemberId => no_member(alloc, group, id),
        Code::FencedMemberEpoch => {
            let epochs = story.epochs(group, id)?;
            of_epoch(alloc, "heartbeat", sent, epochs)
        }
        Code::UnreleasedInstanceId => unreleased(alloc, story, client),
        Code::UnsupportedAssignor => {
            let assignor = escaped(alloc, client.assignor.as_str())?;
            format!(in alloc; "the assignor {assignor} is neither range nor uniform")
        }
        Code::GroupMaxSizeReached => {
            let group = escaped(alloc, group)?;
            format!(in alloc; "group {group} has {MOST_MEMBERS} members")
        }
        Code::CoordinatorNotAvailable => {
            let text = "there is no room for another group, member id or epoch";
            String::from_str(alloc, text)
        }
        _ => String::from_str(alloc, code.text().unwrap_or_default()),
    }
}

/// That a message came at another epoch than that of its member.
fn of_epoch(
    alloc: Global,
    what: &str,
    sent: &Sent,
    epochs: Option<Epochs>,
) -> Result<String, AllocError> {
    match epochs {
        Some(epochs) if epochs.present == AWAY => behind(alloc, what, sent.epoch, None),
        Some(epochs) => behind(alloc, what, sent.epoch, Some(epochs.present)),
        None => format!(in alloc; "{what} at epoch {}, the member is at another", sent.epoch),
    }
}

/// UNRELEASED_INSTANCE_ID.
fn unreleased(alloc: Global, story: &Story, client: &Client) -> Result<String, AllocError> {
    let instance = escaped(alloc, client.instance.as_str())?;
    match story.holder(client.group.as_str(), client.instance.as_str())? {
        Some(other) => {
            let name = escaped(alloc, other.name.as_str())?;
            format!(in alloc;
                "instance {instance} is client {name}'s, which has not left with epoch -2"
            )
        }
        None => format!(in alloc; "instance {instance} is another member's"),
    }
}

/// Why the commit with a number was answered with a code.
pub fn of_commit(
    alloc: Global,
    story: &Story,
    commit: usize,
    code: Code,
) -> Result<Option<String>, AllocError> {
    let sent = story.commit(commit);
    let Some((sent, client)) = sent.and_then(|sent| Some((sent, story.client(sent.client)?))) else {
        return numbered(alloc, code, "the commit was refused");
    };
    let (group, id) = (client.group.as_str(), sent.id.as_str());
    let reason = match code {
        Code::UnknownMemberId => no_member(alloc, group, id)?,
        Code::GroupIdNotFound => no_group(alloc, group)?,
        Code::StaleMemberEpoch => {
            let epochs = story.epochs(group, id)?;
            of_epoch(alloc, "commit", sent, epochs)?
        }
        _ => {
            let place = escaped(alloc, sent.place.as_str())?;
            format!(in alloc; "there is no {place}")?
        }
    };
    numbered(alloc, code, reason.as_str())
}

/// That nobody has the name which the first word is.
pub fn no_client(alloc: Global, words: &[&str]) -> Result<String, AllocError> {
    let name = escaped(alloc, words.first().copied().unwrap_or_default())?;
    format!(in alloc; "no client is named {name}")
}

/// That no message has the number which the first word is.
pub fn no_message(alloc: Global, verb: Verb, words: &[&str]) -> Result<String, AllocError> {
    let number = words.first().copied().unwrap_or_default();
    let kind = match verb {
        Verb::Take => "reply",
        Verb::Bring => "commit",
        _ => "request",
    };
    format!(in alloc; "there is no {kind} {number}")
}

/// That a request is larger than a frame may be.
pub fn too_large(alloc: Global) -> Result<String, AllocError> {
    format!(in alloc; "the request would have more than {LARGEST_BODY} bytes")
}

/// That the id which the request with a number names is forgotten.
pub fn forgotten(alloc: Global, story: &Story, request: usize) -> Result<String, AllocError> {
    let sent = story.request(request);
    let Some((sent, client)) = sent.and_then(|sent| Some((sent, story.client(sent.client)?))) else {
        return String::from_str(alloc, "the group has forgotten the member id");
    };
    let (group, id) = (escaped(alloc, client.group.as_str())?, sent.id.as_str());
    format!(in alloc; "group {group} has forgotten the member id {id}")
}

/// Why the state of a client doesn't allow an act.
pub fn wrong_state(
    alloc: Global,
    verb: Verb,
    client: Option<&Client>,
    state: ClientState,
) -> Result<String, AllocError> {
    let Some(client) = client else {
        return String::from_str(alloc, "the state of the client does not allow it");
    };
    let name = escaped(alloc, client.name.as_str())?;
    if verb == Verb::Lose {
        return format!(in alloc; "client {name} waits for no reply");
    }
    if let Some(reason) = of_waiting(alloc, verb, client)? {
        return Ok(reason);
    }
    match (state, verb) {
        (ClientState::Outside, _) => format!(in alloc; "client {name} has not joined"),
        (ClientState::Gone, _) => format!(in alloc; "client {name} has left"),
        (_, Verb::Join) => format!(in alloc; "client {name} is a member already"),
        (_, Verb::Quit) => format!(in alloc; "client {name} has no instance id"),
        (_, Verb::Release) => format!(in alloc; "client {name} has nothing to revoke"),
        _ => format!(in alloc; "client {name} has no number left for a request"),
    }
}

/// That a client waits for a reply, where an act isn't allowed then.
fn of_waiting(alloc: Global, verb: Verb, client: &Client) -> Result<Option<String>, AllocError> {
    match client.waits {
        Some(request) if verb != Verb::Commit => {
            let name = escaped(alloc, client.name.as_str())?;
            let reason = format!(in alloc;
                "client {name} waits for the reply to request {request}"
            )?;
            Ok(Some(reason))
        }
        _ => Ok(None),
    }
}

/// Why a world isn't settled.
pub fn unsettled(
    alloc: Global,
    story: &Story,
    world: &World,
    fault: WorldFault,
) -> Result<String, AllocError> {
    match fault {
        WorldFault::TooLarge => return too_large(alloc),
        WorldFault::NoMemory => return String::from_str(alloc, "out of memory"),
        _ => {}
    }
    for (place, client) in story.clients().iter().enumerate() {
        if let Some(reason) = of_unsettled(alloc, story, world, place + 1, client)? {
            return Ok(reason);
        }
    }
    let text = "a client's member was removed, or a member is no client's, or is away";
    String::from_str(alloc, text)
}

/// Why the client with a number doesn't let a world be settled, as far as it is known by itself.
fn of_unsettled(
    alloc: Global,
    story: &Story,
    world: &World,
    number: usize,
    client: &Client,
) -> Result<Option<String>, AllocError> {
    let Some(standing) = standing_of(world, number) else {
        return Ok(None);
    };
    let reason = of_waiting(alloc, Verb::Settle, client)?;
    if reason.is_some() {
        return Ok(reason);
    }
    let name = escaped(alloc, client.name.as_str())?;
    match standing.state {
        ClientState::Outside => return Ok(Some(format!(in alloc; "client {name} has not joined")?)),
        ClientState::Gone => return Ok(Some(format!(in alloc; "client {name} has left")?)),
        ClientState::Steady | ClientState::Releasing => {}
    }
    let epoch = standing.epoch;
    match story.epochs(client.group.as_str(), standing.id)? {
        Some(Epochs { present, previous }) if epoch != present && epoch != previous => {
            let reason = format!(in alloc;
                "client {name} is at epoch {epoch}, and its member at {present}"
            )?;
            Ok(Some(reason))
        }
        _ => Ok(None),
    }
}
