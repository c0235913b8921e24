//! What the bytes of a reply tell a member.
ghost use Rattle.std.specs.Prelude.{◌≡◌, IfOk, MatchOption, pos};
ghost use Rattle.std.specs.Prelude.{◌≤◌, ◌<◌, ◌≤ℤ◌, length, IfSome};
ghost use Rattle.std.specs.Option.{option_copied, option_map};
ghost use Rattle.flex_wire.specs.Limits.{LONGEST_STRING};
ghost use Rattle.kip_msgs.specs.Views.{assignment_value};
ghost use Rattle.member_core.specs.Taking.{MeansSuccess, news_by, assigned};
ghost use Rattle.member_core.specs.Outcomes.{acceptance_news};

use crate::acceptance::Acceptance;
use crate::listing::partitions_of;
use crate::meaning::Meaning;
use group_types::{EpochNumber, MemberId, PartSet};
use kip_msgs::{Api, Assignment, HeartbeatReply, MsgFault, Reply, read_reply};
use std::alloc::{AllocError, Global};

/// What a reply tells.
#[derive(Drop)]
pub(crate) enum News {
    Accepts(Acceptance),
    Fences,
    Retries,
    Ends,
}

/// What a reply tells, and its error code.
#[derive(Drop)]
pub(crate) struct Report {
    pub(crate) news: News,
    pub(crate) code: i16,
}

impl Report {
    ghost use Rattle.kip_msgs.specs.Spelling.{FitsReply, FitsHeartbeatReply};
    ghost use Rattle.kip_msgs.specs.Views.{reply_value, heartbeat_reply_value};
    ghost use Rattle.member_core.specs.Taking.{news_of};
    ghost use Rattle.member_core.specs.Outcomes.{TellsNothing, IsReport, news_value, news_told, code_in};

    /// What the bytes tell as the reply to the request with the number, or nothing where they are no reply to it.
    /// Fails where memory is short.
    pub(crate) fn read(
        alloc: Global,
        number: u32,
        body: &[u8],
    ) -> Result<Option<Report>, AllocError>
        ensures { IfOk result (λ told. MatchOption told (TellsNothing number body.now) (λ r. IsReport number body.now r)) }
    {
        match read_reply(alloc, Api::Heartbeat, body) {
            Ok(reply) => Report::answering(alloc, number, &reply),
            Err(MsgFault::NoMemory) => Err(AllocError),
            Err(_) => Ok(None),
        }
    }

    /// What a reply tells as the one to the request with the number.
    fn answering(
        alloc: Global,
        number: u32,
        reply: &Reply<'_>,
    ) -> Result<Option<Report>, AllocError>
        requires { FitsReply (reply_value reply.now) }
        ensures news { IfOk result (λ told. option_map (λ r. news_value r.news) told ≡ news_told number (reply_value reply.now)) }
        ensures code { IfOk result (λ told. MatchOption told (Unit {0}) (λ r. r.code ≡ code_in (reply_value reply.now))) }
    {
        match reply {
            Reply::Heartbeat(header, reply)
                if i64::from(header.correlation_id) == i64::from(number) => {
                Report::of(alloc, reply)
            }
            _ => Ok(None),
        }
    }

    /// What a reply tells.
    fn of(alloc: Global, reply: &HeartbeatReply<'_>) -> Result<Option<Report>, AllocError>
        requires { FitsHeartbeatReply (heartbeat_reply_value reply.now) }
        ensures news { IfOk result (λ told. option_map (λ r. news_value r.news) told ≡ news_of (heartbeat_reply_value reply.now)) }
        ensures code { IfOk result (λ told. MatchOption told (Unit {0}) (λ r. r.code ≡ reply.now.error_code)) }
    {
        let code = reply.error_code;
        let news = match Meaning::of(code) {
            Meaning::Success => match acceptance_of(alloc, reply)? {
                Some(acceptance) => News::Accepts(acceptance),
                None => return Ok(None),
            },
            Meaning::Fenced => News::Fences,
            Meaning::Retry => News::Retries,
            Meaning::End => News::Ends,
        };
        Ok(Some(Report { news, code }))
    }
}

/// What a reply of success tells, or nothing without an id or below member epoch 1 (ours).
fn acceptance_of(
    alloc: Global,
    reply: &HeartbeatReply<'_>,
) -> Result<Option<Acceptance>, AllocError>
    requires { IfSome (option_copied reply.now.member_id) (λ id. length id ≤ LONGEST_STRING) }
    ensures { IfOk result (λ told. option_map acceptance_news told
        ≡ news_by MeansSuccess (option_copied reply.now.member_id) reply.now.member_epoch
        (option_map assigned (option_map assignment_value reply.now.assignment))) }
{
    let (Some(id), Some(epoch)) = (reply.member_id, member_epoch(reply.member_epoch)) else {
        return Ok(None);
    };
    Ok(Some(Acceptance {
        id: MemberId::of(alloc, id)?,
        epoch,
        assignment: set_of(alloc, &reply.assignment)?,
    }))
}

/// The member epoch of a member: 1 or more.
fn member_epoch(number: i32) -> Option<EpochNumber>
    ensures { MatchOption result (number ≤ℤ pos 0) (λ epoch. (pos epoch ≡ number) × (0 < epoch)) }
{
    match EpochNumber::of_i32(number) {
        Some(epoch) if epoch.as_u32() > 0 => Some(epoch),
        _ => None,
    }
}

/// The set of an assignment, where there is one.
fn set_of(alloc: Global, given: &Option<Assignment<'_>>) -> Result<Option<PartSet>, AllocError>
    ensures { IfOk result (λ set. set ≡ option_map assigned (option_map assignment_value given.now)) }
{
    match given {
        Some(assignment) => {
            let partitions = partitions_of(alloc, assignment.topic_partitions.as_slice())?;
            Ok(Some(PartSet::of_vec(partitions)))
        }
        None => Ok(None),
    }
}
