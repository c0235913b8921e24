//! The answers to requests.

ghost use Rattle.std.specs.Prelude.{◌≡◌, IfOk, OnErr};
ghost use Rattle.futures.specs.Task.{Covers, Keeps};
ghost use Rattle.futures.specs.Poll.{OnPending};
ghost use Rattle.broker_topics.specs.Answers.{Appends};

use crate::fetch::Fetched;
use crate::frame::put_frame;
use crate::held::Held;
use crate::limits::LARGEST_REQUEST;
use crate::produce::Produced;
use crate::request::{TopicsAnswer, TopicsRequest, Unanswered};
use crate::topics::Topics;
use broker_messages::{ApiVersionsReply, ApiVersionsRequest, BrokerApi, PutFields, ReplyHead};
use futures::task::{Context, Poll, Source};
use std::alloc::{AllocError, Global};
use std::sync::Wait;

/// The error code of an answer to an unknown version of ApiVersions (Kafka protocol guide, "Error Codes").
const UNSUPPORTED_VERSION: i16 = 35;

/// Answers a request of a version that isn't spoken. One of ApiVersions is answered in version 0, with the error UNSUPPORTED_VERSION
/// (35), so that the client can ask again; any other closes. Fails for want of memory, and nothing was appended then.
pub fn answer_unknown_version(
    alloc: Global,
    head: &ReplyHead,
    out: &mut Vec<u8>,
) -> Result<TopicsAnswer, AllocError>
    ensures ok { IfOk result (λ answer. Appends answer head.now.correlation_id out.old.items out.new.items) }
    ensures err { OnErr result (out.new.items ≡ out.old.items) }
{
    if head.api != BrokerApi::ApiVersions {
        return Ok(TopicsAnswer::Closes);
    }
    let head = ReplyHead {
        api: head.api,
        version: 0,
        correlation_id: head.correlation_id,
    };
    let reply = ApiVersionsReply {
        error_code: UNSUPPORTED_VERSION,
        throttle_time_ms: 0,
    };
    match put(alloc, &head, &reply, out) {
        Ok(answer) => Ok(answer),
        Err(Unanswered::Closes) => Ok(TopicsAnswer::Closes),
        Err(Unanswered::NoMemory) => Err(AllocError),
    }
}

/// Appends the frame of a reply.
fn put<M: PutFields>(
    alloc: Global,
    head: &ReplyHead,
    message: &M,
    out: &mut Vec<u8>,
) -> Result<TopicsAnswer, Unanswered>
    ensures ok { IfOk result (λ answer. Appends answer head.now.correlation_id out.old.items out.new.items) }
    ensures err { OnErr result (out.new.items ≡ out.old.items) }
{
    put_frame(alloc, head, message, out)?;
    Ok(TopicsAnswer::Replied)
}

/// The answer to ApiVersions.
fn api_versions(
    alloc: Global,
    request: &TopicsRequest<'_>,
) -> Result<ApiVersionsReply, Unanswered> {
    let _client = ApiVersionsRequest::read(alloc, request.head.version, request.rest)?;
    Ok(ApiVersionsReply {
        error_code: 0,
        throttle_time_ms: 0,
    })
}

impl Topics {
    /// Answers a request: appends one frame, or nothing. Closes if the request can't be read or is of an API of groups, if it has more than
    /// 1,048,576 bytes and isn't a Produce, and if its reply would be too long. Fails for want of memory, and nothing was appended then.
    pub fn answer<R: Wait>(
        &self,
        rt: &R,
        alloc: Global,
        request: &TopicsRequest<'_>,
        out: &mut Vec<u8>,
    ) -> Result<TopicsAnswer, AllocError>
        ensures ok { IfOk result (λ answer. Appends answer request.now.head.correlation_id out.old.items out.new.items) }
        ensures err { OnErr result (out.new.items ≡ out.old.items) }
    {
        match self.reply(rt, alloc, request, out) {
            Ok(answer) => Ok(answer),
            Err(Unanswered::Closes) => Ok(TopicsAnswer::Closes),
            Err(Unanswered::NoMemory) => Err(AllocError),
        }
    }

    fn reply<R: Wait>(
        &self,
        rt: &R,
        alloc: Global,
        request: &TopicsRequest<'_>,
        out: &mut Vec<u8>,
    ) -> Result<TopicsAnswer, Unanswered>
        ensures ok { IfOk result (λ answer. Appends answer request.now.head.correlation_id out.old.items out.new.items) }
        ensures err { OnErr result (out.new.items ≡ out.old.items) }
    {
        let head = request.head.reply();
        if head.api != BrokerApi::Produce && request.rest.len() > LARGEST_REQUEST {
            return Err(Unanswered::Closes);
        }
        match head.api {
            BrokerApi::ApiVersions => put(alloc, &head, &api_versions(alloc, request)?, out),
            BrokerApi::Metadata => put(alloc, &head, &self.metadata(alloc, request)?, out),
            BrokerApi::FindCoordinator => {
                put(alloc, &head, &self.find_coordinator(alloc, request)?, out)
            }
            BrokerApi::InitProducerId => {
                put(alloc, &head, &self.init_producer_id(alloc, request)?, out)
            }
            BrokerApi::ListOffsets => {
                put(alloc, &head, &self.list_offsets(rt, alloc, request)?, out)
            }
            BrokerApi::OffsetForLeaderEpoch => {
                put(
                    alloc,
                    &head,
                    &self.offset_for_leader_epoch(rt, alloc, request)?,
                    out,
                )
            }
            BrokerApi::Produce => {
                let produced = self.produce(rt, alloc, request)?;
                put_produced(alloc, &head, &produced, out)
            }
            BrokerApi::Fetch => {
                let fetched = self.fetch(rt, alloc, request)?;
                put_fetched(alloc, &head, fetched, out)
            }
            BrokerApi::OffsetCommit
            | BrokerApi::OffsetFetch
            | BrokerApi::ListGroups
            | BrokerApi::ConsumerGroupHeartbeat
            | BrokerApi::ConsumerGroupDescribe => Err(Unanswered::Closes),
        }
    }

    /// Whether a held reply may go: enough bytes were appended since it was made. Until then a producer wakes the task of the worker, whose
    /// bell the source names. Its time is not looked at.
    pub fn poll_grown<R: Wait>(
        &self,
        rt: &R,
        cx: &mut Context<'_>,
        source: &Source,
        worker: usize,
        held: &Held,
    ) -> Poll<()>
        ensures registered { OnPending result (Covers cx.new (λ heard. heard ≡ source.now.id)) }
        ensures kept { Keeps cx.old cx.new }
    {
        let pending = self.bells.listen(rt, cx, source, worker);
        // The task listens before this looks, so that no growth is missed.
        if self.has_grown(rt, worker, held) {
            return Poll::Ready(());
        }
        pending
    }
}

/// Appends the frame of a reply to a Produce, if there is one. One with `acks` 0 has none, and closes after an error, since its client can
/// learn of that in no other way.
fn put_produced(
    alloc: Global,
    head: &ReplyHead,
    produced: &Produced<'_>,
    out: &mut Vec<u8>,
) -> Result<TopicsAnswer, Unanswered>
    ensures ok { IfOk result (λ answer. Appends answer head.now.correlation_id out.old.items out.new.items) }
    ensures err { OnErr result (out.new.items ≡ out.old.items) }
{
    if produced.acks != 0 {
        return put(alloc, head, &produced.reply, out);
    }
    if produced.has_error {
        return Ok(TopicsAnswer::Closes);
    }
    Ok(TopicsAnswer::NoReply)
}

/// Appends the frame of a reply to a Fetch, which may be held.
fn put_fetched(
    alloc: Global,
    head: &ReplyHead,
    fetched: Fetched<'_>,
    out: &mut Vec<u8>,
) -> Result<TopicsAnswer, Unanswered>
    ensures ok { IfOk result (λ answer. Appends answer head.now.correlation_id out.old.items out.new.items) }
    ensures err { OnErr result (out.new.items ≡ out.old.items) }
{
    let Fetched { reply, held } = fetched;
    put_frame(alloc, head, &reply, out)?;
    match held {
        Some(held) => Ok(TopicsAnswer::Held(held)),
        None => Ok(TopicsAnswer::Replied),
    }
}
