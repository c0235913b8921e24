//! What answers the other APIs.
ghost use Rattle.std.specs.Prelude.{◌≡◌, ◌⊎◌, IfOk, OnErr};
ghost use Rattle.broker_topics.specs.Answers.{Appends};
ghost use Rattle.broker_apis.specs.Told.{AppendsFor};

use crate::held::HeldFetch;
use crate::names::names_of;
use broker_desk::{OtherApis, OwnAnswer, TopicNames};
use broker_groups::GroupsRequest;
use broker_messages::{BrokerApi, HeadFault, read_head};
use broker_topics::{Topics, TopicsAnswer, TopicsRequest, answer_unknown_version};
use coord_node::Stamp;
use coord_server::{EndLog, Reason};
use coord_shards::Shards;
use flex_wire::take_i16;
use futures::task::{Context, Poll, Source};
use std::alloc::{AllocError, Global};
use std::sync::Wait;
use std::sync::ledger::Ledger;
use std::time::Clock;

/// What answers the other APIs for the clients of a worker: topics, and the groups of shards. The shards are only looked at.
#[derive(Drop)]
pub struct BrokerApis<'a, A: Ledger, C: Ledger, G, R> {
    pub rt: &'a R,
    pub alloc: Global,
    pub shards: &'a Shards<A, C, G>,
    pub topics: &'a Topics,
    /// Where it is noted why a connection is closed.
    pub log: &'a EndLog,
    /// The number of the worker.
    pub worker: usize,
}

impl<'a, A: Ledger, C: Ledger, G, R: Wait + Clock> BrokerApis<'a, A, C, G, R> {
    /// Answers a request: appends one frame, or nothing.
    fn told(&self, body: &[u8], out: &mut Vec<u8>) -> Result<TopicsAnswer, AllocError>
        ensures ok { IfOk result (λ answer. AppendsFor body.now answer out.old.items out.new.items) }
        ensures err { OnErr result (out.new.items ≡ out.old.items) }
    {
        match read_head(body) {
            Ok((head, rest)) => {
                let worker = self.worker;
                let request = TopicsRequest { head, rest, worker };
                let answer = self.told_of_request(&request, out)?;
                Ok(only_produce_is_silent(head.api, answer))
            }
            Err(HeadFault::UnknownVersion(head)) => {
                let answer = answer_unknown_version(self.alloc, &head, out)?;
                Ok(only_produce_is_silent(head.api, answer))
            }
            Err(_) => Ok(TopicsAnswer::Closes),
        }
    }

    /// Answers a request whose head has been read.
    fn told_of_request(
        &self,
        request: &TopicsRequest<'_>,
        out: &mut Vec<u8>,
    ) -> Result<TopicsAnswer, AllocError>
        ensures ok { IfOk result (λ answer. Appends answer request.now.head.correlation_id out.old.items out.new.items) }
        ensures err { OnErr result (out.new.items ≡ out.old.items) }
    {
        match request.head.api {
            BrokerApi::OffsetFetch | BrokerApi::ListGroups | BrokerApi::ConsumerGroupDescribe => {
                let groups = GroupsRequest {
                    shards: self.shards,
                    topics: self.topics,
                    request,
                };
                groups.answer(self.rt, self.alloc, out)
            }
            _ => self.topics.answer(self.rt, self.alloc, request, out),
        }
    }
}

/// The same answer, but only a Produce may have no reply.
fn only_produce_is_silent(api: BrokerApi, answer: TopicsAnswer) -> TopicsAnswer
    ensures silent { result ≡ TopicsAnswer.NoReply → api ≡ BrokerApi.Produce }
    ensures other { (result ≡ answer) ⊎ ((answer ≡ TopicsAnswer.NoReply) × (result ≡ TopicsAnswer.Closes)) }
{
    match answer {
        TopicsAnswer::NoReply if api != BrokerApi::Produce => TopicsAnswer::Closes,
        other => other,
    }
}

impl<'a, A: Ledger, C: Ledger, G, R> TopicNames for BrokerApis<'a, A, C, G, R> {
    ghost use Rattle.broker_apis.specs.Names.{names_of};

    ghost names = { λ apis. names_of apis.topics.now };

    fn topic_names(&self, alloc: Global) -> Result<Vec<&str>, AllocError> {
        names_of(alloc, self.topics.topics())
    }
}

impl<'a, A: Ledger, C: Ledger, G, R: Wait + Clock> OtherApis for BrokerApis<'a, A, C, G, R> {
    type Held = HeldFetch;

    fn answer(&self, body: &[u8], out: &mut Vec<u8>) -> Result<OwnAnswer<HeldFetch>, AllocError> {
        match self.told(body, out)? {
            TopicsAnswer::Replied => Ok(OwnAnswer::Replied),
            TopicsAnswer::NoReply => Ok(OwnAnswer::Replied),
            TopicsAnswer::Held(held) => Ok(OwnAnswer::Held(HeldFetch::new(self.rt, held))),
            TopicsAnswer::Closes => Ok(OwnAnswer::Closes),
        }
    }

    fn poll_held(&self, cx: &mut Context<'_>, growth: &Source, held: &HeldFetch) -> Poll<()> {
        let is_over = held.is_over(self.rt);
        let grown = self
            .topics
            .poll_grown(self.rt, cx, growth, self.worker, &held.held);
        if grown.is_pending() && !is_over {
            return Poll::Pending;
        }
        Poll::Ready(())
    }

    /// Has it written to the log.
    fn note_close(&self, stamp: Stamp, body: &[u8]) {
        if let Ok((key, _)) = take_i16(body) {
            self.log
                .note_reason(self.rt, stamp.connection, Reason::Request(key));
        }
    }
}
