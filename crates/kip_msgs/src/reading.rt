//! Bodies of requests and replies, read whole.

ghost use Rattle.std.specs.Prelude.{◌≡◌, ℕ, List, ◌↔◌, IfOk, IsOkAnd, IsErrOf};
ghost use Rattle.flex_wire.specs.declared.fault.WireFault.{WireFault};
ghost use Rattle.flex_wire.specs.declared.fault.WireFault.TheVariants.{Short, NoMemory};
ghost use Rattle.kip_msgs.specs.declared.api.Api.{Api};
ghost use Rattle.kip_msgs.specs.Values.{RequestValue, ReplyValue, reply_api};
ghost use Rattle.kip_msgs.specs.Spelling.{SpellsRequest, SpellsReply};
ghost use Rattle.kip_msgs.specs.Reading.{Gives, GivesInMemory, version_at, api_at, whole, request_behind_at, request_at, reply_at};
ghost use Rattle.kip_msgs.specs.Heads.{BeginsWith, HasUnknownKey, HasUnknownVersion, EndsInHead, HasFieldFault, HasFieldFaultReply, HasLeftOver, HasLeftOverReply};
ghost use Rattle.kip_msgs.specs.Answers.{AnswersInMemory, FailsInMemory};
ghost use Rattle.kip_msgs.specs.Views.{request_value, reply_value};

mod arrays;
mod commit;
mod header;
mod heartbeat;

use crate::api::Api;
use crate::fault::MsgFault;
use crate::message::{Reply, Request};
use commit::{take_commit, take_commit_answer};
use flex_wire::take_i16;
use heartbeat::{take_heartbeat, take_heartbeat_answer};
use std::alloc::Global;

fn version_of(api: Option<Api>, bytes: &[u8]) -> Result<(Api, &[u8]), MsgFault>
    ensures { Gives (λ x. (x.0, x.1.now)) result (version_at api bytes.now) }
{
    let Some(api) = api else {
        return Err(MsgFault::UnknownApi);
    };
    let (version, rest) = take_i16(bytes)?;
    if version != api.version() {
        return Err(MsgFault::UnknownVersion);
    }
    Ok((api, rest))
}

#[tactic(auto, unfolding(crate::specs::Reading::api_at))]
fn head_of(body: &[u8]) -> Result<(Api, &[u8]), MsgFault>
    ensures { Gives (λ x. (x.0, x.1.now)) result (api_at body.now) }
{
    let (key, rest) = take_i16(body)?;
    version_of(Api::with_key(key), rest)
}

/// The API that a request body names by its key and version, and the bytes behind them, from the
/// correlation id on (Kafka protocol guide, "Request Header v2"). Takes no memory.
///
/// Faults, in this order: `Short` in the key; `UnknownApi`; `Short` in the version;
/// `UnknownVersion`.
pub fn api_of(body: &[u8]) -> Result<(Api, &[u8]), MsgFault>
    ensures found { IfOk result (λ x. BeginsWith x.0 x.1.now body.now) }
    ensures only { (api : Api) (rest : List ℕ) → BeginsWith api rest body.now →
        IsOkAnd result (λ x. (x.0 ≡ api) × (x.1.now ≡ rest)) }
    ensures unknown_api { IsErrOf result MsgFault.UnknownApi ↔ HasUnknownKey body.now }
    ensures unknown_version { IsErrOf result MsgFault.UnknownVersion ↔ HasUnknownVersion body.now }
    ensures short { IsErrOf result (MsgFault.Wire Short) ↔ EndsInHead body.now }
{
    head_of(body)
}

fn all_read(rest: &[u8]) -> Result<(), MsgFault>
    ensures { result ≡ whole tt rest.now }
{
    if !rest.is_empty() {
        return Err(MsgFault::LeftOver);
    }
    Ok(())
}

#[tactic(auto, unfolding(crate::specs::Reading::request_behind_at))]
fn request_behind<'a>(alloc: Global, api: Api, bytes: &'a [u8]) -> Result<Request<'a>, MsgFault>
    ensures { GivesInMemory request_value result (request_behind_at api bytes.now) }
{
    match api {
        Api::Heartbeat => {
            let (header, message, rest) = take_heartbeat(alloc, bytes)?;
            all_read(rest)?;
            Ok(Request::Heartbeat(header, message))
        }
        Api::Commit => {
            let (header, message, rest) = take_commit(alloc, bytes)?;
            all_read(rest)?;
            Ok(Request::Commit(header, message))
        }
    }
}

#[tactic(auto, unfolding(crate::specs::Reading::request_at))]
fn request_of<'a>(alloc: Global, body: &'a [u8]) -> Result<Request<'a>, MsgFault>
    ensures exact { GivesInMemory request_value result (request_at body.now) }
    // A head that isn't read wants no memory.
    ensures head { (fault : MsgFault) → api_at body.now ≡ Err fault → IsErrOf result fault }
{
    let (api, rest) = head_of(body)?;
    request_behind(alloc, api, rest)
}

/// Reads a request body (Kafka protocol guide, "Request Header v2"; KIP-848): the request that all
/// of its bytes spell, tagged fields included. Texts and tagged fields are lent from `body`; no
/// count takes memory before its elements are read.
///
/// Faults, in this order: those of [`api_of`]; that of the first field that has one; `LeftOver` where
/// bytes stand behind the last field. `NoMemory` comes only behind a version that is known.
pub fn read_request<'a>(alloc: Global, body: &'a [u8]) -> Result<Request<'a>, MsgFault>
    ensures found { IfOk result (λ request. SpellsRequest (request_value request) body.now) }
    ensures only { (v : RequestValue) → SpellsRequest v body.now → AnswersInMemory request_value result v }
    ensures unknown_api { IsErrOf result MsgFault.UnknownApi ↔ HasUnknownKey body.now }
    ensures unknown_version { IsErrOf result MsgFault.UnknownVersion ↔ HasUnknownVersion body.now }
    ensures ends_in_head { EndsInHead body.now → IsErrOf result (MsgFault.Wire Short) }
    ensures field { (fault : WireFault) → IsErrOf result (MsgFault.Wire fault) → HasFieldFault fault body.now }
    ensures field_or_no_memory { (fault : WireFault) → HasFieldFault fault body.now → FailsInMemory (MsgFault.Wire fault) result }
    ensures left_over { IsErrOf result MsgFault.LeftOver → HasLeftOver body.now }
    ensures left_over_or_no_memory { HasLeftOver body.now → FailsInMemory MsgFault.LeftOver result }
    ensures memory_by_itself { ¬ IsErrOf result (MsgFault.Wire NoMemory) }
{
    request_of(alloc, body)
}

#[tactic(auto, unfolding(crate::specs::Reading::reply_at))]
fn reply_of<'a>(alloc: Global, api: Api, body: &'a [u8]) -> Result<Reply<'a>, MsgFault>
    ensures { GivesInMemory reply_value result (reply_at api body.now) }
{
    match api {
        Api::Heartbeat => {
            let (header, reply, rest) = take_heartbeat_answer(alloc, body)?;
            all_read(rest)?;
            Ok(Reply::Heartbeat(header, reply))
        }
        Api::Commit => {
            let (header, reply, rest) = take_commit_answer(alloc, body)?;
            all_read(rest)?;
            Ok(Reply::Commit(header, reply))
        }
    }
}

/// Reads the body of a reply to a request of `api` (Kafka protocol guide, "Response Header v1";
/// KIP-848): the reply that all of its bytes spell, tagged fields included. Its bytes don't name the
/// API. Texts and tagged fields are lent from `body`; no count takes memory before its elements are
/// read.
///
/// Faults, in this order: that of the first field that has one; `LeftOver` where bytes stand behind
/// the last field; or `NoMemory`. Never
/// `UnknownApi` or `UnknownVersion`.
pub fn read_reply<'a>(alloc: Global, api: Api, body: &'a [u8]) -> Result<Reply<'a>, MsgFault>
    ensures found { IfOk result (λ reply. (reply_api (reply_value reply) ≡ api) × SpellsReply (reply_value reply) body.now) }
    ensures only { (v : ReplyValue) → reply_api v ≡ api → SpellsReply v body.now → AnswersInMemory reply_value result v }
    ensures field { (fault : WireFault) → IsErrOf result (MsgFault.Wire fault) → HasFieldFaultReply api fault body.now }
    ensures field_or_no_memory { (fault : WireFault) → HasFieldFaultReply api fault body.now → FailsInMemory (MsgFault.Wire fault) result }
    ensures left_over { IsErrOf result MsgFault.LeftOver → HasLeftOverReply api body.now }
    ensures left_over_or_no_memory { HasLeftOverReply api body.now → FailsInMemory MsgFault.LeftOver result }
    ensures no_key { ¬ IsErrOf result MsgFault.UnknownApi }
    ensures no_version { ¬ IsErrOf result MsgFault.UnknownVersion }
    ensures memory_by_itself { ¬ IsErrOf result (MsgFault.Wire NoMemory) }
{
    reply_of(alloc, api, body)
}
