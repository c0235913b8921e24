//! Requests that are delivered.
ghost use Rattle.std.specs.Prelude.{◌≡◌, ◌<◌, IfOk, IfSome, OnErr, vec_capacity, vec_len};
ghost use Rattle.kip_msgs.specs.Values.{RequestValue};
ghost use Rattle.kip_msgs.specs.Views.{request_value};
ghost use Rattle.coord_node.specs.Nodes.{coordinator_of};
ghost use Rattle.coord_node.specs.Steps.{IsRequest};
ghost use Rattle.world_sim.specs.Acts.{Deliver};
ghost use Rattle.world_sim.specs.Acting.{Acted};
ghost use Rattle.world_sim.specs.Invariant.{Keeps};
ghost use Rattle.world_sim.specs.Passing.{joins_forgotten, AnswersUnlessForgotten};
ghost use Rattle.world_sim.specs.Scene.{scene_view};

use super::{Scene, cut_all, place_of};
use crate::fault::WorldFault;
use crate::frame::Frame;
use crate::mail::{Reply, Request};
use crate::shown::Shown;
use coord_node::{Answered, Moment, Node, ParsedBody};
use kip_msgs::{Request as Message, one_request_a_body};
use std::alloc::{AllocError, Global};

impl Scene {
    /// A request is delivered, and its reply is kept.
    pub(crate) fn deliver(&mut self, number: usize) -> Result<Shown, WorldFault>
        requires { Keeps (scene_view self.old) }
        ensures { Acted (scene_view self.old) (Deliver number) result (scene_view self.new) }
    {
        one_request_a_body();
        let Some(place) = place_of(number, self.requests.as_slice().len()) else {
            return Err(WorldFault::NoSuchMessage);
        };
        let request = &self.requests[place];
        let mut out = Vec::new(self.alloc);
        let came = answer(
            self.alloc,
            &mut self.node,
            request,
            self.clock,
            &mut self.replies,
            &mut out,
        )?;
        let Some(answered) = came else {
            return Err(WorldFault::Forgotten);
        };
        cut_all(&mut self.commits, &self.node);
        match answered {
            Answered::Closes => Ok(Shown::Closed),
            Answered::Replied => {
                self.replies.push_reserved(Reply {
                    request: place,
                    frame: Frame::of(out),
                });
                Ok(Shown::Replied {
                    reply: self.replies.len(),
                })
            }
        }
    }
}

/// The coordinator answers a request, whose body is read once: the frame of its reply is appended, and there is room for one more reply.
/// Gives None for a join under an id that its group doesn't remember (ours). Nothing has changed then, nor where memory is short.
fn answer(
    alloc: Global,
    node: &mut Node,
    request: &Request,
    clock: Moment,
    replies: &mut Vec<Reply>,
    out: &mut Vec<u8>,
) -> Result<Option<Answered>, AllocError>
    ensures came { IfOk result (λ came.
        AnswersUnlessForgotten (coordinator_of node.old) request.now clock came (coordinator_of node.new) out.old.items out.new.items) }
    ensures err { OnErr result (node.new ≡ node.old) }
    ensures replies { replies.new.items ≡ replies.old.items }
    ensures room { IfOk result (λ came. IfSome came (λ answered. vec_len replies.new < vec_capacity replies.new)) }
{
    let body = ParsedBody::of(alloc, request.frame.body())?;
    if is_forgotten(node, &body) {
        return Ok(None);
    }
    replies.reserve(1)?;
    let answered = node.answer_parsed(&body, request.stamp, clock, out)?;
    Ok(Some(answered))
}

/// Whether the body is a join under an id that its group doesn't remember.
fn is_forgotten(node: &Node, body: &ParsedBody<'_>) -> bool
    ensures { (v : RequestValue) → IsRequest v body.now → result ≡ joins_forgotten (coordinator_of node.now) v }
{
    one_request_a_body();
    match body.request() {
        Some(message) => joins_forgotten(node, message),
        None => false,
    }
}

/// Whether the request is such a join.
#[tactic(auto, using(crate::proofs::Forgotten::not_remembered))]
fn joins_forgotten(node: &Node, message: &Message<'_>) -> bool
    ensures { result ≡ joins_forgotten (coordinator_of node.now) (request_value message.now) }
{
    let Message::Heartbeat(_, v) = message else {
        return false;
    };
    v.member_epoch == 0 && !v.member_id.is_empty() && !node.remembers(v.group_id, v.member_id)
}
