//! The frame of a reply to a commit.
ghost use Rattle.std.specs.Prelude.{◌≡◌, List, ℕ, ◌++◌, ◌-◌, length, vec_capacity};
ghost use Rattle.kip_msgs.specs.Views as views;
ghost use Rattle.coord_node.specs.Answers.{HasRoomInFrame};
ghost use Rattle.coord_node.specs.Replies.{commit_message, IsReplyFrame};

use crate::frame;
use flex_wire::TaggedFields;
use kip_msgs::{CommitReply, Reply as Message, ResponseHeader};
use std::alloc::Global;

/// Appends the frame of a reply to the commit with the correlation id. Takes no memory: there is room for it.
pub(crate) fn put(alloc: Global, out: &mut Vec<u8>, correlation: i32, reply: CommitReply<'_>)
    requires { HasRoomInFrame (commit_message correlation (views.commit_reply_value reply)) (vec_capacity out.old - length out.old.items) }
    ensures { (frame : List ℕ) × IsReplyFrame (commit_message correlation (views.commit_reply_value reply.entry)) frame
        × (out.new.items ≡ out.old.items ++ frame) }
{
    let header = ResponseHeader {
        correlation_id: correlation,
        tags: TaggedFields::new(alloc),
    };
    frame::put(out, &Message::Commit(header, reply));
}
