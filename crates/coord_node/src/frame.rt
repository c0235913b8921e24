//! Messages as frames.
ghost use Rattle.std.specs.Prelude.{◌≡◌, List, ℕ, ◌++◌, ◌-◌, length, vec_capacity};
ghost use Rattle.kip_msgs.specs.Views as views;
ghost use Rattle.coord_node.specs.Answers.{HasRoomInFrame};
ghost use Rattle.coord_node.specs.Replies.{IsReplyFrame};

use flex_wire::put_i32;
use kip_msgs::{Reply as Message, put_reply};

/// The length of a frame's size.
const SIZE: usize = 4;

/// Appends the frame of a message: an INT32 size, and the body of that many bytes (Kafka protocol guide, "Protocol"). Takes no
/// memory: there is room for it.
pub(crate) fn put(out: &mut Vec<u8>, message: &Message<'_>)
    requires { HasRoomInFrame (views.reply_value message.now) (vec_capacity out.old - length out.old.items) }
    ensures { (frame : List ℕ) × IsReplyFrame (views.reply_value message.now) frame × (out.new.items ≡ out.old.items ++ frame) }
{
    let start = out.len();
    let end = start + SIZE;
    match put_i32(out, 0) {
        Ok(()) => {}
        Err(_) => unreachable!(),
    }
    match put_reply(out, message) {
        Ok(()) => {}
        Err(_) => unreachable!(),
    }
    let size = (out.len() - end) as i32;
    out[start..end].copy_from_slice(&size.to_be_bytes());
}
