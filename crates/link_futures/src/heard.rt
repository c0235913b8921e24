//! How far the reply to a request has come.
ghost use Rattle.link_futures.specs.Replies.{LacksOfReply, IsHeard};

use crate::limits::SIZE_BYTES;
use flex_wire::take_i32;

/// The least bytes of a reply's body.
const SMALLEST_REPLY: i32 = 1;

/// The most bytes of a reply's body.
const LARGEST_REPLY: i32 = 16_777_216;

/// How far a reply has come.
pub(crate) enum Heard {
    /// At least this many bytes are missing.
    Partial(usize),
    /// It is there.
    Whole,
    /// It has a size that no reply may have.
    Refused,
}

/// How far the reply has come of which these bytes are there: an INT32 size and that many bytes (Kafka protocol guide,
/// "Protocol").
pub(crate) fn heard_of(bytes: &[u8]) -> Heard
    requires { LacksOfReply 0 bytes.now }
    ensures { IsHeard result bytes.now }
{
    let Ok((size, rest)) = take_i32(bytes) else {
        return Heard::Partial(SIZE_BYTES - bytes.len());
    };
    if size < SMALLEST_REPLY || LARGEST_REPLY < size {
        return Heard::Refused;
    }
    let size = size as usize;
    if rest.len() < size {
        return Heard::Partial(size - rest.len());
    }
    Heard::Whole
}
