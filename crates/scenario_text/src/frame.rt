//! The frame of a request.
ghost use Rattle.std.specs.Prelude.{ℕ, List, IfSome, IfNone};
ghost use Rattle.group_types.specs.Frames.{IsFrame};
ghost use Rattle.scenario_text.specs.RequestFrames.{IsFrameWithinLimits};

use group_types::limits::{LARGEST_BODY, SMALLEST_BODY};

/// The body of a frame, where its size is one that a body may have and is the number of the bytes after it.
pub fn body_of(frame: &[u8]) -> Option<&[u8]>
    ensures some { IfSome result (λ body. IsFrameWithinLimits body.now frame.now) }
    ensures none { IfNone result ((body : List ℕ) → ¬ IsFrameWithinLimits body frame.now) }
{
    let body = framed(frame)?;
    if body.len() < SMALLEST_BODY || LARGEST_BODY < body.len() {
        return None;
    }
    Some(body)
}

/// The bytes of a frame behind its size, where the size is their number. A frame is an INT32 size and that many bytes
/// (Kafka protocol guide, "Protocol").
pub fn framed(frame: &[u8]) -> Option<&[u8]>
    ensures some { IfSome result (λ body. IsFrame body.now frame.now) }
    ensures none { IfNone result ((body : List ℕ) → ¬ IsFrame body frame.now) }
{
    let (size, body) = frame.split_first_chunk::<4>()?;
    let size = u32::from_be_bytes(*size) as usize;
    if size != body.len() || size > i32::MAX as usize {
        return None;
    }
    Some(body)
}
