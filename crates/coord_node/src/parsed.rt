//! A frame's body that has been read.
ghost use Rattle.std.specs.Prelude.{◌≡◌, ◌↔◌, IfOk, IsOk, IsTrue};
ghost use Rattle.std.specs.Option.{option_copied};
ghost use Rattle.kip_msgs.specs.Values.{RequestValue};
ghost use Rattle.group_types.specs.Frames.{IsBody};
ghost use Rattle.coord_node.specs.Answers.{ClosesAtOnce};
ghost use Rattle.coord_node.specs.Parsed.{IsGroupOf};
ghost use Rattle.coord_node.specs.Steps.{IsRequest};

use group_types::limits::{LARGEST_BODY, SMALLEST_BODY};
use kip_msgs::{MsgFault, Request, read_request};
use std::alloc::{AllocError, Global};
use std::marker::Model;

/// A frame's body that has been read, with the request that it is, if any. Callers see its bytes.
///
/// Who has to know of the request before it is answered reads the body once, and has the same request answered.
#[derive(Drop)]
pub struct ParsedBody<'a> {
    bytes: &'a [u8],
    /// None if the bytes are no request, or have no length of a frame's body.
    request: Option<Request<'a>>,
}

impl<'a> Model for ParsedBody<'a> {
    ghost use Rattle.std.specs.Prelude.{ℕ, List};
    ghost use Rattle.std.specs.Option.{option_map};
    ghost use Rattle.kip_msgs.specs.Views.{request_value};
    ghost use Rattle.coord_node.specs.Parsed.{IsRequestOf};

    ghost Value = { List ℕ };

    ghost view = { λ p. p.bytes.now };

    ghost invariant = { λ p. IsRequestOf p.bytes.now (option_map request_value p.request) };
}

impl<'a> ParsedBody<'a> {
    ghost use Rattle.std.specs.Option.{option_map};
    ghost use Rattle.kip_msgs.specs.Views.{request_value};
    ghost use Rattle.coord_node.specs.Parsed.{IsRequestOf};

    /// Reads a body, unless it is too long or empty: then it is no request. Its texts are borrowed and not copied. Fails if memory is
    /// too short to read it.
    #[inline(always)]
    pub fn of(alloc: Global, body: &'a [u8]) -> Result<ParsedBody<'a>, AllocError>
        ensures bytes { IfOk result (λ parsed. parsed ≡ body.now) }
        // A body of a refused length, of another API or of another version takes no memory, and is no request.
        ensures at_once { ClosesAtOnce body.now → IsOk result × ((v : RequestValue) → ¬ IsRequest v body.now) }
    {
        if !has_length_of_a_body(body) {
            return Ok(ParsedBody {
                bytes: body,
                request: None,
            });
        }
        match read_request(alloc, body) {
            Ok(request) => Ok(ParsedBody {
                bytes: body,
                request: Some(request),
            }),
            Err(MsgFault::NoMemory) => Err(AllocError),
            Err(_) => Ok(ParsedBody {
                bytes: body,
                request: None,
            }),
        }
    }

    /// The bytes.
    pub fn bytes(&self) -> &'a [u8]
        ensures { result.now ≡ self.now }
    {
        self.bytes
    }

    /// The request, where the bytes are one.
    pub fn request(&self) -> Option<&Request<'a>>
        ensures { IsRequestOf self.now (option_map request_value (option_copied result)) }
    {
        self.request.as_ref()
    }

    /// The id of the group that the request is for, where the bytes are a request.
    pub fn group(&self) -> Option<&'a str>
        ensures { IsGroupOf self.now (option_copied result) }
    {
        match &self.request {
            Some(Request::Heartbeat(_, message)) => Some(message.group_id),
            Some(Request::Commit(_, message)) => Some(message.group_id),
            None => None,
        }
    }
}

/// Whether the body of a frame may have this length.
fn has_length_of_a_body(body: &[u8]) -> bool
    ensures { IsTrue result ↔ IsBody body.now }
{
    SMALLEST_BODY <= body.len() && body.len() <= LARGEST_BODY
}
