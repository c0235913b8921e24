//! Why the server closes a connection.
ghost use Rattle.std.specs.Prelude.{◌≡◌, ◌++◌, ℕ, List, IfSome};
ghost use Rattle.flex_wire.specs.Spelling.{int16};
ghost use Rattle.flex_wire.specs.declared.fault.WireFault.{WireFault};
ghost use Rattle.kip_msgs.specs.Heads.{HasFieldFault, HasLeftOver};
ghost use Rattle.coord_server.specs.Reasons.{IsReason};

use flex_wire::{WireFault, take_i16};
use kip_msgs::{Api, MsgFault, read_request};
use std::alloc::Global;
use std::fmt;
use std::fmt::{Display, Formatter};

/// Why the server closes a connection.
#[derive(Clone, Copy, Debug, PartialEq, Eq)]
pub enum Reason {
    /// The first request that isn't answered is of an API with this key, which isn't served.
    Api(i16),
    /// The API is served, and not in this version.
    Version(Api, i16),
    /// A field of the request has this fault.
    Field(WireFault),
    /// Bytes are left behind the request.
    LeftOver,
    /// The request is a heartbeat, and a later one of its member was answered before it came.
    Overtaken,
    /// The request, of the API with this key, isn't answered: it can't be read, or its version isn't served, or its reply would be too long.
    Request(i16),
    /// A frame says a size that no frame has.
    Size,
    /// No byte came for so many seconds.
    Silent(u64),
    /// No byte of a reply was taken for so many seconds.
    Unread(u64),
}

impl Reason {
    /// Whether it is that of a frame, which came whole and isn't answered.
    pub fn is_of_frame(self) -> bool {
        match self {
            Reason::Size | Reason::Silent(_) | Reason::Unread(_) => false,
            Reason::Api(_) | Reason::Version(_, _) | Reason::Field(_) => true,
            Reason::LeftOver | Reason::Overtaken | Reason::Request(_) => true,
        }
    }
}

/// Why the server closes a connection on which this body of a request came, which it doesn't answer. None: memory is short.
pub fn reason_of(alloc: Global, body: &[u8]) -> Option<Reason>
    ensures { IfSome result (IsReason body.now) }
{
    match read_request(alloc, body) {
        Ok(_) => Some(Reason::Overtaken),
        Err(fault) => reason_of_fault(body, fault),
    }
}

/// Why the server closes a connection on which a body came that is no request, for this fault.
fn reason_of_fault(body: &[u8], fault: MsgFault) -> Option<Reason>
    requires field { (field : WireFault) → fault ≡ MsgFault.Wire field → HasFieldFault field body.now }
    requires left_over { fault ≡ MsgFault.LeftOver → HasLeftOver body.now }
    ensures { IfSome result (IsReason body.now) }
{
    match fault {
        MsgFault::UnknownApi => reason_of_key(body),
        MsgFault::UnknownVersion => reason_of_version(body),
        MsgFault::Wire(fault) => Some(Reason::Field(fault)),
        MsgFault::LeftOver => Some(Reason::LeftOver),
        MsgFault::NoMemory => None,
    }
}

/// Which API a body names that isn't served.
fn reason_of_key(body: &[u8]) -> Option<Reason>
    ensures { IfSome result (IsReason body.now) }
{
    match take_i16(body) {
        Ok((key, _)) => match Api::with_key(key) {
            Some(_) => None,
            None => Some(Reason::Api(key)),
        },
        Err(_) => None,
    }
}

/// Which version of an API a body names that isn't served.
fn reason_of_version(body: &[u8]) -> Option<Reason>
    ensures { IfSome result (IsReason body.now) }
{
    let Some((key, version)) = head_of(body) else {
        return None;
    };
    let Some(api) = Api::with_key(key) else {
        return None;
    };
    if api.key() != key || version == api.version() {
        return None;
    }
    Some(Reason::Version(api, version))
}

/// The key and the version at the front of a body.
fn head_of(body: &[u8]) -> Option<(i16, i16)>
    ensures { IfSome result (λ x. (rest : List ℕ) × (body.now ≡ int16 x.0 ++ (int16 x.1 ++ rest))) }
{
    let Ok((key, rest)) = take_i16(body) else {
        return None;
    };
    let Ok((version, _)) = take_i16(rest) else {
        return None;
    };
    Some((key, version))
}

impl Display for Reason {
    fn fmt<W: fmt::Write>(&self, f: &mut Formatter<W>) -> fmt::Result {
        match self {
            Reason::Api(key) => match name_of(*key) {
                Some(name) => write!(f, "{name} ({key}) isn't served here"),
                None => write!(f, "the API {key} isn't served here"),
            },
            Reason::Version(Api::Heartbeat, version) => {
                write!(
                    f,
                    "version {version} of ConsumerGroupHeartbeat isn't served here"
                )
            }
            Reason::Version(Api::Commit, version) => {
                write!(f, "version {version} of OffsetCommit isn't served here")
            }
            Reason::Field(fault) => write!(f, "no request: {fault}"),
            Reason::LeftOver => write!(f, "no request: bytes are left behind it"),
            Reason::Overtaken => write!(f, "a heartbeat that a later one of its member overtook"),
            Reason::Request(key) => match name_of(*key) {
                Some(name) => write!(f, "no request of {name} ({key}) that is answered here"),
                None => write!(f, "no request of the API {key} that is answered here"),
            },
            Reason::Size => write!(f, "a frame's size is below 1 or above 8388608"),
            Reason::Silent(seconds) => write!(f, "no byte for {seconds} s"),
            Reason::Unread(seconds) => write!(f, "no reply read for {seconds} s"),
        }
    }
}

/// The name of an API that clients of Kafka ask for and this server doesn't serve (Kafka protocol guide, "Api Keys").
fn name_of(key: i16) -> Option<&'static str> {
    Some(match key {
        0 => "Produce",
        1 => "Fetch",
        2 => "ListOffsets",
        3 => "Metadata",
        9 => "OffsetFetch",
        10 => "FindCoordinator",
        11 => "JoinGroup",
        12 => "Heartbeat",
        13 => "LeaveGroup",
        14 => "SyncGroup",
        15 => "DescribeGroups",
        16 => "ListGroups",
        17 => "SaslHandshake",
        18 => "ApiVersions",
        19 => "CreateTopics",
        22 => "InitProducerId",
        23 => "OffsetForLeaderEpoch",
        42 => "DeleteGroups",
        60 => "DescribeCluster",
        68 => "ConsumerGroupHeartbeat",
        69 => "ConsumerGroupDescribe",
        _ => return None,
    })
}
