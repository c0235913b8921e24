//! Heartbeats that a group can be handed.
ghost use Rattle.std.specs.Prelude.{◌≡◌, ◌<◌, ◌≤◌, IfNone, IfSome, length};
ghost use Rattle.group_types.specs.Limits.{LONGEST_STRING};

use group_types::limits::LONGEST_STRING as MOST_BYTES;
use kip_msgs::HeartbeatRequest;

/// A heartbeat whose member id has at most as many bytes as a string of a message. Each request that was read has such an id.
#[derive(Clone, Copy)]
pub struct MemberHeartbeat<'r, 'a> {
    pub request: &'r HeartbeatRequest<'a>,
    pub ghost id: { length request.now.member_id.now ≤ LONGEST_STRING },
}

impl<'r, 'a> MemberHeartbeat<'r, 'a> {
    /// The heartbeat, or none if its member id is longer.
    pub fn of(request: &'r HeartbeatRequest<'a>) -> Option<MemberHeartbeat<'r, 'a>>
        ensures request { IfSome result (λ heartbeat. heartbeat.request.now ≡ request.now) }
        ensures none { IfNone result (LONGEST_STRING < length request.now.member_id.now) }
    {
        if request.member_id.len() <= MOST_BYTES {
            Some(MemberHeartbeat { request })
        } else {
            None
        }
    }
}
