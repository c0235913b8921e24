//! Laws of the spelling, proved where nothing runs.

ghost use Rattle.kip_msgs.specs.Laws.{OneRequestABody, OneReplyABody, OneBodyARequest, OneBodyAReply};

/// A body spells at most one request.
pub fn one_request_a_body()
    ensures { OneRequestABody }
{}

/// A body spells at most one reply of each API.
pub fn one_reply_a_body()
    ensures { OneReplyABody }
{}

/// A request has one body, and so has a reply.
pub fn one_body_a_message()
    ensures request { OneBodyARequest }
    ensures reply { OneBodyAReply }
{}
