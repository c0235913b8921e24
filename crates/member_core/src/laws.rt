//! Laws of the client machine, proved where nothing runs.
ghost use Rattle.member_core.specs.Existence.{AsksAreMade, RepliesHaveAnOutcome};
ghost use Rattle.member_core.specs.Laws.{FencedMembersOwnNothing, MembersOwnOnlyInside, OneOutcomeAReply, ReleasesLeaveTheRest, RepliesAreTakenOnce};

use kip_msgs::one_reply_a_body;

/// Whatever bytes a member is given, it makes one thing of them.
pub fn one_outcome_a_reply()
    ensures { OneOutcomeAReply }
{
    one_reply_a_body();
}

/// A member that has taken a reply takes no other until it asks again.
pub fn replies_are_taken_once()
    ensures { RepliesAreTakenOnce }
{}

/// A member that is fenced owns nothing, knows no epoch, and keeps its id.
pub fn fenced_members_own_nothing()
    ensures { FencedMembersOwnNothing }
{}

/// To release a partition takes it out of what the member owns unless the member is shown it, and leaves the rest.
pub fn releases_leave_the_rest()
    ensures { ReleasesLeaveTheRest }
{}

/// Whatever a member does or is given, it owns nothing unless it is inside its group.
pub fn members_own_only_inside()
    ensures { MembersOwnOnlyInside }
{}

/// What a member may ask for it asks, where the request isn't too large: there is the request, where each text, number and
/// partition that the member knows has a spelling.
pub fn asks_are_made()
    ensures { AsksAreMade }
{}

/// Whatever bytes a member is given, it takes them or leaves them; with `one_outcome_a_reply` it does exactly one thing.
pub fn replies_have_an_outcome()
    ensures { RepliesHaveAnOutcome }
{
    one_reply_a_body();
}
