//! That the definitions of the messages are the protocol guide's: each message has the bytes that were worked out by hand.
ghost use Rattle.message_tests.specs.Bodies.{CommitAnswerIsTheGuides, CommitIsTheGuides, HeartbeatAnswerIsTheGuides, HeartbeatIsTheGuides};

/// A message of each kind, in which each field says something else, has the bytes of the guide.
pub fn bodies_are_the_guides()
    ensures heartbeat { HeartbeatIsTheGuides }
    ensures heartbeat_answer { HeartbeatAnswerIsTheGuides }
    ensures commit { CommitIsTheGuides }
    ensures commit_answer { CommitAnswerIsTheGuides }
{}
