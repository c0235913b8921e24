//! Answers that say success.
ghost use Rattle.std.specs.Prelude.{◌≡◌};
ghost use Rattle.group_core.specs.Outcome.{answer_of};
ghost use Rattle.coord_node.specs.Steps.{is_success};
ghost use Rattle.coord_node.specs.Answers.{succeeds};

use group_core::Outcome;
use group_types::Code;

/// Whether a code is that of success.
pub(crate) fn is_success(code: Code) -> bool
    ensures { result ≡ is_success code }
{
    match code {
        Code::NoError => true,
        _ => false,
    }
}

/// Whether a heartbeat is answered with success.
pub(crate) fn succeeds(outcome: &Outcome) -> bool
    ensures { result ≡ succeeds (answer_of outcome.now) }
{
    match outcome {
        Outcome::Reply(reply) => is_success(reply.code),
        Outcome::Overtaken => false,
    }
}
