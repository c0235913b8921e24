//! Why an expression gives no names.

use regex::Error as PatternError;
use std::alloc::AllocError;
use thiserror::Error;

/// Why an expression gives no names.
#[derive(Clone, Copy, Debug, PartialEq, Eq, Error)]
pub enum ExpressionFault {
    /// The expression is longer than [`LONGEST_EXPRESSION`](crate::limits::LONGEST_EXPRESSION), is no regular expression, or is too big.
    #[error("not a regular expression")]
    Refused,
    /// Memory ran out.
    #[error("out of memory")]
    NoMemory,
}

impl From<PatternError> for ExpressionFault {
    ghost use Rattle.std.specs.Prelude.{◌≡◌};
    ghost use Rattle.topic_expressions.specs.Faults.{fault_of};

    ghost from_gives = { λ error fault. fault ≡ fault_of error };

    fn from(error: PatternError) -> ExpressionFault {
        match error {
            PatternError::OutOfMemory => ExpressionFault::NoMemory,
            PatternError::Syntax(_) | PatternError::CompiledTooBig | PatternError::Internal => {
                ExpressionFault::Refused
            }
        }
    }
}

impl From<AllocError> for ExpressionFault {
    ghost use Rattle.std.specs.Prelude.{◌≡◌};
    ghost use Rattle.topic_expressions.specs.declared.fault.ExpressionFault.TheVariants.{NoMemory};

    ghost from_gives = { λ _ fault. fault ≡ NoMemory };

    fn from(_: AllocError) -> ExpressionFault {
        ExpressionFault::NoMemory
    }
}
