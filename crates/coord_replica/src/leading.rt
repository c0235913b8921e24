//! Since when a replica leads.

use coord_node::Moment;

/// What a leader's clock showed, in milliseconds, and the greatest moment of the log when it began to lead.
#[derive(Clone, Copy, Debug, PartialEq, Eq)]
pub struct Leading {
    pub clock: u64,
    pub moment: Moment,
}
