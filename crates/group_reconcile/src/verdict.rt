//! What comes of an offer.

/// What comes of an offer of its target to a member (KIP-848, "Reconciliation of the group").
#[derive(Clone, Copy, Debug, PartialEq, Eq)]
pub enum Verdict {
    /// The member goes on to the target, and is granted what is free of it.
    Moves,
    /// The member has yet to give up what isn't its target any more.
    StillHolds,
}
