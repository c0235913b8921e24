//! What a member asks for.

/// How much a heartbeat of a member says (KIP-848, "ConsumerGroupHeartbeatRequest").
#[derive(Clone, Copy, Debug, PartialEq, Eq)]
pub enum Kind {
    /// Nothing but the member epoch.
    Short,
    /// The partitions that the member owns, beside the epoch.
    Owned,
    /// Everything.
    Full,
}

/// How a member quits its group.
#[derive(Clone, Copy, Debug, PartialEq, Eq)]
pub enum Quit {
    /// For good.
    Leave,
    /// For a while, as a static member does: its place is kept.
    Away,
}

/// What a member asks for.
#[derive(Clone, Copy, Debug, PartialEq, Eq)]
pub(crate) enum Ask {
    Join,
    Beat(Kind),
    Quit(Quit),
}
