//! Stamps of frames.
ghost use Rattle.std.specs.Prelude.{◌≡◌};
ghost use Rattle.std.specs.Ordering.{is_gt};

/// Where and when a frame came in, compared by the connection and then the frame.
#[derive(Clone, Copy, Debug, PartialEq, Eq, PartialOrd, Ord)]
pub struct Stamp {
    /// The number of the connection, in order of acceptance.
    pub connection: u64,
    /// The number of the frame on the connection.
    pub frame: u64,
}

impl Stamp {
    ghost use Rattle.group_types.specs.Stamp.{stamp_cmp};

    /// Whether the stamp comes after the other.
    pub fn is_above(self, other: Stamp) -> bool
        ensures { result ≡ is_gt (stamp_cmp self other) }
    {
        self > other
    }
}
