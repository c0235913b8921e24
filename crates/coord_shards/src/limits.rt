//! The limits of shards, each in one place. `specs/Limits.antt` has the same numbers as literals, which all definitions
//! cite, and [`constants_are_the_limits`](crate::laws::constants_are_the_limits) says that they are the same.

/// The most shards.
pub const MOST_SHARDS: usize = 64;

/// The most seats that are given out.
pub const MOST_SEATS: usize = 256;

/// The most entries that a journal may keep.
pub const MOST_KEPT: usize = 65_536;
