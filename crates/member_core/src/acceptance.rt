//! What a member is told with success.
ghost use Rattle.std.specs.Prelude.{◌≤◌, length};
ghost use Rattle.flex_wire.specs.Limits.{LONGEST_STRING};

use group_types::{EpochNumber, MemberId, PartSet};

/// What a member is told with success: its id, its member epoch, and its assignment where that is said.
#[derive(Drop)]
pub(crate) struct Acceptance {
    pub(crate) id: MemberId,
    pub(crate) epoch: EpochNumber,
    pub(crate) assignment: Option<PartSet>,
    ghost short: { length id ≤ LONGEST_STRING },
}
