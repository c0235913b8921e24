//! What is kept of a partition that is held.

use group_types::EpochNumber;

/// Who holds a partition, by its number in the member table, and the epoch of the target under which it was granted.
#[derive(Clone, Copy)]
pub struct Cell {
    pub holder: usize,
    pub since: EpochNumber,
}
