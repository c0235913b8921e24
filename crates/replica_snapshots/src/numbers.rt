//! The numbers of a group, written at the end of a `Vec`.

ghost use Rattle.replica_snapshots.specs.Spelling.{epochs_fields, FitsEpochs, numbers_fields, FitsNumbers};
ghost use Rattle.replica_snapshots.specs.Writing.{PutsUpTo};

use crate::fault::SnapshotFault;
use crate::fields::{put_epoch, put_number};
use group_types::{EpochNumber, Moment};

/// The numbers of a group.
#[derive(Clone, Copy, Debug)]
pub struct Numbers {
    /// The first half of the ids that it makes.
    pub salt: u64,
    pub epoch: EpochNumber,
    /// The epoch for which the target was worked out.
    pub target_epoch: EpochNumber,
    /// The greatest moment that was used.
    pub clock: Moment,
    /// How many ids were made.
    pub ids_made: u64,
}

/// Appends the numbers of a group. Where that fails, the bytes before them stay the first ones.
#[tactic(auto, unfolding(crate::specs::Spelling::numbers_fields))]
pub fn put_numbers(out: &mut Vec<u8>, numbers: &Numbers) -> Result<(), SnapshotFault>
    ensures { PutsUpTo result out.old.items out.new.items (FitsNumbers numbers.now) (numbers_fields numbers.now) }
{
    put_number(out, numbers.salt)?;
    put_epochs(out, numbers)?;
    put_number(out, numbers.clock.millis())?;
    put_number(out, numbers.ids_made)
}

#[tactic(auto, unfolding(crate::specs::Spelling::epochs_fields))]
fn put_epochs(out: &mut Vec<u8>, numbers: &Numbers) -> Result<(), SnapshotFault>
    ensures { PutsUpTo result out.old.items out.new.items (FitsEpochs numbers.now) (epochs_fields numbers.now) }
{
    put_epoch(out, numbers.epoch)?;
    put_epoch(out, numbers.target_epoch)
}
