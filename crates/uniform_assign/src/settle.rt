//! What follows the former owners that stay.

ghost use Rattle.std.specs.Prelude.{◌≡◌, OnOk};
ghost use Rattle.uniform_assign.specs.Boards.{IsBare, members_on};
ghost use Rattle.uniform_assign.specs.Drafts.{IsDraft, IsFilledAndLevelled, drawn_on};

use crate::board::Board;
use crate::draft::Draft;
use std::alloc::{AllocError, Global};

impl Board<'_> {
    /// Gives each partition an owner if anybody subscribes it, and then moves partitions until none can move. Looks at
    /// no subscriber where each partition is its owner's only one.
    pub fn settle(&mut self, alloc: Global, draft: &mut Draft) -> Result<(), AllocError>
        requires board { IsBare self.old }
        requires draft { IsDraft self.old draft.old }
        ensures board { OnOk result (IsBare self.new) }
        ensures same { OnOk result (self.new ≡ record self.old { classes = self.new.classes; takers = self.new.takers }) }
        ensures draft { OnOk result (IsDraft self.new draft.new) }
        ensures settled { OnOk result (IsFilledAndLevelled self.old.view.now (members_on self.old)
            (drawn_on self.old draft.old.owners.items) (drawn_on self.old draft.new.owners.items)) }
    {
        if draft.is_single() {
            return Ok(());
        }
        self.find_takers(alloc)?;
        self.fill(alloc, draft)?;
        self.level(alloc, draft)
    }
}
