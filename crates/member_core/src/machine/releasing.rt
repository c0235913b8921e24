//! What a member releases.
ghost use Rattle.std.specs.Prelude.{◌≡◌, not};
ghost use Rattle.group_types.specs.Sets.{is_nothing};
ghost use Rattle.member_core.specs.Client.{to_release};
ghost use Rattle.member_core.specs.Releasing.{after_release};

use super::Machine;
use group_types::Partition;

impl Machine {
    /// Releases a partition that the member isn't shown; nothing else changes anything. Takes no memory.
    pub(crate) fn release(&mut self, p: &Partition)
        ensures { self.new ≡ after_release self.old p.now }
    {
        if !self.shown.contains(p) && self.own.remove(p) {
            self.to_release -= 1;
        }
    }

    /// Whether the member owns a partition that it isn't shown.
    pub(crate) fn has_to_release(&self) -> bool
        ensures { result ≡ not (is_nothing (to_release self.now)) }
    {
        self.to_release > 0
    }
}
