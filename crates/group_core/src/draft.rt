//! What a join or a beat makes, before anything is stored.
ghost use Rattle.std.specs.Prelude.{◌≡◌};
ghost use Rattle.group_core.specs.Stages.{told_id};

use group_epochs::Draft as MemberDraft;
use group_types::MemberId;

/// A member's draft, with the serial of the last id that was made, this one's included.
#[derive(Drop)]
pub struct Draft {
    pub member: MemberDraft,
    pub ids_made: u64,
}

impl Draft {
    /// The id of the member whose heartbeat it is.
    pub fn told_id(&self) -> &MemberId
        ensures { result.now ≡ told_id self.now }
    {
        match self.member.heir() {
            Some(heir) => heir,
            None => &self.member.id,
        }
    }
}
