//! What a target wants of a member, of partitions that there may be.
ghost use Rattle.std.specs.Prelude.{◌≡◌, IfNone, IfSome, IsTrue};
ghost use Rattle.std.specs.List.{list_all};
ghost use Rattle.group_types.specs.Sets.{in_order};
ghost use Rattle.group_reconcile.specs.Holders.{AreFromZero, is_from_zero};

use group_types::{Partition, Wanted};

/// What a target wants of a member. None of its partitions has an index below 0, as no partition of a topic has.
#[derive(Drop)]
pub struct MemberTarget<'a> {
    pub wanted: Wanted<'a>,
    pub ghost indexes: { AreFromZero wanted.partitions },
}

impl<'a> MemberTarget<'a> {
    /// What is wanted, or none if a partition of it has an index below 0.
    pub fn of(wanted: Wanted<'a>) -> Option<MemberTarget<'a>>
        ensures target { IfSome result (λ target. target.wanted ≡ wanted.entry) }
        ensures none { IfNone result (¬ AreFromZero wanted.entry.partitions) }
    {
        if are_from_zero(&wanted) {
            Some(MemberTarget { wanted })
        } else {
            None
        }
    }
}

/// Whether no partition has an index below 0.
fn are_from_zero(wanted: &Wanted<'_>) -> bool
    ensures { result ≡ list_all (λ p. is_from_zero p.index) (in_order wanted.now.partitions) }
{
    match wanted.set() {
        Some(set) => set.iter().all(|p| is_from_zero(p)),
        None => true,
    }
}

/// Whether the index isn't below 0.
fn is_from_zero(p: &Partition) -> bool
    ensures { result ≡ is_from_zero p.now.index }
{
    p.index >= 0
}
