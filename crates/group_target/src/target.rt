//! Who is to own which partition, and since which epoch.

ghost use Rattle.std.specs.Prelude.{◌≡◌, IfOk, MatchOption, Some};
ghost use Rattle.std.specs.FinMap as finite;
ghost use Rattle.group_types.specs.declared.partition.Partition.{Partition as Key};
ghost use Rattle.group_types.specs.Assignors.{assignor_of};
ghost use Rattle.group_types.specs.Owners.{IsLawful, renamed, share_of, without_owner};
ghost use Rattle.group_types.specs.Renewal.{AreOwners};
ghost use Rattle.range_assign.specs.Shares.{AreShares, shares_in, spread_of};

use group_types::{AssignorName, EpochNumber, MemberId, Wanted};
use range_assign::{Assignor, Range, Share, Spread, Subs};
use std::alloc::{AllocError, Global};
use std::marker::Model;
use topic_meta::View;
use uniform_assign::Uniform;

/// The target assignment of a group: who is to own which partition, and the epoch of the group for which that was
/// worked out (KIP-848, "Target Assignment").
#[derive(Drop)]
pub struct Target {
    spread: Spread,
    epoch: EpochNumber,
}

impl Model for Target {
    ghost use Rattle.group_target.specs.TargetState.{TargetState, target_code};

    ghost Value = { TargetState };

    ghost coded = { target_code };

    ghost view = { λ t. record { owners = t.spread; epoch = t.epoch } };
}

impl Target {
    /// The target of this epoch in which nobody is to own a partition. Takes no memory.
    pub fn new(alloc: Global, epoch: EpochNumber) -> Target
        ensures owners { result.owners ≡ finite.empty }
        ensures epoch { result.epoch ≡ epoch }
    {
        Target {
            spread: Spread::empty(alloc),
            epoch,
        }
    }

    /// The target of this epoch in which each member is to own the partitions of its share, or none where two shares have one
    /// id or one partition. So a target that was read out is built again. Fails where memory is short.
    pub fn of_shares(
        alloc: Global,
        shares: Vec<Share>,
        epoch: EpochNumber,
    ) -> Result<Option<Target>, AllocError>
        ensures { IfOk result (λ target. MatchOption target (¬ AreShares (shares_in shares.items))
            (λ t. AreShares (shares_in shares.items) × (t.owners ≡ spread_of (shares_in shares.items)) × (t.epoch ≡ epoch))) }
    {
        match Spread::try_of(alloc, shares)? {
            Some(spread) => Ok(Some(Target { spread, epoch })),
            None => Ok(None),
        }
    }

    /// The target of a new epoch: the owners under the assignor that most members ask for, `uniform` where as many ask
    /// for the one as for the other. Each partition of the view that some member subscribes has exactly one owner, who
    /// subscribes it, and nothing else is owned. Fails where memory is short.
    pub fn renew(
        &self,
        alloc: Global,
        subs: &Subs<'_>,
        view: &View,
        epoch: EpochNumber,
    ) -> Result<Target, AllocError>
        ensures owners { IfOk result (λ target. AreOwners (assignor_of subs.now) view.now subs.now self.now.owners target.owners) }
        ensures lawful { IfOk result (λ target. IsLawful view.now subs.now target.owners) }
        ensures epoch { IfOk result (λ target. target.epoch ≡ epoch) }
    {
        let spread = owners_under(subs.assignor(), alloc, &self.spread, subs, view)?;
        Ok(Target { spread, epoch })
    }

    /// What the target wants of the member with this id: no partition where it has none for it. Takes no memory, and no
    /// walk over the other members.
    pub fn of(&self, member: &str) -> Wanted<'_>
        ensures partitions { result.partitions ≡ share_of self.now.owners member.now }
        ensures epoch { result.epoch ≡ self.now.epoch }
    {
        Wanted::new(self.spread.share_of(member), self.epoch)
    }

    /// What the target wants of the member with this id, as [`Target::of`] says, and the place to give for the next member: members
    /// that are asked for in the order of their ids, from place 0 on, are found without a search, but for those without a share. Takes
    /// no memory.
    pub fn of_near(&self, member: &str, near: usize) -> (Wanted<'_>, usize)
        ensures partitions { result.0.partitions ≡ share_of self.now.owners member.now }
        ensures epoch { result.0.epoch ≡ self.now.epoch }
    {
        match self.spread.share_near(member, near) {
            Some((set, next)) => (Wanted::new(Some(set), self.epoch), next),
            None => (Wanted::new(None, self.epoch), near),
        }
    }

    /// The epoch of the group for which the target was worked out.
    pub fn epoch(&self) -> EpochNumber
        ensures { result ≡ self.now.epoch }
    {
        self.epoch
    }

    /// Takes the member out: nobody is to own its partitions until the target is renewed. Takes no memory.
    pub fn drop_member(&mut self, member: &str)
        ensures owners { self.new.owners ≡ without_owner self.old.owners member.now }
        ensures epoch { self.new.epoch ≡ self.old.epoch }
    {
        self.spread.drop_member(member);
    }

    /// Gives the set of the old id to the new one, which has none. Takes no memory.
    pub fn rename(&mut self, old: &str, new: MemberId)
        requires { (p : Key) → ¬ (finite.get self.old.owners p ≡ Some new) }
        ensures owners { self.new.owners ≡ renamed self.old.owners old.now new }
        ensures epoch { self.new.epoch ≡ self.old.epoch }
    {
        self.spread.rename(old, new);
    }
}

/// The owners of the partitions of the view under an assignor, where the former owners are known.
fn owners_under(
    name: AssignorName,
    alloc: Global,
    former: &Spread,
    subs: &Subs<'_>,
    view: &View,
) -> Result<Spread, AllocError>
    ensures owners { IfOk result (λ spread. AreOwners name view.now subs.now former.now spread) }
    ensures lawful { IfOk result (λ spread. IsLawful view.now subs.now spread) }
{
    match name {
        AssignorName::Range => Range.assign(alloc, former, subs, view),
        AssignorName::Uniform => Uniform.assign(alloc, former, subs, view),
    }
}
