//! Who may read which partition.

ghost use Rattle.std.specs.Prelude.{◌≡◌, ◌≤ℤ◌, IfOk, IsTrue, None, OnErr, OnOk, is_none, pos, unwrap_or};
ghost use Rattle.std.specs.Option.{option_copied, option_map};
ghost use Rattle.std.specs.FinMap as finite;
ghost use Rattle.group_types.specs.Sets.{common, in_order, nothing};
ghost use Rattle.group_types.specs.Group.{held};
ghost use Rattle.group_types.specs.Settle.{granting, grants_after, grants_of_others, may_settle};
ghost use Rattle.group_reconcile.specs.Members.{parts_of};
ghost use Rattle.group_reconcile.specs.Holders.{AreFromZero, Settles, granted_at, holds, is_grantable, pairs, with_grant};
ghost use Rattle.group_reconcile.specs.Offers.{IsSince, KeepsSince, handed_over, verdict_of};

use crate::cell::Cell;
use crate::member_target::MemberTarget;
use crate::members::Members;
use crate::settle::{clear_each, make_room_for, may_move, next_of, settle};
use crate::table::Table;
use crate::verdict::Verdict;
use group_types::{EpochNumber, MemberId, PartSet, Partition, Wanted};
use std::alloc::{AllocError, Global};
use std::marker::Model;

/// Who may read which partition, and since which target (KIP-848, "Current Assignment"). A partition has at most one
/// holder.
#[derive(Drop)]
pub struct Grants {
    alloc: Global,
    table: Table,
    members: Members,
}

impl Model for Grants {
    ghost use Rattle.group_reconcile.specs.Holders.{Holders, holders_code};
    ghost use Rattle.group_reconcile.specs.Granted.{AreConsistent, holders_of};

    ghost Value = { Holders };

    ghost coded = { holders_code };

    ghost view = { λ a. holders_of a.members a.table.cells };

    ghost invariant = { λ a. AreConsistent a.members a.table.cells };
}

impl Grants {
    /// The grants in which every partition is free. Takes no memory.
    pub fn new(alloc: Global) -> Grants
        ensures { result ≡ finite.empty }
    {
        Grants {
            alloc,
            table: Table::new(alloc),
            members: Members::new(alloc),
        }
    }

    /// The id of the member that may read the partition, or none where it is free. Takes no memory.
    pub fn holder(&self, p: &Partition) -> Option<&str>
        ensures { option_copied result ≡ option_map (λ d. d.member) (finite.get self.now p.now) }
    {
        let cell = self.table.get(p)?;
        let member = self.members.get(cell.holder)?;
        Some(member.id.as_str())
    }

    /// Whether the member with this id may read the partition. Takes no memory.
    pub fn holds(&self, member: &str, p: &Partition) -> bool
        ensures { result ≡ holds self.now member.now p.now }
    {
        match self.holder(p) {
            Some(id) => id == member,
            None => false,
        }
    }

    /// Whether nobody may read the partition. Takes no memory.
    pub fn free(&self, p: &Partition) -> bool
        ensures { result ≡ is_none (finite.get self.now p.now) }
    {
        self.table.get(p).is_none()
    }

    /// The epoch of the target under which the partition was granted, or none where it is free. Takes no memory.
    pub fn granted_at(&self, p: &Partition) -> Option<EpochNumber>
        ensures { result ≡ granted_at self.now p.now }
    {
        match self.table.get(p) {
            Some(cell) => Some(cell.since),
            None => None,
        }
    }

    /// What the member with this id may read: none, or the empty set, where that is nothing. Takes no memory, and no walk
    /// over the other members.
    pub fn held(&self, member: &str) -> Option<&PartSet>
        ensures { unwrap_or (option_copied result) nothing ≡ held (pairs self.now) member.now }
    {
        parts_of(&self.members, self.members.find(member))
    }

    /// What the member with this id may read, as [`Grants::held`] says, and the place to give for the next member: members that
    /// are asked for in the order of their ids, from place 0 on, are found without a search. Takes no memory.
    pub fn held_near(&self, member: &str, near: usize) -> (Option<&PartSet>, usize)
        ensures { unwrap_or (option_copied result.0) nothing ≡ held (pairs self.now) member.now }
    {
        let (number, next) = self.members.find_near(member, near);
        (parts_of(&self.members, number), next)
    }

    /// Offers its target to a member that reports what it owns, or nothing (KIP-848, "Reconciliation of the group"): it
    /// moves once it has given up what isn't its target any more, and is then granted what nobody else holds of the target.
    /// If memory is short, nothing has changed.
    pub fn offer(
        &mut self,
        member: &MemberId,
        target: &MemberTarget<'_>,
        owned: Option<&PartSet>,
    ) -> Result<Verdict, AllocError>
        ensures verdict { let may = may_settle (pairs self.old) member.now target.now.wanted.partitions (option_copied owned.entry) in
            IfOk result (λ v. v ≡ verdict_of may) }
        ensures grants { let may = may_settle (pairs self.old) member.now target.now.wanted.partitions (option_copied owned.entry) in
            OnOk result (pairs self.new ≡ grants_after may (pairs self.old) member.now target.now.wanted.partitions) }
        ensures since { OnOk result (IsSince self.old self.new member.now target.now.wanted.epoch) }
        ensures err { OnErr result (self.new ≡ self.old) }
    {
        let id = member.as_str();
        let wanted = &target.wanted;
        if self.is_settled(id, wanted) {
            return Ok(Verdict::Moves);
        }
        if !self.may_settle(id, wanted, owned) {
            return Ok(Verdict::StillHolds);
        }
        self.settle_on(member, wanted)?;
        Ok(Verdict::Moves)
    }

    /// Whether the member holds its whole target and nothing else: nothing comes of an offer then. Takes no memory.
    fn is_settled(&self, member: &str, target: &Wanted<'_>) -> bool
        ensures { IsTrue result → held (pairs self.now) member.now ≡ target.now.partitions }
    {
        let Some(parts) = self.held(member) else {
            return false;
        };
        match target.set() {
            Some(set) => parts.equals(set),
            None => false,
        }
    }

    /// Whether a member that reports what it owns, or nothing, may go on to its target.
    fn may_settle(&self, member: &str, target: &Wanted<'_>, owned: Option<&PartSet>) -> bool
        ensures { result ≡ may_settle (pairs self.now) member.now target.now.partitions (option_copied owned.entry) }
    {
        match self.held(member) {
            Some(parts) => may_move(parts, target, owned),
            None => true,
        }
    }

    /// Settles a member on its target: what can fail comes first. Where memory is short, nothing has changed.
    fn settle_on(&mut self, member: &MemberId, target: &Wanted<'_>) -> Result<(), AllocError>
        requires { AreFromZero target.now.partitions }
        ensures settled { OnOk result (Settles self.old member.now target.now.partitions target.now.epoch self.new) }
        ensures err { OnErr result (self.new ≡ self.old) }
    {
        let number = self.members.find(member.as_str());
        let next = next_of(&self.table, self.alloc, number, target)?;
        make_room_for(&mut self.table, self.alloc, &next)?;
        let number = self.members.number_for(self.alloc, member)?;
        settle(
            &mut self.table,
            &mut self.members,
            number,
            next,
            target.epoch(),
        );
        Ok(())
    }

    /// What the member may read of its target once the target was offered to it (KIP-848, "Reconciliation of the group"): what a
    /// reply then shows. Fails where memory is short.
    pub fn shown_after(
        &self,
        member: &str,
        target: &Wanted<'_>,
        owned: Option<&PartSet>,
    ) -> Result<PartSet, AllocError>
        ensures { let may = may_settle (pairs self.now) member.now target.now.partitions (option_copied owned.entry) in
            IfOk result (λ set. set ≡ common (held (grants_after may (pairs self.now) member.now target.now.partitions) member.now) target.now.partitions) }
    {
        if self.is_settled(member, target) {
            return target.copy_set(self.alloc);
        }
        if self.may_settle(member, target, owned) {
            next_of(&self.table, self.alloc, self.members.find(member), target)
        } else {
            self.held_of(member, target)
        }
    }

    /// What the member may read of its target today. Fails where memory is short.
    fn held_of(&self, member: &str, target: &Wanted<'_>) -> Result<PartSet, AllocError>
        ensures { IfOk result (λ set. set ≡ common (held (pairs self.now) member.now) target.now.partitions) }
    {
        let Some(held) = self.held(member) else {
            return Ok(PartSet::new(self.alloc));
        };
        let mut set = target.copy_set(self.alloc)?;
        set.retain_common(held);
        Ok(set)
    }

    /// Grants a free partition to the member since an epoch, and says whether it did: not where somebody may read it, and not
    /// where its index is below 0, which no topic has. So grants that were read out are built again. Where memory is short,
    /// nothing has changed. The time is that of a search for the member, where its partitions come rising.
    pub fn restore(
        &mut self,
        member: &MemberId,
        p: &Partition,
        since: EpochNumber,
    ) -> Result<bool, AllocError>
        ensures granted { IfOk result (λ granted. granted ≡ is_grantable self.old p.now) }
        ensures holders { OnOk result (self.new ≡ with_grant self.old p.now (record { member = member.now; since = since })) }
        ensures err { OnErr result (self.new ≡ self.old) }
    {
        if !self.is_grantable(p) {
            return Ok(false);
        }
        self.grant(member, p, since)?;
        Ok(true)
    }

    /// Whether the partition is free and may be held.
    fn is_grantable(&self, p: &Partition) -> bool
        ensures grantable { result ≡ is_grantable self.now p.now }
        ensures index { IsTrue result → pos 0 ≤ℤ p.now.index }
    {
        p.index >= 0 && self.free(p)
    }

    /// Grants a free partition to the member. Where memory is short, nothing has changed.
    fn grant(
        &mut self,
        member: &MemberId,
        p: &Partition,
        since: EpochNumber,
    ) -> Result<(), AllocError>
        requires free { finite.get self.old p.now ≡ None }
        requires index { pos 0 ≤ℤ p.now.index }
        ensures holders { OnOk result (self.new ≡ finite.insert self.old p.now (record { member = member.now; since = since })) }
        ensures err { OnErr result (self.new ≡ self.old) }
    {
        self.table.make_room(self.alloc, p)?;
        let number = self.members.number_for(self.alloc, member)?;
        self.members.add_part(number, *p)?;
        let cell = Cell {
            holder: number,
            since,
        };
        self.table.put(p, cell);
        Ok(())
    }

    /// Takes all that the member with this id may read from it. Takes no memory, and no walk over the other members.
    pub fn drop_member(&mut self, member: &str)
        ensures grants { pairs self.new ≡ grants_of_others (pairs self.old) member.now }
        ensures since { KeepsSince self.old self.new }
    {
        if let Some(parts) = self.members.take(member) {
            clear_each(&mut self.table, &parts);
            self.give_back();
        }
    }

    /// Gives back the room of the tables where no member is left who could hold a partition. Takes no memory.
    fn give_back(&mut self)
        ensures { self.new ≡ self.old }
    {
        if self.members.give_back() {
            self.table.clear_all();
        }
    }

    /// Gives all that the old id may read to the new one, which may read nothing. Takes no memory, and no walk over the
    /// partitions.
    pub fn hand_over(&mut self, old: &str, new: MemberId)
        requires { held (pairs self.old) new ≡ nothing }
        ensures holders { self.new ≡ handed_over self.old old.now new }
        ensures grants { pairs self.new ≡ granting (grants_of_others (pairs self.old) old.now) new (in_order (held (pairs self.old) old.now)) }
    {
        let _ = self.members.take(new.as_str());
        self.members.rename(old, new);
    }
}

/// What the member with this number may read, or none where there is no such member.
fn parts_of(members: &Members, number: Option<usize>) -> Option<&PartSet>
    ensures { unwrap_or (option_copied result) nothing ≡ unwrap_or (option_map (parts_of members.now) number) nothing }
{
    let member = members.get(number?)?;
    Some(&member.parts)
}
