//! Who owns which partition.

ghost use Rattle.std.specs.Prelude.{◌≡◌, ◌<◌, ◌∷◌, ◌++◌, ◌↔◌, Err, IfOk, IfSome, IsPermutation, IsTrue, MatchOption, OnOk, Some, false, vec_capacity, vec_len};
ghost use Rattle.std.specs.Bool.{OnTrue};
ghost use Rattle.std.specs.Ordering.{is_lt};
ghost use Rattle.std.specs.FinMap as finite;
ghost use Rattle.group_types.specs.declared.partition.Partition.{Partition as Key};
ghost use Rattle.group_types.specs.Owners.{IsShare, renamed, without_owner};
ghost use Rattle.group_types.specs.Sets.{in_order};
ghost use Rattle.group_types.specs.Text.{Text, text_cmp};
ghost use Rattle.range_assign.specs.Shares.{AreInIdOrder, AreShares, HasNoShare, IdsRise, IsPlace, SetsAreApart, TakesShare, partitions_in, share_in, shares_in, spread_of};

use group_types::{MemberId, PartSet, Partition};
use std::alloc::{AllocError, Global};
use std::marker::Model;

/// The partitions of one member.
#[derive(Drop)]
pub struct Share {
    pub id: MemberId,
    pub set: PartSet,
}

impl Share {
    /// A copy of the share. Fails where memory is short.
    pub fn copy(&self, alloc: Global) -> Result<Share, AllocError>
        ensures { IfOk result (λ copy. share_in copy ≡ share_in self.now) }
    {
        Ok(Share {
            id: self.id.copy(alloc)?,
            set: self.set.copy(alloc)?,
        })
    }
}

/// Who owns which partition: each partition has at most one owner.
///
/// The shares are in the order of their ids' bytes, so that a member's share is found without a walk over the others.
#[derive(Drop)]
pub struct Spread {
    shares: Vec<Share>,
}

impl Model for Spread {
    ghost use Rattle.group_types.specs.Owners.{Spread as Owners};
    ghost use Rattle.range_assign.specs.Shares.{AreInIdOrder, owners_code, shares_in, spread_of};

    ghost Value = { Owners };

    ghost coded = { owners_code };

    ghost view = { λ s. spread_of (shares_in s.shares.items) };

    ghost invariant = { λ s. AreInIdOrder (shares_in s.shares.items) };
}

impl Spread {
    /// The spread in which no partition has an owner. Takes no memory.
    pub fn empty(alloc: Global) -> Spread
        ensures { result ≡ finite.empty }
    {
        Spread {
            shares: Vec::new(alloc),
        }
    }

    /// The spread of these shares, of which no two have one id or one partition. Takes no memory.
    pub fn of(shares: Vec<Share>) -> Spread
        requires { AreShares (shares_in shares.items) }
        ensures { result ≡ spread_of (shares_in shares.items) }
    {
        let mut shares = shares;
        shares.sort_unstable_by(|a, b| a.id.compare(b.id.as_str()));
        Spread { shares }
    }

    /// The spread of these shares, or none where two of them have one id or one partition. Fails where memory is short. The time
    /// grows as n log n with the shares and with the partitions.
    pub fn try_of(alloc: Global, shares: Vec<Share>) -> Result<Option<Spread>, AllocError>
        ensures { IfOk result (λ spread. MatchOption spread (¬ AreShares (shares_in shares.items))
            (λ s. AreShares (shares_in shares.items) × (s ≡ spread_of (shares_in shares.items)))) }
    {
        let mut shares = shares;
        shares.sort_unstable_by(|a, b| a.id.compare(b.id.as_str()));
        if !ids_rise(&shares) {
            return Ok(None);
        }
        let apart = sets_are_apart(alloc, &shares)?;
        if !apart {
            return Ok(None);
        }
        Ok(Some(Spread { shares }))
    }

    /// The members' shares, in the order of their ids.
    pub fn shares(&self) -> &[Share]
        ensures spread { spread_of (shares_in result.now) ≡ self.now }
        ensures apart { AreShares (shares_in result.now) }
    {
        self.shares.as_slice()
    }

    /// An equal spread, each set of which is copied as it stands. Fails where memory is short.
    pub fn copy(&self, alloc: Global) -> Result<Spread, AllocError>
        ensures { IfOk result (λ copy. copy ≡ self.now) }
    {
        let shares = copies(alloc, &self.shares)?;
        Ok(Spread { shares })
    }

    /// The partitions of the member with this id. A member that owns none has no set or an empty one. Takes no memory.
    pub fn share_of(&self, id: &str) -> Option<&PartSet>
        ensures { MatchOption result ((p : Key) → ¬ (finite.get self.now p ≡ Some id.now))
            (λ set. IsShare self.now id.now set.now) }
    {
        match place_of(&self.shares, id) {
            Ok(place) => Some(&self.shares[place].set),
            Err(_) => None,
        }
    }

    /// Whether no member owns a partition whose id is this one or behind it: a walk over members in the order of their ids
    /// can end there. It may be false where that is so. Takes no memory.
    pub fn none_from(&self, id: &str) -> bool
        ensures { OnTrue result ((m : Text) (p : Key) → is_lt (text_cmp m id.now) ≡ false → ¬ (finite.get self.now p ≡ Some m)) }
    {
        match self.shares.last() {
            Some(share) => share.id.compare(id).is_lt(),
            None => true,
        }
    }

    /// The partitions of the member with this id, as [`Spread::share_of`] tells, and where the share after them is. A
    /// member is found without a search where its share, or the place where it would be, is the one that was told for the
    /// member before it: so the members of a group are looked up in the order of their ids. Takes no memory.
    pub fn share_near(&self, id: &str, near: usize) -> Option<(&PartSet, usize)>
        ensures { MatchOption result ((p : Key) → ¬ (finite.get self.now p ≡ Some id.now))
            (λ found. IsShare self.now id.now found.0.now) }
    {
        match place_near(&self.shares, id, near) {
            Ok(place) => Some((&self.shares[place].set, place + 1)),
            Err(_) => None,
        }
    }

    /// Takes the member with this id out: its partitions have no owner any more. Takes no memory.
    pub fn drop_member(&mut self, id: &str)
        ensures { self.new ≡ without_owner self.old id.now }
    {
        let _ = take_share(&mut self.shares, id);
        give_back(&mut self.shares);
    }

    /// Gives the partitions of the old id to the new one, which owns none. Takes no memory.
    pub fn rename(&mut self, old: &str, new: MemberId)
        requires { (p : Key) → ¬ (finite.get self.old p ≡ Some new) }
        ensures { self.new ≡ renamed self.old old.now new }
    {
        let _ = take_share(&mut self.shares, new.as_str());
        if let Some(set) = take_share(&mut self.shares, old) {
            put_share(&mut self.shares, Share { id: new, set });
        }
    }
}

/// Whether each share's id is before that of the next.
fn ids_rise(shares: &[Share]) -> bool
    ensures { IsTrue result ↔ IdsRise (shares_in shares.now) }
{
    for at in 1..shares.len() {
        if !shares[at - 1].id.compare(shares[at].id.as_str()).is_lt() {
            return false;
        }
    }
    true
}

/// Whether no two shares have one partition: as a set, the partitions of all are as many as in a list.
fn sets_are_apart(alloc: Global, shares: &[Share]) -> Result<bool, AllocError>
    ensures { IfOk result (λ apart. IsTrue apart ↔ SetsAreApart (shares_in shares.now)) }
{
    let all = partitions_of(alloc, shares)?;
    let count = all.as_slice().len();
    Ok(PartSet::of_vec(all).len() == count)
}

/// The partitions of all shares, share by share.
fn partitions_of(alloc: Global, shares: &[Share]) -> Result<Vec<Partition>, AllocError>
    ensures { IfOk result (λ all. all.items ≡ partitions_in (shares_in shares.now)) }
{
    let mut all = Vec::new(alloc);
    for share in shares {
        add_each(&mut all, &share.set)?;
    }
    Ok(all)
}

/// Adds the partitions of a set, in their order.
fn add_each(all: &mut Vec<Partition>, set: &PartSet) -> Result<(), AllocError>
    ensures { OnOk result (all.new.items ≡ all.old.items ++ in_order set.now) }
{
    for p in set.iter() {
        all.push(*p)?;
    }
    Ok(())
}

/// Gives back the room of the shares where none is left. Takes no memory.
fn give_back(shares: &mut Vec<Share>)
    ensures { shares.new.items ≡ shares.old.items }
{
    if shares.is_empty() {
        shares.shrink_to_fit();
    }
}

/// A copy of each share, in their order.
fn copies(alloc: Global, shares: &[Share]) -> Result<Vec<Share>, AllocError>
    ensures { IfOk result (λ copies. shares_in copies.items ≡ shares_in shares.now) }
{
    let mut copies = Vec::with_capacity(alloc, shares.len())?;
    for share in shares {
        copies.push(share.copy(alloc)?)?;
    }
    Ok(copies)
}

/// Takes the share with this id out, if there is one.
fn take_share(shares: &mut Vec<Share>, id: &str) -> Option<PartSet>
    requires { AreInIdOrder (shares_in shares.old.items) }
    ensures order { AreInIdOrder (shares_in shares.new.items) }
    ensures taken { TakesShare (shares_in shares.old.items) (shares_in shares.new.items) id.now result }
    ensures gone { HasNoShare (shares_in shares.new.items) id.now }
    ensures room { IfSome result (λ _. vec_len shares.new < vec_capacity shares.new) }
{
    let Ok(place) = place_of(shares, id) else {
        return None;
    };
    let Share { id: _, set } = shares.remove(place);
    Some(set)
}

/// Puts the share among the others, for which there is room.
fn put_share(shares: &mut Vec<Share>, share: Share)
    requires room { vec_len shares.old < vec_capacity shares.old }
    requires order { AreInIdOrder (shares_in shares.old.items) }
    requires apart { AreShares (share_in share ∷ shares_in shares.old.items) }
    ensures order { AreInIdOrder (shares_in shares.new.items) }
    ensures put { IsPermutation (share_in share ∷ shares_in shares.old.items) (shares_in shares.new.items) }
{
    let Err(place) = place_of(shares, share.id.as_str()) else {
        unreachable!()
    };
    let Ok(()) = shares.insert(place, share) else {
        unreachable!()
    };
}

/// The place of the share with this id, or the place where such a share goes.
fn place_of(shares: &[Share], id: &str) -> Result<usize, usize>
    requires { IdsRise (shares_in shares.now) }
    ensures { IsPlace (shares_in shares.now) id.now result }
{
    shares.binary_search_by(|share| share.id.compare(id))
}

/// The place of the share with this id, or the place where such a share goes: without a search where that is `near`.
fn place_near(shares: &[Share], id: &str, near: usize) -> Result<usize, usize>
    requires { IdsRise (shares_in shares.now) }
    ensures { IsPlace (shares_in shares.now) id.now result }
{
    if near < shares.len() && shares[near].id.is(id) {
        return Ok(near);
    }
    if is_gap(shares, id, near) {
        return Err(near);
    }
    place_of(shares, id)
}

/// Whether a share with this id goes to the place.
fn is_gap(shares: &[Share], id: &str, place: usize) -> bool
    requires { IdsRise (shares_in shares.now) }
    ensures { OnTrue result (IsPlace (shares_in shares.now) id.now (Err place)) }
{
    if place > shares.len() {
        return false;
    }
    if place > 0 && !shares[place - 1].id.compare(id).is_lt() {
        return false;
    }
    place == shares.len() || shares[place].id.compare(id).is_gt()
}
