//! The members of a group as an assignor sees them.

ghost use Rattle.std.specs.Prelude.{◌≡◌, ◌↔◌, map, IsSorted, IsPermutation, IsTrue, if◌then◌else◌};
ghost use Rattle.group_types.specs.Assignors.{IdsAreApart, asks_for, assignor_of, member_cmp, votes};
ghost use Rattle.range_assign.specs.Members.{subscriber_of, subscribers_in};

use group_types::{AssignorName, MemberId, NameSet};
use std::cmp::Ordering;
use std::marker::Model;

/// A member of a group as an assignor sees it.
#[derive(Clone, Copy)]
pub struct Subscriber<'a> {
    pub id: &'a MemberId,
    /// The id that a static member keeps over restarts.
    pub instance: Option<&'a str>,
    /// The topics that the member subscribes.
    pub names: &'a NameSet,
    /// The assignor that the member asks for.
    pub assignor: Option<AssignorName>,
}

impl<'a> Subscriber<'a> {
    /// Whether no two of the members have one id. Takes no memory; the time grows with the square of their number.
    pub fn are_apart(members: &[Subscriber<'a>]) -> bool
        ensures { IsTrue result ↔ IdsAreApart (subscribers_in members.now) }
    {
        for (place, later) in members.iter().enumerate() {
            for earlier in &members[..place] {
                if earlier.id.is(later.id.as_str()) {
                    return false;
                }
            }
        }
        true
    }
}

/// The members of a group in member order: those with an instance, by its bytes; then the others, by their ids' bytes.
#[derive(Drop)]
pub struct Subs<'a> {
    members: Vec<Subscriber<'a>>,
}

impl<'a> Model for Subs<'a> {
    ghost use Rattle.std.specs.Prelude.{List};
    ghost use Rattle.group_types.specs.Assignors.{Subscriber as Member};
    ghost use Rattle.range_assign.specs.Members.{AreInOrder, subscribers_code, subscribers_in};

    ghost Value = { List Member };

    ghost coded = { subscribers_code };

    ghost view = { λ s. subscribers_in s.members.items };

    ghost invariant = { λ s. AreInOrder (subscribers_in s.members.items) };
}

impl<'a> Subs<'a> {
    /// The members in member order. No two have one id, as [`Subscriber::are_apart`] tells. Takes no memory.
    pub fn of(members: Vec<Subscriber<'a>>) -> Subs<'a>
        requires { IdsAreApart (subscribers_in members.items) }
        ensures same { IsPermutation (subscribers_in members.entry.items) result }
        ensures sorted { IsSorted member_cmp result }
    {
        let mut members = members;
        members.sort_unstable_by(|a, b| member_order(a, b));
        Subs::in_order(members)
    }

    /// The members, which are given in member order; no two of them have one id. Compares none of them. Takes no memory.
    pub fn in_order(members: Vec<Subscriber<'a>>) -> Subs<'a>
        requires sorted { IsSorted member_cmp (subscribers_in members.items) }
        requires apart { IdsAreApart (subscribers_in members.items) }
        ensures { result ≡ subscribers_in members.entry.items }
    {
        Subs { members }
    }

    /// The members, in member order.
    pub fn members(&self) -> &[Subscriber<'a>]
        ensures all { subscribers_in result.now ≡ self.now }
        ensures sorted { IsSorted member_cmp self.now }
        ensures apart { IdsAreApart self.now }
    {
        &self.members
    }

    /// The group's assignor: range where more members ask for it than for uniform, otherwise uniform.
    pub fn assignor(&self) -> AssignorName
        ensures { result ≡ assignor_of self.now }
    {
        let (range, uniform) = votes_of(self.members());
        if range > uniform {
            AssignorName::Range
        } else {
            AssignorName::Uniform
        }
    }
}

/// Which of two members comes first.
fn member_order(a: &Subscriber<'_>, b: &Subscriber<'_>) -> Ordering
    ensures { result ≡ member_cmp (subscriber_of a.now) (subscriber_of b.now) }
{
    let by_id = a.id.compare(b.id.as_str());
    match (a.instance, b.instance) {
        (Some(one), Some(other)) => one.cmp(other).then(by_id),
        (Some(_), None) => Ordering::Less,
        (None, Some(_)) => Ordering::Greater,
        (None, None) => by_id,
    }
}

/// How many members ask for range, and how many for uniform: one walk over them.
fn votes_of(members: &[Subscriber<'_>]) -> (usize, usize)
    ensures range { result.0 ≡ votes (subscribers_in members.now) AssignorName.Range }
    ensures uniform { result.1 ≡ votes (subscribers_in members.now) AssignorName.Uniform }
{
    let mut range = 0;
    let mut uniform = 0;
    for member in members {
        range += one_if(asks_for(AssignorName::Range, member.assignor));
        uniform += one_if(asks_for(AssignorName::Uniform, member.assignor));
    }
    (range, uniform)
}

/// Whether the vote is one for the assignor.
fn asks_for(name: AssignorName, vote: Option<AssignorName>) -> bool
    ensures { result ≡ asks_for name vote }
{
    vote == Some(name)
}

/// One where it holds, else 0.
fn one_if(holds: bool) -> usize
    ensures { result ≡ (if holds then 1 else 0) }
{
    if holds { 1 } else { 0 }
}
