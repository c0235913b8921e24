//! Deadlines of members.

ghost use Rattle.std.specs.Prelude.{◌≡◌, min, ◌^◌, ◌-◌, Some};
ghost use Rattle.std.specs.FinMap as finite;
ghost use Rattle.group_types.specs.Group.{Record as Kept, Records as RecordsById};
ghost use Rattle.group_types.specs.Text.{Text};
ghost use Rattle.group_epochs.specs.Deadlines.{IsSearched, first_of_all};
ghost use Rattle.group_epochs.specs.Table.{NoneIsDueBefore, member_at};

use crate::entry::Table;
use group_types::Moment;

/// The earlier of two moments.
pub fn earlier(one: Moment, other: Moment) -> Moment
    ensures { result ≡ min one other }
{
    if one <= other { one } else { other }
}

/// The first of all members' deadlines, or the greatest moment where nobody has one. Takes no memory.
pub fn first_of_all(members: &Table) -> Moment
    ensures { result ≡ first_of_all (2 ^ 64 - 1) members.now.entries }
{
    let mut first = Moment::of_millis(u64::MAX);
    for (_, entry) in members {
        first = earlier(first, entry.kept.first_deadline());
    }
    first
}

/// How far a search for a due member came: at its moment nobody before its rank was due, in the order of the members' ids.
#[derive(Drop)]
pub struct Searched {
    pub clock: Moment,
    pub rank: usize,
}

impl Searched {
    /// Nobody has been looked at: there is nobody before the first rank. Takes no memory.
    pub fn restart(&mut self)
        ensures { (records : RecordsById) → IsSearched self.new records }
    {
        self.rank = 0;
    }

    /// The member at a rank goes: those before it keep their ranks. Takes no memory.
    pub fn leave_out(&mut self, rank: usize)
        ensures { (records : RecordsById) (m : Text) (r : Kept) → member_at records rank ≡ Some (m, r)
            → IsSearched self.old records → IsSearched self.new (finite.remove records m) }
    {
        self.rank = self.rank.min(rank);
    }

    /// The rank at which a search at a moment begins: nobody before it is due. Takes no memory.
    pub fn start(&self, clock: Moment) -> usize
        ensures { (records : RecordsById) → IsSearched self.now records → NoneIsDueBefore records clock result }
    {
        if self.clock == clock { self.rank } else { 0 }
    }
}
