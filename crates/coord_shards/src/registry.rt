//! The seats that are given out.
ghost use Rattle.std.specs.Prelude.{◌≡◌, ◌+◌, ◌*◌, ◌<◌, IfSome, IfNone};
ghost use Rattle.coord_shards.specs.declared.limits.TheConstants.{MOST_SEATS};
ghost use Rattle.coord_shards.specs.Seat.{most_calls, most_entries};

use crate::limits::MOST_SEATS;
use std::sync::ledger::{Book, Ledger, Share};

/// How many seats are given out, and, for those that are left, a part each with the most calls of a seat. Beside it is a share of
/// the entries without any part, to which those of the shards come at the end.
#[derive(Drop)]
pub(crate) struct Registry<A: Ledger, C: Ledger> {
    pub(crate) given: usize,
    pub(crate) seats: Share<C>,
    pub(crate) entries: Share<A>,
    pub(crate) ghost seats_left: { seats.parts + given ≡ MOST_SEATS },
    pub(crate) ghost calls_left: { seats.amount ≡ seats.parts * most_calls },
    pub(crate) ghost no_entries: { (entries.parts ≡ 0) × (entries.amount ≡ 0) },
}

impl<A: Ledger, C: Ledger> Registry<A, C> {
    /// Gives out the next seat, whose number is how many were given out: that number, and its share with the most calls of a seat.
    /// None is left once as many were given out as there are.
    pub(crate) fn next(&mut self) -> Option<(usize, Share<C>)>
        ensures share { IfSome result (λ seat. (seat.1.parts ≡ 1) × (seat.1.amount ≡ most_calls)) }
        ensures number { IfSome result (λ seat. (seat.0 ≡ self.old.given) × (seat.0 < MOST_SEATS) × (self.new.given ≡ self.old.given + 1)) }
        ensures none { IfNone result (self.old.given ≡ MOST_SEATS) }
    {
        if self.given >= MOST_SEATS {
            return None;
        }
        let number = self.given;
        let share = self.seats.split_off(1, u64::MAX);
        self.given = number + 1;
        Some((number, share))
    }
}

/// Enters a unit for each call that all seats can make, and adds these units to a share.
pub(crate) fn fill<L: Ledger>(book: &mut Book<L>, share: &mut Share<L>)
    requires { 0 < share.old.parts }
    ensures total { book.new.total ≡ book.old.total + most_entries }
    ensures amount { share.new.amount ≡ share.old.amount + most_entries }
    ensures parts { share.new.parts ≡ share.old.parts }
{
    for _seat in 0..MOST_SEATS {
        book.add(share, u64::MAX);
    }
}
