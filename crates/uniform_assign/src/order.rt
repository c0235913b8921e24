//! The members in the order of what they own, so that the one that owns the most is at hand.

ghost use Rattle.std.specs.Prelude.{◌≡◌, ◌+◌, ◌<◌, ℕ, List, IfOk, length, slice_set};
ghost use Rattle.uniform_assign.specs.Orders.{IsFirstAbove, IsOrder, IsOrderBut};

use crate::count_set::CountSet;
use std::alloc::{AllocError, Global};

/// Nobody owns more.
const MOST: usize = usize::MAX;

/// The members in order: the one that owns the most comes first, and of several such the first.
#[derive(Drop)]
pub(crate) struct Order {
    /// What each count lacks of the most, so that the greatest count lacks the least.
    pub lacks: CountSet,
}

impl Order {
    /// The members in the order of the numbers of partitions that they own.
    pub fn of(alloc: Global, counts: &[usize]) -> Result<Order, AllocError>
        ensures { IfOk result (IsOrder counts.now) }
    {
        let mut lacks = Vec::with_capacity(alloc, counts.len())?;
        let mut members = Vec::with_capacity(alloc, counts.len())?;
        for (member, count) in counts.iter().enumerate() {
            lacks.push(MOST - *count)?;
            members.push(member)?;
        }
        Ok(Order {
            lacks: CountSet::of(alloc, &lacks, &members)?,
        })
    }

    /// The member that comes first, if it owns more than the limit.
    pub fn first_above(&self, limit: usize) -> Option<usize>
        ensures { (counts : List ℕ) → IsOrder counts self.now → IsFirstAbove counts limit result }
    {
        let first = self.lacks.first()?;
        if MOST - first.count > limit {
            Some(first.place)
        } else {
            None
        }
    }

    /// Writes the count of a member.
    pub fn set(&mut self, member: usize, count: usize)
        requires { member < length self.old.lacks }
        ensures { (counts : List ℕ) → IsOrder counts self.old → IsOrder (slice_set counts member count) self.new }
    {
        self.lacks.set(member, MOST - count);
    }

    /// Puts the members back that were set aside.
    pub fn put_back(&mut self, aside: &[usize], counts: &[usize])
        requires { IsOrderBut counts.now aside.now self.old }
        ensures { IsOrder counts.now self.new }
    {
        for member in aside {
            self.set(*member, counts[*member]);
        }
    }
}
