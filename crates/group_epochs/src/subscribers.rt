//! The members of a group as an assignor is given them.

ghost use Rattle.std.specs.Prelude.{◌≡◌, ◌++◌, OnOk, map};
ghost use Rattle.std.specs.VecDeque.Iter.{deque_iter_rest};
ghost use Rattle.range_assign.specs.Members.{subscribers_in};
ghost use Rattle.group_epochs.specs.Table.{is_place, other_places, rows_at, seen_of};

use crate::entry::Table;
use range_assign::Subscriber;
use std::alloc::AllocError;
use std::collections::vec_deque::Iter;

/// Adds the members at places, in the order of the places, but the one at a place of its own, if there is one. Where memory is short,
/// some of them may be in already.
pub fn add_others<'a>(
    subscribers: &mut Vec<Subscriber<'a>>,
    members: &'a Table,
    places: Iter<'_, usize>,
    own: Option<usize>,
) -> Result<(), AllocError>
    ensures { let others = rows_at members.now.entries (other_places own (deque_iter_rest places.entry)) in
        OnOk result (subscribers_in subscribers.new.items ≡ subscribers_in subscribers.old.items ++ map seen_of others) }
{
    for place in places {
        if is_place(own, *place) {
            continue;
        }
        if let Some((_, entry)) = members.get_index(*place) {
            subscribers.push(entry.kept.as_subscriber(&entry.id))?;
        }
    }
    Ok(())
}

/// Whether it is the place, if there is one.
fn is_place(own: Option<usize>, place: usize) -> bool
    ensures { result ≡ is_place own place }
{
    match own {
        Some(own) => own == place,
        None => false,
    }
}
