//! Where each member is among the takers of the classes.

ghost use Rattle.std.specs.Prelude.{◌≡◌, ◌<◌, [], All, IfOk, OnOk, length};
ghost use Rattle.uniform_assign.specs.Boards.{IsBoard, members_on};
ghost use Rattle.uniform_assign.specs.Seats.{AddsSeats, AreSeats, Seated};

use crate::board::Board;
use std::alloc::{AllocError, Global};

/// A member's place among the takers of a class.
#[derive(Clone, Copy)]
pub(crate) struct Seat {
    pub class: usize,
    pub place: usize,
}

impl Board<'_> {
    /// For each member its places among the takers of the classes.
    pub fn seats(&self, alloc: Global) -> Result<Vec<Vec<Seat>>, AllocError>
        requires { IsBoard self.now }
        ensures { IfOk result (λ seats. AreSeats self.now (length self.now.takers.items) seats.items) }
    {
        let mut seats = no_seats(alloc, self.members.len())?;
        for class in 0..self.takers.len() {
            add_seats(&mut seats, class, &self.takers[class])?;
        }
        Ok(seats)
    }
}

/// No place for each member.
fn no_seats(alloc: Global, members: usize) -> Result<Vec<Vec<Seat>>, AllocError>
    ensures as_many { IfOk result (λ seats. length seats.items ≡ members) }
    ensures empty { IfOk result (λ seats. All (λ (list : Seated). list.items ≡ []) seats.items) }
{
    let mut seats = Vec::with_capacity(alloc, members)?;
    for _ in 0..members {
        seats.push(Vec::new(alloc))?;
    }
    Ok(seats)
}

/// Adds the places among the takers of a class.
fn add_seats(seats: &mut Vec<Vec<Seat>>, class: usize, takers: &[usize]) -> Result<(), AllocError>
    requires { All (λ t. t < length seats.old.items) takers.now }
    ensures { OnOk result (AddsSeats takers.now class (length takers.now) seats.old.items seats.new.items) }
{
    for (place, member) in takers.iter().enumerate() {
        seats[*member].push(Seat { class, place })?;
    }
    Ok(())
}
