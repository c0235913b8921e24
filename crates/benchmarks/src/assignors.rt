//! The assignors, over 100,000 partitions.

ghost use Rattle.std.specs.Prelude.{◌≤◌, length};

use crate::command_line::Mode;
use crate::fault::Fault;
use crate::group::{Seat, Wish, seats_of, subs_of, view_of};
use crate::print::print_work;
use crate::table::head_line;
use crate::work::Work;
use range_assign::{Assignor, Range, Spread, Subs};
use std::alloc::Global;
use std::rt::Clock;
use topic_meta::View;
use uniform_assign::Uniform;

/// How many members the measured groups have.
const SIZES: [u16; 3] = [10, 100, 1_000];

/// An assignor makes a spread of members and topics. Gives how many partitions have an owner.
#[derive(Clone, Copy)]
struct Assigned<'a, 'm, A> {
    alloc: Global,
    assignor: A,
    former: &'a Spread,
    subs: &'a Subs<'m>,
    view: &'a View,
}

impl<A: Assignor + Copy> Work for Assigned<'_, '_, A> {
    ghost can_be_done = { λ _. Unit {0} };

    fn once(&self, _out: &mut Vec<u8>) -> Result<usize, Fault> {
        let spread = self
            .assignor
            .assign(self.alloc, self.former, self.subs, self.view)?;
        Ok(owned_in(&spread, self.subs))
    }
}

/// How many partitions a member owns.
fn owned_by(spread: &Spread, id: &str) -> usize {
    spread.share_of(id).map_or(0, |set| set.len())
}

/// How many partitions the members own together.
fn owned_in(spread: &Spread, subs: &Subs<'_>) -> usize {
    let mut owned = 0usize;
    for member in subs.members() {
        owned = owned.saturating_add(owned_by(spread, member.id.as_str()));
    }
    owned
}

/// Prints what the assignors do, or how long they take: over one topic, and over most of 100.
pub fn print_assignors(rt: &(impl AllocGlobal + Clock + Print), mode: Mode) -> Result<(), Fault> {
    rt.println(head_line(rt.alloc(), mode, "assignor", "members", "partitions")?)?;
    let one = view_of(rt.alloc(), 1, 100_000)?;
    for members in SIZES {
        print_one_topic(rt, mode, &one, members)?;
    }
    let many = view_of(rt.alloc(), 100, 1_000)?;
    for members in SIZES {
        print_many_topics(rt, mode, &many, members)?;
    }
    Ok(())
}

/// What is assigned: a view to some of the members that have these seats, after former owners.
#[derive(Clone, Copy)]
struct Setting<'a> {
    seats: &'a [Seat],
    view: &'a View,
    former: &'a Spread,
}

/// Prints the groups of `members` members, of one more and of one fewer, that subscribe one topic.
fn print_one_topic(
    rt: &(impl AllocGlobal + Clock + Print),
    mode: Mode,
    view: &View,
    members: u16,
) -> Result<(), Fault> {
    let more = members.saturating_add(1);
    let seats = seats_of(rt.alloc(), more, 1, Wish::All)?;
    let setting = Setting {
        seats: seats.as_slice(),
        view,
        former: &Spread::empty(rt.alloc()),
    };
    print_assigned(rt, mode, "range, 1 topic", Range, setting, members)?;
    print_assigned(rt, mode, "uniform, 1 topic", Uniform, setting, members)?;
    print_changes(rt, mode, setting, members, more)
}

/// Prints the groups of the same members, of more and of one member fewer, after the owners under uniform.
fn print_changes(
    rt: &(impl AllocGlobal + Clock + Print),
    mode: Mode,
    setting: Setting<'_>,
    members: u16,
    more: u16,
) -> Result<(), Fault>
    requires members { members ≤ length setting.seats.now }
    requires more { more ≤ length setting.seats.now }
{
    let former = &spread_of(rt.alloc(), Uniform, setting, members)?;
    let setting = Setting { former, ..setting };
    for (name, members) in [
        ("uniform, 1 topic, the same members", members),
        ("uniform, 1 topic, a member more", more),
        (
            "uniform, 1 topic, a member fewer",
            members.saturating_sub(1),
        ),
    ] {
        print_assigned(rt, mode, name, Uniform, setting, members)?;
    }
    Ok(())
}

/// Prints a group of `members` members, each of which subscribes three of four topics.
fn print_many_topics(
    rt: &(impl AllocGlobal + Clock + Print),
    mode: Mode,
    view: &View,
    members: u16,
) -> Result<(), Fault> {
    let seats = seats_of(rt.alloc(), members, 100, Wish::ThreeOfFour)?;
    let setting = Setting {
        seats: seats.as_slice(),
        view,
        former: &Spread::empty(rt.alloc()),
    };
    print_assigned(rt, mode, "range, 100 topics", Range, setting, members)?;
    print_assigned(rt, mode, "uniform, 100 topics", Uniform, setting, members)
}

/// The owners under an assignor that is given the first `members` members.
fn spread_of<A: Assignor + Copy>(
    alloc: Global,
    assignor: A,
    setting: Setting<'_>,
    members: u16,
) -> Result<Spread, Fault>
    requires { members ≤ length setting.seats.now }
{
    let subs = subs_of(alloc, setting.seats, members)?;
    Ok(assignor.assign(alloc, setting.former, &subs, setting.view)?)
}

/// Prints the line of an assignor that is given the first `members` members.
fn print_assigned<A: Assignor + Copy>(
    rt: &(impl AllocGlobal + Clock + Print),
    mode: Mode,
    name: &str,
    assignor: A,
    setting: Setting<'_>,
    members: u16,
) -> Result<(), Fault>
    requires { members ≤ length setting.seats.now }
{
    let subs = &subs_of(rt.alloc(), setting.seats, members)?;
    let work = Assigned {
        alloc: rt.alloc(),
        assignor,
        former: setting.former,
        subs,
        view: setting.view,
    };
    print_work(rt, mode, name, subs.members().len(), &work)
}
