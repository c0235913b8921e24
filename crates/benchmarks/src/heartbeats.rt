//! Heartbeats of a group of many members.

use crate::command_line::Mode;
use crate::fault::Fault;
use crate::group::image_of;
use crate::pace::Pace;
use crate::settled::{Bodies, Settled};
use crate::table::{counts_line, head_line, pace_line};
use std::collections::hash_map::RandomState;
use std::random::RandomSource;
use std::rt::Clock;
use std::time::Instant;

/// How many members the measured groups have.
const SIZES: [u16; 4] = [10, 100, 1_000, 10_000];
/// How many heartbeats a run has, and of how many runs the fastest counts.
const BEATS: u32 = 200_000;

const RUNS: u32 = 5;

/// Prints what steady heartbeats give, or how long one takes in groups of several sizes: the members send heartbeats in an
/// order that looks random, over a topic of two partitions, and nothing is new in any of them.
pub fn print_heartbeats(
    rt: &(impl AllocGlobal + Clock + Print + RandomSource),
    mode: Mode,
) -> Result<(), Fault> {
    rt.println(head_line(rt.alloc(), mode, "steady heartbeats", "members", "bytes")?)?;
    let hasher = RandomState::new(rt)?;
    match mode {
        Mode::Counts => print_counts(rt, hasher),
        Mode::Times => {
            for members in SIZES {
                print_times(rt, hasher, members)?;
            }
            Ok(())
        }
    }
}

fn print_counts(rt: &(impl AllocGlobal + Print), hasher: RandomState) -> Result<(), Fault> {
    let (mut settled, bodies) = settled_with(rt, hasher, SIZES[0])?;
    let given = settled.answer_in_turn(&bodies, 10)?;
    rt.println(counts_line(rt.alloc(), "10 of them", 10, given)?)?;
    Ok(())
}

fn print_times(
    rt: &(impl AllocGlobal + Clock + Print),
    hasher: RandomState,
    members: u16,
) -> Result<(), Fault> {
    let (mut settled, bodies) = settled_with(rt, hasher, members)?;
    let mut nanoseconds = u64::MAX;
    for _ in 0..5 {
        nanoseconds = nanoseconds.min(time_of(rt, &mut settled, &bodies)?);
    }
    let pace = Pace {
        repetitions: u64::from(BEATS),
        nanoseconds,
    };
    rt.println(pace_line(rt.alloc(), "one of them", usize::from(members), pace)?)?;
    Ok(())
}

/// A settled group and a steady heartbeat of each member, after which nothing is new.
fn settled_with(
    rt: &impl AllocGlobal,
    hasher: RandomState,
    members: u16,
) -> Result<(Settled, Bodies), Fault> {
    let alloc = rt.alloc();
    let image = image_of(alloc, 1, 2)?;
    let mut settled = Settled::with_members(alloc, hasher, image, members)?;
    let bodies = settled.steady_bodies(alloc, members)?;
    settled.answer_in_turn(&bodies, u32::from(members))?;
    Ok((settled, bodies))
}

/// The nanoseconds that a run takes.
fn time_of(rt: &impl Clock, settled: &mut Settled, bodies: &Bodies) -> Result<u64, Fault> {
    let start = Instant::now(rt)?;
    settled.answer_in_turn(bodies, BEATS)?;
    let time = start.elapsed(rt)?;
    Ok(u64::try_from(time.as_nanos()).unwrap_or(u64::MAX))
}
