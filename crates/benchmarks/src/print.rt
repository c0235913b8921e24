//! What the parts of the table have in common.

use crate::command_line::Mode;
use crate::fault::Fault;
use crate::table::{counts_line, pace_line};
use crate::timing::pace_of;
use crate::work::Work;
use std::alloc::Global;
use std::rt::Clock;

/// Prints what a work of this size gives, or how long it takes.
pub fn print_work<W: Work>(
    rt: &(impl AllocGlobal + Clock + Print),
    mode: Mode,
    name: &str,
    size: usize,
    work: &W,
) -> Result<(), Fault>
    requires { W.can_be_done work.now }
{
    match mode {
        Mode::Counts => print_counts(rt, name, size, work),
        Mode::Times => print_pace(rt, name, size, work),
    }
}

fn print_counts<W: Work>(
    rt: &(impl AllocGlobal + Print),
    name: &str,
    size: usize,
    work: &W,
) -> Result<(), Fault>
    requires { W.can_be_done work.now }
{
    let given = given_by(rt.alloc(), work)?;
    rt.println(counts_line(rt.alloc(), name, size, given)?)?;
    Ok(())
}

/// What a work gives.
fn given_by<W: Work>(alloc: Global, work: &W) -> Result<usize, Fault>
    requires { W.can_be_done work.now }
{
    work.once(&mut Vec::new(alloc))
}

fn print_pace<W: Work>(
    rt: &(impl AllocGlobal + Clock + Print),
    name: &str,
    size: usize,
    work: &W,
) -> Result<(), Fault>
    requires { W.can_be_done work.now }
{
    let pace = pace_of(rt, work)?;
    rt.println(pace_line(rt.alloc(), name, size, pace)?)?;
    Ok(())
}
