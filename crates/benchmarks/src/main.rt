//! The program `benchmarks`: what the coordinator's parts cost, where the program `coord` can't show it from outside.
//!
//! Without an argument it prints what each measured work is over and gives, which is the same on every machine. With
//! `times` it prints how long each takes, and with `times PART` that of one part alone. What is measured is a
//! [`Work`](work::Work), and how is [`pace_of`](timing::pace_of). Each [`Part`](command_line::Part) has a file of its works.
#![tactic(auto)]

mod assignors;
mod beats;
mod command_line;
mod dice;
mod fault;
mod group;
mod heartbeats;
mod pace;
mod print;
mod settled;
mod table;
mod timing;
mod wire;
mod work;

use command_line::{Mode, Part, Task};
use fault::Fault;
use std::process::ExitCode;
use std::random::RandomSource;
use std::rt::{Clock, Env};

fn main(rt: HostRuntime) -> ExitCode {
    match run(&rt) {
        Ok(()) => ExitCode::SUCCESS,
        Err(fault) => {
            let _ = eprintln!(rt; "{fault}");
            ExitCode::from(fault.status())
        }
    }
}

/// Prints what the command line asks for.
fn run(rt: &(impl AllocGlobal + Clock + Env + Print + RandomSource)) -> Result<(), Fault> {
    match command_line::read(rt)? {
        Task::All(mode) => {
            print_part(rt, mode, Part::Messages)?;
            print_part(rt, mode, Part::Assignors)?;
            print_part(rt, mode, Part::Heartbeats)
        }
        Task::Time(part) => print_part(rt, Mode::Times, part),
    }
}

/// Prints what is measured of a part.
fn print_part(
    rt: &(impl AllocGlobal + Clock + Print + RandomSource),
    mode: Mode,
    part: Part,
) -> Result<(), Fault> {
    match part {
        Part::Messages => wire::print_messages(rt, mode),
        Part::Assignors => assignors::print_assignors(rt, mode),
        Part::Heartbeats => heartbeats::print_heartbeats(rt, mode),
    }
}
