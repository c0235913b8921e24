//! The command line.
ghost use Rattle.std.specs.Prelude.{◌≡◌, IfErr};

use crate::fault::Fault;
use std::rt::Env;

/// What the program prints of each measured work.
#[derive(Clone, Copy, Debug, PartialEq, Eq)]
pub enum Mode {
    /// What it is over and gives.
    Counts,
    /// How long it takes.
    Times,
}

/// A part of the coordinator that is measured.
#[derive(Clone, Copy, Debug, PartialEq, Eq)]
pub enum Part {
    Messages,
    Assignors,
    Heartbeats,
}

/// What the program does.
#[derive(Clone, Copy, Debug, PartialEq, Eq)]
pub enum Task {
    /// It prints every part.
    All(Mode),
    /// It prints how long what is measured of a part takes.
    Time(Part),
}

/// What the program's command line asks for.
///
/// Faults: `CommandLine` where it is wrong; want of memory, and a command line that can't be read.
pub fn read(rt: &(impl AllocGlobal + Env)) -> Result<Task, Fault> {
    let arguments: Vec<String> = std::env::args(rt)?.skip(1).collect(rt.alloc())?;
    task_of(arguments.as_slice())
}

/// What arguments ask for.
fn task_of(arguments: &[String]) -> Result<Task, Fault> {
    match arguments {
        [] => Ok(Task::All(Mode::Counts)),
        [word] if word.as_str() == "times" => Ok(Task::All(Mode::Times)),
        [word, part] if word.as_str() == "times" => Ok(Task::Time(part_of(part.as_str())?)),
        _ => Err(Fault::CommandLine),
    }
}

/// The part of a name.
fn part_of(name: &str) -> Result<Part, Fault>
    ensures { IfErr result (λ fault. fault ≡ Fault.CommandLine) }
{
    let part = match name {
        "messages" => Part::Messages,
        "assignors" => Part::Assignors,
        "heartbeats" => Part::Heartbeats,
        _ => return Err(Fault::CommandLine),
    };
    Ok(part)
}
