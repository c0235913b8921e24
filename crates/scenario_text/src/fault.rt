//! What can go wrong: on one line, and with the whole run.
ghost use Rattle.std.specs.Prelude.{◌≡◌};
ghost use Rattle.scenario_text.specs.declared.fault.LineFault.TheVariants.{NoMemory};

use crate::input::LONGEST_INPUT;
use std::alloc::{AllocError, AllocFailed};
use std::io;
use thiserror::Error;

/// Why a line is not done.
#[derive(Clone, Copy, Debug, PartialEq, Eq)]
pub enum LineFault {
    /// The line is no line of the subcommand.
    BadLine,
    /// No memory was left.
    NoMemory,
}

/// Why a run ends before its input does.
#[derive(Debug, Drop, Error)]
pub enum Fault {
    /// The line of this number, counted from 1, is no line of the subcommand.
    #[error("bad line {0}")]
    BadLine(usize),
    #[error("reading the input: {0}")]
    Read(io::Error),
    #[error("the input is longer than {} bytes", LONGEST_INPUT)]
    TooLong,
    #[error("writing the output: {0}")]
    Write(io::Error),
    #[error("out of memory")]
    NoMemory,
}

impl Fault {
    ghost use Rattle.scenario_text.specs.Statuses.{status_of};

    /// The status with which the program ends: 2 after a bad line, 1 after the other faults.
    pub fn status(&self) -> u8
        ensures { result ≡ status_of self.now }
    {
        match self {
            Fault::BadLine(_) => 2,
            Fault::Read(_) | Fault::TooLong | Fault::Write(_) | Fault::NoMemory => 1,
        }
    }
}

impl LineFault {
    /// The fault of a run that ends at the line of this number.
    pub fn at_line(self, number: usize) -> Fault
        ensures bad_line { self ≡ LineFault.BadLine → result ≡ Fault.BadLine number }
        ensures no_memory { self ≡ LineFault.NoMemory → result ≡ Fault.NoMemory }
    {
        match self {
            LineFault::BadLine => Fault::BadLine(number),
            LineFault::NoMemory => Fault::NoMemory,
        }
    }
}

impl From<AllocError> for LineFault {
    ghost from_gives = { λ _ e. e ≡ NoMemory };

    fn from(_e: AllocError) -> LineFault {
        LineFault::NoMemory
    }
}

impl<T: Drop> From<AllocFailed<T>> for LineFault {
    ghost from_gives = { λ _ e. e ≡ NoMemory };

    fn from(_e: AllocFailed<T>) -> LineFault {
        LineFault::NoMemory
    }
}
