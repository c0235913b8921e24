//! The lines of the table.

use crate::command_line::Mode;
use crate::pace::Pace;
use std::alloc::{AllocError, Global};

/// The heads of the columns: what is measured, what its size is a number of, and what it gives.
pub fn head_line(
    alloc: Global,
    mode: Mode,
    name: &str,
    size: &str,
    given: &str,
) -> Result<String, AllocError> {
    match mode {
        Mode::Counts => format!(in alloc; "{name:<44}{size:>8}{given:>12}"),
        Mode::Times => format!(in alloc; "{name:<44}{size:>8}{:>14}{:>14}", "ns each", "a second"),
    }
}

/// What something of this size gives.
pub fn counts_line(
    alloc: Global,
    name: &str,
    size: usize,
    given: usize,
) -> Result<String, AllocError> {
    format!(in alloc; "{name:<44}{size:>8}{given:>12}")
}

/// How fast something is done with what has this size.
pub fn pace_line(alloc: Global, name: &str, size: usize, pace: Pace) -> Result<String, AllocError> {
    let tenths = pace.tenths_of_nanosecond();
    let (whole, tenth) = (tenths / 10, tenths % 10);
    let per_second = pace.per_second();
    format!(in alloc; "{name:<44}{size:>8}{whole:>12}.{tenth}{per_second:>14}")
}
