//! The input, read whole.
ghost use Rattle.std.specs.Prelude.{◌≡◌, ◌<◌, ◌≤◌, length, vec_len, IfOk, OnOk, IfErr, IsErr, IfSome};
ghost use Rattle.scenario_text.specs.Inputs.{IsLong, IsTooLong};
ghost use Rattle.scenario_text.specs.Runs.{IsOfReading};

use crate::fault::Fault;
use std::alloc::Global;
use std::io::{ErrorKind, Read};

/// The most bytes of an input.
pub const LONGEST_INPUT: usize = 67_108_864;

/// Reads the reader to its end. An input that is too long is read no further than shows it.
pub fn read_whole<R: Read>(alloc: Global, reader: &mut R) -> Result<Vec<u8>, Fault>
    ensures whole { IfOk result (λ input. IfSome (R.remaining reader.old) (λ bytes. input.items ≡ bytes)) }
    ensures short { IfOk result (λ input. vec_len input ≤ LONGEST_INPUT) }
    ensures refused { IsTooLong (R.remaining reader.old) → IsErr result }
    ensures failed { IfErr result IsOfReading }
    ensures too_long { result ≡ Err Fault.TooLong → IfSome (R.remaining reader.old) IsLong }
{
    let mut input = Vec::new(alloc);
    let limit = LONGEST_INPUT as u64 + 1;
    if let Err(error) = reader.take(limit).read_to_end(&mut input) {
        return Err(match error.kind() {
            ErrorKind::OutOfMemory => Fault::NoMemory,
            _ => Fault::Read(error),
        });
    }
    if LONGEST_INPUT < input.len() {
        return Err(Fault::TooLong);
    }
    Ok(input)
}
