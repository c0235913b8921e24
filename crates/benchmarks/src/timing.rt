//! How long a work takes.

use crate::fault::Fault;
use crate::pace::Pace;
use crate::work::Work;
use std::rt::Clock;
use std::time::Instant;

/// How long a batch lasts at least, in nanoseconds: a tenth of a second.
const LONG_BATCH: u64 = 100_000_000;
/// How many batches of that length are timed, of which the fastest counts.
const BATCHES: u32 = 5;
/// The most times that a batch is doubled.
const MOST_DOUBLINGS: u32 = 40;

/// The pace of a work: batches are doubled until one is long enough, and the fastest of five such
/// batches counts, since other programs on the machine can only slow one down.
pub fn pace_of<W: Work>(rt: &(impl AllocGlobal + Clock), work: &W) -> Result<Pace, Fault>
    requires { W.can_be_done work.now }
{
    let mut out = Vec::new(rt.alloc());
    let mut repetitions = 1u64;
    let mut nanoseconds = batch_time(rt, work, repetitions, &mut out)?;
    for _ in 0..MOST_DOUBLINGS {
        if nanoseconds >= LONG_BATCH {
            break;
        }
        repetitions = repetitions.saturating_mul(2);
        nanoseconds = batch_time(rt, work, repetitions, &mut out)?;
    }
    for _ in 1..BATCHES {
        nanoseconds = nanoseconds.min(batch_time(rt, work, repetitions, &mut out)?);
    }
    Ok(Pace {
        repetitions,
        nanoseconds,
    })
}

/// The nanoseconds that `repetitions` repetitions take together. Each has to give the same answer.
fn batch_time<W: Work>(
    rt: &impl Clock,
    work: &W,
    repetitions: u64,
    out: &mut Vec<u8>,
) -> Result<u64, Fault>
    requires { W.can_be_done work.now }
{
    let answer = work.once(out)?;
    let start = Instant::now(rt)?;
    for _ in 0..repetitions {
        if work.once(out)? != answer {
            return Err(Fault::Unsteady);
        }
    }
    let time = start.elapsed(rt)?;
    Ok(u64::try_from(time.as_nanos()).unwrap_or(u64::MAX))
}
