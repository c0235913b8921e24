//! The moments of a clock.
ghost use Rattle.std.specs.Prelude.{◌≡◌, ◌-◌, ◌/◌, ◌^◌, ◌≤◌, min, IfOk};
ghost use Rattle.std.specs.Duration.{as_nanos};

use coord_shards::Moment;
use link_futures::Moments;
use std::alloc::AllocError;
use std::io;
use std::time::{Clock, Duration, Instant, SystemTime, UNIX_EPOCH};

/// The moments of a clock: milliseconds since the Unix epoch. The first one is read from the system's time, and the later ones
/// go on from it by a clock that isn't set. They never fall. Where the clock can't be read, the last moment is given again.
#[derive(Drop)]
pub struct ClockMoments<'a, R> {
    clock: &'a R,
    began: Instant,
    first: Moment,
    last: Moment,
}

impl<'a, R: Clock> ClockMoments<'a, R> {
    /// Begins with the present moment. A time before the Unix epoch counts as 0.
    pub fn start(clock: &'a R) -> io::Result<ClockMoments<'a, R>>
        ensures { IfOk result (λ moments. moments.last ≡ moments.first) }
    {
        let began = Instant::now(clock)?;
        let now = SystemTime::now(clock)?;
        let first = match now.duration_since(UNIX_EPOCH) {
            Ok(since) => moment_of(since),
            Err(_) => Moment::of_millis(0),
        };
        Ok(ClockMoments {
            clock,
            began,
            first,
            last: first,
        })
    }

    /// The first moment.
    pub fn first(&self) -> Moment
        ensures { result ≡ self.now.first }
    {
        self.first
    }
}

impl<'a, R> Clone for ClockMoments<'a, R> {
    ghost is_clone = { λ moments copy. copy ≡ moments };

    /// The same clock, with moments from the last one on. Takes no memory.
    fn clone(&self) -> Result<ClockMoments<'a, R>, AllocError> {
        Ok(ClockMoments {
            clock: self.clock,
            began: self.began,
            first: self.first,
            last: self.last,
        })
    }
}

impl<'a, R: Clock> Moments for ClockMoments<'a, R> {
    ghost hands = { λ a moment b. (a.last ≤ moment) × (b ≡ record a { last = moment }) };

    fn now(&mut self) -> Moment {
        if let Ok(elapsed) = self.began.elapsed(self.clock) {
            let present = self.first.plus(moment_of(elapsed).millis());
            self.last = self.last.later(present);
        }
        self.last
    }
}

/// The moment of so long a time after moment 0, in whole milliseconds, or the greatest moment where that is past it.
fn moment_of(time: Duration) -> Moment
    ensures { result ≡ min (as_nanos time / 1_000_000) (2 ^ 64 - 1) }
{
    Moment::of_millis(u64::try_from(time.as_millis()).unwrap_or(u64::MAX))
}
