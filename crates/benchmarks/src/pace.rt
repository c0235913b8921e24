//! How fast a work was done.
ghost use Rattle.std.specs.Prelude.{◌≡◌};
ghost use Rattle.benchmarks.specs.Rates.{tenths_each, each_second};

/// How long a number of repetitions of a work took together.
#[derive(Clone, Copy, Debug, PartialEq, Eq)]
pub struct Pace {
    pub repetitions: u64,
    pub nanoseconds: u64,
}

impl Pace {
    /// Tenths of a nanosecond that one repetition took.
    pub fn tenths_of_nanosecond(self) -> u64
        ensures { result ≡ tenths_each self.repetitions self.nanoseconds }
    {
        self.nanoseconds.saturating_mul(10) / self.repetitions.max(1)
    }

    /// How many repetitions there are in a second.
    pub fn per_second(self) -> u64
        ensures { result ≡ each_second self.repetitions self.nanoseconds }
    {
        self.repetitions.saturating_mul(1_000_000_000) / self.nanoseconds.max(1)
    }
}
