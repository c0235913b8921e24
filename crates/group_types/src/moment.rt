//! Moments.
ghost use Rattle.std.specs.Prelude.{◌≡◌, max};
ghost use Rattle.group_types.specs.Moment.{saturated_sum};

use std::marker::Model;

/// A moment, in milliseconds.
#[derive(Clone, Copy, Debug, PartialEq, Eq, PartialOrd, Ord)]
pub struct Moment {
    milliseconds: u64,
}

impl Model for Moment {
    ghost use Rattle.std.specs.Prelude.{ℕ};

    ghost Value = { ℕ };

    ghost view = { λ m. m.milliseconds };

    ghost inverse = { λ n. record { milliseconds = n } };
}

impl Moment {
    /// The moment of this many milliseconds.
    pub fn of_millis(millis: u64) -> Moment
        ensures { result ≡ millis }
    {
        Moment {
            milliseconds: millis,
        }
    }

    /// The moment in milliseconds.
    pub fn millis(self) -> u64
        ensures { result ≡ self }
    {
        self.milliseconds
    }

    /// The later of two moments.
    pub fn later(self, other: Moment) -> Moment
        ensures { result ≡ max self other }
    {
        Moment::of_millis(self.millis().max(other.millis()))
    }

    /// The moment this many milliseconds later, or the greatest moment where that is past it.
    pub fn plus(self, millis: u64) -> Moment
        ensures { result ≡ saturated_sum self millis }
    {
        Moment::of_millis(self.millis().saturating_add(millis))
    }
}
