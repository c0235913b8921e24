//! Where moments come from.
ghost use Rattle.std.specs.Prelude.{ℕ};

use coord_node::Moment;

/// Where moments come from: a clock, or a list of them.
pub trait Moments: Drop {
    /// In the first state it may hand out this moment, and be in the second.
    ghost hands: { Self → ℕ → Self → Type 0 };

    /// The present moment.
    fn now(&mut self) -> Moment
        ensures { hands self.old result self.new };
}
