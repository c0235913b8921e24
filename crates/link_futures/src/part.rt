//! What one poll of a reader or a writer came to.
ghost use Rattle.std.specs.Prelude.{◌≡◌};
ghost use Rattle.link_futures.specs.Parts.{count_of};

/// What one poll of a reader or a writer came to.
#[derive(Clone, Copy, Debug, PartialEq, Eq)]
pub enum Part {
    /// It waits, and the task will be woken.
    Waits,
    /// It failed.
    Fault,
    /// It moved this many bytes.
    Moved(usize),
}

impl Part {
    /// How many bytes were moved.
    pub fn count(self) -> usize
        ensures { result ≡ count_of self }
    {
        match self {
            Part::Moved(count) => count,
            Part::Waits | Part::Fault => 0,
        }
    }
}
