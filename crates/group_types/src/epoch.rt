//! The epochs of groups, targets and members.
ghost use Rattle.std.specs.Prelude.{◌≡◌, ◌≤◌, ◌<◌, ◌+◌, pos, MatchOption};
ghost use Rattle.std.specs.Prelude.{◌<ℤ◌};

use crate::limits::GREATEST_EPOCH;
use std::marker::Model;

/// The number of an epoch, 0 to [`GREATEST_EPOCH`].
#[derive(Clone, Copy, Debug, PartialEq, Eq, PartialOrd, Ord)]
pub struct EpochNumber {
    number: u32,
}

impl Model for EpochNumber {
    ghost use Rattle.std.specs.Prelude.{ℕ, ◌≤◌};
    ghost use Rattle.group_types.specs.Limits.{GREATEST_EPOCH};

    ghost Value = { ℕ };

    ghost view = { λ e. e.number };

    ghost invariant = { λ e. e.number ≤ GREATEST_EPOCH };

    ghost inverse = { λ n. record { number = n } };
}

impl EpochNumber {
    /// Epoch 0, of a new group and of a member that joins.
    pub fn zero() -> EpochNumber
        ensures { result ≡ 0 }
    {
        EpochNumber { number: 0 }
    }

    /// The epoch with this number.
    pub fn new(number: u32) -> EpochNumber
        requires { number ≤ GREATEST_EPOCH }
        ensures { result ≡ number }
    {
        EpochNumber { number }
    }

    /// The epoch with the number that a request names, where that is not below 0.
    pub fn of_i32(number: i32) -> Option<EpochNumber>
        ensures { MatchOption result (number <ℤ pos 0) (λ epoch. pos epoch ≡ number) }
    {
        let number = u32::try_from(number).ok()?;
        Some(EpochNumber::new(number))
    }

    /// The number.
    pub fn as_u32(self) -> u32
        ensures value { result ≡ self }
        ensures limit { result ≤ GREATEST_EPOCH }
    {
        self.number
    }

    /// The number, as a reply has it.
    pub fn as_i32(self) -> i32
        ensures { result ≡ pos self }
    {
        self.as_u32() as i32
    }

    /// The epoch after this one, or none after the greatest.
    pub fn next(self) -> Option<EpochNumber>
        ensures { MatchOption result (self ≡ GREATEST_EPOCH) (λ next. (self < GREATEST_EPOCH) × (next ≡ self + 1)) }
    {
        if self.as_u32() == GREATEST_EPOCH {
            return None;
        }
        Some(EpochNumber::new(self.as_u32() + 1))
    }
}

/// The epoch of a member: a number, or the mark of a static member that is away.
#[derive(Clone, Copy, Debug, PartialEq, Eq)]
pub enum Epoch {
    At(EpochNumber),
    Away,
}

impl Epoch {
    ghost use Rattle.group_types.specs.Epoch.{is_at, number_of};

    /// Whether the epoch is the number that a request names. That of a member that is away equals nothing.
    pub fn is_at(&self, number: i32) -> bool
        ensures { result ≡ is_at self.now number }
    {
        match self {
            Epoch::At(epoch) => epoch.as_i32() == number,
            Epoch::Away => false,
        }
    }

    /// The number, or none where the member is away.
    pub fn number(&self) -> Option<EpochNumber>
        ensures { result ≡ number_of self.now }
    {
        match self {
            Epoch::At(epoch) => Some(*epoch),
            Epoch::Away => None,
        }
    }
}
