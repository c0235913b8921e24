//! What the error codes of replies mean to a member.

/// What an error code means to a member (KIP-848, "ConsumerGroupHeartbeatResponse").
#[derive(Clone, Copy, Debug, PartialEq, Eq)]
pub(crate) enum Meaning {
    Success,
    /// It isn't a member any more.
    Fenced,
    /// Nothing has happened, and it may ask again.
    Retry,
    End,
}

impl Meaning {
    ghost use Rattle.std.specs.Prelude.{◌≡◌};
    ghost use Rattle.member_core.specs.Taking.{meaning_of};
    ghost use Rattle.member_core.specs.Outcomes.{meaning_value};

    /// What the code means (Kafka protocol guide, "Error Codes"; which codes are for another try is partly ours).
    pub(crate) fn of(code: i16) -> Meaning
        ensures { meaning_value result ≡ meaning_of code }
    {
        match code {
            0 => Meaning::Success,
            25 | 110 => Meaning::Fenced,
            14 | 15 | 16 | 111 => Meaning::Retry,
            _ => Meaning::End,
        }
    }
}
