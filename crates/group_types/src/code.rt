//! Error codes.
ghost use Rattle.std.specs.Prelude.{◌≡◌};
ghost use Rattle.std.specs.Option.{option_copied};

/// The error codes of the Kafka protocol guide that the coordinator answers with.
#[derive(Clone, Copy, Debug, PartialEq, Eq)]
pub enum Code {
    NoError,
    UnknownTopicOrPartition,
    OffsetMetadataTooLarge,
    CoordinatorNotAvailable,
    UnknownMemberId,
    InvalidRequest,
    GroupIdNotFound,
    GroupMaxSizeReached,
    FencedMemberEpoch,
    UnreleasedInstanceId,
    UnsupportedAssignor,
    StaleMemberEpoch,
}

impl Code {
    ghost use Rattle.group_types.specs.Code.{code_number, code_text};

    /// The number, as a reply has it: the Kafka protocol guide, "Error Codes".
    pub fn number(self) -> i16
        ensures { result ≡ code_number self }
    {
        match self {
            Code::NoError => 0,
            Code::UnknownTopicOrPartition => 3,
            Code::OffsetMetadataTooLarge => 12,
            Code::CoordinatorNotAvailable => 15,
            Code::UnknownMemberId => 25,
            Code::InvalidRequest => 42,
            Code::GroupIdNotFound => 69,
            Code::GroupMaxSizeReached => 81,
            Code::FencedMemberEpoch => 110,
            Code::UnreleasedInstanceId => 111,
            Code::UnsupportedAssignor => 112,
            Code::StaleMemberEpoch => 113,
        }
    }

    /// The message of a heartbeat reply with this code, where one goes with it.
    pub fn text(self) -> Option<&'static str>
        ensures { option_copied result ≡ code_text self }
    {
        match self {
            Code::CoordinatorNotAvailable => Some("coordinator not available"),
            Code::UnknownMemberId => Some("unknown member"),
            Code::InvalidRequest => Some("invalid request"),
            Code::GroupMaxSizeReached => Some("group is full"),
            Code::FencedMemberEpoch => Some("fenced member epoch"),
            Code::UnreleasedInstanceId => Some("instance id in use"),
            Code::UnsupportedAssignor => Some("unknown assignor"),
            _ => None,
        }
    }
}
