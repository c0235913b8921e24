//! The APIs that are supported, each in one version.

ghost use Rattle.std.specs.Prelude.{◌≡◌};
ghost use Rattle.kip_msgs.specs.Api.{key_of, version_of, api_with_key};

/// An API of the coordinator, in the one version that is spoken.
#[derive(Clone, Copy, Debug, PartialEq, Eq)]
pub enum Api {
    /// ConsumerGroupHeartbeat (KIP-848).
    Heartbeat,
    /// OffsetCommit.
    Commit,
}

impl Api {
    /// The API key that a request header names it by (Kafka protocol guide, "Api Keys").
    pub fn key(self) -> i16
        ensures { result ≡ key_of self }
    {
        match self {
            Api::Heartbeat => 68,
            Api::Commit => 8,
        }
    }

    /// The version of its messages: the first of ConsumerGroupHeartbeat, and the ninth of
    /// OffsetCommit, which is the first that KIP-848 lets a member use.
    pub fn version(self) -> i16
        ensures { result ≡ version_of self }
    {
        match self {
            Api::Heartbeat => 0,
            Api::Commit => 9,
        }
    }

    /// The API of a key, where there is one (Kafka protocol guide, "Api Keys").
    pub fn with_key(key: i16) -> Option<Api>
        ensures { result ≡ api_with_key key }
    {
        match key {
            68 => Some(Api::Heartbeat),
            8 => Some(Api::Commit),
            _ => None,
        }
    }
}
