//! The APIs that the broker speaks, each in a range of versions.

ghost use Rattle.std.specs.Prelude.{◌≡◌, ◌↔◌, ◌≤ℤ◌, IsTrue, IfSome, Some};
ghost use Rattle.broker_messages.specs.declared.api.BrokerApi.{BrokerApi};
ghost use Rattle.broker_messages.specs.Api.{key_of, lowest_of, highest_of, first_flexible_of, IsSpoken};

use std::fmt;

/// An API of the broker (Kafka protocol guide, "Api Keys").
#[derive(Clone, Copy, Debug, PartialEq, Eq)]
pub enum BrokerApi {
    Produce,
    Fetch,
    ListOffsets,
    Metadata,
    OffsetCommit,
    OffsetFetch,
    FindCoordinator,
    ListGroups,
    ApiVersions,
    InitProducerId,
    OffsetForLeaderEpoch,
    ConsumerGroupHeartbeat,
    ConsumerGroupDescribe,
}

impl BrokerApi {
    /// All of them, in the order of their keys.
    pub const ALL: [BrokerApi; 13] = [
        BrokerApi::Produce,
        BrokerApi::Fetch,
        BrokerApi::ListOffsets,
        BrokerApi::Metadata,
        BrokerApi::OffsetCommit,
        BrokerApi::OffsetFetch,
        BrokerApi::FindCoordinator,
        BrokerApi::ListGroups,
        BrokerApi::ApiVersions,
        BrokerApi::InitProducerId,
        BrokerApi::OffsetForLeaderEpoch,
        BrokerApi::ConsumerGroupHeartbeat,
        BrokerApi::ConsumerGroupDescribe,
    ];

    /// The API key that a request's header names it by (Kafka protocol guide, "Api Keys").
    pub fn key(self) -> i16
        ensures { result ≡ key_of self }
    {
        match self {
            BrokerApi::Produce => 0,
            BrokerApi::Fetch => 1,
            BrokerApi::ListOffsets => 2,
            BrokerApi::Metadata => 3,
            BrokerApi::OffsetCommit => 8,
            BrokerApi::OffsetFetch => 9,
            BrokerApi::FindCoordinator => 10,
            BrokerApi::ListGroups => 16,
            BrokerApi::ApiVersions => 18,
            BrokerApi::InitProducerId => 22,
            BrokerApi::OffsetForLeaderEpoch => 23,
            BrokerApi::ConsumerGroupHeartbeat => 68,
            BrokerApi::ConsumerGroupDescribe => 69,
        }
    }

    /// The API of a key, if it is spoken (Kafka protocol guide, "Api Keys").
    pub fn of_key(key: i16) -> Option<BrokerApi>
        ensures found { IfSome result (λ api. key ≡ key_of api) }
        ensures all { (api : BrokerApi) → key ≡ key_of api → result ≡ Some api }
    {
        match key {
            0 => Some(BrokerApi::Produce),
            1 => Some(BrokerApi::Fetch),
            2 => Some(BrokerApi::ListOffsets),
            3 => Some(BrokerApi::Metadata),
            8 => Some(BrokerApi::OffsetCommit),
            9 => Some(BrokerApi::OffsetFetch),
            10 => Some(BrokerApi::FindCoordinator),
            16 => Some(BrokerApi::ListGroups),
            18 => Some(BrokerApi::ApiVersions),
            22 => Some(BrokerApi::InitProducerId),
            23 => Some(BrokerApi::OffsetForLeaderEpoch),
            68 => Some(BrokerApi::ConsumerGroupHeartbeat),
            69 => Some(BrokerApi::ConsumerGroupDescribe),
            _ => None,
        }
    }

    /// The lowest version that is spoken.
    pub fn lowest(self) -> i16
        ensures { result ≡ lowest_of self }
    {
        match self {
            // Batches of records of the format that is kept here.
            BrokerApi::Produce => 3,
            BrokerApi::Fetch => 4,
            BrokerApi::ListOffsets => 1,
            // The first that KIP-848 lets a member use.
            BrokerApi::OffsetCommit | BrokerApi::OffsetFetch => 9,
            BrokerApi::OffsetForLeaderEpoch => 2,
            BrokerApi::Metadata
            | BrokerApi::FindCoordinator
            | BrokerApi::ListGroups
            | BrokerApi::ApiVersions
            | BrokerApi::InitProducerId
            | BrokerApi::ConsumerGroupHeartbeat
            | BrokerApi::ConsumerGroupDescribe => 0,
        }
    }

    /// The highest version that is spoken.
    pub fn highest(self) -> i16
        ensures { result ≡ highest_of self }
    {
        match self {
            BrokerApi::Produce => 8,
            BrokerApi::Fetch => 11,
            BrokerApi::ListOffsets => 5,
            BrokerApi::Metadata => 12,
            BrokerApi::OffsetCommit => 9,
            BrokerApi::OffsetFetch => 9,
            BrokerApi::FindCoordinator => 4,
            BrokerApi::ListGroups => 5,
            BrokerApi::ApiVersions => 3,
            BrokerApi::InitProducerId => 4,
            BrokerApi::OffsetForLeaderEpoch => 3,
            BrokerApi::ConsumerGroupHeartbeat => 1,
            BrokerApi::ConsumerGroupDescribe => 1,
        }
    }

    /// The first version whose messages are flexible: with compact texts and arrays, and tagged fields (KIP-482).
    pub fn first_flexible(self) -> i16
        ensures { result ≡ first_flexible_of self }
    {
        match self {
            BrokerApi::Produce => 9,
            BrokerApi::Fetch => 12,
            BrokerApi::ListOffsets => 6,
            BrokerApi::Metadata => 9,
            BrokerApi::OffsetCommit => 8,
            BrokerApi::OffsetFetch => 6,
            BrokerApi::FindCoordinator => 3,
            BrokerApi::ListGroups => 3,
            BrokerApi::ApiVersions => 3,
            BrokerApi::InitProducerId => 2,
            BrokerApi::OffsetForLeaderEpoch => 4,
            BrokerApi::ConsumerGroupHeartbeat => 0,
            BrokerApi::ConsumerGroupDescribe => 0,
        }
    }

    /// Whether a version is spoken.
    pub fn has(self, version: i16) -> bool
        ensures { IsTrue result ↔ IsSpoken self version }
    {
        self.lowest() <= version && version <= self.highest()
    }

    /// Whether a version's messages are flexible (KIP-482).
    pub fn is_flexible(self, version: i16) -> bool
        ensures { IsTrue result ↔ (first_flexible_of self ≤ℤ version) }
    {
        self.first_flexible() <= version
    }

    /// Its name (Kafka protocol guide, "Api Keys").
    pub fn name(self) -> &'static str {
        match self {
            BrokerApi::Produce => "Produce",
            BrokerApi::Fetch => "Fetch",
            BrokerApi::ListOffsets => "ListOffsets",
            BrokerApi::Metadata => "Metadata",
            BrokerApi::OffsetCommit => "OffsetCommit",
            BrokerApi::OffsetFetch => "OffsetFetch",
            BrokerApi::FindCoordinator => "FindCoordinator",
            BrokerApi::ListGroups => "ListGroups",
            BrokerApi::ApiVersions => "ApiVersions",
            BrokerApi::InitProducerId => "InitProducerId",
            BrokerApi::OffsetForLeaderEpoch => "OffsetForLeaderEpoch",
            BrokerApi::ConsumerGroupHeartbeat => "ConsumerGroupHeartbeat",
            BrokerApi::ConsumerGroupDescribe => "ConsumerGroupDescribe",
        }
    }
}

impl fmt::Display for BrokerApi {
    fn fmt<W: fmt::Write>(&self, f: &mut fmt::Formatter<W>) -> fmt::Result {
        f.write_str(self.name())
    }
}
