//! Who answers a body.
ghost use Rattle.std.specs.Prelude.{◌≡◌, ℕ, List, ◌++◌, IsTrue, ◌↔◌};
ghost use Rattle.flex_wire.specs.Spelling.{int16};
ghost use Rattle.broker_requests.specs.Bodies.{IsAsked};

use broker_messages::BrokerApi;
use flex_wire::take_i16;

/// Who answers a body.
#[derive(Clone, Copy, Debug, PartialEq, Eq)]
pub enum Asked {
    /// The coordinator, which closes on what is no request of it.
    Coordinator,
    /// The coordinator too, once the body is translated: it begins as a heartbeat of version 1.
    Heartbeat1,
    /// The broker: the body begins with the key of another API.
    Other,
}

/// Whether bytes begin with this number.
fn begins_with(bytes: &[u8], number: i16) -> bool
    ensures { IsTrue result ↔ ((rest : List ℕ) × (bytes.now ≡ int16 number ++ rest)) }
{
    let Ok((found, _)) = take_i16(bytes) else {
        return false;
    };
    if found != number {
        return false;
    }
    true
}

/// Who answers a body, by its key and its version (Kafka protocol guide, "Request Header v1").
pub fn asked_by(body: &[u8]) -> Asked
    ensures { IsAsked body.now result }
{
    let Ok((key, rest)) = take_i16(body) else {
        return Asked::Coordinator;
    };
    match BrokerApi::of_key(key) {
        None => Asked::Coordinator,
        Some(BrokerApi::OffsetCommit) => Asked::Coordinator,
        Some(BrokerApi::ConsumerGroupHeartbeat) => {
            if begins_with(rest, 1) {
                return Asked::Heartbeat1;
            }
            Asked::Coordinator
        }
        Some(_) => Asked::Other,
    }
}
