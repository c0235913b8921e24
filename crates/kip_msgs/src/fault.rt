//! Why a body is no message.

ghost use Rattle.std.specs.Prelude.{◌≡◌};
ghost use Rattle.kip_msgs.specs.Faults.{fault_number, message_fault};

use flex_wire::WireFault;
use thiserror::Error;

/// Why a body is no message.
#[derive(Clone, Copy, Debug, PartialEq, Eq, Error)]
pub enum MsgFault {
    /// A field is no value of its type. Never the want of memory.
    #[error("{0}")]
    Wire(WireFault),
    /// The API key is none that is served.
    #[error("unknown api key")]
    UnknownApi,
    /// The API is known, and this version of it isn't.
    #[error("unknown version of the api")]
    UnknownVersion,
    /// Bytes stand after the last field.
    #[error("bytes left after the message")]
    LeftOver,
    /// A growth was refused.
    #[error("out of memory")]
    NoMemory,
}

impl MsgFault {
    /// The number of the fault: 1 for a field's, 2 for the API, 3 for its version, 4 for bytes
    /// left over, 5 for memory.
    pub fn number(self) -> u8
        ensures { result ≡ fault_number self }
    {
        match self {
            MsgFault::Wire(_) => 1,
            MsgFault::UnknownApi => 2,
            MsgFault::UnknownVersion => 3,
            MsgFault::LeftOver => 4,
            MsgFault::NoMemory => 5,
        }
    }
}

impl From<WireFault> for MsgFault {
    ghost from_gives = { λ f m. m ≡ message_fault f };

    fn from(fault: WireFault) -> MsgFault {
        match fault {
            WireFault::NoMemory => MsgFault::NoMemory,
            other => MsgFault::Wire(other),
        }
    }
}
