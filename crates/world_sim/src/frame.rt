//! Frames that are kept.
ghost use Rattle.std.specs.Prelude.{◌≡◌, drop};

use std::marker::Model;

/// A frame: an INT32 size and a body (Kafka protocol guide, "Protocol"). Contracts see its body.
#[derive(Debug, Drop)]
pub struct Frame {
    bytes: Vec<u8>,
}

impl Model for Frame {
    ghost use Rattle.std.specs.Prelude.{ℕ, List, drop};

    ghost Value = { List ℕ };

    ghost view = { λ f. drop 4 f.bytes.items };
}

impl Frame {
    /// The frame of these bytes, size and body. Takes no memory.
    pub(crate) fn of(bytes: Vec<u8>) -> Frame
        ensures { result ≡ drop 4 bytes.items }
    {
        Frame { bytes }
    }

    /// The body, lent. Takes no memory.
    pub fn body(&self) -> &[u8]
        ensures { result.now ≡ self.now }
    {
        if self.bytes.len() < 4 {
            return &[];
        }
        &self.bytes[4..]
    }
}
