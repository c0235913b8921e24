//! The ids of members.
ghost use Rattle.std.specs.Prelude.{◌≡◌, ◌≤◌, length, IsTrue, ◌↔◌, IfOk};
ghost use Rattle.std.specs.Str.{bytes_eq};
ghost use Rattle.group_types.specs.Text.{text_cmp};
ghost use Rattle.group_types.specs.MemberId.{MadeIdsDiffer, made_id};

use crate::limits::LONGEST_STRING;
use std::alloc::{AllocError, Global};
use std::cmp::Ordering;
use std::marker::Model;
use uuid::Uuid;

/// The id of a member of a group: a text of at most [`LONGEST_STRING`] bytes.
#[derive(Drop)]
pub struct MemberId {
    text: String,
}

impl Model for MemberId {
    ghost use Rattle.std.specs.Prelude.{◌≤◌};
    ghost use Rattle.std.specs.String.{string_bytes, string_len};
    ghost use Rattle.std.specs.Str.{bytes_eq};
    ghost use Rattle.group_types.specs.Text.{Text};
    ghost use Rattle.group_types.specs.Limits.{LONGEST_STRING};

    ghost Value = { Text };

    ghost view = { λ m. string_bytes m.text };

    ghost invariant = { λ m. string_len m.text ≤ LONGEST_STRING };
}

impl MemberId {
    /// The id with this text. Fails where memory is short.
    pub fn of(alloc: Global, text: &str) -> Result<MemberId, AllocError>
        requires { length text.now ≤ LONGEST_STRING }
        ensures { IfOk result (λ id. id ≡ text.now) }
    {
        let text = String::from_str(alloc, text)?;
        Ok(MemberId { text })
    }

    /// The id that a coordinator makes for a member that comes without one: the hyphenated lower-case text of the UUID
    /// whose first eight bytes are the salt and whose last eight are the serial. Fails where memory is short.
    pub fn made(alloc: Global, salt: u64, serial: u64) -> Result<MemberId, AllocError>
        ensures { IfOk result (λ id. id ≡ made_id salt serial) }
    {
        let mut bytes = [0; 16];
        bytes[..8].copy_from_slice(&salt.to_be_bytes());
        bytes[8..].copy_from_slice(&serial.to_be_bytes());
        let mut buffer = Uuid::encode_buffer();
        let text = Uuid::from_bytes(bytes)
            .hyphenated()
            .encode_lower(&mut buffer);
        MemberId::of(alloc, text)
    }

    /// Whether the id is this text.
    pub fn is(&self, text: &str) -> bool
        ensures value { result ≡ bytes_eq self.now text.now }
        ensures same { IsTrue result ↔ (self.now ≡ text.now) }
    {
        self.as_str() == text
    }

    /// How the id and a text are ordered, byte by byte.
    pub fn compare(&self, text: &str) -> Ordering
        ensures { result ≡ text_cmp self.now text.now }
    {
        self.as_str().cmp(text)
    }

    /// The id's text, of at most [`LONGEST_STRING`] bytes.
    pub fn as_str(&self) -> &str
        ensures value { result.now ≡ self.now }
        ensures limit { length self.now ≤ LONGEST_STRING }
    {
        self.text.as_str()
    }

    /// A copy of the id. Fails where memory is short.
    pub fn copy(&self, alloc: Global) -> Result<MemberId, AllocError>
        ensures { IfOk result (λ copy. copy ≡ self.now) }
    {
        MemberId::of(alloc, self.as_str())
    }
}

/// The ids that a coordinator makes of different serials differ.
pub fn made_ids_differ()
    ensures { MadeIdsDiffer }
{}
