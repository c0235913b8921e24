//! A reply that is being written, field after field, in the encoding of its version.

ghost use Rattle.std.specs.Prelude.{◌≡◌};
ghost use Rattle.broker_messages.specs.Head.{GoesOn};

use crate::api::BrokerApi;
use crate::fault::MessageFault;
use flex_wire::{LONGEST_STRING, WireFault, put_varint};
use std::marker::Model;
use uuid::Uuid;

/// Bytes to which a reply's fields are appended. Contracts see the bytes that were there before the reply, which nothing here changes.
#[derive(Drop)]
pub struct Output {
    bytes: Vec<u8>,
    kept: usize,
    version: i16,
    is_flexible: bool,
}

impl Model for Output {
    ghost use Rattle.std.specs.Prelude.{ℕ, List, take, length, ◌≤◌};

    ghost Value = { List ℕ };

    ghost view = { λ o. take o.kept o.bytes.items };

    ghost invariant = { λ o. o.kept ≤ length o.bytes.items };
}

/// What is written field after field: a reply, or an element of an array in it.
pub trait PutFields {
    /// Appends its fields, and its tagged fields. After a fault some of them may be there.
    ///
    /// Faults: memory; `TooLong` if a text has over 32,767 bytes, or an array too many elements.
    fn put_fields(&self, output: &mut Output) -> Result<(), MessageFault>
        ensures { output.new ≡ output.old };
}

impl PutFields for &str {
    fn put_fields(&self, output: &mut Output) -> Result<(), MessageFault> {
        output.string(*self)
    }
}

impl PutFields for i32 {
    fn put_fields(&self, output: &mut Output) -> Result<(), MessageFault> {
        output.int32(*self)
    }
}

/// A length or a count as an INT32.
fn count_of(count: usize) -> Result<i32, MessageFault> {
    i32::try_from(count).map_err(|_| MessageFault::Wire(WireFault::TooLong))
}

impl Output {
    /// An output that goes on after these bytes.
    pub(crate) fn after(bytes: Vec<u8>, version: i16, is_flexible: bool) -> Output
        ensures { result ≡ bytes.items }
    {
        Output {
            kept: bytes.len(),
            bytes,
            version,
            is_flexible,
        }
    }

    /// The bytes that were there, and what has been written after them.
    pub(crate) fn into_bytes(self) -> Vec<u8>
        ensures { GoesOn self result.items }
    {
        let Output { bytes, .. } = self;
        bytes
    }

    fn append(&mut self, bytes: &[u8]) -> Result<(), MessageFault>
        ensures { self.new ≡ self.old }
    {
        match self.bytes.extend_from_slice(bytes) {
            Ok(()) => Ok(()),
            Err(_) => Err(MessageFault::NoMemory),
        }
    }

    /// Whether the reply's version is this one or later.
    pub(crate) fn since(&self, version: i16) -> bool {
        self.version >= version
    }

    /// INT8.
    pub(crate) fn int8(&mut self, number: i8) -> Result<(), MessageFault>
        ensures { self.new ≡ self.old }
    {
        self.append(&number.to_be_bytes())
    }

    /// INT8 from a version on.
    pub(crate) fn int8_since(&mut self, version: i16, number: i8) -> Result<(), MessageFault>
        ensures { self.new ≡ self.old }
    {
        if self.since(version) {
            return self.int8(number);
        }
        Ok(())
    }

    /// BOOLEAN.
    pub(crate) fn boolean(&mut self, value: bool) -> Result<(), MessageFault>
        ensures { self.new ≡ self.old }
    {
        self.append(&[u8::from(value)])
    }

    /// BOOLEAN from a version on.
    pub(crate) fn boolean_since(&mut self, version: i16, value: bool) -> Result<(), MessageFault>
        ensures { self.new ≡ self.old }
    {
        if self.since(version) {
            return self.boolean(value);
        }
        Ok(())
    }

    /// INT16.
    pub(crate) fn int16(&mut self, number: i16) -> Result<(), MessageFault>
        ensures { self.new ≡ self.old }
    {
        self.append(&number.to_be_bytes())
    }

    /// INT16 from a version on.
    pub(crate) fn int16_since(&mut self, version: i16, number: i16) -> Result<(), MessageFault>
        ensures { self.new ≡ self.old }
    {
        if self.since(version) {
            return self.int16(number);
        }
        Ok(())
    }

    /// INT32.
    pub(crate) fn int32(&mut self, number: i32) -> Result<(), MessageFault>
        ensures { self.new ≡ self.old }
    {
        self.append(&number.to_be_bytes())
    }

    /// INT32 from a version on.
    pub(crate) fn int32_since(&mut self, version: i16, number: i32) -> Result<(), MessageFault>
        ensures { self.new ≡ self.old }
    {
        if self.since(version) {
            return self.int32(number);
        }
        Ok(())
    }

    /// INT64.
    pub(crate) fn int64(&mut self, number: i64) -> Result<(), MessageFault>
        ensures { self.new ≡ self.old }
    {
        self.append(&number.to_be_bytes())
    }

    /// INT64 from a version on.
    pub(crate) fn int64_since(&mut self, version: i16, number: i64) -> Result<(), MessageFault>
        ensures { self.new ≡ self.old }
    {
        if self.since(version) {
            return self.int64(number);
        }
        Ok(())
    }

    /// UUID.
    pub(crate) fn uuid(&mut self, id: &Uuid) -> Result<(), MessageFault>
        ensures { self.new ≡ self.old }
    {
        self.append(id.as_bytes())
    }

    /// UUID from a version on.
    pub(crate) fn uuid_since(&mut self, version: i16, id: &Uuid) -> Result<(), MessageFault>
        ensures { self.new ≡ self.old }
    {
        if self.since(version) {
            return self.uuid(id);
        }
        Ok(())
    }

    fn varint(&mut self, number: u32) -> Result<(), MessageFault>
        ensures { self.new ≡ self.old }
    {
        match put_varint(&mut self.bytes, number) {
            Ok(()) => Ok(()),
            Err(_) => Err(MessageFault::NoMemory),
        }
    }

    /// The number before a text: an INT16, or in flexible versions a varint of one more.
    fn text_size(&mut self, size: usize) -> Result<(), MessageFault>
        ensures { self.new ≡ self.old }
    {
        if size > LONGEST_STRING {
            return Err(MessageFault::Wire(WireFault::TooLong));
        }
        if self.is_flexible {
            return self.varint(size as u32 + 1);
        }
        self.int16(size as i16)
    }

    /// STRING, or in flexible versions COMPACT_STRING.
    pub(crate) fn string(&mut self, text: &str) -> Result<(), MessageFault>
        ensures { self.new ≡ self.old }
    {
        self.text_size(text.len())?;
        self.append(text.as_bytes())
    }

    /// STRING from a version on.
    pub(crate) fn string_since(&mut self, version: i16, text: &str) -> Result<(), MessageFault>
        ensures { self.new ≡ self.old }
    {
        if self.since(version) {
            return self.string(text);
        }
        Ok(())
    }

    /// NULLABLE_STRING, or in flexible versions COMPACT_NULLABLE_STRING.
    pub(crate) fn nullable_string(&mut self, text: Option<&str>) -> Result<(), MessageFault>
        ensures { self.new ≡ self.old }
    {
        if let Some(text) = text {
            return self.string(text);
        }
        if self.is_flexible {
            return self.varint(0);
        }
        self.int16(-1)
    }

    /// NULLABLE_STRING from a version on.
    pub(crate) fn nullable_string_since(
        &mut self,
        version: i16,
        text: Option<&str>,
    ) -> Result<(), MessageFault>
        ensures { self.new ≡ self.old }
    {
        if self.since(version) {
            return self.nullable_string(text);
        }
        Ok(())
    }

    /// RECORDS of versions that aren't flexible: an INT32 of the number of bytes, and the bytes.
    pub(crate) fn records(&mut self, records: &[u8]) -> Result<(), MessageFault>
        ensures { self.new ≡ self.old }
    {
        let size = count_of(records.len())?;
        self.int32(size)?;
        self.append(records)
    }

    /// The number before the elements of an array: an INT32, or in flexible versions a varint of one more.
    fn count(&mut self, count: usize) -> Result<(), MessageFault>
        ensures { self.new ≡ self.old }
    {
        let count = count_of(count)?;
        if self.is_flexible {
            return self.varint(count.unsigned_abs() + 1);
        }
        self.int32(count)
    }

    /// ARRAY, or in flexible versions COMPACT_ARRAY.
    pub(crate) fn array<T: PutFields>(&mut self, elements: &[T]) -> Result<(), MessageFault>
        ensures { self.new ≡ self.old }
    {
        self.count(elements.len())?;
        for element in elements {
            element.put_fields(self)?;
        }
        Ok(())
    }

    /// ARRAY from a version on.
    pub(crate) fn array_since<T: PutFields>(
        &mut self,
        version: i16,
        elements: &[T],
    ) -> Result<(), MessageFault>
        ensures { self.new ≡ self.old }
    {
        if self.since(version) {
            return self.array(elements);
        }
        Ok(())
    }

    /// The tagged fields that a structure ends in, in flexible versions (KIP-482): none.
    pub(crate) fn tags(&mut self) -> Result<(), MessageFault>
        ensures { self.new ≡ self.old }
    {
        if self.is_flexible {
            return self.varint(0);
        }
        Ok(())
    }

    /// The tagged fields of a reply's head, in flexible versions (KIP-482): none. A reply of ApiVersions has no place for them, since a
    /// client has to read it before it knows what the broker speaks (KIP-511).
    pub(crate) fn head_tags(&mut self, api: BrokerApi) -> Result<(), MessageFault>
        ensures { self.new ≡ self.old }
    {
        match api {
            BrokerApi::ApiVersions => Ok(()),
            _ => self.tags(),
        }
    }
}
