//! The fields of a request, taken one after the other, in the encoding of the request's version.

use crate::api::BrokerApi;
use crate::fault::MessageFault;
use flex_wire::{
    WireFault, take_compact_str, take_i16, take_i32, take_i64, take_nullable_count,
    take_nullable_str, take_old_str, take_uuid, take_varint,
};
use std::alloc::Global;
use uuid::Uuid;

/// The bytes of a request from its next field on. Texts and records are borrowed from them.
#[derive(Drop)]
pub(crate) struct Fields<'a> {
    rest: &'a [u8],
    version: i16,
    is_flexible: bool,
}

/// A structure that can be an element of an array.
pub(crate) trait TakeFields<'a>: Drop {
    /// Takes its fields, and its tagged fields.
    fn take_fields(alloc: Global, fields: &mut Fields<'a>) -> Result<Self, MessageFault>;
}

impl<'a> TakeFields<'a> for &'a str {
    fn take_fields(_alloc: Global, fields: &mut Fields<'a>) -> Result<&'a str, MessageFault> {
        fields.string()
    }
}

impl<'a> TakeFields<'a> for i32 {
    fn take_fields(_alloc: Global, fields: &mut Fields<'a>) -> Result<i32, MessageFault> {
        fields.int32()
    }
}

/// The first `size` bytes, and the rest.
fn take_bytes(bytes: &[u8], size: usize) -> Result<(&[u8], &[u8]), WireFault> {
    if bytes.len() < size {
        return Err(WireFault::Short);
    }
    Ok(bytes.split_at(size))
}

/// What stands after tagged fields (KIP-482), of which no meaning is known here. Takes no memory.
pub(crate) fn skip_tags(bytes: &[u8]) -> Result<&[u8], WireFault> {
    let (count, mut rest) = take_varint(bytes)?;
    for _ in 0..count {
        let (_tag, after) = take_varint(rest)?;
        let (size, after) = take_varint(after)?;
        let (_value, after) = take_bytes(after, size as usize)?;
        rest = after;
    }
    Ok(rest)
}

impl<'a> Fields<'a> {
    /// The fields of a request of this API and version, whose head has been read.
    pub(crate) fn of(api: BrokerApi, version: i16, bytes: &'a [u8]) -> Fields<'a> {
        Fields {
            rest: bytes,
            version,
            is_flexible: api.is_flexible(version),
        }
    }

    /// Whether the request's version is this one or later.
    pub(crate) fn since(&self, version: i16) -> bool {
        self.version >= version
    }

    /// INT8.
    pub(crate) fn int8(&mut self) -> Result<i8, MessageFault> {
        let [byte, rest @ ..] = self.rest else {
            return Err(MessageFault::Wire(WireFault::Short));
        };
        let number = i8::from_be_bytes([*byte]);
        self.rest = rest;
        Ok(number)
    }

    /// BOOLEAN: any byte but 0 is true.
    pub(crate) fn boolean(&mut self) -> Result<bool, MessageFault> {
        let number = self.int8()?;
        Ok(number != 0)
    }

    /// INT16.
    pub(crate) fn int16(&mut self) -> Result<i16, MessageFault> {
        let (number, rest) = take_i16(self.rest)?;
        self.rest = rest;
        Ok(number)
    }

    /// INT32.
    pub(crate) fn int32(&mut self) -> Result<i32, MessageFault> {
        let (number, rest) = take_i32(self.rest)?;
        self.rest = rest;
        Ok(number)
    }

    /// INT32 from a version on, and `before` in those before it.
    pub(crate) fn int32_since(&mut self, version: i16, before: i32) -> Result<i32, MessageFault> {
        if self.since(version) {
            return self.int32();
        }
        Ok(before)
    }

    /// INT64.
    pub(crate) fn int64(&mut self) -> Result<i64, MessageFault> {
        let (number, rest) = take_i64(self.rest)?;
        self.rest = rest;
        Ok(number)
    }

    /// INT64 from a version on, and `before` in those before it.
    pub(crate) fn int64_since(&mut self, version: i16, before: i64) -> Result<i64, MessageFault> {
        if self.since(version) {
            return self.int64();
        }
        Ok(before)
    }

    /// UUID.
    pub(crate) fn uuid(&mut self) -> Result<Uuid, MessageFault> {
        match take_uuid(self.rest) {
            Ok((id, rest)) => {
                self.rest = rest;
                Ok(id)
            }
            Err(fault) => Err(MessageFault::from(fault)),
        }
    }

    /// NULLABLE_STRING, or in flexible versions COMPACT_NULLABLE_STRING.
    pub(crate) fn nullable_string(&mut self) -> Result<Option<&'a str>, MessageFault> {
        let (text, rest) = if self.is_flexible {
            take_nullable_str(self.rest)?
        } else {
            take_old_str(self.rest)?
        };
        self.rest = rest;
        Ok(text)
    }

    /// STRING, or in flexible versions COMPACT_STRING.
    pub(crate) fn string(&mut self) -> Result<&'a str, MessageFault> {
        if self.is_flexible {
            let (text, rest) = take_compact_str(self.rest)?;
            self.rest = rest;
            return Ok(text);
        }
        match self.nullable_string()? {
            Some(text) => Ok(text),
            None => Err(MessageFault::Wire(WireFault::BadCount)),
        }
    }

    /// RECORDS of versions that aren't flexible: bytes after their number as an INT32, or -1 for null.
    pub(crate) fn records(&mut self) -> Result<Option<&'a [u8]>, MessageFault> {
        let Some(size) = self.old_count()? else {
            return Ok(None);
        };
        let (records, rest) = take_bytes(self.rest, size)?;
        self.rest = rest;
        Ok(Some(records))
    }

    /// The INT32 before an array or bytes: a number, or -1 for null.
    fn old_count(&mut self) -> Result<Option<usize>, MessageFault> {
        let count = self.int32()?;
        if count == -1 {
            return Ok(None);
        }
        if count < 0 {
            return Err(MessageFault::Wire(WireFault::BadCount));
        }
        Ok(Some(count as usize))
    }

    /// How many elements an array has. Each has at least one byte, so there are no more than bytes are left.
    fn count(&mut self) -> Result<Option<usize>, MessageFault> {
        let count = if self.is_flexible {
            let (count, rest) = take_nullable_count(self.rest)?;
            self.rest = rest;
            count.map(|count| count as usize)
        } else {
            self.old_count()?
        };
        match count {
            Some(count) if count > self.rest.len() => Err(MessageFault::Wire(WireFault::Short)),
            count => Ok(count),
        }
    }

    /// ARRAY that may be null, or in flexible versions COMPACT_ARRAY. No memory is taken for an element before it is read.
    pub(crate) fn nullable_array<T: TakeFields<'a>>(
        &mut self,
        alloc: Global,
    ) -> Result<Option<Vec<T>>, MessageFault> {
        let Some(count) = self.count()? else {
            return Ok(None);
        };
        let mut elements = Vec::new(alloc);
        for _ in 0..count {
            let element = T::take_fields(alloc, self)?;
            elements.push(element)?;
        }
        Ok(Some(elements))
    }

    /// ARRAY, or in flexible versions COMPACT_ARRAY.
    pub(crate) fn array<T: TakeFields<'a>>(
        &mut self,
        alloc: Global,
    ) -> Result<Vec<T>, MessageFault> {
        match self.nullable_array(alloc)? {
            Some(elements) => Ok(elements),
            None => Err(MessageFault::Wire(WireFault::BadCount)),
        }
    }

    /// The tagged fields that a structure ends in, in flexible versions (KIP-482).
    pub(crate) fn tags(&mut self) -> Result<(), MessageFault> {
        if self.is_flexible {
            let rest = skip_tags(self.rest)?;
            self.rest = rest;
        }
        Ok(())
    }
}
