//! The bytes that a line has read and not answered.
ghost use Rattle.std.specs.Prelude.{◌≡◌, ℕ, ◌+◌, ◌==◌, ◌<◌, ◌≤◌, [], length, take, drop, IfOk, OnErr, Ok};
ghost use Rattle.futures.specs.Task.{Covers, Keeps};
ghost use Rattle.tokio.specs.Io.Moved.{AppendsRead};
ghost use Rattle.link_futures.specs.Parts.{count_of, faults_of, OnWaits};
ghost use Rattle.link_futures.specs.Next.{IsNext};
ghost use Rattle.link_futures.specs.declared.limits.TheConstants.{LARGEST_READ};
ghost use Rattle.link_futures.specs.declared.part.Part.TheVariants.{Moved};

use crate::limits::{LARGEST_READ, SIZE_BYTES};
use crate::part::Part;
use crate::reader::ReadPart;
use bytes::BytesMut;
use flex_wire::take_i32;
use futures::task::Context;
use group_types::limits::{LARGEST_BODY, SMALLEST_BODY};
use std::alloc::{AllocError, Global};
use std::marker::Model;

/// The most bytes of a read on a quiet line. A line that waits for the next frame has no room for more.
const SMALL_READ: usize = 3_072;

/// The most room that a quiet line keeps while it waits for the next frame: for a small read, and for a short frame that the last one
/// ended in.
const KEPT: usize = 3_328;

/// The most room that a line keeps before it is quiet: for the next requests of a client that has several under way.
const KEPT_BUSY: usize = 16_384;

/// After this number of reads in a row that found nothing, a line is quiet.
const QUIET_READS: u8 = 200;

/// What the bytes begin with.
#[derive(Clone, Copy)]
pub(crate) enum Next {
    /// Less than a frame.
    Partial,
    /// A frame whose body has this many bytes.
    Whole(usize),
    /// A size that no body may have.
    Refused,
}

/// The bytes that a line has read and not answered. Callers see the list of them.
#[derive(Drop)]
pub(crate) struct Inbox {
    buffer: BytesMut,
    /// What they begin with.
    next: Next,
    /// The most bytes of the next read: twice as many after each that took its most, half as many after each that took less
    /// than a quarter and not the rest of a frame, and few once the line is quiet.
    room: usize,
    /// How many of the last reads found nothing, or more than that.
    waits: u8,
    alloc: Global,
}

impl Model for Inbox {
    ghost use Rattle.std.specs.Prelude.{ℕ, List, ◌<◌, ◌≤◌};
    ghost use Rattle.link_futures.specs.Next.{IsNext};
    ghost use Rattle.link_futures.specs.declared.limits.TheConstants.{LARGEST_READ};

    ghost Value = { List ℕ };

    ghost view = { λ b. b.buffer.items };

    ghost invariant = { λ b. IsNext b.next b.buffer.items × (0 < b.room) × (b.room ≤ LARGEST_READ) };
}

impl Inbox {
    /// No bytes. Takes no memory.
    pub(crate) fn new(alloc: Global) -> Inbox
        ensures { result ≡ [] }
    {
        Inbox {
            buffer: BytesMut::new(alloc),
            next: next_of(&[]),
            room: SMALL_READ,
            waits: 0,
            alloc,
        }
    }

    pub(crate) fn is_empty(&self) -> bool
        ensures { result ≡ (length self.now == 0) }
    {
        self.buffer.is_empty()
    }

    /// Whether the last reads found nothing.
    pub(crate) fn is_quiet(&self) -> bool {
        QUIET_READS <= self.waits
    }

    /// What the bytes begin with.
    pub(crate) fn next(&self) -> Next
        ensures { IsNext result self.now }
    {
        self.next
    }

    /// The body of the frame at the front, which has `len` bytes. It is lent and not copied.
    pub(crate) fn body(&self, len: usize) -> &[u8]
        requires { 4 + len ≤ length self.now }
        ensures { result.now ≡ take len (drop 4 self.now) }
    {
        &self.buffer.as_slice()[SIZE_BYTES..SIZE_BYTES + len]
    }

    /// Drops the frame at the front, whose body has `len` bytes.
    pub(crate) fn drop_frame(&mut self, len: usize)
        requires { 4 + len ≤ length self.old }
        ensures { self.new ≡ drop len (drop 4 self.old) }
    {
        self.buffer.advance(SIZE_BYTES);
        self.buffer.advance(len);
        self.next = next_of(self.buffer.as_slice());
    }

    /// Reads once, and keeps the bytes. Where memory is short nothing is read. Where no bytes are there, the next come to the front.
    #[inline(never)]
    pub(crate) fn read<R: ReadPart>(
        &mut self,
        reader: &mut R,
        cx: &mut Context<'_>,
    ) -> Result<Part, AllocError>
        ensures bytes { IfOk result (λ part. AppendsRead R.reads reader.old reader.new self.old self.new (count_of part)) }
        ensures short { IfOk result (λ part. count_of part ≤ LARGEST_READ) }
        ensures end { result ≡ Ok (Moved 0) → R.is_at_end reader.new }
        ensures once { IfOk result (λ _. R.polls reader.old reader.new) }
        ensures counted { IfOk result (λ part. R.faults reader.new ≡ R.faults reader.old + faults_of part) }
        ensures registered { IfOk result (λ part. OnWaits part (Covers cx.new (R.needs reader.new))) }
        ensures err { OnErr result ((self.new ≡ self.old) × (reader.new ≡ reader.old)) }
        ensures kept { Keeps cx.old cx.new }
    {
        if self.buffer.is_empty() {
            self.buffer.clear();
        }
        if self.buffer.capacity() == 0 {
            self.buffer.reserve(self.room.max(KEPT))?;
        }
        let part = read_into(&mut self.buffer, self.room, reader, cx)?;
        self.next = next_of(self.buffer.as_slice());
        self.settle(part);
        Ok(part)
    }

    /// After a read: what it took tells how much the next may take, and a line with nothing to read gives back what is more than it
    /// keeps.
    fn settle(&mut self, part: Part)
        ensures { self.new ≡ self.old }
    {
        match part {
            Part::Moved(count) => {
                self.waits = 0;
                if count == self.room {
                    self.room = (2 * count).min(LARGEST_READ);
                } else if count < self.room / 4 && self.buffer.len() == count {
                    self.room = (self.room / 2).max(SMALL_READ);
                }
            }
            Part::Waits => {
                self.waits = self.waits.saturating_add(1);
                if self.is_quiet() {
                    self.room = SMALL_READ;
                }
                let kept = if self.is_quiet() { KEPT } else { KEPT_BUSY };
                if self.buffer.is_empty() && kept < self.buffer.capacity() {
                    self.buffer = BytesMut::new(self.alloc);
                }
            }
            Part::Fault => {}
        }
    }
}

/// Reads once, at most `room` bytes, and appends them. Where memory is short nothing is read.
pub(crate) fn read_into<R: ReadPart>(
    buffer: &mut BytesMut,
    room: usize,
    reader: &mut R,
    cx: &mut Context<'_>,
) -> Result<Part, AllocError>
    requires { 0 < room }
    ensures bytes { IfOk result (λ part. AppendsRead R.reads reader.old reader.new buffer.old.items buffer.new.items (count_of part)) }
    ensures short { IfOk result (λ part. count_of part ≤ room) }
    ensures end { result ≡ Ok (Moved 0) → R.is_at_end reader.new }
    ensures once { IfOk result (λ _. R.polls reader.old reader.new) }
    ensures counted { IfOk result (λ part. R.faults reader.new ≡ R.faults reader.old + faults_of part) }
    ensures registered { IfOk result (λ part. OnWaits part (Covers cx.new (R.needs reader.new))) }
    ensures err { OnErr result ((buffer.new.items ≡ buffer.old.items) × (reader.new ≡ reader.old)) }
    ensures kept { Keeps cx.old cx.new }
{
    let before = buffer.len();
    buffer.reserve(room)?;
    buffer.advance_mut(room);
    let part = read_behind(reader, cx, buffer.as_mut_slice(), before);
    buffer.truncate(before + part.count());
    Ok(part)
}

/// Reads once into the bytes from an index on.
fn read_behind<R: ReadPart>(
    reader: &mut R,
    cx: &mut Context<'_>,
    bytes: &mut [u8],
    before: usize,
) -> Part
    requires { before ≤ length bytes.old }
    ensures bound { before + count_of result ≤ length bytes.new }
    ensures bytes { AppendsRead R.reads reader.old reader.new (take before bytes.old) (take (before + count_of result) bytes.new) (count_of result) }
    ensures end { result ≡ Moved 0 → before < length bytes.old → R.is_at_end reader.new }
    ensures once { R.polls reader.old reader.new }
    ensures counted { R.faults reader.new ≡ R.faults reader.old + faults_of result }
    ensures registered { OnWaits result (Covers cx.new (R.needs reader.new)) }
    ensures kept { Keeps cx.old cx.new }
{
    reader.poll_read_part(cx, &mut bytes[before..])
}

/// What bytes begin with: a frame is an INT32 size and that many bytes (Kafka protocol guide, "Protocol").
fn next_of(bytes: &[u8]) -> Next
    ensures { IsNext result bytes.now }
{
    let Ok((size, rest)) = take_i32(bytes) else {
        return Next::Partial;
    };
    if size < (SMALLEST_BODY as i32) || (LARGEST_BODY as i32) < size {
        return Next::Refused;
    }
    let size = size as usize;
    if rest.len() < size {
        return Next::Partial;
    }
    Next::Whole(size)
}
