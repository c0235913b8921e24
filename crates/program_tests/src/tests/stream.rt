//! A reader that fails.
ghost use Rattle.std.specs.Prelude.{◌≡◌, ◌≤◌, IfOk};

use super::setup::Fails;
use std::io;
use std::io::{Error, ErrorKind, Read};

/// A reader of bytes that may fail.
#[derive(Drop)]
pub(super) struct Stream<'a> {
    rest: &'a [u8],
    fails: Fails,
    /// How many bytes come one by one, where some do.
    drops: usize,
    is_next: bool,
}

impl<'a> Stream<'a> {
    pub(super) fn new(input: &'a [u8], fails: Fails) -> Stream<'a> {
        Stream {
            rest: input,
            fails,
            drops: if fails == Fails::Drops {
                input.len() / 2
            } else {
                0
            },
            is_next: true,
        }
    }

    /// What comes behind the last byte.
    fn end(&self, room: usize) -> io::Result<usize>
        ensures { IfOk result (λ count. count ≤ room) }
    {
        match self.fails {
            Fails::Read => Err(Error::from(ErrorKind::BrokenPipe)),
            Fails::Memory => Err(Error::from(ErrorKind::OutOfMemory)),
            Fails::End => Ok(room),
            _ => Ok(0),
        }
    }

    /// The most bytes that the next read gives.
    fn next_most(&mut self) -> io::Result<usize>
        ensures { self.new.rest ≡ self.old.rest }
    {
        if self.drops == 0 {
            return Ok(usize::MAX);
        }
        self.is_next = !self.is_next;
        if self.is_next {
            return Err(Error::from(ErrorKind::Interrupted));
        }
        self.drops -= 1;
        Ok(1)
    }
}

impl Read for Stream<'_> {
    fn read(&mut self, buf: &mut [u8]) -> io::Result<usize> {
        if self.rest.is_empty() {
            return self.end(buf.len());
        }
        let count = self.next_most()?.min(buf.len()).min(self.rest.len());
        let (now, later) = self.rest.split_at(count);
        buf[..count].copy_from_slice(now);
        self.rest = later;
        Ok(count)
    }
}
