//! Keys of the tables, from the caller.

use std::io;
use std::random::RandomSource;

/// The random bytes that the caller gave.
#[derive(Clone, Copy)]
pub(crate) struct Keys<'a> {
    pub(crate) bytes: &'a [u8; 16],
}

impl RandomSource for Keys<'_> {
    fn fill_bytes(&self, buf: &mut [u8]) -> io::Result<()> {
        let bytes = self.bytes;
        for (to, from) in buf.iter_mut().zip(bytes.iter()) {
            *to = *from;
        }
        Ok(())
    }
}
