//! The output, written in pieces.
ghost use Rattle.std.specs.Prelude.{◌≡◌, ◌≤◌, ◌↔◌, List, ℕ, [], ◌∷◌, ◌++◌, length, IsTrue, OnOk, OnErr};
ghost use Rattle.std.specs.Io.KnownBytes.{Appends};
ghost use Rattle.hex.specs.Hex.{encode_lower};
ghost use Rattle.scenario_text.specs.Writing.{WritesPart};

use std::alloc::{AllocError, Global};
use std::io;
use std::io::{Error, ErrorKind, Write};
use std::marker::Model;

/// The most bytes of one write. An output that holds at least this number of bytes is full.
const PIECE: usize = 65_536;

/// What ends a line.
const LINE_FEED: u8 = b'\n';

/// Lines that are printed and not yet written.
#[derive(Drop)]
pub struct Output {
    held: Vec<u8>,
}

impl Model for Output {
    ghost Value = { List ℕ };

    ghost view = { λ output. output.held.items };
}

impl Output {
    /// No lines.
    pub fn new(alloc: Global) -> Output
        ensures { result ≡ [] }
    {
        Output {
            held: Vec::new(alloc),
        }
    }

    /// Prints one line. On `Err` nothing is printed.
    pub fn line(&mut self, text: &str) -> Result<(), AllocError>
        ensures ok { OnOk result (self.new ≡ self.old ++ text.now ++ 10 ∷ []) }
        ensures err { OnErr result (self.new ≡ self.old) }
    {
        let held = self.held.len();
        self.held.extend_from_slice(text.as_bytes())?;
        if self.held.push(LINE_FEED).is_err() {
            self.held.truncate(held);
            return Err(AllocError);
        }
        Ok(())
    }

    /// Prints one line: bytes in hex. On `Err` nothing is printed.
    pub fn hex_line(&mut self, bytes: &[u8]) -> Result<(), AllocError>
        ensures ok { OnOk result (self.new ≡ self.old ++ encode_lower bytes.now ++ 10 ∷ []) }
        ensures err { OnErr result (self.new ≡ self.old) }
    {
        let held = self.held.len();
        put_hex(&mut self.held, bytes)?;
        if self.held.push(LINE_FEED).is_err() {
            self.held.truncate(held);
            return Err(AllocError);
        }
        Ok(())
    }

    /// Prints lines that are put together already. On `Err` nothing is printed.
    pub fn text(&mut self, lines: &str) -> Result<(), AllocError>
        ensures ok { OnOk result (self.new ≡ self.old ++ lines.now) }
        ensures err { OnErr result (self.new ≡ self.old) }
    {
        self.held.extend_from_slice(lines.as_bytes())
    }

    /// The lines that are held.
    pub fn as_bytes(&self) -> &[u8]
        ensures { result.now ≡ self.now }
    {
        self.held.as_slice()
    }

    /// Whether there is enough to be worth a write.
    pub fn is_full(&self) -> bool
        ensures { IsTrue result ↔ (PIECE ≤ length self.now) }
    {
        PIECE <= self.held.len()
    }

    /// Writes all lines that are held, and holds them no longer. After an `Err` some of them may be written.
    pub fn write_to<W: Write>(&mut self, writer: &mut W) -> io::Result<()>
        ensures written { OnOk result (Appends (W.contents writer.old) (W.contents writer.new) self.old) }
        ensures empty { OnOk result (self.new ≡ []) }
        ensures part { WritesPart (W.contents writer.old) (W.contents writer.new) self.old }
    {
        write_whole(writer, self.held.as_slice())?;
        self.held.clear();
        Ok(())
    }
}

/// Appends bytes in hex.
fn put_hex(text: &mut Vec<u8>, bytes: &[u8]) -> Result<(), AllocError>
    ensures ok { OnOk result (text.new.items ≡ text.old.items ++ encode_lower bytes.now) }
    ensures err { OnErr result (text.new.items ≡ text.old.items) }
{
    let start = text.len();
    let Some(digits) = bytes.len().checked_mul(2) else {
        return Err(AllocError);
    };
    let Some(end) = start.checked_add(digits) else {
        return Err(AllocError);
    };
    text.resize(end, 0)?;
    let (_, room) = text.as_mut_slice().split_at_mut(start);
    // (there is room for just these digits)
    let _ = hex::encode_to_slice(bytes, room);
    Ok(())
}

/// Writes all the bytes, or the first of them and then says why no more.
pub fn write_whole<W: Write>(writer: &mut W, bytes: &[u8]) -> io::Result<()>
    ensures written { OnOk result (Appends (W.contents writer.old) (W.contents writer.new) bytes.now) }
    ensures part { WritesPart (W.contents writer.old) (W.contents writer.new) bytes.now }
{
    let mut rest = bytes;
    for _ in 0..u64::MAX {
        if rest.is_empty() {
            return Ok(());
        }
        match writer.write(&rest[..rest.len().min(PIECE)]) {
            Ok(0) => return Err(Error::from(ErrorKind::WriteZero)),
            Ok(n) => rest = &rest[n..],
            Err(error) => {
                if error.kind() != ErrorKind::Interrupted {
                    return Err(error);
                }
            }
        }
    }
    Err(Error::from(ErrorKind::Interrupted))
}
