//! Why lines are bad, and why frames come to nothing, in words.

use crate::command_line::escaped;
use crate::fault::LineFault;
use crate::{frame, words};
use kip_msgs::{MsgFault, read_request};
use std::alloc::{AllocError, Global};

const NO_HEX: &str = "a frame is one word of hex, two digits a byte";

/// Why a line of `coord frame` is bad.
pub fn of_frame_line(alloc: Global, line: &[u8]) -> Result<String, AllocError> {
    match argument_of(line, "") {
        Some(_) => String::from_str(alloc, NO_HEX),
        None => of_line(alloc, line, &[]),
    }
}

/// The rest of a line that begins so, where the line's text has no fault.
pub fn argument_of<'a>(line: &'a [u8], start: &str) -> Option<&'a str> {
    let text = str::from_utf8(line).ok()?;
    match of_text(text) {
        Some(_) => None,
        None => text.strip_prefix(start),
    }
}

/// Why a line isn't of these forms.
pub fn of_line(alloc: Global, line: &[u8], forms: &[(&str, &str)]) -> Result<String, AllocError> {
    let Ok(text) = str::from_utf8(line) else {
        return String::from_str(alloc, "the line is not UTF-8");
    };
    match of_text(text) {
        Some(reason) => String::from_str(alloc, reason),
        None => of_words(alloc, text, forms),
    }
}

/// What is wrong with the text of a line, whatever its words are.
fn of_text(text: &str) -> Option<&'static str> {
    if text.is_empty() {
        Some("the line is empty")
    } else if text.ends_with('\r') {
        Some("the line ends in a carriage return")
    } else if text.split(' ').any(|word| word.is_empty()) {
        Some("one space stands between two words, and none elsewhere")
    } else {
        None
    }
}

/// Which form a line has, by its first word.
fn of_words(alloc: Global, text: &str, forms: &[(&str, &str)]) -> Result<String, AllocError> {
    let word = text.split(' ').next().unwrap_or_default();
    for (name, form) in forms {
        if *name == word {
            return format!(in alloc; "the line is not {form}");
        }
    }
    let word = escaped(alloc, word)?;
    format!(in alloc; "unknown word \"{word}\"")
}

/// Why a word has no bytes.
pub fn of_word(alloc: Global, fault: LineFault) -> Result<String, AllocError> {
    match fault {
        LineFault::BadLine => String::from_str(alloc, NO_HEX),
        LineFault::NoMemory => Err(AllocError),
    }
}

/// Why bytes are no frame of a request with a body of `least` to `most` bytes, or nothing where they are one.
pub fn of_frame(
    alloc: Global,
    bytes: &[u8],
    least: usize,
    most: usize,
) -> Result<Option<String>, AllocError> {
    let Some(body) = frame::framed(bytes) else {
        return Ok(Some(of_size(alloc, bytes)?));
    };
    let count = body.len();
    if count < least || most < count {
        let reason = format!(in alloc;
            "a body has {least} to {most} bytes, and this one has {count}"
        )?;
        return Ok(Some(reason));
    }
    match read_request(alloc, body) {
        Ok(_) => Ok(None),
        Err(fault) => Ok(Some(of_body(alloc, body, fault)?)),
    }
}

/// Why a body is no request, by the fault that it has.
fn of_body(alloc: Global, body: &[u8], fault: MsgFault) -> Result<String, AllocError> {
    let (key, version) = (number_at(body, 0), number_at(body, 2));
    match fault {
        MsgFault::NoMemory => Err(AllocError),
        MsgFault::UnknownApi => format!(in alloc; "the API key {key} is not supported"),
        MsgFault::UnknownVersion => {
            format!(in alloc; "version {version} of the API key {key} is not supported")
        }
        MsgFault::Wire(_) | MsgFault::LeftOver => format!(in alloc; "{fault}"),
    }
}

/// The INT16 at a place of a body, or 0 where it ends before.
fn number_at(body: &[u8], place: usize) -> i16 {
    let rest = body.get(place..).unwrap_or_default();
    match rest.split_first_chunk::<2>() {
        Some((number, _)) => i16::from_be_bytes(*number),
        None => 0,
    }
}

/// Why the size of a frame isn't the number of the bytes after it.
fn of_size(alloc: Global, bytes: &[u8]) -> Result<String, AllocError> {
    match bytes.split_first_chunk::<4>() {
        Some((size, body)) => {
            let (size, count) = (i32::from_be_bytes(*size), body.len());
            format!(in alloc; "the frame says {size} bytes and has {count}")
        }
        None => String::from_str(alloc, "the frame has fewer bytes than the four of its size"),
    }
}
