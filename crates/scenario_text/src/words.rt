//! The words of a line, and what they stand for.
ghost use Rattle.std.specs.Prelude.{◌≡◌, ◌≢◌, ℕ, [], pos, All, ◌^◌, ◌<◌, ◌↔◌, length, map, decimal, IsTrue, IfOk, OnOk, IsErr, IfSome, IfNone};
ghost use Rattle.hex.specs.Hex.{decode_of};
ghost use Rattle.scenario_text.specs.Words.{words_of, IsLine, IsName};
ghost use Rattle.std.specs.Prelude.{ℤ, MatchOption, neg_ℤ, ◌≤◌};
ghost use Rattle.scenario_text.specs.Numbers.{SpellsOffset};
ghost use Rattle.scenario_text.specs.FrameLines.{IsFrameLine, SpellsBytes};

use crate::fault::LineFault;
use group_types::limits::LONGEST_STRING;
use itoa::Buffer;
use std::alloc::{AllocError, Global};

/// The words of a line, which one space parts each from the next. A line that is not text, and one with an empty word,
/// is a bad line.
pub fn words_of<'a>(alloc: Global, line: &'a [u8]) -> Result<Vec<&'a str>, LineFault>
    ensures words { IfOk result (λ words. map (λ word. word.now) words.items ≡ words_of line.entry.now) }
    ensures accepted { OnOk result (IsLine line.entry.now) }
    ensures refused { result ≡ Err LineFault.BadLine → ¬ IsLine line.entry.now }
{
    let Ok(text) = str::from_utf8(line) else {
        return Err(LineFault::BadLine);
    };
    let words = parts_of(alloc, text)?;
    if !are_given(words.as_slice()) {
        return Err(LineFault::BadLine);
    }
    Ok(words)
}

/// The parts of a text between its spaces.
fn parts_of<'a>(alloc: Global, text: &'a str) -> Result<Vec<&'a str>, AllocError>
    ensures { IfOk result (λ parts. map (λ part. part.now) parts.items ≡ words_of text.entry.now) }
{
    text.split(' ').collect(alloc)
}

/// Whether no word is empty.
fn are_given(words: &[&str]) -> bool
    ensures { IsTrue result ↔ All (λ word. word.now ≢ []) words.now }
{
    words.iter().all(|word| !word.is_empty())
}

/// The number that a word spells in decimal, with no sign and no leading zeros.
pub fn number_of(word: &str) -> Option<u64>
    ensures some { IfSome result (λ number. (number < 2 ^ 64) × (word.now ≡ decimal number)) }
    ensures none { IfNone result ((number : ℕ) → number < 2 ^ 64 → word.now ≢ decimal number) }
{
    let number = word.parse::<u64>().ok()?;
    if Buffer::new().format(number) == word {
        Some(number)
    } else {
        None
    }
}

/// The number of partitions that a word spells, which is an INT32.
pub fn count_of(word: &str) -> Option<i32>
    ensures some { IfSome result (λ count. (number : ℕ) × (number < 2 ^ 31) × (count ≡ pos number) × (word.now ≡ decimal number)) }
    ensures none { IfNone result ((number : ℕ) → number < 2 ^ 31 → word.now ≢ decimal number) }
{
    i32::try_from(number_of(word)?).ok()
}

/// The offset that a word spells, which is an INT64: a number, or a minus and a number.
pub fn offset_of(word: &str) -> Option<i64>
    ensures some { IfSome result (SpellsOffset word.now) }
    ensures none { IfNone result ((offset : ℤ) → ¬ SpellsOffset word.now offset) }
{
    match word.strip_prefix('-') {
        Some(digits) => below_nought(number_of(digits)?),
        None => i64::try_from(number_of(word)?).ok(),
    }
}

/// The number below 0 by so much, where it is an INT64.
fn below_nought(number: u64) -> Option<i64>
    ensures { MatchOption result (2 ^ 63 < number) (λ offset. (number ≤ 2 ^ 63) × (offset ≡ neg_ℤ (pos number))) }
{
    match i64::try_from(number) {
        Ok(number) => Some(-number),
        Err(_) if number == 1 << 63 => Some(i64::MIN),
        Err(_) => None,
    }
}

/// Whether a word may be the name of a topic. A single `-` stands for no name, and commas and colons part names from
/// other words.
pub fn is_name(word: &str) -> bool
    ensures { IsTrue result ↔ IsName word.now }
{
    word.len() <= LONGEST_STRING
        && word != "-"
        && word.bytes().all(|byte| byte != b',' && byte != b':')
}

/// The bytes that a word spells in hex, in either case. Another word is a bad line.
pub fn bytes_of(alloc: Global, word: &str) -> Result<Vec<u8>, LineFault>
    ensures bytes { IfOk result (λ bytes. decode_of word.now ≡ Ok bytes.items) }
    ensures refused { result ≡ Err LineFault.BadLine → IsErr (decode_of word.now) }
{
    decoded(alloc, word.as_bytes())
}

/// The bytes that a line spells in hex, in either case, where it is one word. Any other line is a bad line.
pub fn bytes_of_line(alloc: Global, line: &[u8]) -> Result<Vec<u8>, LineFault>
    ensures bytes { IfOk result (λ bytes. IsFrameLine line.now bytes.items) }
    ensures refused { result ≡ Err LineFault.BadLine → ¬ SpellsBytes line.now }
{
    if line.is_empty() {
        return Err(LineFault::BadLine);
    }
    decoded(alloc, line)
}

/// The bytes that digits spell in hex.
fn decoded(alloc: Global, digits: &[u8]) -> Result<Vec<u8>, LineFault>
    ensures bytes { IfOk result (λ bytes. decode_of digits.now ≡ Ok bytes.items) }
    ensures refused { result ≡ Err LineFault.BadLine → IsErr (decode_of digits.now) }
{
    let mut bytes = Vec::new(alloc);
    decode_into(digits, &mut bytes)?;
    Ok(bytes)
}

/// Puts the bytes that digits spell in hex, in either case, in place of the former ones, whose room they take. Other digits are a bad
/// line, and what is there then is left open.
pub fn decode_into(digits: &[u8], bytes: &mut Vec<u8>) -> Result<(), LineFault>
    ensures bytes { OnOk result (decode_of digits.now ≡ Ok bytes.new.items) }
    ensures refused { result ≡ Err LineFault.BadLine → IsErr (decode_of digits.now) }
{
    if digits.len() % 2 != 0 {
        return Err(LineFault::BadLine);
    }
    bytes.resize(digits.len() / 2, 0)?;
    match hex::decode_to_slice(digits, bytes.as_mut_slice()) {
        Ok(()) => Ok(()),
        Err(_) => Err(LineFault::BadLine),
    }
}
