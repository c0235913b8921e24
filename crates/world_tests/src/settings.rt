//! What members are made with.

ghost use Rattle.std.specs.Prelude.{IfOk, map, All, string_bytes};
ghost use Rattle.kip_msgs.specs.Writable.{IsShort, IsShortIfAny};
ghost use Rattle.std.specs.Option.{option_map};
ghost use Rattle.member_core.specs.Views.{settings_value, HasShortTexts};

use group_types::limits::LONGEST_STRING;
use member_core::Settings;
use std::alloc::{AllocError, Global};
use test_support::tables::{cut, number};

/// The settings that words say: the group, the instance, the rack and the assignor, of which `-` is none, the rebalance timeout in
/// milliseconds, and the topics.
pub fn settings_of(alloc: Global, words: &str) -> Result<Settings, AllocError>
    ensures { IfOk result (λ settings. HasShortTexts (settings_value settings)) }
{
    let (group, words) = cut(words);
    let (instance, words) = cut(words);
    let (rack, words) = cut(words);
    let (assignor, words) = cut(words);
    let (timeout, topics) = cut(words);
    let timeout: u16 = number(timeout);
    Ok(Settings {
        group: text_of(alloc, group)?,
        instance: text_if_any(alloc, instance)?,
        rack: text_if_any(alloc, rack)?,
        rebalance_timeout: u32::from(timeout),
        names: names_of(alloc, topics)?,
        assignor: text_if_any(alloc, assignor)?,
    })
}

/// The names of topics: parted by commas, or `COUNT*LENGTH` for COUNT names of LENGTH bytes.
fn names_of(alloc: Global, topics: &str) -> Result<Vec<String>, AllocError>
    ensures { IfOk result (λ names. All IsShort (map string_bytes names.items)) }
{
    if let Some((count, length)) = topics.split_once('*') {
        return long_names(alloc, number(count), number(length));
    }
    let mut names = Vec::new(alloc);
    for name in topics.split(',') {
        names.push(text_of(alloc, name)?)?;
    }
    Ok(names)
}

/// Names of `length` bytes, `count` of them.
fn long_names(alloc: Global, count: usize, length: usize) -> Result<Vec<String>, AllocError>
    ensures { IfOk result (λ names. All IsShort (map string_bytes names.items)) }
{
    let bytes = Vec::from_elem(alloc, b'n', length)?;
    let name = str::from_utf8(bytes.as_slice()).map_err(|_| AllocError)?;
    let mut names = Vec::new(alloc);
    for _ in 0..count {
        names.push(text_of(alloc, name)?)?;
    }
    Ok(names)
}

fn text_if_any(alloc: Global, word: &str) -> Result<Option<String>, AllocError>
    ensures { IfOk result (λ text. IsShortIfAny (option_map string_bytes text)) }
{
    if word == "-" {
        return Ok(None);
    }
    Ok(Some(text_of(alloc, word)?))
}

/// A text that a request can say. The tables have no longer one.
fn text_of(alloc: Global, word: &str) -> Result<String, AllocError>
    ensures { IfOk result (λ text. IsShort (string_bytes text)) }
{
    if word.len() > LONGEST_STRING {
        return Err(AllocError);
    }
    String::from_str(alloc, word)
}
