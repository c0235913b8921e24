//! The settings of a client of a script.
ghost use Rattle.std.specs.Prelude.{◌≡◌, ◌≢◌, ◌↔◌, List, ℕ, Option, [], map, string_bytes, All, IsTrue, IfOk, OnErr};
ghost use Rattle.std.specs.List.{slice_split};
ghost use Rattle.std.specs.Option.{option_map};
ghost use Rattle.member_core.specs.Settings.{Settings as Known};
ghost use Rattle.member_core.specs.Views.{settings_value};
ghost use Rattle.scenario_text.specs.Numbers.{SpellsCount};
ghost use Rattle.scenario_lines.specs.Scripts.{SpellSettings, SpellsNames, SpellsNameIfAny, is_comma};
ghost use Rattle.scenario_text.specs.Words.{IsName};

use scenario_text::fault::LineFault;
use scenario_text::words;
use std::alloc::{AllocError, Global};
use world_sim::Settings;

/// The settings of the words `GROUP INSTANCE ASSIGNOR REBALANCE TOPICS`. A client has no rack.
pub fn settings_of(alloc: Global, words: &[&str]) -> Result<Settings, LineFault>
    ensures settings { IfOk result (λ settings. SpellSettings (map (λ word. word.now) words.now) (settings_value settings)) }
    ensures refused { result ≡ Err LineFault.BadLine → (s : Known) → ¬ SpellSettings (map (λ word. word.now) words.now) s }
{
    let [group, instance, assignor, rebalance, topics] = words else {
        return Err(LineFault::BadLine);
    };
    if !words::is_name(group) {
        return Err(LineFault::BadLine);
    }
    let rebalance_timeout = timeout_of(rebalance)?;
    let (instance, assignor) = names_or_none(alloc, instance, assignor)?;
    let names = names_of(alloc, topics)?;
    let group = String::from_str(alloc, group)?;
    Ok(Settings {
        group,
        instance,
        rack: None,
        rebalance_timeout,
        names,
        assignor,
    })
}

/// The names that two words are, each or none where it is `-`.
fn names_or_none(
    alloc: Global,
    one: &str,
    other: &str,
) -> Result<(Option<String>, Option<String>), LineFault>
    ensures one { IfOk result (λ names. SpellsNameIfAny one.now (option_map string_bytes names.0)) }
    ensures other { IfOk result (λ names. SpellsNameIfAny other.now (option_map string_bytes names.1)) }
    ensures refused { result ≡ Err LineFault.BadLine → (a b : Option (List ℕ)) → SpellsNameIfAny one.now a → ¬ SpellsNameIfAny other.now b }
{
    let first = name_or_none(alloc, one)?;
    let second = name_or_none(alloc, other)?;
    Ok((first, second))
}

/// The timeout that a word spells, in milliseconds: an INT32.
fn timeout_of(word: &str) -> Result<u32, LineFault>
    ensures timeout { IfOk result (SpellsCount word.now) }
    ensures refused { OnErr result ((timeout : ℕ) → ¬ SpellsCount word.now timeout) }
{
    let timeout = words::number_of(word).ok_or(LineFault::BadLine)?;
    if timeout > i32::MAX as u64 {
        return Err(LineFault::BadLine);
    }
    Ok(timeout as u32)
}

/// The name that a word is, or none where it is `-`.
fn name_or_none(alloc: Global, word: &str) -> Result<Option<String>, LineFault>
    ensures name { IfOk result (λ name. SpellsNameIfAny word.now (option_map string_bytes name)) }
    ensures refused { result ≡ Err LineFault.BadLine → (name : Option (List ℕ)) → ¬ SpellsNameIfAny word.now name }
{
    if word == "-" {
        return Ok(None);
    }
    if !words::is_name(word) {
        return Err(LineFault::BadLine);
    }
    let name = String::from_str(alloc, word)?;
    Ok(Some(name))
}

/// The names that a word has, parted by commas; `-` has none.
fn names_of(alloc: Global, word: &str) -> Result<Vec<String>, LineFault>
    ensures names { IfOk result (λ names. SpellsNames word.now (map string_bytes names.items)) }
    ensures refused { result ≡ Err LineFault.BadLine → (names : List (List ℕ)) → ¬ SpellsNames word.now names }
{
    if word == "-" {
        return Ok(Vec::new(alloc));
    }
    let parts = parts_of(alloc, word)?;
    if !are_names(parts.as_slice()) {
        return Err(LineFault::BadLine);
    }
    let names = copies_of(alloc, parts.as_slice())?;
    Ok(names)
}

/// The parts of a text between its commas.
fn parts_of<'a>(alloc: Global, text: &'a str) -> Result<Vec<&'a str>, AllocError>
    ensures { IfOk result (λ parts. map (λ part. part.now) parts.items ≡ slice_split is_comma text.entry.now) }
{
    text.split(',').collect(alloc)
}

/// Whether each of the words is a name.
fn are_names(words: &[&str]) -> bool
    ensures { IsTrue result ↔ All (λ word. IsName word.now × (word.now ≢ [])) words.now }
{
    words
        .iter()
        .all(|word| !word.is_empty() && words::is_name(word))
}

/// Copies of the words.
fn copies_of(alloc: Global, words: &[&str]) -> Result<Vec<String>, AllocError>
    ensures { IfOk result (λ copies. map string_bytes copies.items ≡ (map (λ word. word.now) words.now)) }
{
    let mut copies = Vec::new(alloc);
    for word in words {
        copies.push(String::from_str(alloc, word)?)?;
    }
    Ok(copies)
}
