//! What a request gives for a member's record.
ghost use Rattle.std.specs.Prelude.{◌≡◌, IfOk, map, string_bytes};
ghost use Rattle.std.specs.Option.{option_map, option_or, option_copied, option_and_then};
ghost use Rattle.group_types.specs.Sets.{of_list};
ghost use Rattle.group_types.specs.AssignorName.{assignor_named};
ghost use Rattle.group_types.specs.Join.{names_after, timeout_after};

use group_types::{AssignorName, NameSet};
use kip_msgs::Array;
use std::alloc::{AllocError, Global};

/// A copy of a text, where there is one.
pub fn text_of(alloc: Global, text: Option<&str>) -> Result<Option<String>, AllocError>
    ensures { IfOk result (λ copy. option_map string_bytes copy ≡ option_copied text.entry) }
{
    match text {
        Some(text) => Ok(Some(String::from_str(alloc, text)?)),
        None => Ok(None),
    }
}

/// A copy of the text that is given; where none is, of the one before, if any. Fails where memory is short.
pub fn text_after(
    alloc: Global,
    before: &Option<String>,
    given: Option<&str>,
) -> Result<Option<String>, AllocError>
    ensures { IfOk result (λ copy. option_map string_bytes copy ≡ option_or (option_copied given.entry) (option_map string_bytes before.now)) }
{
    text_of(alloc, given.or(text_in(before)))
}

/// A text, where there is one.
pub fn text_in(text: &Option<String>) -> Option<&str>
    ensures { option_copied result ≡ option_map string_bytes text.now }
{
    match text {
        Some(text) => Some(text.as_str()),
        None => None,
    }
}

/// The set of the names that are given; where none are, a copy of the one before. Fails where memory is short.
pub fn names_after(
    alloc: Global,
    before: &NameSet,
    given: &Option<Array<&str>>,
) -> Result<NameSet, AllocError>
    ensures { IfOk result (λ names. names ≡ names_after before.now (option_map (map (λ name. name.now)) given.now)) }
{
    match given {
        Some(names) => set_of(alloc, names.as_slice()),
        None => before.copy(alloc),
    }
}

/// The set of the names of a list.
fn set_of(alloc: Global, names: &[&str]) -> Result<NameSet, AllocError>
    ensures { IfOk result (λ set. set ≡ of_list (map (λ name. name.now) names.now)) }
{
    let mut set = NameSet::new(alloc);
    for name in names {
        set.insert(alloc, name)?;
    }
    Ok(set)
}

/// The rebalance timeout that is given, in milliseconds; where none is, the one before.
pub fn timeout_after(before: u32, given: i32) -> u32
    ensures { result ≡ timeout_after before given }
{
    u32::try_from(given).unwrap_or(before)
}

/// The assignor that is named, where there is such an assignor.
pub fn assignor_of(name: Option<&str>) -> Option<AssignorName>
    ensures { result ≡ option_and_then assignor_named (option_copied name.entry) }
{
    match name {
        Some(name) => AssignorName::of(name),
        None => None,
    }
}
