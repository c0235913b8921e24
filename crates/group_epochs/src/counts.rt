//! How many members subscribe each name.

ghost use Rattle.std.specs.Prelude.{◌≡◌, ℕ, ◌+◌, ◌-◌, ◌<◌, ◌≤◌, ◌^◌, OnOk, Some, IsSome, [], ◌∷◌, map, string_bytes, vec_len, IfOk};
ghost use Rattle.std.specs.Option.{option_copied};
ghost use Rattle.std.specs.Str.{bytes_eq};
ghost use Rattle.std.specs.String.{string_eq};
ghost use Rattle.indexmap.specs.IndexMap.{IsUnique, UpdatesBy, get_by_text, spare};
ghost use Rattle.std.specs.FinMap as finite;
ghost use Rattle.group_types.specs.Sets.{nothing};
ghost use Rattle.group_types.specs.Text.{Text};
ghost use Rattle.group_epochs.specs.Counts.{AreAsked, AreSome, count_of, is_asked, once, own_share, times, with_asked, with_counted};

use crate::names::add_name;
use crate::record::Record;
use group_types::NameSet;
use indexmap::IndexMap;
use std::alloc::{AllocError, Global};
use std::collections::hash_map::RandomState;
use topic_meta::Image;

/// The counts by their names.
pub type Counts = IndexMap<String, usize, RandomState>;

/// Counts a subscriber more of each name, for which there is room. Takes no memory.
pub fn count_up(counts: &mut Counts, names: Vec<String>)
    requires room { vec_len names ≤ spare counts.old }
    requires fits { (name : Text) → count_of counts.old name < 2 ^ 63 }
    ensures counted { (name : Text) → count_of counts.new name ≡ count_of counts.old name + times name (map string_bytes names.items) }
    ensures some { AreSome counts.old → AreSome counts.new }
{
    for name in names {
        add_one(counts, name);
    }
}

/// Counts a subscriber less of each name. Takes no memory.
pub fn count_down(counts: &mut Counts, names: &NameSet)
    ensures counted { (name : Text) → count_of counts.new name ≡ count_of counts.old name - once names.now name }
    ensures some { AreSome counts.old → AreSome counts.new }
    ensures room { spare counts.old ≤ spare counts.new }
{
    for name in names.iter() {
        take_one(counts, name.as_str());
    }
}

/// What is asked for of an image: the names, and those that are counted for others than the member with this record, if any. Where
/// the image has fewer topics than these are, they are only those that it has. Fails where memory is short.
pub fn asked_of(
    alloc: Global,
    image: &Image,
    names: &NameSet,
    counts: &Counts,
    former: Option<&Record>,
) -> Result<NameSet, AllocError>
    ensures { IfOk result (AreAsked image.now (option_copied former.entry) names.now counts.now) }
{
    if image.len() < names.len() || image.len() < counts.len() {
        return found_of(alloc, image, names, counts, former);
    }
    let mut asked = names.copy(alloc)?;
    add_counted(alloc, &mut asked, counts, former)?;
    Ok(asked)
}

/// What is asked for of an image, by a walk over its topics.
fn found_of(
    alloc: Global,
    image: &Image,
    names: &NameSet,
    counts: &Counts,
    former: Option<&Record>,
) -> Result<NameSet, AllocError>
    ensures { IfOk result (λ found. found ≡ with_asked (option_copied former.entry) names.now counts.now nothing (finite.keys image.now)) }
{
    let mut found = NameSet::new(alloc);
    for name in image.names() {
        if is_asked(name.as_str(), names, counts, former) {
            found.insert(alloc, name.as_str())?;
        }
    }
    Ok(found)
}

/// Whether a name is among the names, or is counted for others than the member with this record, if any.
fn is_asked(name: &str, names: &NameSet, counts: &Counts, former: Option<&Record>) -> bool
    ensures { result ≡ is_asked (option_copied former.entry) names.now counts.now name.now }
{
    names.contains(name) || own_share(former, name) < count_of(counts, name)
}

/// Adds the names that are counted for others than the member with this record, if any. Where memory is short, some of them may be
/// in already.
fn add_counted(
    alloc: Global,
    names: &mut NameSet,
    counts: &Counts,
    former: Option<&Record>,
) -> Result<(), AllocError>
    ensures added { OnOk result (names.new ≡ with_counted (option_copied former.entry) names.old counts.now.entries) }
    ensures unique { IsUnique string_eq counts.now }
{
    for (name, count) in counts {
        if own_share(former, name.as_str()) < *count {
            add_name(alloc, names, name.as_str())?;
        }
    }
    Ok(())
}

/// How many of a name's subscribers the record is, if there is one.
fn own_share(former: Option<&Record>, name: &str) -> usize
    ensures { result ≡ own_share (option_copied former.entry) name.now }
{
    match former {
        Some(record) if record.names().contains(name) => 1,
        _ => 0,
    }
}

/// The count of a name.
fn count_of(counts: &Counts, name: &str) -> usize
    ensures { result ≡ count_of counts.now name.now }
{
    match counts.get(name) {
        Some(count) => *count,
        None => 0,
    }
}

/// Counts a subscriber more of a name, for which there is room.
fn add_one(counts: &mut Counts, name: String)
    requires room { 0 < spare counts.old }
    requires fits { count_of counts.old (string_bytes name) + 1 < 2 ^ 64 }
    ensures counted { UpdatesBy string_eq (λ k. bytes_eq (string_bytes name) (string_bytes k)) counts.old counts.new (Some (count_of counts.old (string_bytes name) + 1)) }
    ensures room { spare counts.old ≤ spare counts.new + 1 }
{
    let count = count_of(counts, name.as_str());
    let Ok(_) = counts.insert(name, count + 1) else {
        unreachable!()
    };
}

/// Counts a subscriber less of a name: one that nobody is left to subscribe goes.
fn take_one(counts: &mut Counts, name: &str)
    ensures counted { (other : Text) → count_of counts.new other ≡ count_of counts.old other - times other (name.now ∷ []) }
    ensures some { AreSome counts.old → AreSome counts.new }
    ensures room { spare counts.old ≤ spare counts.new }
{
    let count = count_of(counts, name);
    if count > 1 {
        set_count(counts, name, count - 1);
    } else {
        counts.swap_remove(name);
    }
}

/// Gives a name that is counted another count.
fn set_count(counts: &mut Counts, name: &str, count: usize)
    requires { IsSome (get_by_text counts.old name.now) }
    ensures counted { UpdatesBy string_eq (λ k. bytes_eq name.now (string_bytes k)) counts.old counts.new (Some count) }
    ensures room { spare counts.new ≡ spare counts.old }
{
    let Some(kept) = counts.get_mut(name) else {
        unreachable!()
    };
    *kept = count;
}
