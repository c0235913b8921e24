//! The owners of a target that was read: what is looked at before a group has it.
ghost use Rattle.std.specs.Prelude.{◌≡◌, ◌↔◌, IfOk, IsTrue};
ghost use Rattle.std.specs.List.{list_all};
ghost use Rattle.group_types.specs.Images.{AreImageTopics};
ghost use Rattle.group_types.specs.Sets.{in_order};
ghost use Rattle.range_assign.specs.Shares.{share_in, shares_in};
ghost use Rattle.group_core.specs.Restoring.{AreCountsOf, OwnersFit, is_counted, share_fits};

use group_epochs::Records;
use group_types::{PartSet, Partition};
use range_assign::Share;
use std::alloc::{AllocError, Global};
use std::collections::BTreeMap;
use topic_meta::View;
use uuid::Uuid;

/// How many partitions each topic has, by the topics' ids.
type Counts = BTreeMap<Uuid, u32>;

/// Whether each owner has a record, and what it owns is of the view. Fails where memory is short.
pub fn owners_fit(
    alloc: Global,
    records: &Records,
    view: &View,
    shares: &[Share],
) -> Result<bool, AllocError>
    ensures { IfOk result (λ fit. IsTrue fit ↔ OwnersFit records.now.records view.now (shares_in shares.now)) }
{
    let counts = counts_of(alloc, view)?;
    Ok(shares_fit(records, &counts, shares))
}

/// How many partitions each topic of the view has. Fails where memory is short.
fn counts_of(alloc: Global, view: &View) -> Result<Counts, AllocError>
    ensures counts { IfOk result (AreCountsOf view.now) }
    ensures sound { AreImageTopics view.now }
{
    let topics = view.topics();
    let mut counts = BTreeMap::new(alloc);
    for topic in topics {
        counts.insert(topic.id, topic.count)?;
    }
    Ok(counts)
}

/// Whether each share is empty, or is a member's and of topics that are counted.
fn shares_fit(records: &Records, counts: &Counts, shares: &[Share]) -> bool
    ensures { result ≡ list_all (λ s. share_fits records.now.records counts.now (share_in s)) shares.now }
{
    shares
        .iter()
        .all(|share| share_fits(records, counts, share))
}

/// Whether the share is empty, or is a member's and of topics that are counted.
fn share_fits(records: &Records, counts: &Counts, share: &Share) -> bool
    ensures { result ≡ share_fits records.now.records counts.now (share_in share.now) }
{
    share.set.is_empty()
        || (records.get(share.id.as_str()).is_some() && are_counted(counts, &share.set))
}

/// Whether each partition of the set is one of a topic that is counted.
fn are_counted(counts: &Counts, set: &PartSet) -> bool
    ensures { result ≡ list_all (is_counted counts.now) (in_order set.now) }
{
    set.iter().all(|p| is_counted(counts, p))
}

/// Whether the partition is one of a topic that is counted.
fn is_counted(counts: &Counts, p: &Partition) -> bool
    ensures { result ≡ is_counted counts.now p.now }
{
    match (counts.get(&p.topic), u32::try_from(p.index)) {
        (Some(count), Ok(index)) => index < *count,
        _ => false,
    }
}
