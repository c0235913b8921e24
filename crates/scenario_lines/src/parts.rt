//! Sets of partitions as words.
ghost use Rattle.std.specs.Prelude.{◌≡◌, ◌++◌, OnOk};
ghost use Rattle.std.specs.List.{flat_map};
ghost use Rattle.scenario_lines.specs.Shows.{partition_behind_comma, partition_word, partitions_word, set_word};

use group_types::{PartSet, Partition};
use scenario_text::page::Page;
use std::alloc::AllocError;
use uuid::Uuid;

/// Puts the word of a set: its partitions in order, with a comma between each two, or `-` where it has none.
pub fn put_set(page: &mut Page, set: &PartSet) -> Result<(), AllocError>
    ensures { OnOk result (page.new ≡ page.old ++ set_word set.now) }
{
    put_partitions(page, set.iter().as_slice())
}

/// Puts partitions with a comma between each two, or `-` where there are none.
fn put_partitions(page: &mut Page, partitions: &[Partition]) -> Result<(), AllocError>
    ensures { OnOk result (page.new ≡ page.old ++ partitions_word partitions.now) }
{
    let Some((first, others)) = partitions.split_first() else {
        return page.put("-");
    };
    put_partition(page, first)?;
    put_behind_commas(page, others)
}

/// Puts partitions with a comma before each.
fn put_behind_commas(page: &mut Page, partitions: &[Partition]) -> Result<(), AllocError>
    ensures { OnOk result (page.new ≡ page.old ++ flat_map partition_behind_comma partitions.now) }
{
    for partition in partitions {
        page.put(",")?;
        put_partition(page, partition)?;
    }
    Ok(())
}

/// Puts a partition: the topic's id and the index.
fn put_partition(page: &mut Page, partition: &Partition) -> Result<(), AllocError>
    ensures { OnOk result (page.new ≡ page.old ++ partition_word partition.now) }
{
    let mut buffer = Uuid::encode_buffer();
    page.put(partition.topic.hyphenated().encode_lower(&mut buffer))?;
    page.put("/")?;
    page.put_number(partition.index)
}
