//! What holds of the owners under range, whatever the members and the topics.

ghost use Rattle.range_assign.specs.Laws.{RangeIsLawful, SubscribedPartitionsHaveAnOwner};

/// The owners under range are lawful: each partition that some member subscribes has exactly one owner, who subscribes
/// it, and nothing else is owned.
pub fn range_is_lawful()
    ensures { RangeIsLawful }
{}

/// Range gives each partition that some member subscribes to exactly one member.
pub fn subscribed_partitions_have_an_owner()
    ensures { SubscribedPartitionsHaveAnOwner }
{}
