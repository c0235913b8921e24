//! What is committed for one partition.

ghost use Rattle.std.specs.Prelude.{◌≡◌, IfOk, option_map, string_bytes};
ghost use Rattle.std.specs.Option.{option_copied};
ghost use Rattle.kip_msgs.specs.Views.{commit_request_partition_value};
ghost use Rattle.group_epochs.specs.Request.{commitment_of};

use kip_msgs::CommitRequestPartition;
use std::alloc::{AllocError, Global};
use std::marker::Model;

/// What was committed for one partition (Kafka protocol guide, "OffsetCommit Request v9").
#[derive(Drop)]
pub struct Committed {
    offset: i64,
    leader_epoch: i32,
    metadata: Option<String>,
}

impl Model for Committed {
    ghost use Rattle.group_types.specs.Group.{Committed as Kept};
    ghost use Rattle.offset_guard.specs.Stored.{committed_code};

    ghost Value = { Kept };

    ghost coded = { committed_code };

    ghost use Rattle.std.specs.Prelude.{option_map, string_bytes};

    ghost view = { λ a. record { offset = a.offset; leader_epoch = a.leader_epoch; metadata = option_map string_bytes a.metadata } };
}

impl Committed {
    /// What is committed with this offset, leader epoch and metadata. Takes no memory.
    pub fn new(offset: i64, leader_epoch: i32, metadata: Option<String>) -> Committed
        ensures { result ≡ record { offset = offset; leader_epoch = leader_epoch; metadata = option_map string_bytes metadata } }
    {
        Committed {
            offset,
            leader_epoch,
            metadata,
        }
    }

    /// What a request commits for a partition. Fails where memory is short.
    pub(crate) fn of(
        alloc: Global,
        partition: &CommitRequestPartition<'_>,
    ) -> Result<Committed, AllocError>
        ensures { IfOk result (λ c. c ≡ (commitment_of (commit_request_partition_value partition.now)).committed) }
    {
        let metadata = match partition.committed_metadata {
            Some(text) => Some(String::from_str(alloc, text)?),
            None => None,
        };
        Ok(Committed {
            offset: partition.committed_offset,
            leader_epoch: partition.committed_leader_epoch,
            metadata,
        })
    }

    /// The offset: that of the next record to be read. Any INT64 may be committed.
    pub fn offset(&self) -> i64
        ensures { result ≡ self.now.offset }
    {
        self.offset
    }

    /// The epoch of the leader from which the last record came; -1 where it isn't known.
    pub fn leader_epoch(&self) -> i32
        ensures { result ≡ self.now.leader_epoch }
    {
        self.leader_epoch
    }

    /// What the client keeps with the offset, at most [`group_types::limits::LONGEST_METADATA`] bytes of it; or none.
    pub fn metadata(&self) -> Option<&str>
        ensures { option_copied result ≡ self.now.metadata }
    {
        match &self.metadata {
            Some(text) => Some(text.as_str()),
            None => None,
        }
    }
}
