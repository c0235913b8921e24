//! A replica's snapshot, written part by part, and the replica that is restored of one.

ghost use Rattle.std.specs.Prelude.{◌≡◌, IfErr, IfOk};
ghost use Rattle.coord_node.specs.Nodes.{HasEachOnce, NodeValue, coordinator_of};
ghost use Rattle.replica_snapshots.specs.Nodes.{FitsNode, node_fields};
ghost use Rattle.replica_snapshots.specs.Places.{FitsPlace};
ghost use Rattle.replica_snapshots.specs.Restoring.{CanBeNode, CanBeRestored};
ghost use Rattle.replica_snapshots.specs.Views.{place_value};
ghost use Rattle.replica_snapshots.specs.Writing.{Puts};
ghost use Rattle.replica_snapshots.specs.declared.fault.SnapshotFault.TheVariants.{NoMemory};
ghost use Rattle.coord_replica.specs.Snapshots.{FitsSnapshot, PutsPart, SnapshotValue, in_front, restored, sections_in, snapshot_fields, snapshot_of, snapshot_value};

use crate::replica::Replica;
use coord_node::Moment;
use replica_snapshots::{Place, Sections, SnapshotFault, put_place, read_node, read_place};
use std::alloc::{AllocError, Global};
use std::collections::hash_map::RandomState;

/// What is written of a replica, which applies nothing while that is done: its place in the log, and the sections of its node.
#[derive(Drop)]
pub struct Snapshot<'a> {
    pub(crate) place: Place,
    pub(crate) sections: Sections<'a>,
}

impl Snapshot<'_> {
    /// How many sections there are.
    pub fn count(&self) -> usize
        ensures { result ≡ sections_in (snapshot_value self.now) }
    {
        self.sections.count()
    }

    /// Appends sections from one number on, until there are `size` bytes of them or none is left: at least one, where one is left. Gives
    /// the number of the next one. The place stands in front of section 0. All parts, one behind the other, are the snapshot.
    ///
    /// Refused, with no byte changed: `TooLong` only where a text has over 32,767 bytes, where there is more of something than a
    /// count can say, or where a partition's index is outside 0 to 99,999, or metadata has over 4,096 bytes, as in no group that
    /// requests lead to, but for one of 2^32 - 1 offsets or more (`logs_with_few_offsets_can_be_written`); `NoMemory`.
    pub fn put(&self, from: usize, size: usize, out: &mut Vec<u8>) -> Result<usize, SnapshotFault>
        ensures { PutsPart result out.old.items out.new.items (snapshot_value self.now) from size }
    {
        let before = out.len();
        self.put_front(from, out)?;
        match self.sections.put(from, size, out) {
            Ok(next) => Ok(next),
            Err(fault) => {
                out.truncate(before);
                Err(fault)
            }
        }
    }

    /// Appends what stands in front of a section: the place before the first.
    fn put_front(&self, from: usize, out: &mut Vec<u8>) -> Result<(), SnapshotFault>
        ensures { let place = place_value self.now.place in
            Puts result out.old.items out.new.items (from ≡ 0 → FitsPlace place) (in_front place from) }
    {
        if from == 0 {
            return put_place(out, self.place);
        }
        Ok(())
    }
}

impl Replica {
    /// The snapshot of what was applied. Fails where memory is short.
    pub fn snapshot(&self) -> Result<Snapshot<'_>, AllocError>
        ensures snapshot { IfOk result (λ snapshot. snapshot_value snapshot ≡ snapshot_of self.now) }
        ensures once { HasEachOnce self.now.node }
    {
        let place = Place {
            applied: self.applied,
            leadership: self.leadership,
            moment: self.moment,
        };
        let sections = Sections::of(self.alloc, &self.node)?;
        Ok(Snapshot { place, sections })
    }

    /// A replica restored of a snapshot's bytes: it has applied just what the one had that it was written of, and doesn't lead. Whatever the
    /// bytes are, it is sound, or there is a fault; and its own snapshot has the same bytes. A snapshot that was written is never refused but
    /// for want of memory.
    pub fn restore(
        alloc: Global,
        hasher: RandomState,
        bytes: &[u8],
    ) -> Result<Replica, SnapshotFault>
        ensures found { IfOk result (λ replica. (v : SnapshotValue) × FitsSnapshot v × (bytes.now ≡ snapshot_fields v) × (replica ≡ restored v)) }
        ensures only { (v : SnapshotValue) → FitsSnapshot v → bytes.now ≡ snapshot_fields v → IfOk result (λ replica. replica ≡ restored v) }
        ensures whole { (v : SnapshotValue) → FitsSnapshot v → CanBeNode (coordinator_of v.node) → bytes.now ≡ snapshot_fields v
            → IfErr result (λ fault. fault ≡ NoMemory) }
    {
        match read_place(alloc, bytes) {
            Ok((place, written)) => match Replica::at_place(alloc, hasher, place, written) {
                Ok(replica) => Ok(replica),
                Err(fault) => Err(fault.behind(bytes.len().saturating_sub(written.len()))),
            },
            Err(fault) => Err(fault),
        }
    }

    /// The replica at a place of the log, of the bytes behind the place: its node, and no more.
    fn at_place(
        alloc: Global,
        hasher: RandomState,
        place: Place,
        written: &[u8],
    ) -> Result<Replica, SnapshotFault>
        requires { FitsPlace (place_value place) }
        ensures found { IfOk result (λ replica. (n : NodeValue) × FitsNode n × HasEachOnce n × (written.now ≡ node_fields n)
            × (replica ≡ restored (record { place = place_value place; node = n }))) }
        ensures whole { (n : NodeValue) → CanBeRestored n → written.now ≡ node_fields n → IfErr result (λ fault. fault ≡ NoMemory) }
    {
        let (node, rest) = read_node(alloc, hasher, written)?;
        if !rest.is_empty() {
            return Err(SnapshotFault::Respelled(written.len().saturating_sub(rest.len())));
        }
        Ok(Replica {
            alloc,
            node,
            applied: place.applied,
            leadership: place.leadership,
            moment: place.moment,
            leading: None,
            proposed: Moment::of_millis(0),
        })
    }
}
