//! The replica and what can be read of it.
ghost use Rattle.std.specs.Prelude.{◌≡◌};
ghost use Rattle.coord_replica.specs.Replicas.{replica_opening, replica_state, value_opening};

use crate::leading::Leading;
use coord_node::{Moment, Node};
use std::alloc::Global;
use std::collections::hash_map::RandomState;
use std::marker::Model;

/// A coordinator with its place in the log: what it applied, and since when it leads.
pub struct Replica {
    pub(crate) alloc: Global,
    pub(crate) node: Node,
    /// How many entries were applied.
    pub(crate) applied: u64,
    /// The number of the last leadership that began.
    pub(crate) leadership: u32,
    /// The greatest moment of an entry that was applied.
    pub(crate) moment: Moment,
    /// Since when this replica leads under the present leadership.
    pub(crate) leading: Option<Leading>,
    /// The greatest moment that it proposed under it.
    pub(crate) proposed: Moment,
}

/// Its parts are dropped here, so that a crate that drops a replica goes through none of them in its proofs.
impl Drop for Replica {
    fn drop(self) {
        let Replica {
            alloc: _,
            node: _,
            applied: _,
            leadership: _,
            moment: _,
            leading: _,
            proposed: _,
        } = self;
    }
}

impl Model for Replica {
    ghost use Rattle.coord_replica.specs.Replicas.{ReplicaValue};
    ghost use Rattle.coord_replica.specs.Stored.{replica_code};

    ghost Value = { ReplicaValue };

    ghost coded = { replica_code };

    ghost use Rattle.coord_replica.specs.ReplicaView.{IsReplica, replica_view};

    ghost view = { replica_view };

    ghost invariant = { IsReplica };
}

impl Replica {
    /// A replica that has applied no entry. All replicas of a log have one salt, the first half of the ids that they make. Takes no
    /// memory.
    pub fn new(alloc: Global, salt: u64, hasher: RandomState) -> Replica
        ensures value { result ≡ value_opening salt }
        ensures state { replica_state result ≡ replica_opening salt }
    {
        Replica {
            alloc,
            node: Node::new(alloc, salt, hasher),
            applied: 0,
            leadership: 0,
            moment: Moment::of_millis(0),
            leading: None,
            proposed: Moment::of_millis(0),
        }
    }

    /// How many entries of the log were applied: the place of the last one.
    pub fn place(&self) -> u64
        ensures { result ≡ self.now.applied }
    {
        self.applied
    }

    /// The number of the last leadership that began, 0 before the first.
    pub fn leadership(&self) -> u32
        ensures { result ≡ self.now.leadership }
    {
        self.leadership
    }

    /// The greatest moment of an entry that was applied.
    pub fn moment(&self) -> Moment
        ensures { result ≡ self.now.moment }
    {
        self.moment
    }

    /// The coordinator.
    pub fn node(&self) -> &Node
        ensures { result.now ≡ self.now.node }
    {
        &self.node
    }
}
