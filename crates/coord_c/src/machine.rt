//! What a slot is for.
ghost use Rattle.std.specs.Prelude.{◌≡◌};
ghost use Rattle.coord_c.specs.Machines.{node_of};

use coord_node::Node;
use coord_replica::Replica;

/// A coordinator by itself, or a replica.
#[derive(Drop)]
pub enum Machine {
    Coordinator(Node),
    Replica(Replica),
}

impl Machine {
    /// The node of the coordinator by itself, or of the replica.
    pub(crate) fn node(&self) -> &Node
        ensures { result.now ≡ node_of self.now }
    {
        match self {
            Machine::Coordinator(node) => node,
            Machine::Replica(replica) => replica.node(),
        }
    }
}
