//! Looks at the node of a shard.
ghost use Rattle.coord_node.specs.Nodes.{coordinator_of};
ghost use Rattle.coord_shards.specs.Replay.{IsReached};

use coord_node::Node;
use std::alloc::AllocError;

/// A caller that looks at the node of a shard, and keeps of it what it needs.
pub trait NodeReader {
    /// Looks at a node, which is as some run from the opening state leaves it. It holds the shard's lock, so it is to be short.
    fn read(&mut self, node: &Node) -> Result<(), AllocError>
        requires { IsReached (coordinator_of node.now) };
}
