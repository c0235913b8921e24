//! Commits that were made.
ghost use Rattle.std.specs.Prelude.{◌≡◌, [], IfOk, unwrap_or};
ghost use Rattle.std.specs.Option.{option_copied};
ghost use Rattle.group_types.specs.Sets.{common, nothing};
ghost use Rattle.coord_node.specs.Nodes.{coordinator_of};
ghost use Rattle.world_sim.specs.World.{cut, granted};

use crate::frame::Frame;
use coord_node::Node;
use member_core::{EpochNumber, PartSet};
use std::alloc::{AllocError, Global};
use std::marker::Model;

/// A commit, with its maker's group, id, member epoch and own set when it was made, and what of that set has been granted to
/// the id from then on, without a break.
#[derive(Drop)]
pub(crate) struct Commit {
    frame: Frame,
    group: String,
    id: String,
    epoch: EpochNumber,
    own: PartSet,
    since: PartSet,
}

impl Model for Commit {
    ghost use Rattle.std.specs.Prelude.{string_bytes};
    ghost use Rattle.world_sim.specs.World.{Commit as Made};
    ghost use Rattle.world_sim.specs.Stored.{commit_code};

    ghost Value = { Made };

    ghost coded = { commit_code };

    ghost view = { λ k. record { body = k.frame; group = string_bytes k.group; id = string_bytes k.id; epoch = k.epoch; own = k.own; since = k.since } };
}

impl Commit {
    /// The commit of a frame, with copies of what its maker is. Fails where memory is short.
    pub(crate) fn of(
        alloc: Global,
        frame: Frame,
        group: &str,
        id: Option<&str>,
        epoch: EpochNumber,
        own: &PartSet,
    ) -> Result<Commit, AllocError>
        ensures { IfOk result (λ k. k ≡ record { body = frame; group = group.now; id = unwrap_or (option_copied id.entry) []; epoch = epoch; own = own.now; since = own.now }) }
    {
        let group = String::from_str(alloc, group)?;
        let id = match id {
            Some(id) => String::from_str(alloc, id)?,
            None => String::new(alloc),
        };
        let since = own.copy(alloc)?;
        let own = own.copy(alloc)?;
        Ok(Commit {
            frame,
            group,
            id,
            epoch,
            own,
            since,
        })
    }

    /// The body, lent.
    pub(crate) fn body(&self) -> &[u8]
        ensures { result.now ≡ self.now.body }
    {
        self.frame.body()
    }

    /// Leaves of what has been granted since only what is granted still. Takes no memory.
    pub(crate) fn cut(&mut self, node: &Node)
        ensures { self.new ≡ cut (coordinator_of node.now) self.old }
    {
        match granted(node, self.group.as_str(), self.id.as_str()) {
            Some(set) => keep_common(&mut self.since, set),
            None => self.since.clear(),
        }
    }
}

#[tactic(auto, using(crate::proofs::Cutting::common_same))]
/// Keeps the partitions that the other set has too. Most often the two are the same, which is soon seen.
fn keep_common(since: &mut PartSet, other: &PartSet)
    ensures { since.new ≡ common since.old other.now }
{
    if !since.equals(other) {
        since.retain_common(other);
    }
}

/// What an id is granted in a group: none, or the empty set, where that is nothing.
fn granted<'a>(node: &'a Node, group: &str, id: &str) -> Option<&'a PartSet>
    ensures { unwrap_or (option_copied result) nothing ≡ granted (coordinator_of node.now) group.now id.now }
{
    node.group(group)?.granted(id)
}
