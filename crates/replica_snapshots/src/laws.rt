//! Laws of the spelling, proved where nothing runs.

ghost use Rattle.replica_snapshots.specs.Laws.{OneCoordinatorARun, OneGroupARun, OneHeadARun, OneNodeARun, OnePlaceARun, RunsCanBeNodes, RunsWithFewOffsetsArePut, RunsWithFewOffsetsCanBeWritten, SectionsMakeTheNode};

use coord_node::steps_are_sound;

/// Bytes begin with at most one group under its name.
pub fn one_group_a_run()
    ensures { OneGroupARun }
{}

/// Bytes begin with at most one head of a node.
pub fn one_head_a_run()
    ensures { OneHeadARun }
{}

/// Bytes begin with at most one node.
pub fn one_node_a_run()
    ensures { OneNodeARun }
{}

/// Bytes begin with a node of at most one coordinator.
pub fn one_coordinator_a_run()
    ensures { OneCoordinatorARun }
{}

/// Bytes begin with at most one place of a log.
pub fn one_place_a_run()
    ensures { OnePlaceARun }
{}

/// The sections of a node, one behind the other, are the node.
pub fn sections_make_the_node()
    ensures { SectionsMakeTheNode }
{}

/// Whatever came to a coordinator since its opening, a node can be it.
pub fn runs_can_be_nodes()
    ensures { RunsCanBeNodes }
{}

/// Whatever came to a coordinator since its opening, each section of a node of it can be written, where no group has more offsets than a
/// count can say. The names of an image's topics fit a text, as they do in each entry of a replica's log.
pub fn runs_with_few_offsets_can_be_written()
    ensures { RunsWithFewOffsetsCanBeWritten }
{
    steps_are_sound();
}

/// So no put of them is refused but for want of memory.
pub fn runs_with_few_offsets_are_put()
    ensures { RunsWithFewOffsetsArePut }
{
    steps_are_sound();
}
