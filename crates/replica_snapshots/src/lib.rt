//! The state of a node as bytes: group by group, and the place of the log at which it was.
//!
//! A state has one spelling, and bytes begin with at most one state ([`one_group_a_run`], [`one_coordinator_a_run`]). A node is read
//! from any bytes: it is sound, and the bytes are just its spelling, or there is a fault with its number and place. One that was
//! written is never refused but for want of memory ([`runs_can_be_nodes`]), and neither is the writing of one to which a coordinator
//! comes, whatever it serves ([`runs_with_few_offsets_are_put`]). Start from [`Sections`], by which a node is written, and
//! [`read_node`]; `specs/Spelling.antt` has the layout.
#![tactic(auto)]

mod cursor;
mod fault;
mod fields;
mod group;
mod head;
mod laws;
mod member;
mod node;
mod numbers;
mod parts;
mod place;
mod reading;
mod rewriting;

pub use coord_node::{Group, Image, Moment, Node};
pub use fault::SnapshotFault;
pub use flex_wire::WireFault;
pub use group::{ReadGroup, put_group, read_group};
pub use head::{Head, put_head, read_head};
pub use laws::{
    one_coordinator_a_run, one_group_a_run, one_head_a_run, one_node_a_run, one_place_a_run,
    runs_can_be_nodes, runs_with_few_offsets_are_put, runs_with_few_offsets_can_be_written,
    sections_make_the_node,
};
pub use node::{Sections, read_node};
pub use place::{Place, put_place, read_place};
