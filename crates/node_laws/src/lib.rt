//! Laws of a node's steps: what an event changes of each group, and what it leaves.
//!
//! Nothing here runs. `specs/` has the laws.
#![tactic(auto)]

mod laws;

pub use laws::{
    commits_of_no_group_are_told, groups_are_made_while_there_is_room, groups_have_the_nodes_salt,
    images_change_the_image_alone, other_groups_stay,
};
