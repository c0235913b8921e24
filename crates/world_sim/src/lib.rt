//! A world of one coordinator, its clients, and all messages between them, each of which may be lost, repeated and
//! overtaken.
//!
//! Start from [`World::new`] and [`World::act`]. After every list of acts no two members of one group hold one partition,
//! a commit is taken only while what its maker held is granted, every target is lawful when it is renewed, and three rounds in
//! which no message is lost settle everything: these are the laws of `specs/Exclusivity.antt` and `specs/Convergence.antt`, and
//! they hold of each [`World`]. [`World::run`] does lists of acts, and [`World::settle`] makes three such rounds.
#![tactic(auto)]

mod act;
mod client;
mod commit;
mod fault;
mod frame;
mod laws;
mod mail;
mod scene;
mod shown;
mod standing;
mod state;
mod view;
mod world;

pub use act::Act;
pub use coord_node::{Image, Moment};
pub use fault::WorldFault;
pub use frame::Frame;
pub use laws::{
    acts_have_an_outcome, acts_leave_live_worlds, an_act_has_one_outcome,
    commits_are_taken_while_held, every_act_keeps_the_invariant, members_hold_apart,
    new_worlds_are_live, replies_show_what_is_granted, rounds_go_on, runs_of_acts_exist,
    targets_are_renewed_lawfully, the_groups_laws_are_met, the_laws_are_met, three_rounds_settle,
};
pub use member_core::{
    Array, BeatFault, CommitRequestTopic, EpochNumber, Kind, PartSet, Partition, Quit, Settings,
};
pub use shown::Shown;
pub use state::ClientState;
pub use view::ClientView;
pub use world::World;
