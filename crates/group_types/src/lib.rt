//! The types that every crate of the coordinator shares: partitions and sets of them, member ids, epochs, stamps,
//! moments and error codes.
//!
//! Contracts see each type as the plain value that it stands for, and each call gives exactly that value or says that
//! memory is short and changes nothing. Start from [`PartSet`] and [`MemberId`].
#![tactic(auto)]

mod assignor_name;
mod code;
mod epoch;
mod laws;
pub mod limits;
mod member_id;
mod moment;
mod name_set;
mod part_set;
mod partition;
mod stamp;
mod wanted;

pub use assignor_name::AssignorName;
pub use code::Code;
pub use epoch::{Epoch, EpochNumber};
pub use laws::{
    accepts_once, assignments_are_news, assignors_by_hand, clocks_go_on, closes_on_the_overtaken,
    codes_are_the_guides, commits_are_answered_in_order, commits_are_at_epoch, commits_are_sound,
    commits_look_at_the_image, constants_are_the_limits, epochs_rise_on_changes,
    epochs_rise_within_targets, every_group_is_sound, fences_the_late, going_away_keeps_place,
    heartbeats_are_checked_in_order, heartbeats_are_sound, heirs_have_all, leavers_are_remembered,
    leaves_are_sound, offsets_are_the_last, previous_epochs_are_former, refusals_change_nothing,
    releases_are_timed, requests_are_stored, sessions_last, targets_follow_by_lawful_assignors,
    the_due_are_remembered, ticks_are_sound, ticks_take_the_due,
};
pub use member_id::{MemberId, made_ids_differ};
pub use moment::Moment;
pub use name_set::NameSet;
pub use part_set::PartSet;
pub use partition::Partition;
pub use stamp::Stamp;
pub use wanted::Wanted;
