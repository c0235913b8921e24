//! Laws of the machine's definitions in words of their own: what a rule comes to is said here without the definition of that rule, and limits,
//! codes' texts and the fields of replies stand here as literals.
//!
//! Nothing here runs. `specs/` has the laws, each beside the section of KIP-848 that it is of.
#![tactic(auto)]

mod laws;

pub use laws::{
    assignors_are_named, codes_are_of_their_requests, commits_are_answered_whole,
    deadlines_saturate, former_members_stay, groups_end, heartbeats_keep_owners,
    heirs_ask_as_before, ids_are_made_in_order, ids_by_hand, joins_are_refused_exactly,
    leaves_and_ticks_raise, limits_by_hand, members_hold_what_is_free, others_keep_their_grants,
    renewals_keep_owners, replies_are_these, requests_by_reason, stamps_are_ordered, texts_by_hand,
    the_machines_laws_are_met, ticks_count_who_goes, uniform_by_hand, unknown_members_are_told,
    views_are_of_the_subscribed,
};
