//! The tests of what an assignment is made of: `group_types`, `topic_meta`, `range_assign`, `uniform_assign`, `group_target` and
//! `group_reconcile`. Their tables have outside examples that no contract speaks of, and show that each call succeeds where memory
//! is at hand.
#![tactic(auto)]

#[cfg(test)]
mod grants;
#[cfg(test)]
mod limits;
#[cfg(test)]
mod members;
#[cfg(test)]
mod owners;
#[cfg(test)]
mod parts;
#[cfg(test)]
mod plain;
#[cfg(test)]
mod plain_grants;
#[cfg(test)]
mod random_groups;
#[cfg(test)]
mod topics;
#[cfg(test)]
mod types;
