//! The tests of one group and of a node with many: `group_epochs`, `offset_guard`, `group_core` and `coord_node`. Their tables have
//! whole exchanges that were worked out by hand, and show that each call succeeds where memory is at hand, and that nothing has
//! changed where it isn't.
#![tactic(auto)]

#[cfg(test)]
mod commits;
#[cfg(test)]
mod groups;
#[cfg(test)]
mod nodes;
#[cfg(test)]
mod offsets;
#[cfg(test)]
mod restored;
