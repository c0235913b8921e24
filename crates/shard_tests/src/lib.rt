//! The tests of `coord_shards`: shards with their seats and journals, and threads that call them at the same time.
#![tactic(auto)]

#[cfg(test)]
mod callers;
#[cfg(test)]
mod events;
#[cfg(test)]
mod faults;
#[cfg(test)]
mod shards;
