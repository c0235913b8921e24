//! The tests of `flex_wire` and `kip_msgs`: vectors from outside that no contract speaks of, and that each call succeeds where
//! memory is at hand. Whole bodies from the protocol guide are proved to be what the definitions give.
#![tactic(auto)]

#[cfg(test)]
mod fields;
mod laws;
#[cfg(test)]
mod messages;

pub use laws::bodies_are_the_guides;
