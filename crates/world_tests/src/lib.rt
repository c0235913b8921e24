//! The tests of `member_core` and `world_sim`: members at the requests that they make and the replies that they take, and worlds of
//! clients among messages that are lost, late and repeated.
#![tactic(auto)]

#[cfg(test)]
mod faults;
#[cfg(test)]
mod members;
#[cfg(test)]
mod offsets;
#[cfg(test)]
mod parts;
#[cfg(test)]
mod settings;
#[cfg(test)]
mod worlds;
