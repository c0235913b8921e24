//! What the tests of the libraries share: tables of text whose rows are looked at one by one, and frames that were worked out by
//! hand.
#![tactic(auto)]

pub mod courses;
pub mod frames;
pub mod tables;
