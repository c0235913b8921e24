//! The topic names that a regular expression stands for (KIP-848, "SubscribedTopicRegex").
//!
//! An expression matches a name if it matches all of it. Start from [`names_matched`].
#![tactic(auto)]

mod fault;
pub mod limits;
mod names;
mod pattern;

pub use fault::ExpressionFault;
pub use names::names_matched;
