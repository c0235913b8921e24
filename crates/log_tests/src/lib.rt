//! The tests of `topic_logs`: vectors from outside, and that each call succeeds if memory is at hand.
#![tactic(auto)]

#[cfg(test)]
mod tests;
