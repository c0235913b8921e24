//! The tests of the broker: requests that real clients sent, and the replies that another broker gave them.
#![tactic(auto)]

#[cfg(test)]
mod messages;
#[cfg(test)]
mod topics;
