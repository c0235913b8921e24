//! Which requests a broker answers by itself, and what takes the place of a heartbeat of version 1.
//!
//! A coordinator answers heartbeats of version 0 and commits of version 9. [`asked_by`] says who answers a body, and [`translate`] makes of a
//! heartbeat of version 1 the one of version 0 that means the same.
#![tactic(auto)]

mod asked;
mod refusal;
mod translation;

pub use asked::{Asked, asked_by};
pub use refusal::put_refusal;
pub use translation::{TopicNames, Translation, translate};
