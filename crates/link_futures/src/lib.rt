//! Lines between connections and a coordinator, as polled futures: bytes in, bytes out.
//!
//! Whatever pieces a stream comes in, its frames are answered one by one, and the answers are written in order: the
//! contract of [`Line::turn`] says it of each turn. Start from [`Line::new`], [`Session::new`] for a line that owns
//! its desk, and [`Worker::new`] for many lines over one desk. [`Beat::new`] is for the other side of a connection: it
//! writes a member's request, and the member takes the reply.
#![tactic(auto)]

mod beat;
mod call;
mod counted;
mod desk;
mod end;
mod heard;
mod inbox;
mod laws;
mod limits;
mod line;
mod memory;
mod moments;
mod outbox;
mod part;
mod quiet;
mod reader;
mod resting;
mod session;
mod solo;
mod turned;
mod worker;
mod writer;

pub use beat::{AfterBeat, Beat};
pub use coord_node::{Answered, Moment, Node, Stamp};
pub use counted::Counted;
pub use desk::Desk;
pub use end::End;
pub use laws::framing_is_one;
pub use line::Line;
pub use member_core::{Idle, Member, Next, Sent};
pub use memory::{Drain, Feed, PollAct};
pub use moments::Moments;
pub use part::Part;
pub use reader::ReadPart;
pub use session::Session;
pub use solo::Solo;
pub use worker::Worker;
pub use writer::WriteParts;
