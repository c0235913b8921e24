//! The entries of a replicated log, as bytes: a frame that came in, a tick, the topics of a new image, or a leadership
//! that begins.
//!
//! An entry is read exactly where all of the bytes spell one, and then it is that entry; it is written as its one
//! spelling. Start from [`Entry`] with [`read_entry`] and [`put_entry`]; `specs/Spelling.antt` has the layout.
#![tactic(auto)]

mod check;
mod entry;
mod fault;
mod kind;
mod laws;
mod reading;
mod writing;

pub use entry::{Content, Entry, LoggedFrame};
pub use fault::EntryFault;
pub use flex_wire::WireFault;
pub use group_types::Moment;
pub use laws::{one_entry_a_run, one_run_an_entry};
pub use reading::read_entry;
pub use topic_meta::TopicEntry;
pub use writing::put_entry;
