//! What the subcommands of the program `coord` share: its command line, the lines that they read and the text that they print,
//! and what is in a frame.
//!
//! A subcommand reads its input whole, does its lines in order and prints what each answers ([`driver`]); with `--explain` it
//! tells why lines came to nothing ([`explain`]). `coord frame` stands here ([`frames`], [`replies`]), since it needs no
//! coordinator. Start from [`asked`](command_line::asked), [`LineWorker`](driver::LineWorker) and
//! [`frame_lines`](frames::frame_lines).
#![tactic(auto)]

pub mod command_line;
pub mod driver;
pub mod explain;
pub mod fault;
pub mod frame;
pub mod frames;
pub mod input;
pub mod lines;
pub mod output;
pub mod page;
pub mod reasons;
pub mod replies;
pub mod reply_report;
pub mod report;
pub mod service;
pub mod topic_reasons;
pub mod topics;
pub mod words;

pub use clap::Command;
pub use itoa::Integer;
pub use kip_msgs::{Api, MsgFault, TopicPartitions};
pub use topic_meta::{Image, ImageFault, TopicEntry};
