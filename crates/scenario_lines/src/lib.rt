//! The subcommands of the program `coord` that read lines, over readers and writers.
//!
//! `coord reply` reads lines and prints the bytes of the reply to each request frame. `coord run` plays a script of what happens
//! between a coordinator and its clients. What is printed is what the lines come to one after the other, up to the first that is
//! no line of the subcommand. The words of the command line, and `coord frame`, are [`scenario_text`]'s; `coord serve` is left to
//! the program, which has the sockets. Start from [`run`](program::run), [`reply_lines`](reply::reply_lines) and
//! [`run_lines`](run::run_lines).
#![tactic(auto)]

mod act;
mod answers;
mod cast;
mod interpreter;
mod parts;
mod player;
pub mod program;
mod reasons;
mod refusals;
mod replier;
pub mod reply;
pub mod run;
mod sentences;
mod settings;
mod shown;
mod stamps;
mod standings;
mod story;
mod told;
mod verb;

pub use scenario_text::command_line::Telling;
pub use scenario_text::service::Service;
