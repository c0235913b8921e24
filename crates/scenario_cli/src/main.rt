//! The program `coord`: the coordinator of consumer groups on the command line.
//!
//! What it does with lines is [`scenario_lines`]'s; here it is handed the standard streams, and serves. Start from
//! [`run`](scenario_lines::program::run) and [`serve`](serve::serve).
#![tactic(auto)]

mod serve;

use scenario_lines::program::{self, Ran};
use scenario_text::command_line;
use std::collections::hash_map::RandomState;
use std::process::ExitCode;
use std::thread::available_parallelism;

/// How many processors there are, where the system doesn't say.
const USUAL_PROCESSORS: usize = 4;

fn main(rt: HostRuntime) -> ExitCode {
    let (mut stdin, mut stdout, mut stderr) = (rt.stdin(), rt.stdout(), rt.stderr());
    let words = command_line::words_of(&rt);
    let keys = RandomState::new(&rt);
    let processors = available_parallelism(&rt).map_or(USUAL_PROCESSORS, |count| count.get());
    let ran = program::run(
        rt.alloc(),
        words,
        keys,
        processors,
        &mut stdin,
        &mut stdout,
        &mut stderr,
    );
    ExitCode::from(match ran {
        Ran::Ended(status) => status,
        Ran::Serves(service) => serve::serve(&rt, service, &mut stdout, rt.stderr()),
    })
}
