//! What is printed for an act.
ghost use Rattle.std.specs.Prelude.{◌≡◌, ◌++◌, [], OnOk, OnErr, IfErr};
ghost use Rattle.world_sim.specs.Standing.{state_value};
ghost use Rattle.scenario_text.specs.Runs.{Prints};
ghost use Rattle.scenario_lines.specs.Shows.{IsAnswerText, IsShownText, refusal, settled_text, state_word};

use crate::answers::{put_commit_reply, put_reply};
use crate::verb::Verb;
use scenario_text::fault::LineFault;
use scenario_text::output::Output;
use scenario_text::page::Page;
use std::alloc::{AllocError, Global};
use world_sim::{ClientState, Shown, World, WorldFault};

/// What a line of a script did.
#[derive(Drop)]
pub enum Did {
    /// A client came into the story.
    Nothing,
    /// An act was done, or refused.
    Acted(Result<Shown, WorldFault>),
    /// The world was settled, or wasn't.
    Settled(Result<(), WorldFault>),
}

/// Prints the line of an act: what it shows, or the number of the fault for which it was refused.
pub fn print_answer(
    alloc: Global,
    verb: Verb,
    world: &World,
    answer: Result<Shown, WorldFault>,
    output: &mut Output,
) -> Result<Did, LineFault>
    ensures printed { OnOk result (Prints (IsAnswerText verb world.now answer) output.old output.new) }
    ensures err { OnErr result (output.new ≡ output.old) }
    ensures fault { IfErr result (λ fault. fault ≡ LineFault.NoMemory) }
{
    let mut page = Page::new(alloc);
    put_answer(alloc, &mut page, verb, world, &answer)?;
    output.text(page.as_str())?;
    Ok(Did::Acted(answer))
}

/// Puts the line of an act on an empty page.
fn put_answer(
    alloc: Global,
    page: &mut Page,
    verb: Verb,
    world: &World,
    answer: &Result<Shown, WorldFault>,
) -> Result<(), AllocError>
    requires { page.old ≡ [] }
    ensures { OnOk result (IsAnswerText verb world.now answer.now page.new) }
{
    match answer {
        Ok(shown) => put_shown(alloc, page, verb, world, shown),
        Err(fault) => put_refusal(page, *fault),
    }
}

/// Prints the line of settling.
pub fn print_settled(
    alloc: Global,
    settled: Result<(), WorldFault>,
    output: &mut Output,
) -> Result<Did, LineFault>
    ensures printed { OnOk result (output.new ≡ output.old ++ settled_text settled) }
    ensures err { OnErr result (output.new ≡ output.old) }
    ensures fault { IfErr result (λ fault. fault ≡ LineFault.NoMemory) }
{
    let mut page = Page::new(alloc);
    put_settled(&mut page, settled)?;
    output.text(page.as_str())?;
    Ok(Did::Settled(settled))
}

/// Puts the line of settling on an empty page.
fn put_settled(page: &mut Page, settled: Result<(), WorldFault>) -> Result<(), AllocError>
    requires { page.old ≡ [] }
    ensures { OnOk result (page.new ≡ settled_text settled) }
{
    match settled {
        Ok(()) => page.put_line(Verb::Settle.done()),
        Err(fault) => put_refusal(page, fault),
    }
}

/// Puts the line of what an act shows on an empty page.
fn put_shown(
    alloc: Global,
    page: &mut Page,
    verb: Verb,
    world: &World,
    shown: &Shown,
) -> Result<(), AllocError>
    requires { page.old ≡ [] }
    ensures { OnOk result (IsShownText verb world.now shown.now page.new) }
{
    match shown {
        Shown::Sent { request } => page.number("sent", *request),
        Shown::Replied { reply } => put_reply(alloc, page, world, *reply),
        Shown::Closed => page.put_line("closed"),
        Shown::Is { state } => page.put_line(state_word(*state)),
        Shown::Ignored => page.put_line("ignored"),
        Shown::Committed { commit } => page.number("commit", *commit),
        Shown::Answered { reply } => put_commit_reply(alloc, page, reply.body()),
        Shown::Removed { members } => page.number("removed", *members),
        Shown::Done => page.put_line(verb.done()),
    }
}

/// Puts the line of a refused act on an empty page.
fn put_refusal(page: &mut Page, fault: WorldFault) -> Result<(), AllocError>
    requires { page.old ≡ [] }
    ensures { OnOk result (page.new ≡ refusal fault) }
{
    page.number("refused", fault.number())
}

/// The word of a client's state.
pub fn state_word(state: ClientState) -> &'static str
    ensures { result.now ≡ state_word (state_value state) }
{
    match state {
        ClientState::Outside => "outside",
        ClientState::Steady => "steady",
        ClientState::Releasing => "releasing",
        ClientState::Gone => "gone",
    }
}
