//! A script that is played in a world.
ghost use Rattle.std.specs.Prelude.{◌≡◌, true, false, map, ◌++◌, ◌∷◌, [], IfOk, IfErr, OnOk, OnErr};
ghost use Rattle.member_core.specs.Client.{new_client};
ghost use Rattle.member_core.specs.Views.{settings_value, HasShortTexts};
ghost use Rattle.world_sim.specs.Acting.{act_value, HasShortTopics};
ghost use Rattle.scenario_lines.specs.Plays.{DoesScriptLine, DoesVerb, Entrance, Enters, IsOfAct, IsScriptLine, MayStand, Performs, PrintsStandings, Settles, new_play};
ghost use Rattle.scenario_text.specs.Runs.{Prints};
ghost use Rattle.scenario_lines.specs.Shows.{standings_text};
ghost use Rattle.scenario_lines.specs.Stages.{IsShortStage, has_begun, world_at};

use crate::act::act_of;
use crate::cast::Cast;
use crate::settings::settings_of;
use crate::shown::{Did, print_answer, print_settled};
use crate::standings::put_standings;
use crate::story::Story;
use crate::verb::Verb;
use crate::{reasons, told};
use scenario_text::driver::LineWorker;
use scenario_text::fault::LineFault;
use scenario_text::output::Output;
use scenario_text::page::Page;
use scenario_text::words;
use std::alloc::{AllocError, Global};
use std::collections::hash_map::RandomState;
use std::marker::Model;
use std::mem;
use world_sim::{Act, Settings, World};

/// A world, and the names of its clients.
#[derive(Drop)]
pub struct Player {
    alloc: Global,
    hasher: RandomState,
    cast: Cast,
    stage: Stage,
}

impl Model for Player {
    ghost use Rattle.scenario_lines.specs.Plays.{Play, play_code};

    ghost Value = { Play };

    ghost coded = { play_code };

    ghost use Rattle.scenario_lines.specs.Stages.{IsPlayer, play_of};

    ghost view = { play_of };

    ghost invariant = { IsPlayer };
}

/// How far a script has come.
#[derive(Drop)]
enum Stage {
    /// No act was done: the settings of the clients so far.
    Before(Vec<Settings>),
    /// The world after the acts so far.
    Begun(World),
}

/// The salt of the world's ids.
const SALT: u64 = 0;

impl Player {
    /// A world with no clients. Takes no memory.
    pub fn new(alloc: Global, hasher: RandomState) -> Player
        ensures { result ≡ new_play }
    {
        Player {
            alloc,
            hasher,
            cast: Cast::new(alloc, hasher),
            stage: Stage::Before(Vec::new(alloc)),
        }
    }

    /// Does what a verb and the words behind it ask.
    fn command(
        &mut self,
        verb: Verb,
        arguments: &[&str],
        output: &mut Output,
    ) -> Result<Did, LineFault>
        ensures printed { OnOk result (Prints (DoesVerb verb (map (λ word. word.now) arguments.now) self.old self.new) output.old output.new) }
        ensures refused { result ≡ Err LineFault.BadLine → ¬ MayStand verb (map (λ word. word.now) arguments.now) self.old }
        ensures err { OnErr result (output.new ≡ output.old) }
    {
        match verb {
            Verb::Client => self.enter(arguments),
            Verb::Settle => self.settle_line(arguments, output),
            _ => self.act_line(verb, arguments, output),
        }
    }

    /// `client NAME GROUP INSTANCE ASSIGNOR REBALANCE TOPICS` lets a client into the world, before the first act.
    fn enter(&mut self, arguments: &[&str]) -> Result<Did, LineFault>
        ensures done { OnOk result (Enters (map (λ word. word.now) arguments.now) self.old self.new) }
        ensures refused { result ≡ Err LineFault.BadLine → ¬ Entrance (map (λ word. word.now) arguments.now) self.old }
    {
        let Some((name, arguments)) = arguments.split_first() else {
            return Err(LineFault::BadLine);
        };
        if !words::is_name(name) || self.cast.number_of(name) != 0 {
            return Err(LineFault::BadLine);
        }
        let settings = settings_of(self.alloc, arguments)?;
        enlist(&mut self.stage, settings)?;
        self.cast.add(self.alloc, name)?;
        Ok(Did::Nothing)
    }

    /// A line of an act.
    fn act_line(
        &mut self,
        verb: Verb,
        arguments: &[&str],
        output: &mut Output,
    ) -> Result<Did, LineFault>
        requires { IsOfAct verb }
        ensures printed { OnOk result (Prints (DoesVerb verb (map (λ word. word.now) arguments.now) self.old self.new) output.old output.new) }
        ensures refused { result ≡ Err LineFault.BadLine → ¬ MayStand verb (map (λ word. word.now) arguments.now) self.old }
        ensures err { OnErr result (output.new ≡ output.old) }
    {
        let act = act_of(self.alloc, &self.cast, verb, arguments)?;
        self.perform(verb, act, output)
    }

    /// Does an act, and prints what it shows.
    fn perform<'a>(
        &mut self,
        verb: Verb,
        act: Act<'a>,
        output: &mut Output,
    ) -> Result<Did, LineFault>
        requires { HasShortTopics (act_value act) }
        ensures printed { OnOk result (Prints (Performs verb (act_value act.entry) self.old self.new) output.old output.new) }
        ensures err { OnErr result (output.new ≡ output.old) }
        ensures fault { IfErr result (λ fault. fault ≡ LineFault.NoMemory) }
    {
        let stage = mem::replace(&mut self.stage, Stage::Before(Vec::new(self.alloc)));
        let mut world = world_of(self.alloc, self.hasher, stage)?;
        let answer = world.act(act);
        let printed = print_answer(self.alloc, verb, &world, answer, output);
        self.stage = Stage::Begun(world);
        printed
    }

    /// `settle` settles the world by three rounds.
    fn settle_line(&mut self, arguments: &[&str], output: &mut Output) -> Result<Did, LineFault>
        ensures printed { OnOk result (Prints (DoesVerb Verb.Settle (map (λ word. word.now) arguments.now) self.old self.new) output.old output.new) }
        ensures refused { result ≡ Err LineFault.BadLine → ¬ MayStand Verb.Settle (map (λ word. word.now) arguments.now) self.old }
        ensures err { OnErr result (output.new ≡ output.old) }
    {
        if !arguments.is_empty() {
            return Err(LineFault::BadLine);
        }
        self.settle(output)
    }

    /// Settles the world, and prints how that went.
    fn settle(&mut self, output: &mut Output) -> Result<Did, LineFault>
        ensures printed { OnOk result (Prints (Settles self.old self.new) output.old output.new) }
        ensures err { OnErr result (output.new ≡ output.old) }
        ensures fault { IfErr result (λ fault. fault ≡ LineFault.NoMemory) }
    {
        let stage = mem::replace(&mut self.stage, Stage::Before(Vec::new(self.alloc)));
        let mut world = world_of(self.alloc, self.hasher, stage)?;
        let settled = world.settle();
        let printed = print_settled(self.alloc, settled, output);
        self.stage = Stage::Begun(world);
        printed
    }
}

impl LineWorker for Player {
    ghost does = { DoesScriptLine };

    ghost takes = { IsScriptLine };

    ghost closes = { PrintsStandings };

    type Did = Did;

    type Notes = Story;

    fn line(&mut self, line: &[u8], output: &mut Output) -> Result<Did, LineFault> {
        let words = words::words_of(self.alloc, line)?;
        let Some((word, arguments)) = words.split_first() else {
            return Err(LineFault::BadLine);
        };
        let Some(verb) = Verb::of(word) else {
            return Err(LineFault::BadLine);
        };
        self.command(verb, arguments, output)
    }

    /// Prints where every client stands.
    fn end(&mut self, output: &mut Output) -> Result<(), AllocError> {
        let stage = mem::replace(&mut self.stage, Stage::Before(Vec::new(self.alloc)));
        let page = standings_of(self.alloc, self.hasher, &self.cast, stage)?;
        output.text(page.as_str())
    }

    fn notes(&self) -> Story {
        Story::new(self.alloc, self.hasher)
    }

    fn why(&self, story: &mut Story, line: &[u8], did: &Did) -> Result<Option<String>, AllocError> {
        let Ok(words) = words::words_of(self.alloc, line) else {
            return Err(AllocError);
        };
        let Some((word, arguments)) = words.split_first() else {
            return Ok(None);
        };
        let (Some(verb), Stage::Begun(world)) = (Verb::of(word), &self.stage) else {
            story.enter(arguments)?;
            return Ok(None);
        };
        match did {
            Did::Acted(Ok(shown)) => story.show(&self.cast, world, verb, arguments, shown),
            Did::Acted(Err(fault)) => {
                Ok(Some(story.refusal(&self.cast, world, verb, arguments, *fault)?))
            }
            Did::Settled(Err(fault)) => Ok(Some(told::unsettled(
                self.alloc, story, world, *fault,
            )?)),
            Did::Settled(Ok(())) => {
                story.settle(world)?;
                Ok(None)
            }
            Did::Nothing => Ok(None),
        }
    }

    fn why_bad(&self, line: &[u8]) -> Result<String, AllocError> {
        reasons::of_bad_run_line(self.alloc, line)
    }
}

/// Where every client of a stage's world stands.
fn standings_of(
    alloc: Global,
    hasher: RandomState,
    cast: &Cast,
    stage: Stage,
) -> Result<Page, AllocError>
    requires { IsShortStage stage }
    ensures { IfOk result (λ page. page ≡ standings_text cast.now (world_at stage).clients) }
{
    let world = world_of(alloc, hasher, stage)?;
    let mut page = Page::new(alloc);
    put_standings(&mut page, cast, &world)?;
    Ok(page)
}

/// One client more, where no act was done.
fn enlist(stage: &mut Stage, settings: Settings) -> Result<(), LineFault>
    ensures early { OnOk result ((has_begun stage.old ≡ false) × (has_begun stage.new ≡ false)) }
    ensures world { OnOk result (world_at stage.new ≡ record (world_at stage.old) { clients = (world_at stage.old).clients ++ new_client (settings_value settings) ∷ [] }) }
    ensures short { IsShortStage stage.old → HasShortTexts (settings_value settings) → IsShortStage stage.new }
    ensures refused { result ≡ Err LineFault.BadLine → has_begun stage.old ≡ true }
{
    match stage {
        Stage::Before(clients) => {
            clients.push(settings)?;
            Ok(())
        }
        Stage::Begun(_) => Err(LineFault::BadLine),
    }
}

/// The world at a stage, which is made where no act was done.
fn world_of(alloc: Global, hasher: RandomState, stage: Stage) -> Result<World, AllocError>
    requires { IsShortStage stage }
    ensures { IfOk result (λ world. world ≡ world_at stage) }
{
    match stage {
        Stage::Begun(world) => Ok(world),
        Stage::Before(clients) => match World::new(alloc, SALT, hasher, clients) {
            Ok(world) => Ok(world),
            Err(_) => Err(AllocError),
        },
    }
}
