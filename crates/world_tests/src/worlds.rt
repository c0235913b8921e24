//! Worlds of clients, worked out by hand from KIP-848.

ghost use Rattle.std.specs.Prelude.{IfOk, All};
ghost use Rattle.member_core.specs.Views.{settings_value, HasShortTexts};

mod acts;
mod telling;

use crate::settings::settings_of;
use acts::{act_of, acts_of};
use std::alloc::{AllocError, Global};
use std::collections::hash_map::RandomState;
use std::test::Fail;
use telling::{tell_clients, tell_outcome};
use test_support::courses::{Course, wrong_steps};
use test_support::tables::{cut, part_words};
use world_sim::{Settings, Shown, World, WorldFault};

/// What happens in a world.
struct Play {
    /// What the clients are made with: the group, the instance, the rack and the assignor, of which `-` is none, the rebalance timeout,
    /// and the topics.
    clients: &'static [&'static str],
    steps: &'static str,
}

/// The clients and what they do. A client is told as its state and `ID@EPOCH:OWN`, of its id the last digit.
///
/// - `image U COUNT`, `image V COUNT`: the topic `t` has this id and COUNT partitions. `clock MS`, `tick MS`: the clock is set, and
///   deadlines are met.
/// - `join C`, `beat C short`, `beat C owned`, `beat C full`, `quit C leave`, `quit C away`, `lose C`, `release C INDEX`: of client C,
///   and a partition of the topic `U`.
/// - `deliver N`, `take N`: request N is delivered, reply N is taken. `commit C INDEX`, `bring N`: a commit of offset 5 is made,
///   and brought.
/// - `settle`, and `run` with acts parted by commas. `clients`: all clients.
static PLAYS: [Play; 2] = [
    Play {
        clients: &[
            "g - - range 60000 t",
            "g - - range 60000 t",
            "g i - range 60000 t",
        ],
        steps: REPEATED,
    },
    Play {
        clients: &["g - - - 60000 t"],
        steps: SETTLED,
    },
];

/// Joins of 40 names of 32,767 bytes, and of 300, which are more than the 8,388,608 bytes of a body.
static LARGE: Play = Play {
    clients: &["g - - - 60000 40*32767", "g - - - 60000 300*32767"],
    steps: "
join 1 = sent 1
join 2 = refused 5
join 1 = refused 3
clients = outside -@0:- outside -@0:-
",
};

/// Three clients, the third a static one. A heartbeat of the second comes again and again.
const REPEATED: &str = "
clients = outside -@0:- outside -@0:- outside -@0:-
image U 2 = done
# the first client owns all
join 1 = sent 1
deliver 1 = reply 1 code 0 epoch 1 shows U/0,U/1
take 1 = steady
clients = steady 1@1:U/0,U/1 outside -@0:- outside -@0:-
commit 1 0 = commit 1
bring 1 = code 0
# the second waits for what the first releases
join 2 = sent 2
deliver 2 = reply 2 code 0 epoch 2 shows -
take 2 = steady
beat 2 full = sent 3
deliver 3 = reply 3 code 0 epoch 2 shows -
beat 1 short = sent 4
deliver 4 = reply 4 code 0 epoch 1 shows U/0
take 4 = releasing
clients = releasing 1@1:U/0,U/1 steady 2@2:- outside -@0:-
release 1 1 = steady
beat 1 owned = sent 5
deliver 5 = reply 5 code 0 epoch 2 shows null
take 5 = steady
clients = steady 1@2:U/0 steady 2@2:- outside -@0:-
# a commit of the epoch before is stale
bring 1 = code 113
commit 1 0 = commit 2
bring 2 = code 0
# a heartbeat that was answered is closed when it comes again
deliver 3 = closed
join 3 = sent 6
deliver 6 = reply 6 code 0 epoch 3 shows -
take 6 = steady
deliver 3 = closed
beat 1 short = sent 7
deliver 7 = reply 7 code 0 epoch 2 shows -
take 7 = releasing
release 1 0 = steady
beat 1 owned = sent 8
deliver 8 = reply 8 code 0 epoch 3 shows U/1
commit 1 0 = commit 3
bring 3 = code 113
take 8 = steady
bring 2 = code 113
bring 4 = refused 2
beat 3 short = sent 9
deliver 9 = reply 9 code 0 epoch 3 shows U/0
take 9 = steady
take 3 = steady
take 3 = ignored
clients = steady 1@3:U/1 steady 2@2:- steady 3@3:U/0
run deliver 3,deliver 4,deliver 5,deliver 7,deliver 8,deliver 9 = closed closed closed closed closed closed
deliver 6 = reply 10 code 111 epoch 0 shows null
clients = steady 1@3:U/1 steady 2@2:- steady 3@3:U/0
# no such client, no such message, not in this state
join 4 = refused 1
deliver 10 = refused 2
take 0 = refused 2
join 1 = refused 3
lose 1 = refused 3
release 1 1 = refused 3
quit 1 away = refused 3
# a request that is given up, a member that goes away for a while, and one that leaves
beat 2 owned = sent 10
lose 2 = steady
quit 3 away = sent 11
deliver 11 = reply 11 code 0 epoch -2 shows null
take 11 = ignored
quit 1 leave = sent 12
deliver 12 = reply 12 code 0 epoch -1 shows null
# both that are left are removed when their sessions end
clock 44999 = done
tick 44999 = removed 0
tick 45000 = removed 2
clients = gone 1@3:- steady 2@2:- gone 3@3:-
# the second is told so, and joins again under its id
beat 2 short = sent 13
deliver 13 = reply 13 code 25 epoch 0 shows null
take 13 = outside
commit 2 0 = refused 3
image U 3 = done
join 2 = sent 14
deliver 14 = reply 14 code 0 epoch 6 shows U/0,U/1,U/2
take 14 = steady
clients = gone 1@3:- steady 2@6:U/0,U/1,U/2 gone 3@3:-
";

/// A topic that is made anew is another topic.
const SETTLED: &str = "
settle = refused 3
image U 2 = done
run join 1,deliver 1,take 1 = sent 1 reply 1 code 0 epoch 1 shows U/0,U/1 steady
image V 2 = done
settle = done
clients = steady 1@2:V/0,V/1
";

#[test]
fn acts_show_what_they_do(rt: HostRuntime) -> Result<(), Fail> {
    let alloc = rt.alloc();
    for play in &PLAYS {
        let hasher = RandomState::new(&rt)?;
        let wrong = wrong_acts(alloc, hasher, play).or_else(|_| wrong_acts(alloc, hasher, play))?;
        assert_eq!(rt; wrong.as_str(), "");
    }
    Ok(())
}

#[test]
fn large_joins_are_sent_or_refused(rt: HostRuntime) -> Result<(), Fail> {
    let alloc = rt.alloc();
    let hasher = RandomState::new(&rt)?;
    let wrong = wrong_acts(alloc, hasher, &LARGE).or_else(|_| wrong_acts(alloc, hasher, &LARGE))?;
    assert_eq!(rt; wrong.as_str(), "");
    Ok(())
}

/// The steps of a play of which something else comes, each with that.
fn wrong_acts(alloc: Global, hasher: RandomState, play: &Play) -> Result<String, AllocError> {
    let clients = clients_of(alloc, play.clients)?;
    let world = World::new(alloc, 0, hasher, clients).map_err(|_| AllocError)?;
    wrong_steps(alloc, Played { world }, play.steps)
}

/// What each client is made with.
fn clients_of(alloc: Global, clients: &[&str]) -> Result<Vec<Settings>, AllocError>
    ensures { IfOk result (λ each. All (λ settings. HasShortTexts (settings_value settings)) each.items) }
{
    let mut each = Vec::new(alloc);
    for words in clients {
        each.push(settings_of(alloc, words)?)?;
    }
    Ok(each)
}

/// A world in which acts are done.
#[derive(Drop)]
struct Played {
    world: World,
}

impl Course for Played {
    fn step(&mut self, alloc: Global, step: &str) -> Result<String, AllocError> {
        let mut text = String::new(alloc);
        let (verb, words) = cut(step);
        match verb {
            "clients" => tell_clients(&self.world, &mut text)?,
            "run" => run(alloc, &mut self.world, words, &mut text)?,
            _ => {
                let outcome = outcome_of(alloc, &mut self.world, step)?;
                tell_outcome(alloc, &self.world, &outcome, &mut text)?;
            }
        }
        Ok(text)
    }

    fn tell(&self, out: &mut String) -> Result<(), AllocError> {
        tell_clients(&self.world, out)
    }
}

/// Does acts, and tells what each shows. Where a growth is refused, those behind it were done, so that all begins anew.
fn run(alloc: Global, world: &mut World, words: &str, out: &mut String) -> Result<(), AllocError> {
    let acts = acts_of(alloc, words)?;
    let outcomes = world.run(acts).map_err(|_| AllocError)?;
    for outcome in outcomes.as_slice() {
        if let Err(WorldFault::NoMemory) = outcome {
            return Err(AllocError);
        }
        part_words(out)?;
        tell_outcome(alloc, world, outcome, out)?;
    }
    Ok(())
}

/// What an act comes to, or settling.
fn outcome_of(
    alloc: Global,
    world: &mut World,
    words: &str,
) -> Result<Result<Shown, WorldFault>, AllocError> {
    if words == "settle" {
        return Ok(settle(world));
    }
    let act = act_of(alloc, words)?;
    Ok(world.act(act))
}

/// Settles the world. Where a growth is refused some of the acts were done, and the world is settled once more.
fn settle(world: &mut World) -> Result<Shown, WorldFault> {
    let settled = match world.settle() {
        Err(WorldFault::NoMemory) => world.settle(),
        settled => settled,
    };
    settled.map(|_| Shown::Done)
}
