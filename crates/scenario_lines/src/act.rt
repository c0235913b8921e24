//! Which act a line of a script asks for.
ghost use Rattle.std.specs.Prelude.{◌≡◌, ℕ, pos, map, IfOk, OnErr, IfErr};
ghost use Rattle.std.specs.Prelude.{◌≢◌};
ghost use Rattle.kip_msgs.specs.Views.{commit_request_topic_value};
ghost use Rattle.member_core.specs.Asking.{Fullness};
ghost use Rattle.member_core.specs.Kinds.{fullness};
ghost use Rattle.world_sim.specs.Acting.{act_value};
ghost use Rattle.world_sim.specs.Acts.{Act as Deed};
ghost use Rattle.scenario_lines.specs.Scripts.{SpellsAct, IsNumber, NamesClient, kind_word, offset_of_one};

use crate::cast::Cast;
use crate::verb::Verb;
use flex_wire::TaggedFields;
use kip_msgs::{CommitRequestPartition, CommitRequestTopic};
use scenario_text::fault::LineFault;
use scenario_text::topics::image_of;
use scenario_text::words;
use std::alloc::{AllocError, Global};
use uuid::Uuid;
use world_sim::{Act, Array, Kind, Moment, Partition, Quit};

/// The act that a verb and the words behind it ask for. A name that no client has is the number 0, which is no client's either.
pub fn act_of<'a>(
    alloc: Global,
    cast: &Cast,
    verb: Verb,
    arguments: &[&'a str],
) -> Result<Act<'a>, LineFault>
    ensures asked { IfOk result (λ act. SpellsAct cast.now verb (map (λ word. word.now) arguments.now) (act_value act)) }
    ensures refused { result ≡ Err LineFault.BadLine → (deed : Deed) → ¬ SpellsAct cast.now verb (map (λ word. word.now) arguments.now) deed }
{
    match verb {
        Verb::Image => image(alloc, cast, arguments),
        Verb::Commit => commit(alloc, cast, arguments),
        Verb::Join => join(cast, arguments),
        Verb::Beat => beat(cast, arguments),
        Verb::Quit => quit(cast, arguments),
        Verb::Lose => lose(cast, arguments),
        Verb::Release => release(cast, arguments),
        Verb::Clock => clock(cast, arguments),
        Verb::Tick => tick(cast, arguments),
        Verb::Deliver => deliver(cast, arguments),
        Verb::Take => take(cast, arguments),
        Verb::Bring => bring(cast, arguments),
        Verb::Client | Verb::Settle => Err(LineFault::BadLine),
    }
}

/// `image [NAME UUID COUNT]...`.
fn image<'a>(alloc: Global, cast: &Cast, arguments: &[&'a str]) -> Result<Act<'a>, LineFault>
    ensures asked { IfOk result (λ act. SpellsAct cast.now Verb.Image (map (λ word. word.now) arguments.now) (act_value act)) }
    ensures refused { result ≡ Err LineFault.BadLine → (deed : Deed) → ¬ SpellsAct cast.now Verb.Image (map (λ word. word.now) arguments.now) deed }
{
    let image = image_of(alloc, arguments)?;
    Ok(Act::Image { image })
}

/// `clock MS`.
fn clock<'a>(cast: &Cast, arguments: &[&'a str]) -> Result<Act<'a>, LineFault>
    ensures asked { IfOk result (λ act. SpellsAct cast.now Verb.Clock (map (λ word. word.now) arguments.now) (act_value act)) }
    ensures refused { OnErr result ((deed : Deed) → ¬ SpellsAct cast.now Verb.Clock (map (λ word. word.now) arguments.now) deed) }
{
    let number = one_number(arguments)?;
    let moment = Moment::of_millis(number);
    Ok(Act::Clock { moment })
}

/// `tick MS`.
fn tick<'a>(cast: &Cast, arguments: &[&'a str]) -> Result<Act<'a>, LineFault>
    ensures asked { IfOk result (λ act. SpellsAct cast.now Verb.Tick (map (λ word. word.now) arguments.now) (act_value act)) }
    ensures refused { OnErr result ((deed : Deed) → ¬ SpellsAct cast.now Verb.Tick (map (λ word. word.now) arguments.now) deed) }
{
    let number = one_number(arguments)?;
    let moment = Moment::of_millis(number);
    Ok(Act::Tick { moment })
}

/// `join C`.
fn join<'a>(cast: &Cast, arguments: &[&'a str]) -> Result<Act<'a>, LineFault>
    ensures asked { IfOk result (λ act. SpellsAct cast.now Verb.Join (map (λ word. word.now) arguments.now) (act_value act)) }
    ensures refused { OnErr result ((deed : Deed) → ¬ SpellsAct cast.now Verb.Join (map (λ word. word.now) arguments.now) deed) }
{
    let client = one_client(cast, arguments)?;
    Ok(Act::Join { client })
}

/// `beat C short`, `beat C owned` and `beat C full`.
fn beat<'a>(cast: &Cast, arguments: &[&'a str]) -> Result<Act<'a>, LineFault>
    ensures asked { IfOk result (λ act. SpellsAct cast.now Verb.Beat (map (λ word. word.now) arguments.now) (act_value act)) }
    ensures refused { OnErr result ((deed : Deed) → ¬ SpellsAct cast.now Verb.Beat (map (λ word. word.now) arguments.now) deed) }
{
    let [name, kind] = arguments else {
        return Err(LineFault::BadLine);
    };
    let client = cast.client(name)?;
    let kind = kind_of(kind)?;
    Ok(Act::Beat { client, kind })
}

/// `quit C leave` and `quit C away`.
fn quit<'a>(cast: &Cast, arguments: &[&'a str]) -> Result<Act<'a>, LineFault>
    ensures asked { IfOk result (λ act. SpellsAct cast.now Verb.Quit (map (λ word. word.now) arguments.now) (act_value act)) }
    ensures refused { OnErr result ((deed : Deed) → ¬ SpellsAct cast.now Verb.Quit (map (λ word. word.now) arguments.now) deed) }
{
    let [name, quit] = arguments else {
        return Err(LineFault::BadLine);
    };
    let client = cast.client(name)?;
    match *quit {
        "leave" => Ok(Act::Quit {
            client,
            quit: Quit::Leave,
        }),
        "away" => Ok(Act::Quit {
            client,
            quit: Quit::Away,
        }),
        _ => Err(LineFault::BadLine),
    }
}

/// `lose C`.
fn lose<'a>(cast: &Cast, arguments: &[&'a str]) -> Result<Act<'a>, LineFault>
    ensures asked { IfOk result (λ act. SpellsAct cast.now Verb.Lose (map (λ word. word.now) arguments.now) (act_value act)) }
    ensures refused { OnErr result ((deed : Deed) → ¬ SpellsAct cast.now Verb.Lose (map (λ word. word.now) arguments.now) deed) }
{
    let client = one_client(cast, arguments)?;
    Ok(Act::GiveUp { client })
}

/// `deliver K`.
fn deliver<'a>(cast: &Cast, arguments: &[&'a str]) -> Result<Act<'a>, LineFault>
    ensures asked { IfOk result (λ act. SpellsAct cast.now Verb.Deliver (map (λ word. word.now) arguments.now) (act_value act)) }
    ensures refused { OnErr result ((deed : Deed) → ¬ SpellsAct cast.now Verb.Deliver (map (λ word. word.now) arguments.now) deed) }
{
    let number = one_number(arguments)?;
    Ok(Act::Deliver {
        request: number as usize,
    })
}

/// `take J`.
fn take<'a>(cast: &Cast, arguments: &[&'a str]) -> Result<Act<'a>, LineFault>
    ensures asked { IfOk result (λ act. SpellsAct cast.now Verb.Take (map (λ word. word.now) arguments.now) (act_value act)) }
    ensures refused { OnErr result ((deed : Deed) → ¬ SpellsAct cast.now Verb.Take (map (λ word. word.now) arguments.now) deed) }
{
    let number = one_number(arguments)?;
    Ok(Act::Take {
        reply: number as usize,
    })
}

/// `release C UUID INDEX`.
fn release<'a>(cast: &Cast, arguments: &[&'a str]) -> Result<Act<'a>, LineFault>
    ensures asked { IfOk result (λ act. SpellsAct cast.now Verb.Release (map (λ word. word.now) arguments.now) (act_value act)) }
    ensures refused { OnErr result ((deed : Deed) → ¬ SpellsAct cast.now Verb.Release (map (λ word. word.now) arguments.now) deed) }
{
    let [name, topic, index] = arguments else {
        return Err(LineFault::BadLine);
    };
    let client = cast.client(name)?;
    let topic = Uuid::parse_str(topic).map_err(|_| LineFault::BadLine)?;
    let index = words::count_of(index).ok_or(LineFault::BadLine)?;
    let partition = Partition { topic, index };
    Ok(Act::Release { client, partition })
}

/// `commit C NAME INDEX OFFSET`: one partition's offset, with no leader epoch and no metadata.
fn commit<'a>(alloc: Global, cast: &Cast, arguments: &[&'a str]) -> Result<Act<'a>, LineFault>
    ensures asked { IfOk result (λ act. SpellsAct cast.now Verb.Commit (map (λ word. word.now) arguments.now) (act_value act)) }
    ensures refused { result ≡ Err LineFault.BadLine → (deed : Deed) → ¬ SpellsAct cast.now Verb.Commit (map (λ word. word.now) arguments.now) deed }
{
    let [name, topic, index, offset] = arguments else {
        return Err(LineFault::BadLine);
    };
    let client = cast.client(name)?;
    if !words::is_name(topic) {
        return Err(LineFault::BadLine);
    }
    let index = words::count_of(index).ok_or(LineFault::BadLine)?;
    let offset = words::offset_of(offset).ok_or(LineFault::BadLine)?;
    let topics = one_offset(alloc, topic, index, offset)?;
    Ok(Act::Commit { client, topics })
}

/// `bring K`.
fn bring<'a>(cast: &Cast, arguments: &[&'a str]) -> Result<Act<'a>, LineFault>
    ensures asked { IfOk result (λ act. SpellsAct cast.now Verb.Bring (map (λ word. word.now) arguments.now) (act_value act)) }
    ensures refused { OnErr result ((deed : Deed) → ¬ SpellsAct cast.now Verb.Bring (map (λ word. word.now) arguments.now) deed) }
{
    let number = one_number(arguments)?;
    Ok(Act::Bring {
        commit: number as usize,
    })
}

/// The number of the client that the only word names.
fn one_client(cast: &Cast, arguments: &[&str]) -> Result<usize, LineFault>
    ensures client { IfOk result (NamesClient cast.now (map (λ word. word.now) arguments.now)) }
    ensures refused { OnErr result ((client : ℕ) → ¬ NamesClient cast.now (map (λ word. word.now) arguments.now) client) }
    ensures fault { IfErr result (λ fault. fault ≡ LineFault.BadLine) }
{
    let [name] = arguments else {
        return Err(LineFault::BadLine);
    };
    cast.client(name)
}

/// The number that the only word spells.
fn one_number(arguments: &[&str]) -> Result<u64, LineFault>
    ensures number { IfOk result (IsNumber (map (λ word. word.now) arguments.now)) }
    ensures refused { OnErr result ((number : ℕ) → ¬ IsNumber (map (λ word. word.now) arguments.now) number) }
    ensures fault { IfErr result (λ fault. fault ≡ LineFault.BadLine) }
{
    let [word] = arguments else {
        return Err(LineFault::BadLine);
    };
    words::number_of(word).ok_or(LineFault::BadLine)
}

/// How much a heartbeat says.
fn kind_of(word: &str) -> Result<Kind, LineFault>
    ensures kind { IfOk result (λ kind. word.now ≡ kind_word (fullness kind)) }
    ensures refused { OnErr result ((kind : Fullness) → word.now ≢ kind_word kind) }
{
    match word {
        "short" => Ok(Kind::Short),
        "owned" => Ok(Kind::Owned),
        "full" => Ok(Kind::Full),
        _ => Err(LineFault::BadLine),
    }
}

/// The list of a commit of one partition's offset.
fn one_offset<'a>(
    alloc: Global,
    topic: &'a str,
    index: i32,
    offset: i64,
) -> Result<Array<CommitRequestTopic<'a>>, AllocError>
    ensures { (number : ℕ) → index ≡ pos number → IfOk result (λ topics. map commit_request_topic_value topics ≡ offset_of_one topic.entry.now number offset) }
{
    let mut partitions = Array::new(alloc);
    partitions.push(CommitRequestPartition {
        partition_index: index,
        committed_offset: offset,
        committed_leader_epoch: -1,
        committed_metadata: None,
        tags: TaggedFields::new(alloc),
    })?;
    let mut topics = Array::new(alloc);
    topics.push(CommitRequestTopic {
        name: topic,
        partitions,
        tags: TaggedFields::new(alloc),
    })?;
    Ok(topics)
}
