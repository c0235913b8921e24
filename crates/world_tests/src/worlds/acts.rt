//! Acts as words say them.

ghost use Rattle.std.specs.Prelude.{IfOk, All};
ghost use Rattle.world_sim.specs.Acting.{act_value, HasShortTopics};

use crate::offsets::offsets_of;
use crate::parts::{first_topic, second_topic};
use std::alloc::{AllocError, Global};
use test_support::tables::{cut, number};
use topic_meta::TopicEntry;
use uuid::Uuid;
use world_sim::{Act, Image, Kind, Moment, Partition, Quit};

/// The acts that words say, parted by commas.
pub fn acts_of(alloc: Global, words: &str) -> Result<Vec<Act<'static>>, AllocError>
    ensures { IfOk result (λ acts. All (λ act. HasShortTopics (act_value act)) acts.items) }
{
    let mut acts = Vec::new(alloc);
    for words in words.split(',') {
        acts.push(act_of(alloc, words)?)?;
    }
    Ok(acts)
}

/// The act that words say.
pub fn act_of(alloc: Global, words: &str) -> Result<Act<'static>, AllocError>
    ensures { IfOk result (λ act. HasShortTopics (act_value act)) }
{
    let (verb, words) = cut(words);
    let (first, second) = cut(words);
    match verb {
        "image" => Ok(Act::Image {
            image: image_of(alloc, first, number(second))?,
        }),
        "commit" => Ok(Act::Commit {
            client: number(first),
            topics: offsets_of(alloc, number(second), 1)?,
        }),
        _ => Ok(plain_act(verb, first, second)),
    }
}

/// An image of the topic `t`, which has the id of the word and `count` partitions.
fn image_of(alloc: Global, word: &str, count: i32) -> Result<Image, AllocError> {
    let mut topics = Vec::new(alloc);
    topics.push(TopicEntry {
        name: String::from_str(alloc, "t")?,
        id: topic_of(word),
        count,
    })?;
    Image::of(alloc, topics).map_err(|_| AllocError)
}

fn topic_of(word: &str) -> Uuid {
    if word == "V" {
        second_topic()
    } else {
        first_topic()
    }
}

/// The act that takes no memory to say.
fn plain_act(verb: &str, first: &str, second: &str) -> Act<'static>
    ensures { HasShortTopics (act_value result) }
{
    let number: usize = number(first);
    match verb {
        "clock" => Act::Clock {
            moment: moment_of(first),
        },
        "tick" => Act::Tick {
            moment: moment_of(first),
        },
        "deliver" => Act::Deliver { request: number },
        "take" => Act::Take { reply: number },
        "bring" => Act::Bring { commit: number },
        _ => client_act(verb, number, second),
    }
}

/// The act of a client.
fn client_act(verb: &str, client: usize, word: &str) -> Act<'static>
    ensures { HasShortTopics (act_value result) }
{
    match verb {
        "join" => Act::Join { client },
        "beat" => Act::Beat {
            client,
            kind: kind_of(word),
        },
        "quit" => Act::Quit {
            client,
            quit: quit_of(word),
        },
        "release" => Act::Release {
            client,
            partition: Partition {
                topic: first_topic(),
                index: number(word),
            },
        },
        _ => Act::GiveUp { client },
    }
}

fn kind_of(word: &str) -> Kind {
    match word {
        "owned" => Kind::Owned,
        "full" => Kind::Full,
        _ => Kind::Short,
    }
}

fn quit_of(word: &str) -> Quit {
    if word == "away" {
        Quit::Away
    } else {
        Quit::Leave
    }
}

fn moment_of(word: &str) -> Moment {
    Moment::of_millis(number(word))
}
