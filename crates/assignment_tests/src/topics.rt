//! The images and views of `topic_meta`: lists that make an image and lists that don't.

use crate::members::entry_of;
use crate::parts::topic_id;
use crate::types::names_of;
use std::alloc::{AllocError, Global};
use std::test::Fail;
use test_support::tables::{Answers, cut, number, part_words, wrong_rows};
use topic_meta::{Image, ImageFault, TopicEntry, View};

/// A topic is its name, the number that its id ends in, and its count.
const TABLE: &str = "
image s:1:1 t:2:1 t:3:1 = DuplicateName
image s:1:1 t:2:1 u:2:1 = DuplicateId
image s:1:1 t:2:1 t:2:0 = BadCount
image s:1:1 t:2:1 t:2:1 = DuplicateName
image s:1:1 t:1:1 u:3:0 = DuplicateId
image s:1:1 t:2:1 u:3:1 = 3 topics

# an image of three topics, whose order by name isn't their order by id
find a = 2 with 5, in the copy 2 with 5
find b = 1 with 3, in the copy 1 with 3
find d = none, in the copy none
view b,x,a = a:2:5 b:1:3, copied a:2:5 b:1:3
fault 1 = DuplicateName: two topics have one name
fault 2 = DuplicateId: two topics have one id
fault 3 = TooMany: the image has more topics or partitions than it may
fault 4 = BadCount: a topic has fewer than 1 partition or more than 100000
fault 5 = NoMemory: out of memory
";

/// Images of alike topics. The words are how many topics there are, and how many partitions each of them has.
const LIMITS: &str = "
alike 1 0 = BadCount
alike 1 -1 = BadCount
alike 1 100001 = BadCount
alike 1 2000000 = TooMany
alike 101 10000 = TooMany
alike 11 100000 = TooMany
alike 10001 1 = TooMany
alike 1 100000 = 1 topics
alike 100 10000 = 100 topics
alike 10 100000 = 10 topics
alike 10000 1 = 10000 topics
alike 0 1 = 0 topics
";

#[test]
fn images_and_views(rt: HostRuntime) -> Result<(), Fail> {
    let wrong = wrong_rows(rt.alloc(), &Topics, TABLE)?;
    assert_eq!(rt; wrong.as_str(), "");
    Ok(())
}

/// Apart from the other rows, since these make some ten thousands of growths.
#[test]
fn limits(rt: HostRuntime) -> Result<(), Fail> {
    let wrong = wrong_rows(rt.alloc(), &Topics, LIMITS)?;
    assert_eq!(rt; wrong.as_str(), "");
    Ok(())
}

struct Topics;

impl Answers for Topics {
    fn answer(&self, alloc: Global, question: &str, out: &mut String) -> Result<(), AllocError> {
        let (call, words) = cut(question);
        match call {
            "image" => tell_image(alloc, list_of(alloc, words)?, out),
            "alike" => tell_image(alloc, alike(alloc, words)?, out),
            "fault" => tell_numbered(number(words), out),
            "find" => tell_found(&three(alloc)?, words, out),
            _ => tell_view(alloc, &three(alloc)?, words, out),
        }
    }
}

/// A list of topics from their words.
fn list_of(alloc: Global, words: &str) -> Result<Vec<TopicEntry>, AllocError> {
    let mut list = Vec::new(alloc);
    for word in words.split_whitespace() {
        list.push(entry(alloc, word)?)?;
    }
    Ok(list)
}

fn entry(alloc: Global, word: &str) -> Result<TopicEntry, AllocError> {
    let (name, numbers) = word.split_once(':').unwrap_or((word, ""));
    let (id, count) = numbers.split_once(':').unwrap_or((numbers, ""));
    entry_of(alloc, name, number(id), number(count))
}

/// As many topics as the first word says, each with as many partitions as the second says, with names and ids of their own.
fn alike(alloc: Global, words: &str) -> Result<Vec<TopicEntry>, AllocError> {
    let (topics, count) = cut(words);
    let mut list = Vec::new(alloc);
    for number in 0..number(topics) {
        list.push(TopicEntry {
            name: format!(in alloc; "topic-{number}")?,
            id: topic_id(number),
            count: self::number(count),
        })?;
    }
    Ok(list)
}

/// Tells how many topics the image of a list has, or the list's fault. Want of memory is for the table.
fn tell_image(alloc: Global, list: Vec<TopicEntry>, out: &mut String) -> Result<(), AllocError> {
    match Image::of(alloc, list) {
        Ok(image) => write!(out, "{} topics", image.len()),
        Err(ImageFault::NoMemory) => Err(AllocError),
        Err(fault) => write!(out, "{fault:?}"),
    }
}

/// An image of three topics.
fn three(alloc: Global) -> Result<Image, AllocError> {
    let list = list_of(alloc, "b:1:3 a:2:5 c:3:1")?;
    Image::of(alloc, list).map_err(|_| AllocError)
}

/// Tells the topic of a name, in the image and in its copy.
fn tell_found(image: &Image, name: &str, out: &mut String) -> Result<(), AllocError> {
    tell_topic(image, name, out)?;
    out.push_str(", in the copy ")?;
    tell_topic(&image.copy()?, name, out)
}

fn tell_topic(image: &Image, name: &str, out: &mut String) -> Result<(), AllocError> {
    match image.find(name) {
        None => out.push_str("none"),
        Some((id, count)) => write!(out, "{} with {count}", id.as_u128()),
    }
}

/// Tells the view of an image that has the topics among these names, which are parted by commas, and its copy.
fn tell_view(
    alloc: Global,
    image: &Image,
    words: &str,
    out: &mut String,
) -> Result<(), AllocError> {
    let view = image.view(alloc, &names_of(alloc, words)?)?;
    put_view(&view, out)?;
    out.push_str(", copied")?;
    put_view(&view.copy(alloc)?, out)
}

fn put_view(view: &View, out: &mut String) -> Result<(), AllocError> {
    for topic in view.topics() {
        part_words(out)?;
        write!(out, "{}:{}:{}", topic.name, topic.id.as_u128(), topic.count)?;
    }
    Ok(())
}

/// Tells the fault with a number, and its text.
fn tell_numbered(number: u8, out: &mut String) -> Result<(), AllocError> {
    for fault in [
        ImageFault::DuplicateName,
        ImageFault::DuplicateId,
        ImageFault::TooMany,
        ImageFault::BadCount,
        ImageFault::NoMemory,
    ] {
        if fault.number() == number {
            return write!(out, "{fault:?}: {fault}");
        }
    }
    Ok(())
}
