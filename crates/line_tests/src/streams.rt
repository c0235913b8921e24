//! Words for what a reader gives and for what a writer takes.
//!
//! Bytes are named by words: `NAME` is a frame, `NAME*N` N of it, `NAME:N` its first N bytes, `NAME/N` the first N bytes of its
//! body behind the size that fits them, and any other word hex.
//!
//! What each poll does is said by words that are joined by `+`: `N` moves N bytes at most, `p` is pending, `f` fails, and `X*N` does
//! X N times; `-` is no poll. Past them each poll moves all that it can.
ghost use Rattle.std.specs.Prelude.{IfSome};

use bytes::BytesMut;
use futures::Future;
use futures::task::Poll;
use futures::test::MockTask;
use link_futures::{Drain, Feed, PollAct};
use std::alloc::{AllocError, AllocGlobal, Global};
use std::collections::VecDeque;
use std::io;
use std::random::RandomSource;
use test_support::frames::{bytes_of, frame_of, put_hex};
use test_support::tables::{cut, number, part_words};
use tokio::io::{DuplexStream, read_to_end};

/// The most bytes that a writer takes.
const ROOM: usize = 4_096;

/// Frames, and their names.
#[derive(Drop)]
pub struct Frames {
    named: Vec<(&'static str, Vec<u8>)>,
}

impl Frames {
    /// The frames of these bodies. Where a growth is refused they are made once more.
    pub fn of(alloc: Global, bodies: &[(&'static str, &str)]) -> Result<Frames, AllocError> {
        frames_of(alloc, bodies).or_else(|_| frames_of(alloc, bodies))
    }

    fn named(&self, name: &str) -> Option<&[u8]> {
        for (known, frame) in &self.named {
            if *known == name {
                return Some(frame.as_slice());
            }
        }
        None
    }

    /// The frame that the bytes begin with, and its name.
    fn in_front(&self, bytes: &[u8]) -> Option<(&'static str, &[u8])> {
        for (name, frame) in &self.named {
            if bytes.starts_with(frame.as_slice()) {
                return Some((*name, frame.as_slice()));
            }
        }
        None
    }
}

fn frames_of(alloc: Global, bodies: &[(&'static str, &str)]) -> Result<Frames, AllocError> {
    let mut named = Vec::new(alloc);
    for (name, body) in bodies {
        named.push((*name, frame_of(alloc, body)?))?;
    }
    Ok(Frames { named })
}

/// A word, and the number behind a mark in it, or 1.
fn times(word: &str, mark: char) -> (&str, usize) {
    match word.split_once(mark) {
        Some((word, count)) => (word, number(count)),
        None => (word, 1),
    }
}

/// What the words say that each poll does.
fn acts(alloc: Global, words: &str) -> Result<VecDeque<PollAct>, AllocError> {
    let mut acts = VecDeque::new(alloc);
    for word in words.split('+').filter(|word| *word != "-") {
        let (word, count) = times(word, '*');
        for _ in 0..count {
            for act in word.chars() {
                acts.push_back(act_of(act))?;
            }
        }
    }
    Ok(acts)
}

fn act_of(act: char) -> PollAct {
    match act {
        'p' => PollAct::Pending,
        'f' => PollAct::Fault,
        _ => PollAct::Bytes(act.to_digit(10).unwrap_or(0) as usize),
    }
}

/// A reader of the bytes that the words name.
pub fn feed(alloc: Global, polls: &str, words: &str, frames: &Frames) -> Result<Feed, AllocError> {
    let mut bytes = Vec::new(alloc);
    for word in words.split_whitespace() {
        put_bytes(alloc, word, frames, &mut bytes)?;
    }
    Ok(Feed::new(bytes, acts(alloc, polls)?))
}

/// A writer.
pub fn drain(alloc: Global, polls: &str) -> Result<Drain, AllocError> {
    Drain::new(alloc, ROOM, acts(alloc, polls)?)
}

/// A task that polls. Where a growth is refused it is made once more.
pub fn task_of<R: RandomSource + AllocGlobal>(rt: &R) -> io::Result<MockTask> {
    MockTask::new(rt).or_else(|_| MockTask::new(rt))
}

/// What a future gives within `polls` polls, or none where it gives nothing by then or waits for what never comes.
pub fn output_within<F: Future>(task: &MockTask, future: F, polls: usize) -> Option<F::Output>
    requires { F.can_poll future }
{
    let mut future = future;
    for _ in 0..polls {
        match task.poll(&mut future) {
            Poll::Ready(output) => return Some(output),
            Poll::Pending => {
                if !task.is_woken() {
                    return None;
                }
            }
        }
    }
    None
}

/// A future that waits to be woken within `polls` polls, or none if it is ready or asks for further polls.
pub fn asleep_within<T: Drop, F: Future<Output = T> + Drop>(
    task: &MockTask,
    future: F,
    polls: usize,
) -> Option<F>
    requires { F.can_poll future }
    ensures { IfSome result F.can_poll }
{
    let mut future = future;
    for _ in 0..polls {
        match task.poll(&mut future) {
            Poll::Ready(_) => return None,
            Poll::Pending => {
                if !task.is_woken() {
                    return Some(future);
                }
            }
        }
    }
    None
}

/// What was written into a pipe whose other end is gone.
pub fn written(alloc: Global, task: &MockTask, far: DuplexStream) -> Result<BytesMut, AllocError> {
    let mut read = read_to_end(far, BytesMut::from_vec(Vec::new(alloc)));
    match task.poll(&mut read) {
        Poll::Ready(Ok((_far, bytes))) => Ok(bytes),
        _ => Err(AllocError),
    }
}

/// Appends the bytes that a word names.
fn put_bytes(
    alloc: Global,
    word: &str,
    frames: &Frames,
    bytes: &mut Vec<u8>,
) -> Result<(), AllocError> {
    if let Some((name, most)) = word.split_once('/') {
        return put_cut_body(name, number(most), frames, bytes);
    }
    let (front, most) = word.split_once(':').unwrap_or((word, ""));
    let (name, count) = times(front, '*');
    let Some(frame) = frames.named(name) else {
        return bytes.extend_from_slice(bytes_of(alloc, word)?.as_slice());
    };
    let most = most
        .parse::<usize>()
        .unwrap_or(frame.len())
        .min(frame.len());
    for _ in 0..count {
        bytes.extend_from_slice(&frame[..most])?;
    }
    Ok(())
}

/// Appends the first `most` bytes of a frame's body, behind the size that fits them.
fn put_cut_body(
    name: &str,
    most: u32,
    frames: &Frames,
    bytes: &mut Vec<u8>,
) -> Result<(), AllocError> {
    let body = frames
        .named(name)
        .and_then(|frame| frame.get(4..))
        .unwrap_or(&[]);
    bytes.extend_from_slice(&most.to_be_bytes())?;
    bytes.extend_from_slice(body.get(..most as usize).unwrap_or(body))
}

/// Puts bytes as words: frames by their names, and what is left as the front part of a frame, or in hex.
pub fn put_words(bytes: &[u8], frames: &Frames, out: &mut String) -> Result<(), AllocError> {
    let mut left = bytes;
    for _ in 0..bytes.len() {
        let Some((name, frame)) = frames.in_front(left) else {
            break;
        };
        let count = repeats(left, frame);
        left = left.get(count.saturating_mul(frame.len())..).unwrap_or(&[]);
        put_frame(name, count, out)?;
    }
    put_rest(left, frames, out)
}

/// Puts a frame that stands `count` times in a row.
fn put_frame(name: &str, count: usize, out: &mut String) -> Result<(), AllocError> {
    part_words(out)?;
    out.push_str(name)?;
    if count > 1 {
        write!(out, "*{count}")?;
    }
    Ok(())
}

/// How many times in a row the bytes begin with a frame.
fn repeats(bytes: &[u8], frame: &[u8]) -> usize {
    let mut count = 0usize;
    for part in bytes.chunks(frame.len().max(1)) {
        if part != frame {
            break;
        }
        count = count.saturating_add(1);
    }
    count
}

/// Puts bytes that begin with no frame.
fn put_rest(bytes: &[u8], frames: &Frames, out: &mut String) -> Result<(), AllocError> {
    if bytes.is_empty() {
        return Ok(());
    }
    part_words(out)?;
    for (name, frame) in &frames.named {
        if frame.as_slice().starts_with(bytes) {
            return write!(out, "{name}:{}", bytes.len());
        }
    }
    put_hex(out, bytes)
}

/// The table with a row for each number that `#` stands for: a row begins with the first and the last of them, as `1..33`. Where a
/// growth is refused it is made once more.
pub fn numbered_rows(alloc: Global, table: &str) -> Result<String, AllocError> {
    rows_of(alloc, table).or_else(|_| rows_of(alloc, table))
}

fn rows_of(alloc: Global, table: &str) -> Result<String, AllocError> {
    let mut rows = String::new(alloc);
    for row in table.lines().filter(|row| !row.is_empty()) {
        let (numbers, row) = cut(row);
        let (first, last) = numbers.split_once("..").unwrap_or((numbers, numbers));
        for number in number::<u32>(first)..=number::<u32>(last) {
            put_numbered(row, number, &mut rows)?;
        }
    }
    Ok(rows)
}

/// Puts the row with a number in place of each `#`.
fn put_numbered(row: &str, number: u32, rows: &mut String) -> Result<(), AllocError> {
    for part in row.split_inclusive('#') {
        match part.strip_suffix('#') {
            Some(front) => write!(rows, "{front}{number}")?,
            None => rows.push_str(part)?,
        }
    }
    rows.push('\n')
}
