//! The sequence numbers of idempotent producers.

ghost use Rattle.std.specs.Prelude.{◌≡◌, ◌+◌, ◌≤◌, length, position, count_by, OnOk, OnErr};
ghost use Rattle.topic_logs.specs.Sequence as specified;
ghost use Rattle.topic_logs.specs.Sequence.{standing_of, remembered, bounded, trimmed, without_first, last_of, is_of};

use std::alloc::AllocError;

/// How many batches of a producer are remembered, as Kafka does.
const MOST_OF_A_PRODUCER: usize = 5;

/// How many batches of all producers of a partition are remembered. The limit is this broker's own.
const MOST_REMEMBERED: usize = 5000;

/// Which batch of an idempotent producer a batch is.
#[derive(Clone, Copy, Debug, PartialEq, Eq)]
pub struct Sequence {
    pub producer: u64,
    pub epoch: u16,
    /// The sequence number of the first record.
    pub first: u32,
    /// The sequence number of the last record.
    pub last: u32,
}

/// A batch of an idempotent producer that is remembered.
#[derive(Clone, Copy, Debug, PartialEq, Eq)]
pub(crate) struct Sent {
    pub(crate) sequence: Sequence,
    pub(crate) base_offset: u64,
}

/// What a batch is to a log that remembers a producer's last batches.
#[derive(Clone, Copy, Debug, PartialEq, Eq)]
pub(crate) enum Standing {
    /// The next one, or the first one of a producer that is not known.
    New,
    /// One that is remembered, with its base offset.
    Repeated(u64),
    /// Neither the next one nor one that is remembered.
    OutOfOrder,
    /// One of an epoch before the producer's latest.
    OldEpoch,
}

/// What a batch of this sequence is.
pub(crate) fn standing_among(sent: &[Sent], sequence: &Sequence) -> Standing
    ensures { result ≡ standing_of sent.now sequence.now }
{
    let Some(last) = newest_of(sent, sequence.producer) else {
        return Standing::New;
    };
    if sequence.epoch < last.sequence.epoch {
        return Standing::OldEpoch;
    }
    match same_as(sent, sequence) {
        Some(same) => Standing::Repeated(same.base_offset),
        None => {
            if sequence.first == expected(&last.sequence, sequence) {
                Standing::New
            } else {
                Standing::OutOfOrder
            }
        }
    }
}

/// The producer's newest batch.
fn newest_of(sent: &[Sent], producer: u64) -> Option<Sent>
    ensures { result ≡ last_of (is_of producer) sent.now }
{
    let mut newest = None;
    for s in sent {
        if s.sequence.producer == producer {
            newest = Some(*s);
        }
    }
    newest
}

/// The remembered batch of this sequence.
fn same_as(sent: &[Sent], sequence: &Sequence) -> Option<Sent>
    ensures { result ≡ last_of (specified.is_same sequence.now) sent.now }
{
    let mut same = None;
    for s in sent {
        if is_same(s, sequence) {
            same = Some(*s);
        }
    }
    same
}

/// The place of the producer's oldest batch.
fn oldest_of(sent: &[Sent], producer: u64) -> Option<usize>
    ensures { result ≡ position (is_of producer) sent.now }
{
    sent.iter().position(|s| s.sequence.producer == producer)
}

/// How many of the batches are the producer's.
fn count_of(sent: &[Sent], producer: u64) -> usize
    ensures { result ≡ count_by (is_of producer) sent.now }
{
    sent.iter()
        .filter(|s| s.sequence.producer == producer)
        .count()
}

/// Whether the remembered batch is the one of this sequence.
fn is_same(sent: &Sent, sequence: &Sequence) -> bool
    ensures { result ≡ specified.is_same sequence.now sent.now }
{
    let other = sent.sequence;
    other.producer == sequence.producer
        && other.epoch == sequence.epoch
        && other.first == sequence.first
        && other.last == sequence.last
}

/// The sequence number that a batch of this epoch has to begin with, after the producer's last batch.
fn expected(last: &Sequence, sequence: &Sequence) -> u32
    ensures { result ≡ specified.expected last.now sequence.now }
{
    if sequence.epoch == last.epoch {
        after(last.last, 1)
    } else {
        0
    }
}

/// The sequence number that is `more` later; 0 follows 2^31 - 1.
pub(crate) fn after(sequence: u32, more: u32) -> u32
    ensures { result ≡ specified.after sequence more }
{
    let sum = u64::from(sequence) + u64::from(more);
    (sum % 0x8000_0000) as u32
}

/// Remembers a new batch, and forgets the producer's oldest if there are too many, or else the oldest of all.
pub(crate) fn remember(sent: &mut Vec<Sent>, new: Sent) -> Result<(), AllocError>
    requires { length sent.old.items ≤ MOST_REMEMBERED }
    ensures ok { OnOk result (sent.new.items ≡ remembered sent.old.items new) }
    ensures limit { length sent.new.items ≤ MOST_REMEMBERED }
    ensures err { OnErr result (sent.new.items ≡ sent.old.items) }
{
    let producer = new.sequence.producer;
    sent.push(new)?;
    forget(sent, producer);
    Ok(())
}

/// Forgets the producer's oldest batch if it has too many, and the oldest of all if there are too many.
fn forget(sent: &mut Vec<Sent>, producer: u64)
    requires { length sent.old.items ≤ MOST_REMEMBERED + 1 }
    ensures items { sent.new.items ≡ bounded (trimmed producer sent.old.items) }
    ensures limit { length sent.new.items ≤ MOST_REMEMBERED }
{
    if count_of(sent, producer) > MOST_OF_A_PRODUCER {
        forget_first(sent, producer);
    }
    forget_oldest(sent);
}

/// Forgets the producer's oldest batch.
fn forget_first(sent: &mut Vec<Sent>, producer: u64)
    ensures items { sent.new.items ≡ without_first (is_of producer) sent.old.items }
    ensures no_more { length sent.new.items ≤ length sent.old.items }
{
    if let Some(at) = oldest_of(sent, producer) {
        let _oldest = sent.remove(at);
    }
}

/// Forgets the oldest batch if there are too many.
fn forget_oldest(sent: &mut Vec<Sent>)
    requires { length sent.old.items ≤ MOST_REMEMBERED + 1 }
    ensures items { sent.new.items ≡ bounded sent.old.items }
    ensures limit { length sent.new.items ≤ MOST_REMEMBERED }
{
    if sent.len() > MOST_REMEMBERED {
        let _oldest = sent.remove(0);
    }
}
