//! What a producer may send.

ghost use Rattle.std.specs.Prelude.{◌≡◌, ◌≤◌, ◌↔◌, length, IfOk, OnOk, OnErr, IsTrue};
ghost use Rattle.topic_logs.specs.Append as specified;
ghost use Rattle.topic_logs.specs.Append.{HasSequence, IsProducible};

use crate::batch::RecordBatch;
use crate::fault::BatchFault;
use crate::sequence::{Sent, Sequence, Standing, after, remember, standing_among};
use std::alloc::AllocError;

/// The one batch of the records of a producer, its checksum verified. Takes time in proportion to their number; the records aren't
/// looked at.
pub fn producible(records: &[u8]) -> Result<RecordBatch<'_>, BatchFault>
    ensures bytes { IfOk result (λ batch. batch.bytes.now ≡ records.now) }
    ensures ok { IfOk result (λ batch. IsProducible batch.bytes.now) }
    ensures err { OnErr result (¬ IsProducible records.now) }
{
    let (batch, rest) = RecordBatch::read(records)?;
    if !rest.is_empty() {
        return Err(BatchFault::LeftOver);
    }
    if batch.is_control() {
        return Err(BatchFault::Control);
    }
    if !has_sequence(&batch) {
        return Err(BatchFault::NoSequence);
    }
    Ok(batch)
}

/// Whether the producer has no id, or an epoch and a sequence number too.
fn has_sequence(batch: &RecordBatch<'_>) -> bool
    ensures { IsTrue result ↔ HasSequence batch.now.bytes.now }
{
    batch.producer_id() < 0 || (batch.producer_epoch() >= 0 && batch.base_sequence() >= 0)
}

/// Which batch of an idempotent producer it is.
pub(crate) fn sequence_of(batch: &RecordBatch<'_>) -> Option<Sequence>
    requires { HasSequence batch.now.bytes.now }
    ensures { result ≡ specified.sequence_of batch.now.bytes.now }
{
    let producer = batch.producer_id();
    if producer < 0 {
        return None;
    }
    let epoch = batch.producer_epoch() as u16;
    let first = batch.base_sequence() as u32;
    Some(Sequence {
        producer: producer as u64,
        epoch,
        first,
        last: after(first, batch.record_count() - 1),
    })
}

/// What the batch is to a log that remembers these. One of a producer that is not idempotent is new.
pub(crate) fn standing_with(sent: &[Sent], sequence: &Option<Sequence>) -> Standing
    ensures { result ≡ specified.standing_with sent.now sequence.now }
{
    match sequence {
        None => Standing::New,
        Some(sequence) => standing_among(sent, sequence),
    }
}

/// Remembers the batch of an idempotent producer, which got this offset.
pub(crate) fn remember_if(
    sent: &mut Vec<Sent>,
    sequence: &Option<Sequence>,
    base_offset: u64,
) -> Result<(), AllocError>
    requires { length sent.old.items ≤ 5000 }
    ensures ok { OnOk result (sent.new.items ≡ specified.remembered_with sent.old.items sequence.now base_offset) }
    ensures limit { length sent.new.items ≤ 5000 }
    ensures err { OnErr result (sent.new.items ≡ sent.old.items) }
{
    match sequence {
        None => Ok(()),
        Some(sequence) => remember(
            sent,
            Sent {
                sequence: *sequence,
                base_offset,
            },
        ),
    }
}
