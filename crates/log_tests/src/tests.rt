//! The tests of `topic_logs`: the batches are a producer's of librdkafka, as its mock cluster stored them, and the checksums those
//! of RFC 3720.

use std::alloc::{AllocError, Global};
use std::test::Fail;
use test_support::frames::{bytes_of, put_hex};
use test_support::tables::{Answers, cut, number, wrong_rows};
use topic_logs::*;

const TABLE: &str = r#"
# CRC-32C: the check value of the catalogue of CRCs, and RFC 3720, "CRC Examples"
crc 313233343536373839 = e3069283
crc 0000000000000000000000000000000000000000000000000000000000000000 = 8a9136aa
crc ffffffffffffffffffffffffffffffffffffffffffffffffffffffffffffffff = 62a8ab43
crc 000102030405060708090a0b0c0d0e0f101112131415161718191a1b1c1d1e1f = 46dd794e

# a batch of librdkafka 2.14.2 of three records, and turned ones
read 00000000000000000000006000000000026f1473c60000000000020000018bcfe568000000018bcfe56802ffffffffffffffffffffffffffff000000031a000000010e76616c75652030001c000202026b0e76616c756520310022000404010e76616c756520320202680278 = offset 0 delta 2 count 3 base 1700000000000 max 1700000000002 producer -1 -1 -1 rest -
read 00000000000000000000006000000000021ce7b5f30000000000020000018bcfe568000000018bcfe568020000000009f57810000000000000000000031a000000010e76616c75652030001c000202026b0e76616c756520310022000404010e76616c7565203202026802780708 = offset 0 delta 2 count 3 base 1700000000000 max 1700000000002 producer 167082000 0 0 rest 0708
read 00000000000000000000006000000000026f1473c60000000000020000018bcfe568000000018bcfe56802ffffffffffffffffffffffffffff000000031a000000010e76616c75652030001c000202026b0e76616c756520310022000404010e76616c7565203202026802 = Cut 2
read 00000000000000000000 = Cut 2
read 00000000000000000000006000000000016f1473c60000000000020000018bcfe568000000018bcfe56802ffffffffffffffffffffffffffff000000031a000000010e76616c75652030001c000202026b0e76616c756520310022000404010e76616c756520320202680278 = WrongVersion 87
read 00000000000000000000003000000000026f1473c60000000000020000018bcfe568000000018bcfe56802ffffffffffffffffffffffffffff000000031a000000010e76616c75652030001c000202026b0e76616c756520310022000404010e76616c756520320202680278 = WrongLength 2
read 0000000000000000ff00000000000000026f1473c60000000000020000018bcfe568000000018bcfe56802ffffffffffffffffffffffffffff000000031a000000010e76616c75652030001c000202026b0e76616c756520310022000404010e76616c756520320202680278 = WrongLength 2
read 00000000000000000000006000000000026f1473c60000000000020000018bcfe568000000018bcfe56802ffffffffffffffffffffffffffff000000031a000000010e76616c75652030001c00020202000e76616c756520310022000404010e76616c756520320202680278 = WrongChecksum 2
read 0000000000000000000000600000000002733d6ec20000000000020000018bcfe568000000018bcfe56802ffffffffffffffffffffffffffff000000021a000000010e76616c75652030001c000202026b0e76616c756520310022000404010e76616c756520320202680278 = WrongCount 87
read 0000000000000000000000600000000002d5aa48100000ffffffff0000018bcfe568000000018bcfe56802ffffffffffffffffffffffffffff000000001a000000010e76616c75652030001c000202026b0e76616c756520310022000404010e76616c756520320202680278 = WrongCount 87

# batches from there on in a log that keeps 250 bytes: p is librdkafka's plain one, and i N its idempotent one with the sequence number N
log p = 0 from 0
log p p = 3 from 0
log p p p = 6 from 3
log pp = LeftOver 87
log c = Control 87
log n = NoSequence 87
log i0 p i0 = 0 from 0
log i0 i3 i0 i3 p = 6 from 3
log i0 i6 = OutOfOrder 45
log i7 i10 = 3 from 0
log i2147483646 i1 = 3 from 0
log e0 i3 = OldEpoch 47
log i0 e3 = OutOfOrder 45
log i0 e0 e3 = 6 from 3
log i0 i3 i6 i9 i12 i15 i0 = OutOfOrder 45
log i0 i3 i6 i9 i12 i15 i3 = 3 from 12

# what is read from a log of three batches (108 bytes each, offsets 0, 3 and 6): the offsets of the batches
fetch 0 1000 = 0 3 6
fetch 4 1000 = 3 6
fetch 5 215 = 3
fetch 5 216 = 3 6
fetch 8 0 = none
fetch 8 1! = 6
fetch 9 1000 = none
fetch 10 1000 = OutOfRange
at 1700000000002 = 1700000000002 0
at 1700000000003 = None

# a batch that an independent program made
generated t-1 3 7 1000 1300 1600 = 00000000000000070000005d0000000002c3987ba100000000000200000000000003e80000000000000640ffffffffffffffffffffffffffff000000031a000000010e742d312f332f37001c00d80402010e742d312f332f38001c00b00904010e742d312f332f3900
"#;

/// Batches of librdkafka: of a producer that is not idempotent, and of one that is.
const PLAIN: &str =
    "00000000000000000000006000000000026f1473c60000000000020000018bcfe568000000018bcfe56802ffffffffffffffffffffffffffff000000031a000000010e76616c75652030001c000202026b0e76616c756520310022000404010e76616c756520320202680278";

const IDEMPOTENT: &str =
    "00000000000000000000006000000000021ce7b5f30000000000020000018bcfe568000000018bcfe568020000000009f57810000000000000000000031a000000010e76616c75652030001c000202026b0e76616c756520310022000404010e76616c756520320202680278";

struct Logs;

impl Answers for Logs {
    fn answer(&self, alloc: Global, question: &str, out: &mut String) -> Result<(), AllocError> {
        let (call, words) = cut(question);
        match call {
            "crc" => write!(out, "{:08x}", crc32c(bytes_of(alloc, words)?.as_slice())),
            "read" => tell_read(bytes_of(alloc, words)?.as_slice(), out),
            "log" => tell_log(alloc, words, out),
            "fetch" => tell_fetch(alloc, words, out),
            "at" => tell_moment(alloc, words, out),
            _ => tell_generated(alloc, words, out),
        }
    }
}

fn tell_read(bytes: &[u8], out: &mut String) -> Result<(), AllocError> {
    match RecordBatch::read(bytes) {
        Err(fault) => write!(out, "{fault:?} {}", fault.code()),
        Ok((batch, rest)) => {
            tell_batch(&batch, out)?;
            write!(out, " rest ")?;
            put_hex(out, rest)
        }
    }
}

fn tell_batch(batch: &RecordBatch<'_>, out: &mut String) -> Result<(), AllocError> {
    let (offset, delta, count) = (
        batch.base_offset(),
        batch.last_offset_delta(),
        batch.record_count(),
    );
    let (base, max) = (batch.base_timestamp(), batch.max_timestamp());
    let (producer, epoch, sequence) = (
        batch.producer_id(),
        batch.producer_epoch(),
        batch.base_sequence(),
    );
    write!(
        out,
        "offset {offset} delta {delta} count {count} base {base} max {max} "
    )?;
    write!(out, "producer {producer} {epoch} {sequence}")
}

/// The batch with this word: one of librdkafka's, with some fields set and its checksum.
fn batch_of(alloc: Global, word: &str) -> Result<Vec<u8>, AllocError> {
    let (kind, sequence) = (
        word.as_bytes().first().copied().unwrap_or(0),
        number::<i32>(word.get(1..).unwrap_or("")),
    );
    let mut batch = bytes_of(
        alloc,
        if kind == b'p' || kind == b'c' {
            PLAIN
        } else {
            IDEMPOTENT
        },
    )?;
    match kind {
        b'c' => set(&mut batch, 22, &[0x20]),
        b'n' => set(&mut batch, 51, &[0xff]),
        b'e' => set(&mut batch, 52, &[1]),
        _ => {}
    }
    if kind == b'i' || kind == b'e' {
        set(&mut batch, 53, &sequence.to_be_bytes());
    }
    let sum = crc32c(batch.get(21..).unwrap_or(&[]));
    set(&mut batch, 17, &sum.to_be_bytes());
    if word == "pp" {
        let copy = batch.clone()?;
        batch.extend_from_slice(copy.as_slice())?;
    }
    Ok(batch)
}

fn set(batch: &mut Vec<u8>, at: usize, bytes: &[u8]) {
    for (i, byte) in bytes.iter().enumerate() {
        if let Some(place) = batch.get_mut(at.saturating_add(i)) {
            *place = *byte;
        }
    }
}

fn tell_log(alloc: Global, words: &str, out: &mut String) -> Result<(), AllocError> {
    let mut log = PartitionLog::new(alloc);
    let mut last = Err(AppendFault::NoMemory);
    for word in words.split_whitespace() {
        last = log.append(batch_of(alloc, word)?.as_slice(), 5, 250);
    }
    match last {
        Ok(appended) => write!(
            out,
            "{} from {}",
            appended.base_offset, appended.log_start_offset
        ),
        Err(AppendFault::NoMemory) => Err(AllocError),
        Err(AppendFault::Batch(fault)) => write!(out, "{fault:?} {}", fault.code()),
        Err(fault) => write!(out, "{fault:?} {}", fault.code()),
    }
}

/// A log of three batches of three records each.
fn log_of_three(alloc: Global) -> Result<PartitionLog, AllocError> {
    let mut log = PartitionLog::new(alloc);
    let batch = batch_of(alloc, "p")?;
    for _ in 0..3u8 {
        log.append(batch.as_slice(), 5, 1000)
            .map_err(|_| AllocError)?;
    }
    Ok(log)
}

fn tell_fetch(alloc: Global, words: &str, out: &mut String) -> Result<(), AllocError> {
    let log = log_of_three(alloc)?;
    let (offset, most) = cut(words);
    let (most, whole) = match most.strip_suffix('!') {
        Some(most) => (most, true),
        None => (most, false),
    };
    let mut read = Vec::new(alloc);
    match log.read_from(number(offset), number(most), whole, &mut read) {
        Err(ReadFault::NoMemory) => Err(AllocError),
        Err(fault) => write!(out, "{fault:?}"),
        Ok(()) => tell_offsets(read.as_slice(), out),
    }
}

/// The base offsets of the batches, each of which is to be whole and of the leader's epoch 5.
fn tell_offsets(bytes: &[u8], out: &mut String) -> Result<(), AllocError> {
    if bytes.is_empty() {
        return write!(out, "none");
    }
    let mut left = bytes;
    for _ in 0..9u8 {
        match RecordBatch::read(left) {
            Ok((batch, rest)) => {
                let epoch = left.get(12..16);
                write!(
                    out,
                    "{}{} ",
                    batch.base_offset(),
                    if epoch == Some(&[0, 0, 0, 5]) {
                        ""
                    } else {
                        "?"
                    }
                )?;
                left = rest;
            }
            Err(_) => break,
        }
    }
    if left.is_empty() {
        Ok(())
    } else {
        write!(out, "and more")
    }
}

fn tell_moment(alloc: Global, words: &str, out: &mut String) -> Result<(), AllocError> {
    match log_of_three(alloc)?.offset_of_timestamp(number(words)) {
        Some((timestamp, offset)) => write!(out, "{timestamp} {offset}"),
        None => write!(out, "None"),
    }
}

fn tell_generated(alloc: Global, words: &str, out: &mut String) -> Result<(), AllocError> {
    let (topic, words) = cut(words);
    let (partition, words) = cut(words);
    let (first, words) = cut(words);
    let mut timestamps: Vec<i64> = Vec::new(alloc);
    for word in words.split_whitespace() {
        timestamps.push(number(word))?;
    }
    if timestamps.is_empty() || timestamps.len() > 200 {
        return Ok(());
    }
    let batch = generated_batch(
        alloc,
        topic,
        number(partition),
        number(first),
        timestamps.as_slice(),
    )?;
    put_hex(out, batch.as_slice())
}

#[test]
fn batches_are_kept_as_kafka_does(rt: HostRuntime) -> Result<(), Fail> {
    let wrong = wrong_rows(rt.alloc(), &Logs, TABLE)?;
    assert_eq!(rt; wrong.as_str(), "");
    Ok(())
}
