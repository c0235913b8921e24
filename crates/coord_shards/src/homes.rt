//! The shard that an event is for.
ghost use Rattle.std.specs.Prelude.{◌≡◌, ◌<◌, IfOk};
ghost use Rattle.coord_shards.specs.Home.{IsHome, shard_of_group, shard_numbered};

use crate::event::Event;
use crate::incoming::Incoming;
use std::alloc::{AllocError, Global};

/// The number of the shard that an event is for, of `shards` shards.
///
/// A frame's is the sum of the bytes of its request's group id, modulo the number of shards; a frame that can't be read
/// is for shard 0, and so is an event for a shard that isn't there. Fails where memory is too short to read the frame.
pub fn home(alloc: Global, event: &Event, shards: usize) -> Result<usize, AllocError>
    requires { 0 < shards }
    ensures home { IfOk result (λ number. IsHome shards event.now number) }
    ensures there { IfOk result (λ number. number < shards) }
{
    Ok(Incoming::of(alloc, event)?.home(shards))
}

/// The shard of a group, of `shards` shards.
pub(crate) fn shard_of_group(group: &str, shards: usize) -> usize
    requires { 0 < shards }
    ensures home { result ≡ shard_of_group shards group.now }
    ensures there { result < shards }
{
    let mut sum = 0u128;
    for byte in group.as_bytes() {
        sum += u128::from(*byte);
    }
    // Each sum but that of a text of 2^56 bytes and more has 64 bits, which are divided faster.
    match u64::try_from(sum) {
        Ok(sum) => (sum % shards as u64) as usize,
        Err(_) => (sum % shards as u128) as usize,
    }
}

/// The shard with a number, of `shards` shards, or shard 0 where there is none.
pub(crate) fn shard_numbered(number: usize, shards: usize) -> usize
    requires { 0 < shards }
    ensures home { result ≡ shard_numbered shards number }
    ensures there { result < shards }
{
    if number < shards { number } else { 0 }
}
