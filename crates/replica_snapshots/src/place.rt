//! A place in a log: what the log has come to there, but for the coordinator.

ghost use Rattle.std.specs.Prelude.{◌≡◌, ◌++◌, ℕ, List, IfOk, IfErr, FitsSigned, pos};
ghost use Rattle.std.specs.Int.{w32, w64};
ghost use Rattle.flex_wire.specs.Spelling.{int16, int32, int64};
ghost use Rattle.replica_snapshots.specs.Places.{PLACE_VERSION as THE_VERSION, PlaceValue, place_fields, FitsPlace};
ghost use Rattle.replica_snapshots.specs.Reading.{Gives, natural_at, int32_at, int64_at, place_at};
ghost use Rattle.replica_snapshots.specs.Views.{place_value, unread};
ghost use Rattle.replica_snapshots.specs.Writing.{Puts, PutsUpTo};
ghost use Rattle.replica_snapshots.specs.declared.fault.SnapshotFault.TheVariants.{NoMemory};

use crate::cursor::Cursor;
use crate::fault::SnapshotFault;
use crate::fields::{put_int32, put_int64, put_number};
use crate::rewriting::behind;
use flex_wire::put_i16;
use group_types::Moment;
use std::alloc::Global;

/// The version in which places are spelled.
pub const PLACE_VERSION: i16 = 0;

/// A place in a log.
#[derive(Clone, Copy, Debug)]
pub struct Place {
    /// How many entries were applied.
    pub applied: u64,
    /// The number of the last leadership that began.
    pub leadership: u32,
    /// The greatest moment of an entry.
    pub moment: Moment,
}

/// Appends the one spelling of a place.
///
/// Refused, with no byte changed: `TooLong` only where the leadership is 2^31 or more, or the moment 2^63 or more; `NoMemory`.
pub fn put_place(out: &mut Vec<u8>, place: Place) -> Result<(), SnapshotFault>
    ensures { Puts result out.old.items out.new.items (FitsPlace (place_value place)) (place_fields (place_value place)) }
{
    let before = out.len();
    let done = place_up_to(out, place);
    if done.is_err() {
        out.truncate(before);
    }
    done
}

#[tactic(auto, unfolding(crate::specs::Places::place_fields))]
fn place_up_to(out: &mut Vec<u8>, place: Place) -> Result<(), SnapshotFault>
    ensures { PutsUpTo result out.old.items out.new.items (FitsPlace (place_value place)) (place_fields (place_value place)) }
{
    put_version(out)?;
    put_number(out, place.applied)?;
    put_leadership(out, place.leadership)?;
    put_moment(out, place.moment)
}

/// The version.
fn put_version(out: &mut Vec<u8>) -> Result<(), SnapshotFault>
    ensures { PutsUpTo result out.old.items out.new.items (Unit {0}) (int16 THE_VERSION) }
{
    put_i16(out, PLACE_VERSION)?;
    Ok(())
}

/// The number of a leadership, as an INT32.
fn put_leadership(out: &mut Vec<u8>, leadership: u32) -> Result<(), SnapshotFault>
    ensures { PutsUpTo result out.old.items out.new.items (FitsSigned w32 (pos leadership)) (int32 (pos leadership)) }
{
    match i32::try_from(leadership) {
        Ok(number) => put_int32(out, number),
        Err(_) => Err(SnapshotFault::TooLong),
    }
}

/// A moment, as an INT64.
fn put_moment(out: &mut Vec<u8>, moment: Moment) -> Result<(), SnapshotFault>
    ensures { PutsUpTo result out.old.items out.new.items (FitsSigned w64 (pos moment)) (int64 (pos moment)) }
{
    match i64::try_from(moment.millis()) {
        Ok(millis) => put_int64(out, millis),
        Err(_) => Err(SnapshotFault::TooLong),
    }
}

/// Reads a place from the front of bytes, and gives the bytes behind it: the one place that they begin with, or a fault. A place
/// that was written is never refused but for want of memory.
pub fn read_place(alloc: Global, bytes: &[u8]) -> Result<(Place, &[u8]), SnapshotFault>
    ensures found { IfOk result (λ x. FitsPlace (place_value x.0) × (bytes.now ≡ place_fields (place_value x.0) ++ x.1.now)) }
    ensures only { (p : PlaceValue) (rest : List ℕ) → FitsPlace p → bytes.now ≡ place_fields p ++ rest
        → IfOk result (λ x. (place_value x.0 ≡ p) × (x.1.now ≡ rest)) }
    ensures whole { (p : PlaceValue) (rest : List ℕ) → FitsPlace p → bytes.now ≡ place_fields p ++ rest
        → IfErr result (λ fault. fault ≡ NoMemory) }
{
    read_again(alloc, bytes)
}

/// The fields are read, and taken only where they are spelled just as the bytes are.
fn read_again(alloc: Global, bytes: &[u8]) -> Result<(Place, &[u8]), SnapshotFault>
    ensures found { IfOk result (λ x. FitsPlace (place_value x.0) × (bytes.now ≡ place_fields (place_value x.0) ++ x.1.now)) }
    ensures whole { (p : PlaceValue) (rest : List ℕ) → FitsPlace p → bytes.now ≡ place_fields p ++ rest
        → IfErr result (λ fault. fault ≡ NoMemory) }
{
    let mut cursor = Cursor::new(alloc, bytes);
    let place = place_of(&mut cursor)?;
    let again = spelled(alloc, cursor.place(), &place)?;
    match behind(bytes, &again) {
        Ok(rest) => Ok((place, rest)),
        Err(fault) => Err(fault),
    }
}

/// The spelling of a place, whose size is known.
fn spelled(alloc: Global, size: usize, place: &Place) -> Result<Vec<u8>, SnapshotFault>
    ensures ok { IfOk result (λ bytes. FitsPlace (place_value place.now) × (bytes.items ≡ place_fields (place_value place.now))) }
    ensures fitting { FitsPlace (place_value place.now) → IfErr result (λ fault. fault ≡ NoMemory) }
{
    let mut bytes = Vec::with_capacity(alloc, size)?;
    put_place(&mut bytes, *place)?;
    Ok(bytes)
}

#[tactic(auto, unfolding(crate::specs::Reading::place_at))]
fn place_of(cursor: &mut Cursor<'_>) -> Result<Place, SnapshotFault>
    ensures { Gives place_value result (unread cursor.new) (place_at (unread cursor.old)) }
{
    if cursor.int16()? != PLACE_VERSION {
        return Err(cursor.bad_value());
    }
    let applied = cursor.number()?;
    let leadership = leadership_of(cursor)?;
    let moment = moment_of(cursor)?;
    Ok(Place {
        applied,
        leadership,
        moment,
    })
}

fn leadership_of(cursor: &mut Cursor<'_>) -> Result<u32, SnapshotFault>
    ensures { Gives (λ n. n) result (unread cursor.new) (natural_at int32_at (unread cursor.old)) }
{
    let number = cursor.int32()?;
    match u32::try_from(number) {
        Ok(leadership) => Ok(leadership),
        Err(_) => Err(cursor.bad_value()),
    }
}

fn moment_of(cursor: &mut Cursor<'_>) -> Result<Moment, SnapshotFault>
    ensures { Gives (λ moment. moment) result (unread cursor.new) (natural_at int64_at (unread cursor.old)) }
{
    let millis = cursor.int64()?;
    match u64::try_from(millis) {
        Ok(millis) => Ok(Moment::of_millis(millis)),
        Err(_) => Err(cursor.bad_value()),
    }
}
