//! What the records keep of a member under its id.

use crate::record::Record;
use group_types::{EpochNumber, MemberId};
use indexmap::IndexMap;
use std::collections::hash_map::RandomState;

/// A member: its id, its record, and its mark, the epoch of the target at which it was found settled, if any.
#[derive(Drop)]
pub struct Entry {
    pub id: MemberId,
    pub kept: Record,
    pub mark: Option<EpochNumber>,
}

/// The members by their ids' texts.
pub type Table = IndexMap<String, Entry, RandomState>;
