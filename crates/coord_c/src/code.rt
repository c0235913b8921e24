//! What the exports return.

/// It was done: a coordinator was made, a reply appended, bytes taken, topics set, an entry proposed or applied, a part of a snapshot written.
pub(crate) const DONE: i32 = 0;

/// Nothing is replied, and the connection is to be closed.
pub(crate) const CLOSES: i32 = 1;

/// The place is not the one that the replica has come to.
pub(crate) const OUT_OF_PLACE: i32 = 2;

/// The group doesn't have the member, and doesn't remember it.
pub(crate) const NO: i32 = 0;

/// The group has the member, or remembers it.
pub(crate) const YES: i32 = 1;

/// The slot has nothing that the function is for.
pub(crate) const EMPTY: i32 = -1;

/// Memory is short.
pub(crate) const NO_MEMORY: i32 = -2;

/// The slot has a coordinator or a replica already.
pub(crate) const FULL: i32 = -3;

/// The buffer is too short.
pub(crate) const SHORT: i32 = -4;

/// A name is not UTF-8.
pub(crate) const NOT_TEXT: i32 = -5;

/// There is no such group, or no such member in it.
pub(crate) const NO_MEMBER: i32 = -6;

/// Nothing was committed there.
pub(crate) const NO_OFFSET: i32 = -7;

/// The epoch of a static member that is away (KIP-848, "Static Membership").
pub(crate) const AWAY: i32 = -2;
