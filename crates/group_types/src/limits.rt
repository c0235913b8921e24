//! The limits and times of the coordinator, each in one place. `specs/Limits.antt` has the same numbers as literals,
//! which all definitions cite, and [`constants_are_the_limits`](crate::laws::constants_are_the_limits) says that they are the same.

pub use flex_wire::LONGEST_STRING;

/// The fewest bytes that the body of a frame may have.
pub const SMALLEST_BODY: usize = 1;

/// The most bytes that the body of a frame may have.
pub const LARGEST_BODY: usize = 8_388_608;

/// The most topics of an image.
pub const MOST_TOPICS: usize = 10_000;

/// The most partitions of one topic.
pub const MOST_TOPIC_PARTITIONS: u32 = 100_000;

/// The most partitions of all the topics of an image together.
pub const MOST_PARTITIONS: u64 = 1_000_000;

/// The most members of a group.
pub const MOST_MEMBERS: usize = 10_000;

/// The most groups of a node.
pub const MOST_GROUPS: usize = 100_000;

/// The most ids of former members that a group remembers.
pub const MOST_PAST_MEMBERS: usize = 4_096;

/// The most bytes of the metadata that a commit stores with an offset.
pub const LONGEST_METADATA: usize = 4_096;

/// How long a member may be silent, in milliseconds: the session timeout of KIP-848.
pub const SESSION_TIMEOUT: u64 = 45_000;

/// How long a member waits between heartbeats, in milliseconds: the HeartbeatIntervalMs of KIP-848's replies.
pub const HEARTBEAT_INTERVAL: i32 = 5_000;

/// The greatest epoch of a group, a target or a member: the greatest INT32.
pub const GREATEST_EPOCH: u32 = 2_147_483_647;
