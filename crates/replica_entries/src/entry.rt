//! Entries of a replicated log.

use group_types::Moment;
use topic_meta::TopicEntry;

/// An entry of a replicated log.
#[derive(Debug, Drop)]
pub struct Entry<'a> {
    /// The number of the leadership under which it was proposed, or of the one that begins with it. Only numbers below
    /// 2^31 have a spelling.
    pub leadership: u32,
    pub content: Content<'a>,
}

/// What an entry brings.
#[derive(Debug, Drop)]
pub enum Content<'a> {
    /// A frame that came in.
    Frame(LoggedFrame<'a>),
    /// The clock was looked at. Only moments below 2^63 have a spelling.
    Tick(Moment),
    /// The topics of a new image, in their order; they may be ones that make no image.
    Image(Vec<TopicEntry>),
    /// A leadership begins.
    Leads,
}

/// A frame that came in under a leadership.
#[derive(Debug, Drop)]
pub struct LoggedFrame<'a> {
    /// The number of its connection under this leadership. Only numbers below 2^31 have a spelling.
    pub connection: u32,
    /// Its number on the connection. Only numbers below 2^63 have a spelling.
    pub number: u64,
    /// When it came in. Only moments below 2^63 have a spelling.
    pub moment: Moment,
    /// The body of the frame, of 1 to 8,388,608 bytes.
    pub body: &'a [u8],
}
