//! The kinds of entries.

ghost use Rattle.std.specs.Prelude.{◌≡◌};
ghost use Rattle.replica_entries.specs.Kinds.{kind_number, kind_with};
ghost use Rattle.replica_entries.specs.Views.{content_value};
ghost use Rattle.replica_entries.specs.Values.{kind_of};

use crate::entry::Content;

/// What an entry brings, without it.
#[derive(Clone, Copy, Debug, PartialEq, Eq)]
pub enum Kind {
    Frame,
    Tick,
    Image,
    Leads,
}

impl Kind {
    /// The number that an entry names its kind by: 0 to 3, in the order of the variants.
    pub fn number(self) -> i16
        ensures { result ≡ kind_number self }
    {
        match self {
            Kind::Frame => 0,
            Kind::Tick => 1,
            Kind::Image => 2,
            Kind::Leads => 3,
        }
    }

    /// The kind of a number, where there is one.
    pub fn with_number(number: i16) -> Option<Kind>
        ensures { result ≡ kind_with number }
    {
        match number {
            0 => Some(Kind::Frame),
            1 => Some(Kind::Tick),
            2 => Some(Kind::Image),
            3 => Some(Kind::Leads),
            _ => None,
        }
    }

    /// The kind of what an entry brings.
    pub fn of(content: &Content<'_>) -> Kind
        ensures { result ≡ kind_of (content_value content.now) }
    {
        match content {
            Content::Frame(_) => Kind::Frame,
            Content::Tick(_) => Kind::Tick,
            Content::Image(_) => Kind::Image,
            Content::Leads => Kind::Leads,
        }
    }
}
