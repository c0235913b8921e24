//! The stamps of request lines.
ghost use Rattle.std.specs.Prelude.{◌≡◌, Option, None, min, ◌+◌, ◌-◌, ◌^◌};
ghost use Rattle.scenario_lines.specs.Stamps.{stamp_of};

use group_types::Stamp;

/// Gives each request line its stamp.
#[derive(Drop)]
pub struct Stamps {
    given: Option<Stamp>,
    requests: u64,
}

impl Stamps {
    /// The connection of requests that have no stamp of their own.
    pub const CONNECTION: u64 = 1;

    /// Before the first line.
    pub fn new() -> Stamps
        ensures { result ≡ record { given = None; requests = 0 } }
    {
        Stamps {
            given: None,
            requests: 0,
        }
    }

    /// Gives the next request this stamp, in place of one that was given before.
    pub fn give(&mut self, stamp: Stamp)
        ensures { self.new ≡ record self.old { given = Some stamp } }
    {
        self.given = Some(stamp);
    }

    /// The stamp of one more request: the one that was given, else its number on the connection 1.
    pub fn next_stamp(&mut self) -> Stamp
        ensures counted { self.new.requests ≡ min (self.old.requests + 1) (2 ^ 64 - 1) }
        ensures value { result ≡ stamp_of self.old.given self.new.requests }
        ensures used_up { self.new.given ≡ None }
    {
        self.requests = self.requests.saturating_add(1);
        self.given.take().unwrap_or(Stamp {
            connection: Self::CONNECTION,
            frame: self.requests,
        })
    }
}
