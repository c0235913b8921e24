//! How large a server is, and when it ends.
ghost use Rattle.std.specs.Prelude.{◌<◌};

/// How large a server is, and when it ends.
#[derive(Clone, Copy, Debug)]
pub struct Plan {
    /// How many workers serve the connections: 1 to 64.
    pub workers: usize,
    /// After this number of connections the server takes no more, and ends once these have ended.
    pub connections: u64,
    /// Whether an expiry worker runs.
    pub expires: bool,
    /// After how many seconds a socket is closed that brings no byte. None: it isn't closed for that.
    pub idle: Option<u64>,
    pub ghost some: { 0 < workers },
}

impl Plan {
    ghost use Rattle.std.specs.Prelude.{◌≡◌};
    ghost use Rattle.coord_server.specs.Plans.{expiry_worker_count};

    /// How many expiry workers run.
    pub fn expiry_workers(self) -> usize
        ensures { result ≡ expiry_worker_count self.expires }
    {
        if self.expires { 1 } else { 0 }
    }
}
