//! How long a connection has brought or taken no byte.
ghost use Rattle.std.specs.Prelude.{◌≡◌, ◌*◌, IfOk};
ghost use Rattle.std.specs.Duration.{as_nanos};
ghost use Rattle.futures.specs.Task.{Covers, Keeps};
ghost use Rattle.futures.specs.Poll.{OnPending};
ghost use Rattle.tokio.specs.Timers.{sleep_source};

use crate::log::EndLog;
use crate::reason::Reason;
use futures::Future;
use futures::task::{Context, Poll};
use std::io;
use std::sync::Wait;
use std::time::{Clock, Duration, Instant};
use tokio::time::{Handle, Sleep};

/// How long one poll after the other has found nothing, and how long that may last.
#[derive(Drop)]
pub struct Silence<'a, R> {
    clock: &'a R,
    longest: Duration,
    /// When the first of these polls was. None: the last one found something.
    since: Option<Instant>,
    sleep: Sleep,
    /// Where its end is noted, and of which connection.
    log: &'a EndLog,
    connection: u64,
}

impl<'a, R: Clock + Wait> Silence<'a, R> {
    /// A silence that hasn't begun, and may last `seconds` seconds. Its end is noted.
    pub fn new(
        clock: &'a R,
        timers: &Handle,
        seconds: u64,
        log: &'a EndLog,
        connection: u64,
    ) -> io::Result<Silence<'a, R>>
        ensures { IfOk result (λ silence. as_nanos silence.longest ≡ seconds * 1_000_000_000) }
    {
        let longest = Duration::from_secs(seconds);
        let sleep = timers.sleep(clock, longest)?;
        Ok(Silence {
            clock,
            longest,
            since: None,
            sleep,
            log,
            connection,
        })
    }

    /// Goes on, or begins. Waits until it is as long as it may be, or the timer is gone. The timer stays as it is, and is set anew once
    /// it fires.
    pub fn poll_end(&mut self, cx: &mut Context<'_>) -> Poll<()>
        ensures registered { OnPending result (Covers cx.new (λ source. source ≡ sleep_source self.new.sleep)) }
        ensures kept { Keeps cx.old cx.new }
    {
        if self.since.is_none() {
            self.since = Instant::now(self.clock).ok();
        }
        match self.sleep.poll(cx) {
            Poll::Pending => Poll::Pending,
            Poll::Ready(Err(_)) => Poll::Ready(()),
            Poll::Ready(Ok(())) => match self.end() {
                Some(end) => {
                    self.sleep.reset(end);
                    cx.yield_now()
                }
                None => Poll::Ready(()),
            },
        }
    }

    /// A byte was moved: it is over.
    pub fn clear(&mut self) {
        self.since = None;
    }

    /// How many seconds it may last.
    pub fn seconds(&self) -> u64 {
        self.longest.as_secs()
    }

    /// Has the log say why the connection is closed.
    pub fn note(&self, reason: Reason) {
        self.log.note_reason(self.clock, self.connection, reason);
    }

    /// When it is as long as it may be, where it isn't yet. Where the clock can't be read it is.
    fn end(&self) -> Option<Instant> {
        let since = self.since?;
        match since.elapsed(self.clock) {
            Ok(elapsed) if elapsed < self.longest => since.checked_add(self.longest),
            _ => None,
        }
    }
}
