//! Who lets the time of the shards go on.
ghost use Rattle.std.specs.Prelude.{◌≡◌, ◌⊎◌, ◌+◌, ◌<◌, ◌↔◌, ◌*◌, ℕ, IsTrue, IfOk, IsErr};
ghost use Rattle.std.specs.Duration.{as_nanos};
ghost use Rattle.futures.specs.Task.{Covers, Keeps};
ghost use Rattle.futures.specs.Poll.{IfReady, OnPending};
ghost use Rattle.tokio.specs.Timers.{sleep_source, interval_delay, interval_period, missed_tick_behavior as behavior_of};

use crate::event_loop::Resumable;
use crate::fault::ServerFault;
use coord_shards::Moment;
use futures::Future;
use futures::task::{Context, Poll};
use std::io;
use std::time::{Clock, Duration};
use tokio::time::{Handle, Interval, MissedTickBehavior};

/// After how many milliseconds the time of the shards goes on.
const TICK: u64 = 500;

/// After more than this number of milliseconds without a round the process was paused, and what waits for it goes first.
const LONGEST_ROUND: u64 = 5_000;

/// A desk over shards whose time goes on.
pub trait Timed: Drop {
    /// In the first state it may give this as the present moment, and be in the second.
    ghost hands: { Self → ℕ → Self → Type 0 };

    /// What it comes to that the time of the shards goes on to a moment.
    ghost ticks: { Self → ℕ → Self → Type 0 };

    /// The present moment.
    fn moment(&mut self) -> Moment
        ensures { hands self.old result self.new };

    /// Lets the time of the shards go on to a moment.
    fn tick(&mut self, moment: Moment)
        ensures { ticks self.old moment self.new };
}

/// Lets the time of a desk's shards go on in rounds, one at each instant of an interval. The round after a pause, as where the
/// process was stopped or the machine suspended, lets it stand: the frames that wait are to be answered before members are taken
/// for silent.
#[derive(Drop)]
pub struct Expiry<D> {
    desk: D,
    ticks: Interval,
    /// The moment of the last round, or of the start.
    last: Moment,
}

/// Instants: the first at once, and each 500 ms after the last one was seen.
pub fn ticks_of(clock: &impl Clock, timers: &Handle) -> io::Result<Interval>
    ensures period { IfOk result (λ ticks. as_nanos (interval_period ticks) ≡ 500 * 1_000_000) }
    ensures delays { IfOk result (λ ticks. behavior_of ticks ≡ MissedTickBehavior.Delay) }
{
    let mut ticks = timers.interval(clock, Duration::from_millis(TICK))?;
    ticks.set_missed_tick_behavior(MissedTickBehavior::Delay);
    Ok(ticks)
}

/// Whether more than 5 s lie between the moments of two rounds.
fn was_paused(last: Moment, moment: Moment) -> bool
    ensures { IsTrue result ↔ (last + 5_000 < moment) }
{
    moment.millis().saturating_sub(last.millis()) > LONGEST_ROUND
}

impl<D: Timed> Expiry<D> {
    ghost use Rattle.coord_server.specs.Ticks.{IsRound};

    /// An expiry worker before its first round.
    pub fn new(desk: D, ticks: Interval) -> Expiry<D>
        ensures ticks { result.ticks ≡ ticks }
        ensures began { D.hands desk result.last result.desk }
    {
        let mut desk = desk;
        let last = desk.moment();
        Expiry { desk, ticks, last }
    }

    /// A round: the time of the shards goes on to the present moment, unless there was a pause.
    fn go_round(&mut self)
        ensures round { IsRound D.hands D.ticks self.old.desk self.old.last self.new.desk self.new.last }
        ensures others { self.new.ticks ≡ self.old.ticks }
    {
        let moment = self.desk.moment();
        let paused = was_paused(self.last, moment);
        self.last = moment;
        if !paused {
            self.desk.tick(moment);
        }
    }
}

impl<D: Timed> Future for Expiry<D> {
    ghost use Rattle.coord_server.specs.Ticks.{IsRound};
    ghost use Rattle.std.specs.Prelude.{Result, ⊤};
    ghost use Rattle.coord_server.specs.declared.fault.ServerFault.{ServerFault};

    type Output = Result<u64, ServerFault>;

    ghost needs = { λ e source. source ≡ sleep_source (interval_delay e.ticks) };

    ghost gives = { λ _ r. IsErr r };

    /// Goes round where an instant of the interval has passed. It ends only where its timer fails.
    fn poll(&mut self, cx: &mut Context<'_>) -> Poll<Result<u64, ServerFault>>
        // Where it took an instant of the interval, it went round; else nothing has changed.
        ensures rounds { OnPending result (
            IsRound D.hands D.ticks self.old.desk self.old.last self.new.desk self.new.last
            ⊎ (self.new ≡ record self.old { ticks = self.new.ticks }) × (interval_delay self.new.ticks ≡ interval_delay self.old.ticks)) }
        ensures value { IfReady result IsErr }
        ensures again { OnPending result ⊤ }
        ensures same { OnPending result ((r : Result ℕ ServerFault) → IsErr r → IsErr r) }
        ensures registered { OnPending result (Covers cx.new (λ source. source ≡ sleep_source (interval_delay self.new.ticks))) }
        ensures kept { Keeps cx.old cx.new }
    {
        match self.ticks.poll_tick(cx) {
            Poll::Ready(Ok(_)) => {
                self.go_round();
                cx.yield_now()
            }
            Poll::Ready(Err(error)) => Poll::Ready(Err(ServerFault::Timer(error))),
            Poll::Pending => Poll::Pending,
        }
    }
}

impl<D: Timed> Resumable for Expiry<D> {
    ghost can_go_on = { λ _. tt };

    ghost gives_the_same = { λ _ _ _ given. given };
}
