//! A future with a thread and an event loop of its own.
ghost use Rattle.std.specs.Prelude.{IfOk, IfSome, Ok};
ghost use Rattle.coord_server.specs.Ends.{EndsAs};
ghost use Rattle.coord_server.specs.Resumes.{on_each};

use crate::fault::ServerFault;
use crate::poller::AcceptorWaker;
use crate::runtime::LoopRuntime;
use futures::Future;
use futures::future::{Abortable, Aborted};
use std::snapshot::Snapshot;
use std::thread::Promise;
use std::time::{Clock, Duration, Instant};
use std::{io, thread};
use tokio::runtime::LocalRuntime;

/// For how many milliseconds a loop that lacks memory rests before it goes on.
const PAUSE: u64 = 50;

/// How often in a row it goes on before it fails: for some ten seconds.
const MOST_TRIES: u64 = 200;

/// A loop that has run for so many seconds since it went on doesn't fail in a row.
const LONG_RUN: u64 = 1;

/// What a worker or an expiry worker ends with: how many connections have ended, or its fault.
pub type Ended = Result<u64, ServerFault>;

/// What a future with a loop of its own gives: what it ends with, unless it was told to stop.
pub type Outcome = Result<Ended, Aborted>;

/// A future that may be run on after its loop has failed: in whatever state that left it, it can be polled, and what it may give is the
/// same.
pub trait Resumable: Future {
    ghost can_go_on: { (state : Self) → Self.can_poll state };

    ghost gives_the_same: { (state other : Self) (output : Self.Output) → Self.gives state output → Self.gives other output };
}

impl<A: Resumable> Resumable for Abortable<A> {
    ghost can_go_on = { λ state. A.can_go_on state.task };

    ghost gives_the_same = { λ state other output given. on_each (A.gives state.task) (A.gives other.task) output (A.gives_the_same state.task other.task) given };
}

/// An event loop, the future that it is to run, and the waker that is told of the future's end.
#[derive(Drop)]
pub struct EventLoop<'a, B> {
    pub runtime: LocalRuntime,
    pub future: B,
    pub waker: &'a AcceptorWaker,
}

/// That what a thread ends with is what its future gives.
#[derive(Drop)]
pub struct Gives<B>(pub Snapshot<B>);

impl<B: Future<Output = Ended>> Promise<Result<Option<u64>, ServerFault>> for Gives<B> {
    ghost kept_by = { λ p r. IfOk r (λ ended. IfSome ended (λ n. B.gives p.0.value (Ok n))) };
}

impl<'a, B: Resumable<Output = Outcome> + Drop> EventLoop<'a, B> {
    /// Runs the future on this thread until it is ready, and tells the waker. Gives what the future gives, or none where it was told
    /// to stop.
    pub fn run<R: LoopRuntime>(self, rt: &R) -> Result<Option<u64>, ServerFault>
        ensures { IfOk result (λ ended. IfSome ended (λ n. B.gives self.entry.future (Ok (Ok n)))) }
    {
        let EventLoop {
            mut runtime,
            mut future,
            waker,
        } = self;
        let ended = end_of(run_on(rt, &mut runtime, &mut future));
        drop(future);
        drop(runtime);
        waker.tell_end(ended.is_err());
        ended
    }
}

/// What a loop has come to: the number of its connections, none where it was told to stop, or why it has failed.
fn end_of(ran: io::Result<Outcome>) -> Result<Option<u64>, ServerFault>
    ensures { EndsAs ran result }
{
    match ran {
        Ok(Ok(Ok(ended))) => Ok(Some(ended)),
        Ok(Ok(Err(fault))) => Err(fault),
        Ok(Err(_)) => Ok(None),
        Err(error) => Err(ServerFault::Loop(error)),
    }
}

/// Runs a future on a loop until it is ready. Where memory is short the loop goes on after a pause, and fails only where that doesn't help.
fn run_on<R, B>(rt: &R, runtime: &mut LocalRuntime, future: &mut B) -> io::Result<B::Output>
where
    R: LoopRuntime,
    B: Resumable,
    ensures { (state : B) → IfOk result (B.gives state) }
{
    let mut tries = 0_u64;
    for _ in rt.forever() {
        let began = Instant::now(rt).ok();
        let error = match run_once(rt, runtime, future) {
            Ok(output) => return Ok(output),
            Err(error) => error,
        };
        let before = if was_long(rt, began) { 0 } else { tries };
        tries = before.saturating_add(1);
        if error.kind() != io::ErrorKind::OutOfMemory || tries == MOST_TRIES {
            return Err(error);
        }
        thread::sleep(rt, Duration::from_millis(PAUSE));
    }
    unreachable!()
}

/// Runs a future on a loop until it is ready, or the loop fails.
fn run_once<R, B>(rt: &R, runtime: &mut LocalRuntime, future: &mut B) -> io::Result<B::Output>
where
    R: LoopRuntime,
    B: Resumable,
    ensures { (state : B) → IfOk result (B.gives state) }
{
    runtime.block_on(rt, future)
}

/// Whether more than a second has passed since then.
fn was_long(clock: &impl Clock, began: Option<Instant>) -> bool {
    let Some(began) = began else {
        return false;
    };
    match began.elapsed(clock) {
        Ok(elapsed) => elapsed > Duration::from_secs(LONG_RUN),
        Err(_) => false,
    }
}
