//! The event loops of a server, on threads of their own.
ghost use Rattle.std.specs.Prelude.{◌≡◌, ◌<◌, ℕ, Ok, vec_len, map, slice_index_or, IfOk, IfSome, IsOk, OnOk, All};
ghost use Rattle.coord_server.specs.Plans.{IsPlanned};

use crate::acceptor::Acceptor;
use crate::event_loop::{Ended, EventLoop, Gives, Resumable};
use crate::fault::ServerFault;
use crate::listener::Listener;
use crate::plan::Plan;
use crate::runtime::LoopRuntime;
use futures::Future;
use futures::future::{AbortHandle, Abortable, abortable};
use std::alloc::Global;
use std::snapshot::Snapshot;
use std::thread::{PromisedHandle, Scope, SpawnError, Threads};
use std::{io, thread};

/// Who is told that a server serves.
pub trait Announce: Drop {
    /// Says that the server serves. It is called once all threads of the server are there.
    fn announce(self) -> io::Result<()>;
}

/// The event loops of the workers and of the expiry workers, before their threads are there.
#[derive(Drop)]
pub struct EventLoops<'a, B, E> {
    pub workers: Vec<EventLoop<'a, B>>,
    pub expiry: Vec<EventLoop<'a, E>>,
}

/// What stops futures: once these are gone, each of them ends at its next poll.
struct AbortHandles(Vec<AbortHandle>);

impl AbortHandles {
    /// The same future, which is stopped once these are gone.
    fn stoppable<B: Future>(
        &mut self,
        alloc: Global,
        future: B,
    ) -> Result<Abortable<B>, ServerFault>
        ensures { IfOk result (λ made. made.task ≡ future) }
    {
        let (future, handle) = abortable(alloc, future)?;
        self.0.push(handle)?;
        Ok(future)
    }

    /// The same future and loop, and it is stopped once these are gone.
    fn stoppable_loop<'a, B: Future>(
        &mut self,
        alloc: Global,
        event_loop: EventLoop<'a, B>,
    ) -> Result<EventLoop<'a, Abortable<B>>, ServerFault>
        ensures { IfOk result (λ made. made.future.task ≡ event_loop.entry.future) }
    {
        let EventLoop {
            runtime,
            future,
            waker,
        } = event_loop;
        match self.stoppable(alloc, future) {
            Ok(future) => Ok(EventLoop {
                runtime,
                future,
                waker,
            }),
            Err(fault) => {
                drop(runtime);
                Err(fault)
            }
        }
    }
}

impl Drop for AbortHandles {
    fn drop(self) {
        let AbortHandles(handles) = self;
        for handle in &handles {
            handle.abort();
        }
    }
}

/// A thread that runs a future on a loop of its own, until it is stopped.
type Thread<B> = PromisedHandle<Result<Option<u64>, ServerFault>, Gives<B>>;

/// The threads of a server, and what stops them.
#[derive(Drop)]
struct RunningLoops<B: Future<Output = Ended>, E: Future<Output = Ended>> {
    workers: Vec<Thread<B>>,
    expiry: Vec<Thread<E>>,
    handles: AbortHandles,
}

/// Runs each of the loops on a thread of its own. Once all threads are there this is announced, and then the acceptor runs on the
/// calling thread. Once it has ended all threads are stopped.
///
/// Gives how many connections came.
pub fn run_beside<'a, R, B, E, L, N>(
    rt: &R,
    plan: Plan,
    loops: EventLoops<'a, B, E>,
    acceptor: Acceptor<'a, L>,
    announce: N,
) -> Result<u64, ServerFault>
where
    R: LoopRuntime + Threads + Sync,
    B: Resumable<Output = Ended> + Send,
    E: Resumable<Output = Ended> + Send,
    L: Listener,
    N: Announce,
    requires { IsPlanned plan (vec_len loops.workers) (vec_len loops.expiry) }
    ensures { IfOk result (λ accepted. accepted ≡ acceptor.entry.most) }
{
    thread::scope(
        thread::scope_env(),
        rt,
        move |scope| -> Result<u64, ServerFault>
            requires { IsPlanned plan (vec_len loops.workers) (vec_len loops.expiry) }
            ensures { IfOk result (λ accepted. accepted ≡ acceptor.entry.most) }
        { run_in(rt, scope, plan, loops, acceptor, announce) },
    )
}

/// The same, on threads of a scope.
fn run_in<'s, 'a: 's, V, R, B, E, L, N>(
    rt: &'s R,
    scope: &Scope<'s, V>,
    plan: Plan,
    loops: EventLoops<'a, B, E>,
    acceptor: Acceptor<'a, L>,
    announce: N,
) -> Result<u64, ServerFault>
where
    R: LoopRuntime + Threads + Sync,
    B: Resumable<Output = Ended> + Send + 's,
    E: Resumable<Output = Ended> + Send + 's,
    L: Listener,
    N: Announce,
    requires { IsPlanned plan (vec_len loops.workers) (vec_len loops.expiry) }
    ensures { IfOk result (λ accepted. accepted ≡ acceptor.entry.most) }
{
    let running = start_loops(rt, scope, loops)?;
    let accepted = match running.announce(plan, announce) {
        Ok(()) => acceptor.run(rt),
        Err(fault) => Err(fault),
    };
    running.stop(rt)?;
    accepted
}

impl<B, E> RunningLoops<B, E>
where
    B: Future<Output = Ended>,
    E: Future<Output = Ended>,
{
    /// Announces that all threads are there.
    fn announce<N: Announce>(&self, plan: Plan, announce: N) -> Result<(), ServerFault>
        requires { IsPlanned plan (vec_len self.now.workers) (vec_len self.now.expiry) }
    {
        match announce.announce() {
            Ok(()) => Ok(()),
            Err(error) => Err(ServerFault::Announce(error)),
        }
    }

    /// Stops all threads, and waits until they have ended. Fails with the first fault of one.
    fn stop<R: Threads>(self, rt: &R) -> Result<(), ServerFault> {
        let RunningLoops {
            workers,
            expiry,
            handles,
        } = self;
        drop(handles);
        find_fault(join_all(rt, workers)?)?;
        find_fault(join_all(rt, expiry)?)
    }
}

/// A thread of a scope for each worker and each expiry worker.
fn start_loops<'s, 'a: 's, V, R, B, E>(
    rt: &'s R,
    scope: &Scope<'s, V>,
    loops: EventLoops<'a, B, E>,
) -> Result<RunningLoops<B, E>, ServerFault>
where
    R: LoopRuntime + Sync,
    B: Resumable<Output = Ended> + Send + 's,
    E: Resumable<Output = Ended> + Send + 's,
    ensures workers { IfOk result (λ running. vec_len running.workers ≡ vec_len loops.entry.workers) }
    ensures expiry { IfOk result (λ running. vec_len running.expiry ≡ vec_len loops.entry.expiry) }
{
    let EventLoops { workers, expiry } = loops;
    let mut handles = AbortHandles(Vec::new(rt.alloc()));
    let workers = start_all(rt, scope, workers, &mut handles)?;
    let expiry = start_all(rt, scope, expiry, &mut handles)?;
    Ok(RunningLoops {
        workers,
        expiry,
        handles,
    })
}

/// A thread of a scope for each future.
fn start_all<'s, 'a: 's, V, R, B>(
    rt: &'s R,
    scope: &Scope<'s, V>,
    loops: Vec<EventLoop<'a, B>>,
    handles: &mut AbortHandles,
) -> Result<Vec<Thread<B>>, ServerFault>
where
    R: LoopRuntime + Sync,
    B: Resumable<Output = Ended> + Send + 's,
    ensures each { IfOk result (λ threads. map (λ thread. thread.promise.0.value) threads.items ≡ map (λ event_loop. event_loop.future) loops.entry.items) }
    ensures len { IfOk result (λ threads. vec_len threads ≡ vec_len loops.entry) }
{
    let mut threads = Vec::new(rt.alloc());
    for event_loop in loops {
        let thread = start(rt, scope, event_loop, handles)?;
        threads.push(thread)?;
    }
    Ok(threads)
}

/// A thread of a scope for a future.
fn start<'s, 'a: 's, V, R, B>(
    rt: &'s R,
    scope: &Scope<'s, V>,
    event_loop: EventLoop<'a, B>,
    handles: &mut AbortHandles,
) -> Result<Thread<B>, ServerFault>
where
    R: LoopRuntime + Sync,
    B: Resumable<Output = Ended> + Send + 's,
    ensures { IfOk result (λ thread. thread.promise.0.value ≡ event_loop.entry.future) }
{
    let promise = Gives(Snapshot::of(&event_loop.future));
    let event_loop = handles.stoppable_loop(rt.alloc(), event_loop)?;
    spawn(rt, scope, promise, event_loop)
}

/// A thread of a scope that runs a future on its loop, and keeps the promise.
fn spawn<'s, 'a: 's, V, R, B>(
    rt: &'s R,
    scope: &Scope<'s, V>,
    promise: Gives<B>,
    event_loop: EventLoop<'a, Abortable<B>>,
) -> Result<Thread<B>, ServerFault>
where
    R: LoopRuntime + Sync,
    B: Resumable<Output = Ended> + Send + 's,
    requires { event_loop.future.task ≡ promise.0.value }
    ensures { IfOk result (λ thread. thread.promise ≡ promise) }
{
    made(scope.spawn_with(promise, move || event_loop.run(rt)))
}

/// A thread that was made, or the fault that none can be made.
fn made<T, F: Drop>(thread: Result<T, SpawnError<F>>) -> Result<T, ServerFault>
    ensures { IfOk result (λ made. thread ≡ Ok made) }
{
    match thread {
        Ok(thread) => Ok(thread),
        Err(_) => Err(ServerFault::NoThread),
    }
}

/// What the futures of threads gave, in their order.
fn join_all<R, B>(
    rt: &R,
    threads: Vec<Thread<B>>,
) -> Result<Vec<Result<Option<u64>, ServerFault>>, ServerFault>
where
    R: Threads,
    B: Future<Output = Ended>,
    ensures each { IfOk result (λ given. (i : ℕ) (x : _) (b : B) → i < vec_len threads
        → IfOk (slice_index_or given.items i x) (λ ended. IfSome ended (λ n. B.gives (slice_index_or (map (λ thread. thread.promise.0.value) threads.items) i b) (Ok n)))) }
    ensures len { IfOk result (λ given. vec_len given ≡ vec_len threads) }
{
    Ok(thread::join_promised(rt, threads)?)
}

/// Fails with the first fault of threads.
fn find_fault(given: Vec<Result<Option<u64>, ServerFault>>) -> Result<(), ServerFault>
    ensures { OnOk result (All IsOk given.items) }
{
    for ended in given {
        ended?;
    }
    Ok(())
}
