//! A server from its start to its end.
ghost use Rattle.std.specs.Prelude.{◌≡◌, ◌+◌, [], vec_len, IfOk, OnOk};
ghost use Rattle.coord_server.specs.Plans.{IsPlanned, expiry_worker_count};
ghost use Rattle.coord_server.specs.Senders.{AreSenders};

use crate::acceptor::Acceptor;
use crate::channel::WorkerSender;
use crate::desks::Desks;
use crate::event_loop::EventLoop;
use crate::event_loops::{Announce, EventLoops, run_beside};
use crate::expiry::{Expiry, ticks_of};
use crate::fault::ServerFault;
use crate::listener::{Listener, SocketListener};
use crate::log::EndLog;
use crate::plan::Plan;
use crate::poller::{AcceptorWaker, Poller};
use crate::runtime::Runtime;
use crate::socket::Connection;
use crate::worker_task::{IncomingLines, WorkerTask};
use std::net::TcpListener;
use tokio::runtime::LocalRuntime;

/// A server whose workers have these desks.
#[derive(Drop)]
pub struct Server<'a, D, R> {
    pub rt: &'a R,
    pub desks: &'a D,
    pub plan: Plan,
    /// Where it is noted that a socket is closed for its silence.
    pub log: &'a EndLog,
}

/// The event loop of a worker over the connections `K`, with the desk `D`.
type WorkerLoop<'w, K, D> = EventLoop<'w, WorkerTask<K, D>>;

/// Those of the workers, and those of the expiry workers, with the desk `E`.
type Loops<'w, K, D, E> = EventLoops<'w, WorkerTask<K, D>, Expiry<E>>;

impl<'a, D: Desks, R: Runtime + Sync> Server<'a, D, R> {
    /// Serves the connections of a listening socket, as [`Server::run`] does.
    pub fn serve_sockets<N: Announce>(
        &self,
        socket: TcpListener,
        announce: N,
    ) -> Result<u64, ServerFault>
        ensures { IfOk result (λ served. served ≡ self.now.plan.connections) }
    {
        let listener = SocketListener::of(self.rt, socket, self.plan.idle, self.log)?;
        self.run(listener, announce)
    }

    /// Serves the connections of a listener until as many have ended as the plan says. Gives their number.
    ///
    /// It announces that it serves once all its threads are there.
    pub fn run<L, N>(&self, listener: L, announce: N) -> Result<u64, ServerFault>
    where
        L: Listener,
        N: Announce,
        L::Connection: Send,
        <L::Connection as Connection>::Reader: Send,
        <L::Connection as Connection>::Writer: Send,
        ensures { IfOk result (λ served. served ≡ self.now.plan.connections) }
    {
        let mut listener = listener;
        let poller = Poller::new(self.rt, &mut listener)?;
        let waker = poller.waker()?;
        let (senders, loops) = self.event_loops::<L::Connection>(&waker)?;
        let acceptor = Acceptor::new(poller, listener, senders, self.plan.connections, &waker);
        run_beside(self.rt, self.plan, loops, acceptor, announce)
    }

    /// The senders to the workers, and the event loops of the workers and of the expiry workers.
    fn event_loops<'w, K: Connection>(
        &self,
        waker: &'w AcceptorWaker,
    ) -> Result<
        (
            Vec<WorkerSender<K>>,
            Loops<'w, K, D::WorkerDesk, D::ExpiryDesk>,
        ),
        ServerFault,
    >
        ensures senders { IfOk result (λ made. vec_len made.0 ≡ self.now.plan.workers) }
        ensures placed { IfOk result (λ made. AreSenders self.now.plan.workers made.0.items) }
        ensures all { IfOk result (λ made. IsPlanned self.now.plan (vec_len made.1.workers) (vec_len made.1.expiry)) }
    {
        let mut senders = Vec::new(self.rt.alloc());
        let workers = self.worker_loops(&mut senders, waker)?;
        let expiry = self.expiry_loops(waker)?;
        Ok((senders, EventLoops { workers, expiry }))
    }

    /// The event loops of the workers. The senders to them are put where there is none yet.
    fn worker_loops<'w, K: Connection>(
        &self,
        senders: &mut Vec<WorkerSender<K>>,
        waker: &'w AcceptorWaker,
    ) -> Result<Vec<WorkerLoop<'w, K, D::WorkerDesk>>, ServerFault>
        requires { senders.old.items ≡ [] }
        ensures senders { OnOk result (vec_len senders.new ≡ self.now.plan.workers) }
        ensures placed { OnOk result (AreSenders self.now.plan.workers senders.new.items) }
        ensures workers { IfOk result (λ workers. vec_len workers ≡ self.now.plan.workers) }
    {
        let mut workers = Vec::new(self.rt.alloc());
        for _ in 0..self.plan.workers {
            let worker = self.worker_loop(senders, waker)?;
            workers.push(worker)?;
        }
        Ok(workers)
    }

    /// The event loop of the worker that follows those that `senders` send to. The sender to it is put behind theirs.
    fn worker_loop<'w, K: Connection>(
        &self,
        senders: &mut Vec<WorkerSender<K>>,
        waker: &'w AcceptorWaker,
    ) -> Result<WorkerLoop<'w, K, D::WorkerDesk>, ServerFault>
        ensures more { OnOk result (vec_len senders.new ≡ vec_len senders.old + 1) }
        ensures placed { AreSenders self.now.plan.workers senders.old.items → OnOk result (AreSenders self.now.plan.workers senders.new.items) }
    {
        let desk = self.desks.desk_of(senders.len())?;
        let runtime = LocalRuntime::new(self.rt)?;
        match IncomingLines::new(self.rt, runtime.handle(), senders, self.plan.workers) {
            Ok(lines) => Ok(EventLoop {
                runtime,
                future: WorkerTask::new(self.rt.alloc(), lines, desk),
                waker,
            }),
            Err(fault) => {
                drop(runtime);
                Err(fault)
            }
        }
    }

    /// The event loops of the expiry workers.
    fn expiry_loops<'w>(
        &self,
        waker: &'w AcceptorWaker,
    ) -> Result<Vec<EventLoop<'w, Expiry<D::ExpiryDesk>>>, ServerFault>
        ensures { IfOk result (λ expiry. vec_len expiry ≡ expiry_worker_count self.now.plan.expires) }
    {
        let mut expiry = Vec::new(self.rt.alloc());
        for _ in 0..self.plan.expiry_workers() {
            let event_loop = self.expiry_loop(waker)?;
            expiry.push(event_loop)?;
        }
        Ok(expiry)
    }

    /// The event loop of an expiry worker.
    fn expiry_loop<'w>(
        &self,
        waker: &'w AcceptorWaker,
    ) -> Result<EventLoop<'w, Expiry<D::ExpiryDesk>>, ServerFault> {
        let desk = self.desks.expiry()?;
        let runtime = LocalRuntime::new(self.rt)?;
        match ticks_of(self.rt, runtime.handle().time()) {
            Ok(ticks) => Ok(EventLoop {
                runtime,
                future: Expiry::new(desk, ticks),
                waker,
            }),
            Err(error) => {
                drop(runtime);
                Err(error.into())
            }
        }
    }
}
