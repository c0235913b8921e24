//! Who accepts the connections, and numbers them.
ghost use Rattle.std.specs.Prelude.{◌≡◌, ◌+◌, ◌<◌, ◌≤◌, vec_len, IfOk, OnOk};
ghost use Rattle.coord_server.specs.Senders.{AreSenders};

use crate::channel::{AssignedConnection, WorkerSender};
use crate::fault::ServerFault;
use crate::listener::{Accepted, Listener};
use crate::poller::{AcceptorWaker, Poller};
use std::sync::Wait;

/// Numbers the connections from 1, and sends connection `k`, of `n` workers, to the worker with number `k` modulo `n`.
#[derive(Drop)]
pub struct Acceptor<'a, L: Listener> {
    poller: Poller,
    listener: L,
    senders: Vec<WorkerSender<L::Connection>>,
    /// How many connections have come.
    accepted: u64,
    /// How many may come.
    most: u64,
    waker: &'a AcceptorWaker,
    ghost some: { 0 < vec_len senders },
    ghost few: { accepted ≤ most },
    ghost placed: { AreSenders (vec_len senders) senders.items },
}

impl<'a, L: Listener> Acceptor<'a, L> {
    /// An acceptor before the first connection, whose waker is that of its poller.
    pub fn new(
        poller: Poller,
        listener: L,
        senders: Vec<WorkerSender<L::Connection>>,
        most: u64,
        waker: &'a AcceptorWaker,
    ) -> Acceptor<'a, L>
        requires some { 0 < vec_len senders }
        requires placed { AreSenders (vec_len senders) senders.items }
        ensures { (result.senders ≡ senders) × (result.accepted ≡ 0) × (result.most ≡ most) }
    {
        Acceptor {
            poller,
            listener,
            senders,
            accepted: 0,
            most,
            waker,
        }
    }

    /// Takes `most` connections, and then no more: the workers learn of it. Waits until they all have ended. Gives how many it took.
    ///
    /// It stops, with a fault, where a thread has ended with a fault, and where the system refuses to wait.
    pub fn run<R: Wait>(self, rt: &R) -> Result<u64, ServerFault>
        ensures { IfOk result (λ accepted. accepted ≡ self.entry.most) }
    {
        let mut acceptor = self;
        acceptor.accept_all(rt)?;
        let Acceptor {
            poller,
            listener,
            senders,
            accepted,
            most: _,
            waker,
        } = acceptor;
        let workers = senders.len();
        drop(listener);
        drop(senders);
        wait_for_workers(rt, poller, waker, workers)?;
        Ok(accepted)
    }

    /// Takes connections until `most` have come.
    fn accept_all<R: Wait>(&mut self, rt: &R) -> Result<(), ServerFault>
        ensures all { OnOk result (self.new.accepted ≡ self.old.most) }
        ensures most { self.new.most ≡ self.old.most }
    {
        for _ in rt.forever() {
            if self.accepted >= self.most {
                return Ok(());
            }
            if self.waker.has_failed() {
                return Err(ServerFault::Stopped);
            }
            match Accepted::of(self.listener.accept()) {
                Accepted::One(connection) => self.hand_out(connection),
                Accepted::Again => {}
                other => self.poller.wait(other.wait())?,
            }
        }
        unreachable!()
    }

    /// Sends the next connection, whose number is one above the last, to its worker.
    fn hand_out(&mut self, connection: L::Connection)
        requires { self.old.accepted < self.old.most }
        ensures counted { self.new.accepted ≡ self.old.accepted + 1 }
        ensures others { (self.new.senders ≡ self.old.senders) × (self.new.most ≡ self.old.most) }
    {
        self.accepted += 1;
        let assigned = AssignedConnection::new(connection, self.accepted, self.senders.len());
        self.senders[assigned.worker].send(assigned);
    }
}

/// Waits until `workers` workers have ended.
fn wait_for_workers<R: Wait>(
    rt: &R,
    poller: Poller,
    waker: &AcceptorWaker,
    workers: usize,
) -> Result<(), ServerFault> {
    let mut poller = poller;
    for _ in rt.forever() {
        if waker.has_failed() {
            return Err(ServerFault::Stopped);
        }
        if waker.ended() >= workers as u64 {
            return Ok(());
        }
        poller.wait(None)?;
    }
    unreachable!()
}
