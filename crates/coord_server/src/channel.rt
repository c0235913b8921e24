//! The channels by which connections go from the acceptor to the workers.
ghost use Rattle.std.specs.Prelude.{◌≡◌, ◌%◌, ◌<◌};

use futures::channel::mpsc::UnboundedSender;

/// The number of the worker, of `workers`, that a connection goes to.
pub fn worker_of(connection: u64, workers: usize) -> usize
    requires { 0 < workers }
    ensures worker { result ≡ connection % workers }
    ensures there { result < workers }
{
    (connection % workers as u64) as usize
}

/// A connection with its number, and the number of its worker, of `workers`.
#[derive(Drop)]
pub struct AssignedConnection<K> {
    pub connection: K,
    pub number: u64,
    pub worker: usize,
    pub workers: usize,
    pub ghost some: { 0 < workers },
    pub ghost place: { worker ≡ number % workers },
}

impl<K> AssignedConnection<K> {
    /// The connection with this number, for its worker, of `workers`.
    pub fn new(connection: K, number: u64, workers: usize) -> AssignedConnection<K>
        requires { 0 < workers }
        ensures given { (result.connection ≡ connection) × (result.number ≡ number) × (result.workers ≡ workers) }
        ensures worker { result.worker ≡ number % workers }
        ensures there { result.worker < workers }
    {
        AssignedConnection {
            connection,
            number,
            worker: worker_of(number, workers),
            workers,
        }
    }
}

/// The sender of the channel to the worker with the number `worker`, of `workers`.
#[derive(Drop)]
pub struct WorkerSender<K: Drop> {
    pub sender: UnboundedSender<AssignedConnection<K>>,
    pub worker: usize,
    pub workers: usize,
}

impl<K: Drop> WorkerSender<K> {
    /// Sends a connection to the worker, whose it is. Where memory is short, or the worker has ended, the connection is closed.
    pub fn send(&self, assigned: AssignedConnection<K>)
        requires worker { assigned.worker ≡ self.now.worker }
        requires workers { assigned.workers ≡ self.now.workers }
    {
        let _ = self.sender.unbounded_send(assigned);
    }
}
