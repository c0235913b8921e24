//! The server: connections over sockets, or over anything else that is read and written, whose frames desks answer.
//!
//! An acceptor numbers the connections and sends them to the workers in turn; a worker gives each of its lines its turns,
//! over a desk of its own, as one that calls the shards from a seat; an expiry worker lets the time of the shards go on. Each worker has
//! a thread and an event loop of its own, and the acceptor has the calling thread. Start from [`Server::run`], and from
//! [`Server::serve_sockets`] for a listening socket.
#![tactic(auto)]

mod acceptor;
mod channel;
mod clock;
mod desk;
mod desks;
mod event_loop;
mod event_loops;
mod expiry;
mod fault;
mod listener;
mod log;
mod new_shards;
mod plan;
mod poller;
mod reason;
mod runtime;
mod server;
mod silence;
mod socket;
mod worker_task;

pub use acceptor::Acceptor;
pub use channel::{AssignedConnection, WorkerSender, worker_of};
pub use clock::ClockMoments;
pub use coord_shards::{AlwaysOpen, Answered, Gate, Image, Moment, ShardFault, Shards, Stamp};
pub use desk::ShardsDesk;
pub use desks::{Desks, ShardsDesks};
pub use event_loop::{EventLoop, Resumable};
pub use event_loops::{Announce, EventLoops};
pub use expiry::{Expiry, Timed};
pub use fault::ServerFault;
pub use flex_wire::WireFault;
pub use futures::channel::mpsc::UnboundedSender;
pub use futures::future::{Abortable, Aborted};
pub use futures::task::{Context, Poll};
pub use futures::{Future, Stream};
pub use kip_msgs::Api;
pub use link_futures::{Counted, Desk, End, Line, Moments, Part, ReadPart, WriteParts};
pub use listener::{Accepted, Listener, SocketListener, listen};
pub use log::{EndLog, LogQueue};
pub use mio::{Registry, Token, Waker};
pub use new_shards::NewShards;
pub use plan::Plan;
pub use poller::{AcceptorWaker, Poller};
pub use reason::{Reason, reason_of};
pub use runtime::{LoopRuntime, Runtime};
pub use server::Server;
pub use silence::Silence;
pub use socket::{
    Connection, Limited, ReadAtOnce, Retried, Socket, SocketReader, SocketWriter, WriteAtOnce,
};
pub use tokio::io::{AsyncRead, AsyncWrite};
pub use tokio::net::{OwnedReadHalf, OwnedWriteHalf};
pub use tokio::runtime::{Handle, LocalRuntime};
pub use tokio::time::error::Error as TimerError;
pub use tokio::time::{Handle as Timers, Interval};
pub use worker_task::{IncomingLines, WorkerTask};
