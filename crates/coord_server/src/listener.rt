//! Where connections come from.
ghost use Rattle.std.specs.Prelude.{◌≡◌, ◌*◌, IfOk, IsSomeAnd};
ghost use Rattle.std.specs.Duration.{as_nanos};

use crate::log::EndLog;
use crate::socket::{Connection, Socket};
use mio::net::TcpListener;
use mio::{Interest, Registry, Token};
use std::io;
use std::net::{Net, SocketAddr, SocketAddrV4, TcpStream};
use std::os::fd::OwnedFd;
use std::sync::Wait;
use std::time::{Clock, Duration};

/// After how many milliseconds the acceptor looks again after a refused accept, as where the process has no descriptor left.
const PAUSE: u64 = 50;

/// Where connections come from, none of which is at an event loop yet.
pub trait Listener: Drop {
    /// A connection that came.
    type Connection: Connection;

    /// Has the registry tell when a connection comes.
    fn register(&mut self, registry: &Registry, token: Token) -> io::Result<()>;

    /// The next connection. `WouldBlock` where none waits.
    fn accept(&mut self) -> io::Result<Self::Connection>;
}

/// What an accept came to.
#[derive(Drop)]
pub enum Accepted<K> {
    One(K),
    /// One went away, or the accept was interrupted: there may be another.
    Again,
    Nothing,
    /// The system refused it.
    Refused,
}

impl<K> Accepted<K> {
    /// What this result of an accept says.
    pub fn of(accepted: io::Result<K>) -> Accepted<K>
        ensures { IfOk accepted (λ connection. result ≡ Accepted.One connection) }
    {
        match accepted {
            Ok(connection) => Accepted::One(connection),
            Err(error) => match error.kind() {
                io::ErrorKind::WouldBlock => Accepted::Nothing,
                io::ErrorKind::Interrupted | io::ErrorKind::ConnectionAborted => Accepted::Again,
                _ => Accepted::Refused,
            },
        }
    }

    /// For how long to wait for the next connection: for a short while after a refused accept, and else until one comes.
    pub fn wait(&self) -> Option<Duration>
        ensures { self.now ≡ Accepted.Refused → IsSomeAnd result (λ wait. as_nanos wait ≡ 50 * 1_000_000) }
    {
        match self {
            Accepted::Refused => Some(Duration::from_millis(PAUSE)),
            Accepted::One(_) | Accepted::Again | Accepted::Nothing => None,
        }
    }
}

/// Listens on an address. As many connections may wait to be accepted as the system allows, which a bind of `std` doesn't ask for.
pub fn listen<R: Net>(rt: &R, address: SocketAddrV4) -> io::Result<std::net::TcpListener> {
    let socket = TcpListener::bind(rt, SocketAddr::V4(address))?;
    Ok(std::net::TcpListener::from(socket))
}

/// A listening socket. What it accepts is at no event loop, so that it may be handed to any thread.
#[derive(Drop)]
pub struct SocketListener<'a, R> {
    listener: TcpListener,
    clock: &'a R,
    log: &'a EndLog,
    /// After how many seconds a connection is closed that brings no byte.
    idle: Option<u64>,
}

impl<'a, R> SocketListener<'a, R> {
    /// A socket that listens, whose connections are closed after `idle` seconds without a byte, where it says any. The log says so.
    pub fn of(
        clock: &'a R,
        socket: std::net::TcpListener,
        idle: Option<u64>,
        log: &'a EndLog,
    ) -> io::Result<SocketListener<'a, R>> {
        socket.set_nonblocking(true)?;
        Ok(SocketListener {
            listener: TcpListener::from_std(socket),
            clock,
            log,
            idle,
        })
    }
}

impl<'a, R: Clock + Wait> Listener for SocketListener<'a, R> {
    type Connection = Socket<'a, R>;

    fn register(&mut self, registry: &Registry, token: Token) -> io::Result<()> {
        registry.register(&mut self.listener, token, Interest::READABLE)
    }

    fn accept(&mut self) -> io::Result<Socket<'a, R>> {
        let (stream, _) = self.listener.accept()?;
        Ok(Socket {
            stream: TcpStream::from(OwnedFd::from(stream)),
            clock: self.clock,
            log: self.log,
            idle: self.idle,
        })
    }
}
