//! `coord serve`: the server over sockets of this machine.
ghost use Rattle.std.specs.Prelude.{◌≡◌, ◌+◌, ◌*◌, ◌≤◌, ◌<◌, true, IfOk};

use coord_server::{
    Announce, ClockMoments, EndLog, NewShards, Plan, Runtime, Server, ServerFault, ShardsDesks,
    listen,
};
use scenario_text::service::Service;
use std::alloc::AllocGlobal;
use std::collections::hash_map::RandomState;
use std::io;
use std::io::Write;
use std::marker::Brand;
use std::net::{Ipv4Addr, SocketAddrV4, TcpListener};
use std::sync::ledger::Ledger;
use thiserror::Error;

/// Why `coord serve` ends before its connections have.
#[derive(Debug, Drop, Error)]
pub enum ServeFault {
    #[error("drawing random keys: {0}")]
    Keys(io::Error),
    #[error("listening on 127.0.0.1:{0}: {1}")]
    Port(u16, io::Error),
    #[error("reading the clock: {0}")]
    Clock(io::Error),
    #[error("writing the output: {0}")]
    Write(io::Error),
    #[error("serving: {0}")]
    Server(ServerFault),
}

/// What is served by: the system, the service that is asked for, and where the ends of connections are noted.
#[derive(Drop)]
struct Setting<'a, R> {
    rt: &'a R,
    service: &'a Service,
    log: &'a EndLog,
}

/// Serves as it is asked to, over sockets of this machine. What is printed goes to the writer. A fault is written to `errors`, and so are
/// the ends of connections, where that is asked for. Gives the program's status: 0 once the connections have ended, 1 after a fault (ours).
pub fn serve<R, W, E>(rt: &R, service: Service, writer: &mut W, errors: E) -> u8
where
    R: Runtime + Copy + Send + Sync + 'static,
    W: Write,
    E: Write + Copy + Send + 'static,
    ensures { result ≤ 1 }
{
    let log = match EndLog::start_if(service.logs, rt, errors) {
        Ok(log) => log,
        Err(fault) => return status_of(errors, Err(ServeFault::from(fault)), true),
    };
    let setting = Setting {
        rt,
        service: &service,
        log: &log,
    };
    let ended = serve_port(&setting, writer);
    let is_written = log.close(rt);
    status_of(errors, ended, is_written)
}

/// The program's status. A fault is written, unless the log's last lines can't be: then nobody reads there.
fn status_of<E: Write + Drop>(mut errors: E, ended: Result<(), ServeFault>, is_read: bool) -> u8
    ensures { result ≤ 1 }
{
    match ended {
        Ok(()) => 0,
        Err(fault) => {
            if is_read {
                let _ = writeln!(errors, "{fault}");
            }
            1
        }
    }
}

/// Listens on a port of 127.0.0.1, and serves there.
fn serve_port<R, W: Write>(setting: &Setting<'_, R>, writer: &mut W) -> Result<(), ServeFault>
where
    R: Runtime + Sync,
{
    let keys = RandomState::new(setting.rt).map_err(ServeFault::Keys)?;
    let port = setting.service.port;
    let socket = match listen(setting.rt, SocketAddrV4::new(Ipv4Addr::LOCALHOST, port)) {
        Ok(socket) => socket,
        Err(error) => return Err(ServeFault::Port(port, error)),
    };
    match ClockMoments::start(setting.rt) {
        Ok(moments) => serve_listening(setting, keys, socket, &moments, writer),
        Err(error) => Err(ServeFault::Clock(error)),
    }
}

/// Prints that the server listens once it serves, serves the connections of a socket, and prints how many there were.
fn serve_listening<R, W: Write>(
    setting: &Setting<'_, R>,
    keys: RandomState,
    socket: TcpListener,
    moments: &ClockMoments<'_, R>,
    writer: &mut W,
) -> Result<(), ServeFault>
where
    R: Runtime + Sync,
{
    let listening = Listening {
        writer: &mut *writer,
        port: setting.service.port,
    };
    let served = serve_socket(setting, keys, socket, moments, listening)?;
    Ok(print(writer, "served", served)?)
}

/// Serves the connections of a socket over new shards, whose salt is the first moment. Gives their number.
fn serve_socket<R, N>(
    setting: &Setting<'_, R>,
    keys: RandomState,
    socket: TcpListener,
    moments: &ClockMoments<'_, R>,
    announce: N,
) -> Result<u64, ServerFault>
where
    R: Runtime + Sync,
    N: Announce,
    ensures { IfOk result (λ served. served ≡ setting.now.service.now.connections) }
{
    let new_shards = NewShards::new(setting.service.shards, moments.first().millis(), keys);
    serve_over::<Brand, Brand, R, _>(setting, new_shards, socket, moments, announce)
}

/// Serves the connections of a socket over new shards, which it gives their topics. Gives their number.
fn serve_over<A, C, R, N>(
    setting: &Setting<'_, R>,
    new_shards: NewShards,
    socket: TcpListener,
    moments: &ClockMoments<'_, R>,
    announce: N,
) -> Result<u64, ServerFault>
where
    A: Ledger + Send + Sync,
    C: Ledger + Send + Sync,
    R: Runtime + Sync,
    N: Announce,
    requires shards { new_shards.shards ≡ setting.now.service.now.shards }
    requires entries { (new_shards.entries.name ≡ A.name) × (new_shards.entries.parts ≡ A.parts) × (new_shards.entries.parts ≡ 2 * new_shards.shards) }
    requires calls { (new_shards.calls.name ≡ C.name) × (new_shards.calls.parts ≡ C.parts) × (new_shards.calls.parts ≡ 256 + new_shards.shards) }
    ensures { IfOk result (λ served. served ≡ setting.now.service.now.connections) }
{
    let shards = new_shards.open::<A, C>(setting.rt.alloc())?;
    let desks = ShardsDesks {
        rt: setting.rt,
        shards: &shards,
        moments,
        log: setting.log,
    };
    desks.set_image(&setting.service.image)?;
    let server = Server {
        rt: setting.rt,
        desks: &desks,
        plan: plan_of(setting.service),
        log: setting.log,
    };
    server.serve_sockets(socket, announce)
}

/// How large the server is: as many workers and connections as are asked for, and an expiry worker; and after what silence a connection
/// is closed.
fn plan_of(service: &Service) -> Plan
    ensures workers { result.workers ≡ service.now.workers }
    ensures connections { result.connections ≡ service.now.connections }
    ensures expires { result.expires ≡ true }
    ensures idle { result.idle ≡ service.now.idle }
{
    Plan {
        workers: service.workers,
        connections: service.connections,
        expires: true,
        idle: service.idle,
    }
}

/// Prints that the server listens on a port.
#[derive(Drop)]
struct Listening<'a, W> {
    writer: &'a mut W,
    port: u16,
}

impl<'a, W: Write> Announce for Listening<'a, W> {
    fn announce(self) -> io::Result<()> {
        let Listening { writer, port } = self;
        print(writer, "listening", u64::from(port))
    }
}

/// Prints a line of a word and a number, and flushes it.
fn print<W: Write>(writer: &mut W, word: &str, number: u64) -> io::Result<()> {
    writeln!(writer, "{word} {number}")?;
    writer.flush()
}

impl From<io::Error> for ServeFault {
    fn from(error: io::Error) -> ServeFault {
        ServeFault::Write(error)
    }
}

impl From<ServerFault> for ServeFault {
    fn from(fault: ServerFault) -> ServeFault {
        match fault {
            ServerFault::Announce(error) => ServeFault::Write(error),
            other => ServeFault::Server(other),
        }
    }
}
