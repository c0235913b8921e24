//! A server over loopback sockets, and what is tried over them and over memory.
ghost use Rattle.std.specs.Prelude.{◌≡◌, ◌<◌};

use crate::gates::{Crossing, Meeting, Watched};
use crate::memory::over_memory;
use coord_server::{
    AlwaysOpen, Announce, ClockMoments, EndLog, Gate, Moments, Plan, Runtime, Server, ServerFault,
    Shards, ShardsDesks,
};
use std::alloc::{AllocError, AllocGlobal, Global};
use std::collections::hash_map::RandomState;
use std::io::{Read, Write};
use std::marker::Brand;
use std::net::{Ipv4Addr, Net, TcpListener, TcpStream};
use std::random::RandomSource;
use std::sync::Wait;
use std::sync::ledger::{Blank, Ledger};
use std::test::Fail;
use std::time::{Clock, Duration};
use std::{io, thread};
use test_support::frames::{JOIN, JOINED, frame_of};
use topic_meta::{Image, TopicEntry};
use uuid::Uuid;

/// After how many seconds a client waits for a reply no longer.
const LONGEST_WAIT: u64 = 20;

/// What a client does: it sends each of its connections a join, and then reads their replies in an order of its own.
#[derive(Clone, Copy)]
struct Client<'a> {
    frames: &'a [Vec<u8>],
    order: &'a [usize],
}

/// A server whose expiry worker ticks while it serves.
const TICKING: Plan = Plan {
    workers: 1,
    connections: 1,
    expires: true,
    idle: None,
};

const TWO_WORKERS: Plan = Plan {
    workers: 2,
    connections: 2,
    expires: false,
    idle: None,
};

const ONE_WORKER: Plan = Plan {
    workers: 1,
    connections: 2,
    expires: false,
    idle: None,
};

/// Nobody is told that a server serves.
#[derive(Drop)]
pub struct Unheard;

impl Announce for Unheard {
    fn announce(self) -> io::Result<()> {
        Ok(())
    }
}

/// What comes of a server: how many connections it has served, how many of their replies were right, and whether a thread was held up
/// for too long.
pub type Told = (u64, usize, bool);

/// All that is wanted of two connections.
const BOTH: Told = (2, 2, false);

#[test]
fn first_join_is_answered(rt: HostRuntime) -> Result<(), Fail> {
    let frames = joins(rt.alloc(), "g")?;
    let client = Client {
        frames: &frames,
        order: &[0],
    };
    assert_eq!(rt;
        over_sockets(&rt, AlwaysOpen, TICKING, client)?,
        (1, 1, false)
    );
    Ok(())
}

/// Of two shards `a` is on shard 1 and `b` on shard 0, since they are the bytes 97 and 98.
#[test]
fn two_shards_at_once(rt: HostRuntime) -> Result<(), Fail> {
    let frames = joins(rt.alloc(), "ab")?;
    let client = Client {
        frames: &frames,
        order: &[0, 1],
    };
    let sockets = over_sockets(&rt, Meeting::new(&rt), TWO_WORKERS, client)?;
    let memory = over_memory(&rt, Meeting::new(&rt), TWO_WORKERS, &frames)?;
    assert_eq!(rt; (sockets, memory), (BOTH, BOTH));
    Ok(())
}

/// The reply on one connection is held until that on the other is out, whichever is held.
#[test]
fn replies_cross(rt: HostRuntime) -> Result<(), Fail> {
    let frames = joins(rt.alloc(), "ab")?;
    for (held, order) in [(1, [1, 0]), (2, [0, 1])] {
        let client = Client {
            frames: &frames,
            order: &order,
        };
        let told = over_sockets(&rt, Crossing::new(&rt, held), ONE_WORKER, client)?;
        assert_eq!(rt; told, BOTH, "connection {held} is held");
    }
    Ok(())
}

/// The frames of joins of groups whose ids are one byte each.
fn joins(alloc: Global, groups: &str) -> Result<Vec<Vec<u8>>, AllocError> {
    let mut frames = Vec::new(alloc);
    for group in groups.bytes() {
        let mut frame = frame_of(alloc, JOIN)?;
        if let Some(byte) = frame.get_mut(16) {
            *byte = group;
        }
        frames.push(frame)?;
    }
    Ok(frames)
}

/// What comes of a server on a loopback socket.
fn over_sockets<G, R>(rt: &R, gate: G, plan: Plan, client: Client<'_>) -> Result<Told, ServerFault>
where
    G: Watched,
    R: Runtime + Net<Listener = TcpListener, Stream = TcpStream> + Sync,
{
    let moments = match ClockMoments::start(rt) {
        Ok(moments) => moments,
        Err(error) => return Err(ServerFault::System(error)),
    };
    let (entries, calls) = (Blank::new(4), Blank::new(258));
    sockets_over::<Brand, Brand, G, _, R>(rt, gate, &moments, plan, client, entries, calls)
}

/// The same, over ledgers of its own.
fn sockets_over<'a, A, C, G, M, R>(
    rt: &'a R,
    gate: G,
    moments: &'a M,
    plan: Plan,
    client: Client<'_>,
    entries: Blank,
    calls: Blank,
) -> Result<Told, ServerFault>
where
    A: Ledger + Send + Sync,
    C: Ledger + Send + Sync,
    G: Watched,
    M: Moments + Clone + Send + Sync,
    R: Runtime + Net<Listener = TcpListener, Stream = TcpStream> + Sync,
    requires entries { (entries.name ≡ A.name) × (entries.parts ≡ A.parts) × (entries.parts ≡ 4) }
    requires calls { (calls.name ≡ C.name) × (calls.parts ≡ C.parts) × (calls.parts ≡ 258) }
{
    match shards_over::<A, C, G, _, R>(rt, gate, moments, entries, calls) {
        Ok(shards) => told_over_sockets(rt, &shards, moments, plan, client),
        Err(fault) => Err(fault),
    }
}

/// The same, over these shards.
fn told_over_sockets<'a, A, C, G, M, R>(
    rt: &'a R,
    shards: &'a Shards<A, C, G>,
    moments: &'a M,
    plan: Plan,
    client: Client<'_>,
) -> Result<Told, ServerFault>
where
    A: Ledger + Send + Sync,
    C: Ledger + Send + Sync,
    G: Watched,
    M: Moments + Clone + Send + Sync,
    R: Runtime + Net<Listener = TcpListener, Stream = TcpStream> + Sync,
{
    let socket = TcpListener::bind(rt, (Ipv4Addr::LOCALHOST, 0))?;
    let connections = connect_all(rt, rt.alloc(), &socket, client.frames)?;
    let (alloc, gate, order) = (rt.alloc(), shards.gate(), client.order);
    let (served, right) = thread::join(
        rt,
        move || serve_on(rt, shards, socket, moments, plan),
        move || read_all(alloc, gate, connections, order),
    );
    Ok((served?, right?, gate.was_late()))
}

/// Serves the connections of a socket over shards, and tells nobody.
fn serve_on<'a, A, C, G, M, R>(
    rt: &'a R,
    shards: &'a Shards<A, C, G>,
    socket: TcpListener,
    moments: &'a M,
    plan: Plan,
) -> Result<u64, ServerFault>
where
    A: Ledger + Send + Sync,
    C: Ledger + Send + Sync,
    G: Watched,
    M: Moments + Clone + Send,
    R: Runtime + Sync,
{
    let log = EndLog::none();
    let desks = ShardsDesks {
        rt,
        shards,
        moments,
        log: &log,
    };
    let server = Server {
        rt,
        desks: &desks,
        plan,
        log: &log,
    };
    server.serve_sockets(socket, Unheard)
}

/// Two shards over a topic `t` of two partitions, whose gate holds threads up from now on.
pub fn shards_over<'a, A, C, G, M, R>(
    rt: &'a R,
    gate: G,
    moments: &'a M,
    entries: Blank,
    calls: Blank,
) -> Result<Shards<A, C, G>, ServerFault>
where
    A: Ledger,
    C: Ledger,
    G: Watched,
    M: Moments + Clone,
    R: Wait + Clock + RandomSource + AllocGlobal,
    requires entries { (entries.name ≡ A.name) × (entries.parts ≡ A.parts) × (entries.parts ≡ 4) }
    requires calls { (calls.name ≡ C.name) × (calls.parts ≡ C.parts) × (calls.parts ≡ 258) }
{
    let hasher = RandomState::new(rt)?;
    match Shards::<A, C, G>::new(rt.alloc(), 2, 0, 0, hasher, gate, entries, calls) {
        Ok(shards) => armed(rt, shards, moments),
        Err(fault) => Err(ServerFault::from(fault)),
    }
}

/// The shards with a topic `t` of two partitions, and their gate from now on.
fn armed<'a, A, C, G, M, R>(
    rt: &'a R,
    shards: Shards<A, C, G>,
    moments: &'a M,
) -> Result<Shards<A, C, G>, ServerFault>
where
    A: Ledger,
    C: Ledger,
    G: Watched,
    M: Moments + Clone,
    R: Wait + AllocGlobal,
{
    match set_image(rt, &shards, moments) {
        Ok(()) => {
            shards.gate().arm();
            Ok(shards)
        }
        Err(fault) => Err(fault),
    }
}

/// Gives every shard a topic `t` of two partitions.
fn set_image<'a, A, C, G, M, R>(
    rt: &'a R,
    shards: &'a Shards<A, C, G>,
    moments: &'a M,
) -> Result<(), ServerFault>
where
    A: Ledger,
    C: Ledger,
    G: Gate,
    M: Moments + Clone,
    R: Wait + AllocGlobal,
{
    let log = EndLog::none();
    let desks = ShardsDesks {
        rt,
        shards,
        moments,
        log: &log,
    };
    desks.set_image(&image(rt.alloc())?)
}

/// An image of a topic `t` of two partitions, whose id is sixteen bytes 0x11.
fn image(alloc: Global) -> Result<Image, AllocError> {
    let mut topics = Vec::new(alloc);
    topics.push(TopicEntry {
        name: String::from_str(alloc, "t")?,
        id: Uuid::from_bytes([0x11; 16]),
        count: 2,
    })?;
    Image::of(alloc, topics).map_err(|_| AllocError)
}

/// Connections of their own to a socket that were sent their frames, in order.
fn connect_all<R: Net<Stream = TcpStream>>(
    rt: &R,
    alloc: Global,
    socket: &TcpListener,
    frames: &[Vec<u8>],
) -> io::Result<Vec<TcpStream>> {
    let address = socket.local_addr()?;
    let mut connections = Vec::new(alloc);
    for frame in frames {
        let mut connection = TcpStream::connect(rt, address)?;
        connection.set_read_timeout(Some(Duration::from_secs(LONGEST_WAIT)))?;
        connection.write_all(frame.as_slice())?;
        connections.push(connection)?;
    }
    Ok(connections)
}

/// Reads the replies of the connections in an order, and says how many were right. Then all are closed.
fn read_all<G: Watched>(
    alloc: Global,
    gate: &G,
    connections: Vec<TcpStream>,
    order: &[usize],
) -> io::Result<usize> {
    let wanted = frame_of(alloc, JOINED)?;
    let mut connections = connections;
    let mut right = 0usize;
    for place in order {
        let Some(connection) = connections.get_mut(*place) else {
            return Ok(right);
        };
        let mut reply = [0; 91];
        connection.read_exact(&mut reply)?;
        if reply.as_slice() == wanted.as_slice() {
            right = right.saturating_add(1);
        }
        gate.reply_is_out((*place as u64).saturating_add(1));
    }
    Ok(right)
}
