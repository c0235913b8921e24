//! The texts of a server's faults.

use coord_server::{ServerFault, ShardFault};
use std::alloc::{AllocError, Global};
use std::io;
use std::test::Fail;

/// The text of each fault, on a line of its own. The timer's fault is left out: nobody else can make it.
const TEXTS: &str = "\
no seat is left, or a seat is missing
broken pipe
no thread can be made
announcing that it listens: broken pipe
waiting in an event loop: broken pipe
a worker has ended before its connections
out of memory
";

#[test]
fn faults_have_texts(rt: HostRuntime) -> Result<(), Fail> {
    let texts = texts(rt.alloc()).or_else(|_| texts(rt.alloc()))?;
    assert_eq!(rt; texts.as_str(), TEXTS);
    Ok(())
}

/// The texts, where each error of the system is a broken pipe.
fn texts(alloc: Global) -> Result<String, AllocError> {
    let mut out = String::new(alloc);
    for fault in [
        ServerFault::Shards(ShardFault::NoSeat),
        ServerFault::System(broken()),
        ServerFault::NoThread,
        ServerFault::Announce(broken()),
        ServerFault::Loop(broken()),
        ServerFault::Stopped,
        ServerFault::NoMemory,
    ] {
        writeln!(out, "{fault}")?;
    }
    Ok(out)
}

fn broken() -> io::Error {
    io::Error::from(io::ErrorKind::BrokenPipe)
}
