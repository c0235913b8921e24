//! Heartbeats, written and read.
ghost use Rattle.kip_msgs.specs.Views.{request_value};
ghost use Rattle.kip_msgs.specs.Writable.{IsWritableRequest};

use crate::beats::{Beat, beat_body, beat_request};
use crate::command_line::Mode;
use crate::fault::Fault;
use crate::print::print_work;
use crate::table::head_line;
use crate::work::Work;
use group_types::MemberId;
use kip_msgs::{Request, put_request, read_request};
use std::alloc::Global;
use std::rt::Clock;

/// A request's body is written. Gives its number of bytes.
#[derive(Clone, Copy)]
struct Written<'a, 'm> {
    request: &'a Request<'m>,
}

/// A request's body is read. Gives how many partitions its member says that it owns.
#[derive(Clone, Copy)]
struct Read<'a> {
    alloc: Global,
    body: &'a [u8],
}

impl Work for Written<'_, '_> {
    ghost can_be_done = { λ work. IsWritableRequest (request_value work.request.now) };

    fn once(&self, out: &mut Vec<u8>) -> Result<usize, Fault> {
        out.clear();
        put_request(out, self.request)?;
        Ok(out.len())
    }
}

impl Work for Read<'_> {
    ghost can_be_done = { λ _. Unit {0} };

    fn once(&self, _out: &mut Vec<u8>) -> Result<usize, Fault> {
        let request = read_request(self.alloc, self.body)?;
        Ok(owned_in(&request))
    }
}

/// How many partitions a request's member says that it owns.
fn owned_in(request: &Request<'_>) -> usize {
    let Request::Heartbeat(_, message) = request else {
        return 0;
    };
    let Some(topics) = &message.topic_partitions else {
        return 0;
    };
    let mut owned = 0usize;
    for topic in topics.as_slice() {
        owned = owned.saturating_add(topic.partitions.len());
    }
    owned
}

/// Prints what heartbeats have, or how long it takes to write and to read them.
pub fn print_messages(rt: &(impl AllocGlobal + Clock + Print), mode: Mode) -> Result<(), Fault> {
    rt.println(head_line(rt.alloc(), mode, "heartbeat", "bytes", "gives")?)?;
    let group = MemberId::made(rt.alloc(), 1, 0)?;
    let member = MemberId::made(rt.alloc(), 1, 1)?;
    let steady = Beat::steady(&group, &member, 5);
    print_beat(rt, mode, ["no arrays, written", "no arrays, read"], &steady)?;
    let full = Beat {
        owned: Some(1_000),
        ..steady
    };
    print_beat(
        rt,
        mode,
        ["1000 partitions, written", "1000 partitions, read"],
        &full,
    )
}

/// Prints the two lines of a heartbeat.
fn print_beat(
    rt: &(impl AllocGlobal + Clock + Print),
    mode: Mode,
    names: [&str; 2],
    beat: &Beat<'_>,
) -> Result<(), Fault> {
    let alloc = rt.alloc();
    let [written, read] = names;
    let body = beat_body(alloc, beat)?;
    let request = beat_request(alloc, beat)?;
    let body = body.as_slice();
    print_work(
        rt,
        mode,
        written,
        body.len(),
        &Written { request: &request },
    )?;
    print_work(rt, mode, read, body.len(), &Read { alloc, body })
}
