//! Clients at their places.
ghost use Rattle.std.specs.Prelude.{◌<◌, vec_len};
ghost use Rattle.member_core.specs.Asking.{after_giving_up};
ghost use Rattle.member_core.specs.Releasing.{may_release, after_release};
ghost use Rattle.world_sim.specs.Places.{AskedAt, ChangedAt, TookAt};
ghost use Rattle.world_sim.specs.Standing.{ask_value};

use crate::act::Ask;
use crate::client::Client;
use crate::fault::WorldFault;
use crate::mail::Request;
use crate::state::ClientState;
use coord_node::Stamp;
use member_core::Partition;
use std::alloc::AllocError;

/// The client at a place asks. One that is refused is as it was.
pub(crate) fn ask_at(
    clients: &mut Vec<Client>,
    place: usize,
    ask: Ask,
) -> Result<Request, WorldFault>
    requires { place < vec_len clients.old }
    ensures { AskedAt clients.old.items place (ask_value ask) result clients.new.items }
{
    let client = &mut clients[place];
    let frame = client.ask(ask)?;
    let stamp = Stamp {
        connection: place as u64 + 1,
        frame: u64::from(client.requests()),
    };
    Ok(Request { stamp, frame })
}

/// The client at a place waits no longer: its state, or none where it didn't wait.
pub(crate) fn give_up_at(clients: &mut Vec<Client>, place: usize) -> Option<ClientState>
    requires { place < vec_len clients.old }
    ensures { ChangedAt (λ c. c.waits) after_giving_up clients.old.items place result clients.new.items }
{
    let client = &mut clients[place];
    if client.give_up() {
        Some(client.state())
    } else {
        None
    }
}

/// The client at a place releases a partition: its state, or none where it may release none.
pub(crate) fn release_at(
    clients: &mut Vec<Client>,
    place: usize,
    p: &Partition,
) -> Option<ClientState>
    requires { place < vec_len clients.old }
    ensures { ChangedAt may_release (λ c. after_release c p.now) clients.old.items place result clients.new.items }
{
    let client = &mut clients[place];
    if client.release(p) {
        Some(client.state())
    } else {
        None
    }
}

/// The client at a place is given a reply: its state, or none where it doesn't take it.
pub(crate) fn take_at(
    clients: &mut Vec<Client>,
    place: usize,
    body: &[u8],
) -> Result<Option<ClientState>, AllocError>
    requires { place < vec_len clients.old }
    ensures { TookAt clients.old.items place body.now result clients.new.items }
{
    let client = &mut clients[place];
    let taken = client.take(body)?;
    if taken {
        Ok(Some(client.state()))
    } else {
        Ok(None)
    }
}
