//! What a member asks for, and its request.
ghost use Rattle.std.specs.Prelude.{◌≡◌, ◌≤◌, ◌<◌, map, suc, length, string_bytes, true, false, unwrap_or, [], Some, None, IfOk, IfErr, OnErr};
ghost use Rattle.std.specs.Option.{option_copied, option_map};
ghost use Rattle.group_types.specs.Sets.{in_order};
ghost use Rattle.kip_msgs.specs.Views as views;
ghost use Rattle.kip_msgs.specs.Writable.{IsShort};
ghost use Rattle.member_core.specs.Asking.{heartbeat_value, short_heartbeat, full_heartbeat, beat_of, heartbeat_for, request_for, after_asking, after_giving_up};
ghost use Rattle.member_core.specs.Client.{Client};
ghost use Rattle.member_core.specs.Kinds.{fullness, ask_value};
ghost use Rattle.member_core.specs.Limits.{GREATEST_NUMBER as GREATEST};
ghost use Rattle.member_core.specs.Refusing.{refusal_of, IsFault, Sends, stands_to, early_refusal};
ghost use Rattle.member_core.specs.Framing.{IsRequestFrame};
ghost use Rattle.member_core.specs.Refusing.{size_refusal};
ghost use Rattle.member_core.specs.Writing.{HasShortRequest};

use super::{Machine, Place};
use crate::ask::{Ask, Kind, Quit};
use crate::fault::BeatFault;
use crate::frame::frame_of;
use crate::listing::topics_of;
use flex_wire::TaggedFields;
use group_types::PartSet;
use kip_msgs::{Array, HeartbeatRequest, Request, RequestHeader};
use std::alloc::{AllocError, Global};

/// The greatest number of a request, which is its correlation id: the greatest INT32.
const GREATEST_NUMBER: u32 = 2_147_483_647;

/// The member epoch of a heartbeat by which a member leaves for good (KIP-848).
const LEAVES_AT: i32 = -1;

/// The member epoch of a heartbeat by which a static member goes away for a while (KIP-848).
const GOES_AWAY_AT: i32 = -2;

/// The rebalance timeout that leaves the one that the coordinator knows as it is (KIP-848).
const SAME_TIMEOUT: i32 = -1;

impl Machine {
    /// Makes the request for what is asked, and gives its frame. Where it is refused, nothing changes.
    pub(crate) fn ask(&mut self, ask: Ask) -> Result<Vec<u8>, BeatFault>
        requires idle { self.old.waits ≡ false }
        requires stands { stands_to self.old.place (ask_value ask) ≡ true }
        ensures sends { IfOk result (λ frame. Sends self.old (ask_value ask) frame.items self.new) }
        ensures unchanged { OnErr result (self.new ≡ self.old) }
        ensures fault { IfErr result (λ fault. IsFault (refusal_of self.old (ask_value ask)) fault) }
    {
        self.check(ask)?;
        let frame = self.frame(ask)?;
        self.sent(ask);
        Ok(frame)
    }

    /// Whether the instance and the numbers allow it.
    fn check(&self, ask: Ask) -> Result<(), BeatFault>
        ensures ok { IfOk result (λ _. early_refusal self.now (ask_value ask) ≡ None) }
        ensures err { IfErr result (λ fault. early_refusal self.now (ask_value ask) ≡ Some fault) }
    {
        if ask == Ask::Quit(Quit::Away) && self.settings.instance.is_none() {
            return Err(BeatFault::NoInstance);
        }
        if self.number >= GREATEST_NUMBER {
            return Err(BeatFault::Spent);
        }
        Ok(())
    }

    /// The frame of the next request.
    fn frame(&self, ask: Ask) -> Result<Vec<u8>, BeatFault>
        requires { self.now.number < GREATEST }
        ensures frame { IfOk result (λ frame. IsRequestFrame (request_for self.now (ask_value ask)) frame.items) }
        ensures fault { IfErr result (λ fault. IsFault (size_refusal (request_for self.now (ask_value ask))) fault) }
    {
        let request = self.request(ask)?;
        frame_of(self.alloc, &request)
    }

    /// The next request.
    fn request(&self, ask: Ask) -> Result<Request<'_>, AllocError>
        requires { self.now.number < GREATEST }
        ensures value { IfOk result (λ request. views.request_value request ≡ request_for self.now (ask_value ask)) }
        ensures short { IfOk result (λ request. HasShortRequest (views.request_value request)) }
    {
        let message = self.heartbeat(ask)?;
        let header = RequestHeader {
            correlation_id: (self.number + 1) as i32,
            client_id: None,
            tags: TaggedFields::new(self.alloc),
        };
        Ok(Request::Heartbeat(header, message))
    }

    /// The heartbeat that asks it (KIP-848, "ConsumerGroupHeartbeat API").
    fn heartbeat(&self, ask: Ask) -> Result<HeartbeatRequest<'_>, AllocError>
        ensures { IfOk result (λ m. views.heartbeat_request_value m ≡ heartbeat_value (heartbeat_for self.now (ask_value ask))) }
    {
        match ask {
            Ask::Join => self.full(0, &PartSet::new(self.alloc)),
            Ask::Beat(_) if self.says_all => self.full(self.epoch.as_i32(), &self.own),
            Ask::Beat(kind) => self.beat(kind),
            Ask::Quit(Quit::Leave) => Ok(self.short(LEAVES_AT)),
            Ask::Quit(Quit::Away) => {
                let mut message = self.short(GOES_AWAY_AT);
                message.instance_id = text_of(&self.settings.instance);
                Ok(message)
            }
        }
    }

    /// The heartbeat of a kind at the member epoch.
    fn beat(&self, kind: Kind) -> Result<HeartbeatRequest<'_>, AllocError>
        ensures { IfOk result (λ m. views.heartbeat_request_value m ≡ heartbeat_value (beat_of self.now (fullness kind))) }
    {
        let epoch = self.epoch.as_i32();
        match kind {
            Kind::Short => Ok(self.short(epoch)),
            Kind::Owned => {
                let mut message = self.short(epoch);
                message.topic_partitions = Some(topics_of(self.alloc, &self.own)?);
                Ok(message)
            }
            Kind::Full => self.full(epoch, &self.own),
        }
    }

    /// The heartbeat that says the least, at a member epoch.
    fn short(&self, epoch: i32) -> HeartbeatRequest<'_>
        ensures { views.heartbeat_request_value result ≡ heartbeat_value (short_heartbeat self.now epoch) }
    {
        HeartbeatRequest {
            group_id: self.settings.group.as_str(),
            member_id: self.id_text(),
            member_epoch: epoch,
            instance_id: None,
            rack_id: None,
            rebalance_timeout_ms: SAME_TIMEOUT,
            subscribed_topic_names: None,
            server_assignor: None,
            topic_partitions: None,
            tags: TaggedFields::new(self.alloc),
        }
    }

    /// The one that says everything, with the partitions that it reports.
    fn full(&self, epoch: i32, owned: &PartSet) -> Result<HeartbeatRequest<'_>, AllocError>
        ensures { IfOk result (λ m.
            views.heartbeat_request_value m ≡ heartbeat_value (full_heartbeat self.now epoch (in_order owned.now))) }
    {
        let names = names_of(self.alloc, self.settings.names.as_slice())?;
        let owned = topics_of(self.alloc, owned)?;
        Ok(HeartbeatRequest {
            group_id: self.settings.group.as_str(),
            member_id: self.id_text(),
            member_epoch: epoch,
            instance_id: text_of(&self.settings.instance),
            rack_id: text_of(&self.settings.rack),
            rebalance_timeout_ms: self.settings.rebalance_timeout as i32,
            subscribed_topic_names: Some(names),
            server_assignor: text_of(&self.settings.assignor),
            topic_partitions: Some(owned),
            tags: TaggedFields::new(self.alloc),
        })
    }

    /// The text of the member's id, empty where it has none yet.
    pub(super) fn id_text(&self) -> &str
        ensures value { result.now ≡ unwrap_or self.now.id [] }
        ensures short { IsShort result.now }
    {
        match &self.id {
            Some(id) => id.as_str(),
            None => "",
        }
    }

    /// Counts the request that was made. One that leaves or goes away doesn't wait for the reply.
    fn sent(&mut self, ask: Ask)
        requires { self.old.number < GREATEST }
        ensures { self.new ≡ after_asking self.old (ask_value ask) }
    {
        self.number += 1;
        match ask {
            Ask::Join | Ask::Beat(_) => {
                self.waits = true;
                self.says_all = false;
            }
            Ask::Quit(_) => {
                self.place = Place::Gone;
                self.own.clear();
                self.to_release = 0;
            }
        }
    }

    /// Waits no longer for the reply: the next heartbeat is full.
    pub(crate) fn give_up(&mut self)
        ensures { self.new ≡ after_giving_up self.old }
    {
        self.waits = false;
        self.says_all = true;
    }
}

/// A text, where there is one.
fn text_of(text: &Option<String>) -> Option<&str>
    ensures { option_copied result ≡ option_map string_bytes text.now }
{
    match text {
        Some(text) => Some(text.as_str()),
        None => None,
    }
}

/// The names of a list. Fails where memory is short.
fn names_of(alloc: Global, names: &[String]) -> Result<Array<&str>, AllocError>
    ensures { IfOk result (λ all. map (λ name. name.now) all ≡ map string_bytes names.now) }
{
    let mut all = Array::new(alloc);
    for name in names {
        all.push(name.as_str())?;
    }
    Ok(all)
}
