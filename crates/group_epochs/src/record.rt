//! What a group keeps of a member.

ghost use Rattle.std.specs.Prelude.{◌≡◌, ◌↔◌, ◌≢◌, IfOk, None, Some, IsTrue};
ghost use Rattle.std.specs.Option.{option_copied, option_map};
ghost use Rattle.std.specs.String.{string_bytes};
ghost use Rattle.group_types.specs.HeartbeatStep.{is_news};
ghost use Rattle.group_types.specs.Join.{blank_record, record_of_beat, record_of_join, returned_epoch, updated};
ghost use Rattle.group_types.specs.Leave.{away};
ghost use Rattle.group_types.specs.Renewal as renewal;
ghost use Rattle.group_types.specs.Tick.{has_come, is_due};
ghost use Rattle.group_types.specs.Settle.{arrived, settled_record};
ghost use Rattle.kip_msgs.specs.Views.{heartbeat_request_value};
ghost use Rattle.group_epochs.specs.Request.{heartbeat_of};
ghost use Rattle.range_assign.specs.Members.{subscriber_of};
ghost use Rattle.group_epochs.specs.Records.{beaten};
ghost use Rattle.group_epochs.specs.Seen.{is_instance};
ghost use Rattle.group_epochs.specs.Deadlines.{first_deadline};
ghost use Rattle.group_epochs.specs.Restored.{record_with};

use crate::deadlines::earlier;
use crate::{given, sets};
use group_types::limits::SESSION_TIMEOUT;
use group_types::{AssignorName, Epoch, EpochNumber, MemberId, Moment, NameSet, PartSet, Stamp};
use kip_msgs::HeartbeatRequest;
use range_assign::Subscriber;
use std::alloc::{AllocError, Global};
use std::marker::Model;

/// A member's record (KIP-848, "Group Coordinator"): what it subscribes and asks for, its epochs, its deadlines, and what it
/// was last sent.
#[derive(Drop)]
pub struct Record {
    instance: Option<String>,
    rack: Option<String>,
    names: NameSet,
    assignor: Option<AssignorName>,
    /// In milliseconds.
    rebalance_timeout: u32,
    epoch: Epoch,
    previous_epoch: EpochNumber,
    stamp: Stamp,
    sent: Option<PartSet>,
    session_deadline: Moment,
    release_deadline: Option<Moment>,
}

/// What a record is made of.
#[derive(Drop)]
pub struct RecordFields {
    /// The instance id of a static member.
    pub instance: Option<String>,
    pub rack: Option<String>,
    /// The topics that the member subscribes.
    pub names: NameSet,
    pub assignor: Option<AssignorName>,
    /// In milliseconds.
    pub rebalance_timeout: u32,
    pub epoch: Epoch,
    pub previous_epoch: EpochNumber,
    /// The stamp of the last heartbeat that was accepted.
    pub stamp: Stamp,
    /// The set that the member was last sent.
    pub sent: Option<PartSet>,
    pub session_deadline: Moment,
    pub release_deadline: Option<Moment>,
}

impl Model for Record {
    ghost use Rattle.group_types.specs.Group.{Record as Kept};
    ghost use Rattle.group_epochs.specs.Stored.{record_code};
    ghost use Rattle.group_epochs.specs.Kept.{kept_of};

    ghost Value = { Kept };

    ghost coded = { record_code };

    ghost view = { kept_of };
}

impl Record {
    /// The record of a member that joins: anew, where it has no former record, or again, or in place of another member whose
    /// record this was (KIP-848, "Consumer Group Heartbeat"). Fails where memory is short.
    pub fn joining(
        alloc: Global,
        former: Option<&Record>,
        request: &HeartbeatRequest<'_>,
        stamp: Stamp,
        now: Moment,
    ) -> Result<Record, AllocError>
        ensures { IfOk result (λ r. r ≡ record_of_join (option_copied former.entry) (heartbeat_of (heartbeat_request_value request.now)) stamp now) }
    {
        match former {
            Some(record) => record.rejoining(alloc, request, stamp, now),
            None => Record::blank(alloc).rejoining(alloc, request, stamp, now),
        }
    }

    /// The record of a member after a heartbeat at a member epoch of 1 or more, with all that the heartbeat gives. Fails where
    /// memory is short.
    pub fn beating(
        &self,
        alloc: Global,
        request: &HeartbeatRequest<'_>,
        stamp: Stamp,
        now: Moment,
    ) -> Result<Record, AllocError>
        ensures { IfOk result (λ r. r ≡ record_of_beat self.now (heartbeat_of (heartbeat_request_value request.now)) stamp now) }
    {
        let instance = given::text_of(alloc, self.instance())?;
        let sent = sets::copy_of(alloc, &self.sent)?;
        self.updated(alloc, request, instance, sent, stamp, now)
    }

    /// The record with these fields. Takes no memory.
    pub fn of(fields: RecordFields) -> Record
        ensures { result ≡ record_with fields }
    {
        let RecordFields {
            instance,
            rack,
            names,
            assignor,
            rebalance_timeout,
            epoch,
            previous_epoch,
            stamp,
            sent,
            session_deadline,
            release_deadline,
        } = fields;
        Record {
            instance,
            rack,
            names,
            assignor,
            rebalance_timeout,
            epoch,
            previous_epoch,
            stamp,
            sent,
            session_deadline,
            release_deadline,
        }
    }

    /// The instance id of a static member, or none.
    pub fn instance(&self) -> Option<&str>
        ensures { option_copied result ≡ self.now.instance }
    {
        given::text_in(&self.instance)
    }

    /// The rack of the member's client, or none.
    pub fn rack(&self) -> Option<&str>
        ensures { option_copied result ≡ self.now.rack }
    {
        given::text_in(&self.rack)
    }

    /// The topics that the member subscribes.
    pub fn names(&self) -> &NameSet
        ensures { result.now ≡ self.now.names }
    {
        &self.names
    }

    /// The assignor that the member asks for, or none.
    pub fn assignor(&self) -> Option<AssignorName>
        ensures { result ≡ self.now.assignor }
    {
        self.assignor
    }

    /// How long a rebalance waits for the member, in milliseconds.
    pub fn rebalance_timeout(&self) -> u32
        ensures { result ≡ self.now.rebalance_timeout }
    {
        self.rebalance_timeout
    }

    /// The member epoch, or that the member is away.
    pub fn epoch(&self) -> Epoch
        ensures { result ≡ self.now.epoch }
    {
        self.epoch
    }

    /// The member epoch before the present one.
    pub fn previous_epoch(&self) -> EpochNumber
        ensures { result ≡ self.now.previous_epoch }
    {
        self.previous_epoch
    }

    /// The stamp of the last heartbeat that was accepted.
    pub fn stamp(&self) -> Stamp
        ensures { result ≡ self.now.stamp }
    {
        self.stamp
    }

    /// The set that the member was last sent, or none.
    pub fn sent(&self) -> Option<&PartSet>
        ensures { option_copied result ≡ self.now.sent }
    {
        self.sent.as_ref()
    }

    /// When the member's session ends.
    pub fn session_deadline(&self) -> Moment
        ensures { result ≡ self.now.session_deadline }
    {
        self.session_deadline
    }

    /// By when the member is to give up what isn't its target any more, or none.
    pub fn release_deadline(&self) -> Option<Moment>
        ensures { result ≡ self.now.release_deadline }
    {
        self.release_deadline
    }

    /// Whether a release deadline is set: the member is yet to give up what isn't its target any more.
    pub fn is_releasing(&self) -> bool
        ensures { IsTrue result ↔ (self.now.release_deadline ≢ None) }
    {
        self.release_deadline.is_some()
    }

    /// Whether a set isn't the one that the member was last sent.
    pub fn is_news(&self, set: &PartSet) -> bool
        ensures { result ≡ is_news self.now.sent set.now }
    {
        match &self.sent {
            Some(sent) => !sent.equals(set),
            None => true,
        }
    }

    /// Whether the record has the names and the assignor of another one.
    pub fn asks_as(&self, other: &Record) -> bool
        ensures { IsTrue result ↔ ((self.now.names ≡ other.now.names) × (self.now.assignor ≡ other.now.assignor)) }
    {
        self.names.equals(&other.names) && self.assignor == other.assignor
    }

    /// What an offer of the target does to the record (KIP-848, "Reconciliation of the group"): a member that moves goes on to
    /// the target's epoch; another one gets a release deadline, where it has none. Takes no memory.
    pub fn settle(&mut self, moves: bool, target_epoch: EpochNumber, now: Moment)
        ensures { self.new ≡ settled_record moves self.old target_epoch now }
    {
        if moves {
            self.arrive(target_epoch);
        } else if self.release_deadline.is_none() {
            self.release_deadline = Some(now.plus(u64::from(self.rebalance_timeout)));
        }
    }

    /// Keeps the set that the member is sent. Takes no memory.
    pub fn send(&mut self, set: PartSet)
        ensures { self.new ≡ record self.old { sent = Some set } }
    {
        self.sent = Some(set);
    }

    /// Whether the member has this instance id. Takes no memory.
    pub(crate) fn has_instance(&self, instance: &str) -> bool
        ensures { result ≡ is_instance instance.now self.now.instance }
    {
        match &self.instance {
            Some(own) => own.as_str() == instance,
            None => false,
        }
    }

    /// Whether the member has the instance id of another record, or neither has one. Takes no memory.
    pub(crate) fn has_instance_of(&self, other: &Record) -> bool
        ensures { IsTrue result → self.now.instance ≡ other.now.instance }
    {
        match other.instance() {
            Some(instance) => self.has_instance(instance),
            None => self.instance.is_none(),
        }
    }

    /// The member as an assignor sees it. Takes no memory.
    pub(crate) fn as_subscriber<'a>(&'a self, id: &'a MemberId) -> Subscriber<'a>
        ensures { subscriber_of result ≡ renewal.subscriber_of (id.now, self.now) }
    {
        Subscriber {
            id,
            instance: self.instance(),
            names: self.names(),
            assignor: self.assignor(),
        }
    }

    /// Stores the stamp and the time of a heartbeat that gives nothing else. Takes no memory.
    pub(crate) fn beat(&mut self, stamp: Stamp, now: Moment)
        ensures { self.new ≡ beaten self.old stamp now }
    {
        self.stamp = stamp;
        self.session_deadline = now.plus(SESSION_TIMEOUT);
    }

    /// A static member goes away for a while (KIP-848, member epoch -2). Takes no memory.
    pub(crate) fn go_away(&mut self, stamp: Stamp, now: Moment)
        ensures { self.new ≡ away self.old stamp now }
    {
        if let Some(last) = self.epoch.number() {
            self.previous_epoch = last;
        }
        self.epoch = Epoch::Away;
        self.release_deadline = None;
        self.beat(stamp, now);
    }

    /// The first of the member's deadlines. Takes no memory.
    pub(crate) fn first_deadline(&self) -> Moment
        ensures { result ≡ first_deadline self.now }
    {
        match self.release_deadline {
            Some(deadline) => earlier(self.session_deadline, deadline),
            None => self.session_deadline,
        }
    }

    /// Whether a deadline of the member has come.
    pub(crate) fn is_due(&self, clock: Moment) -> bool
        ensures { result ≡ is_due clock self.now }
    {
        self.session_deadline <= clock || has_come(self.release_deadline, clock)
    }

    /// A member of which nothing is known yet. Takes no memory.
    fn blank(alloc: Global) -> Record
        ensures { result ≡ blank_record }
    {
        Record {
            instance: None,
            rack: None,
            names: NameSet::new(alloc),
            assignor: None,
            rebalance_timeout: 0,
            epoch: Epoch::At(EpochNumber::zero()),
            previous_epoch: EpochNumber::zero(),
            stamp: Stamp {
                connection: 0,
                frame: 0,
            },
            sent: None,
            session_deadline: Moment::of_millis(0),
            release_deadline: None,
        }
    }

    /// The record of a member that joins, where this was its own or another member's. Fails where memory is short.
    fn rejoining(
        &self,
        alloc: Global,
        request: &HeartbeatRequest<'_>,
        stamp: Stamp,
        now: Moment,
    ) -> Result<Record, AllocError>
        ensures { IfOk result (λ r. r ≡ record_of_join (Some self.now) (heartbeat_of (heartbeat_request_value request.now)) stamp now) }
    {
        let instance = given::text_of(alloc, request.instance_id)?;
        let mut record = self.updated(alloc, request, instance, None, stamp, now)?;
        record.epoch = returned(self.epoch, self.previous_epoch);
        Ok(record)
    }

    /// The record after what a heartbeat gives, with this instance and this set that was last sent. Fails where memory is
    /// short.
    fn updated(
        &self,
        alloc: Global,
        request: &HeartbeatRequest<'_>,
        instance: Option<String>,
        sent: Option<PartSet>,
        stamp: Stamp,
        now: Moment,
    ) -> Result<Record, AllocError>
        ensures { IfOk result (λ r. r ≡ record (updated self.now (heartbeat_of (heartbeat_request_value request.now)) stamp now) { instance = option_map string_bytes instance; sent = sent }) }
    {
        let rack = given::text_after(alloc, &self.rack, request.rack_id)?;
        let names = given::names_after(alloc, &self.names, &request.subscribed_topic_names)?;
        let assignor = given::assignor_of(request.server_assignor).or(self.assignor);
        Ok(Record {
            instance,
            rack,
            names,
            assignor,
            rebalance_timeout: given::timeout_after(
                self.rebalance_timeout,
                request.rebalance_timeout_ms,
            ),
            epoch: self.epoch,
            previous_epoch: self.previous_epoch,
            stamp,
            sent,
            session_deadline: now.plus(SESSION_TIMEOUT),
            release_deadline: self.release_deadline,
        })
    }

    /// The member goes on to the target's epoch. Takes no memory.
    fn arrive(&mut self, target_epoch: EpochNumber)
        ensures { self.new ≡ arrived self.old self.old.epoch target_epoch }
    {
        self.release_deadline = None;
        if let Some(epoch) = self.epoch.number() {
            if epoch.as_u32() == target_epoch.as_u32() {
                return;
            }
            self.previous_epoch = epoch;
        }
        self.epoch = Epoch::At(target_epoch);
    }
}

/// The epoch of a member that joins again: the previous one where it was away.
fn returned(epoch: Epoch, previous_epoch: EpochNumber) -> Epoch
    ensures { result ≡ returned_epoch epoch previous_epoch }
{
    match epoch {
        Epoch::At(epoch) => Epoch::At(epoch),
        Epoch::Away => Epoch::At(previous_epoch),
    }
}

/// Whether a deadline has come, where there is one.
fn has_come(deadline: Option<Moment>, clock: Moment) -> bool
    ensures { result ≡ has_come clock deadline }
{
    match deadline {
        Some(deadline) => deadline <= clock,
        None => false,
    }
}
