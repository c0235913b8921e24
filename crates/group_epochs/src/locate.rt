//! Whose heartbeat it is, and the checks that look at the members' records, in their order (KIP-848, "ConsumerGroupHeartbeat API").

ghost use Rattle.std.specs.Prelude.{◌≡◌, ℕ, pos, IfOk, MatchOption, None, Some};
ghost use Rattle.std.specs.FinMap as finite;
ghost use Rattle.std.specs.Option.{option_copied};
ghost use Rattle.group_types.specs.Members.{Members};
ghost use Rattle.group_types.specs.Request.{Joins, kind_of};
ghost use Rattle.group_types.specs.Checks.{Sender, first_of, is_another, is_away, is_of_past, is_overtaken, member_checks, sender_of};
ghost use Rattle.group_types.specs.Sound.{IsPast};
ghost use Rattle.kip_msgs.specs.Views.{heartbeat_request_value};
ghost use Rattle.group_epochs.specs.Request.{heartbeat_of};
ghost use Rattle.group_epochs.specs.Records.{members_in};
ghost use Rattle.group_epochs.specs.Checks.{AreSound, IsCheckOfEpoch, verdict_of};

use crate::record::Record;
use crate::records::Records;
use crate::refusal::Refusal;
use group_types::limits::MOST_MEMBERS;
use group_types::{Code, Epoch, MemberId, Stamp};
use kip_msgs::HeartbeatRequest;

impl Records {
    /// The record of the member that a heartbeat is of; none where a join is of a new one, or of one that takes another one's place.
    /// Refuses by the checks that look at members, but for that of the member epoch ([`Records::check_epoch`]). Takes no memory.
    pub fn locate(
        &self,
        request: &HeartbeatRequest<'_>,
        stamp: Stamp,
    ) -> Result<Option<&Record>, Refusal>
        requires { AreSound (members_in self.now) }
        ensures verdict { let q = heartbeat_of (heartbeat_request_value request.now) in
            verdict_of result ≡ first_of (member_checks (kind_of q.epoch) (sender_of self.now.records q) (members_in self.now) q stamp) }
        ensures own { IfOk result (λ own. option_copied own ≡ finite.get self.now.records request.now.member_id.now) }
    {
        let own = self.get(request.member_id);
        self.check_member(own, request, stamp)?;
        Ok(own)
    }

    /// Checks the epoch of a beat against its member's record (FENCED_MEMBER_EPOCH). Says whether it passes as it is: if not, it is the
    /// epoch before the present one, and passes where all that the member reports is granted to it. Takes no memory.
    pub fn check_epoch(member: &Record, epoch: i32) -> Result<bool, Refusal>
        ensures { (n : ℕ) → epoch ≡ pos n → IsCheckOfEpoch n member.now result }
    {
        let Epoch::At(present) = member.epoch() else {
            return Err(Refusal::Refused(Code::FencedMemberEpoch));
        };
        if present.as_i32() == epoch {
            return Ok(true);
        }
        if member.previous_epoch().as_i32() == epoch {
            return Ok(false);
        }
        Err(Refusal::Refused(Code::FencedMemberEpoch))
    }

    /// The checks that look at members, but for that of the member epoch.
    fn check_member(
        &self,
        own: Option<&Record>,
        request: &HeartbeatRequest<'_>,
        stamp: Stamp,
    ) -> Result<(), Refusal>
        requires sound { AreSound (members_in self.now) }
        requires own { option_copied own ≡ finite.get self.now.records request.now.member_id.now }
        ensures { let q = heartbeat_of (heartbeat_request_value request.now) in
            verdict_of result ≡ first_of (member_checks (kind_of q.epoch) (sender_of self.now.records q) (members_in self.now) q stamp) }
    {
        if request.member_epoch == 0 {
            return self.check_join(own, request, stamp);
        }
        check_own(own, request, stamp)
    }

    /// The checks of a join: no later one was accepted, and it neither takes what another member has nor makes a member more than there
    /// may be.
    #[tactic(auto, using(crate::proofs::Verdicts::beside_other, crate::proofs::Verdicts::alone))]
    fn check_join(
        &self,
        own: Option<&Record>,
        request: &HeartbeatRequest<'_>,
        stamp: Stamp,
    ) -> Result<(), Refusal>
        requires sound { AreSound (members_in self.now) }
        requires own { option_copied own ≡ finite.get self.now.records request.now.member_id.now }
        ensures { let q = heartbeat_of (heartbeat_request_value request.now) in
            verdict_of result ≡ first_of (member_checks Joins (sender_of self.now.records q) (members_in self.now) q stamp) }
    {
        if is_overtaken(own, stamp) || self.is_of_past(request.member_id, stamp) {
            return Err(Refusal::Overtaken);
        }
        let is_new = own.is_none();
        match self.other_of(request) {
            Some((_, other)) => {
                if is_new && is_away(other) {
                    return Ok(());
                }
                Err(Refusal::Refused(Code::UnreleasedInstanceId))
            }
            None => {
                if is_new && MOST_MEMBERS <= self.len() {
                    return Err(Refusal::Refused(Code::GroupMaxSizeReached));
                }
                Ok(())
            }
        }
    }

    /// The other member that has the instance which a heartbeat names, and its record; none where there is no such member.
    pub(crate) fn other_of(&self, request: &HeartbeatRequest<'_>) -> Option<(&MemberId, &Record)>
        requires { AreSound (members_in self.now) }
        ensures { let sender = sender_of self.now.records (heartbeat_of (heartbeat_request_value request.now)) in
            MatchOption result (sender.other ≡ None) (λ found. sender.other ≡ Some (record { id = found.0.now; kept = found.1.now })) }
    {
        let (id, record) = self.with_instance(request.instance_id?)?;
        if id.is(request.member_id) {
            return None;
        }
        Some((id, record))
    }

    /// Whether a later heartbeat of a former member with this id was accepted.
    fn is_of_past(&self, member: &str, stamp: Stamp) -> bool
        requires { IsPast self.now.records self.now.past }
        ensures { result ≡ is_of_past self.now.past member.now stamp }
    {
        match self.past_stamp(member) {
            Some(last) => !stamp.is_above(last),
            None => false,
        }
    }
}

/// The checks of a heartbeat that is no join, but for that of its member epoch: the member is there and, where it goes away, is the one
/// with the instance; and no later one was accepted.
#[tactic(auto, using(crate::proofs::Verdicts::of_known))]
fn check_own(
    own: Option<&Record>,
    request: &HeartbeatRequest<'_>,
    stamp: Stamp,
) -> Result<(), Refusal>
    requires { ¬ (request.now.member_epoch ≡ pos 0) }
    ensures { let q = heartbeat_of (heartbeat_request_value request.now) in
        (sender : Sender) (s : Members) → sender.own ≡ option_copied own.entry
        → verdict_of result ≡ first_of (member_checks (kind_of q.epoch) sender s q stamp) }
{
    let is_unknown = match request.member_epoch {
        -2 => is_another(own, request.instance_id),
        _ => own.is_none(),
    };
    if is_unknown {
        return Err(Refusal::Refused(Code::UnknownMemberId));
    }
    if is_overtaken(own, stamp) {
        return Err(Refusal::Overtaken);
    }
    Ok(())
}

/// Whether the member isn't there, or isn't the one with the instance.
fn is_another(own: Option<&Record>, instance: Option<&str>) -> bool
    ensures { result ≡ is_another (option_copied own.entry) (option_copied instance.entry) }
{
    match (own, instance) {
        (Some(record), Some(instance)) => !record.has_instance(instance),
        _ => true,
    }
}

/// Whether a later heartbeat of the member was accepted before.
fn is_overtaken(own: Option<&Record>, stamp: Stamp) -> bool
    ensures { result ≡ is_overtaken stamp (option_copied own.entry) }
{
    match own {
        Some(record) => !stamp.is_above(record.stamp()),
        None => false,
    }
}

/// Whether the member is away.
fn is_away(record: &Record) -> bool
    ensures { result ≡ is_away «record».now.epoch }
{
    match record.epoch() {
        Epoch::At(_) => false,
        Epoch::Away => true,
    }
}
