//! The entries that a leader proposes.
ghost use Rattle.std.specs.Prelude.{◌≡◌, ◌⊎◌, ◌+◌, ◌^◌, ◌<◌, ◌++◌, IsSome, Some, None, MatchResult, OnOk, OnErr, IfErr, option_map};
ghost use Rattle.group_types.specs.Frames.{IsBody};
ghost use Rattle.topic_meta.specs.Images.{entries_of, first_fault};
ghost use Rattle.replica_entries.specs.Spelling.{FitsEntry, entry_fields};
ghost use Rattle.replica_entries.specs.Values.{tick, image};
ghost use Rattle.replica_entries.specs.Views.{content_value};
ghost use Rattle.coord_replica.specs.declared.fault.ReplicaFault.TheVariants.{NoMemory};
ghost use Rattle.coord_replica.specs.Entries.{stamp_under};
ghost use Rattle.coord_replica.specs.Faults.{fault_of_topics};
ghost use Rattle.coord_replica.specs.Proposing.{IsAboveEarlier, IsInTime, IsUnproposed, IsUnwritten, ProposesBytes, begun, frame_proposed, moment_proposed, next_leadership, under_present};
ghost use Rattle.coord_replica.specs.Replicas.{replica_state};

use crate::fault::ReplicaFault;
use crate::leading::Leading;
use crate::replica::Replica;
use coord_node::{Image, Moment};
use replica_entries::{Content, Entry, LoggedFrame, put_entry};
use std::alloc::Global;
use topic_meta::TopicEntry;

/// The greatest moment that an entry has.
const GREATEST_MOMENT: u64 = 0x7fff_ffff_ffff_ffff;

impl Replica {
    /// Appends the entry by which the next leadership begins. Refused where there is no greater number for it.
    pub fn lead(&self, out: &mut Vec<u8>) -> Result<(), ReplicaFault>
        ensures proposed { OnOk result (out.new.items ≡ out.old.items ++ entry_fields (next_leadership (replica_state self.now))) }
        ensures fits { OnOk result (FitsEntry (next_leadership (replica_state self.now))) }
        ensures fault { IfErr result (IsUnwritten (next_leadership (replica_state self.now))) }
        ensures fitting { self.now.leadership + 1 < 2 ^ 31 → IfErr result (λ fault. fault ≡ NoMemory) }
        ensures err { OnErr result (out.new.items ≡ out.old.items) }
    {
        put(out, self.leadership + 1, Content::Leads)
    }

    /// Leads under the present leadership from here on. The clock is this machine's, in milliseconds.
    pub fn begin(&mut self, clock: u64)
        ensures state { replica_state self.new ≡ begun (replica_state self.old) clock }
        ensures node { self.new.node ≡ self.old.node }
    {
        self.leading = Some(Leading {
            clock,
            moment: self.moment,
        });
    }

    /// Appends the entry of a frame that came to this leader: its body, the number of its connection under the present leadership and its
    /// own on the connection, and what the clock shows.
    pub fn propose(
        &mut self,
        body: &[u8],
        connection: u32,
        number: u64,
        clock: u64,
        out: &mut Vec<u8>,
    ) -> Result<(), ReplicaFault>
        ensures proposed { OnOk result (ProposesBytes (replica_state self.old) (frame_proposed (replica_state self.old) clock connection number body.now) (replica_state self.new)
            out.old.items out.new.items) }
        // Whatever the clock says.
        ensures in_time { IsInTime (replica_state self.old) (moment_proposed (replica_state self.old) clock) }
        ensures above { IsAboveEarlier self.old.leadership (stamp_under self.old.leadership connection number) }
        ensures fault { IfErr result (IsUnproposed (replica_state self.old) (under_present (replica_state self.old) (frame_proposed (replica_state self.old) clock connection number body.now))) }
        ensures fits { IsSome self.old.leading → connection < 2 ^ 31 → number < 2 ^ 63 → IsBody body.now → IfErr result (λ fault. fault ≡ NoMemory) }
        ensures node { self.new.node ≡ self.old.node }
        ensures err { OnErr result ((self.new ≡ self.old) × (out.new.items ≡ out.old.items)) }
    {
        let moment = self.moment_of_proposal(clock)?;
        let frame = LoggedFrame {
            connection,
            number,
            moment,
            body,
        };
        put(out, self.leadership, Content::Frame(frame))?;
        self.proposed = moment;
        Ok(())
    }

    /// Appends the entry of a tick.
    pub fn propose_tick(&mut self, clock: u64, out: &mut Vec<u8>) -> Result<(), ReplicaFault>
        ensures proposed { OnOk result (ProposesBytes (replica_state self.old) (tick (moment_proposed (replica_state self.old) clock)) (replica_state self.new) out.old.items out.new.items) }
        ensures in_time { IsInTime (replica_state self.old) (moment_proposed (replica_state self.old) clock) }
        ensures fault { IfErr result (IsUnproposed (replica_state self.old) (under_present (replica_state self.old) (tick (moment_proposed (replica_state self.old) clock)))) }
        ensures fits { IsSome self.old.leading → IfErr result (λ fault. fault ≡ NoMemory) }
        ensures node { self.new.node ≡ self.old.node }
        ensures err { OnErr result ((self.new ≡ self.old) × (out.new.items ≡ out.old.items)) }
    {
        let moment = self.moment_of_proposal(clock)?;
        put(out, self.leadership, Content::Tick(moment))?;
        self.proposed = moment;
        Ok(())
    }

    /// Appends the entry of the topics of the cluster: these and no others. Topics are refused that make no image.
    pub fn propose_topics(
        &mut self,
        topics: Vec<TopicEntry>,
        out: &mut Vec<u8>,
    ) -> Result<(), ReplicaFault>
        ensures proposed { OnOk result (ProposesBytes (replica_state self.old) (image (entries_of topics.items)) (replica_state self.new) out.old.items out.new.items) }
        ensures fault { IfErr result (IsUnproposed (replica_state self.old) (under_present (replica_state self.old) (image (entries_of topics.items)))) }
        ensures node { self.new.node ≡ self.old.node }
        ensures err { OnErr result ((self.new ≡ self.old) × (out.new.items ≡ out.old.items)) }
    {
        if self.leading.is_none() {
            return Err(ReplicaFault::NotLeading);
        }
        put_topics(self.alloc, out, self.leadership, topics)
    }

    /// The moment of the next proposal: this leader's time by its clock, but not before the log's nor an earlier proposal's.
    fn moment_of_proposal(&self, clock: u64) -> Result<Moment, ReplicaFault>
        ensures { MatchResult result (λ moment. (moment ≡ moment_proposed (replica_state self.now) clock) × IsSome self.now.leading × (moment < 2 ^ 63))
            (λ fault. (fault ≡ ReplicaFault.NotLeading) × (self.now.leading ≡ None)) }
    {
        let Some(began) = self.leading else {
            return Err(ReplicaFault::NotLeading);
        };
        let elapsed = clock.saturating_sub(began.clock);
        let now = began.moment.plus(elapsed).millis().min(GREATEST_MOMENT);
        Ok(Moment::of_millis(now).later(self.moment.later(self.proposed)))
    }
}

/// Appends the entry of a leadership that brings this.
fn put(out: &mut Vec<u8>, leadership: u32, content: Content<'_>) -> Result<(), ReplicaFault>
    ensures bytes { OnOk result (out.new.items ≡ out.old.items ++ entry_fields (record { leadership = leadership; content = content_value content.entry })) }
    ensures fits { OnOk result (FitsEntry (record { leadership = leadership; content = content_value content.entry })) }
    ensures fault { IfErr result (IsUnwritten (record { leadership = leadership; content = content_value content.entry })) }
    ensures fitting { FitsEntry (record { leadership = leadership; content = content_value content.entry }) → IfErr result (λ fault. fault ≡ NoMemory) }
    ensures err { OnErr result (out.new.items ≡ out.old.items) }
{
    let entry = Entry {
        leadership,
        content,
    };
    put_entry(out, &entry)?;
    Ok(())
}

/// Appends the entry of topics that make an image.
fn put_topics(
    alloc: Global,
    out: &mut Vec<u8>,
    leadership: u32,
    topics: Vec<TopicEntry>,
) -> Result<(), ReplicaFault>
    ensures bytes { OnOk result (out.new.items ≡ out.old.items ++ entry_fields (record { leadership = leadership; content = image (entries_of topics.items) })) }
    ensures fits { OnOk result (FitsEntry (record { leadership = leadership; content = image (entries_of topics.items) })) }
    ensures topics { OnOk result (first_fault (entries_of topics.items) ≡ None) }
    ensures fault { IfErr result (λ fault. IsUnwritten (record { leadership = leadership; content = image (entries_of topics.items) }) fault
        ⊎ (option_map fault_of_topics (first_fault (entries_of topics.items)) ≡ Some fault)) }
    ensures err { OnErr result (out.new.items ≡ out.old.items) }
{
    let before = out.len();
    let entry = Entry {
        leadership,
        content: Content::Image(topics),
    };
    put_entry(out, &entry)?;
    let Entry {
        leadership: _,
        content: Content::Image(topics),
    } = entry
    else {
        unreachable!();
    };
    match Image::of(alloc, topics) {
        Ok(_) => Ok(()),
        Err(fault) => {
            out.truncate(before);
            Err(ReplicaFault::from(fault))
        }
    }
}
