//! The places of the log, applied one after the other.
ghost use Rattle.std.specs.Prelude.{◌≡◌, ◌≢◌, ◌⊎◌, ◌+◌, ◌^◌, ◌<◌, IsTrue, false, Some, None, IfOk, IfErr, OnOk, OnErr};
ghost use Rattle.topic_meta.specs.Images.{entries_of};
ghost use Rattle.replica_entries.specs.Spelling.{FitsEntry};
ghost use Rattle.replica_entries.specs.Values.{frame as frame_content, tick, image, leads};
ghost use Rattle.replica_entries.specs.Views.{entry_value, frame_value};
ghost use Rattle.coord_replica.specs.declared.fault.ReplicaFault.TheVariants.{NoMemory};
ghost use Rattle.replica_entries.specs.Reading.{entry_at};
ghost use Rattle.coord_replica.specs.Applying.{AppliesBytes, IsHeldUp, TakesBytes, TakesEntry, TakesQuietly, checked, is_passed_over, refusal_of, refusal_of_read};
ghost use Rattle.coord_replica.specs.Entries.{stamp_under};
ghost use Rattle.coord_replica.specs.Replicas.{log_of, replica_state};

use crate::applied::Applied;
use crate::fault::ReplicaFault;
use crate::replica::Replica;
use coord_node::{Image, Moment, Stamp};
use replica_entries::{Content, Entry, LoggedFrame, read_entry};
use topic_meta::TopicEntry;

impl Replica {
    /// Applies the place of the log behind those that were applied; the first is 1. An entry is taken: that is the coordinator's step on what
    /// it brings. Appends the frame of the reply, where there is one, and says what it was.
    ///
    /// What is refused is passed over: its place is applied, and nothing else changes. So no late append holds a log up. Refused are, in this
    /// order: bytes that are no entry; another leadership than the present one, or than the next where it begins; a moment before the
    /// greatest; and topics that make no image.
    ///
    /// Nothing is applied, and nothing has changed, where the place is another than the next, where memory is short, after which the call may
    /// be made again, and where the bytes are of a version that only a later library knows. A place other than the next takes no memory.
    pub fn apply(
        &mut self,
        place: u64,
        bytes: &[u8],
        out: &mut Vec<u8>,
    ) -> Result<Applied, ReplicaFault>
        ensures applied { IfOk result (λ what. AppliesBytes (replica_state self.old) bytes.now what (replica_state self.new) out.old.items out.new.items) }
        ensures next { OnOk result (place ≡ self.old.applied + 1) }
        ensures held_up { IfErr result (IsHeldUp (log_of self.old) place bytes.now) }
        ensures out_of_place { place ≢ self.old.applied + 1 → result ≡ Err ReplicaFault.OutOfPlace }
        ensures err { OnErr result ((self.new ≡ self.old) × (out.new.items ≡ out.old.items)) }
    {
        if place == 0 || place - 1 != self.applied {
            return Err(ReplicaFault::OutOfPlace);
        }
        match self.take(bytes, out) {
            Ok(applied) => Ok(applied),
            Err(fault) => self.pass_over(fault),
        }
    }

    /// Passes an entry over that is refused by a fault, if one that is refused by it is passed over.
    fn pass_over(&mut self, fault: ReplicaFault) -> Result<Applied, ReplicaFault>
        requires room { self.old.applied + 1 < 2 ^ 64 }
        ensures passed { IfOk result (λ what. (what ≡ Applied.PassedOver fault) × IsTrue (is_passed_over fault) × (self.new ≡ record self.old { applied = self.old.applied + 1 })) }
        ensures held_up { IfErr result (λ why. (why ≡ fault) × (is_passed_over fault ≡ false)) }
        ensures err { OnErr result (self.new ≡ self.old) }
    {
        if !fault.is_passed_over() {
            return Err(fault);
        }
        self.applied += 1;
        Ok(Applied::PassedOver { fault })
    }

    /// Takes the entry that the bytes spell.
    fn take(&mut self, bytes: &[u8], out: &mut Vec<u8>) -> Result<Applied, ReplicaFault>
        requires room { self.old.applied + 1 < 2 ^ 64 }
        ensures taken { IfOk result (λ what. TakesBytes (replica_state self.old) bytes.now what (replica_state self.new) out.old.items out.new.items) }
        ensures refused { IfErr result (λ fault. (fault ≡ NoMemory) ⊎ (refusal_of_read (log_of self.old) (entry_at bytes.now) ≡ Some fault)) }
        ensures err { OnErr result ((self.new ≡ self.old) × (out.new.items ≡ out.old.items)) }
    {
        let entry = read_entry(self.alloc, bytes)?;
        self.take_entry(entry, out)
    }

    /// Takes an entry that was read.
    fn take_entry(&mut self, entry: Entry<'_>, out: &mut Vec<u8>) -> Result<Applied, ReplicaFault>
        requires room { self.old.applied + 1 < 2 ^ 64 }
        requires fits { FitsEntry (entry_value entry) }
        ensures taken { IfOk result (λ what. TakesEntry (replica_state self.old) (entry_value entry.entry) what (replica_state self.new) out.old.items out.new.items) }
        ensures refused { IfErr result (λ fault. (fault ≡ NoMemory) ⊎ (refusal_of (log_of self.old) (entry_value entry.entry) ≡ Some fault)) }
        ensures err { OnErr result ((self.new ≡ self.old) × (out.new.items ≡ out.old.items)) }
    {
        let Entry {
            leadership,
            content,
        } = entry;
        match content {
            Content::Frame(frame) => self.take_frame(leadership, frame, out),
            Content::Tick(moment) => self.take_tick(leadership, moment),
            Content::Image(topics) => self.take_topics(leadership, topics),
            Content::Leads => self.take_leads(leadership),
        }
    }

    /// The coordinator answers a frame.
    fn take_frame(
        &mut self,
        leadership: u32,
        frame: LoggedFrame<'_>,
        out: &mut Vec<u8>,
    ) -> Result<Applied, ReplicaFault>
        requires room { self.old.applied + 1 < 2 ^ 64 }
        requires fits { FitsEntry (record { leadership = leadership; content = frame_content (frame_value frame) }) }
        ensures taken { IfOk result (λ what. TakesEntry (replica_state self.old) (record { leadership = leadership; content = frame_content (frame_value frame.entry) })
            what (replica_state self.new) out.old.items out.new.items) }
        ensures refused { IfErr result (λ fault. (fault ≡ NoMemory)
            ⊎ (refusal_of (log_of self.old) (record { leadership = leadership; content = frame_content (frame_value frame.entry) }) ≡ Some fault)) }
        ensures err { OnErr result ((self.new ≡ self.old) × (out.new.items ≡ out.old.items)) }
    {
        self.check(leadership, frame.moment)?;
        let stamp = stamp_of(leadership, frame.connection, frame.number);
        let answered = self.node.answer(frame.body, stamp, frame.moment, out)?;
        self.applied += 1;
        self.moment = frame.moment;
        Ok(Applied::Frame {
            leadership,
            connection: frame.connection,
            number: frame.number,
            answered,
        })
    }

    /// The coordinator meets a moment.
    fn take_tick(&mut self, leadership: u32, moment: Moment) -> Result<Applied, ReplicaFault>
        requires room { self.old.applied + 1 < 2 ^ 64 }
        requires fits { moment < 2 ^ 63 }
        ensures taken { IfOk result (λ what. TakesQuietly (replica_state self.old) (record { leadership = leadership; content = tick moment }) what (replica_state self.new)) }
        ensures refused { IfErr result (λ fault. refusal_of (log_of self.old) (record { leadership = leadership; content = tick moment }) ≡ Some fault) }
        ensures err { OnErr result (self.new ≡ self.old) }
    {
        self.check(leadership, moment)?;
        let removed = self.node.tick(moment);
        self.applied += 1;
        self.moment = moment;
        Ok(Applied::Tick { removed })
    }

    /// The topics of the cluster are set.
    fn take_topics(
        &mut self,
        leadership: u32,
        topics: Vec<TopicEntry>,
    ) -> Result<Applied, ReplicaFault>
        requires room { self.old.applied + 1 < 2 ^ 64 }
        ensures taken { IfOk result (λ what. TakesQuietly (replica_state self.old) (record { leadership = leadership; content = image (entries_of topics.items) })
            what (replica_state self.new)) }
        ensures refused { IfErr result (λ fault. (fault ≡ NoMemory)
            ⊎ (refusal_of (log_of self.old) (record { leadership = leadership; content = image (entries_of topics.items) }) ≡ Some fault)) }
        ensures err { OnErr result (self.new ≡ self.old) }
    {
        self.check(leadership, self.moment)?;
        let image = Image::of(self.alloc, topics)?;
        self.node.set_image(image);
        self.applied += 1;
        Ok(Applied::Topics)
    }

    /// A leadership begins, and ends this replica's own.
    fn take_leads(&mut self, leadership: u32) -> Result<Applied, ReplicaFault>
        requires room { self.old.applied + 1 < 2 ^ 64 }
        requires fits { leadership < 2 ^ 31 }
        ensures taken { IfOk result (λ what. TakesQuietly (replica_state self.old) (record { leadership = leadership; content = leads }) what (replica_state self.new)) }
        ensures refused { IfErr result (λ fault. refusal_of (log_of self.old) (record { leadership = leadership; content = leads }) ≡ Some fault) }
        ensures err { OnErr result (self.new ≡ self.old) }
    {
        if leadership != self.leadership + 1 {
            return Err(ReplicaFault::OtherLeadership);
        }
        self.applied += 1;
        self.leadership = leadership;
        self.leading = None;
        self.proposed = Moment::of_millis(0);
        Ok(Applied::Leads { leadership })
    }

    /// Whether an entry is of the present leadership, and not before the log's moment.
    fn check(&self, leadership: u32, moment: Moment) -> Result<(), ReplicaFault>
        ensures { result ≡ checked (log_of self.now) leadership moment }
    {
        if leadership != self.leadership {
            return Err(ReplicaFault::OtherLeadership);
        }
        if moment < self.moment {
            return Err(ReplicaFault::EarlierMoment);
        }
        Ok(())
    }
}

/// The stamp of a frame: the number of its leadership stands before that of its connection.
fn stamp_of(leadership: u32, connection: u32, number: u64) -> Stamp
    ensures { result ≡ stamp_under leadership connection number }
{
    Stamp {
        connection: (u64::from(leadership) << 32) + u64::from(connection),
        frame: number,
    }
}
