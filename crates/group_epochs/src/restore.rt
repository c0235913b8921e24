//! Records that are built from members and former members that are known.

ghost use Rattle.std.specs.Prelude.{◌≡◌, ◌↔◌, ◌++◌, ◌∷◌, [], if◌then◌else◌, IfOk, IsTrue, OnErr};
ghost use Rattle.std.specs.Option.{option_copied};
ghost use Rattle.std.specs.FinMap as finite;
ghost use Rattle.group_epochs.specs.Records.{members_in};
ghost use Rattle.group_epochs.specs.Restored.{CanBePast, CanBeRestored, IsFreeInstance, IsNewId};

use crate::record::Record;
use crate::records::Records;
use group_types::limits::MOST_PAST_MEMBERS;
use group_types::{MemberId, Stamp};
use std::alloc::AllocError;

impl Records {
    /// Adds a member with its record, and says whether it did: its id isn't empty, it has no record, it is no former member, and
    /// nobody has its instance. If not, or where memory is short, nothing changes but the room. How many members there are is the
    /// caller's to limit.
    pub fn restore(&mut self, id: &MemberId, record: Record) -> Result<bool, AllocError>
        ensures can { IfOk result (λ yes. IsTrue yes ↔ CanBeRestored (members_in self.old) id.now «record») }
        ensures records { IfOk result (λ yes. self.new.records ≡ (if yes then finite.insert self.old.records id.now «record» else self.old.records)) }
        ensures err { OnErr result (self.new.records ≡ self.old.records) }
        ensures past { self.new.past ≡ self.old.past }
        ensures marks { self.new.marks ≡ self.old.marks }
    {
        if !self.can_be_restored(id.as_str(), &record) {
            return Ok(false);
        }
        let member = self.prepare(id, &record)?;
        self.admit(member, record);
        Ok(true)
    }

    /// Adds a former member with its last stamp, behind the others, and says whether it did: its id isn't empty, it has no record and
    /// isn't remembered already, and fewer than [`MOST_PAST_MEMBERS`] are. If not, or where memory is short, nothing changes but the
    /// room.
    pub fn restore_past(&mut self, id: MemberId, stamp: Stamp) -> Result<bool, AllocError>
        ensures can { IfOk result (λ yes. IsTrue yes ↔ CanBePast (members_in self.old) id) }
        ensures past { IfOk result (λ yes. self.new.past ≡ (if yes then self.old.past ++ (id, stamp) ∷ [] else self.old.past)) }
        ensures err { OnErr result (self.new.past ≡ self.old.past) }
        ensures records { self.new.records ≡ self.old.records }
        ensures marks { self.new.marks ≡ self.old.marks }
    {
        if !self.is_new(id.as_str()) || MOST_PAST_MEMBERS <= self.past_len() {
            return Ok(false);
        }
        self.remember(id, stamp)?;
        Ok(true)
    }

    /// Whether a member with this id and this record can be added. Takes no memory.
    fn can_be_restored(&self, id: &str, record: &Record) -> bool
        ensures { IsTrue result ↔ CanBeRestored (members_in self.now) id.now «record».now }
    {
        self.is_new(id) && self.is_free(record.instance())
    }

    /// Whether an id isn't empty, has no record, and isn't remembered. Takes no memory.
    fn is_new(&self, id: &str) -> bool
        ensures { IsTrue result ↔ IsNewId (members_in self.now) id.now }
    {
        !id.is_empty() && !self.remembers(id)
    }

    /// Whether nobody has the instance, if there is one. Takes no memory.
    fn is_free(&self, instance: Option<&str>) -> bool
        ensures { IsTrue result ↔ IsFreeInstance self.now.records (option_copied instance.entry) }
    {
        match instance {
            Some(instance) => self.with_instance(instance).is_none(),
            None => true,
        }
    }
}
