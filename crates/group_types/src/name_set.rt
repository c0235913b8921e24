//! A set of topic names.
ghost use Rattle.std.specs.Prelude.{◌≡◌, ℕ, not, length, map, IsTrue, ◌↔◌, IfOk, OnOk, OnErr};
ghost use Rattle.std.specs.Map.Iter.{ShowsInOrder, deref};
ghost use Rattle.std.specs.String.{string_bytes};
ghost use Rattle.std.specs.Prelude.{String};
ghost use Rattle.std.specs.declared.alloc.Global.{Global as Heap};
ghost use Rattle.group_types.specs.Text.{text_cmp};
ghost use Rattle.group_types.specs.Sets.{nothing, has, with_one, in_order, size, is_nothing, are_same, union};

use std::alloc::{AllocError, Global};
use std::collections::BTreeSet;
use std::collections::btree_set::Iter;
use std::marker::Model;

/// A set of topic names, in the order of their bytes.
#[derive(Drop)]
pub struct NameSet {
    names: BTreeSet<String>,
}

impl Model for NameSet {
    ghost use Rattle.std.specs.Prelude.{map};
    ghost use Rattle.std.specs.Coded.{coded_list, coded_ℕ};
    ghost use Rattle.std.specs.FinSet as set;
    ghost use Rattle.std.specs.String.{string_bytes};
    ghost use Rattle.group_types.specs.Sets.{of_list};
    ghost use Rattle.group_types.specs.Topics.{Names};

    ghost Value = { Names };

    ghost coded = { set.code (coded_list coded_ℕ) };

    ghost view = { λ s. of_list (map string_bytes s.names.keys) };
}

impl NameSet {
    /// The set with no name. Takes no memory.
    pub fn new(alloc: Global) -> NameSet
        ensures { result ≡ nothing }
    {
        NameSet {
            names: BTreeSet::new(alloc),
        }
    }

    /// Whether the name is in the set.
    pub fn contains(&self, name: &str) -> bool
        ensures { result ≡ has self.now name.now }
    {
        self.names.contains(name)
    }

    /// Adds the name, and says whether it is new. Where memory is short, the set stays as it was.
    pub fn insert(&mut self, alloc: Global, name: &str) -> Result<bool, AllocError>
        ensures added { OnOk result (self.new ≡ with_one self.old name.now) }
        ensures is_new { IfOk result (λ new. new ≡ not (has self.old name.now)) }
        ensures err { OnErr result (self.new ≡ self.old) }
    {
        let name = String::from_str(alloc, name)?;
        Ok(self.names.insert(name)?)
    }

    /// Adds the names of the other set. Where memory is short, the set stays as it was.
    pub fn add_all(&mut self, alloc: Global, other: &NameSet) -> Result<(), AllocError>
        ensures added { OnOk result (self.new ≡ union self.old other.now) }
        ensures err { OnErr result (self.new ≡ self.old) }
    {
        let mut all = self.copy(alloc)?;
        all.add_each(alloc, other)?;
        *self = all;
        Ok(())
    }

    /// Adds the names of the other set one by one. Where memory is short, some of them may be in already.
    fn add_each(&mut self, alloc: Global, other: &NameSet) -> Result<(), AllocError>
        ensures { OnOk result (self.new ≡ union self.old other.now) }
    {
        for name in other.iter() {
            self.insert(alloc, name.as_str())?;
        }
        Ok(())
    }

    /// How many names the set has.
    pub fn len(&self) -> usize
        ensures { result ≡ size self.now }
    {
        self.names.len()
    }

    /// Whether the set has no name.
    pub fn is_empty(&self) -> bool
        ensures value { result ≡ is_nothing self.now }
        ensures empty { IsTrue result ↔ (self.now ≡ nothing) }
    {
        self.names.is_empty()
    }

    /// The names, rising.
    pub fn iter(&self) -> Iter<'_, String>
        ensures rest { map string_bytes result ≡ in_order self.now }
        ensures runs { ShowsInOrder (deref {X = String Heap}) }
    {
        self.names.iter()
    }

    /// A copy of the set. Fails where memory is short.
    pub fn copy(&self, alloc: Global) -> Result<NameSet, AllocError>
        ensures { IfOk result (λ copy. copy ≡ self.now) }
    {
        let mut copy = NameSet::new(alloc);
        for name in self.iter() {
            copy.insert(alloc, name.as_str())?;
        }
        Ok(copy)
    }

    /// Whether the two sets have the same names.
    pub fn equals(&self, other: &NameSet) -> bool
        ensures value { result ≡ are_same self.now other.now }
        ensures same { IsTrue result ↔ (self.now ≡ other.now) }
    {
        let (mine, theirs) = (&self.names, &other.names);
        mine.len() == theirs.len() && mine == theirs
    }
}
