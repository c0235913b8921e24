//! New shards of a program.
ghost use Rattle.std.specs.Prelude.{◌≡◌, ◌+◌, ◌*◌, ◌≤◌, IfOk};

use crate::fault::ServerFault;
use coord_shards::{AlwaysOpen, Shards};
use std::alloc::Global;
use std::collections::hash_map::RandomState;
use std::sync::ledger::{Blank, Ledger};

/// How many seats the shards can give out.
const SEATS: u64 = 256;

/// What new shards are made of: they keep no journals, and no gate holds their replies.
#[derive(Drop)]
pub struct NewShards {
    pub shards: usize,
    pub salt: u64,
    pub keys: RandomState,
    pub entries: Blank,
    pub calls: Blank,
}

impl NewShards {
    /// For this number of shards, whose ids are made with a salt, and whose maps have these keys.
    pub fn new(shards: usize, salt: u64, keys: RandomState) -> NewShards
        requires { shards ≤ 64 }
        ensures given { (result.shards ≡ shards) × (result.salt ≡ salt) }
        ensures blanks { (result.entries.parts ≡ 2 * shards) × (result.calls.parts ≡ 256 + shards) }
    {
        let count = shards as u64;
        NewShards {
            shards,
            salt,
            keys,
            entries: Blank::new(2 * count),
            calls: Blank::new(SEATS + count),
        }
    }

    /// The shards, over the ledgers that the blanks become.
    pub fn open<A: Ledger, C: Ledger>(
        self,
        alloc: Global,
    ) -> Result<Shards<A, C, AlwaysOpen>, ServerFault>
        requires entries { (self.entries.name ≡ A.name) × (self.entries.parts ≡ A.parts) × (self.entries.parts ≡ 2 * self.shards) }
        requires calls { (self.calls.name ≡ C.name) × (self.calls.parts ≡ C.parts) × (self.calls.parts ≡ 256 + self.shards) }
        ensures { IfOk result (λ made. made ≡ record { shards = self.shards; salt = self.salt; cap = 0 }) }
    {
        let NewShards {
            shards,
            salt,
            keys,
            entries,
            calls,
        } = self;
        let gate = AlwaysOpen;
        Ok(Shards::<A, C, AlwaysOpen>::new(alloc, shards, salt, 0, keys, gate, entries, calls)?)
    }
}
