//! The names of a script's clients.
ghost use Rattle.std.specs.Prelude.{◌≡◌, ◌++◌, ◌∷◌, [], map, string_bytes, IfOk, IfErr, OnOk, OnErr};
ghost use Rattle.scenario_lines.specs.Scripts.{IsClient, number_in};
ghost use Rattle.scenario_text.specs.Words.{IsName};

use indexmap::IndexSet;
use scenario_text::fault::LineFault;
use scenario_text::words;
use std::alloc::{AllocError, Global};
use std::collections::hash_map::RandomState;
use std::marker::Model;

/// The names of a script's clients, in the order of their numbers from 1.
#[derive(Drop)]
pub struct Cast {
    names: IndexSet<String, RandomState>,
}

impl Model for Cast {
    ghost use Rattle.std.specs.Prelude.{List, ℕ, map, string_bytes};

    ghost Value = { List (List ℕ) };

    ghost view = { λ cast. map string_bytes cast.names.keys };
}

impl Cast {
    /// Nobody. Takes no memory.
    pub fn new(alloc: Global, hasher: RandomState) -> Cast
        ensures { result ≡ [] }
    {
        Cast {
            names: IndexSet::with_hasher(alloc, hasher),
        }
    }

    /// The number of the client with a name, from 1; 0 where nobody has it, which is no client's number.
    pub fn number_of(&self, name: &str) -> usize
        ensures { result ≡ number_in self.now name.now }
    {
        let _ = self.names.len();
        match self.names.get_index_of(name) {
            Some(place) => place + 1,
            None => 0,
        }
    }

    /// The number of the client that a word names, where the word is a name.
    pub fn client(&self, word: &str) -> Result<usize, LineFault>
        ensures client { IfOk result (IsClient self.now word.now) }
        ensures refused { OnErr result (¬ IsName word.now) }
        ensures fault { IfErr result (λ fault. fault ≡ LineFault.BadLine) }
    {
        if words::is_name(word) {
            Ok(self.number_of(word))
        } else {
            Err(LineFault::BadLine)
        }
    }

    /// One name more, behind the others, of whom nobody has it.
    pub fn add(&mut self, alloc: Global, name: &str) -> Result<(), AllocError>
        requires { number_in self.old name.now ≡ 0 }
        ensures { OnOk result (self.new ≡ self.old ++ name.now ∷ []) }
    {
        self.names.insert(String::from_str(alloc, name)?)?;
        Ok(())
    }

    /// The names, in order.
    pub fn names(&self) -> &[String]
        ensures { map string_bytes result.now ≡ self.now }
    {
        self.names.as_slice()
    }
}
