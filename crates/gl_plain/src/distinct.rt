//! Numbers that are listed once each.
ghost use Rattle.std.specs.Prelude.{◌≡◌, [], ◌∷◌, ◌++◌, not, if◌then◌else◌, IfOk, OnErr};
ghost use Rattle.gl_plain.specs.Distinct.{is_listed};

use crate::Words;
use gl_base::NumberMap;
use std::alloc::{AllocError, Global};
use std::marker::Model;

/// Numbers in the order in which they were added, each once. Contracts see the list.
#[derive(Drop)]
pub struct DistinctNumbers {
    listed: Words,
    /// The listed numbers as keys, so that a long list isn't searched for each number that is added.
    keys: NumberMap<()>,
}

impl Model for DistinctNumbers {
    ghost use Rattle.std.specs.Prelude.{ℕ, List};
    ghost use Rattle.std.specs.Coded.{coded_list, coded_ℕ};
    ghost use Rattle.gl_plain.specs.Distinct.{AreKeys};

    ghost Value = { List ℕ };

    ghost coded = { coded_list coded_ℕ };

    ghost view = { λ a. a.listed };

    ghost invariant = { λ a. AreKeys a.keys a.listed };
}

impl DistinctNumbers {
    /// No numbers. It takes no memory.
    pub fn new(alloc: Global) -> DistinctNumbers
        ensures { result ≡ [] }
    {
        DistinctNumbers {
            listed: Words::new(alloc),
            keys: NumberMap::new(alloc),
        }
    }

    /// Adds a number at the end, where it isn't listed yet. The answer is whether it was added. Without memory for it the list is
    /// as before.
    pub fn add(&mut self, number: u32) -> Result<bool, AllocError>
        ensures is_new { IfOk result (λ is_new. is_new ≡ not (is_listed self.old number)) }
        ensures ok { IfOk result (λ is_new. self.new ≡ (if is_new then self.old ++ number ∷ [] else self.old)) }
        ensures err { OnErr result (self.new ≡ self.old) }
    {
        let key = u64::from(number);
        if self.keys.contains(key) {
            return Ok(false);
        }
        let Ok(_) = self.keys.insert(key, ()) else {
            return Err(AllocError);
        };
        if let Err(error) = self.listed.push(number) {
            self.keys.remove(key);
            return Err(error);
        }
        Ok(true)
    }

    /// The list.
    pub fn into_words(self) -> Words
        ensures { result ≡ self }
    {
        let DistinctNumbers { listed, keys: _ } = self;
        listed
    }
}
