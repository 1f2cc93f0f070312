//! A map from numbers that keeps the order in which they came.
ghost use Rattle.std.specs.Prelude.{◌≡◌, OnOk, OnErr, OnSome, IfNone};
ghost use Rattle.std.specs.FinMap as map;
ghost use Rattle.std.specs.Option.{option_copied};

use indexmap::IndexMap;
use std::alloc::{AllocError, Global};
use std::marker::Model;
use std::mem;

/// A map from numbers that keeps the order in which they came, seen as a finite map.
#[derive(Drop)]
pub struct OrderedMap<T> {
    entries: IndexMap<u64, T>,
}

impl<T> Model for OrderedMap<T> {
    ghost use Rattle.std.specs.Ordering.{nat_cmp};
    ghost use Rattle.std.specs.FinMap as map;
    ghost use Rattle.std.specs.Coded.{coded_ℕ};

    ghost Value = { map.FinMap nat_cmp T };

    ghost coded = { map.code coded_ℕ T.code };

    ghost view = { λ a. map.from_entries a.entries.entries };
}

impl<T> OrderedMap<T> {
    /// A map with no keys. It takes no memory.
    pub fn new(alloc: Global) -> OrderedMap<T>
        ensures { result ≡ map.empty }
    {
        OrderedMap {
            entries: IndexMap::new(alloc),
        }
    }

    /// The value of a key, if it has one.
    pub fn get(&self, key: u64) -> Option<&T>
        ensures { option_copied result ≡ map.get self.now key }
    {
        self.entries.get(&key)
    }
}

impl<T: Drop> OrderedMap<T> {
    /// Sets the value of a key. Without memory, which only a new key needs, the map is as before.
    pub fn insert(&mut self, key: u64, value: T) -> Result<(), AllocError>
        ensures ok { OnOk result (self.new ≡ map.insert self.old key value) }
        ensures err { OnErr result (self.new ≡ self.old) }
    {
        self.entries.insert(key, value)?;
        Ok(())
    }

    /// Writes a value in place of the one that a key has, and gives that. Nothing is done where it has none. It takes no memory.
    pub fn replace(&mut self, key: u64, value: T) -> Option<T>
        ensures before { result ≡ map.get self.old key }
        ensures replaced { OnSome result (self.new ≡ map.insert self.old key value) }
        ensures absent { IfNone result (self.new ≡ self.old) }
    {
        let place = self.entries.get_mut(&key)?;
        Some(mem::replace(place, value))
    }
}
