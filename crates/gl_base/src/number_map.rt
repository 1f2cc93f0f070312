//! Maps from numbers to values, which contracts see as finite maps.
ghost use Rattle.std.specs.Prelude.{ℕ, ◌≡◌, OnOk, OnErr, IfOk, IfErr, IfNone, None, Some, IsTrue, ◌↔◌, All};
ghost use Rattle.std.specs.Map.Iter.{ShowsInOrder, deref_pair};
ghost use Rattle.std.specs.Ordering.{nat_cmp};
ghost use Rattle.std.specs.FinMap as map;
ghost use Rattle.std.specs.Option.{option_copied, option_copied_mut};
ghost use Rattle.std.specs.Bool.{OnTrue, OnFalse};
ghost use Rattle.std.specs.Borrow.{sem};
ghost use Rattle.gl_base.specs.Lent.{lends_value};

use std::alloc::{AllocFailed, Global};
use std::collections::BTreeMap;
use std::collections::btree_map::Iter;
use std::marker::Model;

/// A map from numbers, seen as a finite map.
#[derive(Drop)]
pub struct NumberMap<T> {
    entries: BTreeMap<u64, T>,
}

impl<T> Model for NumberMap<T> {
    ghost use Rattle.std.specs.Ordering.{nat_cmp};
    ghost use Rattle.std.specs.FinMap as map;
    ghost use Rattle.std.specs.Coded.{coded_ℕ};

    ghost Value = { map.FinMap nat_cmp T };

    ghost coded = { map.code coded_ℕ T.code };

    ghost view = { λ a. map.from_entries a.entries.entries };
}

impl<T> NumberMap<T> {
    /// A map with no keys.
    pub fn new(alloc: Global) -> NumberMap<T>
        ensures { result ≡ map.empty }
    {
        NumberMap {
            entries: BTreeMap::new(alloc),
        }
    }

    /// The value of a key, if it has one.
    pub fn get(&self, key: u64) -> Option<&T>
        ensures { option_copied result ≡ map.get self.now key }
    {
        self.entries.get(&key)
    }

    /// Whether the key has a value.
    pub fn contains(&self, key: u64) -> bool
        ensures { result ≡ map.contains_key self.now key }
    {
        self.get(key).is_some()
    }

    /// How many keys have a value.
    pub fn len(&self) -> usize
        ensures { result ≡ map.len self.now }
    {
        self.entries.len()
    }

    /// The keys with their values, by rising keys.
    pub fn iter(&self) -> Iter<'_, u64, T>
        ensures rest { result ≡ map.entries self.now }
        ensures runs { ShowsInOrder (deref_pair {K = ℕ} {X = T}) }
        ensures found { All (λ e. map.get self.now e.0 ≡ Some e.1) (map.entries self.now) }
    {
        self.entries.iter()
    }

    /// Whether no key has a value.
    pub fn is_empty(&self) -> bool
        ensures { IsTrue result ↔ (self.now ≡ map.empty) }
    {
        self.len() == 0
    }
}

impl<T: Drop> NumberMap<T> {
    /// Sets the value of a key and gives the one that it had before. Where there is no memory, which only a new key
    /// needs, the value comes back and the map stays as it was.
    pub fn insert(&mut self, key: u64, value: T) -> Result<Option<T>, AllocFailed<T>>
        ensures before { IfOk result (λ before. before ≡ map.get self.old key) }
        ensures ok { OnOk result (self.new ≡ map.insert self.old key value) }
        ensures err { OnErr result (self.new ≡ self.old) }
        ensures handed_back { IfErr result (λ failed. failed.value ≡ value) }
        ensures only_new { OnErr result (map.get self.old key ≡ None) }
    {
        let refused = match self.entries.insert(key, value) {
            Ok(before) => return Ok(before),
            Err(failed) => failed.value,
        };
        Err(AllocFailed { value: refused.1 })
    }

    /// Writes a value in place of the one that is there. It takes no memory.
    pub fn replace(&mut self, key: u64, value: T) -> bool
        ensures found { result ≡ map.contains_key self.old key }
        ensures replaced { OnTrue result (self.new ≡ map.insert self.old key value) }
        ensures absent { OnFalse result (self.new ≡ self.old) }
    {
        let Some(place) = self.entries.get_mut(&key) else {
            return false;
        };
        *place = value;
        true
    }

    /// Takes a key out of the map and gives its value, if it had one.
    pub fn remove(&mut self, key: u64) -> Option<T>
        ensures value { result ≡ map.get self.old key }
        ensures rest { self.new ≡ map.remove self.old key }
        ensures absent { IfNone result (self.new ≡ self.old) }
    {
        self.entries.remove(&key)
    }

    /// The value of a key to be written in place, if it has one. A write changes that value alone.
    pub fn get_mut(&mut self, key: u64) -> Option<&mut T>
        ensures* writes_back { sem 𝓛 (lends_value T.row self.entry key result) }
        ensures value { option_copied_mut result ≡ map.get self.old key }
    {
        match self.entries.get_mut(&key) {
            Some(value) => Some(value),
            None => None,
        }
    }
}

#[cfg(test)]
mod tests {
    use super::*;
    use std::test::Fail;

    #[test]
    fn keeps_values_by_number(rt: HostRuntime) -> Result<(), Fail> {
        let mut map = NumberMap::<u32>::new(rt.alloc());
        assert!(rt; map.is_empty());
        assert_eq!(rt; map.insert(u64::MAX, 10)?, None);
        assert_eq!(rt; map.insert(0, 20)?, None);
        assert_eq!(rt; map.insert(0, 21)?, Some(20));
        assert_eq!(rt; map.len(), 2);
        assert!(rt; !map.is_empty());

        assert_eq!(rt; map.get(0).copied(), Some(21));
        assert_eq!(rt; map.get(1).copied(), None);
        assert!(rt; map.contains(u64::MAX));
        assert!(rt; !map.contains(1));

        assert!(rt; map.replace(u64::MAX, 11));
        assert!(rt; !map.replace(1, 30));
        if let Some(value) = map.get_mut(0) {
            *value = 22;
        }
        assert_eq!(rt; map.remove(0), Some(22));
        assert_eq!(rt; map.remove(0), None);
        assert_eq!(rt; map.remove(u64::MAX), Some(11));
        assert!(rt; map.is_empty());
        Ok(())
    }
}
