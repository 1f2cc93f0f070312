//! A table from object names to values, which counts its ordinary names.
ghost use Rattle.std.specs.Prelude.{◌≡◌, OnOk, OnErr, IfNone};
ghost use Rattle.std.specs.Ordering.{nat_cmp};
ghost use Rattle.std.specs.FinMap as map;
ghost use Rattle.std.specs.Option.{option_copied, option_copied_mut};
ghost use Rattle.std.specs.Bool.{OnTrue, OnFalse};
ghost use Rattle.std.specs.Borrow.{sem};
ghost use Rattle.gl_base.specs.Names as names;
ghost use Rattle.svc_names.specs.Answers.{IsAnswer, is_full_for};
ghost use Rattle.svc_names.specs.Lent.{lends_value};

use gl_base::limits::NAME_LIMIT;
use gl_base::{NumberMap, is_ordinary};
use std::alloc::Global;
use std::marker::Model;

/// Why a name was not added. It hands the value back.
#[derive(Debug, PartialEq, Eq, Drop)]
pub enum NameRefusal<T> {
    /// The name is in the table.
    InUse(T),
    /// The name is ordinary, and the table has 65,536 ordinary names.
    Full(T),
    /// There was no memory for a new name.
    NoMemory(T),
}

/// A map from object names to values.
#[derive(Drop)]
pub struct NameTable<T> {
    entries: NumberMap<T>,
    ordinary: u32,
}

impl<T> Model for NameTable<T> {
    ghost use Rattle.std.specs.Prelude.{◌≡◌, ◌≤◌};
    ghost use Rattle.std.specs.Ordering.{nat_cmp};
    ghost use Rattle.std.specs.FinMap as map;
    ghost use Rattle.std.specs.Coded.{coded_ℕ};
    ghost use Rattle.gl_base.specs.Names.{ordinary_count, AreWords};
    ghost use Rattle.gl_base.specs.declared.limits.TheConstants.{NAME_LIMIT};

    ghost Value = { map.FinMap nat_cmp T };

    ghost coded = { map.code coded_ℕ T.code };

    ghost view = { λ a. a.entries };

    ghost invariant = { λ a. (a.ordinary ≡ ordinary_count a.entries) × (a.ordinary ≤ NAME_LIMIT) × AreWords a.entries };
}

impl<T> NameTable<T> {
    /// A table with no names.
    pub fn new(alloc: Global) -> NameTable<T>
        ensures { result ≡ map.empty }
    {
        NameTable {
            entries: NumberMap::new(alloc),
            ordinary: 0,
        }
    }

    /// The value of a name, if the name is in the table.
    pub fn find(&self, id: u32) -> Option<&T>
        ensures { option_copied result ≡ map.get self.now id }
    {
        self.entries.get(id as u64)
    }

    /// The names, by rising names, with their values.
    pub fn entries(&self) -> &NumberMap<T>
        ensures same { result.now ≡ self.now }
        ensures words { names.AreWords self.now }
    {
        &self.entries
    }

    /// Whether so many ordinary names more would be over the limit of 65,536.
    pub fn is_over_limit(&self, more: u32) -> bool
        ensures { result ≡ names.is_over_limit self.now more }
    {
        NAME_LIMIT - self.ordinary < more
    }

    /// Whether the name is one that the table has no room for.
    fn is_full_for(&self, id: u32) -> bool
        ensures { result ≡ is_full_for self.now id }
    {
        is_ordinary(id) && self.is_over_limit(1)
    }
}

impl<T: Drop> NameTable<T> {
    /// Adds a value under a new name. A refusal hands the value back and leaves the table as it was.
    pub fn add(&mut self, id: u32, value: T) -> Result<(), NameRefusal<T>>
        ensures ok { OnOk result (self.new ≡ map.insert self.old id value) }
        ensures err { OnErr result (self.new ≡ self.old) }
        ensures cause { IsAnswer self.old id value result }
    {
        if self.entries.contains(id as u64) {
            return Err(NameRefusal::InUse(value));
        }
        if self.is_full_for(id) {
            return Err(NameRefusal::Full(value));
        }
        match self.entries.insert(id as u64, value) {
            Err(failed) => Err(NameRefusal::NoMemory(failed.value)),
            Ok(_) => {
                if is_ordinary(id) {
                    self.ordinary += 1;
                }
                Ok(())
            }
        }
    }

    /// The value of a name to be written in place. A write changes that value alone.
    pub fn find_mut(&mut self, id: u32) -> Option<&mut T>
        ensures* writes_back { sem 𝓛 (lends_value T.row self.entry id result) }
        ensures value { option_copied_mut result ≡ map.get self.old id }
    {
        match self.entries.get_mut(id as u64) {
            Some(value) => Some(value),
            None => None,
        }
    }

    /// Writes a value over the one under a name that is there. It takes no memory.
    pub fn replace(&mut self, id: u32, value: T) -> bool
        ensures found { result ≡ map.contains_key self.old id }
        ensures replaced { OnTrue result (self.new ≡ map.insert self.old id value) }
        ensures absent { OnFalse result (self.new ≡ self.old) }
    {
        self.entries.replace(id as u64, value)
    }

    /// Takes a name out of the table and gives its value.
    pub fn remove(&mut self, id: u32) -> Option<T>
        ensures value { result ≡ map.get self.old id }
        ensures rest { self.new ≡ map.remove self.old id }
        ensures absent { IfNone result (self.new ≡ self.old) }
    {
        let removed = self.entries.remove(id as u64)?;
        if is_ordinary(id) {
            self.ordinary -= 1;
        }
        Some(removed)
    }
}
