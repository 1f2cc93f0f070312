//! The names of a name space, in the order in which they were given, and their objects.
ghost use Rattle.std.specs.Prelude.{◌≡◌, OnOk, OnErr, IfSome, IsSome, Some, false, true};
ghost use Rattle.std.specs.FinMap as map;
ghost use Rattle.std.specs.FinSet as set;
ghost use Rattle.std.specs.Option.{option_copied_mut};
ghost use Rattle.std.specs.Borrow.{sem};
ghost use Rattle.gl_plain.specs.subjects.Names.{made_object, named, new_name};
ghost use Rattle.strict_driver.specs.Standings.{empty_space, name_in, place_in};
ghost use Rattle.strict_driver.specs.LentObject.{lends_object};

use crate::ordered::OrderedMap;
use gl_plain::Name;
use slab::Slab;
use std::alloc::{AllocError, Global};
use std::marker::Model;

/// What a name that was given stands for.
#[derive(Clone, Copy, Debug, PartialEq, Eq)]
enum Standing {
    /// No object yet.
    Unmade,
    /// The object at this place.
    Made(usize),
    /// Nothing any more.
    Gone,
}

/// What is kept of a name in use, by what it stands for.
fn standing_name(name: u64, standing: Option<Standing>) -> Option<Name>
    ensures value { result ≡ name_in name standing }
    ensures own { IfSome result (λ found. found.number ≡ name) }
{
    let is_object = match standing {
        None | Some(Standing::Gone) => return None,
        Some(Standing::Unmade) => false,
        Some(Standing::Made(_)) => true,
    };
    Some(Name {
        number: name,
        is_object,
    })
}

/// The place of a name's object, if it has one.
fn standing_place(standing: Option<Standing>) -> Option<usize>
    ensures { result ≡ place_in standing }
{
    match standing {
        Some(Standing::Made(place)) => Some(place),
        _ => None,
    }
}

/// The names of a name space in the order in which they were given, and the objects, each at a place. The place of an object that goes is
/// used again; its name is not.
#[derive(Drop)]
pub struct NameSpace<T> {
    standings: OrderedMap<Standing>,
    objects: Slab<T>,
}

impl<T> Model for NameSpace<T> {
    ghost use Rattle.strict_driver.specs.Standings.{Space, space_code, space_of, IsPlaced};

    ghost Value = { Space T };

    ghost coded = { space_code T.code };

    ghost view = { λ a. space_of a.standings a.objects };

    ghost invariant = { λ a. IsPlaced a.standings a.objects };
}

impl<T> NameSpace<T> {
    /// No name was given yet. It takes no memory.
    pub fn new(alloc: Global) -> NameSpace<T>
        ensures { result ≡ empty_space }
    {
        NameSpace {
            standings: OrderedMap::new(alloc),
            objects: Slab::new(alloc),
        }
    }

    /// What is kept of a name in use.
    pub fn name(&self, name: u64) -> Option<Name>
        ensures value { result ≡ map.get self.now.names name }
        ensures own { IfSome result (λ found. found.number ≡ name) }
        ensures there { IfSome result (λ found. found.is_object ≡ true → IsSome (map.get self.now.objects name)) }
    {
        standing_name(name, self.standings.get(name).copied())
    }
}

impl<T: Drop> NameSpace<T> {
    /// Gives a name that was never given before. Without memory for it all is as before.
    pub fn give(&mut self, name: u64) -> Result<(), AllocError>
        requires { set.contains self.old.given name ≡ false }
        ensures ok { OnOk result (self.new ≡ record self.old { names = named self.old.names name name; given = set.insert self.old.given name }) }
        ensures err { OnErr result (self.new ≡ self.old) }
    {
        self.standings.insert(name, Standing::Unmade)?;
        Ok(())
    }

    /// Makes the object of a name that has none yet. Without memory for it all is as before.
    pub fn make(&mut self, name: u64, object: T) -> Result<(), AllocError>
        requires { map.get self.old.names name ≡ Some (new_name name) }
        ensures ok { OnOk result (self.new ≡ record self.old { names = made_object self.old.names name (new_name name); objects = map.insert self.old.objects name object }) }
        ensures err { OnErr result (self.new ≡ self.old) }
    {
        let place = self.objects.insert(object)?;
        let _unmade = self.standings.replace(name, Standing::Made(place));
        Ok(())
    }

    /// The object of a name to be written in place.
    pub fn object_mut(&mut self, name: u64) -> Option<&mut T>
        ensures* writes_back { sem 𝓛 (lends_object T.row self.entry name result) }
        ensures value { option_copied_mut result ≡ map.get self.old.objects name }
    {
        let place = standing_place(self.standings.get(name).copied())?;
        match self.objects.get_mut(place) {
            Some(object) => Some(object),
            None => None,
        }
    }

    /// Takes a name out of use, with its object, which it gives.
    pub fn remove(&mut self, name: u64) -> Option<T>
        ensures own { IfSome (map.get self.old.names name) (λ x. x.number ≡ name) }
        ensures object { result ≡ map.get self.old.objects name }
        ensures rest { self.new ≡ record self.old { names = map.remove self.old.names name; objects = map.remove self.old.objects name } }
    {
        let place = standing_place(self.standings.replace(name, Standing::Gone))?;
        self.objects.try_remove(place)
    }
}
