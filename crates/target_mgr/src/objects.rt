//! Objects of one kind, as renderbuffers and framebuffers are: their names, the objects by number, and what is bound (OpenGL ES 2.0.25,
//! sections 4.4.1 and 4.4.3).
ghost use Rattle.std.specs.Prelude.{◌≡◌, ◌≢◌, OnOk, OnErr, IsSome, Some};
ghost use Rattle.std.specs.FinMap as map;
ghost use Rattle.gl_base.specs.Names as limits;
ghost use Rattle.gl_plain.specs.subjects.Names.{name_of, named, new_name, unbound};
ghost use Rattle.gl_plain.specs.subjects.Targets.{no_objects, binding, with_object, bind_effect, delete_effect};
ghost use Rattle.svc_names.specs.Answers.{IsAnswer};
ghost use Rattle.target_mgr.specs.Numbered.{AreNumbered};
ghost use Rattle.target_mgr.specs.Named.{object_named, object_number, with_entry};

use gl_base::NumberMap;
use gl_plain::{Name, name_of};
use std::alloc::{AllocError, Global};
use svc_names::{NameRefusal, NameTable};

/// The client's names, the objects by number, and the number that is bound, or 0, which no object has.
#[derive(Drop)]
pub struct Objects<T> {
    names: NameTable<Name>,
    objects: NumberMap<T>,
    bound: u64,
    pub ghost numbered: { AreNumbered names objects },
}

/// What is bound once the object of this number goes: nothing in its place.
fn unbound(number: u64, bound: u64) -> u64
    ensures { result ≡ unbound number bound }
{
    if bound == number { 0 } else { bound }
}

impl<T> Objects<T> {
    ghost use Rattle.target_mgr.specs.Objects.{table_of};

    /// No names, and nothing bound. It takes no memory.
    pub fn new(alloc: Global) -> Objects<T>
        ensures { table_of result ≡ no_objects }
    {
        Objects {
            names: NameTable::new(alloc),
            objects: NumberMap::new(alloc),
            bound: 0,
        }
    }

    /// What is kept of a name in use, or none.
    pub fn name(&self, id: u32) -> Option<Name>
        ensures { result ≡ map.get (table_of self.now).names id }
    {
        self.names.find(id).copied()
    }

    /// The number of the object of a name, 0 where it has none.
    pub fn number(&self, id: u32) -> u64
        ensures value { result ≡ object_number (map.get (table_of self.now).names id) }
        ensures found { map.get (table_of self.now).objects result ≡ object_named (table_of self.now) id }
    {
        match self.name(id) {
            Some(name) => { if name.is_object { name.number } else { 0 } }
            None => 0,
        }
    }

    /// The name in use that has this number, or 0. It looks at one name after the other.
    pub fn name_of(&self, number: u64) -> u32
        ensures { result ≡ name_of (table_of self.now).names number }
    {
        name_of(self.names.entries(), number)
    }

    /// Whether so many ordinary names more are too many.
    pub fn is_over_limit(&self, more: u32) -> bool
        ensures { result ≡ limits.is_over_limit (table_of self.now).names more }
    {
        self.names.is_over_limit(more)
    }

    /// The number that is bound, or 0.
    pub fn bound(&self) -> u64
        ensures { result ≡ (table_of self.now).bound }
    {
        self.bound
    }

    /// Leaves nothing bound.
    pub fn unbind(&mut self)
        ensures { table_of self.new ≡ binding (table_of self.old) 0 }
    {
        self.bound = 0;
    }
}

impl<T: Copy> Objects<T> {
    ghost use Rattle.target_mgr.specs.Objects.{table_of};

    /// The object of this number, if it is there.
    pub fn get(&self, number: u64) -> Option<T>
        ensures { result ≡ map.get (table_of self.now).objects number }
    {
        self.objects.get(number).copied()
    }
}

impl<T: Drop> Objects<T> {
    ghost use Rattle.target_mgr.specs.Objects.{table_of};

    /// Brings a name into use, with the number of the object that it will have, which is not 0. It answers as `NameTable::add`.
    pub fn add_name(&mut self, id: u32, number: u64) -> Result<(), NameRefusal<Name>>
        requires { number ≢ 0 }
        ensures ok { OnOk result (table_of self.new ≡ record (table_of self.old) { names = named (table_of self.old).names id number }) }
        ensures err { OnErr result (table_of self.new ≡ table_of self.old) }
        ensures cause { IsAnswer (table_of self.old).names id (new_name number) result }
    {
        let name = Name {
            number,
            is_object: false,
        };
        self.names.add(id, name)
    }

    /// Makes the object of a name in use, which opens as this. Without memory for it all is as before.
    fn make(&mut self, id: u32, number: u64, opening: T) -> Result<(), AllocError>
        requires { map.get (table_of self.old).names id ≡ Some (new_name number) }
        ensures ok { OnOk result (table_of self.new ≡ with_object opening (table_of self.old) id (new_name number)) }
        ensures err { OnErr result (table_of self.new ≡ table_of self.old) }
    {
        match self.objects.insert(number, opening) {
            Ok(_) => {}
            Err(_) => return Err(AllocError),
        }
        let made = Name {
            number,
            is_object: true,
        };
        self.names.replace(id, made);
        Ok(())
    }

    /// Binds a name in use, whose object is there from now on, and opens as this. Without memory for it all is as before.
    pub fn bind(&mut self, id: u32, name: Name, opening: T) -> Result<(), AllocError>
        requires { map.get (table_of self.old).names id ≡ Some name }
        ensures ok { OnOk result (table_of self.new ≡ bind_effect opening (table_of self.old) id) }
        ensures err { OnErr result (table_of self.new ≡ table_of self.old) }
    {
        if !name.is_object {
            self.make(id, name.number, opening)?;
        }
        self.bound = name.number;
        Ok(())
    }

    /// Deletes a name with its object, which is not bound from then on, and gives what was kept of the name. A name that is not in use
    /// changes nothing. It takes no memory.
    pub fn delete(&mut self, id: u32) -> Option<Name>
        ensures value { result ≡ map.get (table_of self.old).names id }
        ensures rest { table_of self.new ≡ delete_effect (table_of self.old) id }
    {
        let name = self.names.remove(id)?;
        self.objects.remove(name.number);
        self.bound = unbound(name.number, self.bound);
        Some(name)
    }

    /// Puts another object in place of that of a number. It takes no memory.
    pub fn replace(&mut self, number: u64, object: T)
        requires { IsSome (map.get (table_of self.old).objects number) }
        ensures { table_of self.new ≡ with_entry (table_of self.old) number object }
    {
        self.objects.replace(number, object);
    }
}
