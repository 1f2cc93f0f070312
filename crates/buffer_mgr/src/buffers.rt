//! The buffers of the service (OpenGL ES 2.0.25, section 2.9).
ghost use Rattle.std.specs.Prelude.{◌≡◌, ◌≤◌, OnOk, OnErr, IsSome, is_none, length};
ghost use Rattle.std.specs.Bool.{OnTrue, OnFalse};
ghost use Rattle.std.specs.FinMap as map;
ghost use Rattle.std.specs.Option.{option_copied};
ghost use Rattle.gl_base.specs.Names as limits;
ghost use Rattle.gl_base.specs.declared.limits.TheConstants.{DATA_LIMIT};
ghost use Rattle.gl_plain.specs.subjects.Names.{name_of, new_name, unbound};
ghost use Rattle.gl_plain.specs.subjects.Buffers as plain;
ghost use Rattle.gl_plain.specs.subjects.Attributes.{object_of};
ghost use Rattle.svc_names.specs.Answers.{IsAnswer};

use crate::buffer::Buffer;
use gl_base::enums::{ARRAY_BUFFER, ELEMENT_ARRAY_BUFFER};
use gl_base::{GlEnum, NumberMap};
use gl_plain::{Bytes, Name, name_of};
use std::alloc::{AllocError, Global};
use svc_names::{NameRefusal, NameTable};

/// The buffers of the service: the client's names, the objects by number, and the numbers that the two targets bind, 0 for none.
#[derive(Drop)]
pub struct Buffers {
    alloc: Global,
    names: NameTable<Name>,
    objects: NumberMap<Buffer>,
    array: u64,
    element: u64,
}

/// Whether the enum is ARRAY_BUFFER or ELEMENT_ARRAY_BUFFER.
pub fn is_buffer_target(target: GlEnum) -> bool
    ensures { result ≡ plain.is_buffer_target target }
{
    target == ARRAY_BUFFER || target == ELEMENT_ARRAY_BUFFER
}

/// What is bound once the object of this number goes: nothing in its place.
fn unbound(number: u64, bound: u64) -> u64
    ensures { result ≡ unbound number bound }
{
    if bound == number { 0 } else { bound }
}

impl Buffers {
    ghost use Rattle.buffer_mgr.specs.Tables.{tables};

    /// No names, and nothing bound. It takes no memory.
    pub fn new(alloc: Global) -> Buffers
        ensures { tables result ≡ plain.no_buffers }
    {
        Buffers {
            alloc,
            names: NameTable::new(alloc),
            objects: NumberMap::new(alloc),
            array: 0,
            element: 0,
        }
    }

    /// What is kept of a name in use, or none.
    pub fn name(&self, id: u32) -> Option<Name>
        ensures { result ≡ map.get (tables self.now).names id }
    {
        self.names.find(id).copied()
    }

    /// Whether so many ordinary names more are too many.
    pub fn is_over_limit(&self, more: u32) -> bool
        ensures { result ≡ limits.is_over_limit (tables self.now).names more }
    {
        self.names.is_over_limit(more)
    }

    /// The number that the target binds, 0 for none.
    fn binding(&self, target: GlEnum) -> u64
        ensures { result ≡ plain.binding (tables self.now) target }
    {
        if target == ARRAY_BUFFER {
            self.array
        } else {
            self.element
        }
    }

    /// The buffer that the target binds.
    pub fn bound(&self, target: GlEnum) -> Option<&Buffer>
        ensures { option_copied result ≡ plain.bound (tables self.now) target }
    {
        self.objects.get(self.binding(target))
    }

    /// The buffer of this number, or none.
    pub fn object(&self, number: u64) -> Option<&Buffer>
        ensures { option_copied result ≡ map.get (tables self.now).objects number }
    {
        self.objects.get(number)
    }

    /// The name in use that has this number, or 0. It looks at one name after the other.
    pub fn name_of(&self, number: u64) -> u32
        ensures { result ≡ name_of (tables self.now).names number }
    {
        name_of(self.names.entries(), number)
    }

    /// The name of the buffer that the target binds, or 0.
    pub fn bound_name(&self, target: GlEnum) -> u32
        ensures { result ≡ name_of (tables self.now).names (plain.binding (tables self.now) target) }
    {
        self.name_of(self.binding(target))
    }

    /// The number of the buffer that ARRAY_BUFFER binds, if it binds one.
    pub fn array_object(&self) -> Option<u64>
        ensures { result ≡ object_of (tables self.now).array }
    {
        if self.array == 0 {
            None
        } else {
            Some(self.array)
        }
    }

    fn set_binding(&mut self, target: GlEnum, number: u64)
        ensures { tables self.new ≡ plain.with_binding (tables self.old) target number }
    {
        if target == ARRAY_BUFFER {
            self.array = number;
        } else {
            self.element = number;
        }
    }

    /// Brings a name into use, with the number of the object that it will have. It answers as `NameTable::add`.
    pub fn add_name(&mut self, id: u32, number: u64) -> Result<(), NameRefusal<Name>>
        ensures ok { OnOk result (tables self.new ≡ plain.gen_buffers_effect (tables self.old) id number) }
        ensures err { OnErr result (tables self.new ≡ tables self.old) }
        ensures cause { IsAnswer (tables self.old).names id (new_name number) result }
    {
        let name = Name {
            number,
            is_object: false,
        };
        self.names.add(id, name)
    }

    /// Leaves nothing bound to the target.
    pub fn unbind(&mut self, target: GlEnum)
        ensures { tables self.new ≡ plain.with_binding (tables self.old) target 0 }
    {
        self.set_binding(target, 0);
    }

    /// Binds a name in use, whose object is there from now on. Without memory for it all is as before.
    pub fn bind(&mut self, target: GlEnum, id: u32, name: Name) -> Result<(), AllocError>
        requires { map.get (tables self.old).names id ≡ Some name }
        ensures ok { OnOk result (tables self.new ≡ plain.bind_buffer_effect (tables self.old) target id) }
        ensures err { OnErr result (tables self.new ≡ tables self.old) }
    {
        let number = name.number;
        if !name.is_object {
            let opening = Buffer::new(self.alloc);
            if self.objects.insert(number, opening).is_err() {
                return Err(AllocError);
            }
            let made = Name {
                number,
                is_object: true,
            };
            self.names.replace(id, made);
        }
        self.set_binding(target, number);
        Ok(())
    }

    /// Puts bytes and a usage in place of those of the buffer that the target binds. It takes no memory, and answers `Ok`.
    pub fn store(&mut self, target: GlEnum, bytes: Bytes, usage: GlEnum) -> Result<(), AllocError>
        requires bound { IsSome (plain.bound (tables self.old) target) }
        requires limit { length bytes ≤ DATA_LIMIT }
        ensures ok { OnOk result (tables self.new ≡ plain.buffer_data_effect (tables self.old) target bytes usage) }
        ensures err { OnErr result (tables self.new ≡ tables self.old) }
    {
        let number = self.binding(target);
        let Some(buffer) = self.objects.get_mut(number) else {
            unreachable!();
        };
        buffer.store(bytes, usage)
    }

    /// Puts bytes in place of those that the bound buffer has from an offset on. False, and all is as before, where nothing is bound or
    /// the range is outside. It takes no memory.
    pub fn change(&mut self, target: GlEnum, offset: u32, bytes: &[u8]) -> bool
        ensures inside { result ≡ is_none (plain.range_refusal (plain.bound (tables self.old) target) offset (length bytes.now)) }
        ensures done { OnTrue result (tables self.new ≡ plain.buffer_sub_data_effect (tables self.old) target offset bytes.now) }
        ensures refused { OnFalse result (tables self.new ≡ tables self.old) }
    {
        let number = self.binding(target);
        let Some(buffer) = self.objects.get_mut(number) else {
            return false;
        };
        buffer.change(offset, bytes)
    }

    /// Deletes a name with its object, and nothing binds that from then on. A name that is not in use changes nothing. It takes no
    /// memory.
    pub fn delete(&mut self, id: u32)
        ensures { tables self.new ≡ plain.delete_buffers_effect (tables self.old) id }
    {
        let Some(name) = self.names.remove(id) else {
            return;
        };
        self.objects.remove(name.number);
        self.array = unbound(name.number, self.array);
        self.element = unbound(name.number, self.element);
    }
}
