//! The buffers of a driver: their names, their bytes and their two bindings (OpenGL ES 2.0.25, section 2.9).
ghost use Rattle.std.specs.Prelude.{List, ◌≡◌, ◌≤◌, ◌+◌, ◌++◌, OnOk, OnErr, IsSome, length, [], false};
ghost use Rattle.std.specs.FinMap as map;
ghost use Rattle.std.specs.FinSet as set;
ghost use Rattle.gl_plain.specs.declared.driver_calls.DriverEntry.{DriverEntry};
ghost use Rattle.gl_plain.specs.subjects.Names.{IsLive};
ghost use Rattle.gl_plain.specs.subjects.Names as plain;
ghost use Rattle.gl_plain.specs.subjects.Buffers.{HasRange, bind_buffer_effect, bound, buffer_data_effect, buffer_sub_data_effect, changed, delete_buffers_effect, empty_buffer, gen_buffers_effect, no_buffers, with_binding};
ghost use Rattle.gl_plain.specs.subjects.Buffers as subject;
ghost use Rattle.strict_driver.specs.KeptBuffers.{bytes_at, buffer_in, buffers_of};

use crate::name_space::NameSpace;
use gl_base::GlEnum;
use gl_base::enums::{ARRAY_BUFFER, STATIC_DRAW};
use gl_plain::{Bytes, DriverCall, DriverEntry, ObjectDriver};
use std::alloc::{AllocError, Global};

/// Where the bytes of a buffer are.
#[derive(Debug, Drop)]
enum KeptBytes {
    /// In the entry of the journal at this place, whose call stored them.
    InJournal(usize),
    /// Here: none were stored yet, or a part of them was changed.
    Own(Bytes),
}

/// A buffer. The bytes that a call stored lie in the journal alone until a part of them is changed.
#[derive(Debug, Drop)]
pub struct KeptBuffer {
    bytes: KeptBytes,
    usage: GlEnum,
}

/// The bytes that an entry of the journal stored.
fn stored_bytes(journal: &[DriverEntry], place: usize) -> &[u8]
    ensures { result.now ≡ bytes_at journal.now place }
{
    match journal.get(place) {
        Some(
            DriverEntry {
                call: DriverCall::Object(ObjectDriver::BufferData { bytes, .. }),
                ..
            },
        ) => bytes.as_slice(),
        _ => &[],
    }
}

impl KeptBuffer {
    /// A buffer as it opens: no bytes, and STATIC_DRAW (table 6.3). It takes no memory.
    fn new(alloc: Global) -> KeptBuffer
        ensures { (js : List DriverEntry) → buffer_in js result ≡ empty_buffer }
    {
        KeptBuffer {
            bytes: KeptBytes::Own(Bytes::new(alloc)),
            usage: STATIC_DRAW,
        }
    }

    /// A buffer with the bytes that the entry at this place stores.
    fn stored(place: usize, usage: GlEnum) -> KeptBuffer
        ensures { (js : List DriverEntry) → buffer_in js result ≡ record { bytes = bytes_at js place; usage = usage } }
    {
        KeptBuffer {
            bytes: KeptBytes::InJournal(place),
            usage,
        }
    }

    /// Puts bytes in place of those from an offset on, in bytes of its own from then on. Without memory for them it is as before.
    fn change(
        &mut self,
        alloc: Global,
        journal: &[DriverEntry],
        offset: u32,
        bytes: &[u8],
    ) -> Result<(), AllocError>
        requires { offset + length bytes.now ≤ length (buffer_in journal.now self.old).bytes }
        ensures ok { OnOk result ((js : List DriverEntry) → buffer_in js self.new ≡ changed (buffer_in journal.now self.old) offset bytes.now) }
        ensures err { OnErr result (self.new ≡ self.old) }
    {
        if let KeptBytes::InJournal(place) = self.bytes {
            let own = Bytes::from_slice(alloc, stored_bytes(journal, place))?;
            self.bytes = KeptBytes::Own(own);
        }
        if let KeptBytes::Own(own) = &mut self.bytes {
            own.overwrite(offset as usize, bytes);
        }
        Ok(())
    }
}

/// The buffers of a driver by their names, and the numbers that the two targets bind.
#[derive(Drop)]
pub struct Buffers {
    alloc: Global,
    names: NameSpace<KeptBuffer>,
    array: u64,
    element: u64,
}

/// Nothing where this name was bound.
fn unbound(name: u64, bound: u64) -> u64
    ensures { result ≡ plain.unbound name bound }
{
    if bound == name { 0 } else { bound }
}

impl Buffers {
    /// No buffer, and nothing bound. It takes no memory.
    #[tactic(auto, using(crate::proofs::Tabulated::mapped))]
    pub fn new(alloc: Global) -> Buffers
        ensures state { (js : List DriverEntry) → buffers_of js result ≡ no_buffers }
        ensures given { result.names.given ≡ set.empty }
    {
        Buffers {
            alloc,
            names: NameSpace::new(alloc),
            array: 0,
            element: 0,
        }
    }

    /// The number that ARRAY_BUFFER binds, or 0.
    pub fn array(&self) -> u64
        ensures { result ≡ self.now.array }
    {
        self.array
    }

    fn binding(&self, target: GlEnum) -> u64
        ensures { result ≡ subject.binding (buffers_of [] self.now) target }
    {
        if target == ARRAY_BUFFER {
            self.array
        } else {
            self.element
        }
    }

    fn set_binding(&mut self, target: GlEnum, number: u64)
        ensures state { (js : List DriverEntry) → buffers_of js self.new ≡ with_binding (buffers_of js self.old) target number }
        ensures given { self.new.names.given ≡ self.old.names.given }
    {
        if target == ARRAY_BUFFER {
            self.array = number;
        } else {
            self.element = number;
        }
    }

    /// Gives a name that was never given before. Without memory for it all is as before.
    pub fn give(&mut self, name: u64) -> Result<(), AllocError>
        requires { set.contains self.old.names.given name ≡ false }
        ensures ok { OnOk result ((js : List DriverEntry) → buffers_of js self.new ≡ gen_buffers_effect (buffers_of js self.old) name name) }
        ensures given { OnOk result (self.new.names.given ≡ set.insert self.old.names.given name) }
        ensures err { OnErr result (self.new ≡ self.old) }
    {
        self.names.give(name)
    }

    /// Binds a live name, whose object is there from now on, or nothing by 0. Without memory for the object all is as before.
    #[tactic(auto, using(crate::proofs::Tabulated::mapped))]
    pub fn bind(&mut self, target: GlEnum, name: u64) -> Result<(), AllocError>
        ensures ok { OnOk result ((js : List DriverEntry) → buffers_of js self.new ≡ bind_buffer_effect (buffers_of js self.old) target name) }
        ensures given { self.new.names.given ≡ self.old.names.given }
        ensures err { OnErr result (self.new ≡ self.old) }
    {
        let Some(found) = self.names.name(name) else {
            self.set_binding(target, 0);
            return Ok(());
        };
        if !found.is_object {
            self.names.make(name, KeptBuffer::new(self.alloc))?;
        }
        self.set_binding(target, name);
        Ok(())
    }

    /// Gives the buffer that the target binds the bytes that the entry at this place stores.
    #[tactic(auto, using(crate::proofs::Tabulated::mapped))]
    pub fn store(&mut self, target: GlEnum, place: usize, usage: GlEnum)
        requires { IsSome (bound (buffers_of [] self.old) target) }
        ensures state { (js : List DriverEntry) → buffers_of js self.new ≡ buffer_data_effect (buffers_of js self.old) target (bytes_at js place) usage }
        ensures given { self.new.names.given ≡ self.old.names.given }
    {
        let name = self.binding(target);
        if let Some(buffer) = self.names.object_mut(name) {
            *buffer = KeptBuffer::stored(place, usage);
        }
    }

    /// Puts bytes in place of those of the buffer that the target binds, from an offset on. Without memory for them all is as before.
    #[tactic(auto, using(crate::proofs::Tabulated::mapped))]
    pub fn change(
        &mut self,
        journal: &[DriverEntry],
        target: GlEnum,
        offset: u32,
        bytes: &[u8],
    ) -> Result<(), AllocError>
        requires inside { HasRange (bound (buffers_of journal.now self.old) target) offset (length bytes.now) }
        requires settled { (more : List DriverEntry) → buffers_of (journal.now ++ more) self.old ≡ buffers_of journal.now self.old }
        ensures ok { OnOk result ((more : List DriverEntry) → buffers_of (journal.now ++ more) self.new ≡ buffer_sub_data_effect (buffers_of (journal.now ++ more) self.old) target offset bytes.now) }
        ensures given { self.new.names.given ≡ self.old.names.given }
    {
        let alloc = self.alloc;
        let name = self.binding(target);
        match self.names.object_mut(name) {
            Some(buffer) => buffer.change(alloc, journal, offset, bytes),
            None => Ok(()),
        }
    }

    /// Takes a live name out of use, with its object and with what binds it.
    #[tactic(auto, using(crate::proofs::Tabulated::mapped))]
    pub fn delete(&mut self, name: u64)
        requires { IsLive self.old.names.names name }
        ensures state { (js : List DriverEntry) → buffers_of js self.new ≡ delete_buffers_effect (buffers_of js self.old) name }
        ensures given { self.new.names.given ≡ self.old.names.given }
    {
        self.names.remove(name);
        self.array = unbound(name, self.array);
        self.element = unbound(name, self.element);
    }
}
