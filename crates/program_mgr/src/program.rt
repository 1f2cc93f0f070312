//! A program object (OpenGL ES 2.0.25, section 2.10.3).
ghost use Rattle.std.specs.Prelude.{◌≡◌, ◌++◌, ◌∷◌, [], true, false, OnOk, OnErr, length, is_some};
ghost use Rattle.std.specs.Option.{option_copied, option_map};
ghost use Rattle.gl_plain.specs.subjects.Programs as plain;
ghost use Rattle.gl_plain.specs.subjects.Uniforms as uniforms;
ghost use Rattle.program_mgr.specs.Stores.{CanStore};

use crate::executable::Executable;
use crate::past::{Event, Past};
use gl_plain::Bytes;
use std::alloc::{AllocError, Global};
use std::marker::Model;

/// A program object: the shaders that are attached, and the executable of its last link.
#[derive(Drop)]
pub struct Program {
    attached: Vec<u64>,
    past: Past,
    log: Bytes,
    executable: Option<Executable>,
    is_valid: bool,
    is_deleted: bool,
}

impl Model for Program {
    ghost use Rattle.gl_plain.specs.declared.programs.Program as tables;

    ghost Value = { tables.Program };

    ghost view = { λ a. record { attached = a.attached.items; bound = a.past.bound; log = a.log; executable = a.executable; is_valid = a.is_valid; is_deleted = a.is_deleted } };
}

/// Takes a number out of a list.
fn remove_number(numbers: &mut Vec<u64>, number: u64)
    ensures { numbers.new.items ≡ plain.without numbers.old.items number }
{
    let mut i = 0;
    while i < numbers.len() {
        if numbers[i] == number {
            numbers.remove(i);
        } else {
            i += 1;
        }
    }
}

impl Program {
    /// A program as it opens: nothing is attached, and it was never linked. It takes no memory.
    pub fn new(alloc: Global) -> Program
        ensures { result ≡ plain.new_program }
    {
        Program {
            attached: Vec::new(alloc),
            past: Past::new(),
            log: Bytes::new(alloc),
            executable: None,
            is_valid: false,
            is_deleted: false,
        }
    }

    /// The numbers of the shaders that are attached, in the order in which they were.
    pub fn attached(&self) -> &[u64]
        ensures { result.now ≡ self.now.attached }
    {
        self.attached.as_slice()
    }

    /// Whether the shader of this number is attached.
    pub fn has(&self, shader: u64) -> bool
        ensures { result ≡ plain.is_among self.now.attached shader }
    {
        self.attached.iter().any(|number| *number == shader)
    }

    /// The numbers of the shaders that were attached to what is no more.
    pub fn into_attached(self) -> Vec<u64>
        ensures { result.items ≡ self.attached }
    {
        self.attached
    }

    /// The executable of what is no more.
    pub fn into_executable(self) -> Option<Executable>
        ensures { result ≡ self.executable }
    {
        self.executable
    }

    /// What its last link or validation said.
    pub fn log(&self) -> &[u8]
        ensures { result.now ≡ self.now.log }
    {
        self.log.as_slice()
    }

    /// The executable of its last link, where that went well (LINK_STATUS).
    pub fn executable(&self) -> Option<&Executable>
        ensures { option_copied result ≡ self.now.executable }
    {
        self.executable.as_ref()
    }

    /// Whether its last link went well.
    pub fn is_linked(&self) -> bool
        ensures { result ≡ is_some self.now.executable }
    {
        self.executable.is_some()
    }

    /// Whether its last validation went well (VALIDATE_STATUS).
    pub fn is_valid(&self) -> bool
        ensures { result ≡ self.now.is_valid }
    {
        self.is_valid
    }

    /// Whether it goes once it is not current (DELETE_STATUS).
    pub fn is_deleted(&self) -> bool
        ensures { result ≡ self.now.is_deleted }
    {
        self.is_deleted
    }

    /// What was done to it.
    pub fn past(&self) -> &Past
        ensures { result.now.bound ≡ self.now.bound }
    {
        &self.past
    }

    /// Attaches the shader of this number, behind the others. Without memory for it all is as before.
    pub fn attach(&mut self, shader: u64) -> Result<(), AllocError>
        ensures ok { OnOk result (self.new ≡ record self.old { attached = self.old.attached ++ shader ∷ [] }) }
        ensures err { OnErr result (self.new ≡ self.old) }
    {
        self.attached.push(shader)?;
        Ok(())
    }

    /// Detaches the shader of this number.
    pub fn detach(&mut self, shader: u64)
        ensures { self.new ≡ record self.old { attached = plain.without self.old.attached shader } }
    {
        remove_number(&mut self.attached, shader);
    }

    /// From the next link on the attribute of this name gets this location.
    pub fn ask(&mut self, index: u32, name: &[u8])
        ensures { self.new ≡ record self.old { bound = self.old.bound ++ record { name = name.now; index = index } ∷ [] } }
    {
        self.past = self.past.and(&Event::Asked { index, name });
    }

    /// It was linked: the linker said this, and made this executable where it went well. The executable of the link before comes back.
    pub fn set_link(&mut self, log: Bytes, executable: Option<Executable>) -> Option<Executable>
        ensures linked { self.new ≡ record self.old { log = log; executable = executable } }
        ensures before { result ≡ self.old.executable }
    {
        self.log = log;
        std::mem::replace(&mut self.executable, executable)
    }

    /// Stores what Uniform gives in its executable, if it has one.
    pub fn store(&mut self, location: i32, kind: u32, count: i32, bytes: &[u8])
        requires size { length bytes.now ≡ uniforms.uniform_needed kind count }
        requires taken { CanStore self.old.executable location kind count bytes.now }
        requires given { uniforms.is_given_kind kind ≡ true }
        ensures { self.new ≡ record self.old { executable = option_map (uniforms.with_uniform location kind count bytes.now) self.old.executable } }
    {
        if let Some(executable) = &mut self.executable {
            executable.store(location, kind, count, bytes);
        }
    }

    /// It was validated, which said this.
    pub fn set_validation(&mut self, ok: bool, log: Bytes)
        ensures { self.new ≡ record self.old { is_valid = ok; log = log } }
    {
        self.is_valid = ok;
        self.log = log;
    }

    /// It is not valid. The log stays.
    pub fn set_invalid(&mut self)
        ensures { self.new ≡ record self.old { is_valid = false } }
    {
        self.is_valid = false;
    }

    /// It goes once it is not current.
    pub fn mark(&mut self)
        ensures { self.new ≡ record self.old { is_deleted = true } }
    {
        self.is_deleted = true;
    }
}
