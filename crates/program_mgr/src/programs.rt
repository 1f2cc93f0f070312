//! The shaders and the programs of the service (OpenGL ES 2.0.25, section 2.10).
ghost use Rattle.std.specs.Prelude.{◌≡◌, true, OnOk, OnErr, IfOk};
ghost use Rattle.std.specs.FinMap as map;
ghost use Rattle.std.specs.Option.{option_copied};
ghost use Rattle.gl_base.specs.Names as limits;
ghost use Rattle.gl_plain.specs.subjects.ProgramQueries.{name_in};
ghost use Rattle.gl_plain.specs.subjects.Programs as plain;
ghost use Rattle.gl_plain.specs.subjects.Values.{current_name};
ghost use Rattle.svc_names.specs.Answers.{IsAnswer};
ghost use Rattle.program_mgr.specs.Restored.{restored};

use crate::executable::Executable;
use crate::program::Program;
use crate::shader::Shader;
use gl_base::{GlEnum, NumberMap};
use gl_plain::{Bytes, Name};
use std::alloc::{AllocError, Global};
use svc_names::{NameRefusal, NameTable};

/// The shaders and the programs of the service: the client's names and the objects by number, the number of the current program, 0 for
/// none, and what is in use.
#[derive(Drop)]
pub struct Programs {
    pub(crate) alloc: Global,
    pub(crate) names: NameTable<Name>,
    pub(crate) ids: NumberMap<u32>,
    pub(crate) shaders: NumberMap<Shader>,
    pub(crate) programs: NumberMap<Program>,
    pub(crate) current: u64,
    /// Whether a program was made current. Else no executable is in use.
    pub(crate) is_used: bool,
    /// The executable that is in use where the current program has none, since its last link failed.
    pub(crate) kept: Option<Executable>,
}

/// Sets the value of a key back to what it was, or takes the key out where it had none.
fn put_back<T: Drop>(objects: &mut NumberMap<T>, key: u64, before: Option<T>)
    requires { map.contains_key objects.old key ≡ true }
    ensures { objects.new ≡ restored objects.old key before }
{
    match before {
        Some(value) => {
            objects.replace(key, value);
        }
        None => {
            objects.remove(key);
        }
    }
}

/// Adds an object under its number, with the name that it has. It gives what had this number before. Without memory all is as before.
fn add_object<T: Drop>(
    ids: &mut NumberMap<u32>,
    objects: &mut NumberMap<T>,
    id: u32,
    number: u64,
    object: T,
) -> Result<Option<T>, AllocError>
    ensures named { OnOk result (ids.new ≡ map.insert ids.old number id) }
    ensures added { OnOk result (objects.new ≡ map.insert objects.old number object) }
    ensures before { IfOk result (λ before. before ≡ map.get objects.old number) }
    ensures unnamed { OnErr result (ids.new ≡ ids.old) }
    ensures unchanged { OnErr result (objects.new ≡ objects.old) }
{
    let named = match ids.insert(number, id) {
        Ok(before) => before,
        Err(_) => return Err(AllocError),
    };
    match objects.insert(number, object) {
        Ok(before) => Ok(before),
        Err(_) => {
            put_back(ids, number, named);
            Err(AllocError)
        }
    }
}

impl Programs {
    ghost use Rattle.program_mgr.specs.Tables.{tables, kept_after};

    /// No names, and no program is current. It takes no memory.
    pub fn new(alloc: Global) -> Programs
        ensures { tables result ≡ plain.no_programs }
    {
        Programs {
            alloc,
            names: NameTable::new(alloc),
            ids: NumberMap::new(alloc),
            shaders: NumberMap::new(alloc),
            programs: NumberMap::new(alloc),
            current: 0,
            is_used: false,
            kept: None,
        }
    }

    /// What is kept of a name in use, or none.
    pub fn name(&self, id: u32) -> Option<Name>
        ensures { result ≡ map.get (tables self.now).names id }
    {
        self.names.find(id).copied()
    }

    /// The number of a name, or 0 of one that is not in use.
    pub fn number(&self, id: u32) -> u64
        ensures { result ≡ plain.number_of (tables self.now) id }
    {
        match self.name(id) {
            Some(name) => name.number,
            None => 0,
        }
    }

    /// The name of the object with this number, or 0.
    pub fn name_of(&self, number: u64) -> u32
        ensures { result ≡ name_in (tables self.now) number }
    {
        self.ids.get(number).copied().unwrap_or(0)
    }

    /// The name of the program that is current, or 0 (section 6.1.1).
    pub fn current_name(&self) -> u32
        ensures { result ≡ current_name (tables self.now) }
    {
        self.name_of(self.current)
    }

    /// Whether so many ordinary names more are too many.
    pub fn is_over_limit(&self, more: u32) -> bool
        ensures { result ≡ limits.is_over_limit (tables self.now).names more }
    {
        self.names.is_over_limit(more)
    }

    /// The shader of a name in use, if it is a shader's.
    pub fn shader(&self, id: u32) -> Option<&Shader>
        ensures { option_copied result ≡ plain.shader_at (tables self.now) id }
    {
        let name = self.name(id)?;
        self.shaders.get(name.number)
    }

    /// The program of a name in use, if it is a program's.
    pub fn program(&self, id: u32) -> Option<&Program>
        ensures { option_copied result ≡ plain.program_at (tables self.now) id }
    {
        let name = self.name(id)?;
        self.programs.get(name.number)
    }

    /// The executable that is in use, if there is one.
    pub fn installed(&self) -> Option<&Executable>
        ensures { option_copied result ≡ (tables self.now).installed }
    {
        if !self.is_used {
            return None;
        }
        let own = match self.programs.get(self.current) {
            Some(program) => program.executable(),
            None => None,
        };
        if own.is_some() {
            return own;
        }
        self.kept.as_ref()
    }

    /// What was in use as the executable of this program stays in use.
    pub(crate) fn keep(&mut self, number: u64, before: Option<Executable>)
        ensures { self.new ≡ record self.old { kept = kept_after self.old.current number before self.old.kept } }
    {
        if self.current == number && before.is_some() {
            self.kept = before;
        }
    }

    /// A shader of this kind comes into use under a name, with the number that it has. It answers as `NameTable::add`.
    pub fn create_shader(
        &mut self,
        id: u32,
        number: u64,
        kind: GlEnum,
    ) -> Result<(), NameRefusal<Name>>
        ensures ok { OnOk result (tables self.new ≡ plain.create_shader_effect (tables self.old) id number kind) }
        ensures err { OnErr result (tables self.new ≡ tables self.old) }
        ensures cause { IsAnswer (tables self.old).names id (plain.object_name number) result }
    {
        let name = Name {
            number,
            is_object: true,
        };
        self.names.add(id, name)?;
        let shader = Shader::new(self.alloc, kind);
        let Err(_) = add_object(&mut self.ids, &mut self.shaders, id, number, shader) else {
            return Ok(());
        };
        self.names.remove(id);
        Err(NameRefusal::NoMemory(name))
    }

    /// A program comes into use under a name, with the number that it has. It answers as `NameTable::add`.
    pub fn create_program(&mut self, id: u32, number: u64) -> Result<(), NameRefusal<Name>>
        ensures ok { OnOk result (tables self.new ≡ plain.create_program_effect (tables self.old) id number) }
        ensures err { OnErr result (tables self.new ≡ tables self.old) }
        ensures cause { IsAnswer (tables self.old).names id (plain.object_name number) result }
    {
        let name = Name {
            number,
            is_object: true,
        };
        self.names.add(id, name)?;
        let program = Program::new(self.alloc);
        let before = match add_object(&mut self.ids, &mut self.programs, id, number, program) {
            Ok(before) => before,
            Err(_) => {
                self.names.remove(id);
                return Err(NameRefusal::NoMemory(name));
            }
        };
        if let Some(before) = before {
            self.keep(number, before.into_executable());
        }
        Ok(())
    }

    /// Gives a shader its source. What was compiled stays.
    pub fn set_source(&mut self, number: u64, source: Bytes)
        ensures { tables self.new ≡ plain.shader_source_effect (tables self.old) number source }
    {
        if let Some(shader) = self.shaders.get_mut(number) {
            shader.set_source(source);
        }
    }

    /// A shader was compiled, and the compiler said this.
    pub fn set_compiled(&mut self, number: u64, ok: bool, log: Bytes)
        ensures { tables self.new ≡ plain.compile_shader_effect (tables self.old) number (record { ok = ok; log = log }) }
    {
        if let Some(shader) = self.shaders.get_mut(number) {
            shader.set_compiled(ok, log);
        }
    }

    /// From the next link on the attribute of this name gets this location.
    pub fn bind_attrib_location(&mut self, number: u64, index: u32, name: &[u8])
        ensures { tables self.new ≡ plain.bind_attrib_location_effect (tables self.old) number index name.now }
    {
        if let Some(program) = self.programs.get_mut(number) {
            program.ask(index, name);
        }
    }

    /// A program that is linked was validated, which said this.
    pub fn set_validation(&mut self, number: u64, ok: bool, log: Bytes)
        ensures { tables self.new ≡ plain.validate_program_effect (tables self.old) number (record { ok = ok; log = log }) }
    {
        if let Some(program) = self.programs.get_mut(number) {
            program.set_validation(ok, log);
        }
    }

    /// A program that is not linked is not valid, and keeps its log.
    pub fn set_invalid(&mut self, number: u64)
        ensures { tables self.new ≡ plain.validate_unlinked_effect (tables self.old) number }
    {
        if let Some(program) = self.programs.get_mut(number) {
            program.set_invalid();
        }
    }
}
