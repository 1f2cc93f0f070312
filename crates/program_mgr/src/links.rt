//! AttachShader, DetachShader and LinkProgram (OpenGL ES 2.0.25, section 2.10.3).
ghost use Rattle.std.specs.Prelude.{◌≡◌, ◌≤◌, List, IfOk, IsSome, IsTrue, None, Some, OnOk, OnErr, is_some, true, unwrap_or, []};
ghost use Rattle.std.specs.FinMap as map;
ghost use Rattle.std.specs.Option.{option_copied};
ghost use Rattle.gl_base.specs.declared.limits.TheConstants.{UNIFORM_LIMIT};
ghost use Rattle.gl_plain.specs.declared.programs.Program as tables_of;
ghost use Rattle.gl_plain.specs.subjects.Links.{elements_in, is_sound_link};
ghost use Rattle.gl_plain.specs.subjects.Programs as plain;
ghost use Rattle.program_mgr.specs.Refused.{code_in};
ghost use Rattle.program_mgr.specs.Tables.{can_link_at, detached_from, tables, with_link};

use crate::executable::Executable;
use crate::past::{Event, Past};
use crate::programs::Programs;
use crate::refusal::ProgramRefusal;
use crate::shader::Shader;
use gl_base::GlEnum;
use gl_base::enums::{FRAGMENT_SHADER, VERTEX_SHADER};
use gl_plain::{AttributeList, Bytes, LinkAnswer, UniformList};
use std::alloc::AllocError;

/// What was done to a shader, or nothing where there is none.
fn past_of<'a>(shader: Option<&'a Shader>, none: &'a Past) -> &'a Past
    requires { none.now.compiled ≡ None }
    ensures { unwrap_or result.now.compiled [] ≡ plain.compiled_source (option_copied shader.entry) }
{
    match shader {
        Some(shader) => shader.past(),
        None => none,
    }
}

impl Programs {
    /// The shader is attached, behind the others. Without memory for it, and past the last number of programs, all is as before.
    fn attach_object(&mut self, program: u64, shader: u64) -> Result<(), AllocError>
        requires program { IsSome (map.get (tables self.old).programs program) }
        requires shader { IsSome (map.get (tables self.old).shaders shader) }
        ensures ok { OnOk result (tables self.new ≡ plain.attach_shader_effect (tables self.old) program shader) }
        ensures err { OnErr result (tables self.new ≡ tables self.old) }
    {
        let Some(object) = self.shaders.get(shader) else {
            unreachable!();
        };
        let Some(attachments) = object.attachments().checked_add(1) else {
            return Err(AllocError);
        };
        let Some(object) = self.programs.get_mut(program) else {
            unreachable!();
        };
        object.attach(shader)?;
        if let Some(object) = self.shaders.get_mut(shader) {
            object.set_attachments(attachments);
        }
        Ok(())
    }

    /// AttachShader, by the client's names. It is refused as `attach_refusal` says, and where there is no memory.
    pub fn attach(&mut self, program: u32, shader: u32) -> Result<(), ProgramRefusal>
        ensures refusal { code_in result ≡ plain.attach_shader_refusal (tables self.old) program shader }
        ensures ok { OnOk result (tables self.new ≡ plain.attach_shader_effect (tables self.old) (plain.number_of (tables self.old) program) (plain.number_of (tables self.old) shader)) }
        ensures err { OnErr result (tables self.new ≡ tables self.old) }
    {
        if let Some(error) = self.attach_refusal(program, shader) {
            return Err(ProgramRefusal::Gl(error));
        }
        let program = self.number(program);
        let shader = self.number(shader);
        match self.attach_object(program, shader) {
            Ok(()) => Ok(()),
            Err(_) => Err(ProgramRefusal::NoMemory),
        }
    }

    /// A program has the shader attached no more; the shader does not know it yet.
    fn detach_from(&mut self, program: u64, shader: u64)
        ensures { tables self.new ≡ detached_from (tables self.old) program shader }
    {
        if let Some(program) = self.programs.get_mut(program) {
            program.detach(shader);
        }
    }

    /// DetachShader, by the client's names. It is refused as `detach_refusal` says. It takes no memory.
    pub fn detach(&mut self, program: u32, shader: u32) -> Result<(), ProgramRefusal>
        ensures refusal { code_in result ≡ plain.detach_shader_refusal (tables self.old) program shader }
        ensures ok { OnOk result (tables self.new ≡ plain.detach_shader_effect (tables self.old) (plain.number_of (tables self.old) program) (plain.number_of (tables self.old) shader)) }
        ensures err { OnErr result (tables self.new ≡ tables self.old) }
    {
        if let Some(error) = self.detach_refusal(program, shader) {
            return Err(ProgramRefusal::Gl(error));
        }
        let program = self.number(program);
        let shader = self.number(shader);
        self.detach_from(program, shader);
        self.release(shader);
        Ok(())
    }

    /// Whether a shader of this kind is among these, and compiled well.
    fn has_compiled(&self, kind: GlEnum, numbers: &[u64]) -> bool
        ensures { result ≡ plain.is_compiled (plain.shader_of_kind (tables self.now).shaders kind numbers.now) }
    {
        match self.shader_of_kind(kind, numbers) {
            Some(shader) => shader.is_compiled(),
            None => false,
        }
    }

    /// Whether a program has a compiled vertex shader and a compiled fragment shader attached.
    pub fn can_link(&self, program: u32) -> bool
        ensures { result ≡ can_link_at (tables self.now) program }
    {
        let Some(program) = self.program(program) else {
            return false;
        };
        self.has_compiled(VERTEX_SHADER, program.attached())
            && self.has_compiled(FRAGMENT_SHADER, program.attached())
    }

    /// The executable that a link of a program makes.
    fn linked(
        &self,
        number: u64,
        log: &[u8],
        attributes: AttributeList,
        uniforms: UniformList,
    ) -> Result<Executable, AllocError>
        requires known { IsSome (map.get (tables self.now).programs number) }
        requires few { elements_in uniforms ≤ UNIFORM_LIMIT }
        ensures { IfOk result (λ e. (p : tables_of.Program) → map.get (tables self.now).programs number ≡ Some p → e ≡ plain.executable_of (tables self.now).shaders p (record { ok = true; log = log.now; attributes = attributes; uniforms = uniforms })) }
    {
        let Some(program) = self.programs.get(number) else {
            unreachable!();
        };
        let none = Past::new();
        let event = Event::Linked {
            vertex: past_of(
                self.shader_of_kind(VERTEX_SHADER, program.attached()),
                &none,
            ),
            fragment: past_of(
                self.shader_of_kind(FRAGMENT_SHADER, program.attached()),
                &none,
            ),
            log,
        };
        let past = program.past().and(&event);
        Executable::link(self.alloc, past, attributes, uniforms)
    }

    /// The linker said this of a program, and made this executable where the link went well. What is in use stays in use where it did not.
    fn set_executable(&mut self, number: u64, log: Bytes, executable: Option<Executable>)
        ensures { tables self.new ≡ with_link (tables self.old) number log executable }
    {
        let Some(program) = self.programs.get_mut(number) else {
            return;
        };
        let is_linked = executable.is_some();
        let before = program.set_link(log, executable);
        if !is_linked {
            self.keep(number, before);
            return;
        }
        if self.current == number {
            self.is_used = true;
        }
    }

    /// LinkProgram, by the client's name: the linker said this. A failed link leaves the program without an executable, but what is in use
    /// stays so. A good one of the current program is in use at once, with all uniforms zero. It is refused as `program_refusal` says, and
    /// where there is no memory for the values.
    pub fn set_link(&mut self, program: u32, answer: LinkAnswer) -> Result<(), ProgramRefusal>
        requires { IsTrue (is_sound_link answer) }
        ensures refusal { code_in result ≡ plain.program_refusal (tables self.old) program }
        ensures ok { OnOk result (tables self.new ≡ plain.link_program_effect (tables self.old) (plain.number_of (tables self.old) program) answer) }
        ensures err { OnErr result (tables self.new ≡ tables self.old) }
    {
        if let Some(error) = self.program_refusal(program) {
            return Err(ProgramRefusal::Gl(error));
        }
        let number = self.number(program);
        let LinkAnswer {
            ok,
            log,
            attributes,
            uniforms,
        } = answer;
        if !ok {
            self.set_executable(number, log, None);
            return Ok(());
        }
        match self.linked(number, log.as_slice(), attributes, uniforms) {
            Ok(executable) => {
                self.set_executable(number, log, Some(executable));
                Ok(())
            }
            Err(_) => Err(ProgramRefusal::NoMemory),
        }
    }
}
