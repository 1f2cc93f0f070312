//! When a call on shaders and programs is refused (OpenGL ES 2.0.25, section 2.10).
ghost use Rattle.std.specs.Prelude.{◌≡◌, length};
ghost use Rattle.std.specs.Option.{option_copied};
ghost use Rattle.gl_plain.specs.subjects.Programs as plain;
ghost use Rattle.gl_plain.specs.subjects.Uniforms as uniforms;
ghost use Rattle.program_mgr.specs.Tables.{tables};

use crate::program::Program;
use crate::programs::Programs;
use crate::shader::Shader;
use crate::uniform_kinds::is_matrix;
use gl_base::GlEnum;
use gl_base::enums::{FRAGMENT_SHADER, VERTEX_SHADER};
use gl_base::limits::{LAST_ATTRIBUTE, NAME_LENGTH_LIMIT};
use gl_plain::GlError;

/// Whether the name begins with `gl_`.
fn is_built_in(name: &[u8]) -> bool
    ensures { result ≡ plain.is_built_in name.now }
{
    name.starts_with(b"gl_")
}

/// The refusal of DetachShader by what the names are of.
fn detach_refusal_by(
    program: Option<&Program>,
    shader: Option<&Shader>,
    number: u64,
) -> Option<GlError>
    ensures { result ≡ plain.detach_refusal_by (option_copied program.entry) (option_copied shader.entry) number }
{
    let Some(program) = program else {
        return Some(GlError::InvalidOperation);
    };
    if shader.is_none() || !program.has(number) {
        return Some(GlError::InvalidOperation);
    }
    None
}

impl Programs {
    /// The refusal where a shader's name is wanted: INVALID_VALUE for a name that is not in use, INVALID_OPERATION for a program's.
    pub fn shader_refusal(&self, id: u32) -> Option<GlError>
        ensures { result ≡ plain.shader_refusal (tables self.now) id }
    {
        if self.name(id).is_none() {
            return Some(GlError::InvalidValue);
        }
        if self.shader(id).is_none() {
            return Some(GlError::InvalidOperation);
        }
        None
    }

    /// The refusal where a program's name is wanted: INVALID_VALUE for a name that is not in use, INVALID_OPERATION for a shader's.
    pub fn program_refusal(&self, id: u32) -> Option<GlError>
        ensures { result ≡ plain.program_refusal (tables self.now) id }
    {
        if self.name(id).is_none() {
            return Some(GlError::InvalidValue);
        }
        if self.program(id).is_none() {
            return Some(GlError::InvalidOperation);
        }
        None
    }

    /// The refusal of CreateShader: INVALID_ENUM for a kind that is none, OUT_OF_MEMORY where there would be too many names.
    pub fn create_shader_refusal(&self, kind: GlEnum) -> Option<GlError>
        ensures { result ≡ plain.create_shader_refusal (tables self.now) kind }
    {
        if !(kind == VERTEX_SHADER || kind == FRAGMENT_SHADER) {
            return Some(GlError::InvalidEnum);
        }
        self.create_program_refusal()
    }

    /// The refusal of CreateProgram: OUT_OF_MEMORY where there would be too many names.
    pub fn create_program_refusal(&self) -> Option<GlError>
        ensures { result ≡ plain.create_program_refusal (tables self.now) }
    {
        if self.is_over_limit(1) {
            return Some(GlError::OutOfMemory);
        }
        None
    }

    /// The refusal of DeleteShader: 0 is ignored.
    pub fn delete_shader_refusal(&self, id: u32) -> Option<GlError>
        ensures { result ≡ plain.delete_shader_refusal (tables self.now) id }
    {
        if id == 0 {
            return None;
        }
        self.shader_refusal(id)
    }

    /// The refusal of DeleteProgram: 0 is ignored.
    pub fn delete_program_refusal(&self, id: u32) -> Option<GlError>
        ensures { result ≡ plain.delete_program_refusal (tables self.now) id }
    {
        if id == 0 {
            return None;
        }
        self.program_refusal(id)
    }

    /// The first of these shaders that is of this kind.
    pub(crate) fn shader_of_kind(&self, kind: GlEnum, numbers: &[u64]) -> Option<&Shader>
        ensures { option_copied result ≡ plain.shader_of_kind (tables self.now).shaders kind numbers.now }
    {
        for number in numbers {
            if let Some(shader) = self.shaders.get(*number) {
                if shader.kind() == kind {
                    return Some(shader);
                }
            }
        }
        None
    }

    /// The refusal of AttachShader: INVALID_VALUE for a name that is not in use; INVALID_OPERATION for a name of the other kind, and for a
    /// shader that is attached or another of whose kind is.
    pub fn attach_refusal(&self, program: u32, shader: u32) -> Option<GlError>
        ensures { result ≡ plain.attach_shader_refusal (tables self.now) program shader }
    {
        if self.name(program).is_none() || self.name(shader).is_none() {
            return Some(GlError::InvalidValue);
        }
        let Some(program) = self.program(program) else {
            return Some(GlError::InvalidOperation);
        };
        let Some(shader) = self.shader(shader) else {
            return Some(GlError::InvalidOperation);
        };
        if self
            .shader_of_kind(shader.kind(), program.attached())
            .is_some()
        {
            return Some(GlError::InvalidOperation);
        }
        None
    }

    /// The refusal of DetachShader: INVALID_VALUE for a name that is not in use; INVALID_OPERATION for a name of the other kind, and for a
    /// shader that is not attached.
    pub fn detach_refusal(&self, program: u32, shader: u32) -> Option<GlError>
        ensures { result ≡ plain.detach_shader_refusal (tables self.now) program shader }
    {
        if self.name(program).is_none() || self.name(shader).is_none() {
            return Some(GlError::InvalidValue);
        }
        detach_refusal_by(
            self.program(program),
            self.shader(shader),
            self.number(shader),
        )
    }

    /// The refusal of BindAttribLocation: INVALID_VALUE for a name that is not in use, an attribute past the last and an attribute's name
    /// that is too long; INVALID_OPERATION for a shader's name, and for an attribute's name that begins with `gl_`.
    pub fn bind_attrib_location_refusal(
        &self,
        program: u32,
        index: u32,
        name: &[u8],
    ) -> Option<GlError>
        ensures { result ≡ plain.bind_attrib_location_refusal (tables self.now) program index name.now }
    {
        if self.name(program).is_none()
            || index > LAST_ATTRIBUTE
            || name.len() > NAME_LENGTH_LIMIT as usize
        {
            return Some(GlError::InvalidValue);
        }
        if self.program(program).is_none() || is_built_in(name) {
            return Some(GlError::InvalidOperation);
        }
        None
    }

    /// Whether the last link of a program went well.
    pub fn is_linked(&self, id: u32) -> bool
        ensures { result ≡ plain.is_linked (plain.program_at (tables self.now) id) }
    {
        match self.program(id) {
            Some(program) => program.is_linked(),
            None => false,
        }
    }

    /// The refusal of UseProgram: 0 is none; INVALID_VALUE for a name that is not in use; INVALID_OPERATION for one that is no linked
    /// program's.
    pub fn use_program_refusal(&self, id: u32) -> Option<GlError>
        ensures { result ≡ plain.use_program_refusal (tables self.now) id }
    {
        if id == 0 {
            return None;
        }
        if self.name(id).is_none() {
            return Some(GlError::InvalidValue);
        }
        if self.is_linked(id) {
            return None;
        }
        Some(GlError::InvalidOperation)
    }

    /// The refusal of Uniform: INVALID_VALUE for a negative count and for a matrix to be transposed; INVALID_OPERATION where nothing is in
    /// use and for an unknown location, but -1 is ignored; and what the element refuses.
    pub fn uniform_refusal(
        &self,
        location: i32,
        kind: u32,
        count: i32,
        transpose: bool,
        bytes: &[u8],
    ) -> Option<GlError>
        requires { length bytes.now ≡ uniforms.uniform_needed kind count }
        ensures { result ≡ uniforms.uniform_refusal (tables self.now).installed location kind count transpose bytes.now }
    {
        if count < 0 || (transpose && is_matrix(kind)) {
            return Some(GlError::InvalidValue);
        }
        let Some(executable) = self.installed() else {
            return Some(GlError::InvalidOperation);
        };
        if location == -1 {
            return None;
        }
        let Some(element) = executable.element(location) else {
            return Some(GlError::InvalidOperation);
        };
        element.refusal(kind, count, bytes)
    }
}
