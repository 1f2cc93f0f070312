//! The state of shaders and programs that is asked for (OpenGL ES 2.0.25, section 6.1.8).
ghost use Rattle.std.specs.Prelude.{◌≡◌, ◌<◌, ◌≤◌, ◌^◌};
ghost use Rattle.std.specs.Option.{option_copied};
ghost use Rattle.gl_base.specs.declared.limits.TheConstants.{UNIFORM_LIMIT};
ghost use Rattle.gl_plain.specs.subjects.Links.{elements_in};
ghost use Rattle.gl_plain.specs.Words.{as_word};
ghost use Rattle.gl_plain.specs.subjects.ProgramQueries as d;
ghost use Rattle.gl_plain.specs.subjects.Programs as plain;
ghost use Rattle.program_mgr.specs.Tables as programs_as;

use gl_base::{GlEnum, query_enums as names};
use gl_plain::{Attribute, GlError, Uniform};
use program_mgr::{Executable, Program, Programs, Shader};

/// A count as a word.
pub fn word(n: usize) -> u32
    ensures { result ≡ as_word n }
{
    (n % (1 << 32)) as u32
}

/// How many bytes a text has with a closing zero, and 0 where there is no text.
fn closed_length(n: usize) -> u32
    requires { n < 2 ^ 63 }
    ensures { result ≡ d.closed_length n }
{
    if n == 0 { 0 } else { word(n + 1) }
}

/// Whether GetShaderiv takes the name.
fn is_shader_parameter(pname: GlEnum) -> bool
    ensures { result ≡ d.is_shader_parameter pname }
{
    matches!(
        pname,
        names::SHADER_TYPE
            | names::DELETE_STATUS
            | names::COMPILE_STATUS
            | names::INFO_LOG_LENGTH
            | names::SHADER_SOURCE_LENGTH
    )
}

/// The refusal of GetShaderiv.
pub fn get_shader_refusal(programs: &Programs, shader: u32, pname: GlEnum) -> Option<GlError>
    ensures { result ≡ d.get_shader_refusal (programs_as.tables programs.now) shader pname }
{
    if !is_shader_parameter(pname) {
        return Some(GlError::InvalidEnum);
    }
    programs.shader_refusal(shader)
}

/// A parameter of a shader.
fn parameter_of(shader: &Shader, pname: GlEnum) -> u32
    ensures { result ≡ d.parameter_of_shader shader.now pname }
{
    match pname {
        names::SHADER_TYPE => shader.kind().0,
        names::DELETE_STATUS => u32::from(shader.is_deleted()),
        names::COMPILE_STATUS => u32::from(shader.is_compiled()),
        names::INFO_LOG_LENGTH => closed_length(shader.log().len()),
        _ => closed_length(shader.source().len()),
    }
}

/// What GetShaderiv answers.
pub fn shader_parameter(programs: &Programs, shader: u32, pname: GlEnum) -> u32
    ensures { result ≡ d.shader_parameter (plain.shader_at (programs_as.tables programs.now) shader) pname }
{
    match programs.shader(shader) {
        Some(shader) => parameter_of(shader, pname),
        None => 0,
    }
}

/// Whether GetProgramiv takes the name.
fn is_program_parameter(pname: GlEnum) -> bool
    ensures { result ≡ d.is_program_parameter pname }
{
    matches!(
        pname,
        names::DELETE_STATUS
            | names::LINK_STATUS
            | names::VALIDATE_STATUS
            | names::INFO_LOG_LENGTH
            | names::ATTACHED_SHADERS
            | names::ACTIVE_UNIFORMS
            | names::ACTIVE_UNIFORM_MAX_LENGTH
            | names::ACTIVE_ATTRIBUTES
            | names::ACTIVE_ATTRIBUTE_MAX_LENGTH
    )
}

/// The refusal of GetProgramiv.
pub fn get_program_refusal(programs: &Programs, program: u32, pname: GlEnum) -> Option<GlError>
    ensures { result ≡ d.get_program_refusal (programs_as.tables programs.now) program pname }
{
    if !is_program_parameter(pname) {
        return Some(GlError::InvalidEnum);
    }
    programs.program_refusal(program)
}

/// The bytes of the longest name of these attributes.
fn longest_attribute(attributes: &[Attribute]) -> usize
    ensures value { result ≡ d.longest_attribute attributes.now }
    ensures fits { result < 2 ^ 63 }
{
    let mut longest = 0;
    for attribute in attributes {
        longest = attribute.name.as_slice().len().max(longest);
    }
    longest
}

/// The bytes of the longest name of these uniforms.
fn longest_uniform(uniforms: &[Uniform]) -> usize
    ensures value { result ≡ d.longest_uniform uniforms.now }
    ensures fits { result < 2 ^ 63 }
{
    let mut longest = 0;
    for uniform in uniforms {
        longest = uniform.name.as_slice().len().max(longest);
    }
    longest
}

/// The active attributes of an executable, if there is one.
pub fn attributes_of(executable: Option<&Executable>) -> &[Attribute]
    ensures { result.now ≡ d.active_attributes (option_copied executable.entry) }
{
    match executable {
        Some(executable) => executable.attributes().as_slice(),
        None => &[],
    }
}

/// The active uniforms of an executable, if there is one.
pub fn uniforms_of(executable: Option<&Executable>) -> &[Uniform]
    ensures uniforms { result.now ≡ d.active_uniforms (option_copied executable.entry) }
    ensures few { elements_in result.now ≤ UNIFORM_LIMIT }
{
    match executable {
        Some(executable) => executable.uniforms().as_slice(),
        None => &[],
    }
}

/// A parameter of a program.
fn parameter_in(program: &Program, pname: GlEnum) -> u32
    ensures { result ≡ d.parameter_of_program program.now pname }
{
    match pname {
        names::DELETE_STATUS => u32::from(program.is_deleted()),
        names::LINK_STATUS => u32::from(program.is_linked()),
        names::VALIDATE_STATUS => u32::from(program.is_valid()),
        names::INFO_LOG_LENGTH => closed_length(program.log().len()),
        names::ATTACHED_SHADERS => word(program.attached().len()),
        names::ACTIVE_UNIFORMS => word(uniforms_of(program.executable()).len()),
        names::ACTIVE_UNIFORM_MAX_LENGTH => closed_length(longest_uniform(uniforms_of(
            program.executable(),
        ))),
        names::ACTIVE_ATTRIBUTES => word(attributes_of(program.executable()).len()),
        _ => closed_length(longest_attribute(attributes_of(program.executable()))),
    }
}

/// What GetProgramiv answers.
pub fn program_parameter(programs: &Programs, program: u32, pname: GlEnum) -> u32
    ensures { result ≡ d.program_parameter (plain.program_at (programs_as.tables programs.now) program) pname }
{
    match programs.program(program) {
        Some(program) => parameter_in(program, pname),
        None => 0,
    }
}
