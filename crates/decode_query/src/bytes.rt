//! The queries whose answer is bytes (OpenGL ES 2.0.25, sections 6.1.8 and 2.10).
ghost use Rattle.std.specs.Prelude.{◌≡◌, ◌≤◌, ◌∷◌, [], ◌++◌, map, IfOk, OnOk};
ghost use Rattle.std.specs.Option.{option_copied};
ghost use Rattle.gl_base.specs.declared.limits.TheConstants.{UNIFORM_LIMIT};
ghost use Rattle.gl_plain.specs.subjects.Links.{elements_in};
ghost use Rattle.gl_plain.specs.Bytes.{bytes_of_words};
ghost use Rattle.gl_plain.specs.query.Bytes as queries;
ghost use Rattle.gl_plain.specs.subjects.ProgramQueries as d;
ghost use Rattle.program_mgr.specs.Tables as programs_as;

use crate::programs::{attributes_of, uniforms_of, word};
use gl_plain::{Attribute, ByteQuery, Bytes, GlError, Uniform};
use program_mgr::{Executable, Programs};
use std::alloc::{AllocError, Global};

/// The refusal of a query whose answer is bytes.
pub fn byte_query_refusal(programs: &Programs, query: ByteQuery) -> Option<GlError>
    ensures { result ≡ queries.byte_query_refusal (programs_as.tables programs.now) query }
{
    match query {
        ByteQuery::GetShaderInfoLog { shader } | ByteQuery::GetShaderSource { shader } => {
            programs.shader_refusal(shader)
        }
        ByteQuery::GetProgramInfoLog { program }
        | ByteQuery::GetProgramTable { program }
        | ByteQuery::GetAttachedShaders { program } => programs.program_refusal(program),
    }
}

/// Adds a word as four bytes, the lowest first.
fn push_word(bytes: &mut Vec<u8>, word: u32) -> Result<(), AllocError>
    ensures { OnOk result (bytes.new.items ≡ bytes.old.items ++ bytes_of_words (word ∷ [])) }
{
    bytes.extend_from_slice(&word.to_le_bytes())?;
    Ok(())
}

/// Adds an attribute: its type, its location, the length of its name, and the name.
fn push_attribute(bytes: &mut Vec<u8>, attribute: &Attribute) -> Result<(), AllocError>
    ensures { OnOk result (bytes.new.items ≡ bytes.old.items ++ d.attribute_entry attribute.now) }
{
    push_word(bytes, attribute.kind.0)?;
    push_word(bytes, attribute.location)?;
    push_word(bytes, word(attribute.name.len()))?;
    bytes.extend_from_slice(attribute.name.as_slice())?;
    Ok(())
}

/// Adds these attributes.
fn push_attributes(bytes: &mut Vec<u8>, attributes: &[Attribute]) -> Result<(), AllocError>
    ensures { OnOk result (bytes.new.items ≡ bytes.old.items ++ d.attribute_entries attributes.now) }
{
    for attribute in attributes {
        push_attribute(bytes, attribute)?;
    }
    Ok(())
}

/// Adds a uniform with this first location: its type, its size, that location, the length of its name, and the name.
fn push_uniform(bytes: &mut Vec<u8>, location: u32, uniform: &Uniform) -> Result<(), AllocError>
    ensures { OnOk result (bytes.new.items ≡ bytes.old.items ++ d.uniform_entry location uniform.now) }
{
    push_word(bytes, uniform.kind.0)?;
    push_word(bytes, uniform.size)?;
    push_word(bytes, location)?;
    push_word(bytes, word(uniform.name.len()))?;
    bytes.extend_from_slice(uniform.name.as_slice())?;
    Ok(())
}

/// Adds these uniforms. The locations of a uniform follow those of the uniform before it, from 0 on.
fn push_uniforms(bytes: &mut Vec<u8>, uniforms: &[Uniform]) -> Result<(), AllocError>
    requires { elements_in uniforms.now ≤ UNIFORM_LIMIT }
    ensures { OnOk result (bytes.new.items ≡ bytes.old.items ++ d.uniform_entries 0 uniforms.now) }
{
    let mut location = 0;
    for uniform in uniforms {
        push_uniform(bytes, location, uniform)?;
        location += uniform.size;
    }
    Ok(())
}

/// The table of a program: whether it is linked, how many attributes there are, and each, and how many uniforms, and each.
fn table_of(alloc: Global, executable: Option<&Executable>) -> Result<Bytes, AllocError>
    ensures { IfOk result (λ bytes. bytes ≡ d.table_of (option_copied executable.entry)) }
{
    let attributes = attributes_of(executable);
    let uniforms = uniforms_of(executable);
    let mut bytes = Vec::new(alloc);
    push_word(&mut bytes, u32::from(executable.is_some()))?;
    push_word(&mut bytes, word(attributes.len()))?;
    push_attributes(&mut bytes, attributes)?;
    push_word(&mut bytes, word(uniforms.len()))?;
    push_uniforms(&mut bytes, uniforms)?;
    Ok(Bytes::from_vec(bytes))
}

/// The names of the shaders of these numbers, as words of four bytes.
fn names_of(alloc: Global, programs: &Programs, numbers: &[u64]) -> Result<Bytes, AllocError>
    ensures { IfOk result (λ bytes. bytes ≡ bytes_of_words (map (d.name_in (programs_as.tables programs.now)) numbers.now)) }
{
    let mut bytes = Vec::new(alloc);
    for number in numbers {
        push_word(&mut bytes, programs.name_of(*number))?;
    }
    Ok(Bytes::from_vec(bytes))
}

/// What a query answers whose answer is bytes. A name that is none of its kind has none.
pub fn byte_query(alloc: Global, programs: &Programs, query: ByteQuery) -> Result<Bytes, AllocError>
    ensures { IfOk result (λ bytes. bytes ≡ queries.byte_query_reply (programs_as.tables programs.now) query) }
{
    match query {
        ByteQuery::GetShaderInfoLog { shader } => match programs.shader(shader) {
            Some(shader) => Bytes::from_slice(alloc, shader.log()),
            None => Ok(Bytes::new(alloc)),
        },
        ByteQuery::GetShaderSource { shader } => match programs.shader(shader) {
            Some(shader) => Bytes::from_slice(alloc, shader.source()),
            None => Ok(Bytes::new(alloc)),
        },
        ByteQuery::GetProgramInfoLog { program } => match programs.program(program) {
            Some(program) => Bytes::from_slice(alloc, program.log()),
            None => Ok(Bytes::new(alloc)),
        },
        ByteQuery::GetProgramTable { program } => {
            let executable = match programs.program(program) {
                Some(program) => program.executable(),
                None => None,
            };
            table_of(alloc, executable)
        }
        ByteQuery::GetAttachedShaders { program } => match programs.program(program) {
            Some(program) => names_of(alloc, programs, program.attached()),
            None => Ok(Bytes::new(alloc)),
        },
    }
}
