//! GetUniformiv and GetUniformfv (OpenGL ES 2.0.25, section 6.1.8).
ghost use Rattle.std.specs.Prelude.{◌≡◌, IfOk};
ghost use Rattle.gl_plain.specs.subjects.ProgramQueries as d;
ghost use Rattle.gl_plain.specs.subjects.Programs as plain;
ghost use Rattle.program_mgr.specs.Tables as programs_as;

use crate::values::formed_words;
use gl_plain::{GlError, ValueForm, Words};
use program_mgr::{Program, Programs, is_float_kind};
use std::alloc::{AllocError, Global};

/// The refusal behind that of the name: a program that is not linked, a location of none of its uniforms, floats where whole numbers are asked
/// for.
fn element_refusal(program: &Program, location: i32, float: bool) -> Option<GlError>
    ensures { result ≡ d.uniform_refusal_in program.now.executable location float }
{
    let Some(executable) = program.executable() else {
        return Some(GlError::InvalidOperation);
    };
    match executable.element(location) {
        None => Some(GlError::InvalidOperation),
        Some(element) if !float && is_float_kind(element.uniform.kind) => {
            Some(GlError::InvalidOperation)
        }
        Some(_) => None,
    }
}

/// The refusal of GetUniformfv, or else GetUniformiv.
pub fn get_uniform_refusal(
    programs: &Programs,
    program: u32,
    location: i32,
    float: bool,
) -> Option<GlError>
    ensures { result ≡ d.get_uniform_refusal (programs_as.tables programs.now) program location float }
{
    if let Some(error) = programs.program_refusal(program) {
        return Some(error);
    }
    match programs.program(program) {
        Some(program) => element_refusal(program, location, float),
        None => Some(GlError::InvalidOperation),
    }
}

/// What they answer: the words of the element.
pub fn get_uniform(
    alloc: Global,
    programs: &Programs,
    program: u32,
    location: i32,
    float: bool,
) -> Result<Words, AllocError>
    ensures { IfOk result (λ words. words ≡ d.get_uniform (programs_as.tables programs.now) program location float) }
{
    let Some(program) = programs.program(program) else {
        return Ok(Words::new(alloc));
    };
    let Some(executable) = program.executable() else {
        return Ok(Words::new(alloc));
    };
    let (Some(element), Some(values)) = (
        executable.element(location),
        executable.words_at(location),
    ) else {
        return Ok(Words::new(alloc));
    };
    if float && !is_float_kind(element.uniform.kind) {
        formed_words(alloc, ValueForm::Float, false, values)
    } else {
        Words::from_slice(alloc, values)
    }
}
