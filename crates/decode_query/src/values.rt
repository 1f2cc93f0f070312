//! GetIntegerv, GetBooleanv and GetFloatv (OpenGL ES 2.0.25, section 6.1.1).
ghost use Rattle.std.specs.Prelude.{◌≡◌, [], IfOk, is_none, map, unwrap_or};
ghost use Rattle.std.specs.Option.{option_map};
ghost use Rattle.gl_plain.specs.State.{EsState};
ghost use Rattle.gl_plain.specs.query.Words.{queried_of};
ghost use Rattle.gl_plain.specs.subjects.Links.{is_one_of};
ghost use Rattle.gl_plain.specs.subjects.Values as d;
ghost use Rattle.buffer_mgr.specs.Tables as buffers_as;
ghost use Rattle.program_mgr.specs.Tables as programs_as;
ghost use Rattle.target_mgr.specs.Tables as targets_as;
ghost use Rattle.texture_mgr.specs.Tables as textures_as;
ghost use Rattle.decode_query.specs.States.{asked_in};

use crate::asked::Asked;
use crate::constants::{constant_state, one};
use arrayvec::ArrayVec;
use buffer_mgr::Buffers;
use gl_base::enums::{ARRAY_BUFFER, ELEMENT_ARRAY_BUFFER, NEGATIVE_ZERO};
use gl_base::texture_enums::TEXTURE0;
use gl_base::{FloatBits, GlEnum, query_enums as names, raster_enums as raster};
use gl_plain::{GlError, ValueForm, Words};
use program_mgr::Programs;
use std::alloc::{AllocError, Global};
use target_mgr::Targets;
use texture_mgr::Textures;

/// The buffers that are bound, and the program that is in use.
fn object_binding(buffers: &Buffers, programs: &Programs, pname: u32) -> Option<ArrayVec<u32, 4>>
    ensures { option_map (λ words. words.items) result ≡ d.object_binding (buffers_as.tables buffers.now) (programs_as.tables programs.now) pname }
{
    match GlEnum(pname) {
        names::ARRAY_BUFFER_BINDING => Some(one(buffers.bound_name(ARRAY_BUFFER))),
        names::ELEMENT_ARRAY_BUFFER_BINDING => Some(one(buffers.bound_name(ELEMENT_ARRAY_BUFFER))),
        names::CURRENT_PROGRAM => Some(one(programs.current_name())),
        _ => None,
    }
}

/// The active unit, and the textures that it binds.
fn texture_binding(textures: &Textures, pname: u32) -> Option<ArrayVec<u32, 4>>
    ensures { option_map (λ words. words.items) result ≡ d.texture_binding (textures_as.tables textures.now) pname }
{
    match GlEnum(pname) {
        names::ACTIVE_TEXTURE => Some(one(TEXTURE0.0 + textures.active())),
        names::TEXTURE_BINDING_2D => Some(one(textures.bound_name(false))),
        names::TEXTURE_BINDING_CUBE_MAP => Some(one(textures.bound_name(true))),
        _ => None,
    }
}

/// The renderbuffer and the framebuffer that are bound.
fn target_binding(targets: &Targets, pname: u32) -> Option<ArrayVec<u32, 4>>
    ensures { option_map (λ words. words.items) result ≡ d.target_binding (targets_as.renderbuffers targets.now) (targets_as.framebuffers targets.now) pname }
{
    match GlEnum(pname) {
        names::RENDERBUFFER_BINDING => Some(one(targets.renderbuffer_bound_name())),
        names::FRAMEBUFFER_BINDING => Some(one(targets.framebuffer_bound_name())),
        _ => None,
    }
}

/// The words of the state of this name, or None.
#[tactic(auto, unfolding(gl_plain::specs::subjects::Values::state_named))]
fn state_named(asked: Asked<'_>, pname: u32) -> Option<ArrayVec<u32, 4>>
    ensures { (s : EsState) → option_map (λ words. words.items) result ≡ d.state_named (queried_of (asked_in asked.entry s)) pname }
{
    asked
        .raster
        .get(pname)
        .or_else(|| object_binding(asked.buffers, asked.programs, pname))
        .or_else(|| texture_binding(asked.textures, pname))
        .or_else(|| target_binding(asked.targets, pname))
        .or_else(|| constant_state(pname))
}

/// Whether the name is that of floats.
fn is_float_name(pname: GlEnum) -> bool
    ensures { result ≡ is_one_of pname d.float_names }
{
    matches!(
        pname,
        raster::BLEND_COLOR
            | raster::COLOR_CLEAR_VALUE
            | raster::DEPTH_CLEAR_VALUE
            | raster::DEPTH_RANGE
            | raster::LINE_WIDTH
            | raster::POLYGON_OFFSET_FACTOR
            | raster::POLYGON_OFFSET_UNITS
            | raster::SAMPLE_COVERAGE_VALUE
            | names::ALIASED_POINT_SIZE_RANGE
            | names::ALIASED_LINE_WIDTH_RANGE
    )
}

/// A whole number, as a signed one, or a boolean, as a float (section 6.1.2).
pub fn float_of_word(word: u32) -> u32
    ensures { result ≡ d.float_of_word word }
{
    FloatBits::from_int(word.cast_signed()).0
}

/// A whole number as a boolean.
fn boolean_of_word(word: u32) -> u32
    ensures { result ≡ d.boolean_of_word word }
{
    if word == 0 { 0 } else { 1 }
}

/// A float as a boolean.
fn boolean_of_float(pattern: u32) -> u32
    ensures { result ≡ d.boolean_of_float pattern }
{
    if pattern == 0 || pattern == NEGATIVE_ZERO {
        0
    } else {
        1
    }
}

/// A word in the form of the call that asks for it.
fn word_in_form(form: ValueForm, floats: bool, word: u32) -> u32
    ensures { result ≡ d.word_in_form form floats word }
{
    match form {
        ValueForm::Integer => word,
        ValueForm::Boolean if floats => boolean_of_float(word),
        ValueForm::Boolean => boolean_of_word(word),
        ValueForm::Float if floats => word,
        ValueForm::Float => float_of_word(word),
    }
}

/// The words in that form.
pub fn formed_words(
    alloc: Global,
    form: ValueForm,
    floats: bool,
    words: &[u32],
) -> Result<Words, AllocError>
    ensures { IfOk result (λ formed. formed ≡ map (d.word_in_form form floats) words.now) }
{
    let mut formed = Vec::new(alloc);
    for word in words {
        formed.push(word_in_form(form, floats, *word))?;
    }
    Ok(Words::from_vec(formed))
}

/// Floats are not given as whole numbers.
fn is_form_refused(form: ValueForm, floats: bool) -> bool
    ensures { result ≡ d.is_form_refused form floats }
{
    form == ValueForm::Integer && floats
}

/// Whether there is no state of this name.
fn is_unknown(asked: Asked<'_>, pname: u32) -> bool
    ensures { (s : EsState) → result ≡ is_none (d.state_named (queried_of (asked_in asked.entry s)) pname) }
{
    match state_named(asked, pname) {
        Some(_) => false,
        None => true,
    }
}

/// The refusal of GetIntegerv, GetBooleanv and GetFloatv.
pub fn get_value_refusal(asked: Asked<'_>, form: ValueForm, pname: GlEnum) -> Option<GlError>
    ensures { (s : EsState) → result ≡ d.get_value_refusal (queried_of (asked_in asked.entry s)) form pname }
{
    if is_unknown(asked, pname.0) {
        return Some(GlError::InvalidEnum);
    }
    if is_form_refused(form, is_float_name(pname)) {
        return Some(GlError::InvalidEnum);
    }
    None
}

/// The words of the state of this name: none where there is no such state.
fn state_words(asked: Asked<'_>, pname: u32) -> ArrayVec<u32, 4>
    ensures { (s : EsState) → result.items ≡ unwrap_or (d.state_named (queried_of (asked_in asked.entry s)) pname) [] }
{
    match state_named(asked, pname) {
        Some(words) => words,
        None => ArrayVec::new(),
    }
}

/// What they answer.
pub fn get_value(
    alloc: Global,
    asked: Asked<'_>,
    form: ValueForm,
    pname: GlEnum,
) -> Result<Words, AllocError>
    ensures { IfOk result (λ words. (s : EsState) → words ≡ d.get_value (queried_of (asked_in asked.entry s)) form pname) }
{
    let words = state_words(asked, pname.0);
    let formed = formed_words(alloc, form, is_float_name(pname), words.as_slice())?;
    Ok(formed)
}
