//! What Uniform gives, and which uniforms take it (OpenGL ES 2.0.25, section 2.10.4).
ghost use Rattle.std.specs.Prelude.{◌≡◌, ◌≤◌};
ghost use Rattle.gl_plain.specs.subjects.Uniforms as plain;
ghost use Rattle.gl_plain.specs.subjects.Links as links;

use gl_base::GlEnum;
use gl_base::enums::{
    BOOL, BOOL_VEC2, BOOL_VEC3, BOOL_VEC4, FLOAT, FLOAT_MAT2, FLOAT_MAT3, FLOAT_MAT4, FLOAT_VEC2,
    FLOAT_VEC3, FLOAT_VEC4, INT, INT_VEC2, INT_VEC3, INT_VEC4, NEGATIVE_ZERO, SAMPLER_2D,
    SAMPLER_CUBE,
};
use gl_base::limits::UNIFORM_LIMIT;
use gl_plain::Uniform;

/// Whether the number is a kind that Uniform gives: 1 to 4 are so many floats, 5 to 8 are 1 to 4 signed numbers, and 9 to 11 are square
/// matrices of 2 to 4 columns.
pub fn is_given_kind(kind: u32) -> bool
    ensures { result ≡ plain.is_given_kind kind }
{
    1 <= kind && kind <= 11
}

/// Whether the kind is one of matrices.
pub fn is_matrix(kind: u32) -> bool
    ensures { result ≡ plain.is_matrix kind }
{
    9 <= kind
}

/// The words of one element that is given.
pub fn given_words(kind: u32) -> u32
    ensures words { result ≡ plain.given_words kind }
    ensures few { result ≤ 16 }
{
    match kind {
        0..=4 => kind,
        5..=8 => kind - 4,
        9 => 4,
        10 => 9,
        _ => 16,
    }
}

/// How many elements are given: no more than there can be, and none of a negative count.
pub fn given_count(count: i32) -> u32
    ensures count { result ≡ plain.given_count count }
    ensures few { result ≤ UNIFORM_LIMIT }
{
    if count < 0 {
        return 0;
    }
    (count as u32).min(UNIFORM_LIMIT)
}

/// The bytes of what is given.
pub fn uniform_needed(kind: u32, count: i32) -> u32
    ensures { result ≡ plain.uniform_needed kind count }
{
    4 * (given_words(kind) * given_count(count))
}

/// The uniforms of floats, matrices or signed numbers that a kind suits.
fn own_type(kind: u32) -> GlEnum
    ensures { result ≡ plain.own_type kind }
{
    match kind {
        1 => FLOAT,
        2 => FLOAT_VEC2,
        3 => FLOAT_VEC3,
        4 => FLOAT_VEC4,
        5 => INT,
        6 => INT_VEC2,
        7 => INT_VEC3,
        8 => INT_VEC4,
        9 => FLOAT_MAT2,
        10 => FLOAT_MAT3,
        _ => FLOAT_MAT4,
    }
}

/// The uniforms of booleans that a kind suits, where it is no matrix.
fn boolean_type(kind: u32) -> GlEnum
    ensures { result ≡ plain.boolean_type kind }
{
    match given_words(kind) {
        1 => BOOL,
        2 => BOOL_VEC2,
        3 => BOOL_VEC3,
        _ => BOOL_VEC4,
    }
}

/// Whether uniforms of this type are samplers.
pub fn is_sampler(kind: GlEnum) -> bool
    ensures { result ≡ links.is_sampler kind }
{
    kind == SAMPLER_2D || kind == SAMPLER_CUBE
}

/// Whether uniforms of this type are floats, or matrices of floats.
pub fn is_float_kind(kind: GlEnum) -> bool
    ensures { result ≡ links.is_one_of kind links.float_kinds }
{
    matches!(
        kind,
        FLOAT | FLOAT_VEC2 | FLOAT_VEC3 | FLOAT_VEC4 | FLOAT_MAT2 | FLOAT_MAT3 | FLOAT_MAT4
    )
}

/// Whether uniforms of this type are booleans.
pub fn is_boolean(kind: GlEnum) -> bool
    ensures { result ≡ links.is_boolean kind }
{
    kind == BOOL || kind == BOOL_VEC2 || kind == BOOL_VEC3 || kind == BOOL_VEC4
}

/// Whether a uniform of this type takes what is given: a boolean takes floats and signed numbers, a sampler one signed number, and any
/// other uniform its own kind.
pub fn suits(kind: u32, uniform: GlEnum) -> bool
    ensures { result ≡ plain.suits kind uniform }
{
    uniform == own_type(kind)
        || (!is_matrix(kind) && uniform == boolean_type(kind))
        || (kind == 5 && is_sampler(uniform))
}

/// Whether a uniform is an array, as its name says.
pub fn is_array(uniform: &Uniform) -> bool
    ensures { result ≡ links.is_array uniform.now }
{
    uniform.name.as_slice().ends_with(b"[0]")
}

/// The columns of a matrix, and 1 of what is none.
pub fn columns(kind: GlEnum) -> u32
    ensures columns { result ≡ links.columns kind }
    ensures few { result ≤ 4 }
{
    if kind == FLOAT_MAT2 {
        2
    } else if kind == FLOAT_MAT3 {
        3
    } else if kind == FLOAT_MAT4 {
        4
    } else {
        1
    }
}

/// The words of a vector, or of a column of a matrix, and 1 of what is neither.
fn rows(kind: GlEnum) -> u32
    ensures rows { result ≡ links.rows kind }
    ensures few { result ≤ 4 }
{
    if kind == FLOAT_VEC2 || kind == FLOAT_MAT2 || kind == INT_VEC2 || kind == BOOL_VEC2 {
        2
    } else if kind == FLOAT_VEC3 || kind == FLOAT_MAT3 || kind == INT_VEC3 || kind == BOOL_VEC3 {
        3
    } else if kind == FLOAT_VEC4 || kind == FLOAT_MAT4 || kind == INT_VEC4 || kind == BOOL_VEC4 {
        4
    } else {
        1
    }
}

/// The words of one element of a uniform of this type.
pub fn words_of(kind: GlEnum) -> u32
    ensures words { result ≡ links.words_of kind }
    ensures few { result ≤ 16 }
{
    columns(kind) * rows(kind)
}

/// What a uniform of this type stores of a word that is given: a boolean is 0 where the word is zero, and else 1.
pub fn as_stored(uniform: GlEnum, kind: u32, word: u32) -> u32
    ensures { result ≡ plain.as_stored uniform kind word }
{
    if !is_boolean(uniform) {
        return word;
    }
    let is_integer = 5 <= kind && kind <= 8;
    if word == 0 || (!is_integer && word == NEGATIVE_ZERO) {
        0
    } else {
        1
    }
}
