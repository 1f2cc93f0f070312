//! What a linker may say of a program: its active attributes and uniforms (OpenGL ES 2.0.25, section 2.10.4).
ghost use Rattle.std.specs.Prelude.{◌≡◌, ◌≤◌, ◌+◌, nat_le};
ghost use Rattle.std.specs.List.{list_all, list_any};
ghost use Rattle.gl_base.specs.declared.limits.TheConstants as limits;
ghost use Rattle.gl_plain.specs.declared.programs.Uniform.{Uniform as UniformValue};
ghost use Rattle.gl_plain.specs.subjects.Links as links;

use crate::{Attribute, Uniform};
use gl_base::GlEnum;
use gl_base::enums::{
    BOOL, BOOL_VEC2, BOOL_VEC3, BOOL_VEC4, FLOAT, FLOAT_MAT2, FLOAT_MAT3, FLOAT_MAT4, FLOAT_VEC2,
    FLOAT_VEC3, FLOAT_VEC4, INT, INT_VEC2, INT_VEC3, INT_VEC4, SAMPLER_2D, SAMPLER_CUBE,
};
use gl_base::limits::{DATA_LIMIT, LAST_ATTRIBUTE, NAME_LENGTH_LIMIT, UNIFORM_LIMIT};

/// Whether attributes may be of this kind: floats, and matrices of floats.
pub fn is_attribute_type(kind: GlEnum) -> bool
    ensures { result ≡ links.is_attribute_type kind }
{
    kind == FLOAT
        || kind == FLOAT_VEC2
        || kind == FLOAT_VEC3
        || kind == FLOAT_VEC4
        || kind == FLOAT_MAT2
        || kind == FLOAT_MAT3
        || kind == FLOAT_MAT4
}

/// Whether it is a kind of samplers.
pub fn is_sampler(kind: GlEnum) -> bool
    ensures { result ≡ links.is_sampler kind }
{
    kind == SAMPLER_2D || kind == SAMPLER_CUBE
}

/// Whether it is a kind of booleans.
pub fn is_boolean(kind: GlEnum) -> bool
    ensures { result ≡ links.is_boolean kind }
{
    kind == BOOL || kind == BOOL_VEC2 || kind == BOOL_VEC3 || kind == BOOL_VEC4
}

/// Whether uniforms may be of this kind.
pub fn is_uniform_type(kind: GlEnum) -> bool
    ensures { result ≡ links.is_uniform_type kind }
{
    is_attribute_type(kind)
        || kind == INT
        || kind == INT_VEC2
        || kind == INT_VEC3
        || kind == INT_VEC4
        || kind == BOOL
        || kind == BOOL_VEC2
        || kind == BOOL_VEC3
        || kind == BOOL_VEC4
        || kind == SAMPLER_2D
        || kind == SAMPLER_CUBE
}

/// The columns of a matrix, and 1 of what is none.
pub fn columns(kind: GlEnum) -> u32
    ensures value { result ≡ links.columns kind }
    ensures few { result ≤ 4 }
{
    if kind == FLOAT_MAT2 {
        2
    } else if kind == FLOAT_MAT3 {
        3
    } else if kind == FLOAT_MAT4 {
        4
    } else {
        1
    }
}

/// The words of a vector, or of a column of a matrix, and 1 of what is neither.
pub fn rows(kind: GlEnum) -> u32
    ensures value { result ≡ links.rows kind }
    ensures few { result ≤ 4 }
{
    if kind == FLOAT_VEC2 || kind == FLOAT_MAT2 || kind == INT_VEC2 || kind == BOOL_VEC2 {
        2
    } else if kind == FLOAT_VEC3 || kind == FLOAT_MAT3 || kind == INT_VEC3 || kind == BOOL_VEC3 {
        3
    } else if kind == FLOAT_VEC4 || kind == FLOAT_MAT4 || kind == INT_VEC4 || kind == BOOL_VEC4 {
        4
    } else {
        1
    }
}

/// The words of one element.
pub fn words_of(kind: GlEnum) -> u32
    ensures value { result ≡ links.words_of kind }
    ensures few { result ≤ 16 }
{
    columns(kind) * rows(kind)
}

/// Whether a uniform is an array: its name ends in `[0]`.
pub fn is_array(uniform: &Uniform) -> bool
    ensures { result ≡ links.is_array uniform.now }
{
    let name = uniform.name.as_slice();
    name.len() >= 3 && &name[name.len() - 3..] == b"[0]".as_slice()
}

/// Whether a name of an attribute or a uniform may have this byte.
fn is_name_byte(c: u8) -> bool
    ensures { result ≡ links.is_name_byte c }
{
    (c >= b'a' && c <= b'z')
        || (c >= b'A' && c <= b'Z')
        || (c >= b'0' && c <= b'9')
        || c == b'_'
        || c == b'.'
        || c == b'['
        || c == b']'
}

fn are_name_bytes(name: &[u8]) -> bool
    ensures { result ≡ list_all links.is_name_byte name.now }
{
    for c in name {
        if !is_name_byte(*c) {
            return false;
        }
    }
    true
}

/// Whether an attribute or a uniform may have this name.
pub fn is_variable_name(name: &[u8]) -> bool
    ensures { result ≡ links.is_variable_name name.now }
{
    !name.is_empty() && name.len() as u64 <= u64::from(NAME_LENGTH_LIMIT) && are_name_bytes(name)
}

fn is_same_name(a: &[u8], b: &[u8]) -> bool
    ensures { result ≡ links.is_same_name a.now b.now }
{
    a == b
}

/// Whether two attributes can't be in one program: they have the same name, or a location in common.
pub fn conflict(a: &Attribute, b: &Attribute) -> bool
    ensures { result ≡ links.conflict a.now b.now }
{
    is_same_name(a.name.as_slice(), b.name.as_slice())
        || (u64::from(a.location) < u64::from(b.location) + u64::from(columns(b.kind))
            && u64::from(b.location) < u64::from(a.location) + u64::from(columns(a.kind)))
}

/// Whether it is an attribute by itself: a name, a kind, and locations that are there.
pub fn is_attribute(attribute: &Attribute) -> bool
    ensures { result ≡ links.is_attribute attribute.now }
{
    let end = u64::from(attribute.location) + u64::from(columns(attribute.kind));
    is_variable_name(attribute.name.as_slice())
        && is_attribute_type(attribute.kind)
        && end <= u64::from(LAST_ATTRIBUTE) + 1
}

fn conflicts_with_any(before: &[Attribute], attribute: &Attribute) -> bool
    ensures { result ≡ list_any (λ b. links.conflict b attribute.now) before.now }
{
    for other in before {
        if conflict(other, attribute) {
            return true;
        }
    }
    false
}

/// Whether an attribute may stand behind these.
pub fn may_follow(before: &[Attribute], attribute: &Attribute) -> bool
    ensures { result ≡ links.may_follow before.now attribute.now }
{
    is_attribute(attribute) && !conflicts_with_any(before, attribute)
}

/// Whether it is a uniform by itself: a name, a kind, and more than one element only where it is an array.
pub fn is_uniform(uniform: &Uniform) -> bool
    ensures { result ≡ links.is_uniform uniform.now }
{
    is_variable_name(uniform.name.as_slice())
        && is_uniform_type(uniform.kind)
        && uniform.size >= 1
        && (is_array(uniform) || uniform.size == 1)
}

fn is_named_among(before: &[Uniform], name: &[u8]) -> bool
    ensures { result ≡ list_any (λ (b : UniformValue). links.is_same_name b.name name.now) before.now }
{
    for other in before {
        if is_same_name(other.name.as_slice(), name) {
            return true;
        }
    }
    false
}

/// Whether there is room for so many elements behind those of these uniforms.
fn has_room(before: &[Uniform], size: u32) -> bool
    ensures { result ≡ nat_le (links.elements_in before.now + size) limits.UNIFORM_LIMIT }
{
    let mut room = UNIFORM_LIMIT;
    for uniform in before {
        if uniform.size > room {
            return false;
        }
        room -= uniform.size;
    }
    size <= room
}

/// Whether a uniform may stand behind these.
pub fn may_follow_uniforms(before: &[Uniform], uniform: &Uniform) -> bool
    ensures { result ≡ links.may_follow_uniforms before.now uniform.now }
{
    is_uniform(uniform)
        && !is_named_among(before, uniform.name.as_slice())
        && has_room(before, uniform.size)
}

/// Whether a log is not too long.
pub fn is_log(log: &[u8]) -> bool
    ensures { result ≡ links.is_log log.now }
{
    log.len() as u64 <= u64::from(DATA_LIMIT)
}
