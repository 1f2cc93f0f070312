//! What Uniform gives to an element of a uniform (OpenGL ES 2.0.25, section 2.10.4).
ghost use Rattle.std.specs.Prelude.{◌≡◌, ◌≤◌, ◌+◌, ◌*◌, length, map};
ghost use Rattle.gl_plain.specs.Bytes.{overwritten, word_at, words_from};
ghost use Rattle.gl_plain.specs.subjects.Uniforms as plain;
ghost use Rattle.program_mgr.specs.Elements.{element_of};

use crate::uniform_kinds::{as_stored, given_count, given_words, is_array, is_sampler, suits};
use gl_base::GlEnum;
use gl_base::limits::LAST_UNIT;
use gl_plain::{GlError, Uniform};

/// An element of a uniform: its number, and where its words begin among the values.
#[derive(Clone, Copy)]
pub struct Element<'a> {
    pub uniform: &'a Uniform,
    pub element: u32,
    pub word: usize,
}

/// The word at a place.
fn word(bytes: &[u8], place: usize) -> u32
    requires { 4 * place + 4 ≤ length bytes.now }
    ensures { result ≡ word_at bytes.now place }
{
    let at = 4 * place;
    u32::from_le_bytes([bytes[at], bytes[at + 1], bytes[at + 2], bytes[at + 3]])
}

/// Whether one of the first words is a texture unit past the last.
fn has_no_unit(bytes: &[u8], count: usize) -> bool
    requires { 4 * count ≤ length bytes.now }
    ensures { result ≡ plain.has_no_unit (words_from bytes.now 0 count) }
{
    for i in 0..count {
        if word(bytes, i) > LAST_UNIT {
            return true;
        }
    }
    false
}

/// Stores the first words that are given, in a uniform of this type.
fn store_words(values: &mut [u32], uniform: GlEnum, kind: u32, bytes: &[u8])
    requires { 4 * length values.old ≤ length bytes.now }
    ensures { values.new ≡ map (plain.as_stored uniform kind) (words_from bytes.now 0 (length values.old)) }
{
    for i in 0..values.len() {
        values[i] = as_stored(uniform, kind, word(bytes, i));
    }
}

/// Stores so many words that are given among the values from a place on, in a uniform of this type.
pub fn store_part(
    values: &mut [u32],
    start: usize,
    count: usize,
    uniform: GlEnum,
    kind: u32,
    bytes: &[u8],
)
    requires room { start + count ≤ length values.old }
    requires given { 4 * count ≤ length bytes.now }
    ensures { values.new ≡ overwritten values.old start (map (plain.as_stored uniform kind) (words_from bytes.now 0 count)) }
{
    let part = &mut values[start..start + count];
    store_words(part, uniform, kind, bytes);
}

impl Element<'_> {
    /// How many of the elements that are given the uniform has from this one on; the others are ignored.
    fn stored_count(&self, count: i32) -> u32
        ensures stored { result ≡ plain.stored_count (element_of self.now) count }
        ensures few { result ≤ plain.given_count count }
    {
        given_count(count).min(self.uniform.size.saturating_sub(self.element))
    }

    /// How many words are stored.
    pub fn stored_words(&self, kind: u32, count: i32) -> usize
        ensures stored { result ≡ plain.given_words kind * plain.stored_count (element_of self.now) count }
        ensures few { 4 * result ≤ plain.uniform_needed kind count }
    {
        given_words(kind) as usize * self.stored_count(count) as usize
    }

    /// The refusal of what is given: INVALID_OPERATION for a kind that does not suit and for several elements of what is no array, and
    /// INVALID_VALUE for a sampler's value that would be stored and is no texture unit.
    pub fn refusal(&self, kind: u32, count: i32, bytes: &[u8]) -> Option<GlError>
        requires { length bytes.now ≡ plain.uniform_needed kind count }
        ensures { result ≡ plain.element_refusal (element_of self.now) kind count bytes.now }
    {
        if !suits(kind, self.uniform.kind) {
            return Some(GlError::InvalidOperation);
        }
        if count > 1 && !is_array(self.uniform) {
            return Some(GlError::InvalidOperation);
        }
        if is_sampler(self.uniform.kind) && has_no_unit(bytes, self.stored_words(kind, count)) {
            return Some(GlError::InvalidValue);
        }
        None
    }
}
