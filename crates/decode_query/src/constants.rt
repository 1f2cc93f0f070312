//! What this implementation has (OpenGL ES 2.0.25, tables 6.18 to 6.20).
ghost use Rattle.std.specs.Prelude.{◌≡◌, [], ◌∷◌};
ghost use Rattle.std.specs.Option.{option_map};
ghost use Rattle.gl_plain.specs.subjects.Values as d;

use arrayvec::ArrayVec;
use gl_base::enums::{ONE, UNSIGNED_BYTE};
use gl_base::limits::{LAST_ATTRIBUTE, LAST_UNIT, SIDE_LIMIT, UNIFORM_VECTORS, VARYING_VECTORS};
use gl_base::texture_enums::RGBA;
use gl_base::{GlEnum, query_enums as names};

/// One word.
pub fn one(word: u32) -> ArrayVec<u32, 4>
    ensures { result.items ≡ word ∷ [] }
{
    let mut words = ArrayVec::new();
    words.push(word);
    words
}

/// Two words that are the same.
fn twice(word: u32) -> ArrayVec<u32, 4>
    ensures { result.items ≡ word ∷ word ∷ [] }
{
    let mut words = ArrayVec::new();
    words.push(word);
    words.push(word);
    words
}

/// The greatest sizes.
fn size_constant(pname: u32) -> Option<ArrayVec<u32, 4>>
    ensures { option_map (λ words. words.items) result ≡ d.size_constant pname }
{
    match GlEnum(pname) {
        names::MAX_TEXTURE_SIZE => Some(one(SIDE_LIMIT)),
        names::MAX_CUBE_MAP_TEXTURE_SIZE => Some(one(SIDE_LIMIT)),
        names::MAX_RENDERBUFFER_SIZE => Some(one(SIDE_LIMIT)),
        names::MAX_VIEWPORT_DIMS => Some(twice(SIDE_LIMIT)),
        names::ALIASED_POINT_SIZE_RANGE => Some(twice(ONE)),
        names::ALIASED_LINE_WIDTH_RANGE => Some(twice(ONE)),
        _ => None,
    }
}

/// What programs can use.
fn program_constant(pname: u32) -> Option<ArrayVec<u32, 4>>
    ensures { option_map (λ words. words.items) result ≡ d.program_constant pname }
{
    let word = match GlEnum(pname) {
        names::MAX_VERTEX_ATTRIBS => LAST_ATTRIBUTE + 1,
        names::MAX_VERTEX_UNIFORM_VECTORS => UNIFORM_VECTORS,
        names::MAX_FRAGMENT_UNIFORM_VECTORS => UNIFORM_VECTORS,
        names::MAX_VARYING_VECTORS => VARYING_VECTORS,
        names::MAX_TEXTURE_IMAGE_UNITS => LAST_UNIT + 1,
        names::MAX_VERTEX_TEXTURE_IMAGE_UNITS => LAST_UNIT + 1,
        names::MAX_COMBINED_TEXTURE_IMAGE_UNITS => LAST_UNIT + 1,
        names::SHADER_COMPILER => 1,
        _ => return None,
    };
    Some(one(word))
}

/// The bits of pixels, for whatever framebuffer is bound.
fn bits_constant(pname: u32) -> Option<ArrayVec<u32, 4>>
    ensures { option_map (λ words. words.items) result ≡ d.bits_constant pname }
{
    let word = match GlEnum(pname) {
        names::SUBPIXEL_BITS => 4,
        names::RED_BITS => 8,
        names::GREEN_BITS => 8,
        names::BLUE_BITS => 8,
        names::ALPHA_BITS => 8,
        names::DEPTH_BITS => 16,
        names::STENCIL_BITS => 8,
        names::SAMPLE_BUFFERS => 0,
        names::SAMPLES => 0,
        _ => return None,
    };
    Some(one(word))
}

/// Formats: no textures and no shaders are taken that were made elsewhere.
fn format_constant(pname: u32) -> Option<ArrayVec<u32, 4>>
    ensures { option_map (λ words. words.items) result ≡ d.format_constant pname }
{
    match GlEnum(pname) {
        names::NUM_COMPRESSED_TEXTURE_FORMATS => Some(one(0)),
        names::COMPRESSED_TEXTURE_FORMATS => Some(ArrayVec::new()),
        names::NUM_SHADER_BINARY_FORMATS => Some(one(0)),
        names::SHADER_BINARY_FORMATS => Some(ArrayVec::new()),
        names::IMPLEMENTATION_COLOR_READ_FORMAT => Some(one(RGBA.0)),
        names::IMPLEMENTATION_COLOR_READ_TYPE => Some(one(UNSIGNED_BYTE.0)),
        _ => None,
    }
}

/// The words of a constant of this name, or None. No name is that of two.
pub fn constant_state(pname: u32) -> Option<ArrayVec<u32, 4>>
    ensures { option_map (λ words. words.items) result ≡ d.constant_state pname }
{
    size_constant(pname)
        .or_else(|| program_constant(pname))
        .or_else(|| bits_constant(pname))
        .or_else(|| format_constant(pname))
}
