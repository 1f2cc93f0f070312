//! The words of the fixed state by the names under which they are asked for (OpenGL ES 2.0.25, section 6.1.1).
ghost use Rattle.std.specs.Prelude.{◌≡◌, [], ◌∷◌};
ghost use Rattle.gl_plain.specs.subjects.Raster as plain;
ghost use Rattle.std.specs.Option.{option_map};

use arrayvec::ArrayVec;
use gl_base::{GlEnum, raster_enums as enums};
use gl_plain::{Alignments, Capabilities, RasterWords, StencilSide};

/// One word.
fn one(word: u32) -> ArrayVec<u32, 4>
    ensures { result.items ≡ word ∷ [] }
{
    let mut words = ArrayVec::new();
    words.push(word);
    words
}

/// Two words.
fn two(pair: [u32; 2]) -> ArrayVec<u32, 4>
    ensures { result.items ≡ pair }
{
    let mut words = ArrayVec::new();
    words.push(pair[0]);
    words.push(pair[1]);
    words
}

/// Whether a capability is enabled.
fn capability_state(capabilities: &Capabilities, pname: u32) -> Option<ArrayVec<u32, 4>>
    ensures { option_map (λ words. words.items) result ≡ plain.capability_state capabilities.now pname }
{
    let word = match GlEnum(pname) {
        enums::CULL_FACE => capabilities.cull_face,
        enums::BLEND => capabilities.blend,
        enums::DITHER => capabilities.dither,
        enums::STENCIL_TEST => capabilities.stencil_test,
        enums::DEPTH_TEST => capabilities.depth_test,
        enums::SCISSOR_TEST => capabilities.scissor_test,
        enums::POLYGON_OFFSET_FILL => capabilities.polygon_offset_fill,
        enums::SAMPLE_ALPHA_TO_COVERAGE => capabilities.sample_alpha_to_coverage,
        enums::SAMPLE_COVERAGE => capabilities.sample_coverage,
        _ => return None,
    };
    Some(one(word))
}

/// The words of the stencil test for front faces.
fn front_state(side: &StencilSide, pname: u32) -> Option<ArrayVec<u32, 4>>
    ensures { option_map (λ words. words.items) result ≡ plain.front_state side.now pname }
{
    let word = match GlEnum(pname) {
        enums::STENCIL_FUNC => side.function,
        enums::STENCIL_REF => side.reference,
        enums::STENCIL_VALUE_MASK => side.value_mask,
        enums::STENCIL_WRITEMASK => side.write_mask,
        enums::STENCIL_FAIL => side.fail,
        enums::STENCIL_PASS_DEPTH_FAIL => side.depth_fail,
        enums::STENCIL_PASS_DEPTH_PASS => side.depth_pass,
        _ => return None,
    };
    Some(one(word))
}

/// The words of the stencil test for back faces.
fn back_state(side: &StencilSide, pname: u32) -> Option<ArrayVec<u32, 4>>
    ensures { option_map (λ words. words.items) result ≡ plain.back_state side.now pname }
{
    let word = match GlEnum(pname) {
        enums::STENCIL_BACK_FUNC => side.function,
        enums::STENCIL_BACK_REF => side.reference,
        enums::STENCIL_BACK_VALUE_MASK => side.value_mask,
        enums::STENCIL_BACK_WRITEMASK => side.write_mask,
        enums::STENCIL_BACK_FAIL => side.fail,
        enums::STENCIL_BACK_PASS_DEPTH_FAIL => side.depth_fail,
        enums::STENCIL_BACK_PASS_DEPTH_PASS => side.depth_pass,
        _ => return None,
    };
    Some(one(word))
}

/// How colours are blended.
fn blend_state(words: &RasterWords, pname: u32) -> Option<ArrayVec<u32, 4>>
    ensures { option_map (λ words. words.items) result ≡ plain.blend_state words.now pname }
{
    match GlEnum(pname) {
        enums::BLEND_COLOR => Some(ArrayVec::from(words.blend_color)),
        enums::BLEND_EQUATION_RGB => Some(one(words.blend_equation[0])),
        enums::BLEND_EQUATION_ALPHA => Some(one(words.blend_equation[1])),
        enums::BLEND_SRC_RGB => Some(one(words.blend_factors[0])),
        enums::BLEND_DST_RGB => Some(one(words.blend_factors[1])),
        enums::BLEND_SRC_ALPHA => Some(one(words.blend_factors[2])),
        enums::BLEND_DST_ALPHA => Some(one(words.blend_factors[3])),
        _ => None,
    }
}

/// What Clear writes, and what is written at all.
fn write_state(words: &RasterWords, pname: u32) -> Option<ArrayVec<u32, 4>>
    ensures { option_map (λ words. words.items) result ≡ plain.write_state words.now pname }
{
    match GlEnum(pname) {
        enums::COLOR_CLEAR_VALUE => Some(ArrayVec::from(words.clear_color)),
        enums::DEPTH_CLEAR_VALUE => Some(one(words.clear_depth)),
        enums::STENCIL_CLEAR_VALUE => Some(one(words.clear_stencil)),
        enums::COLOR_WRITEMASK => Some(ArrayVec::from(words.color_mask)),
        enums::DEPTH_WRITEMASK => Some(one(words.depth_mask)),
        _ => None,
    }
}

/// Rectangles, faces, depths, lines and coverage.
fn shape_state(words: &RasterWords, pname: u32) -> Option<ArrayVec<u32, 4>>
    ensures { option_map (λ words. words.items) result ≡ plain.shape_state words.now pname }
{
    match GlEnum(pname) {
        enums::VIEWPORT => Some(ArrayVec::from(words.viewport)),
        enums::SCISSOR_BOX => Some(ArrayVec::from(words.scissor)),
        enums::CULL_FACE_MODE => Some(one(words.cull_face_mode)),
        enums::FRONT_FACE => Some(one(words.front_face)),
        enums::DEPTH_FUNC => Some(one(words.depth_function)),
        enums::DEPTH_RANGE => Some(two(words.depth_range)),
        enums::GENERATE_MIPMAP_HINT => Some(one(words.mipmap_hint)),
        enums::LINE_WIDTH => Some(one(words.line_width)),
        enums::POLYGON_OFFSET_FACTOR => Some(one(words.polygon_offset[0])),
        enums::POLYGON_OFFSET_UNITS => Some(one(words.polygon_offset[1])),
        enums::SAMPLE_COVERAGE_VALUE => Some(one(words.sample_coverage[0])),
        enums::SAMPLE_COVERAGE_INVERT => Some(one(words.sample_coverage[1])),
        _ => None,
    }
}

/// The alignments of rows of pixels.
fn alignment_state(alignments: &Alignments, pname: u32) -> Option<ArrayVec<u32, 4>>
    ensures { option_map (λ words. words.items) result ≡ plain.alignment_state alignments.now pname }
{
    match GlEnum(pname) {
        enums::UNPACK_ALIGNMENT => Some(one(alignments.unpack)),
        enums::PACK_ALIGNMENT => Some(one(alignments.pack)),
        _ => None,
    }
}

/// The words of a state of this name, or None where it is none of the fixed state. No name is that of two.
pub fn raster_state(
    words: &RasterWords,
    alignments: &Alignments,
    pname: u32,
) -> Option<ArrayVec<u32, 4>>
    ensures { option_map (λ words. words.items) result ≡ plain.raster_state words.now alignments.now pname }
{
    capability_state(&words.capabilities, pname)
        .or_else(|| front_state(&words.stencil_front, pname))
        .or_else(|| back_state(&words.stencil_back, pname))
        .or_else(|| blend_state(words, pname))
        .or_else(|| write_state(words, pname))
        .or_else(|| shape_state(words, pname))
        .or_else(|| alignment_state(alignments, pname))
}
