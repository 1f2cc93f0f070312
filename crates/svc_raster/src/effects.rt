//! What a command puts in place of the words that it sets.
ghost use Rattle.std.specs.Prelude.{◌≡◌, ◌<◌, length, slice_index};
ghost use Rattle.gl_plain.specs.subjects.Raster as plain;
ghost use Rattle.svc_raster.specs.Changed.{side_change};

use gl_base::{GlEnum, raster_enums as enums};
use gl_plain::numbers::{
    BLEND_COLOR, BLEND_EQUATION_SEPARATE, BLEND_FUNC_SEPARATE, CLEAR_COLOR, CLEAR_DEPTHF,
    CLEAR_STENCIL, COLOR_MASK, CULL_FACE, DEPTH_FUNC, DEPTH_MASK, DEPTH_RANGEF, DISABLE, ENABLE,
    FRONT_FACE, HINT, LINE_WIDTH, PIXEL_STOREI, POLYGON_OFFSET, SAMPLE_COVERAGE, SCISSOR,
    STENCIL_FUNC_SEPARATE, STENCIL_MASK_SEPARATE, STENCIL_OP_SEPARATE, VIEWPORT,
};
use gl_plain::{Alignments, Capabilities, RasterWords, StencilSide};

/// Enables a capability, with 1, or disables it, with 0.
fn set_capability(capabilities: &mut Capabilities, capability: u32, on: u32)
    ensures { capabilities.new ≡ plain.with_capability capabilities.old capability on }
{
    match GlEnum(capability) {
        enums::CULL_FACE => capabilities.cull_face = on,
        enums::BLEND => capabilities.blend = on,
        enums::DITHER => capabilities.dither = on,
        enums::STENCIL_TEST => capabilities.stencil_test = on,
        enums::DEPTH_TEST => capabilities.depth_test = on,
        enums::SCISSOR_TEST => capabilities.scissor_test = on,
        enums::POLYGON_OFFSET_FILL => capabilities.polygon_offset_fill = on,
        enums::SAMPLE_ALPHA_TO_COVERAGE => capabilities.sample_alpha_to_coverage = on,
        enums::SAMPLE_COVERAGE => capabilities.sample_coverage = on,
        _ => {}
    }
}

/// Sets the words of one side, which a command on the stencil test names (sections 4.1.4 and 4.2.2).
fn set_side(side: &mut StencilSide, number: u32, kept: &[u32])
    requires { length kept.now ≡ length (plain.rules_of number) }
    ensures { side.new ≡ side_change number kept.now side.old }
{
    match number {
        STENCIL_FUNC_SEPARATE => {
            side.function = kept[1];
            side.reference = kept[2];
            side.value_mask = kept[3];
        }
        STENCIL_MASK_SEPARATE => side.write_mask = kept[1],
        STENCIL_OP_SEPARATE => {
            side.fail = kept[1];
            side.depth_fail = kept[2];
            side.depth_pass = kept[3];
        }
        _ => {}
    }
}

/// Sets the words of the sides that the first word names.
fn set_sides(words: &mut RasterWords, number: u32, kept: &[u32])
    requires whole { length kept.now ≡ length (plain.rules_of number) }
    requires some { 0 < length kept.now }
    ensures { words.new ≡ plain.with_sides words.old (slice_index kept.now 0) (side_change number kept.now) }
{
    let face = kept[0];
    if face != enums::BACK.0 {
        set_side(&mut words.stencil_front, number, kept);
    }
    if face != enums::FRONT.0 {
        set_side(&mut words.stencil_back, number, kept);
    }
}

/// Sets the words of a command on the fixed state. PixelStorei sets none of these.
pub fn set_words(words: &mut RasterWords, number: u32, kept: &[u32])
    requires { length kept.now ≡ length (plain.rules_of number) }
    ensures { words.new ≡ plain.raster_effect words.old number kept.now }
{
    match number {
        ENABLE => set_capability(&mut words.capabilities, kept[0], 1),
        DISABLE => set_capability(&mut words.capabilities, kept[0], 0),
        BLEND_COLOR => words.blend_color.copy_from_slice(kept),
        BLEND_EQUATION_SEPARATE => words.blend_equation.copy_from_slice(kept),
        BLEND_FUNC_SEPARATE => words.blend_factors.copy_from_slice(kept),
        CLEAR_COLOR => words.clear_color.copy_from_slice(kept),
        CLEAR_DEPTHF => words.clear_depth = kept[0],
        CLEAR_STENCIL => words.clear_stencil = kept[0],
        COLOR_MASK => words.color_mask.copy_from_slice(kept),
        CULL_FACE => words.cull_face_mode = kept[0],
        DEPTH_FUNC => words.depth_function = kept[0],
        DEPTH_MASK => words.depth_mask = kept[0],
        DEPTH_RANGEF => words.depth_range.copy_from_slice(kept),
        FRONT_FACE => words.front_face = kept[0],
        HINT => words.mipmap_hint = kept[1],
        LINE_WIDTH => words.line_width = kept[0],
        POLYGON_OFFSET => words.polygon_offset.copy_from_slice(kept),
        SAMPLE_COVERAGE => words.sample_coverage.copy_from_slice(kept),
        SCISSOR => words.scissor.copy_from_slice(kept),
        STENCIL_FUNC_SEPARATE => set_sides(words, number, kept),
        STENCIL_MASK_SEPARATE => set_sides(words, number, kept),
        STENCIL_OP_SEPARATE => set_sides(words, number, kept),
        VIEWPORT => words.viewport.copy_from_slice(kept),
        _ => {}
    }
}

/// Sets an alignment, which PixelStorei alone does (sections 3.6.1 and 4.3.1).
pub fn set_alignment(alignments: &mut Alignments, number: u32, kept: &[u32])
    requires { length kept.now ≡ length (plain.rules_of number) }
    ensures { alignments.new ≡ plain.alignment_effect alignments.old number kept.now }
{
    if number != PIXEL_STOREI {
        return;
    }
    if kept[0] == enums::UNPACK_ALIGNMENT.0 {
        alignments.unpack = kept[1];
    } else {
        alignments.pack = kept[1];
    }
}
