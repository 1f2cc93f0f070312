//! The constants of the fixed state of rasterization and of fragments, by their names (the header gl2.h of the standard).

use crate::gl_enum::GlEnum;

// Capabilities, which Enable and Disable take.

/// Faces may be culled (section 3.5.1).
pub const CULL_FACE: GlEnum = GlEnum(0x0B44);

/// Colours are blended (section 4.1.6).
pub const BLEND: GlEnum = GlEnum(0x0BE2);

/// Colours are dithered (section 4.1.7).
pub const DITHER: GlEnum = GlEnum(0x0BD0);

/// Fragments pass the stencil test (section 4.1.4).
pub const STENCIL_TEST: GlEnum = GlEnum(0x0B90);

/// Fragments pass the depth test (section 4.1.5).
pub const DEPTH_TEST: GlEnum = GlEnum(0x0B71);

/// Fragments pass the scissor test (section 4.1.2).
pub const SCISSOR_TEST: GlEnum = GlEnum(0x0C11);

/// The depth of polygons is offset (section 3.5.2).
pub const POLYGON_OFFSET_FILL: GlEnum = GlEnum(0x8037);

/// Alpha makes a coverage (section 4.1.3).
pub const SAMPLE_ALPHA_TO_COVERAGE: GlEnum = GlEnum(0x809E);

/// A coverage is set (section 4.1.3).
pub const SAMPLE_COVERAGE: GlEnum = GlEnum(0x80A0);

// Faces and windings.

/// Front faces (section 3.5.1).
pub const FRONT: GlEnum = GlEnum(0x0404);

/// Back faces (section 3.5.1).
pub const BACK: GlEnum = GlEnum(0x0405);

/// Both kinds of faces (section 3.5.1).
pub const FRONT_AND_BACK: GlEnum = GlEnum(0x0408);

/// Clockwise (section 3.5.1).
pub const CW: GlEnum = GlEnum(0x0900);

/// Counterclockwise (section 3.5.1).
pub const CCW: GlEnum = GlEnum(0x0901);

// Functions of the depth test and of the stencil test.

/// No value passes (section 4.1.4).
pub const NEVER: GlEnum = GlEnum(0x0200);

/// A lesser value passes (section 4.1.4).
pub const LESS: GlEnum = GlEnum(0x0201);

/// An equal value passes (section 4.1.4).
pub const EQUAL: GlEnum = GlEnum(0x0202);

/// A lesser or equal value passes (section 4.1.4).
pub const LEQUAL: GlEnum = GlEnum(0x0203);

/// A greater value passes (section 4.1.4).
pub const GREATER: GlEnum = GlEnum(0x0204);

/// Another value passes (section 4.1.4).
pub const NOTEQUAL: GlEnum = GlEnum(0x0205);

/// A greater or equal value passes (section 4.1.4).
pub const GEQUAL: GlEnum = GlEnum(0x0206);

/// Every value passes (section 4.1.4).
pub const ALWAYS: GlEnum = GlEnum(0x0207);

// Operations on the stencil buffer.

/// The value stays (section 4.1.4).
pub const KEEP: GlEnum = GlEnum(0x1E00);

/// The value becomes 0 (section 4.1.4); as a factor, nothing (section 4.1.6).
pub const ZERO: GlEnum = GlEnum(0);

/// The value becomes the reference (section 4.1.4).
pub const REPLACE: GlEnum = GlEnum(0x1E01);

/// The value becomes one more, up to the greatest (section 4.1.4).
pub const INCR: GlEnum = GlEnum(0x1E02);

/// The value becomes one less, down to 0 (section 4.1.4).
pub const DECR: GlEnum = GlEnum(0x1E03);

/// The bits are turned (section 4.1.4).
pub const INVERT: GlEnum = GlEnum(0x150A);

/// The value becomes one more, and 0 after the greatest (section 4.1.4).
pub const INCR_WRAP: GlEnum = GlEnum(0x8507);

/// The value becomes one less, and the greatest after 0 (section 4.1.4).
pub const DECR_WRAP: GlEnum = GlEnum(0x8508);

// Blending.

/// Source and destination are added (section 4.1.6).
pub const FUNC_ADD: GlEnum = GlEnum(0x8006);

/// The destination is subtracted from the source (section 4.1.6).
pub const FUNC_SUBTRACT: GlEnum = GlEnum(0x800A);

/// The source is subtracted from the destination (section 4.1.6).
pub const FUNC_REVERSE_SUBTRACT: GlEnum = GlEnum(0x800B);

/// The factor 1 (section 4.1.6).
pub const ONE_FACTOR: GlEnum = GlEnum(1);

/// The source's colour (section 4.1.6).
pub const SRC_COLOR: GlEnum = GlEnum(0x0300);

/// 1 less the source's colour (section 4.1.6).
pub const ONE_MINUS_SRC_COLOR: GlEnum = GlEnum(0x0301);

/// The source's alpha (section 4.1.6).
pub const SRC_ALPHA: GlEnum = GlEnum(0x0302);

/// 1 less the source's alpha (section 4.1.6).
pub const ONE_MINUS_SRC_ALPHA: GlEnum = GlEnum(0x0303);

/// The destination's alpha (section 4.1.6).
pub const DST_ALPHA: GlEnum = GlEnum(0x0304);

/// 1 less the destination's alpha (section 4.1.6).
pub const ONE_MINUS_DST_ALPHA: GlEnum = GlEnum(0x0305);

/// The destination's colour (section 4.1.6).
pub const DST_COLOR: GlEnum = GlEnum(0x0306);

/// 1 less the destination's colour (section 4.1.6).
pub const ONE_MINUS_DST_COLOR: GlEnum = GlEnum(0x0307);

/// The lesser of the source's alpha and 1 less the destination's (section 4.1.6).
pub const SRC_ALPHA_SATURATE: GlEnum = GlEnum(0x0308);

/// The constant colour (section 4.1.6).
pub const CONSTANT_COLOR: GlEnum = GlEnum(0x8001);

/// 1 less the constant colour (section 4.1.6).
pub const ONE_MINUS_CONSTANT_COLOR: GlEnum = GlEnum(0x8002);

/// The constant alpha (section 4.1.6).
pub const CONSTANT_ALPHA: GlEnum = GlEnum(0x8003);

/// 1 less the constant alpha (section 4.1.6).
pub const ONE_MINUS_CONSTANT_ALPHA: GlEnum = GlEnum(0x8004);

// Hints.

/// How mipmaps are made (section 5.2).
pub const GENERATE_MIPMAP_HINT: GlEnum = GlEnum(0x8192);

/// No preference (section 5.2).
pub const DONT_CARE: GlEnum = GlEnum(0x1100);

/// The fastest way (section 5.2).
pub const FASTEST: GlEnum = GlEnum(0x1101);

/// The best way (section 5.2).
pub const NICEST: GlEnum = GlEnum(0x1102);

// Alignments of rows of pixels in memory.

/// Of pixels that are given (section 3.6.1).
pub const UNPACK_ALIGNMENT: GlEnum = GlEnum(0x0CF5);

/// Of pixels that are read (section 4.3.1).
pub const PACK_ALIGNMENT: GlEnum = GlEnum(0x0D05);

// State that is asked for, with the section of the call that sets it.

/// The width of lines (section 3.4).
pub const LINE_WIDTH: GlEnum = GlEnum(0x0B21);

/// The faces that are culled (section 3.5.1).
pub const CULL_FACE_MODE: GlEnum = GlEnum(0x0B45);

/// The winding of front faces (section 3.5.1).
pub const FRONT_FACE: GlEnum = GlEnum(0x0B46);

/// The range of depths (section 2.12.1).
pub const DEPTH_RANGE: GlEnum = GlEnum(0x0B70);

/// Whether depths are written (section 4.2.2).
pub const DEPTH_WRITEMASK: GlEnum = GlEnum(0x0B72);

/// The depth that Clear writes (section 4.2.3).
pub const DEPTH_CLEAR_VALUE: GlEnum = GlEnum(0x0B73);

/// The function of the depth test (section 4.1.5).
pub const DEPTH_FUNC: GlEnum = GlEnum(0x0B74);

/// The value that Clear writes (section 4.2.3).
pub const STENCIL_CLEAR_VALUE: GlEnum = GlEnum(0x0B91);

/// The function of the front (section 4.1.4).
pub const STENCIL_FUNC: GlEnum = GlEnum(0x0B92);

/// The mask of what is compared, front (section 4.1.4).
pub const STENCIL_VALUE_MASK: GlEnum = GlEnum(0x0B93);

/// The operation where the stencil test fails, front (section 4.1.4).
pub const STENCIL_FAIL: GlEnum = GlEnum(0x0B94);

/// The operation where the depth test fails, front (section 4.1.4).
pub const STENCIL_PASS_DEPTH_FAIL: GlEnum = GlEnum(0x0B95);

/// The operation where both pass, front (section 4.1.4).
pub const STENCIL_PASS_DEPTH_PASS: GlEnum = GlEnum(0x0B96);

/// The reference, front (section 4.1.4).
pub const STENCIL_REF: GlEnum = GlEnum(0x0B97);

/// The mask of what is written, front (section 4.2.2).
pub const STENCIL_WRITEMASK: GlEnum = GlEnum(0x0B98);

/// The function of the back (section 4.1.4).
pub const STENCIL_BACK_FUNC: GlEnum = GlEnum(0x8800);

/// The operation where the stencil test fails, back (section 4.1.4).
pub const STENCIL_BACK_FAIL: GlEnum = GlEnum(0x8801);

/// The operation where the depth test fails, back (section 4.1.4).
pub const STENCIL_BACK_PASS_DEPTH_FAIL: GlEnum = GlEnum(0x8802);

/// The operation where both pass, back (section 4.1.4).
pub const STENCIL_BACK_PASS_DEPTH_PASS: GlEnum = GlEnum(0x8803);

/// The reference, back (section 4.1.4).
pub const STENCIL_BACK_REF: GlEnum = GlEnum(0x8CA3);

/// The mask of what is compared, back (section 4.1.4).
pub const STENCIL_BACK_VALUE_MASK: GlEnum = GlEnum(0x8CA4);

/// The mask of what is written, back (section 4.2.2).
pub const STENCIL_BACK_WRITEMASK: GlEnum = GlEnum(0x8CA5);

/// The viewport (section 2.12.1).
pub const VIEWPORT: GlEnum = GlEnum(0x0BA2);

/// The scissor rectangle (section 4.1.2).
pub const SCISSOR_BOX: GlEnum = GlEnum(0x0C10);

/// The colour that Clear writes (section 4.2.3).
pub const COLOR_CLEAR_VALUE: GlEnum = GlEnum(0x0C22);

/// Which parts of a colour are written (section 4.2.2).
pub const COLOR_WRITEMASK: GlEnum = GlEnum(0x0C23);

/// The units of the polygon offset (section 3.5.2).
pub const POLYGON_OFFSET_UNITS: GlEnum = GlEnum(0x2A00);

/// The factor of the polygon offset (section 3.5.2).
pub const POLYGON_OFFSET_FACTOR: GlEnum = GlEnum(0x8038);

/// The constant colour of blending (section 4.1.6).
pub const BLEND_COLOR: GlEnum = GlEnum(0x8005);

/// The equation of colours (section 4.1.6).
pub const BLEND_EQUATION_RGB: GlEnum = GlEnum(0x8009);

/// The equation of alphas (section 4.1.6).
pub const BLEND_EQUATION_ALPHA: GlEnum = GlEnum(0x883D);

/// The coverage that is set (section 4.1.3).
pub const SAMPLE_COVERAGE_VALUE: GlEnum = GlEnum(0x80AA);

/// Whether it is inverted (section 4.1.3).
pub const SAMPLE_COVERAGE_INVERT: GlEnum = GlEnum(0x80AB);

/// The destination's factor of colours (section 4.1.6).
pub const BLEND_DST_RGB: GlEnum = GlEnum(0x80C8);

/// The source's factor of colours (section 4.1.6).
pub const BLEND_SRC_RGB: GlEnum = GlEnum(0x80C9);

/// The destination's factor of alphas (section 4.1.6).
pub const BLEND_DST_ALPHA: GlEnum = GlEnum(0x80CA);

/// The source's factor of alphas (section 4.1.6).
pub const BLEND_SRC_ALPHA: GlEnum = GlEnum(0x80CB);
