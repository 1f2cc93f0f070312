//! Constants of OpenGL ES 2.0, by their names (the header gl2.h of the standard).

use crate::gl_enum::GlEnum;

/// The target of vertex data (section 2.9).
pub const ARRAY_BUFFER: GlEnum = GlEnum(0x8892);

/// The target of indices (section 2.9).
pub const ELEMENT_ARRAY_BUFFER: GlEnum = GlEnum(0x8893);

/// Data that is stored once and used a few times (section 2.9).
pub const STREAM_DRAW: GlEnum = GlEnum(0x88E0);

/// Data that is stored once and used often (section 2.9).
pub const STATIC_DRAW: GlEnum = GlEnum(0x88E4);

/// Data that is stored and used often (section 2.9).
pub const DYNAMIC_DRAW: GlEnum = GlEnum(0x88E8);

/// Signed numbers of 8 bits (section 2.8).
pub const BYTE: GlEnum = GlEnum(0x1400);

/// Unsigned numbers of 8 bits (section 2.8).
pub const UNSIGNED_BYTE: GlEnum = GlEnum(0x1401);

/// Signed numbers of 16 bits (section 2.8).
pub const SHORT: GlEnum = GlEnum(0x1402);

/// Unsigned numbers of 16 bits (section 2.8).
pub const UNSIGNED_SHORT: GlEnum = GlEnum(0x1403);

/// Floats of 32 bits (section 2.8).
pub const FLOAT: GlEnum = GlEnum(0x1406);

/// Signed numbers of 32 bits with 16 bits behind the point (section 2.8).
pub const FIXED: GlEnum = GlEnum(0x140C);

/// Signed numbers of 32 bits, as a uniform has them (section 2.10.4).
pub const INT: GlEnum = GlEnum(0x1404);

/// Two floats (section 2.10.4).
pub const FLOAT_VEC2: GlEnum = GlEnum(0x8B50);

/// Three floats (section 2.10.4).
pub const FLOAT_VEC3: GlEnum = GlEnum(0x8B51);

/// Four floats (section 2.10.4).
pub const FLOAT_VEC4: GlEnum = GlEnum(0x8B52);

/// Two signed numbers (section 2.10.4).
pub const INT_VEC2: GlEnum = GlEnum(0x8B53);

/// Three signed numbers (section 2.10.4).
pub const INT_VEC3: GlEnum = GlEnum(0x8B54);

/// Four signed numbers (section 2.10.4).
pub const INT_VEC4: GlEnum = GlEnum(0x8B55);

/// A boolean (section 2.10.4).
pub const BOOL: GlEnum = GlEnum(0x8B56);

/// Two booleans (section 2.10.4).
pub const BOOL_VEC2: GlEnum = GlEnum(0x8B57);

/// Three booleans (section 2.10.4).
pub const BOOL_VEC3: GlEnum = GlEnum(0x8B58);

/// Four booleans (section 2.10.4).
pub const BOOL_VEC4: GlEnum = GlEnum(0x8B59);

/// A matrix of two columns of two floats (section 2.10.4).
pub const FLOAT_MAT2: GlEnum = GlEnum(0x8B5A);

/// A matrix of three columns of three floats (section 2.10.4).
pub const FLOAT_MAT3: GlEnum = GlEnum(0x8B5B);

/// A matrix of four columns of four floats (section 2.10.4).
pub const FLOAT_MAT4: GlEnum = GlEnum(0x8B5C);

/// A sampler of two-dimensional textures (section 2.10.4).
pub const SAMPLER_2D: GlEnum = GlEnum(0x8B5E);

/// A sampler of cube map textures (section 2.10.4).
pub const SAMPLER_CUBE: GlEnum = GlEnum(0x8B60);

/// A shader of fragments (section 2.10.1).
pub const FRAGMENT_SHADER: GlEnum = GlEnum(0x8B30);

/// A shader of vertices (section 2.10.1).
pub const VERTEX_SHADER: GlEnum = GlEnum(0x8B31);

/// What GetError answers where no code is recorded (section 2.5).
pub const NO_ERROR: u32 = 0;

/// The code for an enum that is none of those allowed (section 2.5).
pub const INVALID_ENUM: u32 = 0x0500;

/// The code for a number out of range (section 2.5).
pub const INVALID_VALUE: u32 = 0x0501;

/// The code for a call that the state does not allow (section 2.5).
pub const INVALID_OPERATION: u32 = 0x0502;

/// The code for want of memory (section 2.5).
pub const OUT_OF_MEMORY: u32 = 0x0505;

/// The code for a framebuffer that is not complete (section 4.4.5).
pub const INVALID_FRAMEBUFFER_OPERATION: u32 = 0x0506;

/// The float 1, by its pattern of bits (IEEE 754, binary32).
pub const ONE: u32 = 0x3F80_0000;

/// The float -0, by its pattern of bits (IEEE 754, binary32).
pub const NEGATIVE_ZERO: u32 = 0x8000_0000;

/// The float infinity, by its pattern of bits; the patterns above it are those that are not numbers, and those of negative floats (IEEE 754,
/// binary32).
pub const INFINITY: u32 = 0x7F80_0000;

/// Triangles of which each shares the first vertex, and one with the one before (section 2.6.1). It is the last of the modes, which begin with
/// POINTS, 0.
pub const TRIANGLE_FAN: GlEnum = GlEnum(6);

/// The status of a framebuffer that can be drawn to (section 4.4.5).
pub const FRAMEBUFFER_COMPLETE: u32 = 0x8CD5;

/// The bit of Clear for depths (section 4.2.3).
pub const DEPTH_BUFFER_BIT: u32 = 0x0100;

/// The bit of Clear for stencil values (section 4.2.3).
pub const STENCIL_BUFFER_BIT: u32 = 0x0400;

/// The bit of Clear for colours (section 4.2.3).
pub const COLOR_BUFFER_BIT: u32 = 0x4000;

/// All bits that Clear takes (section 4.2.3).
pub const CLEAR_BITS: u32 = 0x4500;
