//! The constants of textures and their images, by their names (the header gl2.h of the standard).

use crate::gl_enum::GlEnum;

// Targets.

/// The target of flat textures, and of their images (section 3.7).
pub const TEXTURE_2D: GlEnum = GlEnum(0x0DE1);

/// The target of cube maps (section 3.7).
pub const TEXTURE_CUBE_MAP: GlEnum = GlEnum(0x8513);

/// The first of the six faces of a cube map, whose numbers follow one another (section 3.7.1).
pub const TEXTURE_CUBE_MAP_POSITIVE_X: GlEnum = GlEnum(0x8515);

/// A face of a cube map (section 3.7.1).
pub const TEXTURE_CUBE_MAP_NEGATIVE_X: GlEnum = GlEnum(0x8516);

/// A face of a cube map (section 3.7.1).
pub const TEXTURE_CUBE_MAP_POSITIVE_Y: GlEnum = GlEnum(0x8517);

/// A face of a cube map (section 3.7.1).
pub const TEXTURE_CUBE_MAP_NEGATIVE_Y: GlEnum = GlEnum(0x8518);

/// A face of a cube map (section 3.7.1).
pub const TEXTURE_CUBE_MAP_POSITIVE_Z: GlEnum = GlEnum(0x8519);

/// The last of the six faces of a cube map (section 3.7.1).
pub const TEXTURE_CUBE_MAP_NEGATIVE_Z: GlEnum = GlEnum(0x851A);

/// The first texture unit, whose number the others follow (section 3.7).
pub const TEXTURE0: GlEnum = GlEnum(0x84C0);

/// The last texture unit (section 3.7).
pub const TEXTURE7: GlEnum = GlEnum(0x84C7);

// Formats of pixels.

/// Alpha alone (section 3.6.2).
pub const ALPHA: GlEnum = GlEnum(0x1906);

/// Red, green and blue (section 3.6.2).
pub const RGB: GlEnum = GlEnum(0x1907);

/// Red, green, blue and alpha (section 3.6.2).
pub const RGBA: GlEnum = GlEnum(0x1908);

/// One brightness (section 3.6.2).
pub const LUMINANCE: GlEnum = GlEnum(0x1909);

/// A brightness and alpha (section 3.6.2).
pub const LUMINANCE_ALPHA: GlEnum = GlEnum(0x190A);

// Types of pixels. UNSIGNED_BYTE is one too.

/// Four parts of 4 bits (section 3.6.2).
pub const UNSIGNED_SHORT_4_4_4_4: GlEnum = GlEnum(0x8033);

/// Three parts of 5 bits, and one bit (section 3.6.2).
pub const UNSIGNED_SHORT_5_5_5_1: GlEnum = GlEnum(0x8034);

/// Parts of 5, 6 and 5 bits (section 3.6.2).
pub const UNSIGNED_SHORT_5_6_5: GlEnum = GlEnum(0x8363);

// Parameters and their values.

/// How a texture is sampled that is enlarged (section 3.7.8).
pub const TEXTURE_MAG_FILTER: GlEnum = GlEnum(0x2800);

/// How a texture is sampled that is reduced (section 3.7.7).
pub const TEXTURE_MIN_FILTER: GlEnum = GlEnum(0x2801);

/// How the first coordinate wraps (section 3.7.6).
pub const TEXTURE_WRAP_S: GlEnum = GlEnum(0x2802);

/// How the second coordinate wraps (section 3.7.6).
pub const TEXTURE_WRAP_T: GlEnum = GlEnum(0x2803);

/// The nearest pixel (section 3.7.7).
pub const NEAREST: GlEnum = GlEnum(0x2600);

/// A mean of pixels (section 3.7.7).
pub const LINEAR: GlEnum = GlEnum(0x2601);

/// The nearest pixel of the nearest level (section 3.7.7).
pub const NEAREST_MIPMAP_NEAREST: GlEnum = GlEnum(0x2700);

/// A mean of pixels of the nearest level (section 3.7.7).
pub const LINEAR_MIPMAP_NEAREST: GlEnum = GlEnum(0x2701);

/// The nearest pixels of two levels (section 3.7.7).
pub const NEAREST_MIPMAP_LINEAR: GlEnum = GlEnum(0x2702);

/// Means of pixels of two levels (section 3.7.7).
pub const LINEAR_MIPMAP_LINEAR: GlEnum = GlEnum(0x2703);

/// Coordinates repeat (section 3.7.6).
pub const REPEAT: GlEnum = GlEnum(0x2901);

/// Coordinates stop at the edge (section 3.7.6).
pub const CLAMP_TO_EDGE: GlEnum = GlEnum(0x812F);

/// Coordinates repeat, every other time backwards (section 3.7.6).
pub const MIRRORED_REPEAT: GlEnum = GlEnum(0x8370);
