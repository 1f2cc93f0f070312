//! Formats and types of pixels (OpenGL ES 2.0.25, section 3.6.2), and signed words as sides.
ghost use Rattle.std.specs.Prelude.{◌≡◌};
ghost use Rattle.gl_plain.specs.Words as words;
ghost use Rattle.gl_plain.specs.subjects.Images as images;

use gl_base::GlEnum;
use gl_base::enums::UNSIGNED_BYTE;
use gl_base::texture_enums::{
    ALPHA, LUMINANCE, LUMINANCE_ALPHA, RGB, RGBA, UNSIGNED_SHORT_4_4_4_4, UNSIGNED_SHORT_5_5_5_1,
    UNSIGNED_SHORT_5_6_5,
};

/// Whether the enum is one of the five formats of pixels.
pub fn is_format(format: GlEnum) -> bool
    ensures { result ≡ images.is_format format }
{
    format == ALPHA
        || format == RGB
        || format == RGBA
        || format == LUMINANCE
        || format == LUMINANCE_ALPHA
}

/// Whether the enum is one of the four types of pixels.
pub fn is_pixel_kind(kind: GlEnum) -> bool
    ensures { result ≡ images.is_pixel_kind kind }
{
    kind == UNSIGNED_BYTE
        || kind == UNSIGNED_SHORT_4_4_4_4
        || kind == UNSIGNED_SHORT_5_5_5_1
        || kind == UNSIGNED_SHORT_5_6_5
}

/// A number, or 0 for a negative one.
pub fn natural(n: i32) -> u32
    ensures { result ≡ words.natural n }
{
    u32::try_from(n).unwrap_or(0)
}
