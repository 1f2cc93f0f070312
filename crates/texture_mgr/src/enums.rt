//! The enums of textures: faces, and parameters with their values (OpenGL ES 2.0.25, sections 3.7.1 and 3.7.4).
ghost use Rattle.std.specs.Prelude.{◌≡◌};
ghost use Rattle.gl_plain.specs.subjects.Levels as levels;
ghost use Rattle.gl_plain.specs.subjects.Textures as plain;

use gl_base::GlEnum;
use gl_base::texture_enums::{
    CLAMP_TO_EDGE, LINEAR, LINEAR_MIPMAP_LINEAR, LINEAR_MIPMAP_NEAREST, MIRRORED_REPEAT, NEAREST,
    NEAREST_MIPMAP_LINEAR, NEAREST_MIPMAP_NEAREST, REPEAT, TEXTURE_2D, TEXTURE_MAG_FILTER,
    TEXTURE_MIN_FILTER, TEXTURE_WRAP_S, TEXTURE_WRAP_T,
};
use gl_plain::is_cube_face;

/// Whether the face is one of such a texture.
pub fn suits(cube: bool, face: GlEnum) -> bool
    ensures { result ≡ levels.suits cube face }
{
    if cube {
        is_cube_face(face)
    } else {
        face == TEXTURE_2D
    }
}

/// Whether the value is NEAREST or LINEAR.
fn is_filter(value: GlEnum) -> bool
    ensures { result ≡ plain.is_filter value }
{
    value == NEAREST || value == LINEAR
}

/// Whether the value is one of the four filters of levels (section 3.7.7).
fn is_mipmap_filter(value: GlEnum) -> bool
    ensures { result ≡ plain.is_mipmap_filter value }
{
    value == NEAREST_MIPMAP_NEAREST
        || value == LINEAR_MIPMAP_NEAREST
        || value == NEAREST_MIPMAP_LINEAR
        || value == LINEAR_MIPMAP_LINEAR
}

/// Whether the value says how a coordinate wraps (section 3.7.6).
fn is_wrap(value: GlEnum) -> bool
    ensures { result ≡ plain.is_wrap value }
{
    value == REPEAT || value == CLAMP_TO_EDGE || value == MIRRORED_REPEAT
}

/// Whether the enum is a parameter of textures that takes this value (section 3.7.4, table 3.9).
pub fn is_parameter(pname: GlEnum, value: GlEnum) -> bool
    ensures { result ≡ plain.is_parameter pname value }
{
    match pname {
        TEXTURE_MIN_FILTER => is_filter(value) || is_mipmap_filter(value),
        TEXTURE_MAG_FILTER => is_filter(value),
        TEXTURE_WRAP_S | TEXTURE_WRAP_T => is_wrap(value),
        _ => false,
    }
}
