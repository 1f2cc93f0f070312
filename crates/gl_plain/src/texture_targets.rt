//! The targets of textures and of their images (OpenGL ES 2.0.25, sections 3.7.1 and 3.7.13).
ghost use Rattle.std.specs.Prelude.{◌≡◌, ◌≤◌, true};
ghost use Rattle.gl_base.specs.declared.limits.TheConstants.{LAST_LEVEL};
ghost use Rattle.gl_plain.specs.subjects.Levels as levels;

use gl_base::GlEnum;
use gl_base::limits::LAST_LEVEL;
use gl_base::texture_enums::{
    TEXTURE_2D, TEXTURE_CUBE_MAP, TEXTURE_CUBE_MAP_NEGATIVE_Z, TEXTURE_CUBE_MAP_POSITIVE_X,
};

/// Whether the enum is TEXTURE_2D or TEXTURE_CUBE_MAP (section 3.7.13).
pub fn is_texture_target(target: GlEnum) -> bool
    ensures { result ≡ levels.is_texture_target target }
{
    target == TEXTURE_2D || is_cube_target(target)
}

/// Whether the target is that of cube maps.
pub fn is_cube_target(target: GlEnum) -> bool
    ensures { result ≡ levels.is_cube_target target }
{
    target == TEXTURE_CUBE_MAP
}

/// Whether the enum is one of the six faces of a cube map (section 3.7.1).
pub fn is_cube_face(face: GlEnum) -> bool
    ensures { result ≡ levels.is_cube_face face }
{
    TEXTURE_CUBE_MAP_POSITIVE_X.0 <= face.0 && face.0 <= TEXTURE_CUBE_MAP_NEGATIVE_Z.0
}

/// Whether the enum is the target of an image: TEXTURE_2D or a face (section 3.7.1).
pub fn is_image_target(face: GlEnum) -> bool
    ensures { result ≡ levels.is_image_target face }
{
    face == TEXTURE_2D || is_cube_face(face)
}

/// Where the level of a face stands among all levels of its texture.
pub fn level_index(face: GlEnum, level: u32) -> usize
    requires face { levels.is_image_target face ≡ true }
    requires level { level ≤ LAST_LEVEL }
    ensures { result ≡ levels.level_index face level }
{
    let number = if face == TEXTURE_2D {
        0
    } else {
        face.0 - TEXTURE_CUBE_MAP_POSITIVE_X.0
    };
    (number * (LAST_LEVEL + 1) + level) as usize
}
