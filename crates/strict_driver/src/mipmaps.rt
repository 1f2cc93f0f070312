//! The halves of a texture's images (OpenGL ES 2.0.25, section 3.7.11).
ghost use Rattle.std.specs.Prelude.{◌≡◌, ◌<◌, ◌≤◌, ◌+◌, ℕ, true};
ghost use Rattle.gl_base.specs.declared.limits.TheConstants.{LAST_LEVEL};
ghost use Rattle.gl_plain.specs.subjects.Completeness as complete;
ghost use Rattle.gl_plain.specs.subjects.Levels as levels;
ghost use Rattle.gl_plain.specs.subjects.Mipmaps.{halves_of, with_all_halves, with_halves};

use gl_base::GlEnum;
use gl_base::limits::LAST_LEVEL;
use gl_base::texture_enums::{TEXTURE_2D, TEXTURE_CUBE_MAP_POSITIVE_X};
use gl_plain::{LevelView, Texture};

/// Level 0 of the first face, if it is there.
fn base_level(texture: &Texture) -> Option<LevelView>
    ensures { result ≡ complete.base_level texture.now }
{
    match texture.levels.get(0) {
        Some(level) => *level,
        None => None,
    }
}

/// The first face of a texture.
fn first_face(cube: bool) -> GlEnum
    ensures value { result ≡ complete.first_face cube }
    ensures small { result.0 ≤ 65535 }
{
    if cube {
        TEXTURE_CUBE_MAP_POSITIVE_X
    } else {
        TEXTURE_2D
    }
}

/// How many faces a texture has.
fn face_count(cube: bool) -> u32
    ensures value { result ≡ levels.face_count cube }
    ensures small { result ≤ 6 }
{
    if cube { 6 } else { 1 }
}

/// Gives a face the halves of an image, from level 1 on, down to one pixel.
fn put_halves(texture: &mut Texture, face: GlEnum, base: LevelView)
    requires { levels.is_image_target face ≡ true }
    ensures { texture.new ≡ with_halves texture.old face base 1 LAST_LEVEL }
{
    let mut view = base;
    for level in 1..LAST_LEVEL + 1 {
        if view.is_last() {
            return;
        }
        view = view.halved();
        texture.set_level(face, level, view);
    }
}

/// Gives each face the halves of an image.
fn put_on_faces(texture: &mut Texture, base: LevelView, first: u32, count: u32)
    requires faces { (k : ℕ) → k < count → levels.is_image_target (record { 0 = first + k }) ≡ true }
    requires small { first + count ≤ 65541 }
    ensures { texture.new ≡ with_all_halves texture.old base first count }
{
    for index in 0..count {
        put_halves(texture, GlEnum(first + index), base);
    }
}

/// Gives each face of a texture the halves of level 0 of the first one, if that is there.
pub fn put_all_halves(texture: &mut Texture)
    ensures { texture.new ≡ halves_of texture.old (complete.base_level texture.old) }
{
    let Some(base) = base_level(texture) else {
        return;
    };
    let cube = texture.cube;
    put_on_faces(texture, base, first_face(cube).0, face_count(cube));
}
