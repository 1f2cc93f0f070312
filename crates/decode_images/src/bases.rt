//! The images that GenerateMipmap reads: level 0 of each face (OpenGL ES 2.0.25, section 3.7.11).
ghost use Rattle.std.specs.Prelude.{◌≡◌};
ghost use Rattle.gl_plain.specs.subjects.Completeness as faces;
ghost use Rattle.gl_plain.specs.subjects.Levels.{is_cube_target};
ghost use Rattle.gl_plain.specs.subjects.Mipmaps.{base_places};
ghost use Rattle.gl_plain.specs.subjects.Textures.{IsOfKind, bound_texture};
ghost use Rattle.gl_driver.specs.Performed.{MayMake};
ghost use Rattle.texture_mgr.specs.Tables.{tables};
ghost use Rattle.whole_images.specs.Whole.{zeroings_of, MakesWhole};

use gl_base::GlEnum;
use gl_base::texture_enums::{TEXTURE_2D, TEXTURE_CUBE_MAP_POSITIVE_X};
use gl_driver::{Driver, DriverStop};
use gl_plain::is_cube_target;
use texture_mgr::Textures;
use whole_images::zero_faces;

/// The first face of a texture.
fn first_face(cube: bool) -> GlEnum
    ensures { result ≡ faces.first_face cube }
{
    if cube {
        TEXTURE_CUBE_MAP_POSITIVE_X
    } else {
        TEXTURE_2D
    }
}

/// Makes level 0 of each face of what the target binds whole, faces rising.
pub fn make_bases_whole<D: Driver>(
    textures: &mut Textures,
    target: GlEnum,
    driver: &mut D,
) -> Result<(), DriverStop>
    requires bound { IsOfKind (is_cube_target target) (bound_texture (tables textures.old).objects (is_cube_target target)) }
    requires may { MayMake (D.history driver.old).state (zeroings_of textures.old (base_places (tables textures.old).objects target)) }
    ensures { MakesWhole D.history D.grown driver.old driver.new textures.old textures.new (base_places (tables textures.old).objects target) result }
{
    let cube = is_cube_target(target);
    let place = textures.place_bound(first_face(cube), 0);
    zero_faces(textures, place.texture, cube, 1, driver)
}
