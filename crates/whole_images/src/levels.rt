//! Images of textures, made whole.
ghost use Rattle.std.specs.Prelude.{◌≡◌, ◌+◌, [], ◌∷◌};
ghost use Rattle.gl_plain.specs.subjects.Levels.{face_count};
ghost use Rattle.gl_plain.specs.subjects.Completeness.{level_places, face_places, first_face};
ghost use Rattle.gl_driver.specs.Performed.{MayMake};
ghost use Rattle.whole_images.specs.Whole.{zeroings_of, MakesWhole};

use gl_base::GlEnum;
use gl_base::texture_enums::{
    TEXTURE_2D, TEXTURE_CUBE_MAP_NEGATIVE_Z, TEXTURE_CUBE_MAP_POSITIVE_X,
};
use gl_driver::{Driver, DriverStop, zero_rects};
use gl_plain::ImagePlace;
use texture_mgr::Textures;

/// Makes one image of a texture whole: what was never written of it is turned to zero. One that is whole costs a test, and no more. Where the
/// driver stops, its stop is the answer.
pub fn zero_level<D: Driver>(
    textures: &mut Textures,
    place: ImagePlace,
    driver: &mut D,
) -> Result<(), DriverStop>
    requires { MayMake (D.history driver.old).state (zeroings_of textures.old (place ∷ [])) }
    ensures { MakesWhole D.history D.grown driver.old driver.new textures.old textures.new (place ∷ []) result }
{
    if textures.is_whole(place) {
        return Ok(());
    }
    let rest = textures.unwritten(place);
    zero_rects(place, rest.as_slice(), driver)?;
    textures.mark_whole(place);
    Ok(())
}

/// Makes so many levels of a face whole, rising from level 0.
fn zero_levels<D: Driver>(
    textures: &mut Textures,
    number: u64,
    face: GlEnum,
    levels: u32,
    driver: &mut D,
) -> Result<(), DriverStop>
    requires { MayMake (D.history driver.old).state (zeroings_of textures.old (level_places number face 0 levels)) }
    ensures { MakesWhole D.history D.grown driver.old driver.new textures.old textures.new (level_places number face 0 levels) result }
{
    for level in 0..levels {
        let place = ImagePlace {
            texture: number,
            face,
            level,
        };
        zero_level(textures, place, driver)?;
    }
    Ok(())
}

/// The number of the first face of a texture, and that behind its last one: a cube map has six, and a flat texture one.
fn face_numbers(cube: bool) -> (u32, u32)
    ensures first { result.0 ≡ (first_face cube).0 }
    ensures end { result.1 ≡ (first_face cube).0 + face_count cube }
{
    if cube {
        return (
            TEXTURE_CUBE_MAP_POSITIVE_X.0,
            TEXTURE_CUBE_MAP_NEGATIVE_Z.0 + 1,
        );
    }
    (TEXTURE_2D.0, TEXTURE_2D.0 + 1)
}

/// Makes so many levels of each face of a texture whole, faces rising. Where the driver stops, its stop is the answer.
pub fn zero_faces<D: Driver>(
    textures: &mut Textures,
    number: u64,
    cube: bool,
    levels: u32,
    driver: &mut D,
) -> Result<(), DriverStop>
    requires { MayMake (D.history driver.old).state (zeroings_of textures.old (face_places number levels (first_face cube).0 (face_count cube))) }
    ensures { MakesWhole D.history D.grown driver.old driver.new textures.old textures.new (face_places number levels (first_face cube).0 (face_count cube)) result }
{
    let (first, end) = face_numbers(cube);
    for face in first..end {
        zero_levels(textures, number, GlEnum(face), levels, driver)?;
    }
    Ok(())
}
