//! A part of an image that is written (OpenGL ES 2.0.25, section 3.7.2), and what was not written of its image before.
ghost use Rattle.std.specs.Prelude.{◌≡◌, OnOk};
ghost use Rattle.gl_plain.specs.Covers.{all_filled};
ghost use Rattle.gl_plain.specs.image.Covers.{part_first};
ghost use Rattle.gl_plain.specs.subjects.Images.{extended, with_cover};
ghost use Rattle.gl_plain.specs.subjects.Textures.{level_at};
ghost use Rattle.gl_driver.specs.Performed.{MayMake, MakesAll};
ghost use Rattle.texture_mgr.specs.Covered.{IsInLevel};
ghost use Rattle.texture_mgr.specs.Tables.{tables, covers};
ghost use Rattle.decode_images.specs.Whole.{level_zeroings};

use gl_base::Rect;
use gl_driver::{Driver, DriverStop};
use gl_plain::ImagePlace;
use texture_mgr::Textures;
use whole_images::zero_level;

/// Enters a rectangle that is written to an image. Where it is no rectangle together with what was written before, the rest of the image is
/// turned to zero first.
pub fn write_part<D: Driver>(
    textures: &mut Textures,
    place: ImagePlace,
    rect: Rect,
    driver: &mut D,
) -> Result<(), DriverStop>
    requires inside { IsInLevel (level_at (tables textures.old).objects place) rect }
    requires may { MayMake (D.history driver.old).state (level_zeroings textures.old (part_first (covers textures.old) place rect)) }
    ensures calls { MakesAll D.history D.grown driver.old driver.new (level_zeroings textures.old (part_first (covers textures.old) place rect)) result }
    ensures tables { OnOk result (tables textures.new ≡ tables textures.old) }
    ensures covers { OnOk result (covers textures.new ≡ with_cover (all_filled (tables textures.old).objects (covers textures.old) (part_first (covers textures.old) place rect)) place (extended (all_filled (tables textures.old).objects (covers textures.old) (part_first (covers textures.old) place rect) place) rect)) }
{
    if textures.extend(place, rect) {
        return Ok(());
    }
    zero_level(textures, place, driver)?;
    textures.extend(place, rect);
    Ok(())
}
