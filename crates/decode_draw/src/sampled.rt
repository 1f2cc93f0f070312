//! The images that a draw samples: what was never written of them is turned to zero before (OpenGL ES 2.0.25, section 3.7.1, leaves it
//! undefined, and no command may show what lay in memory).
ghost use Rattle.gl_plain.specs.subjects.Draws.{unit_places, places_from};
ghost use Rattle.gl_driver.specs.Performed.{MayMake};
ghost use Rattle.texture_mgr.specs.Tables.{tables};
ghost use Rattle.target_mgr.specs.Tables.{renderbuffers};
ghost use Rattle.decode_draw.specs.Judged.{sampled_first, drawn_first};
ghost use Rattle.whole_images.specs.Whole.{zeroings_of, image_zeroings, MakesWhole, MakesImagesWhole, AreThere};
ghost use Rattle.decode_draw.specs.Bound.{AreBound};

use crate::judged::Judged;
use gl_driver::{Driver, DriverStop};
use gl_plain::UnitView;
use target_mgr::Targets;
use texture_mgr::Textures;
use whole_images::{zero_faces, zero_target};

/// Makes what a unit samples whole: the levels of a complete texture that are used, faces rising. A texture that is not complete reads as
/// black, and none of its images is read (section 3.8.2).
fn zero_unit<D: Driver>(
    textures: &mut Textures,
    unit: u32,
    view: UnitView,
    driver: &mut D,
) -> Result<(), DriverStop>
    requires bound { AreBound (tables textures.old).objects }
    requires may { MayMake (D.history driver.old).state (zeroings_of textures.old (unit_places (tables textures.old).objects unit view)) }
    ensures { MakesWhole D.history D.grown driver.old driver.new textures.old textures.new (unit_places (tables textures.old).objects unit view) result }
{
    if !view.complete {
        return Ok(());
    }
    let cube = view.samples_cube();
    let number = textures.sampled_number(unit, view);
    let levels = textures.sampled_levels(number, cube);
    zero_faces(textures, number, cube, levels, driver)
}

/// Makes what all units sample whole, units rising.
fn zero_units<D: Driver>(
    textures: &mut Textures,
    units: &[UnitView; 8],
    driver: &mut D,
) -> Result<(), DriverStop>
    requires bound { AreBound (tables textures.old).objects }
    requires may { MayMake (D.history driver.old).state (zeroings_of textures.old (places_from (tables textures.old).objects 0 units.now)) }
    ensures { MakesWhole D.history D.grown driver.old driver.new textures.old textures.new (places_from (tables textures.old).objects 0 units.now) result }
{
    for (unit, view) in units.iter().enumerate() {
        zero_unit(textures, unit as u32, *view, driver)?;
    }
    Ok(())
}

/// Makes what a draw samples whole. What draws nothing reads no image.
fn zero_sampled<D: Driver>(
    textures: &mut Textures,
    judged: &Judged,
    driver: &mut D,
) -> Result<(), DriverStop>
    requires bound { AreBound (tables textures.old).objects }
    requires may { MayMake (D.history driver.old).state (zeroings_of textures.old (sampled_first (tables textures.old).objects judged.now)) }
    ensures { MakesWhole D.history D.grown driver.old driver.new textures.old textures.new (sampled_first (tables textures.old).objects judged.now) result }
{
    if !judged.plan.draw {
        return Ok(());
    }
    zero_units(textures, &judged.units, driver)
}

/// Makes all images whole that a command samples or draws to, before it is drawn.
pub fn zero_drawn<D: Driver>(
    textures: &mut Textures,
    targets: &mut Targets,
    judged: &Judged,
    driver: &mut D,
) -> Result<(), DriverStop>
    requires bound { AreBound (tables textures.old).objects }
    requires there { AreThere (renderbuffers targets.old).objects judged.now.target }
    requires may { MayMake (D.history driver.old).state (image_zeroings textures.old targets.old (drawn_first (tables textures.old).objects judged.now)) }
    ensures { MakesImagesWhole D.history D.grown driver.old driver.new textures.old textures.new targets.old targets.new (drawn_first (tables textures.old).objects judged.now) result }
{
    zero_sampled(textures, judged, driver)?;
    zero_target(textures, targets, judged.target, driver)
}
