//! Places that were never written.
ghost use Rattle.gl_plain.specs.Covers.{zero_calls};
ghost use Rattle.gl_driver.specs.Performed.{MayMake, MakesAll};

use crate::driver::Driver;
use crate::stop::DriverStop;
use gl_base::Rect;
use gl_plain::ImagePlace;

/// Turns these rectangles of an image to zero, in order.
pub fn zero_rects<D: Driver>(
    place: ImagePlace,
    rects: &[Rect],
    driver: &mut D,
) -> Result<(), DriverStop>
    requires { MayMake (D.history driver.old).state (zero_calls place rects.now) }
    ensures { MakesAll D.history D.grown driver.old driver.new (zero_calls place rects.now) result }
{
    for rect in rects {
        driver.zero_level(
            place.texture,
            place.face,
            place.level,
            rect.x,
            rect.y,
            rect.width,
            rect.height,
        )?;
    }
    Ok(())
}
