//! The images of a framebuffer, made whole: those that are drawn to, and that which colours are read from.
ghost use Rattle.std.specs.Prelude.{◌≡◌, [], ◌∷◌, Some};
ghost use Rattle.gl_plain.specs.declared.targets.AnyImage.TheVariants as image;
ghost use Rattle.gl_plain.specs.subjects.Targets as d;
ghost use Rattle.gl_driver.specs.Performed.{MayMake};
ghost use Rattle.target_mgr.specs.Tables.{renderbuffers};
ghost use Rattle.whole_images.specs.Whole.{image_zeroings, MakesImagesWhole, IsThere, AreThere, IsColourThere};

use crate::levels::zero_level;
use gl_driver::{Driver, DriverStop};
use gl_plain::{AnyImage, Target};
use target_mgr::Targets;
use texture_mgr::Textures;

/// Makes the image of a renderbuffer whole.
fn zero_storage<D: Driver>(
    textures: &Textures,
    targets: &mut Targets,
    number: u64,
    driver: &mut D,
) -> Result<(), DriverStop>
    requires there { IsThere (renderbuffers targets.old).objects (Some (image.Renderbuffer number)) }
    requires may { MayMake (D.history driver.old).state (image_zeroings textures.now targets.old (image.Renderbuffer number ∷ [])) }
    ensures { MakesImagesWhole D.history D.grown driver.old driver.new textures.now textures.now targets.old targets.new (image.Renderbuffer number ∷ []) result }
{
    if targets.is_written(number) {
        return Ok(());
    }
    driver.zero_renderbuffer(number)?;
    targets.mark_written(number);
    Ok(())
}

/// Makes an image whole, if there is one.
fn zero_image<D: Driver>(
    textures: &mut Textures,
    targets: &mut Targets,
    image: Option<AnyImage>,
    driver: &mut D,
) -> Result<(), DriverStop>
    requires there { IsThere (renderbuffers targets.old).objects image }
    requires may { MayMake (D.history driver.old).state (image_zeroings textures.old targets.old (d.image_list image)) }
    ensures { MakesImagesWhole D.history D.grown driver.old driver.new textures.old textures.new targets.old targets.new (d.image_list image) result }
{
    match image {
        None => Ok(()),
        Some(AnyImage::Level(place)) => zero_level(textures, place, driver),
        Some(AnyImage::Renderbuffer(number)) => zero_storage(textures, targets, number, driver),
    }
}

/// Makes the images that are drawn to whole: colour, depth, stencil. The default framebuffer is. Where the driver stops, its stop is the answer.
pub fn zero_target<D: Driver>(
    textures: &mut Textures,
    targets: &mut Targets,
    target: Target,
    driver: &mut D,
) -> Result<(), DriverStop>
    requires there { AreThere (renderbuffers targets.old).objects target }
    requires may { MayMake (D.history driver.old).state (image_zeroings textures.old targets.old (d.target_images target)) }
    ensures { MakesImagesWhole D.history D.grown driver.old driver.new textures.old textures.new targets.old targets.new (d.target_images target) result }
{
    match target {
        Target::Default => Ok(()),
        Target::Bound {
            colour,
            depth,
            stencil,
        } => {
            zero_image(textures, targets, colour, driver)?;
            zero_image(textures, targets, depth, driver)?;
            zero_image(textures, targets, stencil, driver)
        }
    }
}

/// Makes the image that colours are read from whole. The default framebuffer is. Where the driver stops, its stop is the answer.
pub fn zero_colour<D: Driver>(
    textures: &mut Textures,
    targets: &mut Targets,
    target: Target,
    driver: &mut D,
) -> Result<(), DriverStop>
    requires there { IsColourThere (renderbuffers targets.old).objects target }
    requires may { MayMake (D.history driver.old).state (image_zeroings textures.old targets.old (d.colour_images target)) }
    ensures { MakesImagesWhole D.history D.grown driver.old driver.new textures.old textures.new targets.old targets.new (d.colour_images target) result }
{
    match target {
        Target::Default => Ok(()),
        Target::Bound { colour, .. } => zero_image(textures, targets, colour, driver),
    }
}
