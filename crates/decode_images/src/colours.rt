//! What copies read: whether its colours suit what they are copied to (OpenGL ES 2.0.25, section 3.7.2).
ghost use Rattle.std.specs.Prelude.{◌≡◌};
ghost use Rattle.gl_plain.specs.State.{Surface};
ghost use Rattle.gl_plain.specs.subjects.Copies as copies;
ghost use Rattle.gl_plain.specs.subjects.Targets as d;
ghost use Rattle.target_mgr.specs.Tables.{framebuffers};
ghost use Rattle.whole_images.specs.Views.{drawable};

use gl_base::GlEnum;
use gl_plain::{AnyImage, LevelView, Target, has_alpha};
use target_mgr::Targets;
use texture_mgr::Textures;

/// Whether there are no colours, or none with an alpha where the format has one.
fn lacks_parts(textures: &Textures, targets: &Targets, target: Target, format: GlEnum) -> bool
    requires { target ≡ d.target_of (framebuffers targets.now) }
    ensures { (surface : Surface) → result ≡ d.lacks_parts (d.colour_view (drawable surface textures.now targets.now)) format }
{
    let view = match target {
        Target::Default => return false,
        Target::Bound { colour: None, .. } => return true,
        Target::Bound {
            colour: Some(AnyImage::Level(place)),
            ..
        } => textures.level(place),
        Target::Bound {
            colour: Some(AnyImage::Renderbuffer(number)),
            ..
        } => targets.storage(number),
    };
    match view {
        Some(view) => has_alpha(format) && !has_alpha(view.format),
        None => true,
    }
}

/// Whether what colours are read from does not suit a copy: it lacks parts of the format, or is an image of the texture that is copied to.
pub fn is_wrong_source(
    textures: &Textures,
    targets: &Targets,
    source: Target,
    target: GlEnum,
    format: GlEnum,
) -> bool
    requires { source ≡ d.target_of (framebuffers targets.now) }
    ensures { (surface : Surface) → result ≡ copies.is_wrong_source (drawable surface textures.now targets.now) target format }
{
    lacks_parts(textures, targets, source, format)
        || source.is_colour_of(textures.place_bound(target, 0).texture)
}

/// Whether there is no image to copy to, or what colours are read from does not suit it.
pub fn is_wrong_part(
    textures: &Textures,
    targets: &Targets,
    source: Target,
    target: GlEnum,
    level: Option<LevelView>,
) -> bool
    requires { source ≡ d.target_of (framebuffers targets.now) }
    ensures { (surface : Surface) → result ≡ copies.is_wrong_part (drawable surface textures.now targets.now) target level }
{
    match level {
        None => true,
        Some(view) => is_wrong_source(textures, targets, source, target, view.format),
    }
}
