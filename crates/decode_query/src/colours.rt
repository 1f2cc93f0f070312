//! What is read: whether it has colours (OpenGL ES 2.0.25, section 4.3.1).
ghost use Rattle.std.specs.Prelude.{◌≡◌, is_none};
ghost use Rattle.gl_plain.specs.State.{Surface};
ghost use Rattle.gl_plain.specs.subjects.Targets as d;
ghost use Rattle.target_mgr.specs.Tables.{framebuffers};
ghost use Rattle.whole_images.specs.Views.{drawable};

use gl_plain::{AnyImage, Target};
use target_mgr::Targets;
use texture_mgr::Textures;

/// Whether there are no colours to read.
pub fn has_no_colours(textures: &Textures, targets: &Targets, target: Target) -> bool
    requires { target ≡ d.target_of (framebuffers targets.now) }
    ensures { (surface : Surface) → result ≡ is_none (d.colour_view (drawable surface textures.now targets.now)) }
{
    match target {
        Target::Default => false,
        Target::Bound { colour: None, .. } => true,
        Target::Bound {
            colour: Some(AnyImage::Level(place)),
            ..
        } => textures.level(place).is_none(),
        Target::Bound {
            colour: Some(AnyImage::Renderbuffer(number)),
            ..
        } => targets.storage(number).is_none(),
    }
}
