//! What completeness sees of the images of a framebuffer (OpenGL ES 2.0.25, section 4.4.5).
ghost use Rattle.std.specs.Prelude.{◌≡◌};
ghost use Rattle.gl_plain.specs.State.{Surface};
ghost use Rattle.gl_plain.specs.subjects.Targets as d;
ghost use Rattle.texture_mgr.specs.Tables.{tables};
ghost use Rattle.target_mgr.specs.Tables.{renderbuffers};
ghost use Rattle.whole_images.specs.Views.{drawable};

use gl_base::enums::FRAMEBUFFER_COMPLETE;
use gl_plain::{AnyImage, AttachView, Target, status_of};
use target_mgr::Targets;
use texture_mgr::Textures;

/// An attachment as completeness looks at it.
pub fn attach_view(textures: &Textures, targets: &Targets, image: Option<AnyImage>) -> AttachView
    ensures { result ≡ d.attach_view (tables textures.now).objects (renderbuffers targets.now).objects image }
{
    match image {
        None => AttachView::Nothing,
        Some(AnyImage::Level(place)) => textures.attach_view(place),
        Some(AnyImage::Renderbuffer(number)) => targets.attach_view(number),
    }
}

/// Whether what is drawn to is complete, and else why not: one of the codes of CheckFramebufferStatus. The default framebuffer is complete.
pub fn target_status(textures: &Textures, targets: &Targets, target: Target) -> u32
    ensures { result ≡ d.target_status (tables textures.now).objects (renderbuffers targets.now).objects target }
{
    match target {
        Target::Default => FRAMEBUFFER_COMPLETE,
        Target::Bound {
            colour,
            depth,
            stencil,
        } => status_of(
            &attach_view(textures, targets, colour),
            &attach_view(textures, targets, depth),
            &attach_view(textures, targets, stencil),
        ),
    }
}

/// Whether the framebuffer that is bound can't be read from.
pub fn is_incomplete(textures: &Textures, targets: &Targets) -> bool
    ensures { (surface : Surface) → result ≡ d.is_incomplete (drawable surface textures.now targets.now) }
{
    target_status(textures, targets, targets.target()) != FRAMEBUFFER_COMPLETE
}
