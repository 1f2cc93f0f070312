//! CopyTexImage2D and CopyTexSubImage2D (OpenGL ES 2.0.25, section 3.7.2). Each relies on its refusal having been tested, and on the image that it
//! reads being whole.
ghost use Rattle.std.specs.Prelude.{◌≡◌, ℕ, List, None, false};
ghost use Rattle.gl_base.specs.Rects.{is_empty};
ghost use Rattle.gl_plain.specs.Words.{natural};
ghost use Rattle.gl_plain.specs.State.{WireState};
ghost use Rattle.gl_plain.specs.subjects.Copies as copies;
ghost use Rattle.gl_plain.specs.subjects.Images as images;
ghost use Rattle.gl_plain.specs.subjects.Levels.{is_cube_face};
ghost use Rattle.gl_plain.specs.subjects.Textures as plain;
ghost use Rattle.gl_plain.specs.driver.Allowed.{IsAllowed};
ghost use Rattle.gl_plain.specs.declared.commands.ImageCommand.TheVariants as command;
ghost use Rattle.gl_plain.specs.declared.driver_calls.DriverCall.TheVariants.{Image};
ghost use Rattle.gl_plain.specs.declared.driver_calls.ImageDriver.TheVariants as calls;
ghost use Rattle.gl_driver.specs.Performed.{Acts};
ghost use Rattle.svc_raster.specs.declared.raster.Raster as raster_of;
ghost use Rattle.target_mgr.specs.declared.targets.Targets as targets_are;
ghost use Rattle.texture_mgr.specs.Tables.{tables};
ghost use Rattle.decode_images.specs.States.{images_in, own_part, copy_written};

use crate::images::view_of;
use crate::refusals::copy_image;
use gl_driver::{Driver, Stored};
use gl_plain::{CopyPartWords, CopyWords, Errors, ExecStop, GlError, Reply, natural};
use texture_mgr::Textures;

/// CopyTexImage2D: a new image, of which all is written. Where the driver has no room, OUT_OF_MEMORY is recorded and nothing else changes.
pub fn copy_tex_image_2d<D: Driver>(
    textures: &mut Textures,
    errors: &mut Errors,
    copy: CopyWords,
    driver: &mut D,
) -> Result<Reply, ExecStop>
    requires fair { images.tex_image_refusal (copies.copy_image copy) ≡ None }
    requires bound { plain.IsOfKind (is_cube_face copy.target) (plain.bound_texture (tables textures.old).objects (is_cube_face copy.target)) }
    requires allowed { IsAllowed (D.history driver.old).state (Image (calls.CopyTexImage copy.target copy.level copy.internal copy.x copy.y copy.width copy.height)) }
    ensures { (payload : List ℕ) (targets : targets_are.Targets) (raster : raster_of.Raster) → Acts D.history D.grown (own_part (command.CopyTexImage2D copy) payload) (images_in textures.old targets raster errors.old) (images_in textures.new targets raster errors.new) driver.old driver.new result }
{
    match driver.copy_tex_image(
        copy.target,
        copy.level,
        copy.internal,
        copy.x,
        copy.y,
        copy.width,
        copy.height,
    )? {
        Stored::Oom => errors.note(GlError::OutOfMemory),
        Stored::Done => textures.set_image(
            copy.target,
            natural(copy.level),
            view_of(copy_image(copy)),
            true,
        ),
    }
    Ok(Reply::None)
}

/// CopyTexSubImage2D of at least one pixel, once its rectangle is entered: the driver copies it.
pub fn copy_part<D: Driver>(copy: CopyPartWords, driver: &mut D) -> Result<Reply, ExecStop>
    requires some { is_empty (copies.copy_rect copy) ≡ false }
    requires allowed { IsAllowed (D.history driver.old).state (Image (calls.CopyTexSubImage copy)) }
    ensures { (payload : List ℕ) (before : WireState → WireState) → Acts D.history D.grown (own_part (command.CopyTexSubImage2D copy) payload) before (copy_written copy before) driver.old driver.new result }
{
    driver.copy_tex_sub_image(
        copy.target,
        copy.level,
        copy.xoffset,
        copy.yoffset,
        copy.x,
        copy.y,
        copy.width,
        copy.height,
    )?;
    Ok(Reply::None)
}
