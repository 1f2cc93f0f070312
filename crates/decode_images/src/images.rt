//! TexImage2D, TexSubImage2D and TexParameteri (OpenGL ES 2.0.25, sections 3.7.1, 3.7.2 and 3.7.4). Each relies on its argument rule and its
//! refusal having been tested.
ghost use Rattle.std.specs.Prelude.{◌≡◌, ◌≤◌, ℕ, List, None, true, false};
ghost use Rattle.gl_base.specs.declared.limits.TheConstants.{LAST_LEVEL};
ghost use Rattle.gl_plain.specs.Words.{natural};
ghost use Rattle.gl_plain.specs.subjects.Data.{payload_of};
ghost use Rattle.gl_plain.specs.subjects.Levels.{is_cube_face};
ghost use Rattle.gl_plain.specs.subjects.Images as images;
ghost use Rattle.gl_plain.specs.subjects.Textures as plain;
ghost use Rattle.gl_plain.specs.State.{WireState};
ghost use Rattle.gl_plain.specs.driver.Allowed.{IsAllowed};
ghost use Rattle.gl_plain.specs.declared.commands.ImageCommand.TheVariants as command;
ghost use Rattle.gl_plain.specs.declared.commands.DataWords as words_of;
ghost use Rattle.gl_plain.specs.declared.driver_calls.DriverCall.TheVariants.{Image};
ghost use Rattle.gl_plain.specs.declared.driver_calls.ImageDriver.TheVariants as calls;
ghost use Rattle.gl_driver.specs.Payloads.{payload_given};
ghost use Rattle.gl_driver.specs.Performed.{Acts};
ghost use Rattle.gl_plain.specs.declared.errors.Errors as errors_of;
ghost use Rattle.svc_raster.specs.declared.raster.Raster as raster_of;
ghost use Rattle.target_mgr.specs.declared.targets.Targets as targets_are;
ghost use Rattle.texture_mgr.specs.Tables.{tables};
ghost use Rattle.decode_images.specs.States.{images_in, own_part, part_written};

use gl_base::GlEnum;
use gl_driver::{Driver, Stored};
use gl_plain::{Errors, ExecStop, GlError, ImageWords, LevelView, PartWords, Reply, natural};
use texture_mgr::Textures;

/// The image that TexImage2D gives.
pub fn view_of(image: ImageWords) -> LevelView
    ensures { result ≡ images.view_of image }
{
    LevelView {
        width: natural(image.width),
        height: natural(image.height),
        format: image.format,
        kind: image.kind,
    }
}

/// The level of TexImage2D.
fn level_of(image: ImageWords) -> u32
    requires { images.tex_image_refusal image ≡ None }
    ensures level { result ≡ natural image.level }
    ensures limit { result ≤ LAST_LEVEL }
{
    natural(image.level)
}

/// TexImage2D: a new image, of these rows or of none. Where the driver has no room, OUT_OF_MEMORY is recorded and nothing else changes.
pub fn tex_image_2d<D: Driver>(
    textures: &mut Textures,
    errors: &mut Errors,
    image: ImageWords,
    rows: Option<&[u8]>,
    driver: &mut D,
) -> Result<Reply, ExecStop>
    requires taken { images.tex_image_refusal image ≡ None }
    requires bound { plain.IsOfKind (is_cube_face image.target) (plain.bound_texture (tables textures.old).objects (is_cube_face image.target)) }
    requires allowed { IsAllowed (D.history driver.old).state (Image (calls.TexImage image.target image.level image.format image.kind image.width image.height (payload_given rows))) }
    ensures { (words : words_of.DataWords) (payload : List ℕ) (targets : targets_are.Targets) (raster : raster_of.Raster) → payload_given rows.entry ≡ images.unpadded_payload image raster.alignments.unpack (payload_of words payload) → Acts D.history D.grown (own_part (command.TexImage2D image words) payload) (images_in textures.old targets raster errors.old) (images_in textures.new targets raster errors.new) driver.old driver.new result }
{
    let written = rows.is_some();
    match driver.tex_image(
        image.target,
        image.level,
        image.format,
        image.kind,
        image.width,
        image.height,
        rows,
    )? {
        Stored::Oom => errors.note(GlError::OutOfMemory),
        Stored::Done => textures.set_image(image.target, level_of(image), view_of(image), written),
    }
    Ok(Reply::None)
}

/// TexSubImage2D, once its rectangle is entered: the driver writes these rows.
pub fn write_rows<D: Driver>(
    part: PartWords,
    rows: &[u8],
    driver: &mut D,
) -> Result<Reply, ExecStop>
    requires allowed { IsAllowed (D.history driver.old).state (Image (calls.TexSubImage part rows.now)) }
    ensures { (words : words_of.DataWords) (payload : List ℕ) (before : WireState → WireState) → ((w : WireState) → rows.now ≡ images.unpadded_part part (before w).es.alignments.unpack payload) → Acts D.history D.grown (own_part (command.TexSubImage2D part words) payload) before (part_written part before) driver.old driver.new result }
{
    driver.tex_sub_image(
        part.target,
        part.level,
        part.x,
        part.y,
        part.width,
        part.height,
        part.format,
        part.kind,
        rows,
    )?;
    Ok(Reply::None)
}

/// TexParameteri: the texture that the active unit binds has this value.
pub fn tex_parameteri<D: Driver>(
    textures: &mut Textures,
    target: GlEnum,
    pname: GlEnum,
    value: GlEnum,
    driver: &mut D,
) -> Result<Reply, ExecStop>
    requires taken { plain.tex_parameter_refusal target pname value ≡ None }
    ensures { (payload : List ℕ) (targets : targets_are.Targets) (raster : raster_of.Raster) (errors : errors_of.Errors) → Acts D.history D.grown (own_part (command.TexParameteri target pname value) payload) (images_in textures.old targets raster errors) (images_in textures.new targets raster errors) driver.old driver.new result }
{
    driver.tex_parameter(target, pname, value)?;
    textures.set_parameter(target, pname, value);
    Ok(Reply::None)
}
