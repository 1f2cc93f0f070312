//! The family call: a command on images.
ghost use Rattle.std.specs.Prelude.{◌≡◌, ℕ, List, Some};
ghost use Rattle.gl_plain.specs.Commands.{command_of};
ghost use Rattle.gl_plain.specs.Agreement.{AgreesIn};
ghost use Rattle.gl_plain.specs.image.Arguments.{IsImageData};
ghost use Rattle.gl_plain.specs.declared.errors.Errors as errors_of;
ghost use Rattle.gl_plain.specs.declared.commands.Command as commands;
ghost use Rattle.gl_plain.specs.declared.commands.ImageCommand as images;
ghost use Rattle.gl_plain.specs.declared.commands.ImageCommand.TheVariants as command_is;
ghost use Rattle.gl_plain.specs.declared.commands.Command.TheVariants.{Image};
ghost use Rattle.gl_driver.specs.Performed.{Acts, IsLawful};
ghost use Rattle.decode_images.specs.States.{images_in, means, IsReady};

use crate::arguments::is_malformed;
use crate::bases::make_bases_whole;
use crate::copies::{copy_part, copy_tex_image_2d};
use crate::images::{tex_image_2d, tex_parameteri, write_rows};
use crate::parts::write_part;
use crate::refusals::{copy_rect, part_rect, refusal};
use crate::rows::{client_rows, rows_or};
use crate::storage::{generate_mipmap, renderbuffer_storage};
use gl_base::GlEnum;
use gl_driver::Driver;
use gl_plain::{
    Command, CopyPartWords, CopyWords, DataWords, Errors, ExecStop, Fetched, ImageCommand,
    ImageWords, Malformed, PartWords, Reply, natural,
};
use std::alloc::Global;
use svc_raster::Raster;
use target_mgr::Targets;
use texture_mgr::Textures;
use whole_images::zero_colour;

/// TexImage2D, where it is neither malformed nor refused.
fn execute_image_words<D: Driver>(
    alloc: Global,
    textures: &mut Textures,
    targets: &Targets,
    raster: &Raster,
    errors: &mut Errors,
    payload: &[u8],
    image: ImageWords,
    words: DataWords,
    driver: &mut D,
) -> Result<Reply, ExecStop>
    requires { IsReady (command_is.TexImage2D image words) payload.now (images_in textures.old targets.now raster.now errors.old) (D.history driver.old).state }
    ensures { Acts D.history D.grown (means (command_is.TexImage2D image words) payload.now) (images_in textures.old targets.now raster.now errors.old) (images_in textures.new targets.now raster.now errors.new) driver.old driver.new result }
{
    if words.source == 0 {
        return tex_image_2d(textures, errors, image, None, driver);
    }
    let copied = client_rows(
        alloc,
        raster.unpack_alignment(),
        natural(image.width),
        natural(image.height),
        image.format,
        image.kind,
        payload,
    )?;
    let rows = rows_or(&copied, payload);
    tex_image_2d(textures, errors, image, Some(rows), driver)
}

/// TexSubImage2D, where it is neither malformed nor refused.
fn execute_part<D: Driver>(
    alloc: Global,
    textures: &mut Textures,
    targets: &Targets,
    raster: &Raster,
    payload: &[u8],
    part: PartWords,
    words: DataWords,
    driver: &mut D,
) -> Result<Reply, ExecStop>
    requires { (errors : errors_of.Errors) → IsReady (command_is.TexSubImage2D part words) payload.now (images_in textures.old targets.now raster.now errors) (D.history driver.old).state }
    ensures { (errors : errors_of.Errors) → Acts D.history D.grown (means (command_is.TexSubImage2D part words) payload.now) (images_in textures.old targets.now raster.now errors) (images_in textures.new targets.now raster.now errors) driver.old driver.new result }
{
    let copied = client_rows(
        alloc,
        raster.unpack_alignment(),
        natural(part.width),
        natural(part.height),
        part.format,
        part.kind,
        payload,
    )?;
    let place = textures.place_bound(part.target, natural(part.level));
    write_part(textures, place, part_rect(part), driver)?;
    write_rows(part, rows_or(&copied, payload), driver)
}

/// CopyTexImage2D, where it is not refused.
fn execute_copy<D: Driver>(
    textures: &mut Textures,
    targets: &mut Targets,
    raster: &Raster,
    errors: &mut Errors,
    copy: CopyWords,
    driver: &mut D,
) -> Result<Reply, ExecStop>
    requires { (payload : List ℕ) → IsReady (command_is.CopyTexImage2D copy) payload (images_in textures.old targets.old raster.now errors.old) (D.history driver.old).state }
    ensures { (payload : List ℕ) → Acts D.history D.grown (means (command_is.CopyTexImage2D copy) payload) (images_in textures.old targets.old raster.now errors.old) (images_in textures.new targets.new raster.now errors.new) driver.old driver.new result }
{
    let source = targets.target();
    zero_colour(textures, targets, source, driver)?;
    copy_tex_image_2d(textures, errors, copy, driver)
}

/// CopyTexSubImage2D, where it is not refused. A copy of no pixel does nothing.
fn execute_copy_part<D: Driver>(
    textures: &mut Textures,
    targets: &mut Targets,
    raster: &Raster,
    copy: CopyPartWords,
    driver: &mut D,
) -> Result<Reply, ExecStop>
    requires { (payload : List ℕ) (errors : errors_of.Errors) → IsReady (command_is.CopyTexSubImage2D copy) payload (images_in textures.old targets.old raster.now errors) (D.history driver.old).state }
    ensures { (payload : List ℕ) (errors : errors_of.Errors) → Acts D.history D.grown (means (command_is.CopyTexSubImage2D copy) payload) (images_in textures.old targets.old raster.now errors) (images_in textures.new targets.new raster.now errors) driver.old driver.new result }
{
    let rect = copy_rect(copy);
    if rect.width == 0 || rect.height == 0 {
        return Ok(Reply::None);
    }
    let source = targets.target();
    zero_colour(textures, targets, source, driver)?;
    let place = textures.place_bound(copy.target, natural(copy.level));
    write_part(textures, place, rect, driver)?;
    copy_part(copy, driver)
}

/// GenerateMipmap, where it is not refused.
fn execute_mipmap<D: Driver>(
    textures: &mut Textures,
    targets: &Targets,
    raster: &Raster,
    target: GlEnum,
    driver: &mut D,
) -> Result<Reply, ExecStop>
    requires { (payload : List ℕ) (errors : errors_of.Errors) → IsReady (command_is.GenerateMipmap target) payload (images_in textures.old targets.now raster.now errors) (D.history driver.old).state }
    ensures { (payload : List ℕ) (errors : errors_of.Errors) → Acts D.history D.grown (means (command_is.GenerateMipmap target) payload) (images_in textures.old targets.now raster.now errors) (images_in textures.new targets.now raster.now errors) driver.old driver.new result }
{
    make_bases_whole(textures, target, driver)?;
    generate_mipmap(textures, target, driver)
}

/// A command that is neither malformed nor refused.
fn execute<D: Driver>(
    alloc: Global,
    textures: &mut Textures,
    targets: &mut Targets,
    raster: &Raster,
    errors: &mut Errors,
    payload: &[u8],
    command: ImageCommand,
    driver: &mut D,
) -> Result<Reply, ExecStop>
    requires { IsReady command payload.now (images_in textures.old targets.old raster.now errors.old) (D.history driver.old).state }
    ensures { Acts D.history D.grown (means command payload.now) (images_in textures.old targets.old raster.now errors.old) (images_in textures.new targets.new raster.now errors.new) driver.old driver.new result }
{
    match command {
        ImageCommand::TexImage2D { image, words } => execute_image_words(
            alloc, textures, targets, raster, errors, payload, image, words, driver,
        ),
        ImageCommand::TexSubImage2D { part, words } => {
            execute_part(
                alloc, textures, targets, raster, payload, part, words, driver,
            )
        }
        ImageCommand::TexParameteri {
            target,
            pname,
            value,
        } => tex_parameteri(textures, target, pname, value, driver),
        ImageCommand::CopyTexImage2D { copy } => {
            execute_copy(textures, targets, raster, errors, copy, driver)
        }
        ImageCommand::CopyTexSubImage2D { copy } => {
            execute_copy_part(textures, targets, raster, copy, driver)
        }
        ImageCommand::GenerateMipmap { target } => {
            execute_mipmap(textures, targets, raster, target, driver)
        }
        ImageCommand::RenderbufferStorage {
            format,
            width,
            height,
            ..
        } => renderbuffer_storage(targets, errors, format, width, height, driver),
    }
}

/// Executes a command on images. Its data is the payload: what its bucket has, or else what came beside it. The rules on data in a bucket are
/// tested before. A malformed one makes no driver call and changes nothing. A refused one makes none either, and its code is recorded
/// (OpenGL ES 2.0.25, section 2.5).
pub fn execute_image<D: Driver>(
    alloc: Global,
    textures: &mut Textures,
    targets: &mut Targets,
    raster: &Raster,
    errors: &mut Errors,
    payload: &[u8],
    command: ImageCommand,
    driver: &mut D,
) -> Result<Reply, ExecStop>
    requires given { IsImageData command payload.now }
    requires agrees { AgreesIn (images_in textures.old targets.old raster.now errors.old) (D.history driver.old).state }
    ensures { IsLawful D.history D.grown (Image command) payload.now (images_in textures.old targets.old raster.now errors.old) (images_in textures.new targets.new raster.now errors.new) driver.old driver.new result }
{
    if is_malformed(raster.unpack_alignment(), command) {
        return Err(ExecStop::Bad(Malformed::InvalidArguments));
    }
    if let Some(error) = refusal(textures, targets, command) {
        errors.note(error);
        return Ok(Reply::None);
    }
    execute(
        alloc, textures, targets, raster, errors, payload, command, driver,
    )
}

/// Executes a command on images as it was read. It does what `execute_image` does with the command that its words spell.
pub fn image_command<D: Driver>(
    alloc: Global,
    textures: &mut Textures,
    targets: &mut Targets,
    raster: &Raster,
    errors: &mut Errors,
    payload: &[u8],
    command: &Fetched,
    driver: &mut D,
) -> Result<Reply, ExecStop>
    requires family { (c : images.ImageCommand) × (command_of command.now ≡ Some (Image c)) × IsImageData c payload.now }
    requires agrees { AgreesIn (images_in textures.old targets.old raster.now errors.old) (D.history driver.old).state }
    ensures { (c : commands.Command) → command_of command.now ≡ Some c → IsLawful D.history D.grown c payload.now (images_in textures.old targets.old raster.now errors.old) (images_in textures.new targets.new raster.now errors.new) driver.old driver.new result }
{
    let Some(Command::Image(image)) = command.command() else {
        unreachable!();
    };
    execute_image(
        alloc, textures, targets, raster, errors, payload, image, driver,
    )
}
