//! ReadPixels (OpenGL ES 2.0.25, section 4.3.1).
ghost use Rattle.std.specs.Prelude.{◌≡◌, false, None};
ghost use Rattle.gl_plain.specs.driver.Allowed.{IsAllowed};
ghost use Rattle.gl_plain.specs.declared.commands.QueryCommand.TheVariants as command;
ghost use Rattle.gl_plain.specs.declared.driver_calls.DriverCall.TheVariants.{Image};
ghost use Rattle.gl_plain.specs.declared.driver_calls.ImageDriver.TheVariants as calls;
ghost use Rattle.gl_plain.specs.declared.errors.Errors as errors_of;
ghost use Rattle.gl_plain.specs.subjects.Copies as copies;
ghost use Rattle.gl_driver.specs.Performed.{Acts};
ghost use Rattle.decode_query.specs.States.{queries_in, own_part, means, IsReady};

use crate::rows::padded;
use gl_driver::Driver;
use gl_plain::{Bytes, ExecStop, ReadWords, Reply, natural};
use std::alloc::Global;
use svc_raster::Raster;
use target_mgr::Targets;
use texture_mgr::Textures;
use whole_images::zero_colour;

/// ReadPixels of at least one pixel, once the image that it reads is whole: the reply has the driver's pixels, with padding between rows.
fn read_rows<D: Driver>(
    alloc: Global,
    textures: &Textures,
    targets: &Targets,
    raster: &Raster,
    words: ReadWords,
    bucket: u32,
    driver: &mut D,
) -> Result<Reply, ExecStop>
    requires some { copies.reads_nothing words ≡ false }
    requires allowed { IsAllowed (D.history driver.old).state (Image (calls.ReadPixels words.x words.y words.width words.height)) }
    ensures { (errors : errors_of.Errors) → Acts D.history D.grown (own_part (command.ReadPixels words bucket)) (queries_in textures.now targets.now raster.now errors) (queries_in textures.now targets.now raster.now errors) driver.old driver.new result }
{
    let bytes = driver.read_pixels(words.x, words.y, words.width, words.height)?;
    let rows = padded(
        alloc,
        raster.pack_alignment(),
        natural(words.width),
        natural(words.height),
        bytes,
    )?;
    Ok(Reply::Bytes(rows))
}

/// ReadPixels, where it is not refused. Where there is nothing to read, the reply is empty and no driver call is made.
pub fn read_pixels<D: Driver>(
    alloc: Global,
    textures: &mut Textures,
    targets: &mut Targets,
    raster: &Raster,
    words: ReadWords,
    bucket: u32,
    driver: &mut D,
) -> Result<Reply, ExecStop>
    requires { (errors : errors_of.Errors) → IsReady (command.ReadPixels words bucket) (queries_in textures.old targets.old raster.now errors) (D.history driver.old).state }
    ensures { (errors : errors_of.Errors) → Acts D.history D.grown (means (command.ReadPixels words bucket)) (queries_in textures.old targets.old raster.now errors) (queries_in textures.new targets.new raster.now errors) driver.old driver.new result }
{
    if natural(words.width) == 0 || natural(words.height) == 0 {
        return Ok(Reply::Bytes(Bytes::new(alloc)));
    }
    let source = targets.target();
    zero_colour(textures, targets, source, driver)?;
    read_rows(alloc, textures, targets, raster, words, bucket, driver)
}
