//! GenerateMipmap and RenderbufferStorage (OpenGL ES 2.0.25, sections 3.7.11 and 4.4.3). Each relies on its refusal having been tested.
ghost use Rattle.std.specs.Prelude.{◌≡◌, ◌≢◌, ℕ, List, [], IsSome, true, None};
ghost use Rattle.std.specs.FinMap as map;
ghost use Rattle.gl_base.specs.declared.gl_enum.GlEnum as enums;
ghost use Rattle.gl_plain.specs.driver.Allowed.{IsAllowed};
ghost use Rattle.gl_plain.specs.declared.commands.ImageCommand.TheVariants as command;
ghost use Rattle.gl_plain.specs.declared.driver_calls.DriverCall.TheVariants.{Image};
ghost use Rattle.gl_plain.specs.declared.driver_calls.ImageDriver.TheVariants as calls;
ghost use Rattle.gl_plain.specs.declared.errors.Errors as errors_of;
ghost use Rattle.gl_plain.specs.subjects.Mipmaps as mipmaps;
ghost use Rattle.gl_plain.specs.subjects.Targets as d;
ghost use Rattle.gl_driver.specs.Performed.{Acts, MayMake};
ghost use Rattle.svc_raster.specs.declared.raster.Raster as raster_of;
ghost use Rattle.target_mgr.specs.declared.targets.Targets as targets_are;
ghost use Rattle.texture_mgr.specs.declared.textures.Textures as textures_are;
ghost use Rattle.texture_mgr.specs.Tables.{tables};
ghost use Rattle.target_mgr.specs.Tables.{renderbuffers};
ghost use Rattle.decode_images.specs.States.{images_in, own_part};

use gl_base::GlEnum;
use gl_base::target_enums::NONE;
use gl_driver::{Driver, Stored};
use gl_plain::{Errors, ExecStop, GlError, LevelView, Reply, natural};
use target_mgr::Targets;
use texture_mgr::Textures;

/// GenerateMipmap, once level 0 is whole: the levels behind it are made of it, and all of them is written.
pub fn generate_mipmap<D: Driver>(
    textures: &mut Textures,
    target: GlEnum,
    driver: &mut D,
) -> Result<Reply, ExecStop>
    requires taken { mipmaps.generate_mipmap_refusal (tables textures.old).objects target ≡ None }
    requires allowed { IsAllowed (D.history driver.old).state (Image (calls.GenerateMipmap target)) }
    ensures { (payload : List ℕ) (targets : targets_are.Targets) (raster : raster_of.Raster) (errors : errors_of.Errors) → Acts D.history D.grown (own_part (command.GenerateMipmap target) payload) (images_in textures.old targets raster errors) (images_in textures.new targets raster errors) driver.old driver.new result }
{
    driver.generate_mipmap(target)?;
    textures.make_halves(target);
    Ok(Reply::None)
}

/// The image that RenderbufferStorage gives. Its pixels have no type.
fn storage_view(format: GlEnum, width: i32, height: i32) -> LevelView
    ensures { result ≡ d.storage_view format width height }
{
    LevelView {
        width: natural(width),
        height: natural(height),
        format,
        kind: NONE,
    }
}

/// RenderbufferStorage: a new image, of which nothing is written. Where the driver has no room, OUT_OF_MEMORY is recorded and nothing else
/// changes.
pub fn renderbuffer_storage<D: Driver>(
    targets: &mut Targets,
    errors: &mut Errors,
    format: GlEnum,
    width: i32,
    height: i32,
    driver: &mut D,
) -> Result<Reply, ExecStop>
    requires bound { IsSome (map.get (renderbuffers targets.old).objects (renderbuffers targets.old).bound) }
    requires allowed { IsAllowed (D.history driver.old).state (Image (calls.RenderbufferStorage format width height)) }
    ensures { (target : enums.GlEnum) (payload : List ℕ) (textures : textures_are.Textures) (raster : raster_of.Raster) → Acts D.history D.grown (own_part (command.RenderbufferStorage target format width height) payload) (images_in textures targets.old raster errors.old) (images_in textures targets.new raster errors.new) driver.old driver.new result }
{
    match driver.renderbuffer_storage(format, width, height)? {
        Stored::Oom => errors.note(GlError::OutOfMemory),
        Stored::Done => targets.set_storage(storage_view(format, width, height)),
    }
    Ok(Reply::None)
}
