//! ActiveTexture (OpenGL ES 2.0.25, section 3.7).
ghost use Rattle.std.specs.Prelude.{◌≡◌, None};
ghost use Rattle.gl_plain.specs.declared.commands.DrawCommand.TheVariants as command;
ghost use Rattle.gl_plain.specs.subjects.Textures as plain;
ghost use Rattle.gl_driver.specs.Performed.{Acts};
ghost use Rattle.decode_draw.specs.States.{textures_in};
ghost use Rattle.decode_draw.specs.Judged.{planned, planned_calls, MayCall};

use gl_base::GlEnum;
use gl_base::texture_enums::{TEXTURE0, TEXTURE7};
use gl_driver::Driver;
use gl_plain::{DrawPlan, ExecStop, GlError, Reply};
use texture_mgr::Textures;

/// The refusal of ActiveTexture: for what names none of the eight units.
pub fn active_texture_refusal(unit: GlEnum) -> Option<GlError>
    ensures { result ≡ plain.active_texture_refusal unit }
{
    if unit.0 >= TEXTURE0.0 && unit.0 <= TEXTURE7.0 {
        None
    } else {
        Some(GlError::InvalidEnum)
    }
}

/// ActiveTexture, where it is not refused: the unit is the active one, of the service and of the driver.
pub fn active_texture<D: Driver>(
    textures: &mut Textures,
    unit: GlEnum,
    plan: DrawPlan,
    driver: &mut D,
) -> Result<Reply, ExecStop>
    requires taken { plain.active_texture_refusal unit ≡ None }
    requires may { MayCall (D.history driver.old).state (planned_calls plan (command.ActiveTexture unit)) }
    ensures { Acts D.history D.grown (planned plan (command.ActiveTexture unit)) (textures_in textures.old) (textures_in textures.new) driver.old driver.new result }
{
    let number = unit.0 - TEXTURE0.0;
    driver.active_texture(number)?;
    textures.set_active(number);
    Ok(Reply::None)
}
