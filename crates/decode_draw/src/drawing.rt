//! The commands on the fixed state, and those that clear and draw (OpenGL ES 2.0.25, sections 2.8 and 4.2.3). Each relies on having been judged.
ghost use Rattle.std.specs.Prelude.{◌≡◌, None};
ghost use Rattle.gl_plain.specs.declared.commands.DrawCommand.TheVariants as command;
ghost use Rattle.gl_plain.specs.subjects.Raster.{is_driver_raster, raster_refusal};
ghost use Rattle.gl_driver.specs.Performed.{Acts};
ghost use Rattle.decode_draw.specs.States.{raster_in};
ghost use Rattle.decode_draw.specs.Judged.{planned, planned_calls, MayCall};

use gl_base::GlEnum;
use gl_driver::Driver;
use gl_plain::numbers::{ENABLE, PIXEL_STOREI, VIEWPORT};
use gl_plain::{DrawPlan, ExecStop, Reply};
use svc_raster::{Raster, kept_words};

/// Whether a command of this number sets state that a driver keeps.
fn is_driver_raster(number: u32) -> bool
    ensures { result ≡ is_driver_raster number }
{
    number >= ENABLE && number <= VIEWPORT && number != PIXEL_STOREI
}

/// A command on the fixed state: its words are kept, and given to the driver.
pub fn set_raster<D: Driver>(
    raster: &mut Raster,
    number: u32,
    words: [u32; 4],
    plan: DrawPlan,
    driver: &mut D,
) -> Result<Reply, ExecStop>
    requires taken { raster_refusal number words ≡ None }
    requires may { MayCall (D.history driver.old).state (planned_calls plan (command.Raster number words)) }
    ensures { Acts D.history D.grown (planned plan (command.Raster number words)) (raster_in raster.old) (raster_in raster.new) driver.old driver.new result }
{
    let kept = kept_words(number, &words);
    if !is_driver_raster(number) {
        raster.apply(number, kept.as_slice());
        return Ok(Reply::None);
    }
    driver.set_raster(number, kept.as_slice())?;
    raster.apply(number, kept.as_slice());
    Ok(Reply::None)
}

/// Clear: the images that the mask names are cleared. With no bit set nothing is done.
pub fn clear<D: Driver>(mask: u32, plan: DrawPlan, driver: &mut D) -> Result<Reply, ExecStop>
    requires may { MayCall (D.history driver.old).state (planned_calls plan (command.Clear mask)) }
    ensures { Acts D.history D.grown (planned plan (command.Clear mask)) (λ w. w) (λ w. w) driver.old driver.new result }
{
    if mask == 0 {
        return Ok(Reply::None);
    }
    driver.clear(mask)?;
    Ok(Reply::None)
}

/// DrawArrays, where anything is drawn.
pub fn draw_arrays<D: Driver>(
    mode: GlEnum,
    first: i32,
    count: i32,
    plan: DrawPlan,
    driver: &mut D,
) -> Result<Reply, ExecStop>
    requires may { MayCall (D.history driver.old).state (planned_calls plan (command.DrawArrays mode first count)) }
    ensures { Acts D.history D.grown (planned plan (command.DrawArrays mode first count)) (λ w. w) (λ w. w) driver.old driver.new result }
{
    if !plan.draw {
        return Ok(Reply::None);
    }
    driver.draw_arrays(mode, first, count, u32::from(plan.black))?;
    Ok(Reply::None)
}

/// DrawElements, where anything is drawn.
pub fn draw_elements<D: Driver>(
    mode: GlEnum,
    count: i32,
    kind: GlEnum,
    offset: u32,
    plan: DrawPlan,
    driver: &mut D,
) -> Result<Reply, ExecStop>
    requires may { MayCall (D.history driver.old).state (planned_calls plan (command.DrawElements mode count kind offset)) }
    ensures { Acts D.history D.grown (planned plan (command.DrawElements mode count kind offset)) (λ w. w) (λ w. w) driver.old driver.new result }
{
    if !plan.draw {
        return Ok(Reply::None);
    }
    driver.draw_elements(mode, count, kind, offset, u32::from(plan.black))?;
    Ok(Reply::None)
}
