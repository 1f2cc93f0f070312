//! The family call: a command on the fixed state, or one that clears or draws.
ghost use Rattle.std.specs.Prelude.{◌≡◌, ℕ, List, Some};
ghost use Rattle.gl_plain.specs.Commands.{command_of};
ghost use Rattle.gl_plain.specs.Agreement.{AgreesIn};
ghost use Rattle.gl_plain.specs.declared.commands.Command as commands;
ghost use Rattle.gl_plain.specs.declared.commands.DrawCommand as drawing;
ghost use Rattle.gl_plain.specs.declared.commands.Command.TheVariants.{Draw};
ghost use Rattle.gl_driver.specs.Performed.{Acts, IsLawful};
ghost use Rattle.decode_draw.specs.States.{draws_in, own_in};
ghost use Rattle.decode_draw.specs.Judged.{planned, planned_calls, IsTaken, MayCall};

use crate::drawing::{clear, draw_arrays, draw_elements, set_raster};
use crate::judging::judge;
use crate::sampled::zero_drawn;
use crate::units::active_texture;
use attrib_mgr::Attribs;
use buffer_mgr::Buffers;
use gl_driver::Driver;
use gl_plain::{Command, DrawCommand, DrawPlan, Errors, ExecStop, Fetched, Reply};
use program_mgr::Programs;
use svc_raster::Raster;
use target_mgr::Targets;
use texture_mgr::Textures;

/// What is left of a command that is not refused, by what it draws, once what it samples and draws to is whole.
fn execute<D: Driver>(
    textures: &mut Textures,
    raster: &mut Raster,
    command: DrawCommand,
    plan: DrawPlan,
    driver: &mut D,
) -> Result<Reply, ExecStop>
    requires taken { IsTaken command }
    requires may { MayCall (D.history driver.old).state (planned_calls plan command) }
    ensures { Acts D.history D.grown (planned plan command) (own_in textures.old raster.old) (own_in textures.new raster.new) driver.old driver.new result }
{
    match command {
        DrawCommand::ActiveTexture { unit } => active_texture(textures, unit, plan, driver),
        DrawCommand::Raster { number, words } => set_raster(raster, number, words, plan, driver),
        DrawCommand::Clear { mask } => clear(mask, plan, driver),
        DrawCommand::DrawArrays { mode, first, count } => {
            draw_arrays(mode, first, count, plan, driver)
        }
        DrawCommand::DrawElements {
            mode,
            count,
            kind,
            offset,
        } => draw_elements(mode, count, kind, offset, plan, driver),
        DrawCommand::Flush | DrawCommand::Finish => Ok(Reply::None),
    }
}

/// Executes a command on the fixed state, or one that clears or draws. No such command is malformed. A refused one makes no driver call, and
/// its code is recorded (OpenGL ES 2.0.25, section 2.5). Before a draw or a Clear, what was never written of the images that it
/// samples or draws to is zeroed.
pub fn execute_draw<D: Driver>(
    buffers: &Buffers,
    textures: &mut Textures,
    targets: &mut Targets,
    programs: &Programs,
    attribs: &Attribs,
    raster: &mut Raster,
    errors: &mut Errors,
    command: DrawCommand,
    driver: &mut D,
) -> Result<Reply, ExecStop>
    requires agrees { AgreesIn (draws_in buffers.now textures.old targets.old programs.now attribs.now raster.old errors.old) (D.history driver.old).state }
    ensures { (payload : List ℕ) → IsLawful D.history D.grown (Draw command) payload (draws_in buffers.now textures.old targets.old programs.now attribs.now raster.old errors.old) (draws_in buffers.now textures.new targets.new programs.now attribs.now raster.new errors.new) driver.old driver.new result }
{
    match judge(buffers, textures, targets, programs, attribs, command) {
        Ok(judged) => {
            zero_drawn(textures, targets, &judged, driver)?;
            execute(textures, raster, command, judged.plan, driver)
        }
        Err(error) => {
            errors.note(error);
            Ok(Reply::None)
        }
    }
}

/// Executes a command on the fixed state, or one that clears or draws, as it was read. It does what `execute_draw` does with the command that
/// its words spell.
pub fn draw_command<D: Driver>(
    buffers: &Buffers,
    textures: &mut Textures,
    targets: &mut Targets,
    programs: &Programs,
    attribs: &Attribs,
    raster: &mut Raster,
    errors: &mut Errors,
    command: &Fetched,
    driver: &mut D,
) -> Result<Reply, ExecStop>
    requires family { (c : drawing.DrawCommand) × (command_of command.now ≡ Some (Draw c)) }
    requires agrees { AgreesIn (draws_in buffers.now textures.old targets.old programs.now attribs.now raster.old errors.old) (D.history driver.old).state }
    ensures { (c : commands.Command) → command_of command.now ≡ Some c → (payload : List ℕ) → IsLawful D.history D.grown c payload (draws_in buffers.now textures.old targets.old programs.now attribs.now raster.old errors.old) (draws_in buffers.now textures.new targets.new programs.now attribs.now raster.new errors.new) driver.old driver.new result }
{
    let Some(Command::Draw(drawing)) = command.command() else {
        unreachable!();
    };
    execute_draw(
        buffers, textures, targets, programs, attribs, raster, errors, drawing, driver,
    )
}
