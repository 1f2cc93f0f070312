//! The family call: a command that asks for state or for pixels.
ghost use Rattle.std.specs.Prelude.{◌≡◌, ℕ, List, Some};
ghost use Rattle.gl_plain.specs.Commands.{command_of};
ghost use Rattle.gl_plain.specs.Agreement.{AgreesIn};
ghost use Rattle.gl_plain.specs.declared.commands.Command as commands;
ghost use Rattle.gl_plain.specs.declared.commands.QueryCommand as queries;
ghost use Rattle.gl_plain.specs.declared.commands.Command.TheVariants.{Query};
ghost use Rattle.gl_driver.specs.Performed.{Acts, IsLawful};
ghost use Rattle.decode_query.specs.States.{all_in, means, IsReady};

use crate::answers::word_query_reply;
use crate::asked::Asked;
use crate::bytes::byte_query;
use crate::reading::read_pixels;
use crate::refusals::refusal;
use attrib_mgr::Attribs;
use buffer_mgr::Buffers;
use gl_driver::Driver;
use gl_plain::{Command, Errors, ExecStop, Fetched, QueryCommand, Reply};
use program_mgr::Programs;
use std::alloc::Global;
use svc_raster::Raster;
use target_mgr::Targets;
use texture_mgr::Textures;

/// A query that is not refused.
fn execute<D: Driver>(
    alloc: Global,
    buffers: &Buffers,
    textures: &mut Textures,
    targets: &mut Targets,
    programs: &Programs,
    attribs: &Attribs,
    raster: &Raster,
    errors: &mut Errors,
    command: QueryCommand,
    driver: &mut D,
) -> Result<Reply, ExecStop>
    requires { IsReady command (all_in buffers.now textures.old targets.old programs.now attribs.now raster.now errors.old) (D.history driver.old).state }
    ensures { Acts D.history D.grown (means command) (all_in buffers.now textures.old targets.old programs.now attribs.now raster.now errors.old) (all_in buffers.now textures.new targets.new programs.now attribs.now raster.now errors.new) driver.old driver.new result }
{
    let asked = Asked {
        buffers,
        textures,
        targets,
        programs,
        attribs,
        raster,
    };
    match command {
        QueryCommand::ReadPixels { words, bucket } => {
            read_pixels(alloc, textures, targets, raster, words, bucket, driver)
        }
        QueryCommand::GetError => Ok(Reply::Error(errors.take())),
        QueryCommand::Words(query) => Ok(word_query_reply(alloc, asked, query)?),
        QueryCommand::Bytes { query, bucket: _ } => {
            let bytes = byte_query(alloc, programs, query)?;
            Ok(Reply::Bytes(bytes))
        }
    }
}

/// Executes a query. The rule on the bucket that its reply goes into is tested before, and the bucket is given the reply afterwards. A refused
/// query makes no driver call, and its code is recorded (OpenGL ES 2.0.25, section 2.5). Before a read, what was never written of the image
/// that it reads is zeroed.
pub fn execute_query<D: Driver>(
    alloc: Global,
    buffers: &Buffers,
    textures: &mut Textures,
    targets: &mut Targets,
    programs: &Programs,
    attribs: &Attribs,
    raster: &Raster,
    errors: &mut Errors,
    command: QueryCommand,
    driver: &mut D,
) -> Result<Reply, ExecStop>
    requires agrees { AgreesIn (all_in buffers.now textures.old targets.old programs.now attribs.now raster.now errors.old) (D.history driver.old).state }
    ensures { (payload : List ℕ) → IsLawful D.history D.grown (Query command) payload (all_in buffers.now textures.old targets.old programs.now attribs.now raster.now errors.old) (all_in buffers.now textures.new targets.new programs.now attribs.now raster.now errors.new) driver.old driver.new result }
{
    let asked = Asked {
        buffers,
        textures,
        targets,
        programs,
        attribs,
        raster,
    };
    if let Some(error) = refusal(asked, command) {
        errors.note(error);
        return Ok(Reply::None);
    }
    execute(
        alloc, buffers, textures, targets, programs, attribs, raster, errors, command, driver,
    )
}

/// Executes a query as it was read. It does what `execute_query` does with the command that its words spell.
pub fn query_command<D: Driver>(
    alloc: Global,
    buffers: &Buffers,
    textures: &mut Textures,
    targets: &mut Targets,
    programs: &Programs,
    attribs: &Attribs,
    raster: &Raster,
    errors: &mut Errors,
    command: &Fetched,
    driver: &mut D,
) -> Result<Reply, ExecStop>
    requires family { (c : queries.QueryCommand) × (command_of command.now ≡ Some (Query c)) }
    requires agrees { AgreesIn (all_in buffers.now textures.old targets.old programs.now attribs.now raster.now errors.old) (D.history driver.old).state }
    ensures { (c : commands.Command) → command_of command.now ≡ Some c → (payload : List ℕ) → IsLawful D.history D.grown c payload (all_in buffers.now textures.old targets.old programs.now attribs.now raster.now errors.old) (all_in buffers.now textures.new targets.new programs.now attribs.now raster.now errors.new) driver.old driver.new result }
{
    let Some(Command::Query(query)) = command.command() else {
        unreachable!();
    };
    execute_query(
        alloc, buffers, textures, targets, programs, attribs, raster, errors, query, driver,
    )
}
