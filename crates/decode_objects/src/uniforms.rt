//! The command that sets uniforms (OpenGL ES 2.0.25, section 2.10.4). It relies on its argument rule and its refusal having been tested.
ghost use Rattle.std.specs.Prelude.{◌≡◌, Bool, pos, true, false, None, OnOk, length};
ghost use Rattle.program_mgr.specs.Tables.{tables};
ghost use Rattle.gl_plain.specs.subjects.Uniforms as plain;
ghost use Rattle.gl_plain.specs.declared.commands.DataWords as words_of;
ghost use Rattle.gl_plain.specs.declared.commands.ObjectCommand.TheVariants as command;
ghost use Rattle.gl_driver.specs.Performed.{Acts};
ghost use Rattle.decode_objects.specs.States.{own_part, programs_in};
ghost use Rattle.decode_objects.specs.Ready.{MayMake};

use gl_base::limits::UNIFORM_LIMIT;
use gl_driver::Driver;
use gl_plain::{ExecStop, Reply};
use program_mgr::{ProgramRefusal, Programs};
use std::alloc::AllocError;

/// How many elements the driver is given: no more than there can be, and none of a negative count.
fn given_count(count: i32) -> i32
    ensures { result ≡ pos (plain.given_count count) }
{
    if count < 0 {
        return 0;
    }
    count.min(UNIFORM_LIMIT as i32)
}

/// Sets the elements of a uniform that takes what is given. At the location -1 it changes nothing.
fn set_uniform(
    programs: &mut Programs,
    location: i32,
    kind: u32,
    count: i32,
    payload: &[u8],
) -> Result<(), AllocError>
    requires given { plain.is_given_kind kind ≡ true }
    requires size { length payload.now ≡ plain.uniform_needed kind count }
    requires taken { plain.uniform_refusal (tables programs.old).installed location kind count false payload.now ≡ None }
    ensures ok { OnOk result (tables programs.new ≡ plain.uniform_effect (tables programs.old) location kind count payload.now) }
{
    match programs.set_uniform(location, kind, count, payload) {
        Ok(()) => Ok(()),
        Err(ProgramRefusal::NoMemory) => Err(AllocError),
        Err(ProgramRefusal::Gl(_)) => unreachable!(),
    }
}

/// Uniform: the elements from a location on, of the executable that is in use, get the values that the command's data is. The location -1
/// is ignored, and makes no driver call.
pub fn uniform<D: Driver>(
    programs: &mut Programs,
    location: i32,
    kind: u32,
    count: i32,
    payload: &[u8],
    driver: &mut D,
) -> Result<Reply, ExecStop>
    requires given { plain.is_given_kind kind ≡ true }
    requires size { length payload.now ≡ plain.uniform_needed kind count }
    requires taken { plain.uniform_refusal (tables programs.old).installed location kind count false payload.now ≡ None }
    requires may { MayMake (D.history driver.old).state (λ o. plain.uniform_calls location kind count payload.now) }
    ensures { (transpose : Bool) (words : words_of.DataWords) → Acts D.history D.grown (own_part (command.Uniform location kind count transpose words) payload.now) (programs_in programs.old) (programs_in programs.new) driver.old driver.new result }
{
    if location == -1 {
        set_uniform(programs, location, kind, count, payload)?;
        return Ok(Reply::None);
    }
    driver.uniform(location, kind, given_count(count), payload)?;
    set_uniform(programs, location, kind, count, payload)?;
    Ok(Reply::None)
}
