//! The commands on shaders and programs (OpenGL ES 2.0.25, section 2.10). Each relies on its argument rule and its refusal having been tested.
ghost use Rattle.std.specs.Prelude.{◌≡◌, [], None, false, OnOk};
ghost use Rattle.std.specs.FinMap as map;
ghost use Rattle.svc_names.specs.Answers.{is_full_for};
ghost use Rattle.program_mgr.specs.Tables.{tables};
ghost use Rattle.gl_plain.specs.subjects.Programs as plain;
ghost use Rattle.gl_plain.specs.driver.Allowed.{IsAllowed};
ghost use Rattle.gl_plain.specs.declared.commands.DataWords as words_of;
ghost use Rattle.gl_plain.specs.declared.commands.ObjectCommand.TheVariants as command;
ghost use Rattle.gl_plain.specs.declared.driver_calls.DriverCall.TheVariants.{Program};
ghost use Rattle.gl_plain.specs.declared.driver_calls.ProgramDriver.TheVariants as calls;
ghost use Rattle.gl_plain.specs.object.Calls.{delete_object_calls};
ghost use Rattle.gl_driver.specs.Performed.{Acts};
ghost use Rattle.decode_objects.specs.States.{own_part, programs_in};
ghost use Rattle.decode_objects.specs.Ready.{MayMake};

use gl_base::GlEnum;
use gl_driver::Driver;
use gl_plain::{Bytes, ExecStop, Reply};
use program_mgr::Programs;
use std::alloc::{AllocError, Global};
use svc_names::NameRefusal;

/// Brings an id into use for a new shader, which is free, and for which there is room.
fn add_shader(programs: &mut Programs, id: u32, number: u64, kind: GlEnum) -> Result<(), AllocError>
    requires free { map.get (tables programs.old).names id ≡ None }
    requires room { is_full_for (tables programs.old).names id ≡ false }
    ensures ok { OnOk result (tables programs.new ≡ plain.create_shader_effect (tables programs.old) id number kind) }
{
    match programs.create_shader(id, number, kind) {
        Ok(()) => Ok(()),
        Err(NameRefusal::NoMemory(_)) => Err(AllocError),
        Err(NameRefusal::InUse(_) | NameRefusal::Full(_)) => unreachable!(),
    }
}

/// Brings an id into use for a new program, which is free, and for which there is room.
fn add_program(programs: &mut Programs, id: u32, number: u64) -> Result<(), AllocError>
    requires free { map.get (tables programs.old).names id ≡ None }
    requires room { is_full_for (tables programs.old).names id ≡ false }
    ensures ok { OnOk result (tables programs.new ≡ plain.create_program_effect (tables programs.old) id number) }
{
    match programs.create_program(id, number) {
        Ok(()) => Ok(()),
        Err(NameRefusal::NoMemory(_)) => Err(AllocError),
        Err(NameRefusal::InUse(_) | NameRefusal::Full(_)) => unreachable!(),
    }
}

/// CreateShader: a shader is there under the id that the client gives, with a new name of the driver's. The reply is the id.
pub fn create_shader<D: Driver>(
    programs: &mut Programs,
    id: u32,
    kind: GlEnum,
    driver: &mut D,
) -> Result<Reply, ExecStop>
    requires fair { plain.create_is_bad (tables programs.old).names id ≡ false }
    requires taken { plain.create_shader_refusal (tables programs.old) kind ≡ None }
    ensures { Acts D.history D.grown (own_part (command.CreateShader id kind) []) (programs_in programs.old) (programs_in programs.new) driver.old driver.new result }
{
    let number = driver.create_shader(kind)?;
    add_shader(programs, id, number, kind)?;
    Ok(Reply::Word(id))
}

/// CreateProgram: a program is there under the id that the client gives, with a new name of the driver's. The reply is the id.
pub fn create_program<D: Driver>(
    programs: &mut Programs,
    id: u32,
    driver: &mut D,
) -> Result<Reply, ExecStop>
    requires fair { plain.create_is_bad (tables programs.old).names id ≡ false }
    requires taken { plain.create_program_refusal (tables programs.old) ≡ None }
    ensures { Acts D.history D.grown (own_part (command.CreateProgram id) []) (programs_in programs.old) (programs_in programs.new) driver.old driver.new result }
{
    let number = driver.create_program()?;
    add_program(programs, id, number)?;
    Ok(Reply::Word(id))
}

/// ShaderSource: the shader gets the command's data as its source.
pub fn shader_source<D: Driver>(
    alloc: Global,
    programs: &mut Programs,
    shader: u32,
    payload: &[u8],
    driver: &mut D,
) -> Result<Reply, ExecStop>
    requires { IsAllowed (D.history driver.old).state (Program (calls.ShaderSource (plain.number_of (tables programs.old) shader) payload.now)) }
    ensures { (words : words_of.DataWords) → Acts D.history D.grown (own_part (command.ShaderSource shader words) payload.now) (programs_in programs.old) (programs_in programs.new) driver.old driver.new result }
{
    let number = programs.number(shader);
    let source = Bytes::from_slice(alloc, payload)?;
    driver.shader_source(number, payload)?;
    programs.set_source(number, source);
    Ok(Reply::None)
}

/// CompileShader: the shader keeps what the compiler says.
pub fn compile_shader<D: Driver>(
    programs: &mut Programs,
    shader: u32,
    driver: &mut D,
) -> Result<Reply, ExecStop>
    requires { IsAllowed (D.history driver.old).state (Program (calls.CompileShader (plain.number_of (tables programs.old) shader))) }
    ensures { Acts D.history D.grown (own_part (command.CompileShader shader) []) (programs_in programs.old) (programs_in programs.new) driver.old driver.new result }
{
    let number = programs.number(shader);
    let (ok, log) = driver.compile_shader(number)?;
    programs.set_compiled(number, ok, log);
    Ok(Reply::None)
}

/// DeleteShader: the shader goes, or is marked where it is attached. 0 changes nothing, and makes no driver call.
pub fn delete_shader<D: Driver>(
    programs: &mut Programs,
    shader: u32,
    driver: &mut D,
) -> Result<Reply, ExecStop>
    requires may { MayMake (D.history driver.old).state (λ o. delete_object_calls (λ n. Program (calls.DeleteShader n)) (tables programs.old) shader) }
    ensures { Acts D.history D.grown (own_part (command.DeleteShader shader) []) (programs_in programs.old) (programs_in programs.new) driver.old driver.new result }
{
    if shader == 0 {
        return Ok(Reply::None);
    }
    let number = programs.number(shader);
    driver.delete_shader(number)?;
    programs.delete_shader(number);
    Ok(Reply::None)
}

/// DeleteProgram: the program goes, or is marked where it is current. 0 changes nothing, and makes no driver call.
pub fn delete_program<D: Driver>(
    programs: &mut Programs,
    program: u32,
    driver: &mut D,
) -> Result<Reply, ExecStop>
    requires may { MayMake (D.history driver.old).state (λ o. delete_object_calls (λ n. Program (calls.DeleteProgram n)) (tables programs.old) program) }
    ensures { Acts D.history D.grown (own_part (command.DeleteProgram program) []) (programs_in programs.old) (programs_in programs.new) driver.old driver.new result }
{
    if program == 0 {
        return Ok(Reply::None);
    }
    let number = programs.number(program);
    driver.delete_program(number)?;
    programs.delete_program(number);
    Ok(Reply::None)
}
