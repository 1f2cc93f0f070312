//! The commands that attach shaders to programs, and link and use programs (OpenGL ES 2.0.25, sections 2.10.3 and 2.10.4). Each relies on
//! its refusal having been tested.
ghost use Rattle.std.specs.Prelude.{◌≡◌, [], None, IsTrue, OnOk};
ghost use Rattle.program_mgr.specs.Tables.{tables};
ghost use Rattle.gl_plain.specs.subjects.Links.{is_sound_link};
ghost use Rattle.gl_plain.specs.subjects.Programs as plain;
ghost use Rattle.gl_plain.specs.driver.Allowed.{IsAllowed};
ghost use Rattle.gl_plain.specs.declared.commands.DataWords as words_of;
ghost use Rattle.gl_plain.specs.declared.commands.ObjectCommand.TheVariants as command;
ghost use Rattle.gl_plain.specs.declared.driver_calls.DriverCall.TheVariants.{Program};
ghost use Rattle.gl_plain.specs.declared.driver_calls.ProgramDriver.TheVariants as calls;
ghost use Rattle.gl_plain.specs.object.Calls.{link_program_calls, validate_program_calls};
ghost use Rattle.gl_driver.specs.Performed.{Acts};
ghost use Rattle.decode_objects.specs.States.{own_part, programs_in};
ghost use Rattle.decode_objects.specs.Ready.{MayMake};

use gl_driver::Driver;
use gl_plain::{AttributeList, Bytes, ExecStop, LinkAnswer, Reply, UniformList};
use program_mgr::{ProgramRefusal, Programs};
use std::alloc::{AllocError, Global};

/// Attaches a shader that may be attached.
fn attach(programs: &mut Programs, program: u32, shader: u32) -> Result<(), AllocError>
    requires taken { plain.attach_shader_refusal (tables programs.old) program shader ≡ None }
    ensures ok { OnOk result (tables programs.new ≡ plain.attach_shader_effect (tables programs.old) (plain.number_of (tables programs.old) program) (plain.number_of (tables programs.old) shader)) }
{
    match programs.attach(program, shader) {
        Ok(()) => Ok(()),
        Err(ProgramRefusal::NoMemory) => Err(AllocError),
        Err(ProgramRefusal::Gl(_)) => unreachable!(),
    }
}

/// AttachShader: the shader is attached behind those that are.
pub fn attach_shader<D: Driver>(
    programs: &mut Programs,
    program: u32,
    shader: u32,
    driver: &mut D,
) -> Result<Reply, ExecStop>
    requires taken { plain.attach_shader_refusal (tables programs.old) program shader ≡ None }
    requires allowed { IsAllowed (D.history driver.old).state (Program (calls.AttachShader (plain.number_of (tables programs.old) program) (plain.number_of (tables programs.old) shader))) }
    ensures { Acts D.history D.grown (own_part (command.AttachShader program shader) []) (programs_in programs.old) (programs_in programs.new) driver.old driver.new result }
{
    driver.attach_shader(programs.number(program), programs.number(shader))?;
    attach(programs, program, shader)?;
    Ok(Reply::None)
}

/// Detaches a shader that may be detached.
fn detach(programs: &mut Programs, program: u32, shader: u32) -> Result<(), AllocError>
    requires taken { plain.detach_shader_refusal (tables programs.old) program shader ≡ None }
    ensures ok { OnOk result (tables programs.new ≡ plain.detach_shader_effect (tables programs.old) (plain.number_of (tables programs.old) program) (plain.number_of (tables programs.old) shader)) }
{
    match programs.detach(program, shader) {
        Ok(()) => Ok(()),
        Err(ProgramRefusal::NoMemory) => Err(AllocError),
        Err(ProgramRefusal::Gl(_)) => unreachable!(),
    }
}

/// DetachShader: the shader is attached no more, and goes where it was marked for deletion and no other program has it attached.
pub fn detach_shader<D: Driver>(
    programs: &mut Programs,
    program: u32,
    shader: u32,
    driver: &mut D,
) -> Result<Reply, ExecStop>
    requires taken { plain.detach_shader_refusal (tables programs.old) program shader ≡ None }
    requires allowed { IsAllowed (D.history driver.old).state (Program (calls.DetachShader (plain.number_of (tables programs.old) program) (plain.number_of (tables programs.old) shader))) }
    ensures { Acts D.history D.grown (own_part (command.DetachShader program shader) []) (programs_in programs.old) (programs_in programs.new) driver.old driver.new result }
{
    driver.detach_shader(programs.number(program), programs.number(shader))?;
    detach(programs, program, shader)?;
    Ok(Reply::None)
}

/// BindAttribLocation: from the next link on the attribute whose name the command's data is gets this location.
pub fn bind_attrib_location<D: Driver>(
    programs: &mut Programs,
    program: u32,
    index: u32,
    payload: &[u8],
    driver: &mut D,
) -> Result<Reply, ExecStop>
    requires { IsAllowed (D.history driver.old).state (Program (calls.BindAttribLocation (plain.number_of (tables programs.old) program) index payload.now)) }
    ensures { (words : words_of.DataWords) → Acts D.history D.grown (own_part (command.BindAttribLocation program index words) payload.now) (programs_in programs.old) (programs_in programs.new) driver.old driver.new result }
{
    let number = programs.number(program);
    driver.bind_attrib_location(number, index, payload)?;
    programs.bind_attrib_location(number, index, payload);
    Ok(Reply::None)
}

/// A program's link ends as the answer says.
fn set_link(programs: &mut Programs, program: u32, answer: LinkAnswer) -> Result<(), AllocError>
    requires taken { plain.program_refusal (tables programs.old) program ≡ None }
    requires sound { IsTrue (is_sound_link answer) }
    ensures ok { OnOk result (tables programs.new ≡ plain.link_program_effect (tables programs.old) (plain.number_of (tables programs.old) program) answer) }
{
    match programs.set_link(program, answer) {
        Ok(()) => Ok(()),
        Err(ProgramRefusal::NoMemory) => Err(AllocError),
        Err(ProgramRefusal::Gl(_)) => unreachable!(),
    }
}

/// What a link without the two shaders answers: it fails with an empty log.
fn failed_link(alloc: Global) -> LinkAnswer
    ensures { result ≡ plain.failed_link }
{
    LinkAnswer {
        ok: false,
        log: Bytes::new(alloc),
        attributes: AttributeList::new(alloc),
        uniforms: UniformList::new(alloc),
    }
}

/// LinkProgram: the program is linked as the linker says. Without a compiled vertex shader and a compiled fragment shader the link fails,
/// and makes no driver call.
pub fn link_program<D: Driver>(
    alloc: Global,
    programs: &mut Programs,
    program: u32,
    driver: &mut D,
) -> Result<Reply, ExecStop>
    requires taken { plain.program_refusal (tables programs.old) program ≡ None }
    requires may { MayMake (D.history driver.old).state (λ o. link_program_calls (tables programs.old) (plain.number_of (tables programs.old) program) (plain.program_at (tables programs.old) program)) }
    ensures { Acts D.history D.grown (own_part (command.LinkProgram program) []) (programs_in programs.old) (programs_in programs.new) driver.old driver.new result }
{
    if !programs.can_link(program) {
        set_link(programs, program, failed_link(alloc))?;
        return Ok(Reply::None);
    }
    let answer = driver.link_program(programs.number(program))?;
    set_link(programs, program, answer)?;
    Ok(Reply::None)
}

/// ValidateProgram: the program keeps what the validation says. One that is not linked is not valid, and makes no driver call.
pub fn validate_program<D: Driver>(
    programs: &mut Programs,
    program: u32,
    driver: &mut D,
) -> Result<Reply, ExecStop>
    requires taken { plain.program_refusal (tables programs.old) program ≡ None }
    requires may { MayMake (D.history driver.old).state (λ o. validate_program_calls (plain.number_of (tables programs.old) program) (plain.program_at (tables programs.old) program)) }
    ensures { Acts D.history D.grown (own_part (command.ValidateProgram program) []) (programs_in programs.old) (programs_in programs.new) driver.old driver.new result }
{
    let number = programs.number(program);
    if !programs.is_linked(program) {
        programs.set_invalid(number);
        return Ok(Reply::None);
    }
    let (ok, log) = driver.validate_program(number)?;
    programs.set_validation(number, ok, log);
    Ok(Reply::None)
}

/// UseProgram: the program is current, or none is by 0. One that was current and is marked for deletion goes.
pub fn use_program<D: Driver>(
    programs: &mut Programs,
    program: u32,
    driver: &mut D,
) -> Result<Reply, ExecStop>
    requires { IsAllowed (D.history driver.old).state (Program (calls.UseProgram (plain.number_of (tables programs.old) program))) }
    ensures { Acts D.history D.grown (own_part (command.UseProgram program) []) (programs_in programs.old) (programs_in programs.new) driver.old driver.new result }
{
    let number = programs.number(program);
    driver.use_program(number)?;
    programs.use_program(number);
    Ok(Reply::None)
}
