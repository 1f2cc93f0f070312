//! The family call: a command on objects.
ghost use Rattle.std.specs.Prelude.{◌≡◌, Some};
ghost use Rattle.gl_plain.specs.Commands.{command_of};
ghost use Rattle.gl_plain.specs.Agreement.{AgreesIn};
ghost use Rattle.gl_plain.specs.object.Arguments.{IsObjectData};
ghost use Rattle.gl_plain.specs.declared.commands.Command as commands;
ghost use Rattle.gl_plain.specs.declared.commands.ObjectCommand as objects;
ghost use Rattle.gl_plain.specs.declared.commands.Command.TheVariants.{Object};
ghost use Rattle.gl_driver.specs.Performed.{Acts, IsLawful};
ghost use Rattle.decode_objects.specs.States.{objects_in, own_part};
ghost use Rattle.decode_objects.specs.Ready.{IsReady};

use crate::arguments::is_malformed;
use crate::attachments::{framebuffer_renderbuffer, framebuffer_texture_2d};
use crate::attributes::{
    disable_vertex_attrib_array, enable_vertex_attrib_array, vertex_attrib_4f,
    vertex_attrib_pointer,
};
use crate::buffers::{
    bind_buffer, buffer_data, buffer_sub_data, data_bytes, delete_buffers, gen_buffers,
};
use crate::framebuffers::{bind_framebuffer, delete_framebuffers, gen_framebuffers};
use crate::links::{
    attach_shader, bind_attrib_location, detach_shader, link_program, use_program, validate_program,
};
use crate::programs::{
    compile_shader, create_program, create_shader, delete_program, delete_shader, shader_source,
};
use crate::refusals::refusal;
use crate::renderbuffers::{bind_renderbuffer, delete_renderbuffers, gen_renderbuffers};
use crate::textures::{bind_texture, delete_textures, gen_textures};
use crate::uniforms::uniform;
use attrib_mgr::Attribs;
use buffer_mgr::Buffers;
use gl_driver::Driver;
use gl_plain::{Command, Errors, ExecStop, Fetched, Malformed, ObjectCommand, Reply};
use program_mgr::Programs;
use std::alloc::Global;
use target_mgr::Targets;
use texture_mgr::Textures;

/// A command that is neither malformed nor refused.
fn execute<D: Driver>(
    alloc: Global,
    buffers: &mut Buffers,
    textures: &mut Textures,
    targets: &mut Targets,
    programs: &mut Programs,
    attribs: &mut Attribs,
    errors: &mut Errors,
    payload: &[u8],
    command: ObjectCommand,
    driver: &mut D,
) -> Result<Reply, ExecStop>
    requires { IsReady command payload.now (objects_in buffers.old textures.old targets.old programs.old attribs.old errors.old) (D.history driver.old).state }
    ensures { Acts D.history D.grown (own_part command payload.now) (objects_in buffers.old textures.old targets.old programs.old attribs.old errors.old) (objects_in buffers.new textures.new targets.new programs.new attribs.new errors.new) driver.old driver.new result }
{
    match command {
        ObjectCommand::GenBuffers { id } => gen_buffers(buffers, id, driver),
        ObjectCommand::BindBuffer { target, id } => bind_buffer(buffers, target, id, driver),
        ObjectCommand::BufferData {
            target,
            size,
            usage,
            words,
        } => {
            let bytes = data_bytes(alloc, size, words, payload)?;
            buffer_data(buffers, errors, target, bytes, usage, driver)
        }
        ObjectCommand::BufferSubData { target, offset, .. } => {
            buffer_sub_data(buffers, target, offset, payload, driver)
        }
        ObjectCommand::DeleteBuffers { id } => delete_buffers(buffers, attribs, id, driver),
        ObjectCommand::GenTextures { id } => gen_textures(textures, id, driver),
        ObjectCommand::BindTexture { target, id } => bind_texture(textures, target, id, driver),
        ObjectCommand::DeleteTextures { id } => delete_textures(textures, targets, id, driver),
        ObjectCommand::GenRenderbuffers { id } => gen_renderbuffers(targets, id, driver),
        ObjectCommand::BindRenderbuffer { target, id } => {
            bind_renderbuffer(targets, target, id, driver)
        }
        ObjectCommand::DeleteRenderbuffers { id } => delete_renderbuffers(targets, id, driver),
        ObjectCommand::GenFramebuffers { id } => gen_framebuffers(targets, id, driver),
        ObjectCommand::BindFramebuffer { target, id } => {
            bind_framebuffer(targets, target, id, driver)
        }
        ObjectCommand::DeleteFramebuffers { id } => delete_framebuffers(targets, id, driver),
        ObjectCommand::FramebufferTexture2D {
            attachment,
            textarget,
            texture,
            ..
        } => framebuffer_texture_2d(textures, targets, attachment, textarget, texture, driver),
        ObjectCommand::FramebufferRenderbuffer {
            attachment,
            renderbuffer,
            ..
        } => framebuffer_renderbuffer(targets, attachment, renderbuffer, driver),
        ObjectCommand::VertexAttrib4f { index, x, y, z, w } => {
            vertex_attrib_4f(attribs, index, x, y, z, w, driver)
        }
        ObjectCommand::VertexAttribPointer { index, array } => {
            vertex_attrib_pointer(buffers, attribs, index, array, driver)
        }
        ObjectCommand::EnableVertexAttribArray { index } => {
            enable_vertex_attrib_array(attribs, index, driver)
        }
        ObjectCommand::DisableVertexAttribArray { index } => {
            disable_vertex_attrib_array(attribs, index, driver)
        }
        ObjectCommand::CreateShader { id, kind } => create_shader(programs, id, kind, driver),
        ObjectCommand::ShaderSource { shader, .. } => {
            shader_source(alloc, programs, shader, payload, driver)
        }
        ObjectCommand::CompileShader { shader } => compile_shader(programs, shader, driver),
        ObjectCommand::DeleteShader { shader } => delete_shader(programs, shader, driver),
        ObjectCommand::CreateProgram { id } => create_program(programs, id, driver),
        ObjectCommand::AttachShader { program, shader } => {
            attach_shader(programs, program, shader, driver)
        }
        ObjectCommand::DetachShader { program, shader } => {
            detach_shader(programs, program, shader, driver)
        }
        ObjectCommand::BindAttribLocation { program, index, .. } => {
            bind_attrib_location(programs, program, index, payload, driver)
        }
        ObjectCommand::LinkProgram { program } => link_program(alloc, programs, program, driver),
        ObjectCommand::ValidateProgram { program } => validate_program(programs, program, driver),
        ObjectCommand::UseProgram { program } => use_program(programs, program, driver),
        ObjectCommand::DeleteProgram { program } => delete_program(programs, program, driver),
        ObjectCommand::Uniform {
            location,
            kind,
            count,
            ..
        } => uniform(programs, location, kind, count, payload, driver),
    }
}

/// Executes a command on objects. Its data is the payload: what its bucket has, or else what came beside it. The rules on data in a bucket are
/// tested before. A malformed one makes no driver call and changes nothing. A refused one makes none either, and its code is recorded
/// (OpenGL ES 2.0.25, section 2.5).
pub fn execute_object<D: Driver>(
    alloc: Global,
    buffers: &mut Buffers,
    textures: &mut Textures,
    targets: &mut Targets,
    programs: &mut Programs,
    attribs: &mut Attribs,
    errors: &mut Errors,
    payload: &[u8],
    command: ObjectCommand,
    driver: &mut D,
) -> Result<Reply, ExecStop>
    requires given { IsObjectData command payload.now }
    requires agrees { AgreesIn (objects_in buffers.old textures.old targets.old programs.old attribs.old errors.old) (D.history driver.old).state }
    ensures { IsLawful D.history D.grown (Object command) payload.now (objects_in buffers.old textures.old targets.old programs.old attribs.old errors.old) (objects_in buffers.new textures.new targets.new programs.new attribs.new errors.new) driver.old driver.new result }
{
    if is_malformed(buffers, textures, targets, programs, command) {
        return Err(ExecStop::Bad(Malformed::InvalidArguments));
    }
    if let Some(error) = refusal(buffers, textures, targets, programs, command, payload) {
        errors.note(error);
        return Ok(Reply::None);
    }
    execute(
        alloc, buffers, textures, targets, programs, attribs, errors, payload, command, driver,
    )
}

/// Executes a command on objects as it was read. It does what `execute_object` does with the command that its words spell.
pub fn object_command<D: Driver>(
    alloc: Global,
    buffers: &mut Buffers,
    textures: &mut Textures,
    targets: &mut Targets,
    programs: &mut Programs,
    attribs: &mut Attribs,
    errors: &mut Errors,
    payload: &[u8],
    command: &Fetched,
    driver: &mut D,
) -> Result<Reply, ExecStop>
    requires family { (c : objects.ObjectCommand) × (command_of command.now ≡ Some (Object c)) × IsObjectData c payload.now }
    requires agrees { AgreesIn (objects_in buffers.old textures.old targets.old programs.old attribs.old errors.old) (D.history driver.old).state }
    ensures { (c : commands.Command) → command_of command.now ≡ Some c → IsLawful D.history D.grown c payload.now (objects_in buffers.old textures.old targets.old programs.old attribs.old errors.old) (objects_in buffers.new textures.new targets.new programs.new attribs.new errors.new) driver.old driver.new result }
{
    let Some(Command::Object(object)) = command.command() else {
        unreachable!();
    };
    execute_object(
        alloc, buffers, textures, targets, programs, attribs, errors, payload, object, driver,
    )
}
