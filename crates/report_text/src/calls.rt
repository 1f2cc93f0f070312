//! A driver call and its answer as they are printed.
ghost use Rattle.std.specs.Prelude.{◌≡◌, ◌++◌, OnOk};
ghost use Rattle.gl_plain.specs.declared.driver_calls.DrawDriver.TheVariants.{DrawArrays, DrawElements};
ghost use Rattle.report_text.specs.Calls.{answer_text, call_text, drawing_text, object_text, outcome_text, program_text};

use crate::arguments::Argument;
use crate::image_calls::write_image;
use crate::values::{write_bytes, write_number};
use crate::words::write_named;
use Argument::{Data, Enum, Flag, Number, Patterns, Signed};
use gl_base::GlEnum;
use gl_plain::{Answer, DrawDriver, DriverCall, ObjectDriver, ProgramDriver};
use std::alloc::AllocError;

#[tactic(auto, unfolding(crate::specs::Calls::object_text))]
fn write_object(line: &mut Vec<u8>, call: &ObjectDriver) -> Result<(), AllocError>
    ensures { OnOk result (line.new.items ≡ line.old.items ++ object_text call.now) }
{
    match call {
        ObjectDriver::GenBuffer => write_named(line, "gen_buffer", &[]),
        ObjectDriver::BindBuffer { target, name } => {
            write_named(line, "bind_buffer", &[Enum(*target), Number(*name)])
        }
        ObjectDriver::BufferData {
            target,
            bytes,
            usage,
        } => write_named(
            line,
            "buffer_data",
            &[Enum(*target), Data(bytes.as_slice()), Enum(*usage)],
        ),
        ObjectDriver::BufferSubData {
            target,
            offset,
            bytes,
        } => write_named(
            line,
            "buffer_sub_data",
            &[Enum(*target), Signed(*offset), Data(bytes.as_slice())],
        ),
        ObjectDriver::DeleteBuffer { name } => {
            write_named(line, "delete_buffer", &[Number(*name)])
        }
        ObjectDriver::GenTexture => write_named(line, "gen_texture", &[]),
        ObjectDriver::BindTexture { target, name } => {
            write_named(line, "bind_texture", &[Enum(*target), Number(*name)])
        }
        ObjectDriver::DeleteTexture { name } => {
            write_named(line, "delete_texture", &[Number(*name)])
        }
        ObjectDriver::GenRenderbuffer => write_named(line, "gen_renderbuffer", &[]),
        ObjectDriver::BindRenderbuffer { name } => {
            write_named(line, "bind_renderbuffer", &[Number(*name)])
        }
        ObjectDriver::DeleteRenderbuffer { name } => {
            write_named(line, "delete_renderbuffer", &[Number(*name)])
        }
        ObjectDriver::GenFramebuffer => write_named(line, "gen_framebuffer", &[]),
        ObjectDriver::BindFramebuffer { name } => {
            write_named(line, "bind_framebuffer", &[Number(*name)])
        }
        ObjectDriver::DeleteFramebuffer { name } => {
            write_named(line, "delete_framebuffer", &[Number(*name)])
        }
        ObjectDriver::FramebufferTexture {
            attachment,
            textarget,
            name,
        } => write_named(
            line,
            "framebuffer_texture",
            &[Enum(*attachment), Enum(*textarget), Number(*name)],
        ),
        ObjectDriver::FramebufferRenderbuffer { attachment, name } => write_named(
            line,
            "framebuffer_renderbuffer",
            &[Enum(*attachment), Number(*name)],
        ),
        ObjectDriver::VertexAttrib4 { index, values } => write_named(
            line,
            "vertex_attrib_4",
            &[Number(u64::from(*index)), Patterns(values)],
        ),
        ObjectDriver::VertexAttribPointer {
            index,
            size,
            kind,
            normalized,
            stride,
            offset,
        } => write_named(
            line,
            "vertex_attrib_pointer",
            &[
                Number(u64::from(*index)),
                Signed(*size),
                Enum(*kind),
                Flag(*normalized),
                Signed(*stride),
                Number(u64::from(*offset)),
            ],
        ),
        ObjectDriver::SetArray { index, on } => write_named(
            line,
            "set_array",
            &[Number(u64::from(*index)), Flag(*on)],
        ),
    }
}

#[tactic(auto, unfolding(crate::specs::Calls::program_text))]
fn write_program(line: &mut Vec<u8>, call: &ProgramDriver) -> Result<(), AllocError>
    ensures { OnOk result (line.new.items ≡ line.old.items ++ program_text call.now) }
{
    match call {
        ProgramDriver::CreateShader { kind } => {
            write_named(line, "create_shader", &[Enum(*kind)])
        }
        ProgramDriver::CreateProgram => write_named(line, "create_program", &[]),
        ProgramDriver::DeleteShader { name } => {
            write_named(line, "delete_shader", &[Number(*name)])
        }
        ProgramDriver::DeleteProgram { name } => {
            write_named(line, "delete_program", &[Number(*name)])
        }
        ProgramDriver::ShaderSource { name, bytes } => write_named(
            line,
            "shader_source",
            &[Number(*name), Data(bytes.as_slice())],
        ),
        ProgramDriver::CompileShader { name } => {
            write_named(line, "compile_shader", &[Number(*name)])
        }
        ProgramDriver::AttachShader { program, shader } => {
            write_named(line, "attach_shader", &[Number(*program), Number(*shader)])
        }
        ProgramDriver::DetachShader { program, shader } => {
            write_named(line, "detach_shader", &[Number(*program), Number(*shader)])
        }
        ProgramDriver::BindAttribLocation {
            program,
            index,
            name,
        } => write_named(
            line,
            "bind_attrib_location",
            &[
                Number(*program),
                Number(u64::from(*index)),
                Data(name.as_slice()),
            ],
        ),
        ProgramDriver::LinkProgram { name } => {
            write_named(line, "link_program", &[Number(*name)])
        }
        ProgramDriver::ValidateProgram { name } => {
            write_named(line, "validate_program", &[Number(*name)])
        }
        ProgramDriver::UseProgram { name } => write_named(line, "use_program", &[Number(*name)]),
        ProgramDriver::Uniform {
            location,
            kind,
            count,
            bytes,
        } => write_named(
            line,
            "uniform",
            &[
                Signed(*location),
                Number(u64::from(*kind)),
                Signed(*count),
                Data(bytes.as_slice()),
            ],
        ),
    }
}

#[tactic(auto, unfolding(crate::specs::Calls::drawing_text))]
fn write_draw_arrays(
    line: &mut Vec<u8>,
    mode: GlEnum,
    first: i32,
    count: i32,
    black: u32,
) -> Result<(), AllocError>
    ensures { OnOk result (line.new.items ≡ line.old.items ++ drawing_text (DrawArrays mode first count black)) }
{
    write_named(
        line,
        "draw_arrays",
        &[
            Enum(mode),
            Signed(first),
            Signed(count),
            Number(u64::from(black)),
        ],
    )
}

#[tactic(auto, unfolding(crate::specs::Calls::drawing_text))]
fn write_draw_elements(
    line: &mut Vec<u8>,
    mode: GlEnum,
    count: i32,
    kind: GlEnum,
    offset: u32,
    black: u32,
) -> Result<(), AllocError>
    ensures { OnOk result (line.new.items ≡ line.old.items ++ drawing_text (DrawElements mode count kind offset black)) }
{
    write_named(
        line,
        "draw_elements",
        &[
            Enum(mode),
            Signed(count),
            Enum(kind),
            Number(u64::from(offset)),
            Number(u64::from(black)),
        ],
    )
}

#[tactic(auto, unfolding(crate::specs::Calls::drawing_text))]
fn write_drawing(line: &mut Vec<u8>, call: &DrawDriver) -> Result<(), AllocError>
    ensures { OnOk result (line.new.items ≡ line.old.items ++ drawing_text call.now) }
{
    match call {
        DrawDriver::ActiveTexture { unit } => {
            write_named(line, "active_texture", &[Number(u64::from(*unit))])
        }
        DrawDriver::SetRaster { number, words } => write_named(
            line,
            "set_raster",
            &[Number(u64::from(*number)), Patterns(words.as_slice())],
        ),
        DrawDriver::Clear { mask } => write_named(line, "clear", &[Number(u64::from(*mask))]),
        DrawDriver::DrawArrays {
            mode,
            first,
            count,
            black,
        } => write_draw_arrays(line, *mode, *first, *count, *black),
        DrawDriver::DrawElements {
            mode,
            count,
            kind,
            offset,
            black,
        } => write_draw_elements(line, *mode, *count, *kind, *offset, *black),
    }
}

/// Writes the name of a call and its arguments.
#[tactic(auto, unfolding(crate::specs::Calls::call_text))]
pub fn write_call(line: &mut Vec<u8>, call: &DriverCall) -> Result<(), AllocError>
    ensures { OnOk result (line.new.items ≡ line.old.items ++ call_text call.now) }
{
    match call {
        DriverCall::Object(call) => write_object(line, call),
        DriverCall::Image(call) => write_image(line, call),
        DriverCall::Program(call) => write_program(line, call),
        DriverCall::Draw(call) => write_drawing(line, call),
    }
}

/// Writes whether it went well.
fn write_outcome(line: &mut Vec<u8>, ok: bool) -> Result<(), AllocError>
    ensures { OnOk result (line.new.items ≡ line.old.items ++ outcome_text ok) }
{
    if ok {
        line.extend_from_slice(b" -> ok")
    } else {
        line.extend_from_slice(b" -> fail")
    }
}

/// Writes what an answer adds to the line of its call.
#[tactic(auto, unfolding(crate::specs::Calls::answer_text))]
pub fn write_answer(line: &mut Vec<u8>, answer: &Answer) -> Result<(), AllocError>
    ensures { OnOk result (line.new.items ≡ line.old.items ++ answer_text answer.now) }
{
    match answer {
        Answer::Done => Ok(()),
        Answer::Name(name) => {
            line.extend_from_slice(b" -> ")?;
            write_number(line, *name)
        }
        Answer::Oom => line.extend_from_slice(b" -> oom"),
        Answer::Compile { ok, log: _ } => write_outcome(line, *ok),
        Answer::Link(answer) => write_outcome(line, answer.ok),
        Answer::Validate { ok, log: _ } => write_outcome(line, *ok),
        Answer::Pixels(bytes) => {
            line.extend_from_slice(b" -> ")?;
            write_bytes(line, bytes.as_slice())
        }
    }
}
