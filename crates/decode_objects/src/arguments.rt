//! The argument rules of the commands on objects, other than those on data in a bucket.
ghost use Rattle.std.specs.Prelude.{◌≡◌};
ghost use Rattle.buffer_mgr.specs.Tables.{tables};
ghost use Rattle.texture_mgr.specs.Tables as textures_as;
ghost use Rattle.program_mgr.specs.Tables as programs_as;
ghost use Rattle.gl_plain.specs.State.{EsState};
ghost use Rattle.gl_plain.specs.subjects.Buffers as plain;
ghost use Rattle.gl_plain.specs.subjects.Data as words_of;
ghost use Rattle.std.specs.FinMap as map;
ghost use Rattle.target_mgr.specs.Tables.{renderbuffers, framebuffers};
ghost use Rattle.gl_plain.specs.subjects.Names.{Names, gen_is_bad, bind_is_bad};
ghost use Rattle.gl_plain.specs.subjects.Programs as programs_of;
ghost use Rattle.gl_plain.specs.subjects.Uniforms as uniforms;
ghost use Rattle.gl_plain.specs.object.Arguments.{object_is_bad};

use buffer_mgr::Buffers;
use gl_base::limits::DATA_LIMIT;
use gl_base::{is_ordinary, is_reserved};
use gl_plain::{DataWords, Name, ObjectCommand};
use program_mgr::{Programs, is_given_kind, uniform_needed};
use target_mgr::Targets;
use texture_mgr::Textures;

/// Whether GenBuffers may not give this id: it is none that may be given, or it is in use.
fn gen_buffers_is_bad(buffers: &Buffers, id: u32) -> bool
    ensures { result ≡ plain.gen_buffers_is_bad (tables buffers.now).names id }
{
    !(is_ordinary(id) || is_reserved(id)) || buffers.name(id).is_some()
}

/// Whether BindBuffer may not name this id.
fn bind_buffer_is_bad(id: u32) -> bool
    ensures { result ≡ plain.bind_buffer_is_bad id }
{
    !(id == 0 || is_ordinary(id) || is_reserved(id))
}

/// How many bytes BufferData and BufferSubData need: none for a size that is refused.
fn data_needed(size: i32) -> u32
    ensures { result ≡ words_of.data_needed size }
{
    if size < 0 || size as u32 > DATA_LIMIT {
        0
    } else {
        size as u32
    }
}

/// Whether the words of BufferData are neither those of no data nor those of as many bytes as it needs.
fn buffer_data_is_bad(size: i32, words: DataWords) -> bool
    ensures { result ≡ plain.buffer_data_is_bad size words }
{
    !(words.has_no_data() || words.has_needed_data(data_needed(size)))
}

/// Whether the words of BufferSubData are neither those of as many bytes as it needs nor, where it needs none, those of no data.
fn buffer_sub_data_is_bad(size: i32, words: DataWords) -> bool
    ensures { result ≡ plain.buffer_sub_data_is_bad size words }
{
    !words.has_just_needed_data(data_needed(size))
}

/// Whether a Gen of textures, renderbuffers or framebuffers may not give this id, by what its table has of it: it is none that may be given, or it
/// is in use.
fn gen_is_bad(id: u32, found: Option<Name>) -> bool
    ensures { (names : Names) → found ≡ map.get names id → result ≡ gen_is_bad names id }
{
    !is_ordinary(id) || found.is_some()
}

/// Whether a Bind of them may not name this id.
fn bind_is_bad(id: u32) -> bool
    ensures { result ≡ bind_is_bad id }
{
    !(id == 0 || is_ordinary(id))
}

/// Whether CreateShader and CreateProgram may not give this id: it is none that may be given, or it is in use.
fn create_is_bad(programs: &Programs, id: u32) -> bool
    ensures { result ≡ programs_of.create_is_bad (programs_as.tables programs.now).names id }
{
    !is_ordinary(id) || programs.name(id).is_some()
}

/// Whether Uniform is given a kind that is none, or other than as many bytes as it needs.
fn uniform_is_bad(kind: u32, count: i32, words: DataWords) -> bool
    ensures { result ≡ uniforms.uniform_is_bad kind count words }
{
    !(is_given_kind(kind) && words.has_just_needed_data(uniform_needed(kind, count)))
}

/// Whether an argument rule of the command is broken.
pub fn is_malformed(
    buffers: &Buffers,
    textures: &Textures,
    targets: &Targets,
    programs: &Programs,
    command: ObjectCommand,
) -> bool
    ensures { (s : EsState) → result ≡ object_is_bad (record s { buffers = tables buffers.now; textures = textures_as.tables textures.now; renderbuffers = renderbuffers targets.now; framebuffers = framebuffers targets.now; programs = programs_as.tables programs.now }) command }
{
    match command {
        ObjectCommand::GenBuffers { id } => gen_buffers_is_bad(buffers, id),
        ObjectCommand::BindBuffer { target: _, id } => bind_buffer_is_bad(id),
        ObjectCommand::BufferData { size, words, .. } => buffer_data_is_bad(size, words),
        ObjectCommand::BufferSubData { size, words, .. } => buffer_sub_data_is_bad(size, words),
        ObjectCommand::GenTextures { id } => gen_is_bad(id, textures.name(id)),
        ObjectCommand::GenRenderbuffers { id } => gen_is_bad(id, targets.renderbuffer_name(id)),
        ObjectCommand::GenFramebuffers { id } => gen_is_bad(id, targets.framebuffer_name(id)),
        ObjectCommand::BindTexture { target: _, id }
        | ObjectCommand::BindRenderbuffer { target: _, id }
        | ObjectCommand::BindFramebuffer { target: _, id } => bind_is_bad(id),
        ObjectCommand::CreateShader { id, kind: _ } | ObjectCommand::CreateProgram { id } => {
            create_is_bad(programs, id)
        }
        ObjectCommand::ShaderSource { words, .. }
        | ObjectCommand::BindAttribLocation { words, .. } => {
            !words.has_just_needed_data(words.count)
        }
        ObjectCommand::Uniform {
            kind,
            count,
            words,
            ..
        } => uniform_is_bad(kind, count, words),
        ObjectCommand::DeleteBuffers { .. }
        | ObjectCommand::DeleteTextures { .. }
        | ObjectCommand::DeleteRenderbuffers { .. }
        | ObjectCommand::DeleteFramebuffers { .. }
        | ObjectCommand::FramebufferTexture2D { .. }
        | ObjectCommand::FramebufferRenderbuffer { .. }
        | ObjectCommand::VertexAttrib4f { .. }
        | ObjectCommand::VertexAttribPointer { .. }
        | ObjectCommand::EnableVertexAttribArray { .. }
        | ObjectCommand::DisableVertexAttribArray { .. }
        | ObjectCommand::CompileShader { .. }
        | ObjectCommand::DeleteShader { .. }
        | ObjectCommand::AttachShader { .. }
        | ObjectCommand::DetachShader { .. }
        | ObjectCommand::LinkProgram { .. }
        | ObjectCommand::ValidateProgram { .. }
        | ObjectCommand::UseProgram { .. }
        | ObjectCommand::DeleteProgram { .. } => false,
    }
}
