//! What the queries answer whose answer is words (OpenGL ES 2.0.25, chapter 6).
ghost use Rattle.std.specs.Prelude.{◌≡◌, IfOk, None};
ghost use Rattle.gl_plain.specs.declared.calls.Reply.TheVariants as reply;
ghost use Rattle.gl_plain.specs.State.{EsState, sources_of};
ghost use Rattle.gl_plain.specs.subjects.Draws as draws;
ghost use Rattle.gl_plain.specs.subjects.Targets as targets;
ghost use Rattle.gl_plain.specs.query.Words as d;
ghost use Rattle.decode_query.specs.States.{asked_in};

use crate::asked::Asked;
use crate::attributes::get_vertex_attrib;
use crate::parameters::{attachment_parameter, buffer_parameter, renderbuffer_parameter};
use crate::programs::{program_parameter, shader_parameter};
use crate::uniforms::get_uniform;
use crate::values::get_value;
use arrayvec::ArrayVec;
use gl_base::enums::ELEMENT_ARRAY_BUFFER;
use gl_plain::{IndexKind, Name, ObjectKind, Reply, WordQuery, Words};
use std::alloc::{AllocError, Global};
use whole_images::target_status;

/// Whether an object of this name is there.
fn is_made(name: Option<Name>) -> bool
    ensures { result ≡ targets.is_made name }
{
    match name {
        Some(name) => name.is_object,
        None => false,
    }
}

/// Whether the name is that of an object of this kind. One that was only given by Gen is none yet.
fn is_object_named(asked: Asked<'_>, kind: ObjectKind, name: u32) -> bool
    ensures { (s : EsState) → result ≡ d.is_object_named (asked_in asked.entry s) kind name }
{
    match kind {
        ObjectKind::Buffer => is_made(asked.buffers.name(name)),
        ObjectKind::Texture => is_made(asked.textures.name(name)),
        ObjectKind::Renderbuffer => is_made(asked.targets.renderbuffer_name(name)),
        ObjectKind::Framebuffer => is_made(asked.targets.framebuffer_name(name)),
        ObjectKind::Shader => asked.programs.shader(name).is_some(),
        ObjectKind::Program => asked.programs.program(name).is_some(),
    }
}

/// The greatest of so many indices of the buffer of indices, or none.
fn max_index(asked: Asked<'_>, offset: u32, count: u32, kind: IndexKind) -> Option<u32>
    ensures { (s : EsState) → result ≡ draws.max_index (draws.element_bytes (sources_of (asked_in asked.entry s))) offset count (d.index_enum kind) }
{
    match asked.buffers.bound(ELEMENT_ARRAY_BUFFER) {
        Some(buffer) => buffer.max_index(offset, count, kind.to_enum()),
        None => None,
    }
}

/// These words as a reply.
fn words_reply(alloc: Global, words: ArrayVec<u32, 4>) -> Result<Reply, AllocError>
    ensures { IfOk result (λ r. r ≡ reply.Words words.items) }
{
    let words = Words::from_slice(alloc, words.as_slice())?;
    Ok(Reply::Words(words))
}

/// What a query answers, where it is not refused.
pub fn word_query_reply(
    alloc: Global,
    asked: Asked<'_>,
    query: WordQuery,
) -> Result<Reply, AllocError>
    requires taken { (s : EsState) → d.word_query_refusal (asked_in asked s) query ≡ None }
    ensures { IfOk result (λ r. (s : EsState) → r ≡ d.word_query_reply (asked_in asked.entry s) query) }
{
    let word = match query {
        WordQuery::GetValue { form, pname } => {
            return Ok(Reply::Words(get_value(alloc, asked, form, pname)?));
        }
        WordQuery::GetVertexAttrib {
            index,
            pname,
            float,
        } => {
            let words = get_vertex_attrib(asked.buffers, asked.attribs, index, pname, float);
            return words_reply(alloc, words);
        }
        WordQuery::GetUniform {
            program,
            location,
            float,
        } => {
            let words = get_uniform(alloc, asked.programs, program, location, float)?;
            return Ok(Reply::Words(words));
        }
        WordQuery::GetMaxIndex {
            offset,
            count,
            kind,
        } => match max_index(asked, offset, count, kind) {
            Some(index) => index,
            None => return Ok(Reply::None),
        },
        WordQuery::CheckFramebufferStatus { .. } => {
            target_status(asked.textures, asked.targets, asked.targets.target())
        }
        WordQuery::GetBufferParameteriv { target, pname } => {
            buffer_parameter(asked.buffers, target, pname)
        }
        WordQuery::GetTexParameteriv { target, pname } => asked.textures.parameter(target, pname),
        WordQuery::GetRenderbufferParameteriv { pname, .. } => {
            renderbuffer_parameter(asked.targets, pname)
        }
        WordQuery::GetFramebufferAttachmentParameteriv {
            attachment,
            pname,
            ..
        } => attachment_parameter(asked.textures, asked.targets, attachment, pname),
        WordQuery::GetShaderiv { shader, pname } => {
            shader_parameter(asked.programs, shader, pname)
        }
        WordQuery::GetProgramiv { program, pname } => {
            program_parameter(asked.programs, program, pname)
        }
        WordQuery::IsObject { kind, name } => u32::from(is_object_named(asked, kind, name)),
    };
    Ok(Reply::Word(word))
}
