//! The queries, as their numbers and words spell them.
ghost use Rattle.std.specs.Prelude.{◌≡◌};
ghost use Rattle.gl_plain.specs.query.Commands as d;
ghost use Rattle.gl_plain.specs.Words as words_of;

use crate::numbers::{
    CHECK_FRAMEBUFFER_STATUS, GET_ATTACHED_SHADERS, GET_BUFFER_PARAMETERIV, GET_ERROR,
    GET_FRAMEBUFFER_ATTACHMENT_PARAMETERIV, GET_MAX_INDEX, GET_PROGRAM_INFO_LOG, GET_PROGRAM_TABLE,
    GET_PROGRAMIV, GET_RENDERBUFFER_PARAMETERIV, GET_SHADER_INFO_LOG, GET_SHADER_SOURCE,
    GET_SHADERIV, GET_TEX_PARAMETERIV, GET_UNIFORM, GET_VALUE, GET_VERTEX_ATTRIB, IS_OBJECT,
    READ_PIXELS,
};
use crate::spelling::word;
use crate::{ByteQuery, IndexKind, ObjectKind, QueryCommand, ReadWords, ValueForm, WordQuery};
use gl_base::GlEnum;
use gl_base::enums::{UNSIGNED_BYTE, UNSIGNED_SHORT};

/// The word at a place as an enum.
fn enum_word(words: &[u32], at: usize) -> GlEnum
    ensures { result ≡ words_of.enum_at words.now at }
{
    GlEnum(word(words, at))
}

/// A form of values, or none.
fn form_of(word: u32) -> Option<ValueForm>
    ensures { result ≡ d.form_of word }
{
    match word {
        0 => Some(ValueForm::Integer),
        1 => Some(ValueForm::Boolean),
        2 => Some(ValueForm::Float),
        _ => None,
    }
}

/// Whether a form of uniforms is floats, or none: uniforms are not given as booleans.
fn is_float_form(word: u32) -> Option<bool>
    ensures { result ≡ d.is_float_form word }
{
    match word {
        0 => Some(false),
        2 => Some(true),
        _ => None,
    }
}

/// A kind of objects, or none.
fn kind_of(word: u32) -> Option<ObjectKind>
    ensures { result ≡ d.kind_of word }
{
    match word {
        0 => Some(ObjectKind::Buffer),
        1 => Some(ObjectKind::Texture),
        2 => Some(ObjectKind::Renderbuffer),
        3 => Some(ObjectKind::Framebuffer),
        4 => Some(ObjectKind::Shader),
        5 => Some(ObjectKind::Program),
        _ => None,
    }
}

/// A kind of indices, or none.
fn index_kind_of(word: u32) -> Option<IndexKind>
    ensures { result ≡ d.index_kind_of word }
{
    match GlEnum(word) {
        UNSIGNED_BYTE => Some(IndexKind::UnsignedByte),
        UNSIGNED_SHORT => Some(IndexKind::UnsignedShort),
        _ => None,
    }
}

/// GetMaxIndex, which a negative count and a kind that is none of indices do not spell.
fn max_index(offset: u32, count: i32, kind: Option<IndexKind>) -> Option<WordQuery>
    ensures { result ≡ d.max_index_at offset count kind }
{
    if count < 0 {
        return None;
    }
    Some(WordQuery::GetMaxIndex {
        offset,
        count: count.cast_unsigned(),
        kind: kind?,
    })
}

/// The query of values, objects and uniforms that a number and words spell, or none.
fn formed_query(number: u32, words: &[u32]) -> Option<WordQuery>
    ensures { result ≡ d.formed_query_in number words.now }
{
    match number {
        GET_VALUE => Some(WordQuery::GetValue {
            form: form_of(word(words, 0))?,
            pname: enum_word(words, 1),
        }),
        GET_UNIFORM => Some(WordQuery::GetUniform {
            program: word(words, 0),
            location: word(words, 1).cast_signed(),
            float: is_float_form(word(words, 2))?,
        }),
        IS_OBJECT => Some(WordQuery::IsObject {
            kind: kind_of(word(words, 0))?,
            name: word(words, 1),
        }),
        GET_MAX_INDEX => max_index(
            word(words, 0),
            word(words, 1).cast_signed(),
            index_kind_of(word(words, 2)),
        ),
        _ => None,
    }
}

/// The query of state by its name that a number and words spell, or none.
fn parameter_query(number: u32, words: &[u32]) -> Option<WordQuery>
    ensures { result ≡ d.parameter_query_in number words.now }
{
    match number {
        CHECK_FRAMEBUFFER_STATUS => Some(WordQuery::CheckFramebufferStatus {
            target: enum_word(words, 0),
        }),
        GET_BUFFER_PARAMETERIV => Some(WordQuery::GetBufferParameteriv {
            target: enum_word(words, 0),
            pname: enum_word(words, 1),
        }),
        GET_TEX_PARAMETERIV => Some(WordQuery::GetTexParameteriv {
            target: enum_word(words, 0),
            pname: enum_word(words, 1),
        }),
        GET_RENDERBUFFER_PARAMETERIV => Some(WordQuery::GetRenderbufferParameteriv {
            target: enum_word(words, 0),
            pname: enum_word(words, 1),
        }),
        GET_FRAMEBUFFER_ATTACHMENT_PARAMETERIV => {
            Some(WordQuery::GetFramebufferAttachmentParameteriv {
                target: enum_word(words, 0),
                attachment: enum_word(words, 1),
                pname: enum_word(words, 2),
            })
        }
        GET_VERTEX_ATTRIB => Some(WordQuery::GetVertexAttrib {
            index: word(words, 0),
            pname: enum_word(words, 1),
            float: word(words, 2) != 0,
        }),
        GET_SHADERIV => Some(WordQuery::GetShaderiv {
            shader: word(words, 0),
            pname: enum_word(words, 1),
        }),
        GET_PROGRAMIV => Some(WordQuery::GetProgramiv {
            program: word(words, 0),
            pname: enum_word(words, 1),
        }),
        _ => None,
    }
}

/// The query of bytes that a number and words spell, or none.
fn byte_query(number: u32, words: &[u32]) -> Option<ByteQuery>
    ensures { result ≡ d.byte_query_in number words.now }
{
    let name = word(words, 0);
    match number {
        GET_SHADER_INFO_LOG => Some(ByteQuery::GetShaderInfoLog { shader: name }),
        GET_PROGRAM_INFO_LOG => Some(ByteQuery::GetProgramInfoLog { program: name }),
        GET_SHADER_SOURCE => Some(ByteQuery::GetShaderSource { shader: name }),
        GET_PROGRAM_TABLE => Some(ByteQuery::GetProgramTable { program: name }),
        GET_ATTACHED_SHADERS => Some(ByteQuery::GetAttachedShaders { program: name }),
        _ => None,
    }
}

/// The query that a number and words spell, or none.
pub fn query_command(number: u32, words: &[u32]) -> Option<QueryCommand>
    ensures { result ≡ d.query_command_in number words.now }
{
    match number {
        READ_PIXELS => {
            return Some(QueryCommand::ReadPixels {
                words: ReadWords::read(words),
                bucket: word(words, 6),
            });
        }
        GET_ERROR => return Some(QueryCommand::GetError),
        _ => {}
    }
    if let Some(query) = formed_query(number, words) {
        return Some(QueryCommand::Words(query));
    }
    if let Some(query) = parameter_query(number, words) {
        return Some(QueryCommand::Words(query));
    }
    match byte_query(number, words) {
        Some(query) => Some(QueryCommand::Bytes {
            query,
            bucket: word(words, 1),
        }),
        None => None,
    }
}
