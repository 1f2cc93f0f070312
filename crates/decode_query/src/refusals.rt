//! The refusals of the queries (OpenGL ES 2.0.25, section 4.3.1 and chapter 6).
ghost use Rattle.std.specs.Prelude.{◌≡◌, ◌≤◌};
ghost use Rattle.gl_plain.specs.State.{EsState, Surface};
ghost use Rattle.gl_plain.specs.query.Refusal.{query_command_refusal};
ghost use Rattle.gl_plain.specs.subjects.Copies as copies;
ghost use Rattle.whole_images.specs.Views.{drawable};
ghost use Rattle.gl_plain.specs.query.Words as words;
ghost use Rattle.decode_query.specs.States.{asked_in};

use crate::asked::Asked;
use crate::attributes::get_vertex_attrib_refusal;
use crate::bytes::byte_query_refusal;
use crate::colours::has_no_colours;
use crate::parameters::{
    attachment_parameter_refusal, buffer_parameter_refusal, get_tex_parameter_refusal,
    renderbuffer_parameter_refusal,
};
use crate::programs::{get_program_refusal, get_shader_refusal};
use crate::uniforms::get_uniform_refusal;
use crate::values::get_value_refusal;
use gl_base::GlEnum;
use gl_base::enums::UNSIGNED_BYTE;
use gl_base::target_enums::FRAMEBUFFER;
use gl_base::texture_enums::RGBA;
use gl_plain::{GlError, QueryCommand, ReadWords, WordQuery, is_format, is_pixel_kind, natural};
use image_cover::{image_bytes, pixel_bytes};
use target_mgr::Targets;
use texture_mgr::Textures;
use whole_images::is_incomplete;

/// Whether the pixels of a pair would have more bytes than the limit of data. A negative side, which is refused, counts as 0.
fn is_over_data_limit(pack: u32, words: ReadWords) -> bool
    requires { (1 ≤ pack) × (pack ≤ 8) }
    ensures { result ≡ copies.is_over_data_limit pack words }
{
    if pixel_bytes(words.format, words.kind).is_none() {
        return false;
    }
    image_bytes(
        natural(words.width),
        natural(words.height),
        words.format,
        words.kind,
        pack,
    )
    .is_none()
}

/// Whether the format and the type are those that can be read.
fn is_read_format(format: GlEnum, kind: GlEnum) -> bool
    ensures { result ≡ copies.is_read_format format kind }
{
    format == RGBA && kind == UNSIGNED_BYTE
}

/// The refusal of ReadPixels.
fn read_pixels_refusal(
    textures: &Textures,
    targets: &Targets,
    pack: u32,
    words: ReadWords,
) -> Option<GlError>
    requires { (1 ≤ pack) × (pack ≤ 8) }
    ensures { (surface : Surface) → result ≡ copies.read_pixels_refusal (drawable surface textures.now targets.now) pack words }
{
    if !(is_format(words.format) && is_pixel_kind(words.kind)) {
        return Some(GlError::InvalidEnum);
    }
    if words.width < 0 || words.height < 0 {
        return Some(GlError::InvalidValue);
    }
    if is_over_data_limit(pack, words) {
        return Some(GlError::OutOfMemory);
    }
    if is_incomplete(textures, targets) {
        return Some(GlError::InvalidFramebufferOperation);
    }
    if !is_read_format(words.format, words.kind)
        || has_no_colours(textures, targets, targets.target())
    {
        return Some(GlError::InvalidOperation);
    }
    None
}

/// The refusal of CheckFramebufferStatus.
fn status_refusal(target: GlEnum) -> Option<GlError>
    ensures { result ≡ words.status_refusal target }
{
    if target == FRAMEBUFFER {
        None
    } else {
        Some(GlError::InvalidEnum)
    }
}

/// The refusal of a query whose answer is words.
fn word_query_refusal(asked: Asked<'_>, query: WordQuery) -> Option<GlError>
    ensures { (s : EsState) → result ≡ words.word_query_refusal (asked_in asked.entry s) query }
{
    match query {
        WordQuery::GetValue { form, pname } => get_value_refusal(asked, form, pname),
        WordQuery::CheckFramebufferStatus { target } => status_refusal(target),
        WordQuery::GetBufferParameteriv { target, pname } => {
            buffer_parameter_refusal(asked.buffers, target, pname)
        }
        WordQuery::GetTexParameteriv { target, pname } => get_tex_parameter_refusal(target, pname),
        WordQuery::GetRenderbufferParameteriv { target, pname } => {
            renderbuffer_parameter_refusal(asked.targets, target, pname)
        }
        WordQuery::GetFramebufferAttachmentParameteriv {
            target,
            attachment,
            pname,
        } => attachment_parameter_refusal(asked.textures, asked.targets, target, attachment, pname),
        WordQuery::GetVertexAttrib {
            index,
            pname,
            float,
        } => get_vertex_attrib_refusal(index, pname, float),
        WordQuery::GetShaderiv { shader, pname } => {
            get_shader_refusal(asked.programs, shader, pname)
        }
        WordQuery::GetProgramiv { program, pname } => {
            get_program_refusal(asked.programs, program, pname)
        }
        WordQuery::GetUniform {
            program,
            location,
            float,
        } => get_uniform_refusal(asked.programs, program, location, float),
        WordQuery::IsObject { .. } | WordQuery::GetMaxIndex { .. } => None,
    }
}

/// The code that a query is refused with, if any.
pub fn refusal(asked: Asked<'_>, command: QueryCommand) -> Option<GlError>
    ensures { (s : EsState) → result ≡ query_command_refusal (asked_in asked.entry s) command }
{
    match command {
        QueryCommand::ReadPixels { words, bucket: _ } => read_pixels_refusal(
            asked.textures,
            asked.targets,
            asked.raster.pack_alignment(),
            words,
        ),
        QueryCommand::GetError => None,
        QueryCommand::Words(query) => word_query_refusal(asked, query),
        QueryCommand::Bytes { query, bucket: _ } => byte_query_refusal(asked.programs, query),
    }
}
