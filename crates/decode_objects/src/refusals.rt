//! The refusals of the commands on objects.
ghost use Rattle.std.specs.Prelude.{◌≡◌, pos, false};
ghost use Rattle.std.specs.FinMap as map;
ghost use Rattle.std.specs.Int.{cast_signed, w32};
ghost use Rattle.gl_base.specs.Names.{is_over_limit};
ghost use Rattle.buffer_mgr.specs.Tables.{tables};
ghost use Rattle.texture_mgr.specs.Tables as textures_as;
ghost use Rattle.program_mgr.specs.Tables as programs_as;
ghost use Rattle.gl_plain.specs.Words.{is_negative};
ghost use Rattle.gl_plain.specs.State.{EsState};
ghost use Rattle.gl_base.specs.declared.target_enums.TheConstants.{FRAMEBUFFER, RENDERBUFFER};
ghost use Rattle.target_mgr.specs.Tables.{renderbuffers, framebuffers};
ghost use Rattle.gl_plain.specs.subjects.Targets as targets_of;
ghost use Rattle.gl_plain.specs.subjects.Names.{Names, gen_refusal, is_bind_over_limit};
ghost use Rattle.gl_plain.specs.subjects.Buffers as plain;
ghost use Rattle.gl_plain.specs.subjects.Textures as textures_of;
ghost use Rattle.gl_plain.specs.subjects.Attributes.{array_of};
ghost use Rattle.gl_plain.specs.object.Arguments.{object_is_bad, IsObjectData};
ghost use Rattle.gl_plain.specs.object.Refusal.{object_command_refusal};

use attrib_mgr::{attribute_refusal, pointer_refusal};
use buffer_mgr::{Buffers, is_buffer_target};
use gl_base::enums::{DYNAMIC_DRAW, STATIC_DRAW, STREAM_DRAW};
use gl_base::limits::DATA_LIMIT;
use gl_base::target_enums::{FRAMEBUFFER, RENDERBUFFER};
use gl_base::texture_enums::TEXTURE_CUBE_MAP;
use gl_base::{GlEnum, is_reserved};
use gl_plain::{
    ArraySpec, ArrayWords, GlError, Name, ObjectCommand, is_attachment, is_image_target,
    is_texture_target,
};
use program_mgr::Programs;
use target_mgr::Targets;
use texture_mgr::Textures;

/// The refusal of GenBuffers for one id: a reserved one is not counted.
fn gen_buffers_refusal(buffers: &Buffers, id: u32) -> Option<GlError>
    ensures { result ≡ plain.gen_buffers_refusal (tables buffers.now) id }
{
    if is_reserved(id) {
        return None;
    }
    if buffers.is_over_limit(1) {
        return Some(GlError::OutOfMemory);
    }
    None
}

/// Whether a bind would bring a name into use that is one too many, by what its table has of the name, and whether one more is too many.
fn is_bind_over_limit(found: Option<Name>, id: u32, is_full: bool) -> bool
    ensures { (names : Names) → found ≡ map.get names id → is_full ≡ is_over_limit names 1 → result ≡ is_bind_over_limit names id }
{
    found.is_none() && id != 0 && !is_reserved(id) && is_full
}

/// The refusal of BindBuffer.
fn bind_buffer_refusal(buffers: &Buffers, target: GlEnum, id: u32) -> Option<GlError>
    ensures { result ≡ plain.bind_buffer_refusal (tables buffers.now) target id }
{
    if !is_buffer_target(target) {
        return Some(GlError::InvalidEnum);
    }
    if is_bind_over_limit(buffers.name(id), id, buffers.is_over_limit(1)) {
        return Some(GlError::OutOfMemory);
    }
    None
}

/// The refusal of GenTextures for one id.
fn gen_textures_refusal(textures: &Textures) -> Option<GlError>
    ensures { result ≡ textures_of.gen_textures_refusal (textures_as.tables textures.now) }
{
    if textures.is_over_limit(1) {
        return Some(GlError::OutOfMemory);
    }
    None
}

/// The refusal of BindTexture.
fn bind_texture_refusal(textures: &Textures, target: GlEnum, id: u32) -> Option<GlError>
    ensures { result ≡ textures_of.bind_texture_refusal (textures_as.tables textures.now) target id }
{
    if !is_texture_target(target) {
        return Some(GlError::InvalidEnum);
    }
    let found = textures.name(id);
    if is_bind_over_limit(found, id, textures.is_over_limit(1)) {
        return Some(GlError::OutOfMemory);
    }
    if textures.is_of_other_target(target == TEXTURE_CUBE_MAP, found) {
        return Some(GlError::InvalidOperation);
    }
    None
}

/// The refusal of GenRenderbuffers or GenFramebuffers for one id, by whether one more is too many.
fn gen_refusal(is_full: bool) -> Option<GlError>
    ensures { (names : Names) → is_full ≡ is_over_limit names 1 → result ≡ gen_refusal names (pos 1) }
{
    if is_full {
        Some(GlError::OutOfMemory)
    } else {
        None
    }
}

/// The refusal of BindRenderbuffer.
fn bind_renderbuffer_refusal(targets: &Targets, target: GlEnum, id: u32) -> Option<GlError>
    ensures { result ≡ targets_of.bind_refusal RENDERBUFFER (renderbuffers targets.now) target id }
{
    if target != RENDERBUFFER {
        return Some(GlError::InvalidEnum);
    }
    let is_full = targets.is_renderbuffer_over_limit(1);
    if is_bind_over_limit(targets.renderbuffer_name(id), id, is_full) {
        return Some(GlError::OutOfMemory);
    }
    None
}

/// The refusal of BindFramebuffer.
fn bind_framebuffer_refusal(targets: &Targets, target: GlEnum, id: u32) -> Option<GlError>
    ensures { result ≡ targets_of.bind_refusal FRAMEBUFFER (framebuffers targets.now) target id }
{
    if target != FRAMEBUFFER {
        return Some(GlError::InvalidEnum);
    }
    let is_full = targets.is_framebuffer_over_limit(1);
    if is_bind_over_limit(targets.framebuffer_name(id), id, is_full) {
        return Some(GlError::OutOfMemory);
    }
    None
}

/// The refusal of FramebufferTexture2D. The name 0 detaches, whatever the face and the level.
fn framebuffer_texture_refusal(
    textures: &Textures,
    targets: &Targets,
    target: GlEnum,
    attachment: GlEnum,
    textarget: GlEnum,
    texture: u32,
    level: i32,
) -> Option<GlError>
    ensures { result ≡ targets_of.framebuffer_texture_refusal (framebuffers targets.now) (textures_as.tables textures.now) target attachment textarget texture level }
{
    let detaches = texture == 0;
    if target != FRAMEBUFFER
        || !is_attachment(attachment)
        || !(detaches || is_image_target(textarget))
    {
        return Some(GlError::InvalidEnum);
    }
    if !(detaches || level == 0) {
        return Some(GlError::InvalidValue);
    }
    if targets.framebuffer_bound() == 0
        || !(detaches || textures.is_attachable(textarget, textures.name(texture)))
    {
        return Some(GlError::InvalidOperation);
    }
    None
}

/// The refusal of FramebufferRenderbuffer. The name 0 detaches.
fn framebuffer_renderbuffer_refusal(
    targets: &Targets,
    target: GlEnum,
    attachment: GlEnum,
    rbtarget: GlEnum,
    renderbuffer: u32,
) -> Option<GlError>
    ensures { result ≡ targets_of.framebuffer_renderbuffer_refusal (framebuffers targets.now) (renderbuffers targets.now) target attachment rbtarget renderbuffer }
{
    if target != FRAMEBUFFER || !is_attachment(attachment) || rbtarget != RENDERBUFFER {
        return Some(GlError::InvalidEnum);
    }
    let is_made = match targets.renderbuffer_name(renderbuffer) {
        Some(name) => name.is_object,
        None => false,
    };
    if targets.framebuffer_bound() == 0 || !(renderbuffer == 0 || is_made) {
        return Some(GlError::InvalidOperation);
    }
    None
}

fn is_usage(usage: GlEnum) -> bool
    ensures { result ≡ plain.is_usage usage }
{
    usage == STREAM_DRAW || usage == STATIC_DRAW || usage == DYNAMIC_DRAW
}

/// The refusal of BufferData.
fn buffer_data_refusal(
    buffers: &Buffers,
    target: GlEnum,
    size: i32,
    usage: GlEnum,
) -> Option<GlError>
    ensures { result ≡ plain.buffer_data_refusal (tables buffers.now) target size usage }
{
    if !(is_buffer_target(target) && is_usage(usage)) {
        return Some(GlError::InvalidEnum);
    }
    if size < 0 {
        return Some(GlError::InvalidValue);
    }
    if size as u32 > DATA_LIMIT {
        return Some(GlError::OutOfMemory);
    }
    if buffers.bound(target).is_none() {
        return Some(GlError::InvalidOperation);
    }
    None
}

/// The refusal of BufferSubData.
fn buffer_sub_data_refusal(
    buffers: &Buffers,
    target: GlEnum,
    offset: i32,
    size: i32,
) -> Option<GlError>
    ensures { result ≡ plain.buffer_sub_data_refusal (tables buffers.now) target offset size }
{
    if !is_buffer_target(target) {
        return Some(GlError::InvalidEnum);
    }
    if offset < 0 || size < 0 {
        return Some(GlError::InvalidValue);
    }
    let Some(buffer) = buffers.bound(target) else {
        return Some(GlError::InvalidOperation);
    };
    if offset as usize + size as usize > buffer.bytes().len() {
        return Some(GlError::InvalidValue);
    }
    None
}

/// The array that VertexAttribPointer names, in the buffer that ARRAY_BUFFER binds. A negative size or stride, which is refused, keeps
/// its bits.
pub fn array_spec(buffers: &Buffers, array: ArrayWords) -> ArraySpec
    ensures size { cast_signed w32 result.size ≡ array.size }
    ensures kind { result.kind ≡ array.kind }
    ensures stride { cast_signed w32 result.stride ≡ array.stride }
    ensures spec { is_negative array.size ≡ false → is_negative array.stride ≡ false → result ≡ array_of (tables buffers.now) array.size array.kind array.normalized array.stride array.offset }
{
    ArraySpec {
        object: buffers.array_object(),
        size: array.size.cast_unsigned(),
        kind: array.kind,
        normalized: array.normalized,
        stride: array.stride.cast_unsigned(),
        offset: array.offset,
    }
}

/// The code that a command that is not malformed, with its data, is refused with, if any.
pub fn refusal(
    buffers: &Buffers,
    textures: &Textures,
    targets: &Targets,
    programs: &Programs,
    command: ObjectCommand,
    payload: &[u8],
) -> Option<GlError>
    requires given { IsObjectData command payload.now }
    requires fair { (s : EsState) × (object_is_bad (record s { buffers = tables buffers.now; textures = textures_as.tables textures.now; renderbuffers = renderbuffers targets.now; framebuffers = framebuffers targets.now; programs = programs_as.tables programs.now }) command ≡ false) }
    ensures { (s : EsState) → result ≡ object_command_refusal (record s { buffers = tables buffers.now; textures = textures_as.tables textures.now; renderbuffers = renderbuffers targets.now; framebuffers = framebuffers targets.now; programs = programs_as.tables programs.now }) command payload.now }
{
    match command {
        ObjectCommand::GenBuffers { id } => gen_buffers_refusal(buffers, id),
        ObjectCommand::BindBuffer { target, id } => bind_buffer_refusal(buffers, target, id),
        ObjectCommand::BufferData {
            target,
            size,
            usage,
            words: _,
        } => buffer_data_refusal(buffers, target, size, usage),
        ObjectCommand::BufferSubData {
            target,
            offset,
            size,
            words: _,
        } => buffer_sub_data_refusal(buffers, target, offset, size),
        ObjectCommand::GenTextures { .. } => gen_textures_refusal(textures),
        ObjectCommand::BindTexture { target, id } => bind_texture_refusal(textures, target, id),
        ObjectCommand::GenRenderbuffers { .. } => {
            gen_refusal(targets.is_renderbuffer_over_limit(1))
        }
        ObjectCommand::BindRenderbuffer { target, id } => {
            bind_renderbuffer_refusal(targets, target, id)
        }
        ObjectCommand::GenFramebuffers { .. } => gen_refusal(targets.is_framebuffer_over_limit(1)),
        ObjectCommand::BindFramebuffer { target, id } => {
            bind_framebuffer_refusal(targets, target, id)
        }
        ObjectCommand::FramebufferTexture2D {
            target,
            attachment,
            textarget,
            texture,
            level,
        } => framebuffer_texture_refusal(
            textures, targets, target, attachment, textarget, texture, level,
        ),
        ObjectCommand::FramebufferRenderbuffer {
            target,
            attachment,
            rbtarget,
            renderbuffer,
        } => framebuffer_renderbuffer_refusal(targets, target, attachment, rbtarget, renderbuffer),
        ObjectCommand::DeleteBuffers { .. }
        | ObjectCommand::DeleteTextures { .. }
        | ObjectCommand::DeleteRenderbuffers { .. }
        | ObjectCommand::DeleteFramebuffers { .. } => None,
        ObjectCommand::VertexAttrib4f { index, .. }
        | ObjectCommand::EnableVertexAttribArray { index }
        | ObjectCommand::DisableVertexAttribArray { index } => attribute_refusal(index),
        ObjectCommand::VertexAttribPointer { index, array } => {
            pointer_refusal(index, array_spec(buffers, array))
        }
        ObjectCommand::CreateShader { id: _, kind } => programs.create_shader_refusal(kind),
        ObjectCommand::ShaderSource { shader, .. } | ObjectCommand::CompileShader { shader } => {
            programs.shader_refusal(shader)
        }
        ObjectCommand::DeleteShader { shader } => programs.delete_shader_refusal(shader),
        ObjectCommand::CreateProgram { .. } => programs.create_program_refusal(),
        ObjectCommand::AttachShader { program, shader } => programs.attach_refusal(program, shader),
        ObjectCommand::DetachShader { program, shader } => programs.detach_refusal(program, shader),
        ObjectCommand::BindAttribLocation { program, index, .. } => {
            programs.bind_attrib_location_refusal(program, index, payload)
        }
        ObjectCommand::LinkProgram { program } | ObjectCommand::ValidateProgram { program } => {
            programs.program_refusal(program)
        }
        ObjectCommand::UseProgram { program } => programs.use_program_refusal(program),
        ObjectCommand::DeleteProgram { program } => programs.delete_program_refusal(program),
        ObjectCommand::Uniform {
            location,
            kind,
            count,
            transpose,
            words: _,
        } => programs.uniform_refusal(location, kind, count, transpose, payload),
    }
}
