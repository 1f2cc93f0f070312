//! The state of objects that is asked for by a name (OpenGL ES 2.0.25, sections 6.1.3 to 6.1.7).
ghost use Rattle.std.specs.Prelude.{◌≡◌};
ghost use Rattle.gl_plain.specs.subjects.Buffers as buffers_of;
ghost use Rattle.gl_plain.specs.subjects.Parameters as d;
ghost use Rattle.buffer_mgr.specs.Tables as buffers_as;
ghost use Rattle.target_mgr.specs.Tables as targets_as;
ghost use Rattle.texture_mgr.specs.Tables as textures_as;

use buffer_mgr::{Buffers, is_buffer_target};
use gl_base::target_enums::{
    DEPTH_COMPONENT16, FRAMEBUFFER, NONE, RENDERBUFFER, RGB5_A1, RGB565, RGBA4, STENCIL_INDEX8,
};
use gl_base::texture_enums::{
    TEXTURE_MAG_FILTER, TEXTURE_MIN_FILTER, TEXTURE_WRAP_S, TEXTURE_WRAP_T,
};
use gl_base::{GlEnum, query_enums as names};
use gl_plain::{
    AttachView, Attached, GlError, LevelView, is_attachment, is_cube_face, is_texture_target,
};
use target_mgr::Targets;
use texture_mgr::Textures;
use whole_images::attach_view;

/// The refusal of GetBufferParameteriv.
pub fn buffer_parameter_refusal(buffers: &Buffers, target: GlEnum, pname: GlEnum) -> Option<GlError>
    ensures { result ≡ d.buffer_parameter_refusal (buffers_as.tables buffers.now) target pname }
{
    if !(is_buffer_target(target) && matches!(pname, names::BUFFER_SIZE | names::BUFFER_USAGE)) {
        return Some(GlError::InvalidEnum);
    }
    if buffers.bound(target).is_none() {
        return Some(GlError::InvalidOperation);
    }
    None
}

/// What GetBufferParameteriv answers.
pub fn buffer_parameter(buffers: &Buffers, target: GlEnum, pname: GlEnum) -> u32
    ensures { result ≡ d.buffer_parameter (buffers_of.bound (buffers_as.tables buffers.now) target) pname }
{
    match buffers.bound(target) {
        Some(buffer) if pname == names::BUFFER_SIZE => buffer.size(),
        Some(buffer) => buffer.usage().0,
        None => 0,
    }
}

/// The refusal of GetTexParameteriv.
pub fn get_tex_parameter_refusal(target: GlEnum, pname: GlEnum) -> Option<GlError>
    ensures { result ≡ d.get_tex_parameter_refusal target pname }
{
    let known = matches!(
        pname,
        TEXTURE_MIN_FILTER | TEXTURE_MAG_FILTER | TEXTURE_WRAP_S | TEXTURE_WRAP_T
    );
    if is_texture_target(target) && known {
        None
    } else {
        Some(GlError::InvalidEnum)
    }
}

/// Whether GetRenderbufferParameteriv takes the name.
fn is_renderbuffer_parameter(pname: GlEnum) -> bool
    ensures { result ≡ d.is_renderbuffer_parameter pname }
{
    matches!(
        pname,
        names::RENDERBUFFER_WIDTH
            | names::RENDERBUFFER_HEIGHT
            | names::RENDERBUFFER_INTERNAL_FORMAT
            | names::RENDERBUFFER_RED_SIZE
            | names::RENDERBUFFER_GREEN_SIZE
            | names::RENDERBUFFER_BLUE_SIZE
            | names::RENDERBUFFER_ALPHA_SIZE
            | names::RENDERBUFFER_DEPTH_SIZE
            | names::RENDERBUFFER_STENCIL_SIZE
    )
}

/// The refusal of GetRenderbufferParameteriv.
pub fn renderbuffer_parameter_refusal(
    targets: &Targets,
    target: GlEnum,
    pname: GlEnum,
) -> Option<GlError>
    ensures { result ≡ d.renderbuffer_parameter_refusal (targets_as.renderbuffers targets.now) target pname }
{
    if !(target == RENDERBUFFER && is_renderbuffer_parameter(pname)) {
        return Some(GlError::InvalidEnum);
    }
    if targets.renderbuffer_bound() == 0 {
        return Some(GlError::InvalidOperation);
    }
    None
}

/// The bits of red and of blue in a format (table 4.5).
fn red_bits(format: GlEnum) -> u32
    ensures { result ≡ d.red_bits format }
{
    match format {
        RGBA4 => 4,
        RGB5_A1 | RGB565 => 5,
        _ => 0,
    }
}

/// The bits of green.
fn green_bits(format: GlEnum) -> u32
    ensures { result ≡ d.green_bits format }
{
    match format {
        RGBA4 => 4,
        RGB5_A1 => 5,
        RGB565 => 6,
        _ => 0,
    }
}

/// The bits of alpha.
fn alpha_bits(format: GlEnum) -> u32
    ensures { result ≡ d.alpha_bits format }
{
    match format {
        RGBA4 => 4,
        RGB5_A1 => 1,
        _ => 0,
    }
}

/// The bits of a depth.
fn depth_bits(format: GlEnum) -> u32
    ensures { result ≡ d.depth_bits format }
{
    if format == DEPTH_COMPONENT16 { 16 } else { 0 }
}

/// The bits of a stencil value.
fn stencil_bits(format: GlEnum) -> u32
    ensures { result ≡ d.stencil_bits format }
{
    if format == STENCIL_INDEX8 { 8 } else { 0 }
}

/// A parameter of storage.
fn storage_parameter(view: LevelView, pname: GlEnum) -> u32
    ensures { result ≡ d.storage_parameter view pname }
{
    match pname {
        names::RENDERBUFFER_WIDTH => view.width,
        names::RENDERBUFFER_HEIGHT => view.height,
        names::RENDERBUFFER_INTERNAL_FORMAT => view.format.0,
        names::RENDERBUFFER_GREEN_SIZE => green_bits(view.format),
        names::RENDERBUFFER_ALPHA_SIZE => alpha_bits(view.format),
        names::RENDERBUFFER_DEPTH_SIZE => depth_bits(view.format),
        names::RENDERBUFFER_STENCIL_SIZE => stencil_bits(view.format),
        _ => red_bits(view.format),
    }
}

/// What GetRenderbufferParameteriv answers: before storage the format is RGBA4, and all else is 0.
pub fn renderbuffer_parameter(targets: &Targets, pname: GlEnum) -> u32
    ensures { result ≡ d.get_renderbuffer_parameter (targets_as.renderbuffers targets.now) pname }
{
    match targets.storage(targets.renderbuffer_bound()) {
        Some(view) => storage_parameter(view, pname),
        None if pname == names::RENDERBUFFER_INTERNAL_FORMAT => RGBA4.0,
        None => 0,
    }
}

/// Whether what completeness sees of an attachment is that its object was deleted.
fn is_dead(view: AttachView) -> bool
    ensures { result ≡ d.is_dead view }
{
    match view {
        AttachView::Dead => true,
        AttachView::Nothing | AttachView::Texture(_) | AttachView::Renderbuffer { .. } => false,
    }
}

/// What is attached to the framebuffer that is bound, at a point. An object that was deleted counts as none.
fn attachment(textures: &Textures, targets: &Targets, point: GlEnum) -> Attached
    ensures { result ≡ d.attachment_in (textures_as.tables textures.now).objects (targets_as.renderbuffers targets.now).objects (targets_as.framebuffers targets.now) point }
{
    let attached = targets.attached(point);
    if is_dead(attach_view(textures, targets, attached.image())) {
        Attached::Nothing
    } else {
        attached
    }
}

/// Whether GetFramebufferAttachmentParameteriv takes the name.
fn is_attachment_parameter(pname: GlEnum) -> bool
    ensures { result ≡ d.is_attachment_parameter pname }
{
    matches!(
        pname,
        names::FRAMEBUFFER_ATTACHMENT_OBJECT_TYPE
            | names::FRAMEBUFFER_ATTACHMENT_OBJECT_NAME
            | names::FRAMEBUFFER_ATTACHMENT_TEXTURE_LEVEL
            | names::FRAMEBUFFER_ATTACHMENT_TEXTURE_CUBE_MAP_FACE
    )
}

/// Whether what is attached has no such parameter: of nothing only the kind can be asked for, and of a renderbuffer neither level nor face.
fn lacks_parameter(attached: Attached, pname: GlEnum) -> bool
    ensures { result ≡ d.lacks_parameter attached pname }
{
    match attached {
        Attached::Nothing => pname != names::FRAMEBUFFER_ATTACHMENT_OBJECT_TYPE,
        Attached::Texture { .. } => false,
        Attached::Renderbuffer { .. } => matches!(
            pname,
            names::FRAMEBUFFER_ATTACHMENT_TEXTURE_LEVEL
                | names::FRAMEBUFFER_ATTACHMENT_TEXTURE_CUBE_MAP_FACE
        ),
    }
}

/// The refusal of GetFramebufferAttachmentParameteriv.
pub fn attachment_parameter_refusal(
    textures: &Textures,
    targets: &Targets,
    target: GlEnum,
    point: GlEnum,
    pname: GlEnum,
) -> Option<GlError>
    ensures { result ≡ d.attachment_parameter_refusal (textures_as.tables textures.now).objects (targets_as.renderbuffers targets.now).objects (targets_as.framebuffers targets.now) target point pname }
{
    if !(target == FRAMEBUFFER && is_attachment(point) && is_attachment_parameter(pname)) {
        return Some(GlError::InvalidEnum);
    }
    if targets.framebuffer_bound() == 0 {
        return Some(GlError::InvalidOperation);
    }
    if lacks_parameter(attachment(textures, targets, point), pname) {
        return Some(GlError::InvalidEnum);
    }
    None
}

/// A parameter of a texture that is attached by a name, with this face.
fn texture_parameter(name: u32, face: GlEnum, pname: GlEnum) -> u32
    ensures { result ≡ d.attached_texture_parameter name face pname }
{
    match pname {
        names::FRAMEBUFFER_ATTACHMENT_OBJECT_TYPE => names::TEXTURE.0,
        names::FRAMEBUFFER_ATTACHMENT_OBJECT_NAME => name,
        names::FRAMEBUFFER_ATTACHMENT_TEXTURE_LEVEL => 0,
        _ => { if is_cube_face(face) { face.0 } else { 0 } }
    }
}

/// What GetFramebufferAttachmentParameteriv answers.
pub fn attachment_parameter(
    textures: &Textures,
    targets: &Targets,
    point: GlEnum,
    pname: GlEnum,
) -> u32
    ensures { result ≡ d.get_attachment_parameter (textures_as.tables textures.now).objects (targets_as.renderbuffers targets.now).objects (targets_as.framebuffers targets.now) point pname }
{
    match attachment(textures, targets, point) {
        Attached::Nothing => NONE.0,
        Attached::Texture { name, face, .. } => texture_parameter(name, face, pname),
        Attached::Renderbuffer { name, .. } => {
            if pname == names::FRAMEBUFFER_ATTACHMENT_OBJECT_TYPE {
                RENDERBUFFER.0
            } else {
                name
            }
        }
    }
}
