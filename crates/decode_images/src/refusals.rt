//! The refusals of the commands on images (OpenGL ES 2.0.25, sections 3.7.1, 3.7.2, 3.7.4, 3.7.11 and 4.4.3).
ghost use Rattle.std.specs.Prelude.{◌≡◌, ◌≤◌, ◌||◌, ◌&&◌, true, not};
ghost use Rattle.gl_base.specs.declared.limits.TheConstants.{LAST_LEVEL};
ghost use Rattle.gl_plain.specs.subjects.Images as images;
ghost use Rattle.gl_plain.specs.Words.{is_negative};
ghost use Rattle.gl_plain.specs.subjects.Levels.{is_cube_face, is_image_target};
ghost use Rattle.gl_plain.specs.subjects.Textures as plain;
ghost use Rattle.gl_plain.specs.image.Refusal.{image_command_refusal};
ghost use Rattle.gl_plain.specs.State.{EsState, Surface};
ghost use Rattle.gl_plain.specs.subjects.Copies as copies;
ghost use Rattle.gl_plain.specs.subjects.Mipmaps as mipmaps;
ghost use Rattle.gl_plain.specs.subjects.Targets as targets_of;
ghost use Rattle.texture_mgr.specs.Tables.{tables};
ghost use Rattle.target_mgr.specs.Tables.{renderbuffers};
ghost use Rattle.whole_images.specs.Views.{drawable};
ghost use Rattle.decode_images.specs.States.{targets_in};

use crate::colours::{is_wrong_part, is_wrong_source};
use gl_base::enums::UNSIGNED_BYTE;
use gl_base::limits::{LAST_LEVEL, SIDE_LIMIT};
use gl_base::target_enums::RENDERBUFFER;
use gl_base::{GlEnum, Rect};
use gl_plain::{
    CopyPartWords, CopyWords, GlError, ImageCommand, ImageWords, LevelView, PartWords,
    is_cube_face, is_format, is_image_target, is_pixel_kind, is_power_of_two, is_storage,
    is_texture_target, natural,
};
use image_cover::pixel_bytes;
use target_mgr::Targets;
use texture_mgr::{Textures, is_parameter};
use whole_images::is_incomplete;

/// Whether a level is one from 0 to 11.
fn is_level(level: i32) -> bool
    ensures { result ≡ images.is_level level }
{
    level >= 0 && level as u32 <= LAST_LEVEL
}

/// Whether a side is not negative, and within the greatest one of a level.
fn is_side(level: u32, side: i32) -> bool
    requires { level ≤ LAST_LEVEL }
    ensures { result ≡ images.is_side level side }
{
    side >= 0 && side as u32 <= SIDE_LIMIT >> level
}

/// Whether a side may come from halving a power of two. A negative one, which is refused, counts as 0.
fn is_level_side(level: u32, side: i32) -> bool
    ensures { result ≡ images.is_level_side level side }
{
    let side = natural(side);
    level == 0 || side == 0 || is_power_of_two(side)
}

/// Whether an image of a face has equal sides. A negative one, which is refused, counts as 0.
fn suits_face(image: ImageWords) -> bool
    ensures { result ≡ (not (is_cube_face image.target) || images.is_square image.width image.height) }
{
    !is_cube_face(image.target) || natural(image.width) == natural(image.height)
}

/// Whether the sides of an image suit its target and its level.
fn has_good_sides(image: ImageWords) -> bool
    requires { images.is_level image.level ≡ true }
    ensures { result ≡ images.has_good_sides image }
{
    let level = natural(image.level);
    is_side(level, image.width)
        && is_side(level, image.height)
        && suits_face(image)
        && is_level_side(level, image.width)
        && is_level_side(level, image.height)
}

/// The refusal of TexImage2D.
fn tex_image_refusal(image: ImageWords) -> Option<GlError>
    ensures { result ≡ images.tex_image_refusal image }
{
    if !(is_image_target(image.target) && is_format(image.format) && is_pixel_kind(image.kind)) {
        return Some(GlError::InvalidEnum);
    }
    if !(is_level(image.level)
        && is_format(image.internal)
        && has_good_sides(image)
        && image.border == 0)
    {
        return Some(GlError::InvalidValue);
    }
    if image.internal != image.format || pixel_bytes(image.format, image.kind).is_none() {
        return Some(GlError::InvalidOperation);
    }
    None
}

/// The rectangle that TexSubImage2D writes. A negative number, which is refused, counts as 0.
pub fn part_rect(part: PartWords) -> Rect
    ensures { result ≡ images.part_rect part }
{
    Rect {
        x: natural(part.x),
        y: natural(part.y),
        width: natural(part.width),
        height: natural(part.height),
    }
}

/// Whether a rectangle leaves an image that is there.
fn leaves_level(level: Option<LevelView>, rect: Rect) -> bool
    ensures { result ≡ images.leaves_level level rect }
{
    match level {
        Some(view) => {
            u64::from(view.width) < u64::from(rect.x) + u64::from(rect.width)
                || u64::from(view.height) < u64::from(rect.y) + u64::from(rect.height)
        }
        None => false,
    }
}

/// Whether an image is not there, or has another format or type.
fn differs_from_level(level: Option<LevelView>, format: GlEnum, kind: GlEnum) -> bool
    ensures { result ≡ images.differs_from_level level format kind }
{
    match level {
        Some(view) => !(view.format == format && view.kind == kind),
        None => true,
    }
}

/// The refusal of TexSubImage2D.
fn tex_sub_image_refusal(textures: &Textures, part: PartWords) -> Option<GlError>
    ensures { result ≡ images.tex_sub_image_refusal (tables textures.now).objects part }
{
    if !(is_image_target(part.target) && is_format(part.format) && is_pixel_kind(part.kind)) {
        return Some(GlError::InvalidEnum);
    }
    if !is_level(part.level) || part.x < 0 || part.y < 0 || part.width < 0 || part.height < 0 {
        return Some(GlError::InvalidValue);
    }
    let level = textures.level(textures.place_bound(part.target, part.level as u32));
    if leaves_level(level, part_rect(part)) {
        return Some(GlError::InvalidValue);
    }
    if differs_from_level(level, part.format, part.kind) {
        return Some(GlError::InvalidOperation);
    }
    None
}

/// The refusal of TexParameteri.
fn tex_parameter_refusal(target: GlEnum, pname: GlEnum, value: GlEnum) -> Option<GlError>
    ensures { result ≡ plain.tex_parameter_refusal target pname value }
{
    if is_texture_target(target) && is_parameter(pname, value) {
        None
    } else {
        Some(GlError::InvalidEnum)
    }
}

/// The image that a copy makes.
pub fn copy_image(copy: CopyWords) -> ImageWords
    ensures { result ≡ copies.copy_image copy }
{
    ImageWords {
        target: copy.target,
        level: copy.level,
        internal: copy.internal,
        width: copy.width,
        height: copy.height,
        border: copy.border,
        format: copy.internal,
        kind: UNSIGNED_BYTE,
    }
}

/// Whether the target or the internal format of a copy is none.
fn names_no_copy(copy: CopyWords) -> bool
    ensures { result ≡ not (is_image_target copy.target && images.is_format copy.internal) }
{
    !(is_image_target(copy.target) && is_format(copy.internal))
}

/// Whether the level or the sides of a copy are none, or it has a border.
fn has_bad_sides(copy: CopyWords) -> bool
    ensures { result ≡ not (images.is_level copy.level && images.has_good_sides (copies.copy_image copy) && images.is_zero copy.border) }
{
    !(is_level(copy.level) && has_good_sides(copy_image(copy)) && copy.border == 0)
}

/// The refusal of CopyTexImage2D.
fn copy_tex_image_refusal(
    textures: &Textures,
    targets: &Targets,
    copy: CopyWords,
) -> Option<GlError>
    ensures { (surface : Surface) → result ≡ copies.copy_tex_image_refusal (drawable surface textures.now targets.now) copy }
{
    if names_no_copy(copy) {
        return Some(GlError::InvalidEnum);
    }
    if has_bad_sides(copy) {
        return Some(GlError::InvalidValue);
    }
    if is_incomplete(textures, targets) {
        return Some(GlError::InvalidFramebufferOperation);
    }
    if is_wrong_source(
        textures,
        targets,
        targets.target(),
        copy.target,
        copy.internal,
    ) {
        return Some(GlError::InvalidOperation);
    }
    None
}

/// The rectangle that CopyTexSubImage2D writes. A negative number, which is refused, counts as 0.
pub fn copy_rect(copy: CopyPartWords) -> Rect
    ensures { result ≡ copies.copy_rect copy }
{
    Rect {
        x: natural(copy.xoffset),
        y: natural(copy.yoffset),
        width: natural(copy.width),
        height: natural(copy.height),
    }
}

/// Whether the level of a copy is none, a place or a side is negative, or its rectangle leaves the image, which is looked at.
fn is_bad_part(level: Option<LevelView>, copy: CopyPartWords) -> bool
    ensures { result ≡ (not (images.is_level copy.level) || is_negative copy.xoffset || is_negative copy.yoffset || is_negative copy.width || is_negative copy.height || images.leaves_level level (copies.copy_rect copy)) }
{
    !is_level(copy.level)
        || copy.xoffset < 0
        || copy.yoffset < 0
        || copy.width < 0
        || copy.height < 0
        || leaves_level(level, copy_rect(copy))
}

/// The refusal of CopyTexSubImage2D.
fn copy_tex_sub_image_refusal(
    textures: &Textures,
    targets: &Targets,
    copy: CopyPartWords,
) -> Option<GlError>
    ensures { (surface : Surface) → result ≡ copies.copy_tex_sub_image_refusal (drawable surface textures.now targets.now) copy }
{
    if !is_image_target(copy.target) {
        return Some(GlError::InvalidEnum);
    }
    let place = textures.place_bound(copy.target, natural(copy.level));
    let level = textures.level(place);
    if is_bad_part(level, copy) {
        return Some(GlError::InvalidValue);
    }
    if is_incomplete(textures, targets) {
        return Some(GlError::InvalidFramebufferOperation);
    }
    if is_wrong_part(textures, targets, targets.target(), copy.target, level) {
        return Some(GlError::InvalidOperation);
    }
    None
}

/// The refusal of GenerateMipmap.
fn generate_mipmap_refusal(textures: &Textures, target: GlEnum) -> Option<GlError>
    ensures { result ≡ mipmaps.generate_mipmap_refusal (tables textures.now).objects target }
{
    if !is_texture_target(target) {
        return Some(GlError::InvalidEnum);
    }
    if !textures.can_halve(target) {
        return Some(GlError::InvalidOperation);
    }
    None
}

/// Whether a side of a renderbuffer is negative, or above the greatest.
fn is_bad_side(side: i32) -> bool
    ensures { result ≡ targets_of.is_bad_side side }
{
    side < 0 || natural(side) > SIDE_LIMIT
}

/// The refusal of RenderbufferStorage.
fn renderbuffer_storage_refusal(
    targets: &Targets,
    target: GlEnum,
    format: GlEnum,
    width: i32,
    height: i32,
) -> Option<GlError>
    ensures { result ≡ targets_of.renderbuffer_storage_refusal (renderbuffers targets.now) target format width height }
{
    if !(target == RENDERBUFFER && is_storage(format)) {
        return Some(GlError::InvalidEnum);
    }
    if is_bad_side(width) || is_bad_side(height) {
        return Some(GlError::InvalidValue);
    }
    if targets.renderbuffer_bound() == 0 {
        return Some(GlError::InvalidOperation);
    }
    None
}

/// The code that a command that is not malformed is refused with, if any.
pub fn refusal(textures: &Textures, targets: &Targets, command: ImageCommand) -> Option<GlError>
    ensures { (s : EsState) → result ≡ image_command_refusal (targets_in textures.now targets.now s) command }
{
    match command {
        ImageCommand::TexImage2D { image, words: _ } => tex_image_refusal(image),
        ImageCommand::TexSubImage2D { part, words: _ } => tex_sub_image_refusal(textures, part),
        ImageCommand::CopyTexImage2D { copy } => copy_tex_image_refusal(textures, targets, copy),
        ImageCommand::CopyTexSubImage2D { copy } => {
            copy_tex_sub_image_refusal(textures, targets, copy)
        }
        ImageCommand::GenerateMipmap { target } => generate_mipmap_refusal(textures, target),
        ImageCommand::RenderbufferStorage {
            target,
            format,
            width,
            height,
        } => renderbuffer_storage_refusal(targets, target, format, width, height),
        ImageCommand::TexParameteri {
            target,
            pname,
            value,
        } => tex_parameter_refusal(target, pname, value),
    }
}
