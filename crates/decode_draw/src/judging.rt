//! The refusals of the commands on the fixed state, and of those that clear and draw.
ghost use Rattle.std.specs.Prelude.{◌≡◌};
ghost use Rattle.gl_plain.specs.subjects.Clears as clears;
ghost use Rattle.gl_plain.specs.State.{Surface};
ghost use Rattle.gl_plain.specs.subjects.Targets.{target_of};
ghost use Rattle.target_mgr.specs.Tables.{framebuffers};
ghost use Rattle.whole_images.specs.Views.{drawable};
ghost use Rattle.decode_draw.specs.States.{sources};
ghost use Rattle.decode_draw.specs.Judged.{judged, judged_by, judged_clear};

use crate::judged::Judged;
use crate::units::active_texture_refusal;
use crate::views::{check_arrays, check_indexed};
use attrib_mgr::Attribs;
use buffer_mgr::Buffers;
use gl_base::enums::{CLEAR_BITS, FRAMEBUFFER_COMPLETE};
use gl_plain::{DrawCommand, GlError, Target};
use program_mgr::Programs;
use svc_raster::raster_refusal;
use target_mgr::Targets;
use texture_mgr::Textures;
use whole_images::target_status;

/// The refusal of Clear: for a bit that names no image (OpenGL ES 2.0.25, section 4.2.3), and for a framebuffer that is not complete (section
/// 4.4.5).
fn clear_refusal(
    textures: &Textures,
    targets: &Targets,
    target: Target,
    mask: u32,
) -> Option<GlError>
    requires { target ≡ target_of (framebuffers targets.now) }
    ensures { (surface : Surface) → result ≡ clears.clear_refusal (drawable surface textures.now targets.now) mask }
{
    if mask & CLEAR_BITS != mask {
        return Some(GlError::InvalidValue);
    }
    if target_status(textures, targets, target) != FRAMEBUFFER_COMPLETE {
        return Some(GlError::InvalidFramebufferOperation);
    }
    None
}

/// Judges Clear.
fn judge_clear(textures: &Textures, targets: &Targets, mask: u32) -> Result<Judged, GlError>
    ensures { (surface : Surface) → result ≡ judged_clear (target_of (framebuffers targets.now)) mask (clears.clear_refusal (drawable surface textures.now targets.now) mask) }
{
    let target = targets.target();
    if let Some(error) = clear_refusal(textures, targets, target, mask) {
        return Err(error);
    }
    Ok(Judged {
        target: if mask == 0 { Target::Default } else { target },
        ..Judged::nothing()
    })
}

/// A command that draws nothing, by its refusal.
fn judged_by(refusal: Option<GlError>) -> Result<Judged, GlError>
    ensures { result ≡ judged_by refusal }
{
    match refusal {
        Some(error) => Err(error),
        None => Ok(Judged::nothing()),
    }
}

/// The code that a command is refused with, or what it draws.
pub fn judge(
    buffers: &Buffers,
    textures: &Textures,
    targets: &Targets,
    programs: &Programs,
    attribs: &Attribs,
    command: DrawCommand,
) -> Result<Judged, GlError>
    ensures { (surface : Surface) → result ≡ judged (sources surface buffers.now textures.now targets.now programs.now attribs.now) command }
{
    match command {
        DrawCommand::ActiveTexture { unit } => judged_by(active_texture_refusal(unit)),
        DrawCommand::Raster { number, words } => judged_by(raster_refusal(number, &words)),
        DrawCommand::Clear { mask } => judge_clear(textures, targets, mask),
        DrawCommand::DrawArrays { mode, first, count } => {
            check_arrays(
                buffers, textures, targets, programs, attribs, mode, first, count,
            )
        }
        DrawCommand::DrawElements {
            mode,
            count,
            kind,
            offset,
        } => check_indexed(
            buffers, textures, targets, programs, attribs, mode, count, kind, offset,
        ),
        DrawCommand::Flush | DrawCommand::Finish => Ok(Judged::nothing()),
    }
}
