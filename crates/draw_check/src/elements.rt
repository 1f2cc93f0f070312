//! Whether a draw is refused, and what it draws.
ghost use Rattle.std.specs.Prelude.{◌≡◌};
ghost use Rattle.gl_plain.specs.subjects.Draws as d;

use crate::arrays::any_array_fails;
use crate::indices::{has_wrong_kind, last_element};
use crate::units::{any_unit_fails, black_bits};
use gl_base::enums::{FRAMEBUFFER_COMPLETE, TRIANGLE_FAN};
use gl_plain::{DrawPlan, DrawView, GlError};

/// What a draw does that is not refused: without an executable nothing is drawn.
fn plan_of(view: &DrawView) -> DrawPlan
    ensures { result ≡ d.plan_of view.now }
{
    if !view.program {
        return DrawPlan::none();
    }
    DrawPlan {
        draw: true,
        black: black_bits(&view.units),
    }
}

/// The rules of a draw of elements up to the last one.
fn check_elements(view: &DrawView, last: Option<u32>) -> Result<DrawPlan, GlError>
    ensures { result ≡ d.check_elements view.now last }
{
    let Some(last) = last else {
        return Err(GlError::InvalidOperation);
    };
    if any_array_fails(&view.arrays, view.used, last) || any_unit_fails(&view.units) {
        return Err(GlError::InvalidOperation);
    }
    Ok(plan_of(view))
}

/// Whether a draw is refused, and else what it draws. INVALID_ENUM for a mode or a kind of indices that is none; INVALID_VALUE for a negative
/// first element or count; INVALID_FRAMEBUFFER_OPERATION for a framebuffer that is not complete; INVALID_OPERATION where indices or the
/// array of a used location are missing or not inside their buffer, where two kinds of samplers name a unit, and where a unit samples what
/// is drawn to. A count of 0 draws nothing.
pub fn check(view: &DrawView, first: i32, count: i32) -> Result<DrawPlan, GlError>
    ensures { result ≡ d.check_of view.now first count }
{
    if view.mode.0 > TRIANGLE_FAN.0 || has_wrong_kind(&view.indexed) {
        return Err(GlError::InvalidEnum);
    }
    if first < 0 || count < 0 {
        return Err(GlError::InvalidValue);
    }
    if view.status != FRAMEBUFFER_COMPLETE {
        return Err(GlError::InvalidFramebufferOperation);
    }
    if count == 0 {
        return Ok(DrawPlan::none());
    }
    check_elements(
        view,
        last_element(&view.indexed, first as u32, count as u32),
    )
}
