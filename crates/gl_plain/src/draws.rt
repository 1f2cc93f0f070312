//! What the rules of draws look at (OpenGL ES 2.0.25, sections 2.8, 3.7 and 4.4).
ghost use Rattle.std.specs.Prelude.{◌≡◌};
ghost use Rattle.gl_plain.specs.subjects.Draws as d;
ghost use Rattle.gl_plain.specs.subjects.Draws.{no_draw, samples_cube};

use crate::ArraySpec;
use gl_base::GlEnum;
use gl_base::enums::{UNSIGNED_BYTE, UNSIGNED_SHORT};

/// The indices of a draw.
#[derive(Clone, Copy, Debug, PartialEq, Eq)]
pub struct IndexView {
    pub kind: GlEnum,
    /// The greatest index, or None where no buffer is bound or the indices are not inside it.
    pub last: Option<u32>,
}

/// Whether indices can be of this kind: UNSIGNED_BYTE or UNSIGNED_SHORT.
pub fn is_index_kind(kind: GlEnum) -> bool
    ensures { result ≡ d.is_index_kind kind }
{
    kind == UNSIGNED_BYTE || kind == UNSIGNED_SHORT
}

/// The array of a vertex attribute.
#[derive(Clone, Copy, Debug, PartialEq, Eq)]
pub struct ArrayView {
    pub on: bool,
    pub spec: ArraySpec,
    /// The bytes of its buffer; 0 where it is not enabled or lies in no buffer.
    pub bytes: u32,
}

/// A texture unit.
#[derive(Clone, Copy, Default, Debug, PartialEq, Eq)]
pub struct UnitView {
    /// Whether a sampler of flat textures names it.
    pub flat: bool,
    /// Whether a sampler of cube maps names it.
    pub cube: bool,
    /// Whether the texture that is sampled is complete.
    pub complete: bool,
    /// Whether that texture is attached to the framebuffer that is drawn to.
    pub attached: bool,
}

impl UnitView {
    /// Whether a unit that samplers name samples its cube map: where they name it as one alone.
    pub fn samples_cube(self) -> bool
        ensures { result ≡ samples_cube self }
    {
        self.cube && !self.flat
    }
}

/// All that the rules of draws look at, but for the first element and the count.
#[derive(Clone, Copy, Debug, PartialEq, Eq)]
pub struct DrawView {
    pub mode: GlEnum,
    /// The indices, where the draw has any.
    pub indexed: Option<IndexView>,
    /// By location.
    pub arrays: [ArrayView; 16],
    /// A bit for each location that the program uses.
    pub used: u16,
    pub units: [UnitView; 8],
    /// The status of the framebuffer that is drawn to.
    pub status: u32,
    /// Whether an executable is in use.
    pub program: bool,
}

/// What a draw that is not refused does.
#[derive(Clone, Copy, Debug, PartialEq, Eq)]
pub struct DrawPlan {
    /// Whether anything is drawn.
    pub draw: bool,
    /// A bit for each unit whose sampled texture is not complete, and reads as black.
    pub black: u8,
}

impl DrawPlan {
    /// Nothing is drawn.
    pub fn none() -> DrawPlan
        ensures { result ≡ no_draw }
    {
        DrawPlan {
            draw: false,
            black: 0,
        }
    }
}
