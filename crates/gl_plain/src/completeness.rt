//! Whether a texture can be sampled (OpenGL ES 2.0.25, sections 3.7.10 and 3.8.2).
ghost use Rattle.std.specs.Prelude.{◌≡◌, ◌≤◌, ◌+◌, ◌*◌, length, take, drop};
ghost use Rattle.gl_base.specs.declared.limits.TheConstants.{LAST_LEVEL};
ghost use Rattle.gl_plain.specs.declared.textures.Texture.{Texture};
ghost use Rattle.gl_plain.specs.subjects.Levels.{face_count};
ghost use Rattle.gl_plain.specs.subjects.Completeness as d;
ghost use Rattle.gl_plain.specs.subjects.Viewed.{texture_viewed};

use crate::LevelView;
use gl_base::GlEnum;
use gl_base::limits::LAST_LEVEL;
use gl_base::texture_enums::{CLAMP_TO_EDGE, LINEAR, NEAREST};

/// What completeness looks at of a texture.
#[derive(Clone, Copy)]
pub struct TextureView<'a> {
    pub cube: bool,
    pub min: GlEnum,
    pub mag: GlEnum,
    pub wrap_s: GlEnum,
    pub wrap_t: GlEnum,
    /// The levels of all faces: that of a face and a level stands at the number of the face times 12, plus the level.
    pub levels: &'a [Option<LevelView>],
}

/// Whether a number is a power of two.
pub fn is_power_of_two(n: u32) -> bool
    ensures { result ≡ d.is_power_of_two n }
{
    n.count_ones() == 1
}

/// Whether a minification filter uses all levels (section 3.7.7).
pub fn uses_mipmaps(min: GlEnum) -> bool
    ensures { result ≡ d.uses_mipmaps min }
{
    !(min == NEAREST || min == LINEAR)
}

impl LevelView {
    /// An image of half the sides, of which none is below 1 (section 3.7.7).
    pub fn halved(self) -> LevelView
        ensures { result ≡ d.halved self }
    {
        LevelView {
            width: (self.width / 2).max(1),
            height: (self.height / 2).max(1),
            ..self
        }
    }

    /// Whether the image has one pixel, so that no level stands behind it.
    pub fn is_last(self) -> bool
        ensures { result ≡ d.is_last self }
    {
        self.width == 1 && self.height == 1
    }
}

/// Whether a level has the sides, the format and the type of an image.
fn is_alike(view: LevelView, level: Option<LevelView>) -> bool
    ensures { result ≡ d.is_alike view level }
{
    match level {
        Some(other) => {
            other.width == view.width
                && other.height == view.height
                && other.format == view.format
                && other.kind == view.kind
        }
        None => false,
    }
}

/// Whether the levels behind an image are its halves, down to one pixel.
#[tactic(auto, using(crate::proofs::Chains::one_pixel))]
fn has_chain(base: LevelView, levels: &[Option<LevelView>]) -> bool
    ensures { result ≡ d.has_chain base levels.now }
{
    let mut last = base;
    for level in levels {
        if last.is_last() {
            return true;
        }
        last = last.halved();
        if !is_alike(last, *level) {
            return false;
        }
    }
    last.is_last()
}

/// Whether a face has level 0 as the first face has it, and its halves where they are used.
fn is_face_complete(view: &TextureView, base: LevelView, levels: &[Option<LevelView>]) -> bool
    ensures { result ≡ d.is_face_complete (texture_viewed view.now) base levels.now }
{
    match levels.split_first() {
        Some((level, levels)) => {
            is_alike(base, *level) && (!uses_mipmaps(view.min) || has_chain(base, levels))
        }
        None => false,
    }
}

/// Whether all faces are.
fn are_faces_complete(view: &TextureView, base: LevelView, count: usize) -> bool
    requires { (count ≤ 6) × (count * (LAST_LEVEL + 1) ≤ length view.now.levels.now) }
    ensures { result ≡ d.are_faces_complete (texture_viewed view.now) base count }
{
    let mut complete = true;
    for face in 0..count {
        let first = face * (LAST_LEVEL + 1) as usize;
        let levels = &view.levels[first..first + (LAST_LEVEL + 1) as usize];
        complete = complete && is_face_complete(view, base, levels);
    }
    complete
}

/// Whether sides that are no powers of two have coordinates that stop at the edge, and one level (section 3.8.2).
fn suits_sides(view: &TextureView, base: LevelView) -> bool
    ensures { result ≡ d.suits_sides (texture_viewed view.now) base }
{
    is_power_of_two(base.width) && is_power_of_two(base.height)
        || view.wrap_s == CLAMP_TO_EDGE && view.wrap_t == CLAMP_TO_EDGE && !uses_mipmaps(view.min)
}

/// Whether a texture is complete, so that sampling it gives its images, and not black. It has 12 levels, and as a cube map 72.
pub fn complete_of(view: &TextureView) -> bool
    requires { length view.now.levels.now ≡ face_count view.now.cube * (LAST_LEVEL + 1) }
    ensures { result ≡ d.is_complete (texture_viewed view.now) }
{
    let Some(Some(base)) = view.levels.get(0) else {
        return false;
    };
    let faces = if view.cube { 6 } else { 1 };
    base.width != 0
        && base.height != 0
        && are_faces_complete(view, *base, faces)
        && suits_sides(view, *base)
}
