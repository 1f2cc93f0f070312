//! The written part of a level (OpenGL ES 2.0.25, section 3.7.1). What is not written yet reads as zeros: the service zeroes it when a
//! command is first to read the level, and needs to know which part that is.
ghost use Rattle.std.specs.Prelude.{◌≡◌, ◌<◌, ◌≤◌, ◌+◌, ◌||◌, None, Some, []};
ghost use Rattle.std.specs.Bool.{OnTrue, OnFalse};
ghost use Rattle.arrayvec.specs.ArrayVec.{array_vec_len};
ghost use Rattle.gl_base.specs.Rects as rects;
ghost use Rattle.gl_base.specs.Rects.{IsIn, IsRest};

use crate::shapes::{abreast, covers, is_empty, stacked};
use arrayvec::ArrayVec;
use gl_base::Rect;

/// The sides of a level in pixels, and the rectangle of it that was written so far. None of its calls takes memory.
#[derive(Debug, Clone, Copy)]
pub struct Cover {
    width: u32,
    height: u32,
    written: Rect,
    pub ghost inside: { IsIn written width height },
}

impl Cover {
    /// A level of these sides, of which nothing is written.
    pub fn new(width: u32, height: u32) -> Cover
        ensures width { result.width ≡ width }
        ensures height { result.height ≡ height }
        ensures nothing { result.written ≡ record { x = 0; y = 0; width = 0; height = 0 } }
    {
        Cover {
            width,
            height,
            written: Rect {
                x: 0,
                y: 0,
                width: 0,
                height: 0,
            },
        }
    }

    /// How many columns the level has.
    pub fn width(&self) -> u32
        ensures { result ≡ self.now.width }
    {
        self.width
    }

    /// How many rows the level has.
    pub fn height(&self) -> u32
        ensures { result ≡ self.now.height }
    {
        self.height
    }

    /// All places of the level.
    fn whole(&self) -> Rect
        ensures { result ≡ rects.whole self.now.width self.now.height }
    {
        Rect {
            x: 0,
            y: 0,
            width: self.width,
            height: self.height,
        }
    }

    /// The least rectangle that has the written places and those of another.
    fn around(&self, rect: Rect) -> Rect
        requires { IsIn rect self.now.width self.now.height }
        ensures { result ≡ rects.around self.now.written rect }
    {
        let written = self.written;
        let x = written.x.min(rect.x);
        let y = written.y.min(rect.y);
        let right = (written.x + written.width).max(rect.x + rect.width);
        let bottom = (written.y + written.height).max(rect.y + rect.height);
        Rect {
            x,
            y,
            width: right - x,
            height: bottom - y,
        }
    }

    /// Adds the places of a rectangle inside the level, which a command writes (section 3.7.2). False, and all is as before, where they and
    /// those written before make no rectangle: then the rest must be zeroed first.
    pub fn add(&mut self, rect: Rect) -> bool
        requires { IsIn rect self.old.width self.old.height }
        ensures width { self.new.width ≡ self.old.width }
        ensures height { self.new.height ≡ self.old.height }
        ensures added { OnTrue result (rects.union_of self.old.written rect ≡ Some self.new.written) }
        ensures none { OnFalse result (rects.union_of self.old.written rect ≡ None) }
        ensures kept { OnFalse result (self.new ≡ self.old) }
    {
        if is_empty(rect) || covers(self.written, rect) {
            return true;
        }
        if is_empty(self.written) || covers(rect, self.written) {
            self.written = rect;
            return true;
        }
        if stacked(self.written, rect) {
            self.written = self.around(rect);
            return true;
        }
        if abreast(self.written, rect) {
            self.written = self.around(rect);
            return true;
        }
        false
    }

    /// Whether all places of a rectangle are written.
    pub fn holds(&self, rect: Rect) -> bool
        ensures { result ≡ (rects.is_empty rect || rects.covers self.now.written rect) }
    {
        is_empty(rect) || covers(self.written, rect)
    }

    /// Whether all places of the level are written. Then nothing of it is left to zero.
    #[tactic(auto, using(gl_base::proofs::Rest::rest_none))]
    pub fn is_whole(&self) -> bool
        ensures whole { result ≡ (rects.is_empty (rects.whole self.now.width self.now.height) || rects.covers self.now.written (rects.whole self.now.width self.now.height)) }
        ensures no_rest { OnTrue result (rects.rest_of self.now.width self.now.height self.now.written ≡ []) }
    {
        self.holds(self.whole())
    }

    /// Takes all places of the level as written.
    pub fn fill(&mut self)
        ensures width { self.new.width ≡ self.old.width }
        ensures height { self.new.height ≡ self.old.height }
        ensures written { self.new.written ≡ rects.whole self.old.width self.old.height }
    {
        self.written = self.whole();
    }

    /// The places that are not written, as at most four rectangles that share none: the rows before the written ones, those after, the
    /// columns left, and those right.
    #[tactic(auto, using(gl_base::proofs::Rest::rest_is))]
    pub fn rest(&self) -> ArrayVec<Rect, 4>
        ensures parts { result.items ≡ rects.rest_of self.now.width self.now.height self.now.written }
        ensures exact { IsRest self.now.width self.now.height self.now.written result.items }
    {
        let written = self.written;
        let right = written.x + written.width;
        let bottom = written.y + written.height;
        let mut rest = ArrayVec::new();
        add_part(&mut rest, part(0, 0, self.width, written.y));
        add_part(&mut rest, part(0, bottom, self.width, self.height - bottom));
        add_part(&mut rest, part(0, written.y, written.x, written.height));
        add_part(
            &mut rest,
            part(right, written.y, self.width - right, written.height),
        );
        rest
    }
}

/// A part of a level.
fn part(x: u32, y: u32, width: u32, height: u32) -> Rect
    ensures { result ≡ record { x = x; y = y; width = width; height = height } }
{
    Rect {
        x,
        y,
        width,
        height,
    }
}

/// Adds a part, unless it is empty.
fn add_part(parts: &mut ArrayVec<Rect, 4>, part: Rect)
    requires { array_vec_len parts.old < 4 }
    ensures items { parts.new.items ≡ rects.with_part parts.old.items part }
    ensures room { array_vec_len parts.new ≤ array_vec_len parts.old + 1 }
{
    if !is_empty(part) {
        parts.push(part);
    }
}
