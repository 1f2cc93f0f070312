//! How two rectangles lie. Sums of their sides are made in 64 bits, where none wraps.
ghost use Rattle.std.specs.Prelude.{◌≡◌, ◌+◌};
ghost use Rattle.gl_base.specs.Rects as rects;

use gl_base::Rect;

/// The column behind the last one.
fn right(rect: Rect) -> u64
    ensures { result ≡ rect.x + rect.width }
{
    u64::from(rect.x) + u64::from(rect.width)
}

/// The row behind the last one.
fn bottom(rect: Rect) -> u64
    ensures { result ≡ rect.y + rect.height }
{
    u64::from(rect.y) + u64::from(rect.height)
}

/// Whether a rectangle has no place.
pub fn is_empty(rect: Rect) -> bool
    ensures { result ≡ rects.is_empty rect }
{
    rect.width == 0 || rect.height == 0
}

/// Whether a rectangle has every place of another.
pub fn covers(a: Rect, b: Rect) -> bool
    ensures { result ≡ rects.covers a b }
{
    a.x <= b.x && right(b) <= right(a) && a.y <= b.y && bottom(b) <= bottom(a)
}

/// Whether two rectangles have the same columns, and rows that meet.
pub fn stacked(a: Rect, b: Rect) -> bool
    ensures { result ≡ rects.stacked a b }
{
    a.x == b.x && a.width == b.width && u64::from(a.y) <= bottom(b) && u64::from(b.y) <= bottom(a)
}

/// Whether two rectangles have the same rows, and columns that meet.
pub fn abreast(a: Rect, b: Rect) -> bool
    ensures { result ≡ rects.abreast a b }
{
    a.y == b.y && a.height == b.height && u64::from(a.x) <= right(b) && u64::from(b.x) <= right(a)
}
