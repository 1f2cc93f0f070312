//! The indices of a draw (OpenGL ES 2.0.25, section 2.8).
ghost use Rattle.std.specs.Prelude.{◌≡◌, ◌<◌, ◌+◌, ◌-◌, ◌^◌};
ghost use Rattle.gl_plain.specs.subjects.Draws as d;

use gl_plain::{IndexView, is_index_kind};

/// Whether the draw has indices of a kind that is none.
pub fn has_wrong_kind(indices: &Option<IndexView>) -> bool
    ensures { result ≡ d.has_wrong_kind indices.now }
{
    match indices {
        Some(indices) => !is_index_kind(indices.kind),
        None => false,
    }
}

/// The number of the last element that is drawn: the greatest index, or none where indices are missing or not inside their buffer, and
/// without indices that of the last of so many elements.
pub fn last_element(indices: &Option<IndexView>, first: u32, count: u32) -> Option<u32>
    requires { first + (count - 1) < 2 ^ 32 }
    ensures { result ≡ d.last_element indices.now first count }
{
    match indices {
        Some(indices) => indices.last,
        None => Some(first + count.saturating_sub(1)),
    }
}
