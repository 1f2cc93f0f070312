//! The arrays of a draw (OpenGL ES 2.0.25, sections 2.8 and 2.9).
ghost use Rattle.std.specs.Prelude.{◌≡◌, ◌≤◌, ◌+◌};
ghost use Rattle.gl_plain.specs.subjects.Draws as d;

use gl_base::GlEnum;
use gl_base::enums::{BYTE, SHORT, UNSIGNED_BYTE, UNSIGNED_SHORT};
use gl_plain::{ArraySpec, ArrayView};

/// The bytes of a number of this kind, as an element of an array has them.
fn component_size(kind: GlEnum) -> u32
    ensures size { result ≡ d.component_size kind }
    ensures small { result ≤ 4 }
{
    if kind == BYTE || kind == UNSIGNED_BYTE {
        return 1;
    }
    if kind == SHORT || kind == UNSIGNED_SHORT {
        return 2;
    }
    4
}

/// The byte behind an element of an array. No sum of such numbers wraps in 128 bits.
fn end_of(array: &ArraySpec, element: u32) -> u128
    ensures { result ≡ d.place_of array.now element + d.element_size array.now }
{
    let size = u64::from(array.size) * u64::from(component_size(array.kind));
    let step = if array.stride == 0 {
        size
    } else {
        u64::from(array.stride)
    };
    u128::from(array.offset) + u128::from(element) * u128::from(step) + u128::from(size)
}

/// Whether an array, if it is enabled, lies in no buffer, or the last element not inside it. It is used where the lowest bit is set.
#[tactic(auto, using(std::proofs::lemmas::Nat::Bits::bit_at_lowest))]
fn array_fails(array: &ArrayView, used: u16, last: u32) -> bool
    ensures { result ≡ d.array_fails used last 0 array.now }
{
    if used % 2 == 0 || !array.on {
        return false;
    }
    array.spec.object.is_none() || u128::from(array.bytes) < end_of(&array.spec, last)
}

/// Whether the array of a used location, if it is enabled, lies in no buffer, or the last element not inside it. Locations behind the last
/// one that is used cost nothing.
#[tactic(auto, using(crate::proofs::Locations::none_fails))]
pub fn any_array_fails(arrays: &[ArrayView; 16], used: u16, last: u32) -> bool
    ensures { result ≡ d.any_array_fails used last 0 arrays.now }
{
    let mut rest = used;
    for array in arrays {
        if rest == 0 {
            return false;
        }
        if array_fails(array, rest, last) {
            return true;
        }
        rest /= 2;
    }
    false
}
