//! When a call on a vertex attribute is refused (OpenGL ES 2.0.25, sections 2.7 and 2.8).
ghost use Rattle.std.specs.Prelude.{◌≡◌};
ghost use Rattle.gl_plain.specs.subjects.Attributes as plain;
ghost use Rattle.attrib_mgr.specs.Refused.{array_refusal};

use gl_base::GlEnum;
use gl_base::enums::{BYTE, FIXED, FLOAT, SHORT, UNSIGNED_BYTE, UNSIGNED_SHORT};
use gl_base::limits::LAST_ATTRIBUTE;
use gl_plain::{ArraySpec, GlError};

/// The refusal of a call on the attribute of this index: INVALID_VALUE for one past the last.
pub fn attribute_refusal(index: u32) -> Option<GlError>
    ensures { result ≡ plain.attribute_refusal index }
{
    if index > LAST_ATTRIBUTE {
        return Some(GlError::InvalidValue);
    }
    None
}

fn is_attribute_kind(kind: GlEnum) -> bool
    ensures { result ≡ plain.is_attribute_kind kind }
{
    kind == BYTE
        || kind == UNSIGNED_BYTE
        || kind == SHORT
        || kind == UNSIGNED_SHORT
        || kind == FLOAT
        || kind == FIXED
}

/// The refusal of VertexAttribPointer: INVALID_ENUM for a kind that is none; INVALID_VALUE for an index past the last, a size that is not
/// 1 to 4, or a stride above 0x7FFFFFFF, which is a negative one.
pub fn pointer_refusal(index: u32, array: ArraySpec) -> Option<GlError>
    ensures { result ≡ array_refusal index array }
{
    if !is_attribute_kind(array.kind) {
        return Some(GlError::InvalidEnum);
    }
    if index > LAST_ATTRIBUTE || array.size < 1 || array.size > 4 || array.stride > 0x7FFF_FFFF {
        return Some(GlError::InvalidValue);
    }
    None
}
