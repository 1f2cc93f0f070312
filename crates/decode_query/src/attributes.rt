//! GetVertexAttribiv and GetVertexAttribfv (OpenGL ES 2.0.25, section 6.1.8).
ghost use Rattle.std.specs.Prelude.{◌≡◌, ◌≤◌};
ghost use Rattle.gl_base.specs.declared.limits.TheConstants.{LAST_ATTRIBUTE};
ghost use Rattle.gl_plain.specs.subjects.Parameters as d;
ghost use Rattle.buffer_mgr.specs.Tables as buffers_as;

use crate::constants::one;
use crate::values::float_of_word;
use arrayvec::ArrayVec;
use attrib_mgr::Attribs;
use buffer_mgr::Buffers;
use gl_base::limits::LAST_ATTRIBUTE;
use gl_base::{GlEnum, query_enums as names};
use gl_plain::{GlError, VertexAttribute};

/// Whether the name is that of a parameter of the array.
fn is_array_parameter(pname: GlEnum) -> bool
    ensures { result ≡ d.is_array_parameter pname }
{
    matches!(
        pname,
        names::VERTEX_ATTRIB_ARRAY_ENABLED
            | names::VERTEX_ATTRIB_ARRAY_SIZE
            | names::VERTEX_ATTRIB_ARRAY_STRIDE
            | names::VERTEX_ATTRIB_ARRAY_TYPE
            | names::VERTEX_ATTRIB_ARRAY_NORMALIZED
            | names::VERTEX_ATTRIB_ARRAY_BUFFER_BINDING
    )
}

/// The refusal of GetVertexAttribfv, or else GetVertexAttribiv.
pub fn get_vertex_attrib_refusal(index: u32, pname: GlEnum, float: bool) -> Option<GlError>
    ensures { result ≡ d.get_vertex_attrib_refusal index pname float }
{
    if !(is_array_parameter(pname) || (float && pname == names::CURRENT_VERTEX_ATTRIB)) {
        return Some(GlError::InvalidEnum);
    }
    if index > LAST_ATTRIBUTE {
        return Some(GlError::InvalidValue);
    }
    None
}

/// The name of the buffer of this number, or 0.
fn name_of_object(buffers: &Buffers, object: Option<u64>) -> u32
    ensures { result ≡ d.name_of_object (buffers_as.tables buffers.now).names object }
{
    match object {
        Some(number) => buffers.name_of(number),
        None => 0,
    }
}

/// A parameter of the array of an attribute.
fn array_parameter(buffers: &Buffers, attribute: &VertexAttribute, pname: GlEnum) -> u32
    ensures { result ≡ d.array_parameter (buffers_as.tables buffers.now).names attribute.now pname }
{
    match pname {
        names::VERTEX_ATTRIB_ARRAY_ENABLED => u32::from(attribute.enabled),
        names::VERTEX_ATTRIB_ARRAY_SIZE => attribute.array.size,
        names::VERTEX_ATTRIB_ARRAY_STRIDE => attribute.array.stride,
        names::VERTEX_ATTRIB_ARRAY_TYPE => attribute.array.kind.0,
        names::VERTEX_ATTRIB_ARRAY_NORMALIZED => u32::from(attribute.array.normalized),
        _ => name_of_object(buffers, attribute.array.object),
    }
}

/// What they answer. The attribute is one of the sixteen.
pub fn get_vertex_attrib(
    buffers: &Buffers,
    attribs: &Attribs,
    index: u32,
    pname: GlEnum,
    float: bool,
) -> ArrayVec<u32, 4>
    requires { index ≤ LAST_ATTRIBUTE }
    ensures { result.items ≡ d.get_vertex_attrib (buffers_as.tables buffers.now).names attribs.now.attributes index pname float }
{
    let attribute = &attribs.all()[index as usize];
    if pname == names::CURRENT_VERTEX_ATTRIB {
        return ArrayVec::from(attribute.constant);
    }
    let word = array_parameter(buffers, attribute, pname);
    one(if float { float_of_word(word) } else { word })
}
