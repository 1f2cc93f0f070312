//! The vertex attributes of the service (OpenGL ES 2.0.25, sections 2.7 and 2.8).
ghost use Rattle.std.specs.Prelude.{◌≡◌, ◌+◌, OnOk, OnErr, length};
ghost use Rattle.gl_base.specs.declared.limits.TheConstants.{LAST_ATTRIBUTE};
ghost use Rattle.gl_plain.specs.subjects.Attributes as plain;
ghost use Rattle.attrib_mgr.specs.Refused.{code_in, array_refusal};

use crate::refusals::{attribute_refusal, pointer_refusal};
use gl_plain::{ArraySpec, GlError, VertexAttribute, VertexAttributes};

/// The vertex attributes of the service. None of its calls takes memory, and a refused one changes nothing.
#[derive(Drop)]
pub struct Attribs {
    attributes: VertexAttributes,
}

impl Attribs {
    /// The opening values: no array is enabled.
    pub fn new() -> Attribs
        ensures { result.attributes ≡ plain.no_arrays }
    {
        Attribs {
            attributes: VertexAttributes::new(),
        }
    }

    /// All attributes, by their index.
    pub fn all(&self) -> &[VertexAttribute; 16]
        ensures value { result.now ≡ self.now.attributes.attributes }
        ensures count { length result.now ≡ LAST_ATTRIBUTE + 1 }
    {
        self.attributes.all()
    }

    /// Sets the array of an attribute. It is refused as `pointer_refusal` says.
    pub fn pointer(&mut self, index: u32, array: ArraySpec) -> Result<(), GlError>
        ensures refusal { code_in result ≡ array_refusal index array }
        ensures ok { OnOk result (self.new.attributes ≡ plain.vertex_attrib_pointer_effect self.old.attributes index array) }
        ensures err { OnErr result (self.new ≡ self.old) }
    {
        if let Some(error) = pointer_refusal(index, array) {
            return Err(error);
        }
        self.attributes.set_array(index, array);
        Ok(())
    }

    /// Enables the array of an attribute, or disables it. It is refused as `attribute_refusal` says.
    pub fn enable(&mut self, index: u32, on: bool) -> Result<(), GlError>
        ensures refusal { code_in result ≡ plain.attribute_refusal index }
        ensures ok { OnOk result (self.new.attributes ≡ plain.set_array_effect self.old.attributes index on) }
        ensures err { OnErr result (self.new ≡ self.old) }
    {
        if let Some(error) = attribute_refusal(index) {
            return Err(error);
        }
        self.attributes.set_enabled(index, on);
        Ok(())
    }

    /// Sets the constant value of an attribute, as four float patterns. It is refused as `attribute_refusal` says.
    pub fn constant(&mut self, index: u32, values: [u32; 4]) -> Result<(), GlError>
        ensures refusal { code_in result ≡ plain.attribute_refusal index }
        ensures ok { OnOk result (self.new.attributes ≡ plain.vertex_attrib_4f_effect self.old.attributes index values) }
        ensures err { OnErr result (self.new ≡ self.old) }
    {
        if let Some(error) = attribute_refusal(index) {
            return Err(error);
        }
        self.attributes.set_constant(index, values);
        Ok(())
    }

    /// Leaves no array in the buffer object of this number.
    pub fn unbind_buffer(&mut self, object: u64)
        ensures { self.new.attributes ≡ plain.all_outside self.old.attributes object }
    {
        self.attributes.unbind_buffer(object);
    }
}
