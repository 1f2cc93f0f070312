//! The vertex attributes (OpenGL ES 2.0.25, sections 2.7 and 2.8).
ghost use Rattle.std.specs.Prelude.{◌≡◌, ◌≤◌, ◌+◌, length};
ghost use Rattle.gl_base.specs.declared.limits.TheConstants.{LAST_ATTRIBUTE};
ghost use Rattle.gl_plain.specs.subjects.Attributes.{all_outside, attribute, no_arrays, outside, set_array_effect, vertex_attrib_4f_effect, vertex_attrib_pointer_effect};

use gl_base::GlEnum;
use gl_base::enums::{FLOAT, ONE};

/// How the array of a vertex attribute is read (OpenGL ES 2.0.25, section 2.8).
#[derive(Clone, Copy, Debug, PartialEq, Eq)]
pub struct ArraySpec {
    /// The number of the buffer that it lies in, if it lies in one.
    pub object: Option<u64>,
    /// How many numbers an element has, 1 to 4.
    pub size: u32,
    /// What kind of number they are.
    pub kind: GlEnum,
    /// Whether integers stand for fractions of their greatest value.
    pub normalized: bool,
    /// How many bytes lie from one element to the next, or 0 where they lie one behind the other.
    pub stride: u32,
    /// The byte at which the first element begins.
    pub offset: u32,
}

/// A vertex attribute (OpenGL ES 2.0.25, sections 2.7 and 2.8).
#[derive(Clone, Copy, Debug, PartialEq, Eq)]
pub struct VertexAttribute {
    /// Whether its values are those of the array.
    pub enabled: bool,
    pub array: ArraySpec,
    /// Its value where the array is not enabled, as four float patterns.
    pub constant: [u32; 4],
}

impl VertexAttribute {
    /// The attribute with its array in no buffer, where it lay in the one of this number.
    fn outside(self, object: u64) -> VertexAttribute
        ensures { result ≡ outside object self }
    {
        if self.array.object != Some(object) {
            return self;
        }
        VertexAttribute {
            array: ArraySpec {
                object: None,
                ..self.array
            },
            ..self
        }
    }
}

/// An attribute at the opening (sections 2.7 and 2.8).
const OPENING: VertexAttribute = VertexAttribute {
    enabled: false,
    array: ArraySpec {
        object: None,
        size: 4,
        kind: FLOAT,
        normalized: false,
        stride: 0,
        offset: 0,
    },
    constant: [0, 0, 0, ONE],
};

/// The sixteen vertex attributes, by their index.
#[derive(Clone, Copy, Debug, PartialEq, Eq)]
pub struct VertexAttributes {
    attributes: [VertexAttribute; 16],
}

impl VertexAttributes {
    /// The opening values: no array is enabled.
    pub fn new() -> VertexAttributes
        ensures { result ≡ no_arrays }
    {
        VertexAttributes {
            attributes: [OPENING; 16],
        }
    }

    /// The attribute of an index.
    pub fn get(&self, index: u32) -> VertexAttribute
        requires { index ≤ LAST_ATTRIBUTE }
        ensures { result ≡ attribute self.now index }
    {
        self.attributes[index as usize]
    }

    /// All attributes, by their index.
    pub fn all(&self) -> &[VertexAttribute; 16]
        ensures value { result.now ≡ self.now.attributes }
        ensures count { length result.now ≡ LAST_ATTRIBUTE + 1 }
    {
        &self.attributes
    }

    /// Enables the array of an index, or disables it.
    pub fn set_enabled(&mut self, index: u32, on: bool)
        requires { index ≤ LAST_ATTRIBUTE }
        ensures { self.new ≡ set_array_effect self.old index on }
    {
        self.attributes[index as usize].enabled = on;
    }

    /// Sets the constant value of an index, as four float patterns.
    pub fn set_constant(&mut self, index: u32, values: [u32; 4])
        requires { index ≤ LAST_ATTRIBUTE }
        ensures { self.new ≡ vertex_attrib_4f_effect self.old index values }
    {
        self.attributes[index as usize].constant = values;
    }

    /// Sets the array of an index.
    pub fn set_array(&mut self, index: u32, array: ArraySpec)
        requires { index ≤ LAST_ATTRIBUTE }
        ensures { self.new ≡ vertex_attrib_pointer_effect self.old index array }
    {
        self.attributes[index as usize].array = array;
    }

    /// Leaves no array in the buffer of this number.
    #[tactic(auto, using(std::proofs::lemmas::List::Edits::map_over_more))]
    pub fn unbind_buffer(&mut self, object: u64)
        ensures { self.new ≡ all_outside self.old object }
    {
        for index in 0..self.attributes.len() {
            self.attributes[index] = self.attributes[index].outside(object);
        }
    }
}
