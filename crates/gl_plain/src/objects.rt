//! What the tables keep of a name and of an object.

use crate::Bytes;
use gl_base::GlEnum;

/// A name in use: the number of its object, which it gets when it is given and which is never used again,
/// and whether the object is there, as it is from its first bind on.
#[derive(Clone, Copy, Debug, PartialEq, Eq)]
pub struct Name {
    pub number: u64,
    pub is_object: bool,
}

/// A buffer object as tables have it (OpenGL ES 2.0.25, section 2.9).
#[derive(Debug, Drop)]
pub struct Buffer {
    pub bytes: Bytes,
    pub usage: GlEnum,
}
