//! The constants of OpenGL ES.

/// A word that names one of the constants of OpenGL ES 2.0, such as 0x8892 for ARRAY_BUFFER.
#[derive(Clone, Copy, Debug, PartialEq, Eq)]
pub struct GlEnum(pub u32);
