//! The words of the calls that give, copy or read images (OpenGL ES 2.0.25, sections 3.7.1, 3.7.2 and 4.3.1), without their data.

use gl_base::GlEnum;

/// The words of TexImage2D: a new image for a level of what the target binds.
#[derive(Clone, Copy, Debug, PartialEq, Eq)]
pub struct ImageWords {
    pub target: GlEnum,
    pub level: i32,
    pub internal: GlEnum,
    pub width: i32,
    pub height: i32,
    pub border: i32,
    pub format: GlEnum,
    pub kind: GlEnum,
}

/// The words of TexSubImage2D: a rectangle of a level of what the target binds.
#[derive(Clone, Copy, Debug, PartialEq, Eq)]
pub struct PartWords {
    pub target: GlEnum,
    pub level: i32,
    pub x: i32,
    pub y: i32,
    pub width: i32,
    pub height: i32,
    pub format: GlEnum,
    pub kind: GlEnum,
}

/// The words of CopyTexImage2D: a new image for a level of what the target binds, from a rectangle of what is drawn to.
#[derive(Clone, Copy, Debug, PartialEq, Eq)]
pub struct CopyWords {
    pub target: GlEnum,
    pub level: i32,
    pub internal: GlEnum,
    pub x: i32,
    pub y: i32,
    pub width: i32,
    pub height: i32,
    pub border: i32,
}

/// The words of CopyTexSubImage2D: a rectangle of a level of what the target binds, from one of what is drawn to.
#[derive(Clone, Copy, Debug, PartialEq, Eq)]
pub struct CopyPartWords {
    pub target: GlEnum,
    pub level: i32,
    pub xoffset: i32,
    pub yoffset: i32,
    pub x: i32,
    pub y: i32,
    pub width: i32,
    pub height: i32,
}

/// The words of ReadPixels (section 4.3.1): a rectangle of what is drawn to, and how its pixels are given.
#[derive(Clone, Copy, Debug, PartialEq, Eq)]
pub struct ReadWords {
    pub x: i32,
    pub y: i32,
    pub width: i32,
    pub height: i32,
    pub format: GlEnum,
    pub kind: GlEnum,
}
