//! Shaders, programs and executables as tables have them (OpenGL ES 2.0.25, section 2.10).

use crate::{Bytes, Seq, Words};
use gl_base::GlEnum;

/// What a compiler or a validation says.
#[derive(Debug, Drop)]
pub struct Verdict {
    /// Whether it went well.
    pub ok: bool,
    pub log: Bytes,
}

/// An active attribute of an executable (section 2.10.4).
#[derive(Debug, Drop)]
pub struct Attribute {
    pub name: Bytes,
    pub kind: GlEnum,
    /// Its location, or the first of them where it is a matrix, which takes one for each column.
    pub location: u32,
}

/// An active uniform of an executable (section 2.10.4).
#[derive(Debug, Drop)]
pub struct Uniform {
    /// Its name, which ends in `[0]` where it is an array.
    pub name: Bytes,
    pub kind: GlEnum,
    /// How many elements it has: 1 where it is no array.
    pub size: u32,
}

/// The active attributes of an executable.
pub type AttributeList = Seq<Attribute>;

/// The active uniforms of an executable, in the order of their locations.
pub type UniformList = Seq<Uniform>;

/// What a linker says. A failed link has no attributes and no uniforms.
#[derive(Debug, Drop)]
pub struct LinkAnswer {
    /// Whether it went well.
    pub ok: bool,
    pub log: Bytes,
    pub attributes: AttributeList,
    pub uniforms: UniformList,
}

/// The location that BindAttribLocation asks for an attribute of this name (section 2.10.4).
#[derive(Debug, Drop)]
pub struct BoundLocation {
    pub name: Bytes,
    pub index: u32,
}

/// The locations that were asked for, in the order of the calls. A later one for a name stands in place of an earlier one.
pub type BoundLocationList = Seq<BoundLocation>;

/// A shader object (section 2.10.1).
#[derive(Debug, Drop)]
pub struct Shader {
    /// VERTEX_SHADER or FRAGMENT_SHADER.
    pub kind: GlEnum,
    pub source: Bytes,
    /// The source as it was compiled last, if it ever was.
    pub compiled: Option<Bytes>,
    /// Whether the last compilation went well (COMPILE_STATUS).
    pub is_compiled: bool,
    /// What the last compilation said.
    pub log: Bytes,
    /// Whether it goes once no program has it attached (DELETE_STATUS).
    pub is_deleted: bool,
    /// How many programs have it attached.
    pub attachments: u64,
}

/// What a program is used by, once it was linked (section 2.10.3). The program and what is in use may be one executable.
#[derive(Debug, Drop)]
pub struct Executable {
    /// The sources of the vertex and of the fragment shader, as they were compiled last before the link.
    pub vertex: Bytes,
    pub fragment: Bytes,
    /// The locations that were asked for before the link.
    pub bound: BoundLocationList,
    /// What the linker said.
    pub answer: LinkAnswer,
    /// The words of all elements of all uniforms, in the order of their locations.
    pub values: Words,
}

/// Driver names of objects.
pub type Numbers = Seq<u64>;

/// A program object (section 2.10.3).
#[derive(Debug, Drop)]
pub struct Program {
    /// The numbers of the shaders that are attached, in the order in which they were.
    pub attached: Numbers,
    pub bound: BoundLocationList,
    /// What the last link or validation said.
    pub log: Bytes,
    /// The executable of the last link, where it went well (LINK_STATUS).
    pub executable: Option<Executable>,
    /// Whether the last validation went well (VALIDATE_STATUS).
    pub is_valid: bool,
    /// Whether it goes once it is not current (DELETE_STATUS).
    pub is_deleted: bool,
}
