//! What asks for state (OpenGL ES 2.0.25, chapter 6), as commands and calls have it in common.
ghost use Rattle.std.specs.Prelude.{◌≡◌, true};
ghost use Rattle.gl_plain.specs.subjects.Draws.{is_index_kind};
ghost use Rattle.gl_plain.specs.query.Words.{index_enum};

use gl_base::GlEnum;
use gl_base::enums::{UNSIGNED_BYTE, UNSIGNED_SHORT};

/// The form in which a value is asked for (section 6.1.1).
#[derive(Clone, Copy, Debug, PartialEq, Eq)]
pub enum ValueForm {
    /// GetIntegerv.
    Integer,
    /// GetBooleanv.
    Boolean,
    /// GetFloatv.
    Float,
}

/// A kind of objects.
#[derive(Clone, Copy, Debug, PartialEq, Eq)]
pub enum ObjectKind {
    Buffer,
    Texture,
    Renderbuffer,
    Framebuffer,
    Shader,
    Program,
}

/// A kind of indices (section 2.8).
#[derive(Clone, Copy, Debug, PartialEq, Eq)]
pub enum IndexKind {
    UnsignedByte,
    UnsignedShort,
}

impl IndexKind {
    /// Its enum.
    pub fn to_enum(self) -> GlEnum
        ensures value { result ≡ index_enum self }
        ensures is_one { is_index_kind result ≡ true }
    {
        match self {
            IndexKind::UnsignedByte => UNSIGNED_BYTE,
            IndexKind::UnsignedShort => UNSIGNED_SHORT,
        }
    }
}

/// A query whose answer is words.
#[derive(Clone, Copy, Debug, PartialEq, Eq)]
pub enum WordQuery {
    /// GetIntegerv, GetBooleanv and GetFloatv.
    GetValue {
        form: ValueForm,
        pname: GlEnum,
    },
    CheckFramebufferStatus {
        target: GlEnum,
    },
    GetBufferParameteriv {
        target: GlEnum,
        pname: GlEnum,
    },
    GetTexParameteriv {
        target: GlEnum,
        pname: GlEnum,
    },
    GetRenderbufferParameteriv {
        target: GlEnum,
        pname: GlEnum,
    },
    GetFramebufferAttachmentParameteriv {
        target: GlEnum,
        attachment: GlEnum,
        pname: GlEnum,
    },
    /// GetVertexAttribfv, or else GetVertexAttribiv.
    GetVertexAttrib {
        index: u32,
        pname: GlEnum,
        float: bool,
    },
    GetShaderiv {
        shader: u32,
        pname: GlEnum,
    },
    GetProgramiv {
        program: u32,
        pname: GlEnum,
    },
    /// GetUniformfv, or else GetUniformiv.
    GetUniform {
        program: u32,
        location: i32,
        float: bool,
    },
    /// IsBuffer, IsTexture, IsRenderbuffer, IsFramebuffer, IsShader and IsProgram.
    IsObject {
        kind: ObjectKind,
        name: u32,
    },
    /// The greatest of so many indices of the buffer of indices, from an offset on. No call of OpenGL ES asks for it: a client needs it where
    /// it keeps arrays itself.
    GetMaxIndex {
        offset: u32,
        count: u32,
        kind: IndexKind,
    },
}

/// A query whose answer is bytes.
#[derive(Clone, Copy, Debug, PartialEq, Eq)]
pub enum ByteQuery {
    GetShaderInfoLog { shader: u32 },
    GetProgramInfoLog { program: u32 },
    GetShaderSource { shader: u32 },
    /// What a link found, from which GetActiveAttrib, GetActiveUniform, GetAttribLocation and GetUniformLocation are answered.
    GetProgramTable { program: u32 },
    GetAttachedShaders { program: u32 },
}
