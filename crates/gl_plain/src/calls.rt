//! The calls of OpenGL ES, and their replies.

use crate::{
    ByteQuery, Bytes, CopyPartWords, CopyWords, ImageWords, PartWords, ReadWords, Seq, WordQuery,
    Words,
};
use gl_base::{FloatBits, GlEnum};

/// The data that a call is given.
#[derive(Debug, Drop)]
pub enum Payload {
    /// No data, as a null pointer.
    Absent,
    /// These bytes.
    Here(Bytes),
}

/// Where an array begins.
#[derive(Clone, Copy, Debug, PartialEq, Eq)]
pub enum Pointer {
    /// At this byte of the buffer that is bound.
    Number(u32),
}

/// Names of objects.
pub type Names = Seq<u32>;

/// A call on an object.
#[derive(Debug, Drop)]
pub enum ObjectCall {
    GenBuffers {
        count: i32,
    },
    BindBuffer {
        target: GlEnum,
        buffer: u32,
    },
    BufferData {
        target: GlEnum,
        size: i32,
        data: Payload,
        usage: GlEnum,
    },
    BufferSubData {
        target: GlEnum,
        offset: i32,
        size: i32,
        data: Payload,
    },
    DeleteBuffers {
        buffers: Names,
    },
    GenTextures {
        count: i32,
    },
    BindTexture {
        target: GlEnum,
        texture: u32,
    },
    DeleteTextures {
        textures: Names,
    },
    GenRenderbuffers {
        count: i32,
    },
    BindRenderbuffer {
        target: GlEnum,
        renderbuffer: u32,
    },
    DeleteRenderbuffers {
        renderbuffers: Names,
    },
    GenFramebuffers {
        count: i32,
    },
    BindFramebuffer {
        target: GlEnum,
        framebuffer: u32,
    },
    DeleteFramebuffers {
        framebuffers: Names,
    },
    FramebufferTexture2D {
        target: GlEnum,
        attachment: GlEnum,
        textarget: GlEnum,
        texture: u32,
        level: i32,
    },
    FramebufferRenderbuffer {
        target: GlEnum,
        attachment: GlEnum,
        rbtarget: GlEnum,
        renderbuffer: u32,
    },
    VertexAttrib4f {
        index: u32,
        x: FloatBits,
        y: FloatBits,
        z: FloatBits,
        w: FloatBits,
    },
    VertexAttribPointer {
        index: u32,
        size: i32,
        kind: GlEnum,
        normalized: bool,
        stride: i32,
        pointer: Pointer,
    },
    EnableVertexAttribArray {
        index: u32,
    },
    DisableVertexAttribArray {
        index: u32,
    },
    CreateShader {
        kind: GlEnum,
    },
    ShaderSource {
        shader: u32,
        source: Payload,
    },
    CompileShader {
        shader: u32,
    },
    DeleteShader {
        shader: u32,
    },
    CreateProgram,
    AttachShader {
        program: u32,
        shader: u32,
    },
    DetachShader {
        program: u32,
        shader: u32,
    },
    BindAttribLocation {
        program: u32,
        index: u32,
        name: Bytes,
    },
    LinkProgram {
        program: u32,
    },
    ValidateProgram {
        program: u32,
    },
    UseProgram {
        program: u32,
    },
    DeleteProgram {
        program: u32,
    },
    /// All calls of Uniform: `kind` is 1 to 4 for so many floats, 5 to 8 for 1 to 4 signed numbers, and 9 to 11 for square matrices of 2 to 4
    /// columns.
    Uniform {
        location: i32,
        kind: u32,
        count: i32,
        transpose: bool,
        values: Payload,
    },
}

/// A call on an image of a texture or of a renderbuffer, or on a texture's parameters.
#[derive(Debug, Drop)]
pub enum ImageCall {
    TexImage2D {
        image: ImageWords,
        data: Payload,
    },
    TexSubImage2D {
        part: PartWords,
        data: Payload,
    },
    CopyTexImage2D {
        copy: CopyWords,
    },
    CopyTexSubImage2D {
        copy: CopyPartWords,
    },
    TexParameteri {
        target: GlEnum,
        pname: GlEnum,
        value: GlEnum,
    },
    GenerateMipmap {
        target: GlEnum,
    },
    RenderbufferStorage {
        target: GlEnum,
        format: GlEnum,
        width: i32,
        height: i32,
    },
}

/// A call that chooses the active unit, clears, draws, or waits for what was drawn.
#[derive(Clone, Copy, Debug, PartialEq, Eq)]
pub enum DrawCall {
    ActiveTexture {
        unit: GlEnum,
    },
    Clear {
        mask: u32,
    },
    DrawArrays {
        mode: GlEnum,
        first: i32,
        count: i32,
    },
    DrawElements {
        mode: GlEnum,
        count: i32,
        kind: GlEnum,
        indices: Pointer,
    },
    Flush,
    Finish,
}

/// A call that asks for state, or for pixels.
#[derive(Clone, Copy, Debug, PartialEq, Eq)]
pub enum QueryCall {
    ReadPixels { words: ReadWords },
    GetError,
    Words(WordQuery),
    Bytes(ByteQuery),
}

/// A call of OpenGL ES 2.0.
#[derive(Debug, Drop)]
pub enum Call {
    Object(ObjectCall),
    Image(ImageCall),
    /// The calls that set the fixed state, from Enable to Viewport, by the number of their command.
    Raster { number: u32, words: Words },
    Draw(DrawCall),
    Query(QueryCall),
}

/// What a call gives back.
#[derive(Debug, Drop)]
pub enum Reply {
    None,
    Word(u32),
    Words(Words),
    Names(Names),
    Bytes(Bytes),
    /// An error code, or 0 for NO_ERROR.
    Error(u32),
}

/// The replies of a run, in the order of its commands.
pub type ReplyList = Seq<Reply>;
