//! The calls of a driver, its answers, and the journal of both.
ghost use Rattle.std.specs.Prelude.{◌≡◌};
ghost use Rattle.gl_plain.specs.Oracle.{no_answers};

use crate::{Bytes, CopyPartWords, ImagePlace, LinkAnswer, PartWords, Payload, Seq, Words};
use gl_base::{GlEnum, Rect};
use std::alloc::Global;

/// A driver call on an object. Names are the driver's own.
#[derive(Debug, Drop)]
pub enum ObjectDriver {
    GenBuffer,
    BindBuffer {
        target: GlEnum,
        name: u64,
    },
    BufferData {
        target: GlEnum,
        bytes: Bytes,
        usage: GlEnum,
    },
    BufferSubData {
        target: GlEnum,
        offset: i32,
        bytes: Bytes,
    },
    DeleteBuffer {
        name: u64,
    },
    GenTexture,
    BindTexture {
        target: GlEnum,
        name: u64,
    },
    DeleteTexture {
        name: u64,
    },
    GenRenderbuffer,
    BindRenderbuffer {
        name: u64,
    },
    DeleteRenderbuffer {
        name: u64,
    },
    GenFramebuffer,
    BindFramebuffer {
        name: u64,
    },
    DeleteFramebuffer {
        name: u64,
    },
    /// Level 0 of a texture is attached to the framebuffer that is bound, or nothing for the name 0.
    FramebufferTexture {
        attachment: GlEnum,
        textarget: GlEnum,
        name: u64,
    },
    /// A renderbuffer is attached to the framebuffer that is bound, or nothing for the name 0.
    FramebufferRenderbuffer {
        attachment: GlEnum,
        name: u64,
    },
    /// The constant value of a vertex attribute, as four float patterns.
    VertexAttrib4 {
        index: u32,
        values: [u32; 4],
    },
    VertexAttribPointer {
        index: u32,
        size: i32,
        kind: GlEnum,
        normalized: bool,
        stride: i32,
        offset: u32,
    },
    /// Whether the array of a vertex attribute is enabled.
    SetArray {
        index: u32,
        on: bool,
    },
}

/// A driver call on an image of a texture or of a renderbuffer, or on a texture's parameters, or one that reads pixels.
#[derive(Debug, Drop)]
pub enum ImageDriver {
    /// A new image for a level of what the target binds: its rows without padding, or none.
    TexImage {
        target: GlEnum,
        level: i32,
        format: GlEnum,
        kind: GlEnum,
        width: i32,
        height: i32,
        payload: Payload,
    },
    /// A rectangle of a level of what the target binds: its rows without padding.
    TexSubImage {
        part: PartWords,
        bytes: Bytes,
    },
    /// A rectangle of an image that was not written becomes zero.
    ZeroLevel {
        place: ImagePlace,
        rect: Rect,
    },
    TexParameter {
        target: GlEnum,
        pname: GlEnum,
        value: GlEnum,
    },
    /// A new image for a level of what the target binds, from a rectangle of what is drawn to.
    CopyTexImage {
        target: GlEnum,
        level: i32,
        format: GlEnum,
        x: i32,
        y: i32,
        width: i32,
        height: i32,
    },
    /// A rectangle of a level of what the target binds, from one of what is drawn to.
    CopyTexSubImage {
        copy: CopyPartWords,
    },
    GenerateMipmap {
        target: GlEnum,
    },
    /// A new image for the renderbuffer that is bound.
    RenderbufferStorage {
        format: GlEnum,
        width: i32,
        height: i32,
    },
    /// The image of a renderbuffer that was not written becomes zero.
    ZeroRenderbuffer {
        name: u64,
    },
    /// A rectangle of the colours that are drawn to, as RGBA in four bytes.
    ReadPixels {
        x: i32,
        y: i32,
        width: i32,
        height: i32,
    },
}

/// A driver call on a shader or a program. Names are the driver's own.
#[derive(Debug, Drop)]
pub enum ProgramDriver {
    CreateShader {
        kind: GlEnum,
    },
    CreateProgram,
    DeleteShader {
        name: u64,
    },
    DeleteProgram {
        name: u64,
    },
    ShaderSource {
        name: u64,
        bytes: Bytes,
    },
    CompileShader {
        name: u64,
    },
    AttachShader {
        program: u64,
        shader: u64,
    },
    DetachShader {
        program: u64,
        shader: u64,
    },
    BindAttribLocation {
        program: u64,
        index: u32,
        name: Bytes,
    },
    LinkProgram {
        name: u64,
    },
    ValidateProgram {
        name: u64,
    },
    UseProgram {
        name: u64,
    },
    /// The elements of a uniform from this location on, in the executable that is in use.
    Uniform {
        location: i32,
        kind: u32,
        count: i32,
        bytes: Bytes,
    },
}

/// A driver call on the active unit or the fixed state, or one that clears or draws.
#[derive(Debug, Drop)]
pub enum DrawDriver {
    /// The unit of this number, from 0, is the active one.
    ActiveTexture {
        unit: u32,
    },
    /// The calls that set the fixed state, from Enable to Viewport, by the number of their command, with its words as they are kept.
    SetRaster {
        number: u32,
        words: Words,
    },
    Clear {
        mask: u32,
    },
    /// The mask has a bit for each unit that is sampled and whose texture is not complete.
    DrawArrays {
        mode: GlEnum,
        first: i32,
        count: i32,
        black: u32,
    },
    DrawElements {
        mode: GlEnum,
        count: i32,
        kind: GlEnum,
        offset: u32,
        black: u32,
    },
}

/// A driver call.
#[derive(Debug, Drop)]
pub enum DriverCall {
    Object(ObjectDriver),
    Image(ImageDriver),
    Program(ProgramDriver),
    Draw(DrawDriver),
}

/// A driver's answer to a call.
#[derive(Debug, Drop)]
pub enum Answer {
    Done,
    /// The name that a call for a new one gave.
    Name(u64),
    /// There was no room for what was to be stored, and nothing was changed.
    Oom,
    /// What a compilation said.
    Compile { ok: bool, log: Bytes },
    /// What a link said.
    Link(LinkAnswer),
    /// What a validation said.
    Validate { ok: bool, log: Bytes },
    /// The pixels that were read.
    Pixels(Bytes),
}

/// Answers of one kind, in the order in which they are given.
pub type AnswerList = Seq<Answer>;

/// Whether there was room for what was to be stored.
#[derive(Clone, Copy, Debug, PartialEq, Eq)]
pub enum Stored {
    Done,
    Oom,
}

/// A call that a driver was given, with its answer.
#[derive(Debug, Drop)]
pub struct DriverEntry {
    pub call: DriverCall,
    pub answer: Answer,
}

/// A journal: the entries in the order of the calls.
pub type EntryList = Seq<DriverEntry>;

/// The answers that a driver is given before it is called, and the call at which it is lost. Where the answers of a kind run out, it went
/// well, the log is empty, there are no attributes and no uniforms, and pixels are zero. So it is in place of an answer of another kind.
#[derive(Debug, Drop)]
pub struct Answers {
    /// What compilations say.
    pub compile: AnswerList,
    /// What links say.
    pub link: AnswerList,
    /// What validations say.
    pub validate: AnswerList,
    /// The pixels that are read. Each is cut or filled with zeros to the length that is asked for.
    pub pixels: AnswerList,
    /// Which of the calls that ask for room, counted from 0, find none.
    pub oom: Words,
    /// How many calls are answered before the driver is lost, if it ever is.
    pub lost: Option<u32>,
}

impl Answers {
    /// All goes well, there is always room, and the driver is never lost. It takes no memory.
    pub fn new(alloc: Global) -> Answers
        ensures { result ≡ no_answers }
    {
        Answers {
            compile: AnswerList::new(alloc),
            link: AnswerList::new(alloc),
            validate: AnswerList::new(alloc),
            pixels: AnswerList::new(alloc),
            oom: Words::new(alloc),
            lost: None,
        }
    }
}
