//! Commands, as they are read from the ring and as their words spell them.
ghost use Rattle.std.specs.Prelude.{◌≡◌};

use crate::{
    ByteQuery, Bytes, CopyPartWords, CopyWords, ImageWords, PartWords, ReadWords, WordQuery,
};
use arrayvec::ArrayVec;
use gl_base::{FloatBits, GlEnum};

/// Why a command is malformed.
#[derive(Clone, Copy, Debug, PartialEq, Eq)]
pub enum Malformed {
    InvalidSize,
    OutOfBounds,
    UnknownCommand,
    InvalidArguments,
}

/// A malformed command: why, and the entry of its header.
#[derive(Clone, Copy, Debug, PartialEq, Eq)]
pub struct Stop {
    pub kind: Malformed,
    pub place: u32,
}

/// A command as it was read: its number, its argument words (none of a Noop), its data, and the entry of its header.
#[derive(Debug, Drop)]
pub struct Fetched {
    pub number: u32,
    pub words: ArrayVec<u32, 16>,
    pub payload: Bytes,
    pub place: u32,
}

/// The four words that say where a command's data is: a source, how many bytes, and two words whose meaning is the source's.
#[derive(Clone, Copy, Debug, PartialEq, Eq)]
pub struct DataWords {
    pub source: u32,
    pub count: u32,
    pub a: u32,
    pub b: u32,
}

/// The words of VertexAttribPointer that say how the array is read (OpenGL ES 2.0.25, section 2.8).
#[derive(Clone, Copy, Debug, PartialEq, Eq)]
pub struct ArrayWords {
    /// How many numbers an element has.
    pub size: i32,
    /// What kind of number they are.
    pub kind: GlEnum,
    pub normalized: bool,
    /// How many bytes lie from one element to the next, or 0.
    pub stride: i32,
    /// The byte at which the first element begins.
    pub offset: u32,
}

/// A command on an object: its words as arguments. Its data, if it has any, comes beside it.
#[derive(Clone, Copy, Debug, PartialEq, Eq)]
pub enum ObjectCommand {
    /// GenBuffers, for the one id that the client gives.
    GenBuffers {
        id: u32,
    },
    BindBuffer {
        target: GlEnum,
        id: u32,
    },
    BufferData {
        target: GlEnum,
        size: i32,
        usage: GlEnum,
        words: DataWords,
    },
    BufferSubData {
        target: GlEnum,
        offset: i32,
        size: i32,
        words: DataWords,
    },
    /// DeleteBuffers, for one id.
    DeleteBuffers {
        id: u32,
    },
    /// GenTextures, for the one id that the client gives.
    GenTextures {
        id: u32,
    },
    BindTexture {
        target: GlEnum,
        id: u32,
    },
    /// DeleteTextures, for one id.
    DeleteTextures {
        id: u32,
    },
    /// GenRenderbuffers, for the one id that the client gives.
    GenRenderbuffers {
        id: u32,
    },
    BindRenderbuffer {
        target: GlEnum,
        id: u32,
    },
    /// DeleteRenderbuffers, for one id.
    DeleteRenderbuffers {
        id: u32,
    },
    /// GenFramebuffers, for the one id that the client gives.
    GenFramebuffers {
        id: u32,
    },
    BindFramebuffer {
        target: GlEnum,
        id: u32,
    },
    /// DeleteFramebuffers, for one id.
    DeleteFramebuffers {
        id: u32,
    },
    FramebufferTexture2D {
        target: GlEnum,
        attachment: GlEnum,
        textarget: GlEnum,
        texture: u32,
        level: i32,
    },
    FramebufferRenderbuffer {
        target: GlEnum,
        attachment: GlEnum,
        rbtarget: GlEnum,
        renderbuffer: u32,
    },
    VertexAttrib4f {
        index: u32,
        x: FloatBits,
        y: FloatBits,
        z: FloatBits,
        w: FloatBits,
    },
    VertexAttribPointer {
        index: u32,
        array: ArrayWords,
    },
    EnableVertexAttribArray {
        index: u32,
    },
    DisableVertexAttribArray {
        index: u32,
    },
    /// CreateShader, under the id that the client gives.
    CreateShader {
        id: u32,
        kind: GlEnum,
    },
    ShaderSource {
        shader: u32,
        words: DataWords,
    },
    CompileShader {
        shader: u32,
    },
    DeleteShader {
        shader: u32,
    },
    /// CreateProgram, under the id that the client gives.
    CreateProgram {
        id: u32,
    },
    AttachShader {
        program: u32,
        shader: u32,
    },
    DetachShader {
        program: u32,
        shader: u32,
    },
    /// BindAttribLocation, for the name that is its data.
    BindAttribLocation {
        program: u32,
        index: u32,
        words: DataWords,
    },
    LinkProgram {
        program: u32,
    },
    ValidateProgram {
        program: u32,
    },
    UseProgram {
        program: u32,
    },
    DeleteProgram {
        program: u32,
    },
    /// All calls of Uniform, by the kind of what is given.
    Uniform {
        location: i32,
        kind: u32,
        count: i32,
        transpose: bool,
        words: DataWords,
    },
}

/// A command on a bucket, where the service keeps data that is longer than a region.
#[derive(Clone, Copy, Debug, PartialEq, Eq)]
pub enum BucketCommand {
    /// The bucket becomes so many zeros.
    SetSize {
        bucket: u32,
        size: u32,
    },
    /// The data is written into the bucket, from an offset on.
    SetData {
        bucket: u32,
        offset: u32,
        words: DataWords,
    },
    /// The reply is the bucket's size.
    GetStart {
        bucket: u32,
    },
    /// The reply is so many of the bucket's bytes, from an offset on.
    GetData {
        bucket: u32,
        offset: u32,
        count: u32,
    },
}

/// A command on an image of a texture or of a renderbuffer, or on a texture's parameters. Its data, if it has any, comes beside it.
#[derive(Clone, Copy, Debug, PartialEq, Eq)]
pub enum ImageCommand {
    TexImage2D {
        image: ImageWords,
        words: DataWords,
    },
    TexSubImage2D {
        part: PartWords,
        words: DataWords,
    },
    CopyTexImage2D {
        copy: CopyWords,
    },
    CopyTexSubImage2D {
        copy: CopyPartWords,
    },
    TexParameteri {
        target: GlEnum,
        pname: GlEnum,
        value: GlEnum,
    },
    GenerateMipmap {
        target: GlEnum,
    },
    RenderbufferStorage {
        target: GlEnum,
        format: GlEnum,
        width: i32,
        height: i32,
    },
}

/// A command on the fixed state, or one that clears or draws.
#[derive(Clone, Copy, Debug, PartialEq, Eq)]
pub enum DrawCommand {
    ActiveTexture {
        unit: GlEnum,
    },
    /// The commands from Enable to Viewport: the number, and the words, of which those behind the last one count for nothing.
    Raster {
        number: u32,
        words: [u32; 4],
    },
    Clear {
        mask: u32,
    },
    DrawArrays {
        mode: GlEnum,
        first: i32,
        count: i32,
    },
    DrawElements {
        mode: GlEnum,
        count: i32,
        kind: GlEnum,
        offset: u32,
    },
    Flush,
    Finish,
}

/// A command that asks for state, or for pixels.
#[derive(Clone, Copy, Debug, PartialEq, Eq)]
pub enum QueryCommand {
    /// ReadPixels, whose pixels go into a bucket.
    ReadPixels { words: ReadWords, bucket: u32 },
    GetError,
    Words(WordQuery),
    /// The bytes go into a bucket.
    Bytes { query: ByteQuery, bucket: u32 },
}

/// A command, as its number and its words spell it.
#[derive(Clone, Copy, Debug, PartialEq, Eq)]
pub enum Command {
    /// Nothing is done.
    Noop,
    SetToken { token: u32 },
    Bucket(BucketCommand),
    Object(ObjectCommand),
    Image(ImageCommand),
    Draw(DrawCommand),
    Query(QueryCommand),
}

impl DataWords {
    ghost use Rattle.gl_plain.specs.subjects.Data as d;

    /// Whether they are those of no data.
    pub fn has_no_data(self) -> bool
        ensures { result ≡ d.has_no_data self }
    {
        self.source == 0 && self.count == 0 && self.a == 0 && self.b == 0
    }

    /// Whether they are those of as many bytes as are needed, in shared memory or in a bucket.
    pub fn has_needed_data(self, needed: u32) -> bool
        ensures { result ≡ d.has_needed_data self needed }
    {
        (self.source == 1 || self.source == 2) && self.count == needed
    }

    /// Whether they are those of as many bytes as are needed, or of no data where none are.
    pub fn has_just_needed_data(self, needed: u32) -> bool
        ensures { result ≡ d.has_just_needed_data self needed }
    {
        (self.has_no_data() && needed == 0) || self.has_needed_data(needed)
    }
}

impl ObjectCommand {
    ghost use Rattle.gl_plain.specs.object.Commands.{object_data_words};

    /// The words of its data, if it has any.
    pub fn data_words(self) -> Option<DataWords>
        ensures { result ≡ object_data_words self }
    {
        match self {
            ObjectCommand::BufferData { words, .. }
            | ObjectCommand::BufferSubData { words, .. }
            | ObjectCommand::ShaderSource { words, .. }
            | ObjectCommand::BindAttribLocation { words, .. }
            | ObjectCommand::Uniform { words, .. } => Some(words),
            ObjectCommand::GenBuffers { .. }
            | ObjectCommand::BindBuffer { .. }
            | ObjectCommand::DeleteBuffers { .. }
            | ObjectCommand::GenTextures { .. }
            | ObjectCommand::BindTexture { .. }
            | ObjectCommand::DeleteTextures { .. }
            | ObjectCommand::GenRenderbuffers { .. }
            | ObjectCommand::BindRenderbuffer { .. }
            | ObjectCommand::DeleteRenderbuffers { .. }
            | ObjectCommand::GenFramebuffers { .. }
            | ObjectCommand::BindFramebuffer { .. }
            | ObjectCommand::DeleteFramebuffers { .. }
            | ObjectCommand::FramebufferTexture2D { .. }
            | ObjectCommand::FramebufferRenderbuffer { .. }
            | ObjectCommand::VertexAttrib4f { .. }
            | ObjectCommand::VertexAttribPointer { .. }
            | ObjectCommand::EnableVertexAttribArray { .. }
            | ObjectCommand::DisableVertexAttribArray { .. }
            | ObjectCommand::CreateShader { .. }
            | ObjectCommand::CompileShader { .. }
            | ObjectCommand::DeleteShader { .. }
            | ObjectCommand::CreateProgram { .. }
            | ObjectCommand::AttachShader { .. }
            | ObjectCommand::DetachShader { .. }
            | ObjectCommand::LinkProgram { .. }
            | ObjectCommand::ValidateProgram { .. }
            | ObjectCommand::UseProgram { .. }
            | ObjectCommand::DeleteProgram { .. } => None,
        }
    }
}

impl ImageCommand {
    ghost use Rattle.gl_plain.specs.image.Commands.{image_data_words};

    /// The words of its data, if it has any.
    pub fn data_words(self) -> Option<DataWords>
        ensures { result ≡ image_data_words self }
    {
        match self {
            ImageCommand::TexImage2D { words, .. } | ImageCommand::TexSubImage2D { words, .. } => {
                Some(words)
            }
            ImageCommand::CopyTexImage2D { .. }
            | ImageCommand::CopyTexSubImage2D { .. }
            | ImageCommand::TexParameteri { .. }
            | ImageCommand::GenerateMipmap { .. }
            | ImageCommand::RenderbufferStorage { .. } => None,
        }
    }
}

impl Command {
    ghost use Rattle.gl_plain.specs.Wire.{reply_bucket};

    /// The bucket that its reply goes into, if it goes into one.
    pub fn reply_bucket(self) -> Option<u32>
        ensures { result ≡ reply_bucket self }
    {
        match self {
            Command::Query(
                QueryCommand::ReadPixels { bucket, .. } | QueryCommand::Bytes { bucket, .. },
            ) => Some(bucket),
            Command::Query(QueryCommand::GetError | QueryCommand::Words(_))
            | Command::Noop
            | Command::SetToken { .. }
            | Command::Bucket(_)
            | Command::Object(_)
            | Command::Image(_)
            | Command::Draw(_) => None,
        }
    }
}
