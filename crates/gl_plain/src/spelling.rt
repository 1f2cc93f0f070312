//! The commands, as their numbers and words spell them.
ghost use Rattle.std.specs.Prelude.{◌≡◌, ◌≤◌, slice_index};
ghost use Rattle.gl_plain.specs.object.Commands.{object_command_in, program_command_in, target_command_in};
ghost use Rattle.gl_plain.specs.image.Commands.{image_command_in};
ghost use Rattle.gl_plain.specs.draw.Commands.{draw_command_in};
ghost use Rattle.gl_plain.specs.Commands.{bucket_command_in, command_in};

use crate::numbers::{
    ACTIVE_TEXTURE, ATTACH_SHADER, BIND_ATTRIB_LOCATION, BIND_BUFFER, BIND_FRAMEBUFFER,
    BIND_RENDERBUFFER, BIND_TEXTURE, BUFFER_DATA, BUFFER_SUB_DATA, CLEAR, COMPILE_SHADER,
    COPY_TEX_IMAGE_2D, COPY_TEX_SUB_IMAGE_2D, CREATE_PROGRAM, CREATE_SHADER, DELETE_BUFFERS,
    DELETE_FRAMEBUFFERS, DELETE_PROGRAM, DELETE_RENDERBUFFERS, DELETE_SHADER, DELETE_TEXTURES,
    DETACH_SHADER, DISABLE_VERTEX_ATTRIB_ARRAY, DRAW_ARRAYS, DRAW_ELEMENTS, ENABLE,
    ENABLE_VERTEX_ATTRIB_ARRAY, FINISH, FLUSH, FRAMEBUFFER_RENDERBUFFER, FRAMEBUFFER_TEXTURE_2D,
    GEN_BUFFERS, GEN_FRAMEBUFFERS, GEN_RENDERBUFFERS, GEN_TEXTURES, GENERATE_MIPMAP,
    GET_BUCKET_DATA, GET_BUCKET_START, LINK_PROGRAM, NOOP, RENDERBUFFER_STORAGE, SET_BUCKET_DATA,
    SET_BUCKET_SIZE, SET_TOKEN, SHADER_SOURCE, TEX_IMAGE_2D, TEX_PARAMETERI, TEX_SUB_IMAGE_2D,
    UNIFORM, USE_PROGRAM, VALIDATE_PROGRAM, VERTEX_ATTRIB_4F, VERTEX_ATTRIB_POINTER, VIEWPORT,
};
use crate::query_spelling::query_command;
use crate::{
    ArrayWords, BucketCommand, Command, CopyPartWords, CopyWords, DataWords, DrawCommand, Fetched,
    ImageCommand, ImageWords, ObjectCommand, PartWords, ReadWords,
};
use gl_base::{FloatBits, GlEnum};

/// The word at a place, or 0 behind the last.
pub fn word(words: &[u32], at: usize) -> u32
    ensures { result ≡ slice_index words.now at }
{
    match words.get(at) {
        Some(word) => *word,
        None => 0,
    }
}

impl DataWords {
    ghost use Rattle.gl_plain.specs.Words.{data_at};

    /// The four words of data that begin at a place.
    fn read(words: &[u32], at: usize) -> DataWords
        requires { at ≤ 16 }
        ensures { result ≡ data_at words.now at }
    {
        DataWords {
            source: word(words, at),
            count: word(words, at + 1),
            a: word(words, at + 2),
            b: word(words, at + 3),
        }
    }
}

impl ArrayWords {
    ghost use Rattle.gl_plain.specs.Words.{array_at};

    /// The words of VertexAttribPointer behind its index.
    fn read(words: &[u32]) -> ArrayWords
        ensures { result ≡ array_at words.now }
    {
        ArrayWords {
            size: word(words, 1).cast_signed(),
            kind: GlEnum(word(words, 2)),
            normalized: word(words, 3) != 0,
            stride: word(words, 4).cast_signed(),
            offset: word(words, 5),
        }
    }
}

impl ImageWords {
    ghost use Rattle.gl_plain.specs.Words.{image_at};

    /// The words of TexImage2D.
    fn read(words: &[u32]) -> ImageWords
        ensures { result ≡ image_at words.now }
    {
        ImageWords {
            target: GlEnum(word(words, 0)),
            level: word(words, 1).cast_signed(),
            internal: GlEnum(word(words, 2)),
            width: word(words, 3).cast_signed(),
            height: word(words, 4).cast_signed(),
            border: word(words, 5).cast_signed(),
            format: GlEnum(word(words, 6)),
            kind: GlEnum(word(words, 7)),
        }
    }
}

impl PartWords {
    ghost use Rattle.gl_plain.specs.Words.{part_at};

    /// The words of TexSubImage2D.
    fn read(words: &[u32]) -> PartWords
        ensures { result ≡ part_at words.now }
    {
        PartWords {
            target: GlEnum(word(words, 0)),
            level: word(words, 1).cast_signed(),
            x: word(words, 2).cast_signed(),
            y: word(words, 3).cast_signed(),
            width: word(words, 4).cast_signed(),
            height: word(words, 5).cast_signed(),
            format: GlEnum(word(words, 6)),
            kind: GlEnum(word(words, 7)),
        }
    }
}

impl CopyWords {
    ghost use Rattle.gl_plain.specs.Words.{copy_at};

    /// The words of CopyTexImage2D.
    fn read(words: &[u32]) -> CopyWords
        ensures { result ≡ copy_at words.now }
    {
        CopyWords {
            target: GlEnum(word(words, 0)),
            level: word(words, 1).cast_signed(),
            internal: GlEnum(word(words, 2)),
            x: word(words, 3).cast_signed(),
            y: word(words, 4).cast_signed(),
            width: word(words, 5).cast_signed(),
            height: word(words, 6).cast_signed(),
            border: word(words, 7).cast_signed(),
        }
    }
}

impl CopyPartWords {
    ghost use Rattle.gl_plain.specs.Words.{copy_part_at};

    /// The words of CopyTexSubImage2D.
    fn read(words: &[u32]) -> CopyPartWords
        ensures { result ≡ copy_part_at words.now }
    {
        CopyPartWords {
            target: GlEnum(word(words, 0)),
            level: word(words, 1).cast_signed(),
            xoffset: word(words, 2).cast_signed(),
            yoffset: word(words, 3).cast_signed(),
            x: word(words, 4).cast_signed(),
            y: word(words, 5).cast_signed(),
            width: word(words, 6).cast_signed(),
            height: word(words, 7).cast_signed(),
        }
    }
}

impl ReadWords {
    ghost use Rattle.gl_plain.specs.Words.{read_at};

    /// The words of ReadPixels before its bucket.
    pub fn read(words: &[u32]) -> ReadWords
        ensures { result ≡ read_at words.now }
    {
        ReadWords {
            x: word(words, 0).cast_signed(),
            y: word(words, 1).cast_signed(),
            width: word(words, 2).cast_signed(),
            height: word(words, 3).cast_signed(),
            format: GlEnum(word(words, 4)),
            kind: GlEnum(word(words, 5)),
        }
    }
}

/// The command on a bucket that a number and words spell, or none.
fn bucket_command(number: u32, words: &[u32]) -> Option<BucketCommand>
    ensures { result ≡ bucket_command_in number words.now }
{
    match number {
        SET_BUCKET_SIZE => Some(BucketCommand::SetSize {
            bucket: word(words, 0),
            size: word(words, 1),
        }),
        SET_BUCKET_DATA => Some(BucketCommand::SetData {
            bucket: word(words, 0),
            offset: word(words, 1),
            words: DataWords::read(words, 2),
        }),
        GET_BUCKET_START => Some(BucketCommand::GetStart {
            bucket: word(words, 0),
        }),
        GET_BUCKET_DATA => Some(BucketCommand::GetData {
            bucket: word(words, 0),
            offset: word(words, 1),
            count: word(words, 2),
        }),
        _ => None,
    }
}

/// The command on shaders and programs that a number and words spell, or none.
fn program_command(number: u32, words: &[u32]) -> Option<ObjectCommand>
    ensures { result ≡ program_command_in number words.now }
{
    match number {
        CREATE_SHADER => Some(ObjectCommand::CreateShader {
            id: word(words, 0),
            kind: GlEnum(word(words, 1)),
        }),
        SHADER_SOURCE => Some(ObjectCommand::ShaderSource {
            shader: word(words, 0),
            words: DataWords::read(words, 1),
        }),
        COMPILE_SHADER => Some(ObjectCommand::CompileShader {
            shader: word(words, 0),
        }),
        DELETE_SHADER => Some(ObjectCommand::DeleteShader {
            shader: word(words, 0),
        }),
        CREATE_PROGRAM => Some(ObjectCommand::CreateProgram { id: word(words, 0) }),
        ATTACH_SHADER => Some(ObjectCommand::AttachShader {
            program: word(words, 0),
            shader: word(words, 1),
        }),
        DETACH_SHADER => Some(ObjectCommand::DetachShader {
            program: word(words, 0),
            shader: word(words, 1),
        }),
        BIND_ATTRIB_LOCATION => Some(ObjectCommand::BindAttribLocation {
            program: word(words, 0),
            index: word(words, 1),
            words: DataWords::read(words, 2),
        }),
        LINK_PROGRAM => Some(ObjectCommand::LinkProgram {
            program: word(words, 0),
        }),
        VALIDATE_PROGRAM => Some(ObjectCommand::ValidateProgram {
            program: word(words, 0),
        }),
        USE_PROGRAM => Some(ObjectCommand::UseProgram {
            program: word(words, 0),
        }),
        DELETE_PROGRAM => Some(ObjectCommand::DeleteProgram {
            program: word(words, 0),
        }),
        UNIFORM => Some(ObjectCommand::Uniform {
            location: word(words, 0).cast_signed(),
            kind: word(words, 1),
            count: word(words, 2).cast_signed(),
            transpose: word(words, 3) != 0,
            words: DataWords::read(words, 4),
        }),
        _ => None,
    }
}

/// The command on renderbuffers and framebuffers that a number and words spell, or none.
fn target_command(number: u32, words: &[u32]) -> Option<ObjectCommand>
    ensures { result ≡ target_command_in number words.now }
{
    match number {
        GEN_RENDERBUFFERS => Some(ObjectCommand::GenRenderbuffers { id: word(words, 0) }),
        BIND_RENDERBUFFER => Some(ObjectCommand::BindRenderbuffer {
            target: GlEnum(word(words, 0)),
            id: word(words, 1),
        }),
        DELETE_RENDERBUFFERS => Some(ObjectCommand::DeleteRenderbuffers { id: word(words, 0) }),
        GEN_FRAMEBUFFERS => Some(ObjectCommand::GenFramebuffers { id: word(words, 0) }),
        BIND_FRAMEBUFFER => Some(ObjectCommand::BindFramebuffer {
            target: GlEnum(word(words, 0)),
            id: word(words, 1),
        }),
        DELETE_FRAMEBUFFERS => Some(ObjectCommand::DeleteFramebuffers { id: word(words, 0) }),
        FRAMEBUFFER_TEXTURE_2D => Some(ObjectCommand::FramebufferTexture2D {
            target: GlEnum(word(words, 0)),
            attachment: GlEnum(word(words, 1)),
            textarget: GlEnum(word(words, 2)),
            texture: word(words, 3),
            level: word(words, 4).cast_signed(),
        }),
        FRAMEBUFFER_RENDERBUFFER => Some(ObjectCommand::FramebufferRenderbuffer {
            target: GlEnum(word(words, 0)),
            attachment: GlEnum(word(words, 1)),
            rbtarget: GlEnum(word(words, 2)),
            renderbuffer: word(words, 3),
        }),
        _ => None,
    }
}

/// The command on objects that a number and words spell, or none.
fn object_command(number: u32, words: &[u32]) -> Option<ObjectCommand>
    ensures { result ≡ object_command_in number words.now }
{
    match number {
        GEN_BUFFERS => Some(ObjectCommand::GenBuffers { id: word(words, 0) }),
        BIND_BUFFER => Some(ObjectCommand::BindBuffer {
            target: GlEnum(word(words, 0)),
            id: word(words, 1),
        }),
        BUFFER_DATA => Some(ObjectCommand::BufferData {
            target: GlEnum(word(words, 0)),
            size: word(words, 1).cast_signed(),
            usage: GlEnum(word(words, 2)),
            words: DataWords::read(words, 3),
        }),
        BUFFER_SUB_DATA => Some(ObjectCommand::BufferSubData {
            target: GlEnum(word(words, 0)),
            offset: word(words, 1).cast_signed(),
            size: word(words, 2).cast_signed(),
            words: DataWords::read(words, 3),
        }),
        DELETE_BUFFERS => Some(ObjectCommand::DeleteBuffers { id: word(words, 0) }),
        GEN_TEXTURES => Some(ObjectCommand::GenTextures { id: word(words, 0) }),
        BIND_TEXTURE => Some(ObjectCommand::BindTexture {
            target: GlEnum(word(words, 0)),
            id: word(words, 1),
        }),
        DELETE_TEXTURES => Some(ObjectCommand::DeleteTextures { id: word(words, 0) }),
        VERTEX_ATTRIB_4F => Some(ObjectCommand::VertexAttrib4f {
            index: word(words, 0),
            x: FloatBits(word(words, 1)),
            y: FloatBits(word(words, 2)),
            z: FloatBits(word(words, 3)),
            w: FloatBits(word(words, 4)),
        }),
        VERTEX_ATTRIB_POINTER => Some(ObjectCommand::VertexAttribPointer {
            index: word(words, 0),
            array: ArrayWords::read(words),
        }),
        ENABLE_VERTEX_ATTRIB_ARRAY => Some(ObjectCommand::EnableVertexAttribArray {
            index: word(words, 0),
        }),
        DISABLE_VERTEX_ATTRIB_ARRAY => Some(ObjectCommand::DisableVertexAttribArray {
            index: word(words, 0),
        }),
        _ => match target_command(number, words) {
            Some(command) => Some(command),
            None => program_command(number, words),
        },
    }
}

/// The command on images that a number and words spell, or none.
fn image_command(number: u32, words: &[u32]) -> Option<ImageCommand>
    ensures { result ≡ image_command_in number words.now }
{
    match number {
        TEX_IMAGE_2D => Some(ImageCommand::TexImage2D {
            image: ImageWords::read(words),
            words: DataWords::read(words, 8),
        }),
        TEX_SUB_IMAGE_2D => Some(ImageCommand::TexSubImage2D {
            part: PartWords::read(words),
            words: DataWords::read(words, 8),
        }),
        COPY_TEX_IMAGE_2D => Some(ImageCommand::CopyTexImage2D {
            copy: CopyWords::read(words),
        }),
        COPY_TEX_SUB_IMAGE_2D => Some(ImageCommand::CopyTexSubImage2D {
            copy: CopyPartWords::read(words),
        }),
        TEX_PARAMETERI => Some(ImageCommand::TexParameteri {
            target: GlEnum(word(words, 0)),
            pname: GlEnum(word(words, 1)),
            value: GlEnum(word(words, 2)),
        }),
        GENERATE_MIPMAP => Some(ImageCommand::GenerateMipmap {
            target: GlEnum(word(words, 0)),
        }),
        RENDERBUFFER_STORAGE => Some(ImageCommand::RenderbufferStorage {
            target: GlEnum(word(words, 0)),
            format: GlEnum(word(words, 1)),
            width: word(words, 2).cast_signed(),
            height: word(words, 3).cast_signed(),
        }),
        _ => None,
    }
}

/// ActiveTexture, the command on the fixed state, or the one that clears or draws, that a number and words spell, or none.
fn draw_command(number: u32, words: &[u32]) -> Option<DrawCommand>
    ensures { result ≡ draw_command_in number words.now }
{
    match number {
        ACTIVE_TEXTURE => Some(DrawCommand::ActiveTexture {
            unit: GlEnum(word(words, 0)),
        }),
        ENABLE..=VIEWPORT => Some(DrawCommand::Raster {
            number,
            words: [
                word(words, 0),
                word(words, 1),
                word(words, 2),
                word(words, 3),
            ],
        }),
        CLEAR => Some(DrawCommand::Clear {
            mask: word(words, 0),
        }),
        DRAW_ARRAYS => Some(DrawCommand::DrawArrays {
            mode: GlEnum(word(words, 0)),
            first: word(words, 1).cast_signed(),
            count: word(words, 2).cast_signed(),
        }),
        DRAW_ELEMENTS => Some(DrawCommand::DrawElements {
            mode: GlEnum(word(words, 0)),
            count: word(words, 1).cast_signed(),
            kind: GlEnum(word(words, 2)),
            offset: word(words, 3),
        }),
        FLUSH => Some(DrawCommand::Flush),
        FINISH => Some(DrawCommand::Finish),
        _ => None,
    }
}

/// The command that a number and words spell, or none. Words behind the last one count as 0.
fn spelled(number: u32, words: &[u32]) -> Option<Command>
    ensures { result ≡ command_in number words.now }
{
    match number {
        NOOP => return Some(Command::Noop),
        SET_TOKEN => {
            return Some(Command::SetToken {
                token: word(words, 0),
            });
        }
        _ => {}
    }
    if let Some(command) = bucket_command(number, words) {
        return Some(Command::Bucket(command));
    }
    if let Some(command) = object_command(number, words) {
        return Some(Command::Object(command));
    }
    if let Some(command) = image_command(number, words) {
        return Some(Command::Image(command));
    }
    if let Some(command) = draw_command(number, words) {
        return Some(Command::Draw(command));
    }
    match query_command(number, words) {
        Some(command) => Some(Command::Query(command)),
        None => None,
    }
}

impl Fetched {
    ghost use Rattle.gl_plain.specs.Commands.{command_of};

    /// The command that its number and its words spell, or none.
    pub fn command(&self) -> Option<Command>
        ensures { result ≡ command_of self.now }
    {
        spelled(self.number, self.words.as_slice())
    }
}
