//! The table of layouts, by number.
ghost use Rattle.std.specs.Prelude.{◌≡◌, IfSome};
ghost use Rattle.cb_format.specs.Layouts.{IsFitting, layout_of};

use crate::layouts::Layout;
use gl_plain::numbers::ACTIVE_TEXTURE;

/// The number of the first command of OpenGL ES.
const FIRST_OF_GL: u32 = ACTIVE_TEXTURE;

/// A layout of so many words, none of them of data or of a reply in shared memory.
macro_rules! plain {
    ($words:expr) => {
        Layout {
            words: $words,
            any_size: false,
            payload_at: None,
            result_at: None,
            result_words: 0,
        }
    };
}

/// A layout of so many words, and then the four of the command's data.
macro_rules! with_data {
    ($before:expr) => {
        Layout {
            words: $before + 4,
            any_size: false,
            payload_at: Some($before),
            result_at: None,
            result_words: 0,
        }
    };
}

/// A layout of so many words, and then the two that say where a reply of at most so many words goes.
macro_rules! with_reply {
    ($before:expr, $most:expr) => {
        Layout {
            words: $before + 2,
            any_size: false,
            payload_at: None,
            result_at: Some($before),
            result_words: $most,
        }
    };
}

/// The layout of a command whose words are not read, however many it has.
const OF_ANY_SIZE: Layout = Layout {
    words: 0,
    any_size: true,
    payload_at: None,
    result_at: None,
    result_words: 0,
};

/// The layouts of the commands of the buffer, 0 to 5.
static BUFFER_LAYOUTS: [Layout; 6] = [
    OF_ANY_SIZE, // 0 Noop
    plain!(1), // 1 SetToken
    plain!(2), // 2 SetBucketSize
    with_data!(2), // 3 SetBucketData
    with_reply!(1, 1), // 4 GetBucketStart
    plain!(5), // 5 GetBucketData
];

/// The layouts of the commands of OpenGL ES, 256 to 344.
static GL_LAYOUTS: [Layout; 89] = [
    plain!(1), // 256 ActiveTexture
    plain!(1), // 257 GenBuffers
    plain!(2), // 258 BindBuffer
    with_data!(3), // 259 BufferData
    with_data!(3), // 260 BufferSubData
    plain!(1), // 261 DeleteBuffers
    plain!(1), // 262 GenTextures
    plain!(2), // 263 BindTexture
    plain!(1), // 264 DeleteTextures
    with_data!(8), // 265 TexImage2D
    with_data!(8), // 266 TexSubImage2D
    plain!(8), // 267 CopyTexImage2D
    plain!(8), // 268 CopyTexSubImage2D
    plain!(3), // 269 TexParameteri
    plain!(1), // 270 GenerateMipmap
    plain!(1), // 271 GenRenderbuffers
    plain!(2), // 272 BindRenderbuffer
    plain!(1), // 273 DeleteRenderbuffers
    plain!(4), // 274 RenderbufferStorage
    plain!(1), // 275 GenFramebuffers
    plain!(2), // 276 BindFramebuffer
    plain!(1), // 277 DeleteFramebuffers
    plain!(5), // 278 FramebufferTexture2D
    plain!(4), // 279 FramebufferRenderbuffer
    with_reply!(2, 1), // 280 CreateShader
    with_data!(1), // 281 ShaderSource
    plain!(1), // 282 CompileShader
    plain!(1), // 283 DeleteShader
    with_reply!(1, 1), // 284 CreateProgram
    plain!(2), // 285 AttachShader
    plain!(2), // 286 DetachShader
    with_data!(2), // 287 BindAttribLocation
    plain!(1), // 288 LinkProgram
    plain!(1), // 289 ValidateProgram
    plain!(1), // 290 UseProgram
    plain!(1), // 291 DeleteProgram
    with_data!(4), // 292 Uniform
    plain!(5), // 293 VertexAttrib4f
    plain!(6), // 294 VertexAttribPointer
    plain!(1), // 295 EnableVertexAttribArray
    plain!(1), // 296 DisableVertexAttribArray
    plain!(1), // 297 Enable
    plain!(1), // 298 Disable
    plain!(4), // 299 BlendColor
    plain!(2), // 300 BlendEquationSeparate
    plain!(4), // 301 BlendFuncSeparate
    plain!(4), // 302 ClearColor
    plain!(1), // 303 ClearDepthf
    plain!(1), // 304 ClearStencil
    plain!(4), // 305 ColorMask
    plain!(1), // 306 CullFace
    plain!(1), // 307 DepthFunc
    plain!(1), // 308 DepthMask
    plain!(2), // 309 DepthRangef
    plain!(1), // 310 FrontFace
    plain!(2), // 311 Hint
    plain!(1), // 312 LineWidth
    plain!(2), // 313 PixelStorei
    plain!(2), // 314 PolygonOffset
    plain!(2), // 315 SampleCoverage
    plain!(4), // 316 Scissor
    plain!(4), // 317 StencilFuncSeparate
    plain!(2), // 318 StencilMaskSeparate
    plain!(4), // 319 StencilOpSeparate
    plain!(4), // 320 Viewport
    plain!(1), // 321 Clear
    plain!(3), // 322 DrawArrays
    plain!(4), // 323 DrawElements
    plain!(7), // 324 ReadPixels
    plain!(0), // 325 Flush
    plain!(0), // 326 Finish
    with_reply!(0, 1), // 327 GetError
    with_reply!(2, 4), // 328 GetValue
    with_reply!(1, 1), // 329 CheckFramebufferStatus
    with_reply!(2, 1), // 330 GetBufferParameteriv
    with_reply!(2, 1), // 331 GetTexParameteriv
    with_reply!(2, 1), // 332 GetRenderbufferParameteriv
    with_reply!(3, 1), // 333 GetFramebufferAttachmentParameteriv
    with_reply!(3, 4), // 334 GetVertexAttrib
    with_reply!(2, 1), // 335 GetShaderiv
    with_reply!(2, 1), // 336 GetProgramiv
    plain!(2), // 337 GetShaderInfoLog
    plain!(2), // 338 GetProgramInfoLog
    plain!(2), // 339 GetShaderSource
    plain!(2), // 340 GetProgramTable
    with_reply!(3, 16), // 341 GetUniform
    with_reply!(2, 1), // 342 IsObject
    plain!(2), // 343 GetAttachedShaders
    with_reply!(3, 1), // 344 GetMaxIndex
];

/// The layout of a command, or None for a number that no command has.
pub fn layout(number: u32) -> Option<Layout>
    ensures value { result ≡ layout_of number }
    ensures fitting { IfSome result IsFitting }
{
    if number < FIRST_OF_GL {
        BUFFER_LAYOUTS.get(number as usize).copied()
    } else {
        GL_LAYOUTS.get((number - FIRST_OF_GL) as usize).copied()
    }
}
