//! The numbers of all commands, as they stand in headers.

/// The number of Noop.
pub const NOOP: u32 = 0;

/// The number of SetToken.
pub const SET_TOKEN: u32 = 1;

/// The number of SetBucketSize.
pub const SET_BUCKET_SIZE: u32 = 2;

/// The number of SetBucketData.
pub const SET_BUCKET_DATA: u32 = 3;

/// The number of GetBucketStart.
pub const GET_BUCKET_START: u32 = 4;

/// The number of GetBucketData.
pub const GET_BUCKET_DATA: u32 = 5;

/// The number of ActiveTexture.
pub const ACTIVE_TEXTURE: u32 = 256;

/// The number of GenBuffers.
pub const GEN_BUFFERS: u32 = 257;

/// The number of BindBuffer.
pub const BIND_BUFFER: u32 = 258;

/// The number of BufferData.
pub const BUFFER_DATA: u32 = 259;

/// The number of BufferSubData.
pub const BUFFER_SUB_DATA: u32 = 260;

/// The number of DeleteBuffers.
pub const DELETE_BUFFERS: u32 = 261;

/// The number of GenTextures.
pub const GEN_TEXTURES: u32 = 262;

/// The number of BindTexture.
pub const BIND_TEXTURE: u32 = 263;

/// The number of DeleteTextures.
pub const DELETE_TEXTURES: u32 = 264;

/// The number of TexImage2D.
pub const TEX_IMAGE_2D: u32 = 265;

/// The number of TexSubImage2D.
pub const TEX_SUB_IMAGE_2D: u32 = 266;

/// The number of CopyTexImage2D.
pub const COPY_TEX_IMAGE_2D: u32 = 267;

/// The number of CopyTexSubImage2D.
pub const COPY_TEX_SUB_IMAGE_2D: u32 = 268;

/// The number of TexParameteri.
pub const TEX_PARAMETERI: u32 = 269;

/// The number of GenerateMipmap.
pub const GENERATE_MIPMAP: u32 = 270;

/// The number of GenRenderbuffers.
pub const GEN_RENDERBUFFERS: u32 = 271;

/// The number of BindRenderbuffer.
pub const BIND_RENDERBUFFER: u32 = 272;

/// The number of DeleteRenderbuffers.
pub const DELETE_RENDERBUFFERS: u32 = 273;

/// The number of RenderbufferStorage.
pub const RENDERBUFFER_STORAGE: u32 = 274;

/// The number of GenFramebuffers.
pub const GEN_FRAMEBUFFERS: u32 = 275;

/// The number of BindFramebuffer.
pub const BIND_FRAMEBUFFER: u32 = 276;

/// The number of DeleteFramebuffers.
pub const DELETE_FRAMEBUFFERS: u32 = 277;

/// The number of FramebufferTexture2D.
pub const FRAMEBUFFER_TEXTURE_2D: u32 = 278;

/// The number of FramebufferRenderbuffer.
pub const FRAMEBUFFER_RENDERBUFFER: u32 = 279;

/// The number of CreateShader.
pub const CREATE_SHADER: u32 = 280;

/// The number of ShaderSource.
pub const SHADER_SOURCE: u32 = 281;

/// The number of CompileShader.
pub const COMPILE_SHADER: u32 = 282;

/// The number of DeleteShader.
pub const DELETE_SHADER: u32 = 283;

/// The number of CreateProgram.
pub const CREATE_PROGRAM: u32 = 284;

/// The number of AttachShader.
pub const ATTACH_SHADER: u32 = 285;

/// The number of DetachShader.
pub const DETACH_SHADER: u32 = 286;

/// The number of BindAttribLocation.
pub const BIND_ATTRIB_LOCATION: u32 = 287;

/// The number of LinkProgram.
pub const LINK_PROGRAM: u32 = 288;

/// The number of ValidateProgram.
pub const VALIDATE_PROGRAM: u32 = 289;

/// The number of UseProgram.
pub const USE_PROGRAM: u32 = 290;

/// The number of DeleteProgram.
pub const DELETE_PROGRAM: u32 = 291;

/// The number of Uniform.
pub const UNIFORM: u32 = 292;

/// The number of VertexAttrib4f.
pub const VERTEX_ATTRIB_4F: u32 = 293;

/// The number of VertexAttribPointer.
pub const VERTEX_ATTRIB_POINTER: u32 = 294;

/// The number of EnableVertexAttribArray.
pub const ENABLE_VERTEX_ATTRIB_ARRAY: u32 = 295;

/// The number of DisableVertexAttribArray.
pub const DISABLE_VERTEX_ATTRIB_ARRAY: u32 = 296;

/// The number of Enable.
pub const ENABLE: u32 = 297;

/// The number of Disable.
pub const DISABLE: u32 = 298;

/// The number of BlendColor.
pub const BLEND_COLOR: u32 = 299;

/// The number of BlendEquationSeparate.
pub const BLEND_EQUATION_SEPARATE: u32 = 300;

/// The number of BlendFuncSeparate.
pub const BLEND_FUNC_SEPARATE: u32 = 301;

/// The number of ClearColor.
pub const CLEAR_COLOR: u32 = 302;

/// The number of ClearDepthf.
pub const CLEAR_DEPTHF: u32 = 303;

/// The number of ClearStencil.
pub const CLEAR_STENCIL: u32 = 304;

/// The number of ColorMask.
pub const COLOR_MASK: u32 = 305;

/// The number of CullFace.
pub const CULL_FACE: u32 = 306;

/// The number of DepthFunc.
pub const DEPTH_FUNC: u32 = 307;

/// The number of DepthMask.
pub const DEPTH_MASK: u32 = 308;

/// The number of DepthRangef.
pub const DEPTH_RANGEF: u32 = 309;

/// The number of FrontFace.
pub const FRONT_FACE: u32 = 310;

/// The number of Hint.
pub const HINT: u32 = 311;

/// The number of LineWidth.
pub const LINE_WIDTH: u32 = 312;

/// The number of PixelStorei.
pub const PIXEL_STOREI: u32 = 313;

/// The number of PolygonOffset.
pub const POLYGON_OFFSET: u32 = 314;

/// The number of SampleCoverage.
pub const SAMPLE_COVERAGE: u32 = 315;

/// The number of Scissor.
pub const SCISSOR: u32 = 316;

/// The number of StencilFuncSeparate.
pub const STENCIL_FUNC_SEPARATE: u32 = 317;

/// The number of StencilMaskSeparate.
pub const STENCIL_MASK_SEPARATE: u32 = 318;

/// The number of StencilOpSeparate.
pub const STENCIL_OP_SEPARATE: u32 = 319;

/// The number of Viewport.
pub const VIEWPORT: u32 = 320;

/// The number of Clear.
pub const CLEAR: u32 = 321;

/// The number of DrawArrays.
pub const DRAW_ARRAYS: u32 = 322;

/// The number of DrawElements.
pub const DRAW_ELEMENTS: u32 = 323;

/// The number of ReadPixels.
pub const READ_PIXELS: u32 = 324;

/// The number of Flush.
pub const FLUSH: u32 = 325;

/// The number of Finish.
pub const FINISH: u32 = 326;

/// The number of GetError.
pub const GET_ERROR: u32 = 327;

/// The number of GetValue.
pub const GET_VALUE: u32 = 328;

/// The number of CheckFramebufferStatus.
pub const CHECK_FRAMEBUFFER_STATUS: u32 = 329;

/// The number of GetBufferParameteriv.
pub const GET_BUFFER_PARAMETERIV: u32 = 330;

/// The number of GetTexParameteriv.
pub const GET_TEX_PARAMETERIV: u32 = 331;

/// The number of GetRenderbufferParameteriv.
pub const GET_RENDERBUFFER_PARAMETERIV: u32 = 332;

/// The number of GetFramebufferAttachmentParameteriv.
pub const GET_FRAMEBUFFER_ATTACHMENT_PARAMETERIV: u32 = 333;

/// The number of GetVertexAttrib.
pub const GET_VERTEX_ATTRIB: u32 = 334;

/// The number of GetShaderiv.
pub const GET_SHADERIV: u32 = 335;

/// The number of GetProgramiv.
pub const GET_PROGRAMIV: u32 = 336;

/// The number of GetShaderInfoLog.
pub const GET_SHADER_INFO_LOG: u32 = 337;

/// The number of GetProgramInfoLog.
pub const GET_PROGRAM_INFO_LOG: u32 = 338;

/// The number of GetShaderSource.
pub const GET_SHADER_SOURCE: u32 = 339;

/// The number of GetProgramTable.
pub const GET_PROGRAM_TABLE: u32 = 340;

/// The number of GetUniform.
pub const GET_UNIFORM: u32 = 341;

/// The number of IsObject.
pub const IS_OBJECT: u32 = 342;

/// The number of GetAttachedShaders.
pub const GET_ATTACHED_SHADERS: u32 = 343;

/// The number of GetMaxIndex.
pub const GET_MAX_INDEX: u32 = 344;
