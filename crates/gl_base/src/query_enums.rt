//! The names by which state is asked for, by their names (the header gl2.h of the standard). Those of the fixed state stand beside its values.

use crate::gl_enum::GlEnum;

// Bindings.

/// The buffer that ARRAY_BUFFER binds (section 2.9).
pub const ARRAY_BUFFER_BINDING: GlEnum = GlEnum(0x8894);

/// The buffer that ELEMENT_ARRAY_BUFFER binds (section 2.9).
pub const ELEMENT_ARRAY_BUFFER_BINDING: GlEnum = GlEnum(0x8895);

/// The active texture unit (section 3.7).
pub const ACTIVE_TEXTURE: GlEnum = GlEnum(0x84E0);

/// The texture that the active unit binds to TEXTURE_2D (section 3.7.13).
pub const TEXTURE_BINDING_2D: GlEnum = GlEnum(0x8069);

/// The texture that the active unit binds to TEXTURE_CUBE_MAP (section 3.7.13).
pub const TEXTURE_BINDING_CUBE_MAP: GlEnum = GlEnum(0x8514);

/// The framebuffer that is bound (section 4.4.1).
pub const FRAMEBUFFER_BINDING: GlEnum = GlEnum(0x8CA6);

/// The renderbuffer that is bound (section 4.4.3).
pub const RENDERBUFFER_BINDING: GlEnum = GlEnum(0x8CA7);

/// The program that is in use (section 2.10.3).
pub const CURRENT_PROGRAM: GlEnum = GlEnum(0x8B8D);

// What an implementation has (tables 6.18 to 6.20).

/// The greatest side of a flat texture.
pub const MAX_TEXTURE_SIZE: GlEnum = GlEnum(0x0D33);

/// The greatest width and height of a viewport.
pub const MAX_VIEWPORT_DIMS: GlEnum = GlEnum(0x0D3A);

/// The bits behind the point of a place in the window.
pub const SUBPIXEL_BITS: GlEnum = GlEnum(0x0D50);

/// The bits of red.
pub const RED_BITS: GlEnum = GlEnum(0x0D52);

/// The bits of green.
pub const GREEN_BITS: GlEnum = GlEnum(0x0D53);

/// The bits of blue.
pub const BLUE_BITS: GlEnum = GlEnum(0x0D54);

/// The bits of alpha.
pub const ALPHA_BITS: GlEnum = GlEnum(0x0D55);

/// The bits of a depth.
pub const DEPTH_BITS: GlEnum = GlEnum(0x0D56);

/// The bits of a stencil value.
pub const STENCIL_BITS: GlEnum = GlEnum(0x0D57);

/// How many sample buffers there are.
pub const SAMPLE_BUFFERS: GlEnum = GlEnum(0x80A8);

/// How many samples a pixel has.
pub const SAMPLES: GlEnum = GlEnum(0x80A9);

/// The least and the greatest size of a point.
pub const ALIASED_POINT_SIZE_RANGE: GlEnum = GlEnum(0x846D);

/// The least and the greatest width of a line.
pub const ALIASED_LINE_WIDTH_RANGE: GlEnum = GlEnum(0x846E);

/// The greatest side of a renderbuffer.
pub const MAX_RENDERBUFFER_SIZE: GlEnum = GlEnum(0x84E8);

/// The greatest side of a cube map.
pub const MAX_CUBE_MAP_TEXTURE_SIZE: GlEnum = GlEnum(0x851C);

/// How many formats of compressed textures there are.
pub const NUM_COMPRESSED_TEXTURE_FORMATS: GlEnum = GlEnum(0x86A2);

/// The formats of compressed textures.
pub const COMPRESSED_TEXTURE_FORMATS: GlEnum = GlEnum(0x86A3);

/// How many vertex attributes there are.
pub const MAX_VERTEX_ATTRIBS: GlEnum = GlEnum(0x8869);

/// How many texture units a fragment shader can use.
pub const MAX_TEXTURE_IMAGE_UNITS: GlEnum = GlEnum(0x8872);

/// How many texture units a vertex shader can use.
pub const MAX_VERTEX_TEXTURE_IMAGE_UNITS: GlEnum = GlEnum(0x8B4C);

/// How many texture units both can use.
pub const MAX_COMBINED_TEXTURE_IMAGE_UNITS: GlEnum = GlEnum(0x8B4D);

/// The type of pixels that ReadPixels prefers.
pub const IMPLEMENTATION_COLOR_READ_TYPE: GlEnum = GlEnum(0x8B9A);

/// The format of pixels that ReadPixels prefers.
pub const IMPLEMENTATION_COLOR_READ_FORMAT: GlEnum = GlEnum(0x8B9B);

/// The formats of shaders that were compiled elsewhere.
pub const SHADER_BINARY_FORMATS: GlEnum = GlEnum(0x8DF8);

/// How many such formats there are.
pub const NUM_SHADER_BINARY_FORMATS: GlEnum = GlEnum(0x8DF9);

/// Whether there is a compiler of shaders.
pub const SHADER_COMPILER: GlEnum = GlEnum(0x8DFA);

/// How many vectors the uniforms of a vertex shader can have.
pub const MAX_VERTEX_UNIFORM_VECTORS: GlEnum = GlEnum(0x8DFB);

/// How many vectors the varyings can have.
pub const MAX_VARYING_VECTORS: GlEnum = GlEnum(0x8DFC);

/// How many vectors the uniforms of a fragment shader can have.
pub const MAX_FRAGMENT_UNIFORM_VECTORS: GlEnum = GlEnum(0x8DFD);

// Buffers (table 6.3).

/// The bytes of a buffer.
pub const BUFFER_SIZE: GlEnum = GlEnum(0x8764);

/// The usage of a buffer.
pub const BUFFER_USAGE: GlEnum = GlEnum(0x8765);

// Vertex attributes (table 6.2).

/// Whether the array is enabled.
pub const VERTEX_ATTRIB_ARRAY_ENABLED: GlEnum = GlEnum(0x8622);

/// How many numbers an element has.
pub const VERTEX_ATTRIB_ARRAY_SIZE: GlEnum = GlEnum(0x8623);

/// The bytes from one element to the next.
pub const VERTEX_ATTRIB_ARRAY_STRIDE: GlEnum = GlEnum(0x8624);

/// The kind of the numbers.
pub const VERTEX_ATTRIB_ARRAY_TYPE: GlEnum = GlEnum(0x8625);

/// Whether integers stand for fractions.
pub const VERTEX_ATTRIB_ARRAY_NORMALIZED: GlEnum = GlEnum(0x886A);

/// The buffer in which the array lies.
pub const VERTEX_ATTRIB_ARRAY_BUFFER_BINDING: GlEnum = GlEnum(0x889F);

/// The constant value.
pub const CURRENT_VERTEX_ATTRIB: GlEnum = GlEnum(0x8626);

// Renderbuffers (table 6.12).

/// The width of the storage.
pub const RENDERBUFFER_WIDTH: GlEnum = GlEnum(0x8D42);

/// The height of the storage.
pub const RENDERBUFFER_HEIGHT: GlEnum = GlEnum(0x8D43);

/// The format of the storage.
pub const RENDERBUFFER_INTERNAL_FORMAT: GlEnum = GlEnum(0x8D44);

/// The bits of red.
pub const RENDERBUFFER_RED_SIZE: GlEnum = GlEnum(0x8D50);

/// The bits of green.
pub const RENDERBUFFER_GREEN_SIZE: GlEnum = GlEnum(0x8D51);

/// The bits of blue.
pub const RENDERBUFFER_BLUE_SIZE: GlEnum = GlEnum(0x8D52);

/// The bits of alpha.
pub const RENDERBUFFER_ALPHA_SIZE: GlEnum = GlEnum(0x8D53);

/// The bits of a depth.
pub const RENDERBUFFER_DEPTH_SIZE: GlEnum = GlEnum(0x8D54);

/// The bits of a stencil value.
pub const RENDERBUFFER_STENCIL_SIZE: GlEnum = GlEnum(0x8D55);

// Attachments of framebuffers (table 6.13).

/// The kind of object that is attached: NONE, TEXTURE or RENDERBUFFER.
pub const FRAMEBUFFER_ATTACHMENT_OBJECT_TYPE: GlEnum = GlEnum(0x8CD0);

/// The name of the object that is attached.
pub const FRAMEBUFFER_ATTACHMENT_OBJECT_NAME: GlEnum = GlEnum(0x8CD1);

/// The level of the texture that is attached.
pub const FRAMEBUFFER_ATTACHMENT_TEXTURE_LEVEL: GlEnum = GlEnum(0x8CD2);

/// The face of the cube map that is attached.
pub const FRAMEBUFFER_ATTACHMENT_TEXTURE_CUBE_MAP_FACE: GlEnum = GlEnum(0x8CD3);

/// A texture is attached.
pub const TEXTURE: GlEnum = GlEnum(0x1702);

// Shaders and programs (tables 6.14 and 6.15).

/// The kind of a shader.
pub const SHADER_TYPE: GlEnum = GlEnum(0x8B4F);

/// Whether a shader or a program is marked for deletion.
pub const DELETE_STATUS: GlEnum = GlEnum(0x8B80);

/// Whether the last compilation went well.
pub const COMPILE_STATUS: GlEnum = GlEnum(0x8B81);

/// Whether the last link went well.
pub const LINK_STATUS: GlEnum = GlEnum(0x8B82);

/// Whether the last validation went well.
pub const VALIDATE_STATUS: GlEnum = GlEnum(0x8B83);

/// The length of a log, with a closing zero.
pub const INFO_LOG_LENGTH: GlEnum = GlEnum(0x8B84);

/// How many shaders are attached.
pub const ATTACHED_SHADERS: GlEnum = GlEnum(0x8B85);

/// How many uniforms are active.
pub const ACTIVE_UNIFORMS: GlEnum = GlEnum(0x8B86);

/// The length of the longest name of an active uniform, with a closing zero.
pub const ACTIVE_UNIFORM_MAX_LENGTH: GlEnum = GlEnum(0x8B87);

/// The length of a shader's source, with a closing zero.
pub const SHADER_SOURCE_LENGTH: GlEnum = GlEnum(0x8B88);

/// How many attributes are active.
pub const ACTIVE_ATTRIBUTES: GlEnum = GlEnum(0x8B89);

/// The length of the longest name of an active attribute, with a closing zero.
pub const ACTIVE_ATTRIBUTE_MAX_LENGTH: GlEnum = GlEnum(0x8B8A);
