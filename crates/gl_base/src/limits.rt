//! The limits of this implementation.

/// The most bytes that a buffer, a bucket, a region or an image may have.
pub const DATA_LIMIT: u32 = 67_108_864;

/// The most ordinary names that may be in use in one name space.
pub const NAME_LIMIT: u32 = 65_536;

/// The last name that Gen and Create may give. The first is 1.
pub const LAST_ORDINARY_NAME: u32 = 0xFFFF_FEFF;

/// The first of the buffer names that are kept for client arrays.
pub const FIRST_RESERVED_NAME: u32 = 0xFFFF_FF00;

/// The last of the buffer names that are kept for client arrays.
pub const LAST_RESERVED_NAME: u32 = 0xFFFF_FF10;

/// The index of the last vertex attribute (MAX_VERTEX_ATTRIBS is 16).
pub const LAST_ATTRIBUTE: u32 = 15;

/// The most bytes of an attribute's or a uniform's name.
pub const NAME_LENGTH_LIMIT: u32 = 255;

/// The most elements that the uniforms of a program have together, and the most that one command gives.
pub const UNIFORM_LIMIT: u32 = 1024;

/// The last texture unit, which is the greatest value of a sampler (MAX_COMBINED_TEXTURE_IMAGE_UNITS is 8).
pub const LAST_UNIT: u32 = 7;

/// The last bucket. The first is 0.
pub const LAST_BUCKET: u32 = 3;

/// The greatest token, which has 31 bits.
pub const LAST_TOKEN: u32 = 0x7FFF_FFFF;

/// The most bytes that one copy of shared memory takes.
pub const COPY_LIMIT: u32 = 4096;

/// The fewest entries of a ring.
pub const LEAST_ENTRIES: u32 = 2;

/// The most entries of a ring.
pub const MOST_ENTRIES: u32 = 1_048_576;

/// How many entries a ring has where an input does not say it.
pub const DEFAULT_ENTRIES: u32 = 4096;

/// The greatest number of a region. The ring is region 0.
pub const LAST_REGION: u32 = 255;

/// The most bytes that the ring and the regions of a script have together.
pub const TOTAL_LIMIT: u64 = 268_435_456;

/// The width and the height of the default framebuffer where an input does not say them.
pub const DEFAULT_SURFACE: (u32, u32) = (64, 64);

/// The greatest width and height of a viewport, a default framebuffer, a texture or a renderbuffer (MAX_VIEWPORT_DIMS, MAX_TEXTURE_SIZE and
/// MAX_RENDERBUFFER_SIZE are 2048).
pub const SIDE_LIMIT: u32 = 2048;

/// The greatest value of a stencil buffer, which has 8 bits (STENCIL_BITS).
pub const LAST_STENCIL: u32 = 255;

/// The last level of a texture's images, which has one pixel where level 0 has the greatest sides (section 3.7.1).
pub const LAST_LEVEL: u32 = 11;

/// How many vectors the uniforms of a shader can have (MAX_VERTEX_UNIFORM_VECTORS and MAX_FRAGMENT_UNIFORM_VECTORS are 128).
pub const UNIFORM_VECTORS: u32 = 128;

/// How many vectors the varyings of a program can have (MAX_VARYING_VECTORS is 8).
pub const VARYING_VECTORS: u32 = 8;
