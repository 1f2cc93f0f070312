//! The constants of renderbuffers and framebuffers, by their names (the header gl2.h of the standard).

use crate::gl_enum::GlEnum;

/// No object, and the type of an image that has none.
pub const NONE: GlEnum = GlEnum(0);

// Targets.

/// The target of framebuffers (section 4.4.1).
pub const FRAMEBUFFER: GlEnum = GlEnum(0x8D40);

/// The target of renderbuffers (section 4.4.3).
pub const RENDERBUFFER: GlEnum = GlEnum(0x8D41);

// Points at which an image is attached.

/// Where colours go (section 4.4.2).
pub const COLOR_ATTACHMENT0: GlEnum = GlEnum(0x8CE0);

/// Where depths go (section 4.4.2).
pub const DEPTH_ATTACHMENT: GlEnum = GlEnum(0x8D00);

/// Where stencil values go (section 4.4.2).
pub const STENCIL_ATTACHMENT: GlEnum = GlEnum(0x8D20);

// Formats of renderbuffers.

/// Four parts of 4 bits (section 4.4.3).
pub const RGBA4: GlEnum = GlEnum(0x8056);

/// Three parts of 5 bits, and one bit of alpha (section 4.4.3).
pub const RGB5_A1: GlEnum = GlEnum(0x8057);

/// Parts of 5, 6 and 5 bits (section 4.4.3).
pub const RGB565: GlEnum = GlEnum(0x8D62);

/// Depths of 16 bits (section 4.4.3).
pub const DEPTH_COMPONENT16: GlEnum = GlEnum(0x81A5);

/// Stencil values of 8 bits (section 4.4.3).
pub const STENCIL_INDEX8: GlEnum = GlEnum(0x8D48);

// Why a framebuffer can't be drawn to. FRAMEBUFFER_COMPLETE is the status of one that can.

/// An image that is attached is no more, has no pixels, or does not suit its point (section 4.4.5).
pub const FRAMEBUFFER_INCOMPLETE_ATTACHMENT: u32 = 0x8CD6;

/// Nothing is attached (section 4.4.5).
pub const FRAMEBUFFER_INCOMPLETE_MISSING_ATTACHMENT: u32 = 0x8CD7;

/// The sides of what is attached differ (section 4.4.5).
pub const FRAMEBUFFER_INCOMPLETE_DIMENSIONS: u32 = 0x8CD9;
