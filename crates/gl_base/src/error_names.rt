//! The names of error codes (OpenGL ES 2.0.25, section 2.5).
ghost use Rattle.std.specs.Prelude.{◌≡◌};
ghost use Rattle.std.specs.Option.{option_copied};
ghost use Rattle.gl_base.specs.ErrorNames.{error_text};

use crate::enums::{
    INVALID_ENUM, INVALID_FRAMEBUFFER_OPERATION, INVALID_OPERATION, INVALID_VALUE, NO_ERROR,
    OUT_OF_MEMORY,
};

/// The name of an error code, NO_ERROR among them. None for a number that is none of the six.
pub fn error_name(code: u32) -> Option<&'static str>
    ensures { option_copied result ≡ error_text code }
{
    match code {
        NO_ERROR => Some("NO_ERROR"),
        INVALID_ENUM => Some("INVALID_ENUM"),
        INVALID_VALUE => Some("INVALID_VALUE"),
        INVALID_OPERATION => Some("INVALID_OPERATION"),
        OUT_OF_MEMORY => Some("OUT_OF_MEMORY"),
        INVALID_FRAMEBUFFER_OPERATION => Some("INVALID_FRAMEBUFFER_OPERATION"),
        _ => None,
    }
}
