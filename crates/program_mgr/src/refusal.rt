//! Why a call on shaders and programs was not made.

use gl_plain::GlError;
use thiserror::Error;

/// Why a call was not made. It changes nothing.
#[derive(Clone, Copy, Debug, PartialEq, Eq, Error)]
pub enum ProgramRefusal {
    /// It is refused with this code.
    #[error("the call is refused")]
    Gl(GlError),
    /// There was no memory.
    #[error("no memory for a program")]
    NoMemory,
}
