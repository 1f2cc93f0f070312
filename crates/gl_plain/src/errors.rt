//! Error codes, and the flags that record them (OpenGL ES 2.0.25, section 2.5).
ghost use Rattle.std.specs.Prelude.{◌≡◌, Some};
ghost use Rattle.gl_plain.specs.Errors.{cleared, code_given, code_of, least, noted, no_errors};

use gl_base::enums::{
    INVALID_ENUM, INVALID_FRAMEBUFFER_OPERATION, INVALID_OPERATION, INVALID_VALUE, NO_ERROR,
    OUT_OF_MEMORY,
};

/// A code that a call is refused with.
#[derive(Clone, Copy, Debug, PartialEq, Eq)]
pub enum GlError {
    InvalidEnum,
    InvalidValue,
    InvalidOperation,
    OutOfMemory,
    InvalidFramebufferOperation,
}

impl GlError {
    /// The number of the code, as GetError answers it.
    pub fn code(self) -> u32
        ensures { result ≡ code_of self }
    {
        match self {
            GlError::InvalidEnum => INVALID_ENUM,
            GlError::InvalidValue => INVALID_VALUE,
            GlError::InvalidOperation => INVALID_OPERATION,
            GlError::OutOfMemory => OUT_OF_MEMORY,
            GlError::InvalidFramebufferOperation => INVALID_FRAMEBUFFER_OPERATION,
        }
    }
}

/// One flag for each code: whether it is recorded.
#[derive(Clone, Copy, Debug, PartialEq, Eq)]
pub struct Errors {
    pub invalid_enum: bool,
    pub invalid_value: bool,
    pub invalid_operation: bool,
    pub out_of_memory: bool,
    pub invalid_framebuffer_operation: bool,
}

impl Errors {
    /// No code is recorded.
    pub fn new() -> Errors
        ensures { result ≡ no_errors }
    {
        Errors {
            invalid_enum: false,
            invalid_value: false,
            invalid_operation: false,
            out_of_memory: false,
            invalid_framebuffer_operation: false,
        }
    }

    /// Records a code.
    pub fn note(&mut self, error: GlError)
        ensures { self.new ≡ noted self.old error }
    {
        match error {
            GlError::InvalidEnum => self.invalid_enum = true,
            GlError::InvalidValue => self.invalid_value = true,
            GlError::InvalidOperation => self.invalid_operation = true,
            GlError::OutOfMemory => self.out_of_memory = true,
            GlError::InvalidFramebufferOperation => self.invalid_framebuffer_operation = true,
        }
    }

    /// The least code that is recorded.
    fn first(&self) -> Option<GlError>
        ensures { result ≡ least self.now }
    {
        if self.invalid_enum {
            return Some(GlError::InvalidEnum);
        }
        if self.invalid_value {
            return Some(GlError::InvalidValue);
        }
        if self.invalid_operation {
            return Some(GlError::InvalidOperation);
        }
        if self.out_of_memory {
            return Some(GlError::OutOfMemory);
        }
        if self.invalid_framebuffer_operation {
            return Some(GlError::InvalidFramebufferOperation);
        }
        None
    }

    fn clear(&mut self, error: GlError)
        ensures { self.new ≡ cleared self.old (Some error) }
    {
        match error {
            GlError::InvalidEnum => self.invalid_enum = false,
            GlError::InvalidValue => self.invalid_value = false,
            GlError::InvalidOperation => self.invalid_operation = false,
            GlError::OutOfMemory => self.out_of_memory = false,
            GlError::InvalidFramebufferOperation => self.invalid_framebuffer_operation = false,
        }
    }

    /// Takes the least code that is recorded, and clears its flag. 0, which is NO_ERROR, where none is recorded.
    pub fn take(&mut self) -> u32
        ensures answer { result ≡ code_given (least self.old) }
        ensures taken { self.new ≡ cleared self.old (least self.old) }
    {
        match self.first() {
            Some(error) => {
                self.clear(error);
                error.code()
            }
            None => NO_ERROR,
        }
    }
}
