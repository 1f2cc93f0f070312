//! How far the answers of a driver have gone.
ghost use Rattle.std.specs.Prelude.{◌≡◌, IfSome, IfNone};
ghost use Rattle.gl_plain.specs.declared.driver_calls.Answers.{Answers};
ghost use Rattle.gl_plain.specs.driver.Answers.{behind_call, behind_image, behind_object, behind_program};
ghost use Rattle.strict_driver.specs.Given.{HasLast, answers_from, no_counts};

use gl_plain::{DriverCall, ImageDriver, ObjectDriver, ProgramDriver};

/// How many names a driver gave in each name space, and how often it was asked each other question.
#[derive(Clone, Copy, Debug, PartialEq, Eq)]
pub struct Counts {
    pub buffers: u64,
    pub textures: u64,
    pub renderbuffers: u64,
    pub framebuffers: u64,
    /// The names of shaders and programs.
    pub programs: u64,
    /// What compilations said.
    pub compiles: u64,
    /// What links said.
    pub links: u64,
    /// What validations said.
    pub validates: u64,
    /// What reads gave.
    pub reads: u64,
    /// Whether there was room.
    pub stores: u64,
}

impl Counts {
    /// Nothing was given, and nothing was asked.
    pub fn new() -> Counts
        ensures { result ≡ no_counts }
    {
        Counts {
            buffers: 0,
            textures: 0,
            renderbuffers: 0,
            framebuffers: 0,
            programs: 0,
            compiles: 0,
            links: 0,
            validates: 0,
            reads: 0,
            stores: 0,
        }
    }

    /// The counts after a call, or none past the end of their type. A call on the active unit or the fixed state, or
    /// one that clears or draws, asks nothing.
    #[tactic(auto, using(crate::proofs::Answered::drawing_asks_nothing))]
    pub fn after(self, call: &DriverCall) -> Option<Counts>
        ensures some { IfSome result (λ counts. (loaded : Answers) → answers_from loaded counts ≡ behind_call call.now (answers_from loaded self)) }
        ensures none { IfNone result (HasLast self) }
    {
        match call {
            DriverCall::Object(call) => self.after_object(call),
            DriverCall::Image(call) => self.after_image(call),
            DriverCall::Program(call) => self.after_program(call),
            DriverCall::Draw(_) => Some(self),
        }
    }

    /// The counts after a call on objects.
    fn after_object(self, call: &ObjectDriver) -> Option<Counts>
        ensures some { IfSome result (λ counts. (loaded : Answers) → answers_from loaded counts ≡ behind_object call.now (answers_from loaded self)) }
        ensures none { IfNone result (HasLast self) }
    {
        match call {
            ObjectDriver::GenBuffer => Some(Counts {
                buffers: self.buffers.checked_add(1)?,
                ..self
            }),
            ObjectDriver::GenTexture => Some(Counts {
                textures: self.textures.checked_add(1)?,
                ..self
            }),
            ObjectDriver::GenRenderbuffer => Some(Counts {
                renderbuffers: self.renderbuffers.checked_add(1)?,
                ..self
            }),
            ObjectDriver::GenFramebuffer => Some(Counts {
                framebuffers: self.framebuffers.checked_add(1)?,
                ..self
            }),
            ObjectDriver::BufferData { .. } => Some(Counts {
                stores: self.stores.checked_add(1)?,
                ..self
            }),
            ObjectDriver::BindBuffer { .. }
            | ObjectDriver::BufferSubData { .. }
            | ObjectDriver::DeleteBuffer { .. }
            | ObjectDriver::BindTexture { .. }
            | ObjectDriver::DeleteTexture { .. }
            | ObjectDriver::BindRenderbuffer { .. }
            | ObjectDriver::DeleteRenderbuffer { .. }
            | ObjectDriver::BindFramebuffer { .. }
            | ObjectDriver::DeleteFramebuffer { .. }
            | ObjectDriver::FramebufferTexture { .. }
            | ObjectDriver::FramebufferRenderbuffer { .. }
            | ObjectDriver::VertexAttrib4 { .. }
            | ObjectDriver::VertexAttribPointer { .. }
            | ObjectDriver::SetArray { .. } => Some(self),
        }
    }

    /// The counts after a call on images.
    fn after_image(self, call: &ImageDriver) -> Option<Counts>
        ensures some { IfSome result (λ counts. (loaded : Answers) → answers_from loaded counts ≡ behind_image call.now (answers_from loaded self)) }
        ensures none { IfNone result (HasLast self) }
    {
        match call {
            ImageDriver::TexImage { .. }
            | ImageDriver::CopyTexImage { .. }
            | ImageDriver::RenderbufferStorage { .. } => Some(Counts {
                stores: self.stores.checked_add(1)?,
                ..self
            }),
            ImageDriver::ReadPixels { .. } => Some(Counts {
                reads: self.reads.checked_add(1)?,
                ..self
            }),
            ImageDriver::TexSubImage { .. }
            | ImageDriver::ZeroLevel { .. }
            | ImageDriver::TexParameter { .. }
            | ImageDriver::CopyTexSubImage { .. }
            | ImageDriver::GenerateMipmap { .. }
            | ImageDriver::ZeroRenderbuffer { .. } => Some(self),
        }
    }

    /// The counts after a call on shaders and programs.
    fn after_program(self, call: &ProgramDriver) -> Option<Counts>
        ensures some { IfSome result (λ counts. (loaded : Answers) → answers_from loaded counts ≡ behind_program call.now (answers_from loaded self)) }
        ensures none { IfNone result (HasLast self) }
    {
        match call {
            ProgramDriver::CreateShader { .. } | ProgramDriver::CreateProgram => Some(Counts {
                programs: self.programs.checked_add(1)?,
                ..self
            }),
            ProgramDriver::CompileShader { .. } => Some(Counts {
                compiles: self.compiles.checked_add(1)?,
                ..self
            }),
            ProgramDriver::LinkProgram { .. } => Some(Counts {
                links: self.links.checked_add(1)?,
                ..self
            }),
            ProgramDriver::ValidateProgram { .. } => Some(Counts {
                validates: self.validates.checked_add(1)?,
                ..self
            }),
            ProgramDriver::DeleteShader { .. }
            | ProgramDriver::DeleteProgram { .. }
            | ProgramDriver::ShaderSource { .. }
            | ProgramDriver::AttachShader { .. }
            | ProgramDriver::DetachShader { .. }
            | ProgramDriver::BindAttribLocation { .. }
            | ProgramDriver::UseProgram { .. }
            | ProgramDriver::Uniform { .. } => Some(self),
        }
    }
}
