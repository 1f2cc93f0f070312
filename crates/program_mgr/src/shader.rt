//! A shader object (OpenGL ES 2.0.25, section 2.10.1).
ghost use Rattle.std.specs.Prelude.{◌≡◌, true, Some};
ghost use Rattle.gl_plain.specs.subjects.Programs.{new_shader};

use crate::past::{Event, Past};
use gl_base::GlEnum;
use gl_plain::Bytes;
use std::alloc::Global;
use std::marker::Model;

/// A shader object: its source, and what its last compilation said.
#[derive(Drop)]
pub struct Shader {
    kind: GlEnum,
    source: Bytes,
    past: Past,
    is_compiled: bool,
    log: Bytes,
    is_deleted: bool,
    attachments: u64,
}

impl Model for Shader {
    ghost use Rattle.gl_plain.specs.declared.programs.Shader as tables;

    ghost Value = { tables.Shader };

    ghost view = { λ a. record { kind = a.kind; source = a.source; compiled = a.past.compiled; is_compiled = a.is_compiled; log = a.log; is_deleted = a.is_deleted; attachments = a.attachments } };
}

impl Shader {
    /// A shader as it opens: without a source, never compiled. It takes no memory.
    pub fn new(alloc: Global, kind: GlEnum) -> Shader
        ensures { result ≡ new_shader kind }
    {
        Shader {
            kind,
            source: Bytes::new(alloc),
            past: Past::new(),
            is_compiled: false,
            log: Bytes::new(alloc),
            is_deleted: false,
            attachments: 0,
        }
    }

    /// VERTEX_SHADER or FRAGMENT_SHADER.
    pub fn kind(&self) -> GlEnum
        ensures { result ≡ self.now.kind }
    {
        self.kind
    }

    /// Its source (SHADER_SOURCE_LENGTH, section 6.1.8).
    pub fn source(&self) -> &[u8]
        ensures { result.now ≡ self.now.source }
    {
        self.source.as_slice()
    }

    /// Whether its last compilation went well (COMPILE_STATUS).
    pub fn is_compiled(&self) -> bool
        ensures { result ≡ self.now.is_compiled }
    {
        self.is_compiled
    }

    /// What its last compilation said.
    pub fn log(&self) -> &[u8]
        ensures { result.now ≡ self.now.log }
    {
        self.log.as_slice()
    }

    /// Whether it goes once no program has it attached (DELETE_STATUS).
    pub fn is_deleted(&self) -> bool
        ensures { result ≡ self.now.is_deleted }
    {
        self.is_deleted
    }

    /// How many programs have it attached.
    pub fn attachments(&self) -> u64
        ensures { result ≡ self.now.attachments }
    {
        self.attachments
    }

    /// What was done to it.
    pub fn past(&self) -> &Past
        ensures { result.now.compiled ≡ self.now.compiled }
    {
        &self.past
    }

    /// Gives it this source. What was compiled stays.
    pub fn set_source(&mut self, source: Bytes)
        ensures { self.new ≡ record self.old { source = source } }
    {
        self.source = source;
    }

    /// Its source was compiled, and the compiler said this.
    pub fn set_compiled(&mut self, ok: bool, log: Bytes)
        ensures { self.new ≡ record self.old { compiled = Some self.old.source; is_compiled = ok; log = log } }
    {
        let event = Event::Compiled {
            source: self.source.as_slice(),
        };
        self.past = self.past.and(&event);
        self.is_compiled = ok;
        self.log = log;
    }

    /// It goes once no program has it attached.
    pub fn mark(&mut self)
        ensures { self.new ≡ record self.old { is_deleted = true } }
    {
        self.is_deleted = true;
    }

    /// So many programs have it attached.
    pub fn set_attachments(&mut self, attachments: u64)
        ensures { self.new ≡ record self.old { attachments = attachments } }
    {
        self.attachments = attachments;
    }
}
