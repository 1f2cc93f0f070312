//! The journal of a driver that keeps none: contracts alone read it. It takes no memory, and entering a call does nothing at run time.
ghost use Rattle.std.specs.Prelude.{List};
ghost use Rattle.std.specs.Borrow.{ftrue};
ghost use Rattle.gl_plain.specs.declared.driver_calls.DriverEntry.{DriverEntry};

use gl_base::GlEnum;
use gl_plain::{Answer, DriverCall, PartWords};
use std::marker::Model;

/// The calls made so far with their answers, in order.
#[derive(Drop)]
pub struct Journal {
    pub ghost entries: { List DriverEntry },
}

impl Model for Journal {
    ghost also_owns = { λ _. ftrue };
}

/// A call as it was made. Bytes and words are lent, so that none are copied for the journal.
#[derive(Clone, Copy)]
pub enum Made<'a> {
    BufferData {
        target: GlEnum,
        bytes: &'a [u8],
        usage: GlEnum,
    },
    BufferSubData {
        target: GlEnum,
        offset: i32,
        bytes: &'a [u8],
    },
    /// A new image for a level: its rows without padding, or none.
    TexImage {
        target: GlEnum,
        level: i32,
        format: GlEnum,
        kind: GlEnum,
        width: i32,
        height: i32,
        bytes: Option<&'a [u8]>,
    },
    TexSubImage {
        part: PartWords,
        bytes: &'a [u8],
    },
    ShaderSource {
        name: u64,
        bytes: &'a [u8],
    },
    BindAttribLocation {
        program: u64,
        index: u32,
        name: &'a [u8],
    },
    Uniform {
        location: i32,
        kind: u32,
        count: i32,
        bytes: &'a [u8],
    },
    SetRaster {
        number: u32,
        words: &'a [u32],
    },
    /// A read with the pixels that it gave.
    ReadPixels {
        x: i32,
        y: i32,
        width: i32,
        height: i32,
        pixels: &'a [u8],
    },
    /// A call without bytes, and its answer. Those above but the read are answered `Done`.
    Plain {
        call: &'a DriverCall,
        answer: &'a Answer,
    },
}

impl Journal {
    ghost use Rattle.std.specs.Prelude.{◌≡◌};
    ghost use Rattle.counting_driver.specs.Entries.{no_entries, with_entry};

    /// The journal of a driver of which no call was made.
    pub fn new() -> Journal
        ensures { result ≡ no_entries }
    {
        Journal {}
    }

    /// The journal with one more call.
    #[inline(always)]
    pub fn and(&self, _made: &Made<'_>) -> Journal
        ensures { result ≡ with_entry self.now _made.now }
    {
        Journal {}
    }
}
