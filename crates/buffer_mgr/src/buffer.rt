//! A buffer object (OpenGL ES 2.0.25, section 2.9).
ghost use Rattle.std.specs.Prelude.{◌≡◌, ◌≤◌, Some, OnOk, OnErr, is_none, length, true};
ghost use Rattle.std.specs.Bool.{OnTrue, OnFalse};
ghost use Rattle.gl_base.specs.declared.limits.TheConstants.{DATA_LIMIT};
ghost use Rattle.gl_plain.specs.subjects.Draws as d;
ghost use Rattle.gl_plain.specs.subjects.Buffers.{changed, empty_buffer, range_refusal};

use crate::indices::max_index;
use gl_base::GlEnum;
use gl_base::enums::STATIC_DRAW;
use gl_plain::Bytes;
use std::alloc::{AllocError, Global};
use std::marker::Model;

/// A buffer object: its bytes, and how its client means to use them.
#[derive(Debug, Drop)]
pub struct Buffer {
    bytes: Bytes,
    usage: GlEnum,
}

impl Model for Buffer {
    ghost use Rattle.std.specs.Prelude.{◌≤◌, length};
    ghost use Rattle.gl_base.specs.declared.limits.TheConstants.{DATA_LIMIT};
    ghost use Rattle.gl_plain.specs.declared.objects.Buffer as tables;

    ghost Value = { tables.Buffer };

    ghost view = { λ a. record { bytes = a.bytes; usage = a.usage } };

    ghost invariant = { λ a. length a.bytes ≤ DATA_LIMIT };
}

impl Buffer {
    /// A buffer as it opens: no bytes, and STATIC_DRAW (table 6.3). It takes no memory.
    pub fn new(alloc: Global) -> Buffer
        ensures { result ≡ empty_buffer }
    {
        Buffer {
            bytes: Bytes::new(alloc),
            usage: STATIC_DRAW,
        }
    }

    /// Its bytes.
    pub fn bytes(&self) -> &[u8]
        ensures { result.now ≡ self.now.bytes }
    {
        self.bytes.as_slice()
    }

    /// How many bytes it has, which is never more than the limit of data.
    pub fn size(&self) -> u32
        ensures size { result ≡ length self.now.bytes }
        ensures limit { result ≤ DATA_LIMIT }
    {
        self.bytes.len() as u32
    }

    /// How its client means to use them.
    pub fn usage(&self) -> GlEnum
        ensures { result ≡ self.now.usage }
    {
        self.usage
    }

    /// The greatest of so many indices of this kind from a byte on, as a draw reads them (section 2.8). `None` where there are none, and where
    /// they are not inside the bytes. It takes no memory.
    pub fn max_index(&self, offset: u32, count: u32, kind: GlEnum) -> Option<u32>
        requires { d.is_index_kind kind ≡ true }
        ensures { result ≡ d.max_index self.now.bytes offset count kind }
    {
        max_index(self.bytes.as_slice(), offset, count, kind)
    }

    /// Puts these bytes and this usage in place of what it has. It takes no memory, and answers `Ok`.
    pub fn store(&mut self, bytes: Bytes, usage: GlEnum) -> Result<(), AllocError>
        requires { length bytes ≤ DATA_LIMIT }
        ensures ok { OnOk result (self.new ≡ record { bytes = bytes; usage = usage }) }
        ensures err { OnErr result (self.new ≡ self.old) }
    {
        self.bytes = bytes;
        self.usage = usage;
        Ok(())
    }

    /// Puts bytes in place of those from an offset on. False, and all is as before, where the range is outside. It takes no memory.
    pub fn change(&mut self, offset: u32, bytes: &[u8]) -> bool
        ensures inside { result ≡ is_none (range_refusal (Some self.old) offset (length bytes.now)) }
        ensures done { OnTrue result (self.new ≡ changed self.old offset bytes.now) }
        ensures refused { OnFalse result (self.new ≡ self.old) }
    {
        let offset = offset as usize;
        let len = self.bytes.len();
        if offset > len || bytes.len() > len - offset {
            return false;
        }
        self.bytes.overwrite(offset, bytes);
        true
    }
}
