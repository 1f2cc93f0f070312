//! The bytes of one region.
ghost use Rattle.std.specs.Prelude.{◌≡◌, ◌≤◌, ◌+◌, length, replicate, IfOk};
ghost use Rattle.gl_plain.specs.Bytes.{overwritten};

use std::alloc::{AllocError, Global};
use std::marker::Model;

/// The bytes of a region, fewer than 2^32.
#[derive(Drop)]
pub struct Block {
    bytes: Vec<u8>,
}

impl Model for Block {
    ghost use Rattle.std.specs.Prelude.{List, ℕ, length, ◌<◌, ◌^◌};

    ghost Value = { List ℕ };

    ghost view = { λ a. a.bytes.items };

    ghost invariant = { λ a. length a.bytes.items < 2 ^ 32 };
}

impl Block {
    /// So many zero bytes.
    pub fn zeros(alloc: Global, size: u32) -> Result<Block, AllocError>
        ensures { IfOk result (λ block. block ≡ replicate size 0) }
    {
        let bytes = vec![in alloc; 0u8; size as usize]?;
        Ok(Block { bytes })
    }

    /// Its size in bytes.
    pub fn size(&self) -> u32
        ensures { result ≡ length self.now }
    {
        self.bytes.len() as u32
    }

    /// Its bytes.
    pub fn as_slice(&self) -> &[u8]
        ensures { result.now ≡ self.now }
    {
        self.bytes.as_slice()
    }

    /// Writes bytes from an offset on.
    pub fn write(&mut self, offset: usize, bytes: &[u8])
        requires { offset + length bytes.now ≤ length self.old }
        ensures { self.new ≡ overwritten self.old offset bytes.now }
    {
        self.bytes[offset..offset + bytes.len()].copy_from_slice(bytes);
    }
}
