//! Shared memory for an embedding: one block of bytes for each region.
ghost use Rattle.std.specs.Prelude.{◌≡◌, ◌↔◌, ◌≤◌, ◌+◌, length, map, replicate, IfOk, OnOk, OnErr, Err, IsTrue};
ghost use Rattle.std.specs.Option.{option_copied};
ghost use Rattle.gl_plain.specs.Bytes.{overwritten};
ghost use Rattle.gl_plain.specs.Regions.{IsInside};
ghost use Rattle.cb_shm.specs.Histories.{no_access};
ghost use Rattle.embedding.specs.BlockMemories.{has_room, memory_of, part_of};

use cb_shm::{Access, History, Shm, ShmRefusal};
use gl_plain::Bytes;
use std::alloc::{AllocError, Global};
use std::marker::Model;

/// The bytes of a region, fewer than 2^32.
#[derive(Drop)]
pub struct Block {
    bytes: Bytes,
}

impl Model for Block {
    ghost use Rattle.std.specs.Prelude.{List, ℕ, length, ◌<◌, ◌^◌};
    ghost use Rattle.std.specs.Coded.{coded_ℕ, coded_list};

    ghost Value = { List ℕ };

    ghost coded = { coded_list coded_ℕ };

    ghost view = { λ a. a.bytes };

    ghost invariant = { λ a. length a.bytes < 2 ^ 32 };
}

impl Block {
    /// So many zero bytes.
    fn zeros(alloc: Global, size: u32) -> Result<Block, AllocError>
        ensures { IfOk result (λ block. block ≡ replicate size 0) }
    {
        let bytes = Bytes::zeros(alloc, size as usize)?;
        Ok(Block { bytes })
    }

    /// Its size in bytes.
    fn size(&self) -> u32
        ensures { result ≡ length self.now }
    {
        self.bytes.len() as u32
    }

    /// Whether a range ends within it.
    fn contains(&self, offset: u32, count: usize) -> bool
        ensures { result ≡ has_room self.now offset count }
    {
        let size = self.size();
        offset <= size && count <= (size - offset) as usize
    }

    /// The bytes of a range, where it ends within them.
    fn part(&self, offset: u32, count: usize) -> Option<&[u8]>
        ensures { option_copied result ≡ part_of self.now offset count }
    {
        if !self.contains(offset, count) {
            return None;
        }
        let offset = offset as usize;
        Some(&self.bytes.as_slice()[offset..offset + count])
    }

    /// Writes bytes from an offset on.
    fn write(&mut self, offset: u32, bytes: &[u8])
        requires { offset + length bytes.now ≤ length self.old }
        ensures { self.new ≡ overwritten self.old offset bytes.now }
    {
        self.bytes.overwrite(offset as usize, bytes);
    }
}

/// Memory with regions 0, 1, 2 and so on, of which 0 is the ring. The client writes into it by `write`.
#[derive(Drop)]
pub struct BlockMemory {
    blocks: Vec<Block>,
    history: History,
}

impl BlockMemory {
    /// Regions of zeros, of these sizes.
    pub fn new(alloc: Global, sizes: &[u32]) -> Result<BlockMemory, AllocError>
        ensures blocks { IfOk result (λ memory. memory.blocks.items ≡ map (λ size. replicate size 0) sizes.now) }
        ensures history { IfOk result (λ memory. memory.history ≡ no_access) }
    {
        let mut blocks = Vec::new(alloc);
        for size in sizes {
            blocks.push(Block::zeros(alloc, *size)?)?;
        }
        Ok(BlockMemory {
            blocks,
            history: History::new(),
        })
    }

    /// The client writes bytes into a region. The service does not see this but by its copies.
    pub fn write(&mut self, region: u32, offset: u32, bytes: &[u8]) -> Result<(), ShmRefusal>
        ensures same { memory_of self.new ≡ memory_of self.old }
        ensures refused { OnErr result (self.new ≡ self.old) }
        ensures no_region { (result ≡ Err ShmRefusal.NoRegion) ↔ (¬ IsInside (memory_of self.old).sizes region offset (length bytes.now)) }
    {
        if !self.contains(region, offset, bytes.len()) {
            return Err(ShmRefusal::NoRegion);
        }
        if let Some(block) = self.blocks.get_mut(region as usize) {
            block.write(offset, bytes);
        }
        Ok(())
    }

    /// Whether a range is inside a region.
    fn contains(&self, region: u32, offset: u32, count: usize) -> bool
        ensures { IsTrue result ↔ IsInside (memory_of self.now).sizes region offset count }
    {
        match self.blocks.get(region as usize) {
            Some(block) => block.contains(offset, count),
            None => false,
        }
    }
}

impl Shm for BlockMemory {
    ghost use Rattle.embedding.specs.BlockMemories.{HasSameSizes, memory_of, same_sizes_itself, same_sizes_further};

    ghost memory = { memory_of };

    ghost grown = { HasSameSizes };

    fn size(&self, region: u32) -> Option<u32> {
        match self.blocks.get(region as usize) {
            Some(block) => Some(block.size()),
            None => None,
        }
    }

    fn copy(&mut self, region: u32, offset: u32, out: &mut [u8]) -> Result<(), ShmRefusal> {
        let Some(block) = self.blocks.get(region as usize) else {
            return Err(ShmRefusal::NoRegion);
        };
        let Some(bytes) = block.part(offset, out.len()) else {
            return Err(ShmRefusal::NoRegion);
        };
        self.history = self.history.and(&Access::Copy {
            region,
            offset,
            bytes,
        });
        out.copy_from_slice(bytes);
        Ok(())
    }

    fn put(&mut self, region: u32, offset: u32, bytes: &[u8]) -> Result<(), ShmRefusal> {
        self.write(region, offset, bytes)?;
        self.history = self.history.and(&Access::Put {
            region,
            offset,
            bytes,
        });
        Ok(())
    }

    ghost grown_itself = { same_sizes_itself };

    ghost grown_further = { same_sizes_further };
}
