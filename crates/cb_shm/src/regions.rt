//! The regions of a memory, by number.
ghost use Rattle.std.specs.Prelude.{◌≡◌, ◌↔◌, length, replicate, IfOk, OnOk, OnErr, IsTrue};
ghost use Rattle.std.specs.Option.{option_copied};
ghost use Rattle.std.specs.FinMap as map;
ghost use Rattle.gl_plain.specs.Regions.{IsInside};
ghost use Rattle.cb_shm.specs.Blocks.{sizes_of, written, part_of};

use crate::block::Block;
use gl_base::NumberMap;
use std::alloc::{AllocError, Global};
use std::marker::Model;

/// The regions by number.
#[derive(Drop)]
pub struct Regions {
    blocks: NumberMap<Block>,
}

impl Model for Regions {
    ghost use Rattle.std.specs.FinMap as map;
    ghost use Rattle.std.specs.Coded.{coded_ℕ, coded_list};
    ghost use Rattle.cb_shm.specs.Blocks.{Blocks};

    ghost Value = { Blocks };

    ghost coded = { map.code coded_ℕ (coded_list coded_ℕ) };

    ghost view = { λ a. a.blocks };
}

impl Regions {
    /// No regions. It takes no memory.
    pub fn new(alloc: Global) -> Regions
        ensures { result ≡ map.empty }
    {
        Regions {
            blocks: NumberMap::new(alloc),
        }
    }

    /// Adds a region of zero bytes.
    pub fn add(&mut self, alloc: Global, region: u32, size: u32) -> Result<(), AllocError>
        ensures ok { OnOk result (self.new ≡ map.insert self.old region (replicate size 0)) }
        ensures err { OnErr result (self.new ≡ self.old) }
    {
        let block = Block::zeros(alloc, size)?;
        match self.blocks.insert(region as u64, block) {
            Ok(_) => Ok(()),
            Err(_) => Err(AllocError),
        }
    }

    /// The size of a region.
    pub fn size(&self, region: u32) -> Option<u32>
        ensures { result ≡ sizes_of self.now region }
    {
        match self.blocks.get(region as u64) {
            Some(block) => Some(block.size()),
            None => None,
        }
    }

    /// The bytes of a range, where it is inside.
    pub fn part(&self, region: u32, offset: u32, count: usize) -> Option<&[u8]>
        ensures { option_copied result ≡ part_of (map.get self.now region) offset count }
    {
        let Some(block) = self.blocks.get(region as u64) else {
            return None;
        };
        let bytes = block.as_slice();
        let offset = offset as usize;
        if offset > bytes.len() || count > bytes.len() - offset {
            return None;
        }
        Some(&bytes[offset..offset + count])
    }

    /// Whether a range is inside.
    pub fn contains(&self, region: u32, offset: u32, count: usize) -> bool
        ensures { IsTrue result ↔ IsInside (sizes_of self.now) region offset count }
    {
        match self.size(region) {
            Some(size) => offset <= size && count <= (size - offset) as usize,
            None => false,
        }
    }

    /// Writes bytes over a range. It takes no memory.
    pub fn write(&mut self, region: u32, offset: u32, bytes: &[u8])
        requires { IsInside (sizes_of self.old) region offset (length bytes.now) }
        ensures { self.new ≡ written self.old region offset bytes.now }
    {
        if let Some(block) = self.blocks.get_mut(region as u64) {
            block.write(offset as usize, bytes);
        }
    }
}
