//! Memory that keeps what is put into it.
ghost use Rattle.std.specs.Prelude.{◌≡◌, ◌↔◌, ◌≤◌, ◌<◌, ◌^◌, [], length, IfOk, OnOk, OnErr, Err};
ghost use Rattle.gl_plain.specs.Bytes.{part};
ghost use Rattle.gl_plain.specs.Regions.{IsInside};
ghost use Rattle.cb_shm.specs.Memory.{copied, stored};
ghost use Rattle.cb_shm.specs.Plain.{new_plain, memory_of, plain_bytes};

use crate::history::{Access, History};
use crate::regions::Regions;
use crate::{Shm, ShmRefusal};
use std::alloc::{AllocError, Global};
use std::marker::Model;

/// How many bytes region 2 has.
const RESULT_SIZE: u32 = 65536;

/// Memory that no client changes: region 0 is a ring, region 1 has transfer bytes, and region 2 has 65,536. A byte is what was last
/// put there, and zero at first.
#[derive(Drop)]
pub struct PlainMemory {
    entries: u32,
    transfer: u32,
    regions: Regions,
    history: History,
}

impl Model for PlainMemory {
    ghost use Rattle.cb_shm.specs.PlainView.{PlainView};
    ghost use Rattle.cb_shm.specs.PlainInside.{view_of, IsPlain};

    ghost Value = { PlainView };

    ghost view = { view_of };

    ghost invariant = { IsPlain };
}

impl PlainMemory {
    /// Memory for a ring of so many entries of 4 bytes, and so many transfer bytes.
    pub fn new(alloc: Global, entries: u32, transfer: u32) -> Result<PlainMemory, AllocError>
        requires { entries < 2 ^ 30 }
        ensures { IfOk result (λ memory. memory ≡ new_plain entries transfer) }
    {
        let mut regions = Regions::new(alloc);
        regions.add(alloc, 2, RESULT_SIZE)?;
        regions.add(alloc, 1, transfer)?;
        regions.add(alloc, 0, 4 * entries)?;
        Ok(PlainMemory {
            entries,
            transfer,
            regions,
            history: History::new(),
        })
    }

    /// The bytes of a range, of which no copy is listed. It takes no memory.
    pub fn read(&self, region: u32, offset: u32, out: &mut [u8])
        requires { IsInside (memory_of self.now).sizes region offset (length out.old) }
        ensures { out.new ≡ part (plain_bytes self.now region) offset (length out.old) }
    {
        if let Some(bytes) = self.regions.part(region, offset, out.len()) {
            out.copy_from_slice(bytes);
        }
    }
}

impl Shm for PlainMemory {
    ghost use Rattle.cb_shm.specs.Plain.{memory_of, HasSameSizes, same_sizes_itself, same_sizes_further};

    ghost memory = { memory_of };

    ghost grown = { HasSameSizes };

    fn size(&self, region: u32) -> Option<u32> {
        self.regions.size(region)
    }

    fn copy(&mut self, region: u32, offset: u32, out: &mut [u8]) -> Result<(), ShmRefusal>
        ensures made { OnOk result (memory_of self.new ≡ copied (memory_of self.old) region offset out.new) }
        ensures bytes { OnOk result (out.new ≡ part (plain_bytes self.old region) offset (length out.old)) }
        ensures refused { OnErr result (self.new ≡ self.old) }
        ensures kept { OnErr result (out.new ≡ out.old) }
        ensures no_region { (result ≡ Err ShmRefusal.NoRegion) ↔ (¬ IsInside (memory_of self.old).sizes region offset (length out.old)) }
        ensures grows { HasSameSizes self.old self.new }
    {
        let Some(bytes) = self.regions.part(region, offset, out.len()) else {
            return Err(ShmRefusal::NoRegion);
        };
        let copy = Access::Copy {
            region,
            offset,
            bytes,
        };
        self.history = self.history.and(&copy);
        out.copy_from_slice(bytes);
        Ok(())
    }

    fn put(&mut self, region: u32, offset: u32, bytes: &[u8]) -> Result<(), ShmRefusal> {
        if !self.regions.contains(region, offset, bytes.len()) {
            return Err(ShmRefusal::NoRegion);
        }
        let put = Access::Put {
            region,
            offset,
            bytes,
        };
        self.history = self.history.and(&put);
        self.regions.write(region, offset, bytes);
        Ok(())
    }

    ghost grown_itself = { same_sizes_itself };

    ghost grown_further = { same_sizes_further };
}
