//! Memory that a script describes, whose client writes between copies.
ghost use Rattle.std.specs.Prelude.{◌≡◌, ◌≤◌, ◌*◌, length, IfOk};
ghost use Rattle.std.specs.FinMap as map;
ghost use Rattle.cb_shm.specs.Applied.{zero_blocks};

use crate::history::{Access, History};
use crate::patching::{apply, come_due, file_all};
use crate::regions::Regions;
use crate::{Script, Shm, ShmRefusal};
use gl_base::NumberMap;
use gl_plain::{PatchList, Region};
use std::alloc::{AllocError, Global};

/// Memory that a script describes. Each copy gives the bytes that the script sets for its number. The memory keeps its own bytes
/// when the service writes: a put changes no byte.
#[derive(Drop)]
pub struct HostileMemory {
    /// The bytes that the next copy will meet.
    regions: Regions,
    /// What is still to be written, by the number of the copy.
    waiting: NumberMap<PatchList>,
    /// How many copies were made.
    made: u64,
    history: History,
    ghost counted: { made ≡ length history.copies },
}

/// The ring and the listed regions, all zero.
fn zero_regions(alloc: Global, entries: u32, listed: &[Region]) -> Result<Regions, AllocError>
    requires { entries ≤ 1048576 }
    ensures { IfOk result (λ regions. regions ≡ zero_blocks entries listed.now) }
{
    let mut regions = Regions::new(alloc);
    for region in listed {
        regions.add(alloc, region.id, region.size)?;
    }
    regions.add(alloc, 0, 4 * entries)?;
    Ok(regions)
}

impl HostileMemory {
    ghost use Rattle.std.specs.Prelude.{[]};
    ghost use Rattle.cb_shm.specs.Whole.{IsWholeScript};
    ghost use Rattle.cb_shm.specs.HostileMemories.{IsMemoryOf, memory_of};

    /// The memory of a script, of which no copy was made.
    pub fn new(alloc: Global, script: &Script) -> Result<HostileMemory, AllocError>
        requires { IsWholeScript script.now }
        ensures described { IfOk result (λ memory. IsMemoryOf script.now memory) }
        ensures no_copies { IfOk result (λ memory. (memory_of memory).copies ≡ []) }
        ensures no_puts { IfOk result (λ memory. (memory_of memory).puts ≡ []) }
    {
        let mut regions = zero_regions(alloc, script.entries, script.regions.as_slice())?;
        apply(&mut regions, script.opening.as_slice());
        let mut waiting = file_all(alloc, script.timed.as_slice())?;
        come_due(&mut regions, &mut waiting, 0);
        Ok(HostileMemory {
            regions,
            waiting,
            made: 0,
            history: History::new(),
        })
    }
}

impl Shm for HostileMemory {
    ghost use Rattle.cb_shm.specs.HostileMemories.{memory_of, HasSameScript, same_script_itself, same_script_further};

    ghost memory = { memory_of };

    ghost grown = { HasSameScript };

    fn size(&self, region: u32) -> Option<u32> {
        self.regions.size(region)
    }

    fn copy(&mut self, region: u32, offset: u32, out: &mut [u8]) -> Result<(), ShmRefusal> {
        let Some(bytes) = self.regions.part(region, offset, out.len()) else {
            return Err(ShmRefusal::NoRegion);
        };
        let Some(next) = self.made.checked_add(1) else {
            return Err(ShmRefusal::NoMemory);
        };
        let copy = Access::Copy {
            region,
            offset,
            bytes,
        };
        self.history = self.history.and(&copy);
        self.made = next;
        out.copy_from_slice(bytes);
        come_due(&mut self.regions, &mut self.waiting, next);
        Ok(())
    }

    fn put(&mut self, region: u32, offset: u32, bytes: &[u8]) -> Result<(), ShmRefusal> {
        if !self.regions.contains(region, offset, bytes.len()) {
            return Err(ShmRefusal::NoRegion);
        }
        let put = Access::Put {
            region,
            offset,
            bytes,
        };
        self.history = self.history.and(&put);
        Ok(())
    }

    ghost grown_itself = { same_script_itself };

    ghost grown_further = { same_script_further };
}
