//! Patches that are written over regions in order, and those that wait for their copy.
ghost use Rattle.std.specs.Prelude.{◌≡◌, ◌∷◌, [], ◌++◌, length, IfOk, OnOk};
ghost use Rattle.std.specs.FinMap as map;
ghost use Rattle.cb_shm.specs.Applied.{applied, written_within};
ghost use Rattle.cb_shm.specs.Waiting.{bucket, filed, filed_all};

use crate::regions::Regions;
use gl_base::NumberMap;
use gl_plain::{Bytes, Patch, PatchList, Timed};
use std::alloc::{AllocError, Global};

/// Writes a patch, where its range is inside.
fn write_within(regions: &mut Regions, patch: &Patch)
    ensures { regions.new ≡ written_within regions.old patch.now }
{
    let bytes = patch.bytes.as_slice();
    if regions.contains(patch.region, patch.offset, bytes.len()) {
        regions.write(patch.region, patch.offset, bytes);
    }
}

/// Writes the patches in order.
pub fn apply(regions: &mut Regions, patches: &[Patch])
    ensures { regions.new ≡ applied patches.now regions.old }
{
    for patch in patches {
        write_within(regions, patch);
    }
}

/// Files an overwrite behind those of its number.
fn file(alloc: Global, waiting: &mut NumberMap<PatchList>, timed: &Timed) -> Result<(), AllocError>
    ensures { OnOk result (waiting.new ≡ filed waiting.old timed.now) }
{
    let patch = Patch {
        region: timed.region,
        offset: timed.offset,
        bytes: Bytes::from_slice(alloc, timed.bytes.as_slice())?,
    };
    let number = timed.copy as u64;
    match waiting.get_mut(number) {
        Some(patches) => patches.push(patch),
        None => {
            let mut patches = PatchList::new(alloc);
            patches.push(patch)?;
            match waiting.insert(number, patches) {
                Ok(_) => Ok(()),
                Err(_) => Err(AllocError),
            }
        }
    }
}

/// The overwrites by number, those of one number in order.
pub fn file_all(alloc: Global, timed: &[Timed]) -> Result<NumberMap<PatchList>, AllocError>
    ensures { IfOk result (λ waiting. waiting ≡ filed_all timed.now map.empty) }
{
    let mut waiting = NumberMap::new(alloc);
    for one in timed {
        file(alloc, &mut waiting, one)?;
    }
    Ok(waiting)
}

/// Writes what waits for the copy of this number.
pub fn come_due(regions: &mut Regions, waiting: &mut NumberMap<PatchList>, number: u64)
    ensures regions { regions.new ≡ applied (bucket waiting.old number) regions.old }
    ensures waiting { waiting.new ≡ map.remove waiting.old number }
{
    if let Some(patches) = waiting.remove(number) {
        apply(regions, patches.as_slice());
    }
}
