//! The trait of shared memory.
ghost use Rattle.std.specs.Prelude.{◌≡◌, ◌↔◌, length, OnOk, OnErr, Err};
ghost use Rattle.gl_plain.specs.Regions.{IsInside};
ghost use Rattle.cb_shm.specs.Memory.{MemoryView, copied, stored};

use thiserror::Error;

/// Why a copy or a put was not made. Nothing is changed by it.
#[derive(Clone, Copy, Debug, PartialEq, Eq, Error)]
pub enum ShmRefusal {
    /// The range is not inside a region.
    #[error("the range is not inside a region of shared memory")]
    NoRegion,
    /// There was no memory.
    #[error("no memory for an access to shared memory")]
    NoMemory,
}

/// Shared memory. Its client may change any byte between any two copies, so that two copies of one range may differ.
/// Regions keep their sizes.
pub trait Shm {
    /// The sizes of its regions, the copies made so far, and the puts.
    ghost memory: { Self → MemoryView };

    /// The second value may come of the first by calls.
    ghost grown: { Self → Self → Type 0 };

    /// The size of a region in bytes. `None` where there is no such region.
    fn size(&self, region: u32) -> Option<u32>
        ensures { result ≡ (memory self.now).sizes region };

    /// One copy: the bytes at this moment.
    fn copy(&mut self, region: u32, offset: u32, out: &mut [u8]) -> Result<(), ShmRefusal>
        ensures made { OnOk result (memory self.new ≡ copied (memory self.old) region offset out.new) }
        ensures refused { OnErr result (self.new ≡ self.old) }
        ensures kept { OnErr result (out.new ≡ out.old) }
        ensures no_region { (result ≡ Err ShmRefusal.NoRegion) ↔ (¬ IsInside (memory self.old).sizes region offset (length out.old)) }
        ensures grows { grown self.old self.new };

    /// Writes bytes into a region.
    fn put(&mut self, region: u32, offset: u32, bytes: &[u8]) -> Result<(), ShmRefusal>
        ensures made { OnOk result (memory self.new ≡ stored (memory self.old) region offset bytes.now) }
        ensures refused { OnErr result (self.new ≡ self.old) }
        ensures no_region { (result ≡ Err ShmRefusal.NoRegion) ↔ (¬ IsInside (memory self.old).sizes region offset (length bytes.now)) }
        ensures grows { grown self.old self.new };

    ghost grown_itself: { (a : Self) → grown a a };

    ghost grown_further: { (a b c : Self) → grown a b → grown b c → grown a c };
}
