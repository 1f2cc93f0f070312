//! What a client sets in shared memory.

use crate::{Bytes, Seq};

/// A region of shared memory: its number, and its size in bytes.
#[derive(Clone, Copy, Debug, PartialEq, Eq)]
pub struct Region {
    pub id: u32,
    pub size: u32,
}

/// Regions in the order of their lines.
pub type RegionList = Seq<Region>;

/// Bytes that stand at an offset of a region before the run.
#[derive(Debug, Drop)]
pub struct Patch {
    pub region: u32,
    pub offset: u32,
    pub bytes: Bytes,
}

/// Patches in the order of their lines.
pub type PatchList = Seq<Patch>;

/// Bytes that the client writes just before the copy of this number, the first copy of a run being number 0.
#[derive(Debug, Drop)]
pub struct Timed {
    pub copy: u32,
    pub region: u32,
    pub offset: u32,
    pub bytes: Bytes,
}

/// Overwrites in the order of their lines.
pub type TimedList = Seq<Timed>;
