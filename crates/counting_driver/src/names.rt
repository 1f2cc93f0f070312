//! The names that were given, by their counts.

/// How many names were given in each name space: they are those from 1 to its count.
#[derive(Clone, Copy, Debug, PartialEq, Eq)]
pub struct Names {
    pub buffers: u64,
    pub textures: u64,
    pub renderbuffers: u64,
    pub framebuffers: u64,
    /// Those of shaders and programs, which share one name space.
    pub programs: u64,
}
