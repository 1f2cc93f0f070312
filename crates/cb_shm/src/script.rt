//! A script: what stands in shared memory, what its client writes there while the service reads, and what the driver answers.

use gl_plain::{Answers, PatchList, RegionList, TimedList, Words};

/// A script: the sides of the default framebuffer, how many entries the ring has, the other regions, what stands in them at first (later
/// patches over earlier ones, and zeros elsewhere), what is written before which copy, the values of put that the client publishes, and
/// the answers of the driver.
#[derive(Debug, Drop)]
pub struct Script {
    /// The width and the height of the default framebuffer.
    pub surface: (u32, u32),
    pub entries: u32,
    pub regions: RegionList,
    pub opening: PatchList,
    pub timed: TimedList,
    pub puts: Words,
    /// What compilations, links and validations say, which questions for room the driver denies, and after how many calls it is lost.
    pub answers: Answers,
}
