//! Where a program's bytes come from and go to, and how often a read or a write failed.
#![tactic(auto)]

mod calls;
mod edge;
mod memory;
mod standard;
#[cfg(test)]
mod tests;
mod whole;

pub use edge::{Failed, Sink, Source};
pub use memory::{MemorySink, MemorySource};
pub use standard::{StdSink, StdSource};
pub use whole::{INPUT_LIMIT, ReadStop, read_all, write_all};
