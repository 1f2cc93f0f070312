//! Commands are fetched from shared memory: each byte of a command is copied exactly once, and what was copied is never read again.
#![tactic(auto)]

mod copying;
mod faults;
mod fetcher;
mod outcome;
mod stages;

pub use fetcher::Fetcher;
pub use outcome::{FetchOutcome, FetchStop};

#[cfg(test)]
mod tests;
