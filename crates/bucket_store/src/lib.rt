//! The buckets of the service: bytes that commands write in pieces, use as their data, and read.
#![tactic(auto)]

mod buckets;

pub use buckets::Buckets;

#[cfg(test)]
mod tests;
