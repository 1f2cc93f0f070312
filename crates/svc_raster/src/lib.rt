//! The fixed state of rasterization and of fragments, and the alignments of pixels in memory: what the service keeps of them.
#![tactic(auto)]

mod effects;
mod raster;
mod rules;
mod states;

pub use raster::Raster;
pub use rules::{kept_words, raster_refusal};

#[cfg(test)]
mod tests;
