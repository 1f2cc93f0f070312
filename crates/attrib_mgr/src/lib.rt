//! The vertex attributes of the service: their arrays and their constant values.
#![tactic(auto)]

mod attribs;
mod refusals;

pub use attribs::Attribs;
pub use refusals::{attribute_refusal, pointer_refusal};

#[cfg(test)]
mod tests;
