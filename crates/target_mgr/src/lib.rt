//! The renderbuffers and framebuffers of the service: their names, their objects with what was written of renderbuffers, and what is bound.
#![tactic(auto)]

mod framebuffers;
mod objects;
mod renderbuffers;
mod targets;

pub use framebuffers::Framebuffers;
pub use renderbuffers::Renderbuffers;
pub use targets::Targets;

#[cfg(test)]
mod tests;
