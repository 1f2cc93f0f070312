//! The buffers of the service: their names, their objects, and the two bindings.
#![tactic(auto)]

mod buffer;
mod buffers;
mod indices;

pub use buffer::Buffer;
pub use buffers::{Buffers, is_buffer_target};

#[cfg(test)]
mod tests;
