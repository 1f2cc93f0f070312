//! Images in client memory, by their sizes, and which part of a level was written so far.
#![tactic(auto)]

mod cover;
mod shapes;
mod sizes;

pub use cover::Cover;
pub use gl_base::Rect;
pub use sizes::{Rows, image_bytes, image_rows, pixel_bytes};

#[cfg(test)]
mod tests;
