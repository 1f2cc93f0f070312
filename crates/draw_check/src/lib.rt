//! The rules of draws, and what a draw that they let through draws (OpenGL ES 2.0.25, sections 2.8, 3.7 and 4.4). Nothing here takes memory.
#![tactic(auto)]

mod arrays;
mod elements;
mod indices;
mod units;

pub use elements::check;

#[cfg(test)]
mod tests;
