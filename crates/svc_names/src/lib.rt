//! Tables from the names that clients give to objects.
#![tactic(auto)]

mod table;

pub use table::{NameRefusal, NameTable};

#[cfg(test)]
mod tests;
