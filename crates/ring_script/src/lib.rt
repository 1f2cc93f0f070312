//! The text of a script: its grammar, and the script that a text stands for.
#![tactic(auto)]

mod draft;
mod line;
mod script;
#[cfg(test)]
mod tests;

pub use script::{ReadRefusal, read_script};
