//! A driver that gives new names by counting, and the journal of a driver that keeps none.
#![tactic(auto)]

mod driver;
mod journal;
mod names;

pub use driver::CountingDriver;
pub use journal::{Journal, Made};
pub use names::Names;
