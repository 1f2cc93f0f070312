//! What a driver is: the condition of each of its calls, and what a call enters in its journal.
#![tactic(auto)]

mod driver;
mod stop;
mod zeroing;

pub use driver::Driver;
pub use gl_plain::Stored;
pub use stop::DriverStop;
pub use zeroing::zero_rects;
