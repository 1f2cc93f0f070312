//! The service: commands are read from shared memory, and each is one step of OpenGL ES with its driver calls.
#![tactic(auto)]

mod decoder;
mod outcome;
mod replying;
mod service;
mod serving;
mod tables;

pub use decoder::Decoder;
pub use outcome::{Outcome, ServiceStop, StepOutcome};
pub use service::Service;
pub use serving::serve;
