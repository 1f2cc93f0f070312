//! The shaders and the programs of the service: their names, their objects, the current program, and the values of its uniforms.
#![tactic(auto)]

mod deletion;
mod element;
mod executable;
mod links;
mod names;
mod past;
mod places;
mod program;
mod programs;
mod refusal;
mod refusals;
mod shader;
mod uniform_kinds;
mod uniforms;
mod units;

pub use element::Element;
pub use executable::Executable;
pub use program::Program;
pub use programs::Programs;
pub use refusal::ProgramRefusal;
pub use shader::Shader;
pub use uniform_kinds::{is_float_kind, is_given_kind, uniform_needed};
pub use units::UnitUse;

#[cfg(test)]
mod tests;
