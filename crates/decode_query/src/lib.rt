//! The commands that ask for state or for pixels: each is one step of OpenGL ES, with its driver calls.
#![tactic(auto)]

mod answers;
mod asked;
mod attributes;
mod bytes;
mod colours;
mod command;
mod constants;
mod parameters;
mod programs;
mod reading;
mod refusals;
mod rows;
mod uniforms;
mod values;

pub use command::{execute_query, query_command};
