//! The wire format of a command buffer: headers, the layouts of all commands, what range a command plans to read or to write, and
//! commands as bytes.
#![tactic(auto)]

mod commands;
mod headers;
mod layouts;
mod ranges;
mod tables;

pub use commands::Command;
pub use gl_plain::Fetched;
pub use headers::Header;
pub use layouts::{Layout, Plan};
pub use ranges::{laid_out_plan, plan};
pub use tables::layout;

#[cfg(test)]
mod tests;
