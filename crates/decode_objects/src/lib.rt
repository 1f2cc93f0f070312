//! The commands on objects: each is one step of OpenGL ES, with its driver calls.
#![tactic(auto)]

mod arguments;
mod attachments;
mod attributes;
mod buffers;
mod command;
mod framebuffers;
mod links;
mod programs;
mod refusals;
mod renderbuffers;
mod textures;
mod uniforms;

pub use command::{execute_object, object_command};
