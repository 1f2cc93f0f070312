//! The commands on images of textures and on their parameters: each is one step of OpenGL ES, with its driver calls.
#![tactic(auto)]

mod arguments;
mod bases;
mod colours;
mod command;
mod copies;
mod images;
mod parts;
mod refusals;
mod rows;
mod storage;

pub use command::{execute_image, image_command};
