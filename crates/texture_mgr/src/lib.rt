//! The textures of the service: their names, their objects with what was written of their images, and what the texture units bind.
#![tactic(auto)]

mod attaching;
mod chain;
mod enums;
mod images;
mod mipmaps;
mod objects;
mod sampling;
mod texture;
mod textures;

pub use enums::is_parameter;
pub use texture::Texture;
pub use textures::Textures;

#[cfg(test)]
mod tests;
