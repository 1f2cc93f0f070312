//! Images whose pixels a command reads or draws over: what was never written of them is turned to zero before (OpenGL ES 2.0.25, sections 3.7.1
//! and 4.4.3, leaves it undefined, and no command may show what lay in memory). And what completeness sees of the images that a framebuffer has
//! (section 4.4.5).
#![tactic(auto)]

mod levels;
mod targets;
mod views;

pub use levels::{zero_faces, zero_level};
pub use targets::{zero_colour, zero_target};
pub use views::{attach_view, is_incomplete, target_status};
