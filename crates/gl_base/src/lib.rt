//! Enums, limits, floats, names, rectangles, and maps from numbers, of which all other crates speak.
#![tactic(auto)]

pub mod enums;
mod error_names;
mod float_bits;
mod gl_enum;
pub mod limits;
mod names;
mod number_map;
pub mod query_enums;
pub mod raster_enums;
mod rect;
pub mod target_enums;
pub mod texture_enums;

pub use error_names::error_name;
pub use float_bits::FloatBits;
pub use gl_enum::GlEnum;
pub use names::{is_ordinary, is_reserved};
pub use number_map::NumberMap;
pub use rect::Rect;
