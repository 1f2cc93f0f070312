//! Rectangles of pixels.

/// A rectangle of pixels: its first column and row, and how many of each it has. It is empty where it has none of one.
#[derive(Clone, Copy, Debug, Default, PartialEq, Eq)]
pub struct Rect {
    pub x: u32,
    pub y: u32,
    pub width: u32,
    pub height: u32,
}
