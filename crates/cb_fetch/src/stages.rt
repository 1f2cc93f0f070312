//! How far the command at get was read, with what was found of it on the way: each header is parsed once, and so are the words.

use arrayvec::ArrayVec;
use cb_format::{Header, Layout};

/// A header that passed its tests, and how its command is laid out.
#[derive(Clone, Copy)]
pub struct Start {
    pub header: Header,
    pub layout: Layout,
}

/// A command whose words were copied and passed their test, the range of its data, and a front of the data.
#[derive(Drop)]
pub struct Body {
    pub header: Header,
    pub words: ArrayVec<u32, 16>,
    pub region: u32,
    pub offset: u32,
    pub count: u32,
    pub payload: Vec<u8>,
}

/// The copy of a command that comes next.
#[derive(Drop)]
pub enum Stage {
    /// That of its header.
    Header,
    /// That of its words, of which there are some.
    Words(Start),
    /// That of the next piece of its data, of which some is left.
    Data(Body),
}
