//! How commands are laid out, and which range of shared memory the words of one name.

/// How a command is laid out behind its header.
#[derive(Clone, Copy, Debug, PartialEq, Eq)]
pub struct Layout {
    /// How many argument words it has.
    pub words: u32,
    /// Whether it may have any size, and its words are not read: a Noop alone.
    pub any_size: bool,
    /// The index of the first of the four words that say where its data is, if it has data.
    pub payload_at: Option<u32>,
    /// The index of the first of the two words that say where its reply goes, if it has a reply in shared memory.
    pub result_at: Option<u32>,
    /// The most words that such a reply has.
    pub result_words: u32,
}

/// The range of shared memory that a command's words name: `count` bytes of a region from byte `offset` on.
#[derive(Clone, Copy, Debug, PartialEq, Eq)]
pub enum Plan {
    /// The words name no range.
    Nothing,
    /// The command's data, which is read.
    Read {
        region: u32,
        offset: u32,
        count: u32,
    },
    /// The place of the command's reply, which is written.
    Write {
        region: u32,
        offset: u32,
        count: u32,
    },
}
