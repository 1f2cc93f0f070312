//! Headers: the first word of each command.
ghost use Rattle.std.specs.Prelude.{◌≡◌, ◌<◌, ◌^◌};
ghost use Rattle.cb_format.specs.Headers.{header_of, header_word};

/// One more than the largest size.
const SIZES: u32 = 1 << 21;

/// A command's first word: its size in entries of 4 bytes, with the header, and its number.
#[derive(Clone, Copy, Debug, PartialEq, Eq)]
pub struct Header {
    pub size: u32,
    pub number: u32,
}

impl Header {
    /// Reads a header.
    pub fn read(word: u32) -> Header
        ensures value { result ≡ header_of word }
        ensures size { result.size < 2 ^ 21 }
        ensures number { result.number < 2 ^ 11 }
        ensures word { header_word result ≡ word }
    {
        Header {
            size: word % SIZES,
            number: word / SIZES,
        }
    }

    /// The word of a header, which reads back as the header.
    pub fn word(self) -> u32
        requires size { self.size < 2 ^ 21 }
        requires number { self.number < 2 ^ 11 }
        ensures value { result ≡ header_word self }
        ensures read { header_of result ≡ self }
    {
        self.number * SIZES + self.size
    }
}
