//! Commands as bytes.
ghost use Rattle.std.specs.Prelude.{◌≡◌, ◌<◌, ◌^◌, ◌+◌, ◌*◌, length};
ghost use Rattle.gl_plain.specs.Bytes.{bytes_of_words};
ghost use Rattle.cb_format.specs.Spelled.{entries_of};

use crate::headers::Header;
use arrayvec::ArrayVec;
use byteorder::{ByteOrder, LittleEndian};

/// A command to be sent: its number and its argument words.
#[derive(Debug, Drop)]
pub struct Command {
    pub number: u32,
    pub words: ArrayVec<u32, 16>,
}

impl Command {
    /// Writes the command's header and its words, each as four bytes, the lowest first.
    pub fn write(&self, out: &mut [u8])
        requires number { self.now.number < 2 ^ 11 }
        requires size { length out.old ≡ 4 * (1 + length self.now.words.items) }
        ensures { out.new ≡ bytes_of_words (entries_of self.now) }
    {
        let words = self.words.as_slice();
        let header = Header {
            size: 1 + words.len() as u32,
            number: self.number,
        };
        LittleEndian::write_u32(out, header.word());
        LittleEndian::write_u32_into(words, &mut out[4..]);
    }
}
