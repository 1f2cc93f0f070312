//! Text that is made line by line.
ghost use Rattle.std.specs.Prelude.{◌≡◌, ℕ, List, [], ◌++◌, length, OnOk, OnErr};
ghost use Rattle.report_text.specs.Ends.{end_text};

use crate::end::{End, write_end};
use gl_plain::Bytes;
use std::alloc::{AllocError, Global};
use std::marker::Model;

/// What is printed as a line with its number, or as nothing.
pub trait Line {
    /// What is printed of an item with a number.
    ghost printed: { ℕ → Self → List ℕ };

    /// Writes the line of an item with a number. Where there is no memory, a part of it may have been written.
    fn write_line(&self, number: u64, line: &mut Vec<u8>) -> Result<(), AllocError>
        ensures { OnOk result (line.new.items ≡ line.old.items ++ printed number self.now) };
}

/// Text that is made line by line, each of which is there whole or not at all. Contracts see its bytes. A line takes no memory but where
/// the text is longer than it ever was, or the line is.
#[derive(Drop)]
pub struct Text {
    bytes: Vec<u8>,
    /// Where a line is made.
    line: Vec<u8>,
}

impl Model for Text {
    ghost use Rattle.std.specs.Prelude.{ℕ, List};
    ghost use Rattle.std.specs.Coded.{coded_list, coded_ℕ};

    ghost Value = { List ℕ };

    ghost coded = { coded_list coded_ℕ };

    ghost view = { λ a. a.bytes.items };
}

impl Text {
    /// No text. It takes no memory.
    pub fn new(alloc: Global) -> Text
        ensures { result ≡ [] }
    {
        Text {
            bytes: Vec::new(alloc),
            line: Vec::new(alloc),
        }
    }

    /// How many bytes it has.
    pub fn len(&self) -> usize
        ensures { result ≡ length self.now }
    {
        self.bytes.len()
    }

    /// Its bytes.
    pub fn as_slice(&self) -> &[u8]
        ensures { result.now ≡ self.now }
    {
        self.bytes.as_slice()
    }

    /// Takes the text away. The memory stays for the next.
    pub fn clear(&mut self)
        ensures { self.new ≡ [] }
    {
        self.bytes.clear();
    }

    /// Its bytes as a list. It takes no memory.
    pub fn into_bytes(self) -> Bytes
        ensures { result ≡ self }
    {
        let Text { bytes, line: _ } = self;
        Bytes::from_vec(bytes)
    }

    /// Adds the line of an item with a number.
    pub fn push<T: Line>(&mut self, number: u64, item: &T) -> Result<(), AllocError>
        ensures ok { OnOk result (self.new ≡ self.old ++ T.printed number item.now) }
        ensures err { OnErr result (self.new ≡ self.old) }
    {
        self.line.clear();
        item.write_line(number, &mut self.line)?;
        self.bytes.extend_from_slice(&self.line)
    }

    /// Adds the line that says how a run ended.
    pub fn push_end(&mut self, end: &End) -> Result<(), AllocError>
        ensures ok { OnOk result (self.new ≡ self.old ++ end_text end.now) }
        ensures err { OnErr result (self.new ≡ self.old) }
    {
        self.line.clear();
        write_end(&mut self.line, end)?;
        self.bytes.extend_from_slice(&self.line)
    }
}
