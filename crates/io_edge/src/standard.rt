//! A source and a sink over std's readers and writers.
ghost use Rattle.std.specs.Prelude.{◌≡◌, ◌⊎◌, ◌↔◌, ◌<◌, length, false, IsTrue, IfOk};
ghost use Rattle.std.specs.Io.{ReadsAtMost, WritesAtMost};
ghost use Rattle.std.specs.Io.KnownBytes.{ReadConsumes, WriteAppends};
ghost use Rattle.io_edge.specs.Causes.{HasCause, count_after};

use crate::edge::is_end;
use crate::{Failed, Sink, Source};
use std::io::{Read, Write};

#[cfg(test)]
mod tests;

/// A reader whose errors are counted. It tells the bytes that the reader tells: none of standard input.
#[derive(Drop)]
pub struct StdSource<R> {
    reader: R,
    faults: u64,
    ended: bool,
}

/// A writer whose errors are counted; a write that takes nothing of a piece is one too. It tells the
/// bytes that the writer tells.
#[derive(Drop)]
pub struct StdSink<W> {
    writer: W,
    faults: u64,
}

impl<R: Read> StdSource<R> {
    ghost use Rattle.io_edge.specs.Standard.{reader_of, read_errors, has_ended};

    /// A source that reads from `reader`.
    pub fn new(reader: R) -> StdSource<R>
        ensures reader { reader_of result ≡ reader }
        ensures faults { read_errors result ≡ 0 }
        ensures ended { has_ended result ≡ false }
    {
        StdSource {
            reader,
            faults: 0,
            ended: false,
        }
    }
}

impl<R: Read> Source for StdSource<R> {
    ghost use Rattle.io_edge.specs.Standard.{reader_of, read_errors, has_ended};

    ghost left = { λ s. R.remaining (reader_of s) };

    ghost faults = { λ s. read_errors s };

    ghost ended = { λ s. IsTrue (has_ended s) };

    /// Reads once from the reader.
    fn read(&mut self, out: &mut [u8]) -> Result<usize, Failed>
        ensures bound { ReadsAtMost result out.new }
        ensures bytes { ReadConsumes (R.remaining (reader_of self.old)) (R.remaining (reader_of self.new))
            result out.new }
        ensures cause { HasCause (read_errors self.old) (read_errors self.new) result }
        ensures end { IfOk result (λ n. n ≡ 0 → 0 < length out.new → IsTrue (has_ended self.new)) }

        ensures counted { read_errors self.new ≡ count_after result (read_errors self.old) }
        ensures ended { IsTrue (has_ended self.new) ↔
            (IsTrue (has_ended self.old) ⊎ ((result ≡ Ok 0) × (0 < length out.old))) }
    {
        let Ok(count) = self.reader.read(out) else {
            self.faults = self.faults.saturating_add(1);
            return Err(Failed);
        };
        self.ended |= is_end(count, out);
        Ok(count)
    }
}

impl<W: Write> StdSink<W> {
    ghost use Rattle.io_edge.specs.Standard.{writer_of, write_errors};

    /// A sink that writes to `writer`.
    pub fn new(writer: W) -> StdSink<W>
        ensures writer { writer_of result ≡ writer }
        ensures faults { write_errors result ≡ 0 }
    {
        StdSink { writer, faults: 0 }
    }
}

impl<W: Write> Sink for StdSink<W> {
    ghost use Rattle.io_edge.specs.Standard.{writer_of, write_errors};

    ghost held = { λ s. W.contents (writer_of s) };

    ghost faults = { λ s. write_errors s };

    /// Writes once to the writer.
    fn write(&mut self, bytes: &[u8]) -> Result<usize, Failed>
        ensures bound { WritesAtMost result bytes.now }
        ensures some { IfOk result (λ n. 0 < length bytes.now → 0 < n) }
        ensures bytes { WriteAppends (W.contents (writer_of self.old)) (W.contents (writer_of self.new))
            result bytes.now }
        ensures cause { HasCause (write_errors self.old) (write_errors self.new) result }

        ensures counted { write_errors self.new ≡ count_after result (write_errors self.old) }
    {
        match self.writer.write(bytes) {
            Ok(count) if count > 0 || bytes.is_empty() => Ok(count),
            _ => {
                self.faults = self.faults.saturating_add(1);
                Err(Failed)
            }
        }
    }
}
