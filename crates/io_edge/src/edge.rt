//! The traits by which the program reads and writes.
ghost use Rattle.std.specs.Prelude.{◌≡◌, ◌<◌, ◌↔◌, ℕ, List, length, Option, IsTrue, IfOk};
ghost use Rattle.std.specs.Io.{ReadsAtMost, WritesAtMost};
ghost use Rattle.std.specs.Io.KnownBytes.{ReadConsumes, WriteAppends};
ghost use Rattle.io_edge.specs.Causes.{HasCause};

use thiserror::Error;

/// A call failed, and the bytes are as before.
#[derive(Clone, Copy, Debug, PartialEq, Eq, Error)]
#[error("a read or a write failed")]
pub struct Failed;

/// Where bytes come from.
pub trait Source {
    /// The bytes that are left, where the source tells them.
    ghost left: { Self → Option (List ℕ) };

    /// How often a read failed.
    ghost faults: { Self → ℕ };

    /// A read has given nothing into a slice with room.
    ghost ended: { Self → Type 0 };

    /// Takes bytes from the front of those that are left into the front of the slice, and returns
    /// how many: at least one where both have one. So nothing into a slice with room is the end.
    fn read(&mut self, out: &mut [u8]) -> Result<usize, Failed>
        ensures bound { ReadsAtMost result out.new }
        ensures bytes { ReadConsumes (left self.old) (left self.new) result out.new }
        ensures cause { HasCause (faults self.old) (faults self.new) result }
        ensures end { IfOk result (λ n. n ≡ 0 → 0 < length out.new → ended self.new) };
}

/// Where bytes go to.
pub trait Sink {
    /// The bytes that the sink holds, where it tells them.
    ghost held: { Self → Option (List ℕ) };

    /// How often a write failed.
    ghost faults: { Self → ℕ };

    /// Takes bytes from the front of the piece, and returns how many: at least one where there is one.
    fn write(&mut self, bytes: &[u8]) -> Result<usize, Failed>
        ensures bound { WritesAtMost result bytes.now }
        ensures some { IfOk result (λ n. 0 < length bytes.now → 0 < n) }
        ensures bytes { WriteAppends (held self.old) (held self.new) result bytes.now }
        ensures cause { HasCause (faults self.old) (faults self.new) result };
}

// Whether a read that gave `count` bytes met the end.
pub(crate) fn is_end(count: usize, out: &[u8]) -> bool
    ensures { IsTrue result ↔ ((count ≡ 0) × (0 < length out.now)) }
{
    count == 0 && !out.is_empty()
}
