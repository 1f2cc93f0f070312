//! A source and a sink in memory, for tests: the calls that are named fail.
ghost use Rattle.std.specs.Prelude.{◌≡◌, ◌⊎◌, ◌↔◌, ◌<◌, ◌≤◌, ℕ, [], length, drop, min, false, Some, IsTrue, IsErr, IfOk, OnErr};
ghost use Rattle.std.specs.Io.{ReadsAtMost, WritesAtMost};
ghost use Rattle.std.specs.Io.KnownBytes.{ReadConsumes, WriteAppends};
ghost use Rattle.io_edge.specs.Causes.{HasCause};

use crate::calls::Calls;
use crate::edge::is_end;
use crate::{Failed, Sink, Source};
use std::alloc::Global;

/// Bytes in memory, which are read in order. It tells those that are left.
#[derive(Drop)]
pub struct MemorySource {
    bytes: Vec<u8>,
    at: usize,
    ended: bool,
    calls: Calls,
    ghost inside: { at ≤ length bytes.items },
}

/// Keeps in memory what is written to it. It tells what it holds.
#[derive(Drop)]
pub struct MemorySink {
    bytes: Vec<u8>,
    calls: Calls,
}

impl MemorySource {
    ghost use Rattle.io_edge.specs.Calls.{no_calls};
    ghost use Rattle.io_edge.specs.Memory.{bytes_left, has_ended, reads_of};

    /// A source of these bytes. The reads that `failing` names, counted from 0, fail.
    pub fn new(bytes: Vec<u8>, failing: Vec<u64>) -> MemorySource
        ensures left { bytes_left result ≡ bytes.items }
        ensures ended { has_ended result ≡ false }
        ensures calls { reads_of result ≡ no_calls failing }
    {
        MemorySource {
            bytes,
            at: 0,
            ended: false,
            calls: Calls::new(failing),
        }
    }
}

impl Source for MemorySource {
    ghost use Rattle.io_edge.specs.Calls.{FailsNext, CountsCall};
    ghost use Rattle.io_edge.specs.Memory.{bytes_left, has_ended, reads_of};

    ghost left = { λ s. Some (bytes_left s) };

    ghost faults = { λ s. (reads_of s).faults };

    ghost ended = { λ s. IsTrue (has_ended s) };

    /// Takes all that fits, but for the reads that are named to fail.
    #[tactic(auto, using(crate::proofs::Counting::counted_cause))]
    fn read(&mut self, out: &mut [u8]) -> Result<usize, Failed>
        ensures bound { ReadsAtMost result out.new }
        ensures bytes { ReadConsumes (Some (bytes_left self.old)) (Some (bytes_left self.new))
            result out.new }
        ensures cause { HasCause (reads_of self.old).faults (reads_of self.new).faults result }
        ensures end { IfOk result (λ n. n ≡ 0 → 0 < length out.new → IsTrue (has_ended self.new)) }

        ensures fails { IsErr result ↔ FailsNext (reads_of self.old) }
        ensures takes { IfOk result (λ n. n ≡ min (length out.old) (length (bytes_left self.old))) }
        ensures calls { CountsCall (reads_of self.old) (reads_of self.new) result }
        ensures ended { IsTrue (has_ended self.new) ↔
            (IsTrue (has_ended self.old) ⊎ ((result ≡ Ok 0) × (0 < length out.old))) }
    {
        self.calls.begin()?;
        let (_, left) = self.bytes.split_at(self.at);
        let count = out.len().min(left.len());
        out[..count].copy_from_slice(&left[..count]);
        self.at += count;
        self.ended |= is_end(count, out);
        Ok(count)
    }
}

impl MemorySink {
    ghost use Rattle.io_edge.specs.Calls.{no_calls};
    ghost use Rattle.io_edge.specs.Memory.{bytes_held, writes_of};

    /// An empty sink. The writes that `failing` names, counted from 0, fail.
    pub fn new(alloc: Global, failing: Vec<u64>) -> MemorySink
        ensures held { bytes_held result ≡ [] }
        ensures calls { writes_of result ≡ no_calls failing }
    {
        MemorySink {
            bytes: Vec::new(alloc),
            calls: Calls::new(failing),
        }
    }

    /// The bytes that it holds.
    pub fn bytes(&self) -> &[u8]
        ensures { result.now ≡ bytes_held self.now }
    {
        &self.bytes
    }
}

impl Sink for MemorySink {
    ghost use Rattle.io_edge.specs.Calls.{FailsNext, CountsCall};
    ghost use Rattle.io_edge.specs.Memory.{bytes_held, room_of, writes_of};

    ghost held = { λ s. Some (bytes_held s) };

    ghost faults = { λ s. (writes_of s).faults };

    /// Takes the whole piece, but for the writes that are named to fail, and for want of memory.
    #[tactic(auto, using(crate::proofs::Counting::counted_cause))]
    fn write(&mut self, bytes: &[u8]) -> Result<usize, Failed>
        ensures bound { WritesAtMost result bytes.now }
        ensures some { IfOk result (λ n. 0 < length bytes.now → 0 < n) }
        ensures bytes { WriteAppends (Some (bytes_held self.old)) (Some (bytes_held self.new))
            result bytes.now }
        ensures cause { HasCause (writes_of self.old).faults (writes_of self.new).faults result }

        ensures fails { FailsNext (writes_of self.old) → IsErr result }
        ensures reason { OnErr result
            (FailsNext (writes_of self.old) ⊎ (room_of self.old < length bytes.now)) }
        ensures takes { IfOk result (λ n. n ≡ length bytes.now) }
        ensures calls { CountsCall (writes_of self.old) (writes_of self.new) result }
    {
        self.calls.begin()?;
        if self.bytes.extend_from_slice(bytes).is_err() {
            return Err(self.calls.fail());
        }
        Ok(bytes.len())
    }
}
