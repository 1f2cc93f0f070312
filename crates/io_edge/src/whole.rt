//! Reading a whole input, and writing a whole text.
ghost use Rattle.std.specs.Prelude.{◌≡◌, ◌≢◌, ◌<◌, ◌≤◌, List, ℕ, length, IfOk, OnOk, OnErr, IsErrOf};
ghost use Rattle.std.specs.Io.KnownBytes.{Consumes, Appends, IsAtEnd};
ghost use Rattle.io_edge.specs.Causes.{Rose};
ghost use Rattle.io_edge.specs.Pieces.{ConsumesFront, AppendsFront};

use crate::{Failed, Sink, Source};
use std::alloc::{AllocError, Global};
use thiserror::Error;

/// The most bytes that an input may have.
pub const INPUT_LIMIT: usize = 67_108_864;

// The most bytes that one read takes.
const BLOCK: usize = 65_536;

/// Why an input was not read to its end.
#[derive(Clone, Copy, Debug, PartialEq, Eq, Error)]
pub enum ReadStop {
    /// A read failed.
    #[error("a read failed")]
    Fault,
    /// The input has more than `INPUT_LIMIT` bytes.
    #[error("the input has more than {INPUT_LIMIT} bytes")]
    TooLong,
    /// There was no memory for the input.
    #[error("there was no memory for the input")]
    NoMemory,
}

/// Reads until a read gives nothing or fails, or more than `INPUT_LIMIT` bytes were read. Where it
/// stops before the end, a front of the bytes that were left was read.
pub fn read_all<I: Source>(alloc: Global, source: &mut I) -> Result<Vec<u8>, ReadStop>
    ensures whole { IfOk result (λ v. Consumes (I.left source.old) (I.left source.new) v.items) }
    ensures ended { OnOk result (IsAtEnd (I.left source.new)) }
    ensures seen { OnOk result (I.ended source.new) }
    ensures short { IfOk result (λ v. length v.items ≤ INPUT_LIMIT) }

    ensures long { IsErrOf result ReadStop.TooLong →
        (bs : List ℕ) × Consumes (I.left source.old) (I.left source.new) bs × (INPUT_LIMIT < length bs) }
    ensures fault { IsErrOf result ReadStop.Fault → Rose (I.faults source.old) (I.faults source.new) }
    ensures part { OnErr result (ConsumesFront (I.left source.old) (I.left source.new)) }
    ensures kept { result ≢ Err ReadStop.Fault → I.faults source.new ≡ I.faults source.old }
    ensures later { I.faults source.old ≤ I.faults source.new }
{
    let Ok(mut block) = block_of(alloc, BLOCK) else {
        return Err(ReadStop::NoMemory);
    };
    read_blocks(alloc, source, &mut block)
}

// A block to read into. The size is an argument, since a proof would compute a literal's zeros.
pub(crate) fn block_of(alloc: Global, size: usize) -> Result<Vec<u8>, AllocError>
    ensures { IfOk result (λ v. length v.items ≡ size) }
{
    vec![in alloc; 0u8; size]
}

// Reads block by block.
fn read_blocks<I: Source>(
    alloc: Global,
    source: &mut I,
    block: &mut [u8],
) -> Result<Vec<u8>, ReadStop>
    requires { 0 < length block.old }
    ensures whole { IfOk result (λ v. Consumes (I.left source.old) (I.left source.new) v.items) }
    ensures ended { OnOk result (IsAtEnd (I.left source.new)) }
    ensures seen { OnOk result (I.ended source.new) }
    ensures short { IfOk result (λ v. length v.items ≤ INPUT_LIMIT) }

    ensures long { IsErrOf result ReadStop.TooLong →
        (bs : List ℕ) × Consumes (I.left source.old) (I.left source.new) bs × (INPUT_LIMIT < length bs) }
    ensures fault { IsErrOf result ReadStop.Fault → Rose (I.faults source.old) (I.faults source.new) }
    ensures part { OnErr result (ConsumesFront (I.left source.old) (I.left source.new)) }
    ensures kept { result ≢ Err ReadStop.Fault → I.faults source.new ≡ I.faults source.old }
    ensures later { I.faults source.old ≤ I.faults source.new }
{
    let mut all = Vec::new(alloc);
    'reading: loop {
        let Ok(count) = source.read(block) else {
            return Err(ReadStop::Fault);
        };
        if count == 0 {
            return Ok(all);
        }
        if count > INPUT_LIMIT - all.len() {
            return Err(ReadStop::TooLong);
        }
        let Ok(()) = all.extend_from_slice(&block[..count]) else {
            return Err(ReadStop::NoMemory);
        };
    }
}

/// Writes all the bytes, in as many writes as the sink wants, up to its first fault. At `Failed` a
/// front of them was written.
pub fn write_all<O: Sink>(sink: &mut O, bytes: &[u8]) -> Result<(), Failed>
    ensures whole { OnOk result (Appends (O.held sink.old) (O.held sink.new) bytes.now) }
    ensures part { OnErr result (AppendsFront (O.held sink.old) (O.held sink.new) bytes.now) }
    ensures fault { OnErr result (Rose (O.faults sink.old) (O.faults sink.new)) }
    ensures kept { OnOk result (O.faults sink.new ≡ O.faults sink.old) }
    ensures later { O.faults sink.old ≤ O.faults sink.new }
{
    let mut rest = bytes;
    'writing: while !rest.is_empty() {
        let count = sink.write(rest)?;
        rest = &rest[count..];
    }
    Ok(())
}
