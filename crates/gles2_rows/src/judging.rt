//! A row is run, and what the run gives is compared with what is wanted.
ghost use Rattle.std.specs.Prelude.{◌≡◌, ◌↔◌, IfOk, IsNone};
ghost use Rattle.gles2_rows.specs.Judging.{HasOutput, IsWanted};

use crate::row::{Given, Row, Wanted};
use gles2_run::{Desk, run};
use io_edge::{MemorySink, MemorySource};
use percent_encoding::{CONTROLS, percent_encode};
use sha1::Sha1;
use std::alloc::{AllocError, Global};

/// How many bytes of a line that differs are shown.
const SHOWN: usize = 200;

/// The index of the first byte in which two texts differ.
fn first_difference(one: &[u8], other: &[u8]) -> usize {
    let pairs = one.iter().zip(other);
    match pairs.enumerate().find(|(_, (a, b))| *a != *b) {
        Some((at, _)) => at,
        None => one.len().min(other.len()),
    }
}

/// The line of a text in which a byte stands, at most so much of it as is shown.
fn line_at(text: &[u8], at: usize) -> &[u8] {
    let (front, _) = text.split_at(at.min(text.len()));
    let from = match front.iter().rposition(|byte| *byte == b'\n') {
        Some(feed) => feed + 1,
        None => 0,
    };
    let (_, rest) = text.split_at(from);
    let line = match rest.iter().position(|byte| *byte == b'\n') {
        Some(end) => &rest[..end],
        None => rest,
    };
    &line[..line.len().min(SHOWN)]
}

/// How two texts differ, in words.
fn text_difference(alloc: Global, got: &[u8], wanted: &[u8]) -> Result<String, AllocError> {
    let at = first_difference(got, wanted);
    let (front, _) = got.split_at(at.min(got.len()));
    let mut number = 1u64;
    for byte in front {
        if *byte == b'\n' {
            number = number.saturating_add(1);
        }
    }
    let mut text = format!(in alloc; "line {number} is `")?;
    percent_encode(line_at(got, at), CONTROLS).append_to(&mut text)?;
    text.push_str("` and not `")?;
    percent_encode(line_at(wanted, at), CONTROLS).append_to(&mut text)?;
    text.push_str("`")?;
    Ok(text)
}

/// How the output differs from what is wanted, if it does.
fn output_difference(
    alloc: Global,
    wanted: &Wanted,
    bytes: &[u8],
) -> Result<Option<String>, AllocError>
    ensures { IfOk result (λ found. IsNone found ↔ HasOutput wanted.now bytes.now) }
{
    match wanted.digest {
        Some(digest) => {
            if Sha1::digest(bytes) == digest {
                return Ok(None);
            }
            let count = bytes.len();
            Ok(Some(format!(in alloc; "the SHA-1 of the {count} bytes of the output is another")?))
        }
        None => {
            if bytes == wanted.output.as_slice() {
                return Ok(None);
            }
            Ok(Some(text_difference(alloc, bytes, &wanted.output)?))
        }
    }
}

/// How a run differs from what is wanted, if it does.
fn difference(
    alloc: Global,
    wanted: &Wanted,
    status: u8,
    bytes: &[u8],
) -> Result<Option<String>, AllocError>
    ensures { IfOk result (λ found. IsNone found ↔ IsWanted wanted.now status bytes.now) }
{
    let other = wanted.status;
    if status != other {
        return Ok(Some(format!(in alloc; "status {status} and not {other}")?));
    }
    output_difference(alloc, wanted, bytes)
}

/// Runs what is given, and returns how the run differs from what is wanted, if it does.
pub fn judge(alloc: Global, given: Given, wanted: &Wanted) -> Result<Option<String>, AllocError> {
    let mut source = MemorySource::new(given.script, given.failing_reads);
    let mut sink = MemorySink::new(alloc, given.failing_writes);
    let (status, _desk) = run(
        alloc,
        &given.words,
        &mut source,
        &mut sink,
        Desk::new(alloc),
    );
    difference(alloc, wanted, status, sink.bytes())
}
