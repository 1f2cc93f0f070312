//! The adapters over a reader and a writer that fail where they are told to: what each call answers, how many faults are
//! counted, and that each call made one of the reader or the writer.
use super::{StdSink, StdSource};
use crate::whole::block_of;
use crate::{Failed, Sink, Source, read_all, write_all};
use std::alloc::Global;
use std::io::{self, ErrorKind, Read, Write};
use std::process::Abort;
use std::test::Fail;

/// What a reader or a writer does in one call.
#[derive(Clone, Copy)]
enum Turn {
    /// It gives or takes so many bytes, where there are as many.
    Moves(usize),
    Fails(ErrorKind),
}

/// A turn, what the adapter answers then where there are 3 bytes or room for 3, and how many faults it has counted.
type Row = (Turn, Result<usize, Failed>, u64);

const ROWS: [Row; 9] = [
    (Turn::Moves(2), Ok(2), 0),
    (Turn::Fails(ErrorKind::Interrupted), Err(Failed), 1),
    (Turn::Moves(3), Ok(3), 1),
    (Turn::Fails(ErrorKind::WouldBlock), Err(Failed), 2),
    (Turn::Fails(ErrorKind::Other), Err(Failed), 3),
    (Turn::Moves(1), Ok(1), 3),
    (Turn::Fails(ErrorKind::UnexpectedEof), Err(Failed), 4),
    (Turn::Fails(ErrorKind::BrokenPipe), Err(Failed), 5),
    (Turn::Moves(3), Ok(3), 5),
];

/// Takes its turns in order, and counts them. Behind the last it moves nothing.
#[derive(Drop)]
struct Scripted {
    rows: &'static [Row],
    calls: usize,
    left: &'static [u8],
    written: Vec<u8>,
}

impl Scripted {
    fn new(alloc: Global, rows: &'static [Row], left: &'static [u8]) -> Scripted {
        Scripted {
            rows,
            calls: 0,
            left,
            written: Vec::new(alloc),
        }
    }

    fn turn(&mut self) -> Turn {
        let row = self.rows.get(self.calls).copied();
        self.calls = self.calls.saturating_add(1);
        match row {
            Some((turn, _, _)) => turn,
            None => Turn::Moves(0),
        }
    }
}

impl Read for Scripted {
    fn read(&mut self, out: &mut [u8]) -> io::Result<usize> {
        match self.turn() {
            Turn::Moves(most) => {
                let count = most.min(out.len()).min(self.left.len());
                let (given, left) = self.left.split_at(count);
                out[..count].copy_from_slice(given);
                self.left = left;
                Ok(count)
            }
            Turn::Fails(kind) => Err(kind.into()),
        }
    }
}

impl Write for Scripted {
    fn write(&mut self, bytes: &[u8]) -> io::Result<usize> {
        match self.turn() {
            Turn::Moves(most) => {
                let count = most.min(bytes.len());
                self.written.extend_from_slice(&bytes[..count])?;
                Ok(count)
            }
            Turn::Fails(kind) => Err(kind.into()),
        }
    }

    fn flush(&mut self) -> io::Result<()> {
        Ok(())
    }
}

/// Asserts that a call did what its row says.
fn check_row(rt: &impl Abort, row: &Row, answer: Result<usize, Failed>, faults: u64, calls: usize) {
    assert_eq!(rt; answer, row.1, "call {calls}");
    assert_eq!(rt; faults, row.2, "call {calls}");
}

#[test]
fn each_error_of_a_reader_is_one_fault(rt: HostRuntime) -> Result<(), Fail> {
    let mut source = StdSource::new(Scripted::new(rt.alloc(), &ROWS, b"abcdefghi"));
    let mut read = Vec::<u8>::new(rt.alloc());
    let mut out = [0u8; 3];
    for row in &ROWS {
        let answer = source.read(&mut out);
        check_row(&rt, row, answer, source.faults, source.reader.calls);
        read.extend_from_slice(&out[..answer.unwrap_or(0)])?;
    }
    assert_eq!(rt; source.reader.calls, ROWS.len());
    assert_eq!(rt; read.as_slice(), b"abcdefghi".as_slice());
    Ok(())
}

#[test]
fn each_error_of_a_writer_is_one_fault(rt: HostRuntime) -> Result<(), Fail> {
    let mut sink = StdSink::new(Scripted::new(rt.alloc(), &ROWS, b""));
    let mut rest = b"abcdefghijk".as_slice();
    for row in &ROWS {
        let answer = sink.write(rest);
        check_row(&rt, row, answer, sink.faults, sink.writer.calls);
        rest = &rest[answer.unwrap_or(0)..];
    }
    assert_eq!(rt; sink.writer.written.as_slice(), b"abcdefghi".as_slice());

    // Behind its rows the writer takes nothing. That is a fault where there is something to take.
    let last = [(Turn::Moves(0), Ok(0), 5), (Turn::Moves(0), Err(Failed), 6)];
    for (row, piece) in last.iter().zip([b"".as_slice(), b"x"]) {
        let answer = sink.write(piece);
        check_row(&rt, row, answer, sink.faults, sink.writer.calls);
    }
    assert_eq!(rt; sink.writer.calls, ROWS.len() + 2);
    Ok(())
}

/// What a reader gives and a writer takes without an error is read and written whole, and no fault is counted.
#[test]
fn no_fault_comes_by_itself(rt: HostRuntime) -> Result<(), Fail> {
    let mut sink = StdSink::new(Vec::<u8>::new(rt.alloc()));
    let block = block_of(rt.alloc(), 400)?;
    for size in 0..400 {
        write_all(&mut sink, &block[..size])?;
    }
    assert_eq!(rt; sink.faults, 0);
    let mut source = StdSource::new(sink.writer.as_slice());
    let input = read_all(rt.alloc(), &mut source)?;
    assert_eq!(rt; source.faults, 0);
    assert_eq!(rt; input.len(), 79_800);
    Ok(())
}
