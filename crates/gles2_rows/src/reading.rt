//! The rows of a file, one after another.

use crate::judging::judge;
use crate::refusal::LineRefusal;
use crate::row::Row;
use std::alloc::{AllocError, Global};
use std::io;
use thiserror::Error;

/// Why the rows of a file were not all run.
#[derive(Debug, Drop, Error)]
pub enum Stop {
    /// A line was not taken. That a row has no status is met at the line behind it.
    #[error("line {line}: {why}")]
    Line { line: u64, why: LineRefusal },
    /// There was no memory for a row.
    #[error(transparent)]
    NoMemory(#[from(alloc)] AllocError),
    /// A file could not be read, or a line not be printed.
    #[error(transparent)]
    Edge(#[from] io::Error),
}

/// A line and its number in its file, from 1.
#[derive(Clone, Copy)]
struct Numbered<'a> {
    number: u64,
    text: &'a str,
}

fn take(alloc: Global, row: &mut Row, line: Numbered<'_>) -> Result<(), Stop> {
    let line_number = line.number;
    row.take(alloc, line.text).map_err(|why| Stop::Line {
        line: line_number,
        why,
    })
}

/// A row that begins with the lines of its file before the first row.
fn begun(alloc: Global, name: &str, head: &[Numbered<'_>]) -> Result<Row, Stop> {
    let mut row = Row::new(alloc, name)?;
    for line in head {
        take(alloc, &mut row, *line)?;
    }
    Ok(row)
}

/// Runs a row and prints how it went. Returns whether all is well.
fn run_row<R: Print + AllocGlobal>(rt: &R, row: Row, line: u64) -> Result<bool, Stop> {
    let Row {
        name,
        given,
        wanted,
    } = row;
    let Some(wanted) = wanted else {
        return Err(Stop::Line {
            line,
            why: LineRefusal::Unreadable,
        });
    };
    match judge(rt.alloc(), given, &wanted)? {
        None => {
            println!(rt; "{name} ok")?;
            Ok(true)
        }
        Some(difference) => {
            println!(rt; "{name}: {difference}")?;
            Ok(false)
        }
    }
}

/// Runs the rows of a file and prints how each went. Returns whether all are well.
pub fn run_rows<R: Print + AllocGlobal>(rt: &R, text: &str) -> Result<bool, Stop> {
    let alloc = rt.alloc();
    let mut all = true;
    let mut number = 0u64;
    let mut head = Vec::new(alloc);
    let mut row: Option<Row> = None;
    for text in text.lines() {
        number = number.saturating_add(1);
        let line = Numbered { number, text };
        match text.strip_prefix("row ") {
            Some(name) => {
                if let Some(done) = row.replace(begun(alloc, name, &head)?) {
                    all &= run_row(rt, done, number)?;
                }
            }
            None if text.is_empty() || text.starts_with('#') => {}
            None => match &mut row {
                Some(row) => take(alloc, row, line)?,
                None => head.push(line)?,
            },
        }
    }
    match row {
        Some(done) => Ok(run_row(rt, done, number)? && all),
        None => Ok(all),
    }
}
