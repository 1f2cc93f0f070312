//! Runs rows: each has a script, and the status and the output that a run of it has to have.
//!
//! The words are files of rows. For each row the program prints `NAME ok`, or how its run differs, and it ends with status 0 where
//! all are well and 1 where one is not. A file that can't be read is status 2, and a line that can't be read is status 3: then the
//! program names it, and runs no row of that file behind it.
//!
//! A file of rows is lines of text. Empty lines and those that begin with `#` are passed over. Lines before the first row are lines
//! of every row of the file. In a TEXT `%` and two hexadecimal digits stand for a byte, as in `put 1%0D`. A number is decimal, or
//! hexadecimal behind `0x`, or decimal behind `-`: -1 is 0xFFFFFFFF.
//!
//! | Line | What it says |
//! |---|---|
//! | `row NAME` | a row begins |
//! | `words` | its command line has no words, where it would have the one word `ring` |
//! | `word TEXT` | the command line has one word more |
//! | `reads_fail N N ..` | these reads of the script fail, counted from 0 |
//! | `writes_fail N N ..` | these writes of the output fail, counted from 0 |
//! | `status N` | the status that is wanted. The lines before it make the script, and those behind it the output |
//! | `\| TEXT` | TEXT and a line feed |
//! | `repeat N TEXT` | N times TEXT, without line feeds |
//! | `each N LINE` | the line LINE of this table N times; in it `{K}` stands for K, then for K + 1, and so on |
//! | `command NUMBER WORD ..` | a script's line `bytes 0 ..` with a command, which stands in the ring behind the one before |
//! | `entries WORD ..` | the same of words that need be no command |
//! | `place ENTRY` | the next command or entries stand at this entry of the ring |
//! | `publish` | a script's line `put ..` behind the last command or entries |
//! | `front N` | only the first N bytes of the script so far |
//! | `sha1 HEX` | the SHA-1 of the output, in place of its lines |
#![tactic(auto)]

mod entries;
mod judging;
mod numbers;
mod reading;
mod refusal;
mod row;
mod text;

use reading::{Stop, run_rows};
use refusal::LineRefusal;
use std::process::ExitCode;
use std::{env, fs};

/// A row is not well.
const DIFFERENT: u8 = 1;
/// A file could not be read, or there was no memory.
const STOPPED: u8 = 2;
/// A line could not be read.
const UNREADABLE: u8 = 3;

fn status_of(stop: &Stop) -> u8 {
    match stop {
        Stop::Line {
            why: LineRefusal::Unreadable,
            ..
        } => UNREADABLE,
        _ => STOPPED,
    }
}

/// Runs the rows of a file, and returns the status for them.
fn run_file(rt: &HostRuntime, file: &str) -> u8 {
    let read = match fs::read_to_string(rt, file) {
        Ok(text) => run_rows(rt, text.as_str()),
        Err(error) => Err(Stop::Edge(error)),
    };
    match read {
        Ok(true) => 0,
        Ok(false) => DIFFERENT,
        Err(stop) => {
            let _ = println!(rt; "{file}: {stop}");
            status_of(&stop)
        }
    }
}

fn main(rt: HostRuntime) -> ExitCode {
    let Ok(words) = env::args(&rt) else {
        return ExitCode::from(STOPPED);
    };
    let mut status = 0u8;
    for file in words.skip(1) {
        status = status.max(run_file(&rt, file.as_str()));
    }
    ExitCode::from(status)
}
