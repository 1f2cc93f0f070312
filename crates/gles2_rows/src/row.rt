//! A row: what is given to a run, and what is wanted of it.
ghost use Rattle.std.specs.Prelude.{◌≡◌, ◌++◌, codes, OnOk, true, false};
ghost use Rattle.gles2_rows.specs.Texts.{line_text, put_line};

use crate::entries::{add_entries, command_bytes, entry_bytes};
use crate::numbers::{filled, number, numbers};
use crate::refusal::LineRefusal;
use crate::text::{add_copies, add_line, add_text};
use hex::FromHex;
use std::alloc::{AllocError, Global};

/// What is given to a run.
#[derive(Drop)]
pub struct Given {
    /// The words of the command line.
    pub words: Vec<String>,
    /// The reads that fail, counted from 0.
    pub failing_reads: Vec<u64>,
    /// The writes that fail, counted from 0.
    pub failing_writes: Vec<u64>,
    /// The script.
    pub script: Vec<u8>,
    // The entry behind the last command of the script.
    place: u32,
}

/// What is wanted of a run.
#[derive(Drop)]
pub struct Wanted {
    /// The status.
    pub status: u8,
    /// The output, where it has no digest.
    pub output: Vec<u8>,
    /// The SHA-1 of the output.
    pub digest: Option<[u8; 20]>,
}

/// A row, as far as its lines were taken.
#[derive(Drop)]
pub struct Row {
    /// Its name.
    pub name: String,
    /// What is given to the run.
    pub given: Given,
    /// What is wanted, once the status is known.
    pub wanted: Option<Wanted>,
}

fn cut(text: &str) -> Result<(&str, &str), LineRefusal> {
    text.split_once(' ').ok_or(LineRefusal::Unreadable)
}

fn failing(alloc: Global, text: &str) -> Result<Vec<u64>, LineRefusal> {
    let mut calls = Vec::new(alloc);
    for call in numbers(alloc, text)? {
        calls.push(u64::from(call))?;
    }
    Ok(calls)
}

/// Takes a line that adds to a text, and returns whether it was one.
fn take_text(alloc: Global, out: &mut Vec<u8>, word: &str, rest: &str) -> Result<bool, LineRefusal>
    ensures line { word.now ≡ codes "|" → OnOk result ((result ≡ Ok true) × (out.new.items ≡ out.old.items ++ line_text rest.now)) }
    ensures none { result ≡ Ok false → out.new.items ≡ out.old.items }
{
    match word {
        "|" => add_line(out, rest)?,
        "repeat" => {
            let (times, text) = cut(rest)?;
            add_copies(alloc, out, number(times)?, text)?;
        }
        _ => return Ok(false),
    }
    Ok(true)
}

impl Given {
    fn new(alloc: Global) -> Result<Given, AllocError> {
        let mut words = Vec::new(alloc);
        words.push(String::from_str(alloc, "ring")?)?;
        Ok(Given {
            words,
            failing_reads: Vec::new(alloc),
            failing_writes: Vec::new(alloc),
            script: Vec::new(alloc),
            place: 0,
        })
    }

    // Adds the entries that some bytes are, behind the last ones.
    fn add(&mut self, alloc: Global, bytes: &[u8]) -> Result<(), LineRefusal> {
        add_entries(alloc, &mut self.script, self.place, bytes)?;
        let entries = u32::try_from(bytes.len() / 4).unwrap_or(u32::MAX);
        self.place = self.place.saturating_add(entries);
        Ok(())
    }

    // Takes a line on the ring.
    fn take_entries(&mut self, alloc: Global, word: &str, rest: &str) -> Result<(), LineRefusal>
        ensures publish { word.now ≡ codes "publish" → OnOk result (self.new.script.items ≡ self.old.script.items ++ put_line self.old.place) }
    {
        match word {
            "command" => {
                let words = numbers(alloc, rest)?;
                let (number, words) = words.split_first().ok_or(LineRefusal::Unreadable)?;
                let bytes = command_bytes(alloc, *number, words)?;
                self.add(alloc, &bytes)
            }
            "entries" => {
                let words = numbers(alloc, rest)?;
                let bytes = entry_bytes(alloc, &words)?;
                self.add(alloc, &bytes)
            }
            "place" => {
                self.place = number(rest)?;
                Ok(())
            }
            "publish" => {
                let put = self.place;
                let line = format!(in alloc; "put {put}\n")?;
                self.script.extend_from_slice(line.as_bytes())?;
                Ok(())
            }
            _ => Err(LineRefusal::Unreadable),
        }
    }

    // Takes a line on what is given.
    fn take(&mut self, alloc: Global, word: &str, rest: &str) -> Result<(), LineRefusal>
        ensures line { word.now ≡ codes "|" → OnOk result (self.new.script.items ≡ self.old.script.items ++ line_text rest.now) }
        ensures publish { word.now ≡ codes "publish" → OnOk result (self.new.script.items ≡ self.old.script.items ++ put_line self.old.place) }
    {
        match word {
            "words" => self.words.clear(),
            "word" => self.words.push(String::from_str(alloc, rest)?)?,
            "reads_fail" => self.failing_reads = failing(alloc, rest)?,
            "writes_fail" => self.failing_writes = failing(alloc, rest)?,
            "front" => self.script.truncate(number(rest)? as usize),
            "command" | "entries" | "place" | "publish" => self.take_entries(alloc, word, rest)?,
            _ => {
                if !take_text(alloc, &mut self.script, word, rest)? {
                    return Err(LineRefusal::Unreadable);
                }
            }
        }
        Ok(())
    }
}

impl Wanted {
    fn new(alloc: Global, status: &str) -> Result<Wanted, LineRefusal> {
        Ok(Wanted {
            status: status.parse().map_err(|_| LineRefusal::Unreadable)?,
            output: Vec::new(alloc),
            digest: None,
        })
    }

    // Takes a line on what is wanted.
    fn take(&mut self, alloc: Global, word: &str, rest: &str) -> Result<(), LineRefusal>
        ensures line { word.now ≡ codes "|" → OnOk result (self.new.output.items ≡ self.old.output.items ++ line_text rest.now) }
    {
        if take_text(alloc, &mut self.output, word, rest)? {
            return Ok(());
        }
        match word {
            "sha1" => {
                let digest = <[u8; 20] as FromHex>::from_hex(rest);
                self.digest = Some(digest.map_err(|_| LineRefusal::Unreadable)?);
                Ok(())
            }
            _ => Err(LineRefusal::Unreadable),
        }
    }
}

impl Row {
    /// A row of which no line was taken yet.
    pub fn new(alloc: Global, name: &str) -> Result<Row, AllocError> {
        Ok(Row {
            name: String::from_str(alloc, name)?,
            given: Given::new(alloc)?,
            wanted: None,
        })
    }

    fn take_one(&mut self, alloc: Global, line: &str) -> Result<(), LineRefusal> {
        let (word, rest) = line.split_once(' ').unwrap_or((line, ""));
        match &mut self.wanted {
            Some(wanted) => wanted.take(alloc, word, rest),
            None => {
                if word == "status" {
                    self.wanted = Some(Wanted::new(alloc, rest)?);
                    Ok(())
                } else {
                    self.given.take(alloc, word, rest)
                }
            }
        }
    }

    /// Takes a line of the row.
    pub fn take(&mut self, alloc: Global, line: &str) -> Result<(), LineRefusal> {
        let Some(rest) = line.strip_prefix("each ") else {
            return self.take_one(alloc, line);
        };
        let (times, line) = cut(rest)?;
        for above in 0..number(times)? {
            let line = filled(alloc, line, above)?;
            self.take_one(alloc, line.as_str())?;
        }
        Ok(())
    }
}
