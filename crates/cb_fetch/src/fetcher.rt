//! The fetcher: a machine that copies one command after another, one copy a step.
ghost use Rattle.std.specs.Prelude.{◌≡◌, ◌≤◌, ◌<◌, ◌+◌, ◌*◌, length, ℕ, None, Some};
ghost use Rattle.cb_format.specs.Ring.{next_get};
ghost use Rattle.cb_fetch.specs.declared.outcome.FetchOutcome.TheVariants as outcome;
ghost use Rattle.cb_fetch.specs.Begun.{Nothing};
ghost use Rattle.cb_fetch.specs.FetchViews.{new_fetcher};
ghost use Rattle.cb_fetch.specs.Fetching.{IsFetch, IsLess};
ghost use Rattle.cb_fetch.specs.Readable.{BringsReadable};
ghost use Rattle.cb_fetch.specs.Seen.{Reads, AreGiven};
ghost use Rattle.cb_fetch.specs.Reading.{IsBegun, IsSeen};
ghost use Rattle.cb_fetch.specs.Stops.{outcome_of};
ghost use Rattle.cb_fetch.specs.Steps.{IsAtHeader, IsAtWords, IsAtData, IsStep};

use crate::copying::{copy_header, copy_piece, copy_words};
use crate::faults::{range_fault, start};
use crate::outcome::{FetchOutcome, FetchStop};
use crate::stages::{Body, Stage, Start};
use arrayvec::ArrayVec;
use cb_format::{Header, Plan, laid_out_plan};
use cb_shm::Shm;
use gl_plain::{Bytes, Fetched, Malformed, Stop};
use std::alloc::Global;
use std::marker::Model;
use std::mem::replace;

/// Reads the commands of a ring, region 0 of shared memory, from entry 0 on. The words and the data of each command are copied once,
/// and the command is tested as it was copied.
#[derive(Drop)]
pub struct Fetcher {
    alloc: Global,
    entries: u32,
    put: u32,
    get: u32,
    stage: Stage,
    stop: Option<FetchStop>,
}

impl Model for Fetcher {
    ghost use Rattle.cb_fetch.specs.FetchViews.{FetchView};
    ghost use Rattle.cb_fetch.specs.Inside.{view_of, IsFetcher};

    ghost Value = { FetchView };

    ghost view = { view_of };

    ghost invariant = { IsFetcher };
}

impl Fetcher {
    /// A fetcher of a ring of so many entries of 4 bytes, with get and put at entry 0. It takes no memory.
    pub fn new(alloc: Global, entries: u32) -> Fetcher
        requires some { 2 ≤ entries }
        requires few { entries ≤ 1048576 }
        ensures { result ≡ new_fetcher entries }
    {
        Fetcher {
            alloc,
            entries,
            put: 0,
            get: 0,
            stage: Stage::Header,
            stop: None,
        }
    }

    /// The client publishes put: the commands before this entry are there to be read. Any number may be published.
    pub fn set_put(&mut self, put: u32)
        ensures { self.new ≡ record self.old { put = put } }
    {
        self.put = put;
    }

    /// The entry at which the next command stands, or the one that is begun.
    pub fn get(&self) -> u32
        ensures { result ≡ self.now.get }
    {
        self.get
    }

    /// Makes the next planned copy, if there is anything to read. After `Bad` or `NoMemory` it answers that again and copies nothing.
    pub fn step<S: Shm>(&mut self, shm: &mut S) -> FetchOutcome
        // Which outcome comes when, the one copy that was made, and what it leaves.
        ensures fetch { IsFetch self.old (S.memory shm.old) self.new (S.memory shm.new) result }

        // A command that was read is whole.
        ensures readable { BringsReadable result }

        // Where each copy gave what memory holds at its number, the command is the one that stands there, or its fault is.
        ensures seen { (reads : Reads) (n : ℕ) → AreGiven reads 0 (S.memory shm.new).copies
            → IsBegun reads (S.memory shm.old).sizes self.old.entries self.old.put self.old.get n (length (S.memory shm.old).copies) self.old.begun
            → IsSeen reads (S.memory shm.old).sizes self.old self.new n (length (S.memory shm.new).copies) result }

        // Steps come to an end.
        ensures less { IsLess self.old self.new result }
        ensures grows { S.grown shm.old shm.new }
    {
        if let Some(stop) = self.stop {
            return stop.outcome();
        }
        match self.stage {
            Stage::Header if self.get == self.put => FetchOutcome::Idle,
            Stage::Header => self.read_header(shm),
            Stage::Words(start) => self.read_words(shm, start),
            Stage::Data(_) => self.read_piece(shm),
        }
    }

    /// Reads the header at get, if put is below the entries.
    fn read_header<S: Shm>(&mut self, shm: &mut S) -> FetchOutcome
        requires { IsAtHeader self.old }
        ensures step { IsStep self.old (S.memory shm.old) self.new (S.memory shm.new) result }
        ensures grows { S.grown shm.old shm.new }
    {
        if self.put >= self.entries {
            return self.stop_bad(Malformed::OutOfBounds);
        }
        let Ok(word) = copy_header(shm, self.get) else {
            return self.stop_at(FetchStop::NoMemory);
        };
        match start(self.entries, self.put, self.get, word) {
            Err(kind) => self.stop_bad(kind),
            Ok(start) if start.layout.words == 0 => {
                self.finish(start.header, ArrayVec::new(), Bytes::new(self.alloc))
            }
            Ok(start) => {
                self.stage = Stage::Words(start);
                FetchOutcome::Copied
            }
        }
    }

    /// Reads all words behind a header that passed its tests.
    fn read_words<S: Shm>(&mut self, shm: &mut S, start: Start) -> FetchOutcome
        requires { IsAtWords self.old start }
        ensures step { IsStep self.old (S.memory shm.old) self.new (S.memory shm.new) result }
        ensures grows { S.grown shm.old shm.new }
    {
        let Start { header, layout } = start;
        let Ok(words) = copy_words(shm, self.get, layout.words) else {
            return self.stop_at(FetchStop::NoMemory);
        };
        let planned = laid_out_plan(header.number, layout, words.as_slice());
        if let Some(kind) = range_fault(shm, planned) {
            return self.stop_bad(kind);
        }
        match planned {
            Plan::Read {
                region,
                offset,
                count,
            } if count > 0 => {
                self.stage = Stage::Data(Body {
                    header,
                    words,
                    region,
                    offset,
                    count,
                    payload: Vec::new(self.alloc),
                });
                FetchOutcome::Copied
            }
            _ => self.finish(header, words, Bytes::new(self.alloc)),
        }
    }

    /// Reads the next piece of the data.
    fn read_piece<S: Shm>(&mut self, shm: &mut S) -> FetchOutcome
        requires { IsAtData self.old }
        ensures step { IsStep self.old (S.memory shm.old) self.new (S.memory shm.new) result }
        ensures grows { S.grown shm.old shm.new }
    {
        let Stage::Data(mut body) = replace(&mut self.stage, Stage::Header) else {
            unreachable!();
        };
        match copy_piece(shm, body.region, body.offset, body.count, &mut body.payload) {
            Err(_) => self.stop_at(FetchStop::NoMemory),
            Ok(()) if body.payload.len() < body.count as usize => {
                self.stage = Stage::Data(body);
                FetchOutcome::Copied
            }
            Ok(()) => self.finish(body.header, body.words, Bytes::from_vec(body.payload)),
        }
    }

    /// Gives the command at get, which was read whole, and goes on to the next.
    fn finish(&mut self, header: Header, words: ArrayVec<u32, 16>, payload: Bytes) -> FetchOutcome
        requires { self.old.get + header.size ≤ self.old.entries }
        ensures command { result ≡ outcome.Ready (record { number = header.number; words = words; payload = payload; place = self.old.get }) }
        ensures after { self.new ≡ record self.old { get = next_get self.old.entries self.old.get header.size; begun = Nothing } }
    {
        let command = Fetched {
            number: header.number,
            words,
            payload,
            place: self.get,
        };
        self.get = next_get(self.entries, self.get, header.size);
        self.stage = Stage::Header;
        FetchOutcome::Ready(command)
    }

    /// Stops at the command at get, which is malformed.
    fn stop_bad(&mut self, kind: Malformed) -> FetchOutcome
        ensures outcome { result ≡ outcome.Bad kind self.old.get }
        ensures after { self.new ≡ record self.old { begun = Nothing; stop = Some (FetchStop.Bad (record { kind = kind; place = self.old.get })) } }
    {
        self.stop_at(FetchStop::Bad(Stop {
            kind,
            place: self.get,
        }))
    }

    /// Makes no more copies.
    fn stop_at(&mut self, stop: FetchStop) -> FetchOutcome
        ensures outcome { result ≡ outcome_of stop }
        ensures after { self.new ≡ record self.old { begun = Nothing; stop = Some stop } }
    {
        self.stage = Stage::Header;
        self.stop = Some(stop);
        stop.outcome()
    }
}

/// The entry behind a command of this size.
fn next_get(entries: u32, get: u32, size: u32) -> u32
    requires some { 0 < entries }
    requires inside { get + size ≤ entries }
    ensures exact { result ≡ next_get entries get size }
    ensures inside { result < entries }
{
    let after = get + size;
    if after == entries { 0 } else { after }
}
