//! A driver that gives new names by counting, and says that all went well.
ghost use Rattle.std.specs.Prelude.{◌≡◌, ◌≤◌, ◌+◌, [], ◌∷◌, length, IfOk, OnOk, OnErr, None, Ok, false};
ghost use Rattle.gl_plain.specs.driver.Allowed.{IsAllowed};
ghost use Rattle.gl_plain.specs.driver.Answers.{IsAnswer};
ghost use Rattle.gl_plain.specs.driver.Effect.{driver_after};
ghost use Rattle.gl_base.specs.declared.limits.TheConstants.{DATA_LIMIT};
ghost use Rattle.gl_plain.specs.Words.{is_negative, natural};
ghost use Rattle.gl_plain.specs.subjects.Copies.{read_count};
ghost use Rattle.gl_driver.specs.History.{Served, Caused, done, entered};
ghost use Rattle.counting_driver.specs.Counting.{AreAbove, is_name};
ghost use Rattle.counting_driver.specs.CountingViews.{new_counting};
ghost use Rattle.counting_driver.specs.CountingHistory.{history_of, IsLater};
ghost use Rattle.counting_driver.specs.Entries.{answer_made, call_made, entry_made};

mod calls;

use crate::journal::{Journal, Made};
use crate::names::Names;
use gl_driver::DriverStop;
use gl_plain::{Answer, Bytes, DriverCall};
use std::alloc::Global;
use std::marker::Model;

/// A driver that executes nothing: new names are counted, there is always room, compilations, links and validations go well with nothing to
/// say, and pixels are zero. Its journal takes no memory. It stops only where names run out, or there is no memory for pixels.
#[derive(Drop)]
pub struct CountingDriver {
    alloc: Global,
    surface: (u32, u32),
    names: Names,
    stop: Option<DriverStop>,
    journal: Journal,
}

impl Model for CountingDriver {
    ghost use Rattle.counting_driver.specs.CountingViews.{CountingView};
    ghost use Rattle.counting_driver.specs.CountingInside.{view_of, IsCounting};

    ghost Value = { CountingView };

    ghost view = { view_of };

    ghost invariant = { IsCounting };
}

impl CountingDriver {
    /// A driver that was given no call, with a default framebuffer of these sides. It takes no memory.
    pub fn new(alloc: Global, surface: (u32, u32)) -> CountingDriver
        ensures { result ≡ new_counting surface }
    {
        CountingDriver {
            alloc,
            surface,
            names: Names {
                buffers: 0,
                textures: 0,
                renderbuffers: 0,
                framebuffers: 0,
                programs: 0,
            },
            stop: None,
            journal: Journal::new(),
        }
    }

    /// How many names were given.
    pub fn names(&self) -> Names
        ensures { result ≡ self.now.names }
    {
        self.names
    }

    /// The stop, where it stopped before.
    fn going(&self) -> Result<(), DriverStop>
        ensures ok { OnOk result (self.now.stop ≡ None) }
        ensures err { OnErr result (Caused (history_of self.now) (history_of self.now) result) }
    {
        match self.stop {
            None => Ok(()),
            Some(stop) => Err(stop),
        }
    }

    /// The name behind the last one. Where there is none it stops.
    fn name_behind(&mut self, last: u64) -> Result<u64, DriverStop>
        ensures same { OnOk result (self.new ≡ self.old) }
        ensures going { OnOk result (self.old.stop ≡ None) }
        ensures name { IfOk result (λ name. name ≡ last + 1) }
        ensures served { OnErr result (Served history_of IsLater self.old self.new []) }
        ensures cause { OnErr result (Caused (history_of self.old) (history_of self.new) result) }
    {
        self.going()?;
        match last.checked_add(1) {
            Some(name) => Ok(name),
            None => {
                self.stop = Some(DriverStop::NoMemory);
                Err(DriverStop::NoMemory)
            }
        }
    }

    /// The pixels of a read, which are zero. Without memory for them it stops.
    fn zeros(&mut self, width: i32, height: i32) -> Result<Bytes, DriverStop>
        requires columns { is_negative width ≡ false }
        requires rows { is_negative height ≡ false }
        requires size { read_count (natural width) (natural height) ≤ DATA_LIMIT }
        ensures same { OnOk result (self.new ≡ self.old) }
        ensures going { OnOk result (self.old.stop ≡ None) }
        ensures count { IfOk result (λ pixels. length pixels ≡ read_count (natural width) (natural height)) }
        ensures served { OnErr result (Served history_of IsLater self.old self.new []) }
        ensures cause { OnErr result (Caused (history_of self.old) (history_of self.new) result) }
    {
        self.going()?;
        match Bytes::zeros(self.alloc, width as usize * height as usize * 4) {
            Ok(pixels) => Ok(pixels),
            Err(_) => {
                self.stop = Some(DriverStop::NoMemory);
                Err(DriverStop::NoMemory)
            }
        }
    }

    /// Enters a call in the journal, after which so many names were given.
    fn enter(&mut self, made: &Made<'_>, names: Names)
        requires going { self.old.stop ≡ None }
        requires allowed { IsAllowed (history_of self.old).state (call_made made.now) }
        requires answered { IsAnswer (history_of self.old).state (call_made made.now) (answer_made made.now) }
        requires above { AreAbove (driver_after (history_of self.old).state (call_made made.now) (answer_made made.now)).tables.given names }
        ensures served { Served history_of IsLater self.old self.new (entry_made made.now ∷ []) }
        ensures cause { Caused {T = Unit {0}} (history_of self.old) (history_of self.new) (Ok tt) }
    {
        self.journal = self.journal.and(made);
        self.names = names;
    }

    /// Enters a call that gives this new name, after which so many names were given.
    fn give(&mut self, call: DriverCall, name: u64, names: Names)
        requires going { self.old.stop ≡ None }
        requires allowed { IsAllowed (history_of self.old).state call }
        requires answered { IsAnswer (history_of self.old).state call (Answer.Name name) }
        requires above { AreAbove (driver_after (history_of self.old).state call (Answer.Name name)).tables.given names }
        ensures served { Served history_of IsLater self.old self.new (record { call = call; answer = Answer.Name name } ∷ []) }
        ensures cause { Caused {T = Unit {0}} (history_of self.old) (history_of self.new) (Ok tt) }
    {
        let made = Made::Plain {
            call: &call,
            answer: &Answer::Name(name),
        };
        self.enter(&made, names);
    }

    /// Makes a call that gives no name, where it did not stop before.
    fn make(&mut self, made: &Made<'_>) -> Result<(), DriverStop>
        requires allowed { IsAllowed (history_of self.old).state (call_made made.now) }
        requires answered { IsAnswer (history_of self.old).state (call_made made.now) (answer_made made.now) }
        requires no_name { is_name (answer_made made.now) ≡ false }
        ensures served { Served history_of IsLater self.old self.new (entered result (call_made made.now) (λ u. answer_made made.now)) }
        ensures cause { Caused (history_of self.old) (history_of self.new) result }
    {
        self.going()?;
        self.enter(made, self.names);
        Ok(())
    }

    /// Makes a call without bytes that gives nothing back.
    fn make_plain(&mut self, call: DriverCall) -> Result<(), DriverStop>
        requires allowed { IsAllowed (history_of self.old).state call }
        requires answered { IsAnswer (history_of self.old).state call Answer.Done }
        ensures served { Served history_of IsLater self.old self.new (entered result call done) }
        ensures cause { Caused (history_of self.old) (history_of self.new) result }
    {
        self.make(&Made::Plain {
            call: &call,
            answer: &Answer::Done,
        })
    }
}
