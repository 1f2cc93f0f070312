//! The strict driver.
ghost use Rattle.std.specs.Prelude.{◌≡◌, ◌≤◌, ◌<◌, ◌+◌, ◌++◌, [], ◌∷◌, length, OnOk, OnErr, IfOk, IfSome, IsTrue, None, Some, Err, false};
ghost use Rattle.std.specs.Prelude.{◌==◌};
ghost use Rattle.std.specs.List.{list_any};
ghost use Rattle.std.specs.List.Sorted.{IsNonDecreasing};
ghost use Rattle.gl_plain.specs.declared.driver_calls.DriverEntry.{DriverEntry};
ghost use Rattle.gl_plain.specs.State.{opening_driver};
ghost use Rattle.gl_plain.specs.CommonLines.{are_sound_answers};
ghost use Rattle.gl_plain.specs.driver.Allowed.{IsAllowed};
ghost use Rattle.gl_plain.specs.driver.Answers.{AreAnsweredBy, answer_to, stored_answer, told};
ghost use Rattle.gl_plain.specs.Journal.{IsLegal, state_after};
ghost use Rattle.gl_plain.specs.Oracle.{answers_of, first};
ghost use Rattle.gl_plain.specs.subjects.Copies.{fitted};
ghost use Rattle.gl_driver.specs.History.{Served, Caused, Rose, entered, is_oom};
ghost use Rattle.strict_driver.specs.Given.{is_lost_at};
ghost use Rattle.strict_driver.specs.Reads.{reads_in, with_reads};
ghost use Rattle.strict_driver.specs.StrictHistory.{new_driver, history_of, Continues, answers_left};

mod calls;

use crate::counts::Counts;
use crate::said::{compile_said, link_said, pixels_said, stored_answer, validation_said};
use crate::tables::Tables;
use gl_base::limits::DEFAULT_SURFACE;
use gl_driver::{DriverStop, Stored};
use gl_plain::{
    Answer, Answers, Bytes, DriverCall, DriverEntry, EntryList, LinkAnswer, Verdict, Words,
};
use std::alloc::{AllocError, Global};
use std::marker::Model;

/// A driver in memory. It numbers the names of a name space from 1. Until it is loaded with others, its answers say that all goes well, that
/// nothing is active and that there is always room, and it is never lost.
#[derive(Drop)]
pub struct StrictDriver {
    alloc: Global,
    tables: Tables,
    journal: EntryList,
    loaded: Answers,
    counts: Counts,
    stop: Option<DriverStop>,
    ooms: u64,
    losses: u64,
}

impl Model for StrictDriver {
    ghost use Rattle.strict_driver.specs.StrictView.{StrictView};

    ghost Value = { StrictView };

    ghost use Rattle.strict_driver.specs.StrictInside.{view_of, IsStrict};

    ghost view = { view_of };

    ghost invariant = { IsStrict };
}

impl StrictDriver {
    /// A driver that was given no call and no answers, with the default sides of its framebuffer. It takes no memory.
    pub fn new(alloc: Global) -> StrictDriver
        ensures { result ≡ new_driver }
    {
        StrictDriver {
            alloc,
            tables: Tables::new(alloc, DEFAULT_SURFACE),
            journal: EntryList::new(alloc),
            loaded: Answers::new(alloc),
            counts: Counts::new(),
            stop: None,
            ooms: 0,
            losses: 0,
        }
    }

    /// Opens it with a default framebuffer of these sides, and sets what it will answer, before its first call. It takes no memory.
    pub fn load(&mut self, surface: (u32, u32), answers: Answers)
        requires opening { self.old.journal ≡ [] }
        requires going { self.old.stop ≡ None }
        requires sound { IsTrue (are_sound_answers answers) }
        ensures rest { self.new ≡ record self.old { surface = surface; loaded = self.new.loaded } }
        ensures answers { answers_left self.new ≡ answers_of answers }
        ensures lost { self.new.loaded.lost ≡ answers.lost }
    {
        let mut oom = answers.oom.into_vec();
        oom.sort_unstable();
        self.loaded = Answers {
            compile: answers.compile,
            link: answers.link,
            validate: answers.validate,
            pixels: answers.pixels,
            oom: Words::from_vec(oom),
            lost: answers.lost,
        };
        self.counts = Counts::new();
        self.tables = Tables::new(self.alloc, surface);
    }

    /// The calls so far with their answers, in order. Each met its condition in the state that the earlier ones left, and the answers
    /// are those that were loaded, pixels cut or filled with zeros to the lengths that were asked for. There are no more of them than are answered before the driver is lost, and as many where it was.
    #[tactic(auto, using(crate::proofs::Answered::told_behind))]
    pub fn journal(&self) -> &[DriverEntry]
        ensures exact { result.now ≡ self.now.journal }
        ensures legal { IsLegal (opening_driver self.now.surface) self.now.journal }
        ensures answered { AreAnsweredBy (answers_of self.now.loaded) self.now.journal }
        ensures answers { told self.now.journal (answers_left self.now) ≡ with_reads (reads_in self.now.journal) (answers_of self.now.loaded) }
        ensures within { IfSome self.now.loaded.lost (λ n. length self.now.journal ≤ n) }
        ensures lost { self.now.stop ≡ Some DriverStop.Lost → self.now.loaded.lost ≡ Some (length self.now.journal) }
    {
        self.journal.as_slice()
    }

    /// Stops for want of memory.
    fn stop(&mut self) -> DriverStop
        requires { self.old.stop ≡ None }
        ensures served { Served history_of Continues self.old self.new [] }
        ensures cause { Caused {T = Unit {0}} (history_of self.old) (history_of self.new) (Err result) }
    {
        self.stop = Some(DriverStop::NoMemory);
        DriverStop::NoMemory
    }

    /// Whether it is lost at the next call.
    fn is_lost(&self) -> bool
        ensures { result ≡ is_lost_at self.now.loaded.lost (length self.now.journal) }
    {
        match self.loaded.lost {
            None => false,
            Some(calls) => self.journal.len() == calls as usize,
        }
    }

    /// Whether the next call may be made: it stopped before, or is lost now, where not.
    fn ready(&mut self) -> Result<(), DriverStop>
        ensures ok { OnOk result (self.new ≡ self.old) }
        ensures going { OnOk result (self.old.stop ≡ None) }
        ensures within { OnOk result (IfSome self.old.loaded.lost (λ n. length self.old.journal < n)) }
        ensures served { OnErr result (Served history_of Continues self.old self.new []) }
        ensures cause { OnErr result (Caused (history_of self.old) (history_of self.new) result) }
    {
        if let Some(stop) = self.stop {
            return Err(stop);
        }
        if self.is_lost() {
            self.losses = self.losses.saturating_add(1);
            self.stop = Some(DriverStop::Lost);
            return Err(DriverStop::Lost);
        }
        Ok(())
    }

    /// The name that is given next in the name space of buffers, or none past the end of its type.
    fn next_buffer(&self) -> Option<u64>
        ensures { IfSome result (λ name. name ≡ first (answers_left self.now).buffers) }
    {
        self.counts.buffers.checked_add(1)
    }

    /// The name that is given next in the name space of textures, or none past the end of its type.
    fn next_texture(&self) -> Option<u64>
        ensures { IfSome result (λ name. name ≡ first (answers_left self.now).textures) }
    {
        self.counts.textures.checked_add(1)
    }

    /// The name that is given next in the name space of renderbuffers, or none past the end of its type.
    fn next_renderbuffer(&self) -> Option<u64>
        ensures { IfSome result (λ name. name ≡ first (answers_left self.now).renderbuffers) }
    {
        self.counts.renderbuffers.checked_add(1)
    }

    /// The name that is given next in the name space of framebuffers, or none past the end of its type.
    fn next_framebuffer(&self) -> Option<u64>
        ensures { IfSome result (λ name. name ≡ first (answers_left self.now).framebuffers) }
    {
        self.counts.framebuffers.checked_add(1)
    }

    /// The name that is given next in the name space of shaders and programs, or none past the end of its type.
    fn next_program(&self) -> Option<u64>
        ensures { IfSome result (λ name. name ≡ first (answers_left self.now).programs) }
    {
        self.counts.programs.checked_add(1)
    }

    /// A copy of what the next compilation says.
    fn next_compile(&self) -> Result<Verdict, AllocError>
        ensures { IfOk result (λ said. said ≡ first (answers_left self.now).compile) }
    {
        compile_said(
            self.alloc,
            self.loaded.compile.get(self.counts.compiles as usize),
        )
    }

    /// A copy of what the next link says.
    fn next_link(&self) -> Result<LinkAnswer, AllocError>
        ensures { IfOk result (λ said. said ≡ first (answers_left self.now).link) }
    {
        link_said(self.alloc, self.loaded.link.get(self.counts.links as usize))
    }

    /// A copy of what the next validation says.
    fn next_validation(&self) -> Result<Verdict, AllocError>
        ensures { IfOk result (λ said. said ≡ first (answers_left self.now).validate) }
    {
        validation_said(
            self.alloc,
            self.loaded.validate.get(self.counts.validates as usize),
        )
    }

    /// A copy of what the next read gives, as so many bytes.
    fn next_pixels(&self, count: usize) -> Result<Bytes, AllocError>
        ensures { IfOk result (λ said. said ≡ fitted count (first (answers_left self.now).pixels)) }
    {
        pixels_said(
            self.alloc,
            count,
            self.loaded.pixels.get(self.counts.reads as usize),
        )
    }

    /// Whether the next question for room finds some.
    fn room(&self) -> Stored
        ensures { result ≡ first (answers_left self.now).stored }
    {
        if is_among(self.loaded.oom.as_slice(), self.counts.stores) {
            Stored::Oom
        } else {
            Stored::Done
        }
    }

    /// Makes a call with its next answer, and enters it in the journal.
    fn enter(&mut self, call: DriverCall, answer: Answer) -> Result<(), DriverStop>
        requires going { self.old.stop ≡ None }
        requires within { IfSome self.old.loaded.lost (λ n. length self.old.journal < n) }
        requires allowed { IsAllowed (history_of self.old).state call }
        requires next { answer ≡ answer_to (answers_left self.old) call }
        ensures served { OnOk result (Served history_of Continues self.old self.new (record { call = call; answer = answer } ∷ [])) }
        ensures stopped { OnErr result (Served history_of Continues self.old self.new []) }
        ensures cause { Caused (history_of self.old) (history_of self.new) result }
        ensures oom { OnOk result (answer ≡ Answer.Oom → Rose self.old.ooms self.new.ooms) }
    {
        let Some(counts) = self.counts.after(&call) else {
            return Err(self.stop());
        };
        let Ok(()) = self.tables.apply(self.journal.as_slice(), &call, &answer) else {
            self.stop = Some(DriverStop::NoMemory);
            return Err(DriverStop::NoMemory);
        };
        let ooms = ooms_after(self.ooms, &answer);
        let Ok(()) = self.journal.push(DriverEntry { call, answer }) else {
            self.stop = Some(DriverStop::NoMemory);
            return Err(DriverStop::NoMemory);
        };
        self.counts = counts;
        self.ooms = ooms;
        Ok(())
    }

    /// Makes a call that gives this name, which is the next of its name space, or stops where there is none.
    fn give(&mut self, call: DriverCall, next: Option<u64>) -> Result<u64, DriverStop>
        requires going { self.old.stop ≡ None }
        requires within { IfSome self.old.loaded.lost (λ n. length self.old.journal < n) }
        requires allowed { IsAllowed (history_of self.old).state call }
        requires next { IfSome next (λ name. Answer.Name name ≡ answer_to (answers_left self.old) call) }
        ensures served { Served history_of Continues self.old self.new (entered result call Answer.Name) }
        ensures cause { Caused (history_of self.old) (history_of self.new) result }
    {
        let Some(name) = next else {
            return Err(self.stop());
        };
        match self.enter(call, Answer::Name(name)) {
            Ok(()) => Ok(name),
            Err(stop) => Err(stop),
        }
    }

    /// Makes a call that asks for room, and says whether there is some.
    fn store(&mut self, call: DriverCall) -> Result<Stored, DriverStop>
        requires going { self.old.stop ≡ None }
        requires within { IfSome self.old.loaded.lost (λ n. length self.old.journal < n) }
        requires allowed { IsAllowed (history_of self.old).state call }
        requires next { stored_answer (first (answers_left self.old).stored) ≡ answer_to (answers_left self.old) call }
        ensures served { Served history_of Continues self.old self.new (entered result call stored_answer) }
        ensures cause { Caused (history_of self.old) (history_of self.new) result }
        ensures oom { IfOk result (λ s. s ≡ Stored.Oom → Rose self.old.ooms self.new.ooms) }
    {
        let room = self.room();
        match self.enter(call, stored_answer(room)) {
            Ok(()) => Ok(room),
            Err(stop) => Err(stop),
        }
    }
}

/// Whether a number is among these, which do not fall.
fn is_among(sorted: &[u32], number: u64) -> bool
    requires { IsNonDecreasing sorted.now }
    ensures { result ≡ list_any (λ n. n == number) sorted.now }
{
    match u32::try_from(number) {
        Ok(number) => sorted.binary_search(&number).is_ok(),
        Err(_) => false,
    }
}

/// How often there was no room after an answer.
fn ooms_after(ooms: u64, answer: &Answer) -> u64
    ensures rises { ooms ≤ result }
    ensures still { is_oom answer.now ≡ false → result ≡ ooms }
    ensures oom { answer.now ≡ Answer.Oom → Rose ooms result }
{
    match answer {
        Answer::Oom => ooms.saturating_add(1),
        Answer::Done
        | Answer::Name(_)
        | Answer::Compile { .. }
        | Answer::Link(_)
        | Answer::Validate { .. }
        | Answer::Pixels(_) => ooms,
    }
}
