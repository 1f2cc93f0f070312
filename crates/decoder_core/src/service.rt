//! The service: commands are fetched and executed, one copy or one command a step.
ghost use Rattle.std.specs.Prelude.{◌≡◌, ◌≤◌, [], None, Some, IfOk};
ghost use Rattle.gl_plain.specs.Agreement.{Agrees};
ghost use Rattle.gl_driver.specs.History.{History};
ghost use Rattle.decoder_core.specs.StopOutcomes.{step_of};
ghost use Rattle.decoder_core.specs.ServiceView.{IsNewService, with_put, get_in, wire_of};
ghost use Rattle.decoder_core.specs.Side.{side};
ghost use Rattle.decoder_core.specs.Step.{IsStep, Steps};
ghost use Rattle.decoder_core.specs.Remaining.{IsLessLeft};
ghost use Rattle.decoder_core.specs.Place.{KeepsPlace};

use crate::outcome::{ServiceStop, StepOutcome};
use crate::replying::carry_out;
use crate::tables::Tables;
use cb_fetch::{FetchOutcome, Fetcher};
use cb_shm::Shm;
use gl_driver::Driver;
use gl_plain::{Fetched, Stop};
use std::alloc::{AllocError, Global};
use std::marker::Model;

/// The service of a command buffer. It reads the commands of a ring, region 0 of shared memory, and executes each as it was read: what
/// the client writes into memory after a copy changes nothing of it.
#[derive(Drop)]
pub struct Service {
    fetcher: Fetcher,
    tables: Tables,
    /// The command that was read whole and is executed next.
    waiting: Option<Fetched>,
    stop: Option<ServiceStop>,
}

impl Model for Service {
    ghost use Rattle.decoder_core.specs.ServiceView.{ServiceView};
    ghost use Rattle.decoder_core.specs.ServiceInvariant.{view_of, IsService};
    ghost use Rattle.decoder_core.specs.contracts.tables.Tables as the_tables;
    ghost use Rattle.std.specs.Coded.{codes};

    ghost Value = { ServiceView };

    ghost coded = { Prim.hlevel (codes, the_tables.the_row.coded) };

    ghost view = { view_of };

    ghost invariant = { IsService };
}

/// Keeps why the service stopped, and answers it.
fn stopped(kept: &mut Option<ServiceStop>, stop: ServiceStop) -> StepOutcome
    ensures kept { kept.new ≡ Some stop }
    ensures outcome { result ≡ step_of stop }
{
    *kept = Some(stop);
    stop.into()
}

impl Service {
    /// A service of a ring of so many entries of 4 bytes, in the opening state for a default framebuffer of this width and height, with
    /// get and put at entry 0. The default textures take memory.
    pub fn new(alloc: Global, surface: (u32, u32), entries: u32) -> Result<Service, AllocError>
        requires some { 2 ≤ entries }
        requires few { entries ≤ 1048576 }
        ensures { IfOk result (IsNewService surface entries) }
    {
        Ok(Service {
            fetcher: Fetcher::new(alloc, entries),
            tables: Tables::new(alloc, surface)?,
            waiting: None,
            stop: None,
        })
    }

    /// The client publishes put: the commands before this entry are there to be executed. Any number may be published.
    pub fn set_put(&mut self, put: u32)
        ensures { self.new ≡ with_put self.old put }
    {
        self.fetcher.set_put(put);
    }

    /// The entry up to which the commands were executed.
    pub fn get(&self) -> u32
        ensures { result ≡ get_in self.now }
    {
        match &self.waiting {
            Some(command) => command.place,
            None => self.fetcher.get(),
        }
    }

    /// The token that was set last, or 0.
    pub fn token(&self) -> u32
        ensures { result ≡ (wire_of self.now).token }
    {
        self.tables.token()
    }

    /// Makes the next copy.
    fn read<S: Shm>(&mut self, shm: &mut S) -> StepOutcome
        requires going { self.old.stop ≡ None }
        requires none_waiting { self.old.waiting ≡ None }
        ensures step { (h : History) → IsStep (side self.old (S.memory shm.old) h) (side self.new (S.memory shm.new) h) [] result }
        ensures tables { self.new.tables ≡ self.old.tables }
        ensures place { (h : History) → KeepsPlace (side self.old (S.memory shm.old) h) (side self.new (S.memory shm.new) h) result }
        ensures less { IsLessLeft self.old self.new result }
        ensures grows { S.grown shm.old shm.new }
    {
        match self.fetcher.step(shm) {
            FetchOutcome::Copied => StepOutcome::Copied,
            FetchOutcome::Ready(command) => {
                self.waiting = Some(command);
                StepOutcome::Copied
            }
            FetchOutcome::Idle => StepOutcome::Idle,
            FetchOutcome::Bad { kind, place } => {
                stopped(&mut self.stop, ServiceStop::Bad(Stop { kind, place }))
            }
            FetchOutcome::NoMemory => stopped(&mut self.stop, ServiceStop::NoMemory),
        }
    }

    /// Makes one copy, or executes the command that was copied whole and writes its reply, or finds nothing to do. After `Bad`, `Lost` or
    /// `NoMemory` it answers that again, makes no copy and no driver call.
    pub fn step<S: Shm, D: Driver>(&mut self, shm: &mut S, driver: &mut D) -> StepOutcome
        requires { self.old.stop ≡ None → Agrees (wire_of self.old) (D.history driver.old).state }

        // Which outcome comes when, what was done, and what it leaves: of the service, of memory and of the driver.
        ensures steps { Steps D.history D.grown (side self.old (S.memory shm.old) driver.old) (side self.new (S.memory shm.new) driver.new) result }

        // The tables agree with the driver's as long as the service goes on.
        ensures agrees { self.new.stop ≡ None → Agrees (wire_of self.new) (D.history driver.new).state }

        // Where each copy gave what memory holds at its number, the service goes through the commands that stand there.
        ensures place { KeepsPlace (side self.old (S.memory shm.old) driver.old) (side self.new (S.memory shm.new) driver.new) result }

        // Steps come to an end.
        ensures less { IsLessLeft self.old self.new result }
        ensures grows { S.grown shm.old shm.new }
    {
        if let Some(stop) = self.stop {
            return stop.into();
        }
        match &self.waiting {
            None => self.read(shm),
            Some(command) => match carry_out(&mut self.tables, command, shm, driver) {
                Ok(reply) => {
                    self.waiting = None;
                    StepOutcome::Executed(reply)
                }
                Err(stop) => stopped(&mut self.stop, stop),
            },
        }
    }
}
