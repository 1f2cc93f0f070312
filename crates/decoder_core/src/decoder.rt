//! The decoder: the execution of commands one by one, up to a stop.
ghost use Rattle.std.specs.Prelude.{◌≡◌, None, IfNone, IfOk, IfSome};

use crate::outcome::Outcome;
use crate::tables::Tables;
use gl_driver::Driver;
use gl_plain::{ExecStop, Fetched};
use std::alloc::{AllocError, Global};

/// The tables of the service, and why they execute no more, if they stopped.
#[derive(Drop)]
pub struct Decoder {
    tables: Tables,
    stop: Option<ExecStop>,
}

impl Decoder {
    ghost use Rattle.gl_plain.specs.State.{opening_wire};
    ghost use Rattle.gl_plain.specs.Agreement.{Agrees};
    ghost use Rattle.cb_fetch.specs.Readable.{IsReadable};
    ghost use Rattle.decoder_core.specs.StopOutcomes.{result_of, stop_in};
    ghost use Rattle.decoder_core.specs.Execution.{Performs};
    ghost use Rattle.decoder_core.specs.Decoders.{decoder_state, decoder_stop, StaysStopped};

    /// The opening state, for a default framebuffer of this width and height. The default textures take memory.
    pub fn new(alloc: Global, surface: (u32, u32)) -> Result<Decoder, AllocError>
        ensures opening { IfOk result (λ decoder. decoder_state decoder ≡ opening_wire surface) }
        ensures going { IfOk result (λ decoder. decoder_stop decoder ≡ None) }
    {
        Ok(Decoder {
            tables: Tables::new(alloc, surface)?,
            stop: None,
        })
    }

    /// The token that was set last, or 0.
    pub fn token(&self) -> u32
        ensures { result ≡ (decoder_state self.now).token }
    {
        self.tables.token()
    }

    /// Executes a command. It sees the command as it was read, and no memory that the client can change. `Bad` where its arguments are
    /// malformed, and then nothing was done. After `Bad`, `Lost` or `NoMemory` it answers that again and makes no driver call.
    pub fn execute<D: Driver>(&mut self, command: &Fetched, driver: &mut D) -> Outcome
        requires readable { IsReadable command.now }
        requires agrees { IfNone (decoder_stop self.old) (Agrees (decoder_state self.old) (D.history driver.old).state) }

        // Before a stop, the command is one step of OpenGL ES, or the outcome says why not.
        ensures performs { IfNone (decoder_stop self.old) (Performs D.history D.grown command.now (decoder_state self.old) driver.old (decoder_state self.new) driver.new (result_of result)) }
        ensures stop { IfNone (decoder_stop self.old) (decoder_stop self.new ≡ stop_in (result_of result)) }

        // Behind one, nothing is done.
        ensures stopped { IfSome (decoder_stop self.old) (StaysStopped self.old driver.old self.new driver.new result) }
    {
        if let Some(stop) = self.stop {
            return stop.into();
        }
        match self.tables.execute(command, driver) {
            Ok(reply) => Outcome::Done(reply),
            Err(stop) => {
                self.stop = Some(stop);
                stop.into()
            }
        }
    }
}
