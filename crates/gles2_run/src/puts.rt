//! The service up to each put of a script.
ghost use Rattle.std.specs.Prelude.{◌≡◌, ◌<◌};
ghost use Rattle.gl_plain.specs.Agreement.{Agrees};
ghost use Rattle.strict_driver.specs.StrictHistory.{history_of, Continues};
ghost use Rattle.cb_shm.specs.HostileMemories.{memory_of, HasSameScript};
ghost use Rattle.decoder_core.specs.ServiceView.{with_put, wire_of, IsAtRest};
ghost use Rattle.decoder_core.specs.Side.{side};
ghost use Rattle.decoder_core.specs.Serving.{IsServed};
ghost use Rattle.gles2_run.specs.Puts.{TookPuts};

use crate::desk::Desk;
use cb_shm::HostileMemory;
use decoder_core::{Service, ServiceStop, serve};

/// The client publishes put, and the service executes the commands up to it.
fn take_put(
    service: &mut Service,
    memory: &mut HostileMemory,
    put: u32,
    desk: &mut Desk,
) -> Result<(), ServiceStop>
    requires some { 0 < service.old.fetch.entries }
    requires at_rest { IsAtRest service.old }
    requires agrees { Agrees (wire_of service.old) (history_of desk.old.driver).state }
    ensures served { IsServed history_of Continues (side (with_put service.old put) (memory_of memory.old) desk.old.driver) desk.old.answers (side service.new (memory_of memory.new) desk.new.driver) desk.new.answers result }
    ensures grows { HasSameScript memory.old memory.new }
{
    service.set_put(put);
    serve(service, memory, &mut desk.driver, &mut desk.answers)
}

/// Publishes the puts in order, each when the commands up to the one before are executed. None is published behind a malformed command.
pub fn take_puts(
    service: &mut Service,
    memory: &mut HostileMemory,
    puts: &[u32],
    desk: &mut Desk,
) -> Result<(), ServiceStop>
    requires some { 0 < service.old.fetch.entries }
    requires at_rest { IsAtRest service.old }
    requires agrees { Agrees (wire_of service.old) (history_of desk.old.driver).state }
    ensures taken { TookPuts (side service.old (memory_of memory.old) desk.old.driver) desk.old.answers puts.now (side service.new (memory_of memory.new) desk.new.driver) desk.new.answers result }
    ensures grows { HasSameScript memory.old memory.new }
{
    for put in puts {
        take_put(service, memory, *put, desk)?;
    }
    Ok(())
}
