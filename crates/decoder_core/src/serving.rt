//! The service up to put.
ghost use Rattle.std.specs.Prelude.{◌≡◌, ◌<◌, None};
ghost use Rattle.gl_plain.specs.Agreement.{Agrees};
ghost use Rattle.decoder_core.specs.ServiceView.{IsAtRest, wire_of};
ghost use Rattle.decoder_core.specs.Side.{side};
ghost use Rattle.decoder_core.specs.Serving.{IsServed};
ghost use Rattle.decoder_core.specs.Turn.{Takes};

use crate::outcome::{ServiceStop, StepOutcome};
use crate::service::Service;
use cb_shm::Shm;
use gl_driver::Driver;
use gl_plain::{ReplyList, Stop};

/// Takes one step, and adds the reply of a command that was executed. The answer is whether there may be more to do.
fn one<S: Shm, D: Driver>(
    service: &mut Service,
    shm: &mut S,
    driver: &mut D,
    replies: &mut ReplyList,
) -> Result<bool, ServiceStop>
    requires going { service.old.stop ≡ None }
    requires agrees { Agrees (wire_of service.old) (D.history driver.old).state }
    ensures takes { Takes D.history D.grown (side service.old (S.memory shm.old) driver.old) replies.old (side service.new (S.memory shm.new) driver.new) replies.new result }
    ensures grows { S.grown shm.old shm.new }
{
    match service.step(shm, driver) {
        StepOutcome::Copied => Ok(true),
        StepOutcome::Executed(reply) => {
            replies.push(reply)?;
            Ok(true)
        }
        StepOutcome::Idle => Ok(false),
        StepOutcome::Bad { kind, place } => Err(ServiceStop::Bad(Stop { kind, place })),
        StepOutcome::Lost => Err(ServiceStop::Lost),
        StepOutcome::NoMemory => Err(ServiceStop::NoMemory),
    }
}

/// Takes steps until the service is idle, or up to the first command that is malformed, and adds the replies of the commands executed.
pub fn serve<S: Shm, D: Driver>(
    service: &mut Service,
    shm: &mut S,
    driver: &mut D,
    replies: &mut ReplyList,
) -> Result<(), ServiceStop>
    requires some { 0 < service.old.fetch.entries }
    requires at_rest { IsAtRest service.old }
    requires agrees { Agrees (wire_of service.old) (D.history driver.old).state }
    ensures served { IsServed D.history D.grown (side service.old (S.memory shm.old) driver.old) replies.old (side service.new (S.memory shm.new) driver.new) replies.new result }
    ensures grows { S.grown shm.old shm.new }
{
    'steps: while one(service, shm, driver, replies)? {}
    Ok(())
}
