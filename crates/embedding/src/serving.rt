//! The loop of an embedding: the client publishes put, and the service takes steps until there is nothing to do, or until it stops.
ghost use Rattle.std.specs.Prelude.{◌≡◌, IfSome, None};
ghost use Rattle.gl_plain.specs.Agreement.{Agrees};
ghost use Rattle.decoder_core.specs.ServiceView.{wire_of, with_put};
ghost use Rattle.decoder_core.specs.Side.{side};
ghost use Rattle.embedding.specs.Serving.{StaysStopped, Takes, Works};

use cb_shm::Shm;
use decoder_core::{Service, ServiceStop, StepOutcome};
use gl_driver::Driver;
use gl_plain::{ReplyList, Stop};

/// Takes one step, and adds the reply of a command that was executed. The answer is whether there may be more to do.
fn turn<S: Shm, D: Driver>(
    service: &mut Service,
    memory: &mut S,
    driver: &mut D,
    replies: &mut ReplyList,
) -> Result<bool, ServiceStop>
    requires { service.old.stop ≡ None → Agrees (wire_of service.old) (D.history driver.old).state }
    ensures takes { Takes D.history D.grown (side service.old (S.memory memory.old) driver.old) replies.old (side service.new (S.memory memory.new) driver.new) replies.new result }
    ensures agrees { service.new.stop ≡ None → Agrees (wire_of service.new) (D.history driver.new).state }
    ensures grows { S.grown memory.old memory.new }
{
    match service.step(memory, driver) {
        StepOutcome::Copied => Ok(true),
        StepOutcome::Executed(reply) => {
            replies.push(reply)?;
            Ok(true)
        }
        StepOutcome::Idle => Ok(false),
        StepOutcome::Bad { kind, place } => Err(ServiceStop::Bad(Stop { kind, place })),
        StepOutcome::Lost => Err(ServiceStop::Lost),
        StepOutcome::NoMemory => Err(ServiceStop::NoMemory),
    }
}

/// Publishes put, and executes the commands before it as they come, each with its reply behind the others. A service that stopped before
/// answers why again, and nothing is done.
///
/// # Errors
///
/// The stop of the service: a malformed command, which did nothing; a lost driver; or want of memory.
pub fn work<S: Shm, D: Driver>(
    service: &mut Service,
    memory: &mut S,
    driver: &mut D,
    put: u32,
    replies: &mut ReplyList,
) -> Result<(), ServiceStop>
    // What the embedding owes: as long as the service goes on, its tables agree with those of this driver.
    requires agrees { service.old.stop ≡ None → Agrees (wire_of service.old) (D.history driver.old).state }

    // What was executed is a run, as the definition has it, and all that was done; what else holds is said for each answer.
    ensures works { Works D.history D.grown (side (with_put service.old put) (S.memory memory.old) driver.old) replies.old (side service.new (S.memory memory.new) driver.new) replies.new result }

    // So the next call may be made.
    ensures agrees { service.new.stop ≡ None → Agrees (wire_of service.new) (D.history driver.new).state }

    // A stop stays.
    ensures stays { IfSome service.old.stop (StaysStopped D.history (side (with_put service.old put) (S.memory memory.old) driver.old) replies.old (side service.new (S.memory memory.new) driver.new) replies.new result) }
    ensures grows { S.grown memory.old memory.new }
{
    service.set_put(put);
    'turns: while turn(service, memory, driver, replies)? {}
    Ok(())
}
