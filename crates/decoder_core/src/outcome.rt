//! What the execution of a command answers, and what a step of the service does.
ghost use Rattle.std.specs.Prelude.{◌≡◌};

use gl_plain::{ExecStop, Malformed, Reply, Stop};
use std::alloc::AllocError;
use thiserror::Error;

/// What the execution of a command answers.
#[derive(Debug, Drop)]
pub enum Outcome {
    /// The command was executed, with this reply.
    Done(Reply),
    /// The command is malformed. It made no driver call and changed nothing.
    Bad(Malformed),
    /// The driver was lost.
    Lost,
    /// There was no memory.
    NoMemory,
}

/// The outcome of each execution from a stop on.
impl From<ExecStop> for Outcome {
    ghost use Rattle.decoder_core.specs.StopOutcomes.{outcome_of};

    ghost from_gives = { λ stop outcome. outcome ≡ outcome_of stop };

    fn from(stop: ExecStop) -> Outcome {
        match stop {
            ExecStop::Bad(kind) => Outcome::Bad(kind),
            ExecStop::Lost => Outcome::Lost,
            ExecStop::NoMemory => Outcome::NoMemory,
        }
    }
}

/// Why the service stopped.
#[derive(Clone, Copy, Debug, PartialEq, Eq, Error)]
pub enum ServiceStop {
    /// A command is malformed.
    #[error("the command at entry {} is malformed: {:?}", .0.place, .0.kind)]
    Bad(Stop),
    /// The driver was lost.
    #[error("the driver was lost")]
    Lost,
    /// There was no memory.
    #[error("there was no memory")]
    NoMemory,
}

impl ServiceStop {
    ghost use Rattle.decoder_core.specs.StopOutcomes.{service_stop};

    /// Why the service stops where the command at this place does.
    pub fn at(place: u32, stop: ExecStop) -> ServiceStop
        ensures { result ≡ service_stop place stop }
    {
        match stop {
            ExecStop::Bad(kind) => ServiceStop::Bad(Stop { kind, place }),
            ExecStop::Lost => ServiceStop::Lost,
            ExecStop::NoMemory => ServiceStop::NoMemory,
        }
    }
}

impl From<AllocError> for ServiceStop {
    ghost use Rattle.decoder_core.specs.StopOutcomes.{no_memory};

    ghost from_gives = { λ _ stop. stop ≡ no_memory };

    fn from(_error: AllocError) -> ServiceStop {
        ServiceStop::NoMemory
    }
}

/// What a step of the service did.
#[derive(Debug, Drop)]
pub enum StepOutcome {
    /// One copy was made of shared memory.
    Copied,
    /// One command was executed, with this reply.
    Executed(Reply),
    /// There is nothing to do: get is put.
    Idle,
    /// The command whose header stands at `place` is malformed.
    Bad { kind: Malformed, place: u32 },
    /// The driver was lost.
    Lost,
    /// There was no memory.
    NoMemory,
}

/// The outcome of each step from a stop on.
impl From<ServiceStop> for StepOutcome {
    ghost use Rattle.decoder_core.specs.StopOutcomes.{step_of};

    ghost from_gives = { λ stop outcome. outcome ≡ step_of stop };

    fn from(stop: ServiceStop) -> StepOutcome {
        match stop {
            ServiceStop::Bad(Stop { kind, place }) => StepOutcome::Bad { kind, place },
            ServiceStop::Lost => StepOutcome::Lost,
            ServiceStop::NoMemory => StepOutcome::NoMemory,
        }
    }
}
