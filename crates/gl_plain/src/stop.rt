//! Why a command has no reply.
ghost use Rattle.std.specs.Prelude.{◌≡◌};

use crate::Malformed;
use std::alloc::AllocError;
use thiserror::Error;

/// Why a command has no reply.
#[derive(Clone, Copy, Debug, PartialEq, Eq, Error)]
pub enum ExecStop {
    /// The command is malformed. It made no driver call and changed nothing.
    #[error("the command is malformed: {0:?}")]
    Bad(Malformed),
    /// The driver was lost.
    #[error("the driver was lost")]
    Lost,
    /// There was no memory.
    #[error("there was no memory")]
    NoMemory,
}

impl From<AllocError> for ExecStop {
    ghost use Rattle.gl_plain.specs.Stops.{no_memory};

    ghost from_gives = { λ _ stop. stop ≡ no_memory };

    fn from(_error: AllocError) -> ExecStop {
        ExecStop::NoMemory
    }
}
