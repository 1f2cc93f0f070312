//! What a step of a fetcher answers.

use gl_plain::{Fetched, Malformed, Stop};
use thiserror::Error;

/// Why a fetcher makes no more copies.
#[derive(Clone, Copy, Debug, PartialEq, Eq, Error)]
pub enum FetchStop {
    /// A command is malformed.
    #[error("the command at entry {place} is malformed: {kind:?}", place = .0.place, kind = .0.kind)]
    Bad(Stop),
    /// There was no memory.
    #[error("no memory for a copy")]
    NoMemory,
}

/// What a step of a fetcher did.
#[derive(Debug, Drop)]
pub enum FetchOutcome {
    /// One copy was made, and the command needs more.
    Copied,
    /// The last copy of a command was made. This is the command.
    Ready(Fetched),
    /// There is nothing to read: get is put, and no command is begun.
    Idle,
    /// The command whose header stands at `place` is malformed.
    Bad { kind: Malformed, place: u32 },
    /// There was no memory.
    NoMemory,
}

impl FetchStop {
    ghost use Rattle.std.specs.Prelude.{◌≡◌};
    ghost use Rattle.cb_fetch.specs.Stops.{outcome_of};

    /// The outcome of each step from the stop on.
    pub fn outcome(self) -> FetchOutcome
        ensures { result ≡ outcome_of self }
    {
        match self {
            FetchStop::Bad(stop) => FetchOutcome::Bad {
                kind: stop.kind,
                place: stop.place,
            },
            FetchStop::NoMemory => FetchOutcome::NoMemory,
        }
    }
}
