//! Why a driver makes no more calls.

use gl_plain::ExecStop;
use thiserror::Error;

/// Why a driver makes no more calls. Each later call gives the same answer.
#[derive(Clone, Copy, Debug, PartialEq, Eq, Error)]
pub enum DriverStop {
    /// The driver was lost. The call that met it is not entered in the journal.
    #[error("the driver was lost")]
    Lost,
    /// There was no memory. The call is not entered in the journal.
    #[error("no memory for a driver call")]
    NoMemory,
}

impl From<DriverStop> for ExecStop {
    ghost use Rattle.std.specs.Prelude.{◌≡◌};
    ghost use Rattle.gl_driver.specs.Stops.{stop_of_driver};

    ghost from_gives = { λ driver stop. stop ≡ stop_of_driver driver };

    fn from(stop: DriverStop) -> ExecStop {
        match stop {
            DriverStop::Lost => ExecStop::Lost,
            DriverStop::NoMemory => ExecStop::NoMemory,
        }
    }
}
