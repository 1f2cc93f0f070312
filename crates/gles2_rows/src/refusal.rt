//! Why a line was not taken.

use std::alloc::AllocError;
use thiserror::Error;

/// Why a line of a file of rows was not taken.
#[derive(Debug, Drop, Error)]
pub enum LineRefusal {
    /// It is none of the format, or stands where it may not.
    #[error("it can't be read")]
    Unreadable,
    /// There was no memory for what it says.
    #[error("there is no memory for it")]
    NoMemory(#[from(alloc)] AllocError),
}
