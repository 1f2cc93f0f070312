//! Shared memory as the service of a command buffer meets it: the client may change any byte between any two copies.
#![tactic(auto)]

mod block;
mod history;
mod hostile;
mod patching;
mod plain;
mod regions;
mod script;
mod shm;

pub use history::{Access, History};
pub use hostile::HostileMemory;
pub use plain::PlainMemory;
pub use script::Script;
pub use shm::{Shm, ShmRefusal};

#[cfg(test)]
mod tests;
