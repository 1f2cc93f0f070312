//! What a run leaves.
ghost use Rattle.std.specs.Prelude.{◌≡◌};

use gl_plain::ReplyList;
use std::alloc::Global;
use strict_driver::StrictDriver;

/// What a run leaves: the driver with its journal, and the replies of the commands.
#[derive(Drop)]
pub struct Desk {
    pub driver: StrictDriver,
    pub answers: ReplyList,
}

impl Desk {
    ghost use Rattle.gles2_run.specs.Desks.{new_desk};

    /// A desk on which nothing was done. It takes no memory.
    pub fn new(alloc: Global) -> Desk
        ensures { result ≡ new_desk }
    {
        Desk {
            driver: StrictDriver::new(alloc),
            answers: ReplyList::new(alloc),
        }
    }
}
