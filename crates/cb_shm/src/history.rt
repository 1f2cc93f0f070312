//! The copies and the puts that were made of a memory. Contracts alone read them: they take no memory, and listing one does nothing at
//! run time.
ghost use Rattle.std.specs.Prelude.{List};
ghost use Rattle.std.specs.Borrow.{ftrue};
ghost use Rattle.cb_shm.specs.Memory.{CopyEntry, PutEntry};

use std::marker::Model;

/// The copies and the puts made so far, in order.
#[derive(Drop)]
pub struct History {
    pub ghost copies: { List CopyEntry },
    pub ghost puts: { List PutEntry },
}

impl Model for History {
    ghost also_owns = { λ _. ftrue };
}

/// A copy that gave these bytes, or a put of these bytes.
#[derive(Clone, Copy)]
pub enum Access<'a> {
    Copy {
        region: u32,
        offset: u32,
        bytes: &'a [u8],
    },
    Put {
        region: u32,
        offset: u32,
        bytes: &'a [u8],
    },
}

impl History {
    ghost use Rattle.std.specs.Prelude.{◌≡◌};
    ghost use Rattle.cb_shm.specs.Histories.{no_access, with_access};

    /// The history of a memory of which nothing was copied.
    pub fn new() -> History
        ensures { result ≡ no_access }
    {
        History {}
    }

    /// The history with one more copy or put.
    #[inline(always)]
    pub fn and(&self, _access: &Access<'_>) -> History
        ensures { result ≡ with_access self.now _access.now }
    {
        History {}
    }
}
